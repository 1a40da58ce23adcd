// Numbers as a person or the oracle writes them, bands and plans.
ghost use Rattle.std.specs.Prelude.{◌≡◌};
ghost use Rattle.cases.specs.Plans.{plain_in, written_in, written_at, two_past, value_from, read_in, band_at, empty_plan, plan_at};

use crate::{Span, count_at, number_in, past, whole_at};
use bands::{Band, Plan, Symmetry, Value};
use text::Word;

// A band, and where its line ends.
#[derive(Clone, Copy)]
pub struct Banded {
    pub band: Band,
    pub at: usize,
}

// A plan, and where it ends.
#[derive(Clone, Copy)]
pub struct Planned {
    pub plan: Plan,
    pub at: usize,
}

#[tactic(auto, unfolding(crate::specs::Plans::plain_in))]
fn plain_in(s: &[u8], word: Word) -> f64
    ensures { result ≡ plain_in s.now word.from word.to }
{
    let Some(f) = text::plain(s, word) else {
        return f64::NAN;
    };
    let x = numbers::whole(f.digits) / numbers::whole(f.scale);
    if f.minus { -x } else { x }
}

// A number: its 16 digits, or a plain decimal, rounded once; a NaN for what is neither.
#[tactic(auto, unfolding(crate::specs::Plans::written_in))]
pub fn written_in(s: &[u8], word: Word) -> f64
    ensures { result ≡ written_in s.now word.from word.to }
{
    match text::hex(s, word) {
        Some(_) => number_in(s, word),
        None => plain_in(s, word),
    }
}

// The next word as a number.
#[tactic(auto, unfolding(crate::specs::Plans::written_at))]
pub fn written_at(s: &[u8], at: usize) -> f64
    ensures { result ≡ written_at s.now at }
{
    match text::next(s, at) {
        Some(word) => written_in(s, word),
        None => f64::NAN,
    }
}

#[tactic(auto, unfolding(crate::specs::Plans::two_past))]
fn two_past(s: &[u8], at: usize) -> usize
    ensures { result ≡ two_past s.now at }
{
    past(s, past(s, at))
}

// Two numbers, of which a constant takes the first.
#[tactic(auto, unfolding(crate::specs::Plans::value_from))]
fn value_from(s: &[u8], at: usize, kind: usize) -> Value
    ensures { result ≡ value_from s.now at kind }
{
    match kind {
        0 => Value::Constant(written_at(s, at)),
        _ => Value::Linear(written_at(s, at), written_at(s, past(s, at))),
    }
}

// A band's line, its keyword too; as far as it could be read where that is no band.
#[tactic(auto, unfolding(crate::specs::Plans::band_at))]
pub fn band_at(s: &[u8], at: usize) -> Result<Banded, Banded>
    ensures { result ≡ band_at s.now at }
{
    let d = count_at(s, past(s, at));
    let kind = whole_at(s, d.at);
    let w = kind.unwrap_or(Span { count: 0, at: d.at });
    let edge = past(s, w.at);
    let p = past(s, edge);
    let q = two_past(s, p);
    let banded = Banded {
        band: Band {
            begin: written_at(s, w.at),
            end: written_at(s, edge),
            desired: value_from(s, p, d.count),
            weight: value_from(s, q, w.count),
        },
        at: two_past(s, q),
    };
    if kind.is_some() && d.count <= 1 && w.count <= 1 {
        Ok(banded)
    } else {
        Err(banded)
    }
}

// What was read of a band's line.
fn read_in(read: Result<Banded, Banded>) -> Banded
    ensures { result ≡ read_in read }
{
    match read {
        Ok(b) | Err(b) => b,
    }
}

fn empty() -> Plan
    ensures { result ≡ empty_plan }
{
    let v = Value::Constant(1.0);
    Plan {
        bands: [Band {
            begin: 0.0,
            end: 0.5,
            desired: v,
            weight: v,
        }; 8],
        count: 0,
    }
}

// Band lines, as many as `count` says, also after one that is no band; more than a plan can hold are not read.
#[tactic(auto, unfolding(crate::specs::Plans::plan_at))]
pub fn plan_at(s: &[u8], at: usize, count: usize) -> Result<Planned, Planned>
    ensures { result ≡ plan_at s.now at count }
{
    if Plan::BANDS < count {
        return Err(Planned { plan: empty(), at });
    }
    let mut plan = Plan { count, ..empty() };
    let mut from = at;
    let mut good = true;
    for i in 0..count {
        let read = band_at(s, from);
        good &= read.is_ok();
        let b = read_in(read);
        plan.bands[i] = b.band;
        from = b.at;
    }
    let planned = Planned { plan, at: from };
    if good { Ok(planned) } else { Err(planned) }
}
