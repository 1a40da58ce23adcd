// Taps, lookup, response check, edges and adjusted values.
use crate::judging::{judged_list, judged_one};
use crate::plans::filter_at;
use crate::reading::any_into;
use bands::Symmetry;
use cases::{count_at, is_same, list_into, numbers_into, past, plan_at};
use fir_types::{Interval, Target};
use numbers::Refusal;

pub(crate) fn taps(s: &[u8], at: usize) -> Option<bool> {
    let mut a = [0.0; 128];
    let mut said = [0.0; 128];
    let mut out = [0.0; 128];
    let t = count_at(s, past(s, at));
    let y = count_at(s, t.at);
    let p = list_into(s, y.at, &mut a).ok()?;
    let g = list_into(s, p.at, &mut said).ok()?;
    let v = fir_types::h_from_ak(
        a.get(..p.count)?,
        t.count,
        Symmetry::from(y.count as u64),
        &mut out,
    );
    Some(judged_list(v, &out, &said, g.count))
}

pub(crate) fn lookup(s: &[u8], at: usize) -> Option<bool> {
    let mut places = [0.0; 128];
    let mut said = [0.0; 128];
    let n = count_at(s, past(s, at));
    let p = plan_at(s, n.at, n.count).ok()?;
    let t = any_into(s, p.at, &mut places);
    list_into(s, t.at, &mut said).ok()?;
    let plan = p.plan;
    Some(
        places
            .get(..t.count)?
            .iter()
            .zip(&said)
            .all(|(&f, &d)| is_same(bands::desired_at(plan, f), d)),
    )
}

pub(crate) fn realizable(s: &[u8], at: usize) -> Option<bool> {
    let f = filter_at(s, at)?;
    let word = text::next(s, past(s, f.at))?;
    Some(text::is(s, word, b"realizable") == f.target.check_response().is_ok())
}

fn is_interval(m: Interval, pair: &[f64; 2]) -> bool {
    is_same(m.begin, pair[0]) && is_same(m.end, pair[1])
}

// Whether the pairs of positive length are just the intervals. pm-remez keeps the others too.
fn are_kept(intervals: &[Interval], said: &[[f64; 2]]) -> bool {
    let mut left = intervals;
    for pair in said {
        if pair[0] < pair[1] {
            match left {
                [m, rest @ ..] if is_interval(*m, pair) => left = rest,
                _ => return false,
            }
        }
    }
    left.is_empty()
}

pub(crate) fn edges(s: &[u8], at: usize) -> Option<bool> {
    let mut said = [[0.0; 2]; 64];
    let f = filter_at(s, at)?;
    let n = count_at(s, past(s, f.at));
    let count = n.count.checked_mul(2)?;
    numbers_into(s, n.at, count, said.as_flattened_mut())?;
    let said = said.get(..n.count)?;
    match f.target.adjust_bands() {
        Ok(e) => Some(are_kept(e.list.get(..e.count)?, said)),
        Err(_) => Some(are_kept(&[], said)),
    }
}

// Whether the second interval is the first in radians.
fn is_in_radians(given: &[f64; 2], said: &[f64; 2]) -> bool {
    let m = fir_types::in_radians(Interval {
        begin: given[0],
        end: given[1],
    });
    is_interval(m, said)
}

pub(crate) fn radians(s: &[u8], at: usize) -> Option<bool> {
    let mut given = [[0.0; 2]; 64];
    let mut said = [[0.0; 2]; 64];
    let n = count_at(s, past(s, at));
    let count = n.count.checked_mul(2)?;
    let p = numbers_into(s, n.at, count, given.as_flattened_mut())?;
    let q = past(s, past(s, p.at));
    numbers_into(s, q, count, said.as_flattened_mut())?;
    let given = given.get(..n.count)?;
    Some(given.iter().zip(&said).all(|(m, q)| is_in_radians(m, q)))
}

// Desired values or weights at the places of a list, as `adjust` gives them.
pub(crate) fn adjusted<F: Fn(Target, f64) -> Result<f64, Refusal>>(
    s: &[u8],
    at: usize,
    adjust: F,
) -> Option<bool>
    requires { F.IsAlwaysCallable adjust }
{
    let mut places = [0.0; 128];
    let mut said = [0.0; 128];
    let f = filter_at(s, at)?;
    let t = any_into(s, f.at, &mut places);
    list_into(s, t.at, &mut said).ok()?;
    let target = f.target;
    let places = places.get(..t.count)?;
    Some(
        places
            .iter()
            .zip(&said)
            .all(|(&f, &v)| judged_one(adjust(target, f), v)),
    )
}
