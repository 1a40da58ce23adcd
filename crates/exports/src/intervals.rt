// The leaves of the crate subdivision. Bands and subintervals are begin and end of each.
ghost use Rattle.std.specs.Prelude.{◌≡◌, ◌<◌, length};
ghost use Rattle.subdivision.specs.First.{first_for};
ghost use Rattle.exports.specs.Answers.{said, Numbered, Counted};
ghost use Rattle.exports.specs.Intervals.{pair_from, pairs_of, cuts_for};

use crate::{answers, plans};
use fir_types::{Edges, Interval};
use numbers::Refusal;
use std::array;

fn pair_from(numbers: &[f64], i: usize) -> Interval
    requires { i < 8 }
    ensures { result ≡ pair_from numbers.now i }
{
    Interval {
        begin: plans::number_at(numbers, 2 * i),
        end: plans::number_at(numbers, 2 * i + 1),
    }
}

fn pairs_of(numbers: &[f64]) -> Edges
    ensures { result ≡ pairs_of numbers.now }
{
    let count = if numbers.len() % 2 == 0 {
        numbers.len() / 2
    } else {
        0
    };
    Edges {
        list: array::from_fn(|i| pair_from(numbers, i)),
        count,
    }
}

// The first points of bands in radians, functions + 1 of them.
#[unsafe(no_mangle)]
pub extern "C" fn stepsheaf_initial_extremal_freqs(
    bands: &[f64],
    functions: usize,
    out: &mut [f64],
) -> u64
    ensures { Numbered (first_for (pairs_of bands.now) functions (length out.old)) result out.old out.new }
{
    answers::told(subdivision::initial_extremal_freqs(pairs_of(bands), functions, out))
}

#[tactic(auto, unfolding(crate::specs::Intervals::cuts_for), using(subdivision::proofs::Bound::few_intervals))]
fn cuts_into(x: &[f64], bands: &[f64], counts: &mut [u64], out: &mut [f64]) -> Result<(), Refusal>
    ensures { Counted (cuts_for x.now bands.now (length counts.old) (length out.old)) (said result) counts.old counts.new out.old out.new }
{
    if counts.is_empty() || out.len() < 146 {
        return Err(Refusal::Lists);
    }
    let made = subdivision::subdivide(x, pairs_of(bands))?;
    plans::ends_into(&made.list[..made.count], out);
    counts[0] = made.count as u64;
    Ok(())
}

// The subintervals that points in falling x make of bands in rising x; their number goes to `counts`. `out` has room for as many
// as 65 points and 8 bands can make, 73 pairs.
#[unsafe(no_mangle)]
pub extern "C" fn stepsheaf_subdivide(
    x: &[f64],
    bands: &[f64],
    counts: &mut [u64],
    out: &mut [f64],
) -> u64
    ensures { Counted (cuts_for x.now bands.now (length counts.old) (length out.old)) result counts.old counts.new out.old out.new }
{
    answers::told(cuts_into(x, bands, counts, out))
}
