// Many candidates at a time: a call for responses tests its lists anew, so that few calls for many places cost less than many for few.
ghost use Rattle.std.specs.Prelude.{◌≡◌, ◌+◌, ◌≤◌, ◌/◌, length};
ghost use Rattle.extrema.specs.Errors.{curve_of};
ghost use Rattle.extrema.specs.Candidates.{Room};
ghost use Rattle.extrema.specs.Batches.{marked, Behind, Tried};

use crate::{Curve, candidates};
use numbers::Refusal;

// The places as candidates whose errors are still to come, behind the first n.
pub(crate) fn mark_places(places: &[f64], words: &mut [u64], n: usize) -> Result<usize, Refusal>
    requires { Room (length places.now) n words.old × (length places.now ≤ 17) }
    ensures { Behind (length places.now) (marked places.now) n result words.old words.new }
{
    if !numbers::all_finite(places) {
        return Err(Refusal::NotFinite);
    }
    let unknown = [0.0; 17];
    candidates::put_all(places, &unknown[..places.len()], words, n);
    Ok(n + places.len())
}

// The errors of m candidates from i on.
fn settle(curve: Curve, words: &mut [u64], i: usize, m: usize) -> Result<(), Refusal>
    requires { Room m i words.old × (m ≤ 64) }
    ensures { Tried (curve_of curve.entry) i (i + m) result words.old words.new }
{
    let mut at = [0.0; 64];
    let mut e = [0.0; 64];
    let at = &mut at[..m];
    let e = &mut e[..m];
    candidates::read_all(words, i, at, |c| c.x);
    curve.errors(at, e)?;
    candidates::put_all(at, e, words, i);
    Ok(())
}

// The errors of the candidates from `start` to the n-th. Where one is refused, which comes first in computing order is not told.
pub(crate) fn settle_all(
    curve: Curve,
    words: &mut [u64],
    start: usize,
    n: usize,
) -> Result<(), Refusal>
    requires { (start ≤ n) × (n ≤ length words.old / 2) }
    ensures { Tried (curve_of curve.entry) start n result words.old words.new }
{
    let mut i = start;
    // Kept: no plainer: i goes on by as many as are worked out at a time.
    while i < n {
        let m = (n - i).min(64);
        settle(curve, words, i, m)?;
        i += m;
    }
    Ok(())
}
