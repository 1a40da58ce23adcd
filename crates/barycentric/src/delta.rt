ghost use Rattle.std.specs.Prelude.{◌≡◌, ◌&&◌, ◌<◌, leb, length};
ghost use Rattle.std.specs.Float.Ieee.Scale.{finite};
ghost use Rattle.numbers.specs.Floats.{all_finite};
ghost use Rattle.numbers.specs.Refusals.{outcome_of, Filled};
ghost use Rattle.barycentric.specs.Limits.{alike};
ghost use Rattle.barycentric.specs.Delta.{delta_step, delta_sums, delta_for};
ghost use Rattle.barycentric.specs.Abscissas.{abscissa, abscissas_of, abscissas_for};

use super::Sums;
use numbers::Refusal;

fn delta_step(wk: &[f64], desired: &[f64], weights: &[f64], i: usize, s: Sums) -> Sums
    requires { (i < length wk.now) × (i < length desired.now) × (i < length weights.now) }
    ensures { result ≡ delta_step wk.now desired.now weights.now i s }
{
    let w = wk[i];
    let z = w / weights[i];
    Sums {
        numer: s.numer + w * desired[i],
        denom: if i % 2 == 0 { s.denom + z } else { s.denom - z },
    }
}

#[tactic(auto, using(numbers::proofs::LoopLaws::loops), unfolding(crate::specs::Delta::delta_sums))]
fn delta_sums(wk: &[f64], desired: &[f64], weights: &[f64]) -> Sums
    requires { (length desired.now ≡ length wk.now) × (length weights.now ≡ length wk.now) }
    ensures { result ≡ delta_sums wk.now desired.now weights.now }
{
    let mut s = Sums::none();
    for i in 0..wk.len() {
        s = delta_step(wk, desired, weights, i, s);
    }
    s
}

// delta of 1 to 65 points' weights, desired values and error weights.
#[tactic(auto, unfolding(crate::specs::Delta::delta_for))]
pub fn compute_delta(wk: &[f64], desired: &[f64], weights: &[f64]) -> Result<f64, Refusal>
    ensures { outcome_of result ≡ delta_for wk.now desired.now weights.now }
{
    if !super::three_alike(wk.len(), desired.len(), weights.len()) {
        return Err(Refusal::Lists);
    }
    if !super::three_finite(wk, desired, weights) {
        return Err(Refusal::NotFinite);
    }
    numbers::needed(delta_sums(wk, desired, weights).quotient())
}

fn abscissa_at(delta: f64, desired: &[f64], weights: &[f64], k: usize) -> f64
    requires { (k < length desired.now) × (k < length weights.now) }
    ensures { result ≡ abscissa delta desired.now weights.now k }
{
    let z = delta / weights[k];
    if k % 2 == 0 {
        desired[k] - z
    } else {
        desired[k] + z
    }
}

fn abscissas_into(delta: f64, desired: &[f64], weights: &[f64], out: &mut [f64])
    requires { (length weights.now ≡ length desired.now) × (length out.old ≡ length desired.now) }
    ensures { out.new ≡ abscissas_of delta desired.now weights.now }
{
    for k in 0..desired.len() {
        out[k] = abscissa_at(delta, desired, weights, k);
    }
}

fn are_sized_for_abscissas(n: usize, m: usize, room: usize) -> bool
    ensures { result ≡ (alike n m && leb n room) }
{
    super::are_alike(n, m) && n <= room
}

fn are_finite(delta: f64, desired: &[f64], weights: &[f64]) -> bool
    ensures { result ≡ (finite delta && all_finite desired.now && all_finite weights.now) }
{
    numbers::is_finite(delta) && numbers::all_finite(desired) && numbers::all_finite(weights)
}

// The abscissas of 1 to 65 points, to the front of `out`.
#[tactic(auto, unfolding(crate::specs::Abscissas::abscissas_for), using(crate::proofs::Lengths::abscissas_length))]
pub fn compute_lagrange_abscisa(
    delta: f64,
    desired: &[f64],
    weights: &[f64],
    out: &mut [f64],
) -> Result<(), Refusal>
    ensures { Filled (abscissas_for delta desired.now weights.now (length out.old)) (length desired.now) result out.old out.new }
{
    if !are_sized_for_abscissas(desired.len(), weights.len(), out.len()) {
        return Err(Refusal::Lists);
    }
    if !are_finite(delta, desired, weights) {
        return Err(Refusal::NotFinite);
    }
    let n = desired.len();
    let mut y = [0.0; super::POINTS];
    abscissas_into(delta, desired, weights, &mut y[..n]);
    numbers::needed_list(&y[..n], out)
}
