// The leaves of the crates bands and fir_types. `symmetry` is 0 even, 1 odd, else refusal 5; `odd` is 0 where the number of taps
// is even.
ghost use Rattle.std.specs.Prelude.{◌≡◌, Float, length};
ghost use Rattle.std.specs.Float.Ieee.Scale.{finite};
ghost use Rattle.numbers.specs.Outcome.{unless, needed_of};
ghost use Rattle.numbers.specs.Refusals.{outcome_of};
ghost use Rattle.bands.specs.Rules.{plan_holds};
ghost use Rattle.fir_types.specs.Realizable.{realizable_for};
ghost use Rattle.fir_types.specs.Adjusted.{adjusted_desired_for, adjusted_weight_for};
ghost use Rattle.fir_types.specs.Taps.{taps_for};
ghost use Rattle.exports.specs.Answers.{said, number_of, single, Numbered};
ghost use Rattle.exports.specs.Plans.{plan_of, with_symmetry, says_odd, desired_for, weight_for, edges_for};

use crate::{answers, plans};
use bands::Plan;
use numbers::Refusal;

// What a plan's bands give at f, where the plan holds and f and that are finite.
#[tactic(auto, unfolding(bands::specs::Rules::plan_for))]
fn looked_up<F: Fn(Plan, f64) -> f64>(plan: Plan, f: f64, value_at: F) -> Result<f64, Refusal>
    requires { F.IsAlwaysCallable value_at }
    ensures { (value : Float) → ((r : Float) → F.post value_at plan f r → r ≡ value) → outcome_of result ≡ unless (plan_holds plan) 6 (unless (finite f) 9 (needed_of value)) }
{
    bands::check_bands(plan)?;
    if !numbers::is_finite(f) {
        return Err(Refusal::NotFinite);
    }
    numbers::needed(value_at(plan, f))
}

// The desired value at f, in cycles per sample.
#[unsafe(no_mangle)]
pub extern "C" fn stepsheaf_desired(kinds: &[u64], numbers: &[f64], f: f64, out: &mut [f64]) -> u64
    ensures { Numbered (single (length out.old) (desired_for (plan_of kinds.now numbers.now) f)) result out.old out.new }
{
    let value = looked_up(plans::plan_of(kinds, numbers), f, bands::desired_at);
    answers::told(answers::put(value, out))
}

// The weight at f, in cycles per sample.
#[unsafe(no_mangle)]
pub extern "C" fn stepsheaf_weight(kinds: &[u64], numbers: &[f64], f: f64, out: &mut [f64]) -> u64
    ensures { Numbered (single (length out.old) (weight_for (plan_of kinds.now numbers.now) f)) result out.old out.new }
{
    let value = looked_up(plans::plan_of(kinds, numbers), f, bands::weight_at);
    answers::told(answers::put(value, out))
}

// The response check: it writes nothing.
#[unsafe(no_mangle)]
pub extern "C" fn stepsheaf_check_response(
    kinds: &[u64],
    numbers: &[f64],
    symmetry: u64,
    odd: u64,
) -> u64
    ensures { result ≡ number_of (with_symmetry symmetry (λ s. realizable_for (plan_of kinds.now numbers.now) s (says_odd odd))) }
{
    let target = plans::target_of(plans::plan_of(kinds, numbers), symmetry, odd);
    answers::told(target.and_then(|t| t.check_response()))
}

// The adjusted desired value at f radians.
#[unsafe(no_mangle)]
pub extern "C" fn stepsheaf_adjust_desired(
    kinds: &[u64],
    numbers: &[f64],
    symmetry: u64,
    odd: u64,
    f: f64,
    out: &mut [f64],
) -> u64
    ensures { Numbered (single (length out.old) (with_symmetry symmetry (λ s. adjusted_desired_for (plan_of kinds.now numbers.now) s (says_odd odd) f))) result out.old out.new }
{
    let target = plans::target_of(plans::plan_of(kinds, numbers), symmetry, odd);
    answers::told(answers::put(target.and_then(|t| t.adjust_desired(f)), out))
}

// The adjusted weight at f radians.
#[unsafe(no_mangle)]
pub extern "C" fn stepsheaf_adjust_weights(
    kinds: &[u64],
    numbers: &[f64],
    symmetry: u64,
    odd: u64,
    f: f64,
    out: &mut [f64],
) -> u64
    ensures { Numbered (single (length out.old) (with_symmetry symmetry (λ s. adjusted_weight_for (plan_of kinds.now numbers.now) s (says_odd odd) f))) result out.old out.new }
{
    let target = plans::target_of(plans::plan_of(kinds, numbers), symmetry, odd);
    answers::told(answers::put(target.and_then(|t| t.adjust_weights(f)), out))
}

#[tactic(auto, unfolding(crate::specs::Plans::edges_for), using(crate::proofs::EdgeLaws::edges_given))]
fn adjusted_edges(plan: Plan, symmetry: u64, odd: u64, out: &mut [f64]) -> Result<(), Refusal>
    ensures { Numbered (edges_for plan symmetry (says_odd odd) (length out.old)) (said result) out.old out.new }
{
    if out.len() / 2 < plan.count {
        return Err(Refusal::Lists);
    }
    let edges = plans::target_of(plan, symmetry, odd)?.adjust_bands()?;
    plans::ends_into(&edges.list[..edges.count], out);
    Ok(())
}

// The adjusted bands' edges, begin and end of each. `out` has room for as many pairs as the plan has bands.
#[unsafe(no_mangle)]
pub extern "C" fn stepsheaf_adjust_bands(
    kinds: &[u64],
    numbers: &[f64],
    symmetry: u64,
    odd: u64,
    out: &mut [f64],
) -> u64
    ensures { Numbered (edges_for (plan_of kinds.now numbers.now) symmetry (says_odd odd) (length out.old)) result out.old out.new }
{
    answers::told(adjusted_edges(plans::plan_of(kinds, numbers), symmetry, odd, out))
}

fn taps_into(
    coefficients: &[f64],
    taps: usize,
    symmetry: u64,
    out: &mut [f64],
) -> Result<(), Refusal>
    ensures { Numbered (with_symmetry symmetry (λ s. taps_for coefficients.now taps s (length out.old))) (said result) out.old out.new }
{
    let symmetry = plans::symmetry_in(symmetry)?;
    fir_types::h_from_ak(coefficients, taps, symmetry, out)
}

// The taps of the coefficients. A symmetry above 1 is refused first: without it no list has a right length.
#[unsafe(no_mangle)]
pub extern "C" fn stepsheaf_taps(
    coefficients: &[f64],
    taps: usize,
    symmetry: u64,
    out: &mut [f64],
) -> u64
    ensures { Numbered (with_symmetry symmetry (λ s. taps_for coefficients.now taps s (length out.old))) result out.old out.new }
{
    answers::told(taps_into(coefficients, taps, symmetry, out))
}
