// The functions for C and whatever calls C.
//
// An angle is answered as C's own library does it: a refused call answers a NaN. Every other leaf answers 0, or document 01's
// number of the refusal, and writes its numbers to the front of `out`: a single number to its first place, and nothing where it
// is refused. Where the leaf decides how many numbers there are, `counts` says it. A slice is handed over as its address and its
// length.
#![tactic(auto, using(crate::proofs::AnswerLaws::numbered))]

ghost use Rattle.std.specs.Prelude.{◌≡◌};
ghost use Rattle.numbers.specs.Refusals.{outcome_of};
ghost use Rattle.angles.specs.Turns.{cosine_of, sine_of};
ghost use Rattle.angles.specs.Arccosine.{arccosine_of};
ghost use Rattle.exports.specs.Answers.{or_nan};

use numbers::Refusal;

mod answers;
mod candidates;
mod filters;
mod interpolation;
mod intervals;
mod matrices;
mod plans;
mod polynomials;

pub use answers::told;
pub use candidates::{stepsheaf_prune, stepsheaf_sort_candidates};
pub use filters::{
    stepsheaf_adjust_bands, stepsheaf_adjust_desired, stepsheaf_adjust_weights,
    stepsheaf_check_response, stepsheaf_desired, stepsheaf_taps, stepsheaf_weight,
};
pub use interpolation::{
    stepsheaf_abscissas, stepsheaf_delta, stepsheaf_response, stepsheaf_responses,
    stepsheaf_weights,
};
pub use intervals::{stepsheaf_initial_extremal_freqs, stepsheaf_subdivide};
pub use matrices::{stepsheaf_colleague_matrix, stepsheaf_roots};
pub use plans::plan_of;
pub use polynomials::{stepsheaf_coefficients, stepsheaf_nodes};

fn or_nan(number: Result<f64, Refusal>) -> f64
    ensures { result ≡ or_nan (outcome_of number) }
{
    number.unwrap_or(f64::NAN)
}

// The cosine of an angle from 0 to 3.25.
#[unsafe(no_mangle)]
pub extern "C" fn stepsheaf_cosine(x: f64) -> f64
    ensures { result ≡ or_nan (cosine_of x) }
{
    or_nan(angles::cosine(x))
}

// The sine of an angle from 0 to 3.25.
#[unsafe(no_mangle)]
pub extern "C" fn stepsheaf_sine(x: f64) -> f64
    ensures { result ≡ or_nan (sine_of x) }
{
    or_nan(angles::sine(x))
}

// The arccosine of a number from -1 to 1.
#[unsafe(no_mangle)]
pub extern "C" fn stepsheaf_arccosine(x: f64) -> f64
    ensures { result ≡ or_nan (arccosine_of x) }
{
    or_nan(angles::arccosine(x))
}
