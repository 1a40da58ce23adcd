// The archive of the crate exports, for C and whatever calls C: each function is the one of its name there, with its very clauses.
// Kept: the C interface: an archive has the names that its own crate exports, so each stands here again.
#![tactic(auto)]

ghost use Rattle.std.specs.Prelude.{◌≡◌};
ghost use Rattle.angles.specs.Turns.{cosine_of, sine_of};
ghost use Rattle.angles.specs.Arccosine.{arccosine_of};
ghost use Rattle.exports.specs.Answers.{or_nan};

mod candidates;
mod filters;
mod interpolation;
mod intervals;
mod matrices;
mod polynomials;

pub use candidates::{stepsheaf_prune, stepsheaf_sort_candidates};
pub use filters::{
    stepsheaf_adjust_bands, stepsheaf_adjust_desired, stepsheaf_adjust_weights,
    stepsheaf_check_response, stepsheaf_desired, stepsheaf_taps, stepsheaf_weight,
};
pub use interpolation::{
    stepsheaf_abscissas, stepsheaf_delta, stepsheaf_response, stepsheaf_responses,
    stepsheaf_weights,
};
pub use intervals::{stepsheaf_initial_extremal_freqs, stepsheaf_subdivide};
pub use matrices::{stepsheaf_colleague_matrix, stepsheaf_roots};
pub use polynomials::{stepsheaf_coefficients, stepsheaf_nodes};

// The cosine of an angle from 0 to 3.25.
#[unsafe(no_mangle)]
pub extern "C" fn stepsheaf_cosine(x: f64) -> f64
    ensures { result ≡ or_nan (cosine_of x) }
{
    exports::stepsheaf_cosine(x)
}

// The sine of an angle from 0 to 3.25.
#[unsafe(no_mangle)]
pub extern "C" fn stepsheaf_sine(x: f64) -> f64
    ensures { result ≡ or_nan (sine_of x) }
{
    exports::stepsheaf_sine(x)
}

// The arccosine of a number from -1 to 1.
#[unsafe(no_mangle)]
pub extern "C" fn stepsheaf_arccosine(x: f64) -> f64
    ensures { result ≡ or_nan (arccosine_of x) }
{
    exports::stepsheaf_arccosine(x)
}
