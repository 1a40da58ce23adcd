// Barycentric interpolation: weights, delta, abscissas and the response (barycentric.rs of pm-remez).
#![tactic(auto)]

ghost use Rattle.std.specs.Prelude.{◌≡◌};
ghost use Rattle.barycentric.specs.Delta.{no_sums, quotient};
ghost use Rattle.barycentric.specs.Limits.{sized, alike, three_alike, three_finite};

mod delta;
mod response;
mod weights;

pub use delta::{compute_delta, compute_lagrange_abscisa};
pub use response::{compute_freq_response, compute_freq_responses};
pub use weights::compute_barycentric_weights;

// As many points as there may be: 128 taps have 64 functions, and those one point more.
pub const POINTS: usize = 65;

// The two sums whose quotient is a delta or a response.
#[derive(Clone, Copy)]
pub struct Sums {
    pub numer: f64,
    pub denom: f64,
}

impl Sums {
    fn none() -> Sums
        ensures { result ≡ no_sums }
    {
        Sums {
            numer: 0.0,
            denom: 0.0,
        }
    }

    fn quotient(self) -> f64
        ensures { result ≡ quotient self }
    {
        self.numer / self.denom
    }
}

fn is_sized(n: usize) -> bool
    ensures { result ≡ sized n }
{
    1 <= n && n <= POINTS
}

fn are_alike(n: usize, m: usize) -> bool
    ensures { result ≡ alike n m }
{
    is_sized(n) && m == n
}

fn three_alike(n: usize, m: usize, k: usize) -> bool
    ensures { result ≡ three_alike n m k }
{
    are_alike(n, m) && k == n
}

fn three_finite(a: &[f64], b: &[f64], c: &[f64]) -> bool
    ensures { result ≡ three_finite a.now b.now c.now }
{
    numbers::all_finite(a) && numbers::all_finite(b) && numbers::all_finite(c)
}
