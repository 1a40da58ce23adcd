ghost use Rattle.std.specs.Prelude.{◌≡◌, cond, ◌≤◌, length};
ghost use Rattle.std.specs.Float.Ieee.{lt};
ghost use Rattle.numbers.specs.Refusals.{outcome_of};
ghost use Rattle.exchange.specs.Flatness.{spread_of, flatness_of};

use numbers::Refusal;
use pruning::Candidate;

// The largest and the smallest magnitude.
#[derive(Clone, Copy)]
struct Spread {
    most: f64,
    least: f64,
}

fn larger(a: f64, b: f64) -> f64
    ensures { result ≡ cond (lt a b) b a }
{
    if a < b { b } else { a }
}

fn spread_of(list: &[Candidate]) -> Spread
    requires { 1 ≤ length list.now }
    ensures { result ≡ spread_of list.now }
{
    let mut most = numbers::magnitude(list[0].error);
    let mut least = most;
    for i in 1..list.len() {
        let a = numbers::magnitude(list[i].error);
        most = larger(most, a);
        least = numbers::smaller(least, a);
    }
    Spread { most, least }
}

// How flat the errors of the candidates are.
#[tactic(auto, unfolding(crate::specs::Flatness::flatness_of))]
pub(crate) fn flatness_of(list: &[Candidate]) -> Result<f64, Refusal>
    requires { 1 ≤ length list.now }
    ensures { outcome_of result ≡ flatness_of list.now }
{
    let s = spread_of(list);
    if s.most == 0.0 {
        return Err(Refusal::NotFinite);
    }
    numbers::needed((s.most - s.least) / s.most)
}
