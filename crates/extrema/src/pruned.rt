ghost use Rattle.std.specs.Prelude.{◌≡◌, [], ◌/◌, ◌≤◌, length};
ghost use Rattle.numbers.specs.Outcome.{bind, gave};
ghost use Rattle.numbers.specs.Refusals.{outcome_of};
ghost use Rattle.pruning.specs.Candidates.{all, view};
ghost use Rattle.extrema.specs.Extrema.{chosen, pruned_to, packed};

use crate::{Kept, candidates};
use numbers::Refusal;
use pruning::Candidate;

// The candidates at the places.
fn chosen_from(words: &[u64], places: &[u64]) -> Kept
    requires { length places.now ≤ 65 }
    ensures { result ≡ packed (chosen (all words.now) places.now) }
{
    let mut list = [Candidate { x: 0.0, error: 0.0 }; 65];
    for i in 0..places.len() {
        list[i] = pruning::candidate_at(words, places[i] as usize);
    }
    Kept {
        list,
        count: places.len(),
    }
}

// The first `count` candidates sorted by x and pruned to n.
pub(crate) fn prune_to(words: &mut [u64], count: usize, n: usize) -> Result<Kept, Refusal>
    requires { (count ≤ length words.old / 2) × (count ≤ 1241) × (n ≤ 65) }
    ensures { outcome_of result ≡ bind (pruned_to n (view words.old count)) (λ l. gave (packed l)) }
{
    pruning::sort_candidates(words, count);
    let mut errors = [0.0; 1241];
    let errors = &mut errors[..count];
    candidates::read_all(words, 0, errors, |c| c.error);
    let mut places = [0u64; 65];
    let places = &mut places[..n];
    pruning::prune_extrema_candidates(errors, n, places)?;
    Ok(chosen_from(words, places))
}
