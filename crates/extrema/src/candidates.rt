ghost use Rattle.std.specs.Prelude.{◌≡◌, true, ◌++◌, ◌+◌, ◌≤◌, ◌/◌, length, get_or, Float};
ghost use Rattle.numbers.specs.Floats.{all_finite};
ghost use Rattle.numbers.specs.Loops.{tab};
ghost use Rattle.pruning.specs.declared.candidates.Candidate.{Candidate};
ghost use Rattle.pruning.specs.Candidates.{all, view, none, Framed};
ghost use Rattle.extrema.specs.Errors.{curve_of};
ghost use Rattle.extrema.specs.Candidates.{joined, candidates_for, Room};
ghost use Rattle.extrema.specs.Batches.{Behind};

use crate::Curve;
use numbers::Refusal;
use pruning::Candidate;

// Candidates with these errors behind the first n.
pub(crate) fn put_all(places: &[f64], e: &[f64], words: &mut [u64], n: usize)
    requires { Room (length places.now) n words.old × (length e.now ≡ length places.now) × (all_finite places.now ≡ true) × (all_finite e.now ≡ true) }
    ensures { (view words.new (n + length places.now) ≡ view words.old n ++ joined places.now e.now) × Framed (n + length places.now) words.old words.new }
{
    for i in 0..places.len() {
        pruning::put_candidate(
            words,
            n + i,
            Candidate {
                x: places[i],
                error: e[i],
            },
        );
    }
}

// What `part` takes of the candidates from i on, as many as there is room for.
pub(crate) fn read_all<F: Fn(Candidate) -> f64>(words: &[u64], i: usize, out: &mut [f64], part: F)
    requires { (i + length out.old ≤ length words.now / 2) × ((c : Candidate) → F.pre part c) }
    ensures { (f : Candidate → Float) → ((c : Candidate) (x : Float) → F.post part c x → x ≡ f c) → out.new ≡ tab (λ k. f (get_or (all words.now) (i + k) none)) (length out.old) 0 }
{
    for k in 0..out.len() {
        out[k] = part(pruning::candidate_at(words, i + k));
    }
}

// A candidate at each of the places, behind the first n.
#[tactic(auto, using(crate::proofs::CandidateLaws::candidates_stop, crate::proofs::BatchStages::behind_stop))]
pub(crate) fn add_candidates(
    curve: Curve,
    places: &[f64],
    words: &mut [u64],
    n: usize,
) -> Result<usize, Refusal>
    requires { Room (length places.now) n words.old × (length places.now ≤ 17) }
    ensures { Behind (length places.now) (candidates_for (curve_of curve.entry) places.now) n result words.old words.new }
{
    if places.is_empty() {
        return Ok(n);
    }
    let mut e = [0.0; 17];
    let e = &mut e[..places.len()];
    curve.errors(places, e)?;
    put_all(places, e, words, n);
    Ok(n + places.len())
}
