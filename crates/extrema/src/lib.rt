// The extrema of the weighted error that an exchange moves its points to (extrema.rs and barycentric.rs of pm-remez).
#![tactic(auto)]

ghost use Rattle.std.specs.Prelude.{ℕ, Ok, ◌≡◌, [], ◌∷◌, ◌+◌, ◌*◌, ◌/◌, ◌≤◌, List, length, Float};
ghost use Rattle.numbers.specs.Outcome.{Outcome, bind, gave, sweep};
ghost use Rattle.numbers.specs.Refusals.{outcome_of, few};
ghost use Rattle.fir_types.specs.declared.edges.Interval.{Interval};
ghost use Rattle.pruning.specs.declared.candidates.Candidate.{Candidate};
ghost use Rattle.extrema.specs.Errors.{curve_of};
ghost use Rattle.extrema.specs.Candidates.{candidates_for, Stage, Room};
ghost use Rattle.extrema.specs.Batches.{Finds, FindsAt, Puts, PutsAt, Behind};
ghost use Rattle.extrema.specs.Extrema.{collected, extrema_in, packed, Found, pruned_to};

mod batches;
mod candidates;
mod curve;
mod proxy;
mod pruned;

pub use curve::Curve;
use fir_types::Interval;
use listed::Listed;
use numbers::Refusal;
use pruning::Candidate;
use subdivision::Intervals;

// The candidates that are kept, in rising x.
pub type Kept = Listed<Candidate, 65>;

// Two words for each of the 1,241 candidates that there may be.
pub const WORDS: usize = 2482;

// The places that `find` finds in each subinterval, at most MOST, put behind the first `start` candidates.
fn put_each<
    const MOST: usize,
    F: Fn(Interval, &mut [f64]) -> Result<usize, Refusal>,
    P: Fn(&[f64], &mut [u64], usize) -> Result<usize, Refusal>,
>(list: &[Interval], find: &F, put: P, words: &mut [u64], start: usize) -> Result<usize, Refusal>
    requires room { Room (MOST * length list.now) start words.old }
    requires finds { Finds MOST (F.pre find.now) (F.post find.now) }
    requires puts { Puts MOST (P.pre put) (P.post put) }
    ensures most { few result ≤ start + MOST * length list.now }
    ensures least { (n : ℕ) → result ≡ Ok n → start ≤ n }
    ensures swept { (place : Interval → Outcome (List Float)) (g : List Float → List Candidate → Outcome (List Candidate)) → FindsAt MOST (F.post find.now) place → PutsAt MOST (P.post put) g → Behind (MOST * length list.now) (sweep (λ v l. bind (place v) (λ p. g p l)) list.now) start result words.old words.new }
{
    let mut places = [0.0; MOST];
    let mut n = start;
    for &v in list {
        let k = find(v, &mut places)?;
        n = put(&places[..k], words, n)?;
    }
    Ok(n)
}

// The candidates at those places: first all places, then the errors there; where something is refused, one subinterval after another,
// so that what is refused first is told.
fn add_each<const MOST: usize, F: Fn(Interval, &mut [f64]) -> Result<usize, Refusal>>(
    curve: Curve,
    list: &[Interval],
    find: &F,
    words: &mut [u64],
    start: usize,
) -> Result<usize, Refusal>
    requires most { MOST ≤ 17 }
    requires room { Room (MOST * length list.now) start words.old }
    requires finds { Finds MOST (F.pre find.now) (F.post find.now) }
    ensures { (place : Interval → Outcome (List Float)) → FindsAt MOST (F.post find.now) place → Stage (MOST * length list.now) (sweep (λ v l. bind (place v) (λ p. candidates_for (curve_of curve.entry) p l)) list.now) start result words.old words.new }
{
    if let Ok(n) = put_each::<MOST, _, _>(list, find, batches::mark_places, words, start) {
        if let Ok(()) = batches::settle_all(curve, words, start, n) {
            return Ok(n);
        }
    }
    let add = |places: &[f64], words: &mut [u64], n: usize| {
        candidates::add_candidates(curve, places, words, n)
    };
    put_each::<MOST, _, _>(list, find, add, words, start)
}

// Both ends of a subinterval.
fn ends(v: Interval, out: &mut [f64]) -> Result<usize, Refusal>
    requires { length out.old ≡ 2 }
    ensures { (result ≡ Ok 2) × (out.new ≡ v.begin ∷ v.end ∷ []) }
{
    out.copy_from_slice(&[v.begin, v.end]);
    Ok(2)
}

// The candidates of all subintervals, sorted and pruned to n.
fn collect(
    curve: Curve,
    nodes: &[f64],
    list: &[Interval],
    n: usize,
    words: &mut [u64],
) -> Result<Kept, Refusal>
    requires { (length list.now ≤ 73) × (n ≤ 65) × (2482 ≤ length words.old) × (2 ≤ length nodes.now) × (length nodes.now ≤ 17) }
    ensures { outcome_of result ≡ bind (bind (collected (curve_of curve.entry) nodes.now list.now) (pruned_to n)) (λ l. gave (packed l)) }
{
    let k = add_each::<2, _>(curve, list, &ends, words, 0)?;
    let inside = |v: Interval, out: &mut [f64]| proxy::places_inside(curve, nodes, v, out);
    let m = add_each::<15, _>(curve, list, &inside, words, k)?;
    pruned::prune_to(words, m, n)
}

#[tactic(auto, unfolding(crate::specs::Extrema::extrema_in))]
fn search(
    curve: Curve,
    intervals: Intervals,
    degree: usize,
    n: usize,
    words: &mut [u64],
) -> Result<Kept, Refusal>
    requires { 2482 ≤ length words.old }
    ensures { outcome_of result ≡ bind (extrema_in (curve_of curve.entry) intervals degree n) (λ l. gave (packed l)) }
{
    if 73 < intervals.count || 65 < n {
        return Err(Refusal::Lists);
    }
    if degree < 2 || 16 < degree {
        return Err(Refusal::Request);
    }
    let mut nodes = [0.0; 17];
    let nodes = &mut nodes[..degree + 1];
    chebyshev::chebyshev_nodes(degree, nodes)?;
    collect(curve, nodes, &intervals.list[..intervals.count], n, words)
}

// The n extrema in the subintervals that the exchange goes on with: candidates in rising x with errors of alternating sign. The plan is
// one that is known to hold; of another, errors are what its lookup gives. The first 2,482 words are worked in, and zero afterwards.
#[tactic(auto, unfolding(crate::specs::Extrema::extrema_for))]
pub fn find_extrema(
    curve: Curve,
    intervals: Intervals,
    degree: usize,
    n: usize,
    words: &mut [u64],
) -> Result<Kept, Refusal>
    ensures { Found (curve_of curve.entry) intervals degree n result words.old words.new }
{
    if words.len() < WORDS {
        return Err(Refusal::Room);
    }
    let words = &mut words[..WORDS];
    let found = search(curve, intervals, degree, n, words);
    numbers::wipe(words);
    found
}
