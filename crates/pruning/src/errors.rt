ghost use Rattle.std.specs.Prelude.{◌≡◌, ◌+◌, ◌-◌, ◌/◌, ◌%◌, ◌<◌, ◌≤◌, ◌++◌, length, get_or, take, drop};
ghost use Rattle.std.specs.Float.{nan};
ghost use Rattle.numbers.specs.Refusals.{Filled};
ghost use Rattle.pruning.specs.Prune.{runs, weakest, without_end, without_pairs, cut};
ghost use Rattle.pruning.specs.Errors.{negative_at, size_at, places_of, kept_places, sized, prune_for, Fitting};

use numbers::Refusal;

// As many errors as an exchange may have candidates: subintervals times (degree + 1).
pub const CANDIDATES: usize = 1241;

// The error at a place; a NaN where there is none.
fn error_at(errors: &[f64], place: u64) -> f64
    ensures { result ≡ get_or errors.now place nan }
{
    match errors.get(place as usize) {
        Some(&error) => error,
        None => 0.0 / 0.0,
    }
}

fn size(errors: &[f64], place: u64) -> f64
    ensures { result ≡ size_at errors.now place }
{
    numbers::magnitude(error_at(errors, place))
}

// The place of the largest of each run to the front of `kept`, and their number.
fn keep_runs(errors: &[f64], kept: &mut [u64]) -> usize
    requires { (1 ≤ length errors.now) × (length errors.now ≤ length kept.old) }
    ensures { (result ≤ length errors.now) × (take result kept.new ≡ runs (negative_at errors.now) (size_at errors.now) (places_of errors.now)) }
{
    let mut m: usize = 0;
    let mut b: u64 = 0;
    // The sign and the magnitude at b, so that no turn reads them again.
    let mut below = errors[0] < 0.0;
    let mut largest = numbers::magnitude(errors[0]);
    for i in 1..errors.len() {
        let negative = errors[i] < 0.0;
        let size = numbers::magnitude(errors[i]);
        if below != negative {
            kept[m] = b;
            m += 1;
            b = i as u64;
            below = negative;
            largest = size;
        } else if largest < size {
            b = i as u64;
            largest = size;
        }
    }
    kept[m] = b;
    m + 1
}

// Where the earliest of the weakest neighbouring pairs stands, of the first n kept.
fn weakest_pair(errors: &[f64], kept: &[u64], n: usize) -> usize
    requires { (2 ≤ n) × (n ≤ length kept.now) }
    ensures weakest { result ≡ weakest (negative_at errors.now) (size_at errors.now) (take n kept.now) }
    ensures inside { result + 2 ≤ n }
{
    let mut best: usize = 0;
    let first = size(errors, kept[0]);
    // The magnitude at k, so that no turn reads it again.
    let mut last = size(errors, kept[1]);
    let mut v = numbers::smaller(first, last);
    for k in 1..n - 1 {
        let next = size(errors, kept[k + 1]);
        let p = numbers::smaller(last, next);
        if p < v {
            best = k;
            v = p;
        }
        last = next;
    }
    best
}

fn drop_end(errors: &[f64], kept: &mut [u64], m: usize)
    requires { (1 ≤ m) × (m ≤ length kept.old) }
    ensures { take (m - 1) kept.new ≡ without_end (negative_at errors.now) (size_at errors.now) (take m kept.old) }
{
    if size(errors, kept[0]) >= size(errors, kept[m - 1]) {
        return;
    }
    kept.copy_within(1..m, 0);
}

fn drop_pairs(errors: &[f64], kept: &mut [u64], m: usize, n: usize)
    requires { (n ≤ m) × ((m - n) % 2 ≡ 0) × (m ≤ length kept.old) }
    ensures { take n kept.new ≡ without_pairs (negative_at errors.now) (size_at errors.now) ((m - n) / 2) (take m kept.old) }
{
    let mut k = m;
    // Kept: no plainer: a pair goes in each turn, so k falls by two.
    while n < k {
        let w = weakest_pair(errors, kept, k);
        kept.copy_within(w + 2..k, w);
        k -= 2;
    }
}

fn cut_to(errors: &[f64], kept: &mut [u64], m: usize, n: usize)
    requires { (n ≤ m) × (m ≤ length kept.old) }
    ensures { take n kept.new ≡ cut (negative_at errors.now) (size_at errors.now) n (take m kept.old) }
{
    if (m - n) % 2 == 1 {
        drop_end(errors, kept, m);
        drop_pairs(errors, kept, m - 1, n);
        return;
    }
    drop_pairs(errors, kept, m, n);
}

fn prune_finite(errors: &[f64], n: usize, places: &mut [u64]) -> Result<(), Refusal>
    requires { Fitting (length errors.now) n (length places.old) }
    ensures { Filled (kept_places errors.now n) n result places.old places.new }
{
    let mut kept = [0u64; CANDIDATES];
    let m = keep_runs(errors, &mut kept);
    if m < n {
        return Err(Refusal::Extrema);
    }
    cut_to(errors, &mut kept, m, n);
    places[..n].copy_from_slice(&kept[..n]);
    Ok(())
}

fn is_sized(count: usize, n: usize, room: usize) -> bool
    ensures { result ≡ sized count n room }
{
    1 <= count && count <= CANDIDATES && n <= room
}

// The places of n of the errors, which alternate in sign, to the front of `places`: of each run of one sign the largest, then
// one end where the surplus is odd, then the weakest neighbouring pairs go.
pub fn prune_extrema_candidates(errors: &[f64], n: usize, places: &mut [u64]) -> Result<(), Refusal>
    ensures { Filled (prune_for errors.now n (length places.old)) n result places.old places.new }
{
    if !is_sized(errors.len(), n, places.len()) {
        return Err(Refusal::Lists);
    }
    if !numbers::all_finite(errors) {
        return Err(Refusal::NotFinite);
    }
    prune_finite(errors, n, places)
}
