ghost use Rattle.std.specs.Prelude.{◌≡◌, ◌<◌, ◌≤◌, length, Float};
ghost use Rattle.numbers.specs.Refusals.{Filled};
ghost use Rattle.fir_types.specs.Kinds.{least_functions};
ghost use Rattle.fir_types.specs.Taps.{joined_side, side_tap, middle_tap, mirrored, tap_at, taps_of, sized_for, taps_for, Fitting};

use crate::kinds;
use bands::Symmetry;
use numbers::Refusal;

// Tap j of the left side, j = 0 outermost, from coefficients `step` apart, joined by their sum or their difference.
fn joined<F: Fn(f64, f64) -> f64>(a: &[f64], j: usize, step: usize, by: F) -> f64
    requires calls { F.IsAlwaysCallable by }
    requires within { (step < length a.now) × (j < length a.now) }
    ensures { (g : Float → Float → Float) → ((x y r : Float) → F.post by x y r → r ≡ g x y) → result ≡ joined_side g step a.now j }
{
    let n = a.len();
    if j < step {
        return a[n - 1 - j] * 0.25;
    }
    if j == n - 1 {
        return by(a[0] * 0.5, a[step] * 0.25);
    }
    0.25 * by(a[n - 1 - j], a[n - 1 - j + step])
}

// Kept: no plainer: no plan goes with a symmetry and a parity here, so they are no Target.
fn side(symmetry: Symmetry, odd: bool, a: &[f64], j: usize) -> f64
    requires { (least_functions symmetry odd ≤ length a.now) × (j < length a.now) }
    ensures { result ≡ side_tap symmetry odd a.now j }
{
    match (symmetry, odd) {
        (Symmetry::Even, true) => a[a.len() - 1 - j] * 0.5,
        (Symmetry::Even, false) => joined(a, j, 1, |x, y| x + y),
        (Symmetry::Odd, false) => joined(a, j, 1, |x, y| x - y),
        (Symmetry::Odd, true) => joined(a, j, 2, |x, y| x - y),
    }
}

fn middle(symmetry: Symmetry, a: &[f64]) -> f64
    requires { 1 ≤ length a.now }
    ensures { result ≡ middle_tap symmetry a.now }
{
    match symmetry {
        Symmetry::Even => a[0],
        Symmetry::Odd => 0.0,
    }
}

fn mirror(symmetry: Symmetry, t: f64) -> f64
    ensures { result ≡ mirrored symmetry t }
{
    match symmetry {
        Symmetry::Even => t,
        Symmetry::Odd => -t,
    }
}

fn tap(symmetry: Symmetry, taps: usize, a: &[f64], i: usize) -> f64
    requires { Fitting symmetry taps (length a.now) × (i < taps) }
    ensures { result ≡ tap_at symmetry taps a.now i }
{
    let odd = kinds::is_odd(taps);
    if i < taps / 2 {
        return side(symmetry, odd, a, i);
    }
    if odd && i == taps / 2 {
        return middle(symmetry, a);
    }
    mirror(symmetry, side(symmetry, odd, a, taps - 1 - i))
}

#[tactic(auto, unfolding(crate::specs::Taps::taps_of))]
fn taps_into(symmetry: Symmetry, a: &[f64], out: &mut [f64])
    requires { Fitting symmetry (length out.old) (length a.now) }
    ensures { out.new ≡ taps_of symmetry (length out.old) a.now }
{
    for i in 0..out.len() {
        out[i] = tap(symmetry, out.len(), a, i);
    }
}

fn is_sized_for(n: usize, taps: usize, symmetry: Symmetry, room: usize) -> bool
    ensures { result ≡ sized_for n taps symmetry room }
{
    1 <= n && n <= 64 && n == kinds::functions_of(taps, symmetry) && taps <= room
}

// The taps of the coefficients, to the front of `out`.
#[tactic(auto, unfolding(crate::specs::Taps::taps_for))]
pub fn h_from_ak(
    ak: &[f64],
    taps: usize,
    symmetry: Symmetry,
    out: &mut [f64],
) -> Result<(), Refusal>
    ensures { Filled (taps_for ak.now taps symmetry (length out.old)) taps result out.old out.new }
{
    if !is_sized_for(ak.len(), taps, symmetry, out.len()) {
        return Err(Refusal::Lists);
    }
    if !kinds::are_taps_in_range(taps, symmetry) {
        return Err(Refusal::Request);
    }
    if !numbers::all_finite(ak) {
        return Err(Refusal::NotFinite);
    }
    let mut h = [0.0; 128];
    taps_into(symmetry, ak, &mut h[..taps]);
    numbers::needed_list(&h[..taps], out)
}
