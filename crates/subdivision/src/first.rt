ghost use Rattle.std.specs.Prelude.{◌≡◌, ◌++◌, ◌+◌, ◌<◌, ◌≤◌, length, drop};
ghost use Rattle.numbers.specs.Outcome.{needed_list_of};
ghost use Rattle.numbers.specs.Refusals.{Filled};
ghost use Rattle.subdivision.specs.First.{length_of, total_length, walked, point_at, points_from, at_start, first_points, first_sized, first_for};

use fir_types::{Edges, Interval};
use numbers::Refusal;

// The band that a walk along the bands has reached, and the length of those before it.
#[derive(Clone, Copy)]
struct Walk {
    band: usize,
    consumed: f64,
}

fn length_of(b: Interval) -> f64
    ensures { result ≡ length_of b }
{
    b.end - b.begin
}

fn total_length(bands: Edges) -> f64
    requires { bands.count ≤ 8 }
    ensures { result ≡ total_length bands }
{
    let mut total = 0.0;
    for &b in &bands.list[..bands.count] {
        total += length_of(b);
    }
    total
}

// On to the band that s lies in. The last one is not passed, whatever rounding leaves of s.
fn walk_on(bands: Edges, s: f64, w: Walk) -> Walk
    requires { (w.band < bands.count) × (bands.count ≤ 8) }
    ensures { result ≡ walked bands s bands.count w }
{
    let last = bands.count - 1;
    let mut consumed = w.consumed;
    for band in w.band..last {
        let band_length = length_of(bands.list[band]);
        if s - consumed <= band_length {
            return Walk { band, consumed };
        }
        consumed += band_length;
    }
    Walk {
        band: last,
        consumed,
    }
}

fn point_at(bands: Edges, s: f64, w: Walk) -> f64
    requires { w.band < 8 }
    ensures { result ≡ point_at bands s w }
{
    let b = bands.list[w.band];
    numbers::smaller(b.end, b.begin + (s - w.consumed))
}

fn points_into(bands: Edges, spacing: f64, n: usize, out: &mut [f64])
    requires { (1 ≤ bands.count) × (bands.count ≤ 8) × (n ≤ 65) × (n ≤ length out.old) }
    ensures { out.new ≡ points_from bands spacing n 0 at_start ++ drop n out.old }
{
    let mut w = Walk {
        band: 0,
        consumed: 0.0,
    };
    for j in 0..n {
        let s = numbers::whole(j as u32) * spacing;
        w = walk_on(bands, s, w);
        out[j] = point_at(bands, s, w);
    }
}

fn is_sized(bands: Edges, functions: usize, room: usize) -> bool
    ensures { result ≡ first_sized bands functions room }
{
    1 <= bands.count
        && bands.count <= 8
        && 1 <= functions
        && functions <= 64
        && functions + 1 <= room
}

fn points_from(bands: Edges, functions: usize, out: &mut [f64]) -> Result<(), Refusal>
    requires { (1 ≤ bands.count) × (bands.count ≤ 8) × (functions ≤ 64) }
    ensures { Filled (needed_list_of (first_points bands functions) (length out.old)) (functions + 1) result out.old out.new }
{
    let spacing = total_length(bands) / numbers::whole(functions as u32);
    let n = functions + 1;
    let mut points = [0.0; 65];
    points_into(bands, spacing, n, &mut points);
    numbers::needed_list(&points[..n], out)
}

// The first extremal frequencies of bands in radians, functions + 1 of them, to the front of `out`.
#[tactic(auto, unfolding(crate::specs::First::first_for))]
pub fn initial_extremal_freqs(
    bands: Edges,
    functions: usize,
    out: &mut [f64],
) -> Result<(), Refusal>
    ensures { Filled (first_for bands functions (length out.old)) (functions + 1) result out.old out.new }
{
    if !is_sized(bands, functions, out.len()) {
        return Err(Refusal::Lists);
    }
    if !crate::are_edges_finite(bands) {
        return Err(Refusal::NotFinite);
    }
    points_from(bands, functions, out)
}
