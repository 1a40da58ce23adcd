ghost use Rattle.std.specs.Prelude.{◌≡◌, ◌+◌, ◌<◌, ◌≤◌, length};
ghost use Rattle.numbers.specs.Refusals.{outcome_of};
ghost use Rattle.fir_types.specs.Edges.{interval};
ghost use Rattle.subdivision.specs.Subdivide.{push, cut_from, packed, subdivided, subdivide_sized, subdivide_for};

use fir_types::{Edges, Interval};
use listed::Listed;
use numbers::Refusal;

// Subintervals in rising order of their bands: as many as 65 points and 8 bands can make.
pub type Intervals = Listed<Interval, 73>;

// The intervals made so far, and how many points are left: the first of the list, since the points fall.
#[derive(Clone, Copy)]
struct Cutting {
    intervals: Intervals,
    left: usize,
}

fn pushed(mut s: Intervals, begin: f64, end: f64) -> Intervals
    requires { s.count < 73 }
    ensures { result ≡ push (interval begin end) s }
{
    s.push(Interval { begin, end });
    s
}

fn cut_band(x: &[f64], band: Interval, c: Cutting) -> Cutting
    requires { (c.left ≤ length x.now) × (c.intervals.count + c.left < 73) }
    ensures { result ≡ cut_from x.now band.begin band.end c }
{
    let end = band.end;
    let mut begin = band.begin;
    let mut made = c.intervals;
    for k in (0..c.left).rev() {
        let a = x[k];
        // A point right of the band's end stays.
        if end < a {
            return Cutting {
                intervals: pushed(made, begin, end),
                left: k + 1,
            };
        }
        if a == end {
            return Cutting {
                intervals: pushed(made, begin, end),
                left: k,
            };
        }
        if begin != a {
            made = pushed(made, begin, a);
            begin = a;
        }
    }
    Cutting {
        intervals: pushed(made, begin, end),
        left: 0,
    }
}

fn cut_bands(x: &[f64], bands: Edges) -> Intervals
    requires { (length x.now ≤ 65) × (bands.count ≤ 8) }
    ensures { result ≡ packed (subdivided x.now bands) }
{
    let mut c = Cutting {
        intervals: Intervals::none(Interval {
            begin: 0.0,
            end: 0.0,
        }),
        left: x.len(),
    };
    for &b in &bands.list[..bands.count] {
        c = cut_band(x, b, c);
    }
    c.intervals
}

fn is_sized(points: usize, bands: Edges) -> bool
    ensures { result ≡ subdivide_sized points bands }
{
    1 <= points && points <= 65 && 1 <= bands.count && bands.count <= 8
}

// The bands, in x and rising, cut at the points, which fall.
#[tactic(auto, unfolding(crate::specs::Subdivide::subdivide_for))]
pub fn subdivide(x: &[f64], bands: Edges) -> Result<Intervals, Refusal>
    ensures { outcome_of result ≡ subdivide_for x.now bands }
{
    if !is_sized(x.len(), bands) {
        return Err(Refusal::Lists);
    }
    if !numbers::all_finite(x) || !crate::are_edges_finite(bands) {
        return Err(Refusal::NotFinite);
    }
    Ok(cut_bands(x, bands))
}
