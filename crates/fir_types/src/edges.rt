ghost use Rattle.std.specs.Prelude.{◌≡◌, ◌<◌};
ghost use Rattle.fir_types.specs.Edges.{keep, in_radians};

use listed::Listed;

// A band's edges alone.
#[derive(Clone, Copy)]
pub struct Interval {
    pub begin: f64,
    pub end: f64,
}

// Up to 8 intervals.
pub type Edges = Listed<Interval, 8>;

// The interval goes behind the others, if it has positive length.
pub(crate) fn keep(edges: &mut Edges, m: Interval)
    requires { edges.old.count < 8 }
    ensures { edges.new ≡ keep m edges.old }
{
    if m.begin < m.end {
        edges.push(m);
    }
}

// From cycles to radians per sample.
pub fn in_radians(b: Interval) -> Interval
    ensures { result ≡ in_radians b }
{
    Interval {
        begin: b.begin * 6.283185307179586,
        end: b.end * 6.283185307179586,
    }
}
