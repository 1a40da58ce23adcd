// First points and subintervals (extrema.rs of pm-remez).
#![tactic(auto)]

ghost use Rattle.std.specs.Prelude.{◌≡◌, ◌≤◌};
ghost use Rattle.subdivision.specs.First.{edges_finite};

mod cuts;
mod first;

pub use cuts::{Intervals, subdivide};
use fir_types::Edges;
pub use first::initial_extremal_freqs;

// The test of the edges, which both modules make, is private: it wants no more bands than there are places.
fn are_edges_finite(bands: Edges) -> bool
    requires { bands.count ≤ 8 }
    ensures { result ≡ edges_finite bands }
{
    bands.list[..bands.count].iter().all(|b| numbers::is_finite(b.begin)
        && numbers::is_finite(b.end))
}
