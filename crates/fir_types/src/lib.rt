// The four types of filter (fir_types.rs of pm-remez): response check, edge adjustment, adjusted values, taps.
#![tactic(auto)]

mod edges;
mod kinds;
mod taps;
mod target;

pub use edges::{Edges, Interval, in_radians};
pub use kinds::{are_taps_in_range, functions_of, is_odd};
pub use taps::h_from_ak;
pub use target::Target;
