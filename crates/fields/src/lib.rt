// A request, the fields of a job, and what is worked out from them (lib.rs of pm-remez, up to its loop). The fields are what the job's
// image holds, and nothing in them is derived: points, weights, delta and abscissas are worked out from them each time.
#![tactic(auto)]

mod held;
mod interpolant;
mod request;

pub use held::{Fields, do_counts_hold};
pub use interpolant::{Interpolant, radians_of};
pub use request::Request;
