// The exchange (the loop of lib.rs of pm-remez) as a job that a step makes the next job, and the finished design.
#![tactic(auto)]

mod bands_in_x;
mod design;
mod flatness;
mod job;
mod step;

pub use design::Report;
pub use job::{Job, State};
