// The candidates of an exchange (extrema.rs of pm-remez): in lent words, sorted, and pruned to those that alternate.
#![tactic(auto)]

mod candidates;
mod errors;

pub use candidates::{Candidate, candidate_at, put_candidate, sort_candidates};
pub use errors::{CANDIDATES, prune_extrema_candidates};
