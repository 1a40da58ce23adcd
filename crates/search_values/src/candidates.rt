// Pruning.
use crate::judging::{Judged, is_failure};
use numbers::Refusal;

// Whole numbers, as many as there are places.
fn are_places(s: &[u8], at: usize, places: &[u64]) -> bool {
    let mut from = at;
    for &place in places {
        match cases::whole_at(s, from) {
            Some(w) if w.count as u64 == place => from = w.at,
            _ => return false,
        }
    }
    true
}

fn kept(s: &[u8], at: usize, places: &[u64]) -> Option<Judged> {
    let n = cases::count_at(s, cases::past(s, at));
    (n.count == places.len() && are_places(s, n.at, places)).then_some(Judged::Same)
}

pub(crate) fn prune(s: &[u8], at: usize) -> Option<Judged> {
    let mut errors = [0.0; 1241];
    let mut places = [0u64; 1241];
    let p = cases::list_into(s, at, &mut errors).ok()?;
    let k = cases::whole_at(s, cases::past(s, p.at))?;
    match pruning::prune_extrema_candidates(errors.get(..p.count)?, k.count, &mut places) {
        Ok(()) => kept(s, k.at, places.get(..k.count)?),
        Err(Refusal::Extrema) if is_failure(s, k.at, b"NotEnoughExtrema") => Some(Judged::Refused),
        // Of no errors.
        Err(Refusal::Lists) if is_failure(s, k.at, b"panic") => Some(Judged::Known),
        Err(_) => None,
    }
}
