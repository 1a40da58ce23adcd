// Whether a leaf's answer is pm-remez's, bit for bit. pm-remez does not refuse: where a number of its answer is not finite, the
// leaf does.
use cases::{are_finite, are_same, is_same};
use numbers::Refusal;

pub(crate) fn judged_list(v: Result<(), Refusal>, out: &[f64], said: &[f64], count: usize) -> bool {
    match v {
        Ok(()) => are_same(out, said, count),
        Err(_) => !are_finite(said, count),
    }
}

pub(crate) fn judged_one(v: Result<f64, Refusal>, said: f64) -> bool {
    match v {
        Ok(x) => is_same(x, said),
        Err(_) => !numbers::is_finite(said),
    }
}
