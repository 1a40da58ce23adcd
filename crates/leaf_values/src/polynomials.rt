// Coefficients and nodes.
use crate::judging::judged_list;
use cases::{list_into, past, whole_at};

pub(crate) fn nodes(s: &[u8], at: usize) -> Option<bool> {
    let mut said = [0.0; 128];
    let mut out = [0.0; 128];
    let d = whole_at(s, past(s, at))?;
    let g = list_into(s, d.at, &mut said).ok()?;
    let v = chebyshev::chebyshev_nodes(d.count, &mut out);
    Some(judged_list(v, &out, &said, g.count))
}
