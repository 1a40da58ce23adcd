// Lists as the stored cases have them, one or more of one length.
use cases::{Span, list_into, numbers_into, past};

// A keyword and one number.
pub(crate) fn one_into(s: &[u8], at: usize, out: &mut [f64]) -> Option<Span> {
    numbers_into(s, past(s, at), 1, out)
}

// A list, empty where it cannot be read.
pub(crate) fn any_into(s: &[u8], at: usize, out: &mut [f64]) -> Span {
    list_into(s, at, out).unwrap_or_else(|at| Span { count: 0, at })
}

// Two lists of one length; a first one that cannot be read is empty.
pub(crate) fn two_into(s: &[u8], at: usize, x: &mut [f64], y: &mut [f64]) -> Option<Span> {
    let p = any_into(s, at, x);
    let q = list_into(s, p.at, y).ok()?;
    (p.count == q.count).then_some(q)
}

// Three lists of one length; a first one that cannot be read is empty.
pub(crate) fn three_into(
    s: &[u8],
    at: usize,
    x: &mut [f64],
    y: &mut [f64],
    z: &mut [f64],
) -> Option<Span> {
    let p = two_into(s, at, x, y)?;
    let q = list_into(s, p.at, z).ok()?;
    (p.count == q.count).then_some(q)
}
