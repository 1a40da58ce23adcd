// First points and subintervals.
use crate::judging::Judged;
use cases::{
    Span, are_finite, are_same, count_at, is_same, list_into, numbers_into, past, whole_at,
};
use fir_types::{Edges, Interval};

// A keyword, how many pairs, and the pairs.
fn pairs_into(s: &[u8], at: usize, out: &mut [[f64; 2]]) -> Option<Span> {
    let n = whole_at(s, past(s, at))?;
    let p = numbers_into(s, n.at, n.count.checked_mul(2)?, out.as_flattened_mut())?;
    Some(Span {
        count: n.count,
        at: p.at,
    })
}

fn edges_of(pairs: [[f64; 2]; 8], count: usize) -> Edges {
    Edges {
        list: pairs.map(|[begin, end]| Interval { begin, end }),
        count,
    }
}

pub(crate) fn first(s: &[u8], at: usize) -> Option<Judged> {
    let mut pairs = [[0.0; 2]; 8];
    let mut said = [0.0; 65];
    let mut out = [0.0; 65];
    let f = count_at(s, past(s, at));
    let b = pairs_into(s, f.at, &mut pairs)?;
    let g = list_into(s, b.at, &mut said).ok()?;
    if 64 < f.count || g.count != f.count + 1 {
        return None;
    }
    match subdivision::initial_extremal_freqs(edges_of(pairs, b.count), f.count, &mut out) {
        Ok(()) => are_same(&out, &said, g.count).then_some(Judged::Same),
        Err(_) => (!are_finite(&said, g.count)).then_some(Judged::Known),
    }
}

pub(crate) fn subdivide(s: &[u8], at: usize) -> Option<Judged> {
    let mut x = [0.0; 65];
    let mut pairs = [[0.0; 2]; 8];
    let mut said = [[0.0; 2]; 73];
    let p = list_into(s, at, &mut x).ok()?;
    let b = pairs_into(s, p.at, &mut pairs)?;
    let g = pairs_into(s, b.at, &mut said)?;
    let made = subdivision::subdivide(x.get(..p.count)?, edges_of(pairs, b.count)).ok()?;
    let list = made.list.get(..made.count)?;
    let agrees = list.iter().zip(&said).all(|(m, pair)| is_same(m.begin, pair[0])
        && is_same(m.end, pair[1]));
    (made.count == g.count && agrees).then_some(Judged::Same)
}
