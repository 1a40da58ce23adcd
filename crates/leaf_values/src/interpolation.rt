// Weights, delta, abscissas and responses.
use crate::judging::{judged_list, judged_one};
use crate::reading::{any_into, one_into, three_into, two_into};
use cases::list_into;
use numbers::Refusal;

// A leaf that makes a list of a list.
pub(crate) fn of_list<F: Fn(&[f64], &mut [f64]) -> Result<(), Refusal>>(
    s: &[u8],
    at: usize,
    leaf: F,
) -> Option<bool>
    requires { F.IsAlwaysCallable leaf }
{
    let mut x = [0.0; 128];
    let mut said = [0.0; 128];
    let mut out = [0.0; 128];
    let p = list_into(s, at, &mut x).ok()?;
    let g = list_into(s, p.at, &mut said).ok()?;
    let v = leaf(x.get(..p.count)?, &mut out);
    Some(judged_list(v, &out, &said, g.count))
}

pub(crate) fn delta(s: &[u8], at: usize) -> Option<bool> {
    let mut w = [0.0; 128];
    let mut d = [0.0; 128];
    let mut b = [0.0; 128];
    let mut said = [0.0; 1];
    let p = any_into(s, at, &mut w);
    let q = any_into(s, p.at, &mut d);
    let r = list_into(s, q.at, &mut b).ok()?;
    one_into(s, r.at, &mut said)?;
    let v = barycentric::compute_delta(w.get(..p.count)?, d.get(..q.count)?, b.get(..r.count)?);
    Some(judged_one(v, said[0]))
}

pub(crate) fn abscissas(s: &[u8], at: usize) -> Option<bool> {
    let mut e = [0.0; 1];
    let mut d = [0.0; 128];
    let mut b = [0.0; 128];
    let mut said = [0.0; 128];
    let mut out = [0.0; 128];
    let p = one_into(s, at, &mut e)?;
    let q = two_into(s, p.at, &mut d, &mut b)?;
    list_into(s, q.at, &mut said).ok()?;
    let v = barycentric::compute_lagrange_abscisa(
        e[0],
        d.get(..q.count)?,
        b.get(..q.count)?,
        &mut out,
    );
    Some(judged_list(v, &out, &said, q.count))
}

// One place after the other, and the list form. There are as many weights and abscissas as points.
pub(crate) fn response(s: &[u8], at: usize) -> Option<bool> {
    let mut x = [0.0; 128];
    let mut w = [0.0; 128];
    let mut y = [0.0; 128];
    let mut places = [0.0; 128];
    let mut said = [0.0; 128];
    let mut out = [0.0; 128];
    let p = three_into(s, at, &mut x, &mut w, &mut y)?;
    let t = two_into(s, p.at, &mut places, &mut said)?;
    let x = x.get(..p.count)?;
    let w = w.get(..p.count)?;
    let y = y.get(..p.count)?;
    let places = places.get(..t.count)?;
    let each = places.iter().zip(&said).all(|(&f, &r)| judged_one(
        barycentric::compute_freq_response(f, x, w, y),
        r,
    ));
    let v = barycentric::compute_freq_responses(places, x, w, y, &mut out);
    Some(each && judged_list(v, &out, &said, t.count))
}
