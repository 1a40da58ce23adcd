// The colleague matrix and its roots.
use crate::judging::{Judged, is_failure};
use cases::{are_finite, are_same, count_at, list_into, past};
use colleague::Colleague;
use numbers::Refusal;

// Rows of a matrix, and where they end.
#[derive(Clone, Copy)]
struct Rows {
    rows: [[f64; 15]; 15],
    at: usize,
}

fn rows_at(s: &[u8], at: usize, size: usize) -> Option<Rows> {
    let mut rows = [[0.0; 15]; 15];
    let mut from = at;
    for row in rows.get_mut(..size)? {
        let e = list_into(s, from, row).ok()?;
        if e.count != size {
            return None;
        }
        from = e.at;
    }
    Some(Rows { rows, at: from })
}

fn are_rows(a: &[[f64; 15]; 15], b: &[[f64; 15]; 15], size: usize) -> bool {
    a.iter()
        .zip(b)
        .take(size)
        .all(|(p, q)| are_same(p, q, size))
}

fn are_rows_finite(a: &[[f64; 15]; 15], size: usize) -> bool {
    a.iter().take(size).all(|row| are_finite(row, size))
}

// pm-remez's matrix, its passes before it.
fn balanced(s: &[u8], at: usize, made: Result<Colleague, Refusal>) -> Option<Judged> {
    let p = count_at(s, past(s, at));
    let o = count_at(s, p.at);
    let said = rows_at(s, o.at, o.count)?.rows;
    match made {
        Ok(m) => (m.size == o.count
            && m.passes == p.count as u64
            && are_rows(&m.rows, &said, o.count)).then_some(Judged::Same),
        // It goes on with a number that is not finite, and makes a 65th pass.
        Err(Refusal::NotFinite) => (!are_rows_finite(&said, o.count)).then_some(Judged::Known),
        Err(Refusal::Balancing) => (64 < p.count).then_some(Judged::Known),
        Err(_) => None,
    }
}

pub(crate) fn colleague(s: &[u8], at: usize) -> Option<Judged> {
    let mut ck = [0.0; 16];
    let p = list_into(s, at, &mut ck).ok()?;
    let made = colleague::colleague_matrix(ck.get(..p.count)?);
    if is_failure(s, p.at, b"ProxyDerivativeZero") {
        return matches!(made, Err(Refusal::Derivative)).then_some(Judged::Refused);
    }
    // A derivative of one coefficient.
    if is_failure(s, p.at, b"panic") {
        return matches!(made, Ok(m) if m.size == 0).then_some(Judged::Known);
    }
    balanced(s, p.at, made)
}

pub(crate) fn roots(s: &[u8], at: usize) -> Option<Judged> {
    let o = count_at(s, past(s, at));
    let r = rows_at(s, o.at, o.count)?;
    let m = Colleague {
        rows: r.rows,
        size: o.count,
        passes: 0,
    };
    let mut said = [0.0; 15];
    let mut out = [0.0; 15];
    match roots::find_roots(m, &mut out) {
        Ok(n) => {
            let g = list_into(s, r.at, &mut said).ok()?;
            (n == g.count && are_same(&out, &said, n)).then_some(Judged::Same)
        }
        Err(Refusal::Roots)
            if is_failure(s, r.at, b"ResidualNotFinite")
                || is_failure(s, r.at, b"MoreRootsThanRows") => { Some(Judged::Refused) }
        Err(_) => None,
    }
}
