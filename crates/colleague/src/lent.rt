ghost use Rattle.std.specs.Prelude.{◌≡◌, ◌<◌, ◌≤◌, length};
ghost use Rattle.colleague.specs.Matrix.{zeros};
ghost use Rattle.colleague.specs.Answer.{balanced_for, colleague_for};
ghost use Rattle.colleague.specs.Lent.{held_of, Made};

use crate::{Colleague, balance, built};
use numbers::Refusal;

// How many rows the matrix has that is left in a lent one, and how many passes it took. That is all zero at entry.
fn balance_in(ck: &[f64], s: usize, a: &mut [[f64; 15]; 15]) -> Result<(usize, u64), Refusal>
    requires { (s < length ck.now) × (s ≤ 15) × (a.old ≡ zeros) }
    ensures { held_of result a.new ≡ balanced_for ck.now s }
{
    built::build_in(ck, s, a);
    if !crate::are_entries_finite(a) {
        return Err(Refusal::NotFinite);
    }
    let passes = balance::balance_matrix(a, s).ok_or(Refusal::Balancing)?;
    if !crate::are_entries_finite(a) {
        return Err(Refusal::NotFinite);
    }
    Ok((s, passes))
}

fn held_in(ck: &[f64], a: &mut [[f64; 15]; 15]) -> Result<(usize, u64), Refusal>
    requires { a.old ≡ zeros }
    ensures { held_of result a.new ≡ colleague_for ck.now }
{
    if ck.len() < 1 || Colleague::COEFFICIENTS < ck.len() {
        return Err(Refusal::Lists);
    }
    if !numbers::all_finite(ck) {
        return Err(Refusal::NotFinite);
    }
    match built::without_zeros(ck) {
        0 => Err(Refusal::Derivative),
        // Here the Rust panics; document 01 gives a matrix of no rows.
        1 => Ok((0, 0)),
        n => balance_in(ck, n - 1, a),
    }
}

// Whatever the lent matrix held; it is all zero where this refuses.
pub(crate) fn matrix_in(ck: &[f64], a: &mut [[f64; 15]; 15]) -> Result<(usize, u64), Refusal>
    ensures { Made (colleague_for ck.now) result a.new }
{
    *a = [[0.0; 15]; 15];
    let held = held_in(ck, a);
    if held.is_err() {
        *a = [[0.0; 15]; 15];
    }
    held
}
