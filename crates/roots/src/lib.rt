// The roots of a balanced colleague matrix, where pm-remez takes its eigenvalues (document 01, "Roots").
#![tactic(auto)]

ghost use Rattle.std.specs.Prelude.{◌≡◌, ◌<◌, ◌≤◌, length};
ghost use Rattle.numbers.specs.Refusals.{Wrote};
ghost use Rattle.roots.specs.Brackets.{low_ends};
ghost use Rattle.roots.specs.Answer.{brackets_of, roots_for, derivative_roots};

mod brackets;
mod residual;

use crate::residual::Square;
use colleague::Colleague;
use numbers::Refusal;

// The roots of a matrix, worked out beside `out`: a refusal leaves it as it was.
fn roots_of(m: Square, out: &mut [f64]) -> Result<usize, Refusal>
    requires { m.size ≤ length out.old }
    ensures { Wrote (low_ends (brackets_of m.entry.rows.now m.entry.size)) result out.old out.new }
{
    let g = m.cell_residuals();
    if !numbers::all_finite(&g) {
        return Err(Refusal::Roots);
    }
    let mut low = [0.0; 65];
    let n = m.lower_ends(&g, &mut low)?;
    if m.size < n {
        return Err(Refusal::Roots);
    }
    out[..n].copy_from_slice(&low[..n]);
    Ok(n)
}

#[tactic(auto, unfolding(crate::specs::Answer::roots_for))]
// The roots of a balanced matrix between -1 and 1, in rising order, to the front of `out`.
pub fn find_roots(m: Colleague, out: &mut [f64]) -> Result<usize, Refusal>
    ensures { Wrote (roots_for m (length out.old)) result out.old out.new }
{
    if Colleague::ROWS < m.size || out.len() < m.size {
        return Err(Refusal::Lists);
    }
    if !colleague::are_entries_finite(&m.rows) {
        return Err(Refusal::NotFinite);
    }
    if m.size == 0 {
        return Ok(0);
    }
    let square = Square {
        rows: &m.rows,
        size: m.size,
    };
    roots_of(square, out)
}

// The roots of the derivative whose coefficients are given: the same as of its colleague matrix, which is made here and lent.
pub fn derivative_roots(ck: &[f64], out: &mut [f64]) -> Result<usize, Refusal>
    ensures { Wrote (derivative_roots ck.now (length out.old)) result out.old out.new }
{
    let mut a = [[0.0; 15]; 15];
    let s = colleague::colleague_into(ck, &mut a)?;
    if out.len() < s {
        return Err(Refusal::Lists);
    }
    if s == 0 {
        return Ok(0);
    }
    let square = Square { rows: &a, size: s };
    roots_of(square, out)
}
