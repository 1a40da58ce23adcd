// The leaves of the crates colleague and roots. A matrix is its entries row by row.
ghost use Rattle.std.specs.Prelude.{◌≡◌, ◌*◌, ◌<◌, ◌≤◌, ◌++◌, length, drop};
ghost use Rattle.numbers.specs.Loops.{tab};
ghost use Rattle.exports.specs.Answers.{said, Counted};
ghost use Rattle.exports.specs.Matrices.{side_of, entry_from, row_from, matrix_of, entry_of, entry_at, balanced_matrix_for, roots_of};

use crate::{answers, plans};
use colleague::Colleague;
use numbers::Refusal;
use std::array;

fn side_of(n: usize) -> usize
    ensures side { result ≡ side_of n }
    ensures most { result ≤ 16 }
{
    for s in 0..16 {
        if n == s * s {
            return s;
        }
    }
    16
}

fn entry_from(entries: &[f64], s: usize, i: usize, j: usize) -> f64
    requires { (s ≤ 16) × (i < 15) × (j < 15) }
    ensures { result ≡ entry_from entries.now s i j }
{
    if j < s {
        plans::number_at(entries, i * s + j)
    } else {
        0.0
    }
}

fn row_from(entries: &[f64], s: usize, i: usize) -> [f64; 15]
    requires { (s ≤ 16) × (i < 15) }
    ensures { result ≡ row_from entries.now s i }
{
    array::from_fn(|j| entry_from(entries, s, i, j))
}

fn matrix_of(entries: &[f64]) -> Colleague
    ensures { result ≡ matrix_of entries.now }
{
    let size = side_of(entries.len());
    let mut rows = [[0.0; 15]; 15];
    for i in 0..15 {
        rows[i] = row_from(entries, size, i);
    }
    Colleague {
        rows,
        size,
        passes: 0,
    }
}

fn entry_of(m: Colleague, i: usize, j: usize) -> f64
    requires { (i < 15) × (j < 15) }
    ensures { result ≡ entry_of m i j }
{
    m.rows[i][j]
}

fn entries_into(m: Colleague, out: &mut [f64])
    requires { (m.size ≤ 15) × (225 ≤ length out.old) }
    ensures { out.new ≡ tab (entry_at m) (m.size * m.size) 0 ++ drop (m.size * m.size) out.old }
{
    let s = m.size;
    for k in 0..s * s {
        out[k] = entry_of(m, k / s, k % s);
    }
}

#[tactic(auto, unfolding(crate::specs::Matrices::balanced_matrix_for), using(colleague::proofs::Given::given_bounded))]
fn balanced_into(coefficients: &[f64], counts: &mut [u64], out: &mut [f64]) -> Result<(), Refusal>
    ensures { Counted (balanced_matrix_for coefficients.now (length counts.old) (length out.old)) (said result) counts.old counts.new out.old out.new }
{
    if counts.len() < 2 || out.len() < 225 {
        return Err(Refusal::Lists);
    }
    let m = colleague::colleague_matrix(coefficients)?;
    entries_into(m, out);
    counts[0] = m.size as u64;
    counts[1] = m.passes;
    Ok(())
}

// The balanced colleague matrix of a derivative's 1 to 16 coefficients; how many rows it has and how many passes balancing made go
// to `counts`. `out` has room for 15 rows of 15.
#[unsafe(no_mangle)]
pub extern "C" fn stepsheaf_colleague_matrix(
    coefficients: &[f64],
    counts: &mut [u64],
    out: &mut [f64],
) -> u64
    ensures { Counted (balanced_matrix_for coefficients.now (length counts.old) (length out.old)) result counts.old counts.new out.old out.new }
{
    answers::told(balanced_into(coefficients, counts, out))
}

#[tactic(auto, unfolding(crate::specs::Matrices::roots_of))]
fn roots_into(matrix: &[f64], counts: &mut [u64], out: &mut [f64]) -> Result<(), Refusal>
    ensures { Counted (roots_of matrix.now (length counts.old) (length out.old)) (said result) counts.old counts.new out.old out.new }
{
    if counts.is_empty() {
        return Err(Refusal::Lists);
    }
    counts[0] = roots::find_roots(matrix_of(matrix), out)? as u64;
    Ok(())
}

// The roots of a matrix, rising; their number goes to `counts`. `out` has room for as many as the matrix has rows.
#[unsafe(no_mangle)]
pub extern "C" fn stepsheaf_roots(matrix: &[f64], counts: &mut [u64], out: &mut [f64]) -> u64
    ensures { Counted (roots_of matrix.now (length counts.old) (length out.old)) result counts.old counts.new out.old out.new }
{
    answers::told(roots_into(matrix, counts, out))
}
