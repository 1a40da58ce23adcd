// The leaves of the crates colleague and roots. A matrix is its entries row by row.
ghost use Rattle.std.specs.Prelude.{length};
ghost use Rattle.exports.specs.Answers.{Counted};
ghost use Rattle.exports.specs.Matrices.{balanced_matrix_for, roots_of};

// The balanced colleague matrix of a derivative's 1 to 16 coefficients; how many rows it has and how many passes balancing made go
// to `counts`. `out` has room for 15 rows of 15.
#[unsafe(no_mangle)]
pub extern "C" fn stepsheaf_colleague_matrix(
    coefficients: &[f64],
    counts: &mut [u64],
    out: &mut [f64],
) -> u64
    ensures { Counted (balanced_matrix_for coefficients.now (length counts.old) (length out.old)) result counts.old counts.new out.old out.new }
{
    exports::stepsheaf_colleague_matrix(coefficients, counts, out)
}

// The roots of a matrix, rising; their number goes to `counts`. `out` has room for as many as the matrix has rows.
#[unsafe(no_mangle)]
pub extern "C" fn stepsheaf_roots(matrix: &[f64], counts: &mut [u64], out: &mut [f64]) -> u64
    ensures { Counted (roots_of matrix.now (length counts.old) (length out.old)) result counts.old counts.new out.old out.new }
{
    exports::stepsheaf_roots(matrix, counts, out)
}
