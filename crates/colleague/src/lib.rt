// The colleague matrix of a proxy's derivative, balanced (extrema.rs of pm-remez).
#![tactic(auto)]

ghost use Rattle.std.specs.Prelude.{◌≡◌};
ghost use Rattle.numbers.specs.Refusals.{outcome_of};
ghost use Rattle.colleague.specs.Matrix.{entries_finite};
ghost use Rattle.colleague.specs.Answer.{colleague_for};
ghost use Rattle.colleague.specs.Lent.{Lent};

mod balance;
mod built;
mod lent;

use numbers::Refusal;

// A balanced matrix of `size` rows and columns, zero beyond them, and the passes that balancing made.
#[derive(Clone, Copy)]
pub struct Colleague {
    pub rows: [[f64; 15]; 15],
    pub size: usize,
    pub passes: u64,
}

impl Colleague {
    // As many rows as a matrix may have.
    pub const ROWS: usize = 15;
    // As many coefficients as a derivative may have.
    pub const COEFFICIENTS: usize = 16;
    // As many passes as balancing may make.
    pub const PASSES: u64 = 64;
}

// Every entry of a matrix is finite.
pub fn are_entries_finite(a: &[[f64; 15]; 15]) -> bool
    ensures { result ≡ entries_finite a.now }
{
    a.iter().all(|row| numbers::all_finite(row))
}

// The balanced colleague matrix of the derivative's coefficients, whose eigenvalues are the derivative's roots.
pub fn colleague_matrix(ck: &[f64]) -> Result<Colleague, Refusal>
    ensures { outcome_of result ≡ colleague_for ck.now }
{
    let mut rows = [[0.0; 15]; 15];
    let (size, passes) = lent::matrix_in(ck, &mut rows)?;
    Ok(Colleague { rows, size, passes })
}

// The same matrix in a lent one, all zero beyond its rows and columns, and all zero where there is none; answers how many rows it has.
pub fn colleague_into(ck: &[f64], a: &mut [[f64; 15]; 15]) -> Result<usize, Refusal>
    ensures { Lent (colleague_for ck.now) result a.new }
{
    let (size, _) = lent::matrix_in(ck, a)?;
    Ok(size)
}
