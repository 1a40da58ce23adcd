ghost use Rattle.std.specs.Prelude.{◌≡◌, ◌+◌, ◌<◌, ◌≤◌, length};
ghost use Rattle.numbers.specs.Loops.{tab};
ghost use Rattle.numbers.specs.Refusals.{outcome_of, count_of, few};
ghost use Rattle.roots.specs.Reciprocals.{Reciprocals};
ghost use Rattle.roots.specs.Brackets.{cell_end, grid, opposite, halved, low_end, cell, cell_of, found, low_ends};

use crate::residual::Square;
use numbers::Refusal;

// The ends of a cell that is being halved.
#[derive(Clone, Copy)]
pub struct Bracket {
    pub low: f64,
    pub high: f64,
}

// -1 + j/32
fn cell_end(j: u32) -> f64
    ensures { result ≡ cell_end j }
{
    -1.0 + numbers::whole(j) / 32.0
}

// N cell ends from j on.
fn cell_ends<const N: usize>(j: u32) -> [f64; N]
    requires { j + N ≤ 65 }
    ensures { result ≡ tab (λ k. cell_end (j + k)) N 0 }
{
    let mut x = [0.0; N];
    for k in 0..N {
        x[k] = cell_end(j + k as u32);
    }
    x
}

// Kept: tried, slower: with && and || all four comparisons are made at each halving.
fn are_opposite(p: f64, q: f64) -> bool
    ensures { result ≡ opposite p q }
{
    if p < 0.0 {
        return 0.0 < q;
    }
    if 0.0 < p {
        return q < 0.0;
    }
    false
}

impl<'a> Square<'a> {
    // The residuals at the 65 cell ends.
    pub(crate) fn cell_residuals(self) -> [f64; 65]
        ensures { result ≡ grid self.entry.rows.now self.entry.size }
    {
        let a = self.rows;
        match self.reciprocals() {
            Some(inverse) => self.residuals_by_eights(&inverse),
            None => self.residuals(&cell_ends::<65>(0), |j, y| y / a[j][j + 1]),
        }
    }

    // A product in place of each quotient, and the same bits; at eight places, as many as the processor keeps at hand.
    fn residuals_by_eights(self, inverse: &[f64; 14]) -> [f64; 65]
        requires { Reciprocals self.rows.now self.size inverse.now }
        ensures { result ≡ grid self.entry.rows.now self.entry.size }
    {
        let mut g = [0.0; 65];
        for i in 0..8 {
            let n = self.residuals(&cell_ends::<8>((8 * i) as u32), |j, y| y * inverse[j]);
            g[8 * i..8 * i + 8].copy_from_slice(&n);
        }
        g[64] = self.residual(cell_end(64));
        g
    }

    // The low end that 40 halvings leave, or the midpoint that is a root; p is the residual at the low end.
    fn halve(self, p: f64, low: f64, high: f64) -> Result<f64, Refusal>
        ensures { outcome_of result ≡ low_end (halved self.entry.rows.now self.entry.size 40 p low high) }
    {
        let mut b = Bracket { low, high };
        let mut q = p;
        for _ in 0..40usize {
            let x = (b.low + b.high) * 0.5;
            let r = self.residual(x);
            if !numbers::is_finite(r) {
                return Err(Refusal::Roots);
            }
            if r == 0.0 {
                return Ok(x);
            }
            if are_opposite(q, r) {
                b.high = x;
            } else {
                b.low = x;
                q = r;
            }
        }
        Ok(b.low)
    }

    // The low end of the bracket of cell j, where it has one.
    fn cell_yields(self, p: f64, q: f64, j: u32) -> Result<Option<f64>, Refusal>
        requires { j < 64 }
        ensures { cell_of result ≡ low_ends (cell self.entry.rows.now self.entry.size p q j) }
    {
        if p == 0.0 {
            return Ok(Some(cell_end(j)));
        }
        if !are_opposite(p, q) {
            return Ok(None);
        }
        let x = self.halve(p, cell_end(j), cell_end(j + 1))?;
        Ok(Some(x))
    }

    // What all cells yield, and point 1, to the front of `low`; g is the grid.
    pub(crate) fn lower_ends(self, g: &[f64; 65], low: &mut [f64; 65]) -> Result<usize, Refusal>
        ensures { (count_of result low.new ≡ low_ends (found self.entry.rows.now self.entry.size g.now 64 0)) × (few result ≤ length low.new) }
    {
        let mut n: usize = 0;
        for j in 0..64 {
            if let Some(x) = self.cell_yields(g[j], g[j + 1], j as u32)? {
                low[n] = x;
                n += 1;
            }
        }
        if g[64] == 0.0 {
            low[n] = cell_end(64);
            return Ok(n + 1);
        }
        Ok(n)
    }
}
