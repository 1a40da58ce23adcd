ghost use Rattle.std.specs.Prelude.{◌≡◌, ℕ, Float, ◌≤◌, ◌<◌, ◌+◌, ◌-◌, IfSome, length, get_or};
ghost use Rattle.std.specs.Float.{nan};
ghost use Rattle.numbers.specs.Loops.{tab};
ghost use Rattle.numbers.specs.Operations.{◌⊘◌};
ghost use Rattle.colleague.specs.Matrix.{at};
ghost use Rattle.roots.specs.Residual.{turn_on, residual};
ghost use Rattle.roots.specs.Rows.{turns, turned};
ghost use Rattle.roots.specs.Reciprocals.{Reciprocal, Reciprocals};

// The first `size` rows and columns of a matrix: one at least.
#[derive(Clone, Copy)]
pub(crate) struct Square<'a> {
    pub rows: &'a [[f64; 15]; 15],
    pub size: usize,
    ghost within: { (1 ≤ size) × (size ≤ 15) },
}

// The recurrence's two running numbers.
#[derive(Clone, Copy)]
pub struct Turn {
    pub n: f64,
    pub v: f64,
}

// A turn at x, of n over row j's entry right of the diagonal, the next row's first and left entries, and v.
fn next_turn(j: usize, over: f64, first: f64, left: f64, x: f64, v: f64) -> Turn
    ensures { result ≡ turn_on j over first left x v }
{
    let m = x * over - first;
    Turn {
        n: if 1 <= j { m - left * v } else { m },
        v: over,
    }
}

// A turn at every place, side by side; `over` is its n over the entry right of the diagonal.
// Kept: no plainer: n and v as two arrays, each loaded whole into lanes; of one array of Turn a load would take every other number.
fn turn_row<const N: usize, F: Fn(usize, f64) -> f64>(
    j: usize,
    over: &F,
    first: f64,
    left: f64,
    x: &[f64; N],
    n: &mut [f64; N],
    v: &mut [f64; N],
)
    requires { (y : Float) → F.pre over.now j y }
    ensures lengths { (length n.new ≡ N) × (length v.new ≡ N) }
    ensures turned { (q : Float → Float) → ((y r : Float) → F.post over.now j y r → r ≡ q y) → turns n.new v.new ≡ turned j q first left N x.now (turns n.old v.old) }
{
    for k in 0..N {
        let t = next_turn(j, over(j, n[k]), first, left, x[k], v[k]);
        n[k] = t.n;
        v[k] = t.v;
    }
}

impl<'a> Square<'a> {
    // The residual at x.
    pub(crate) fn residual(self, x: f64) -> f64
        ensures { result ≡ residual self.entry.rows.now self.entry.size x }
    {
        let a = self.rows;
        let mut t = Turn {
            n: x - a[0][0],
            v: 1.0,
        };
        for j in 0..self.size - 1 {
            t = next_turn(j, t.n / a[j][j + 1], a[j + 1][0], a[j + 1][j], x, t.v);
        }
        t.n
    }

    // The residuals at N places, side by side: turn by turn, all places in each turn. `over` divides by row j's entry right of the
    // diagonal.
    pub(crate) fn residuals<const N: usize, F: Fn(usize, f64) -> f64>(
        self,
        x: &[f64; N],
        over: F,
    ) -> [f64; N]
        requires call { (j : ℕ) (y : Float) → j < self.size - 1 → F.pre over j y }
        requires divides { (j : ℕ) (y r : Float) → j < self.size - 1 → F.post over j y r → r ≡ y ⊘ at self.rows.now j (j + 1) }
        ensures { result ≡ tab (λ k. residual self.entry.rows.now self.entry.size (get_or x.now k nan)) N 0 }
    {
        let a = self.rows;
        let mut n = [0.0; N];
        let mut v = [1.0; N];
        for k in 0..N {
            n[k] = x[k] - a[0][0];
        }
        for j in 0..self.size - 1 {
            turn_row(j, &over, a[j + 1][0], a[j + 1][j], x, &mut n, &mut v);
        }
        n
    }

    // The exact reciprocals of the entries right of the diagonal, where each has one. Balancing leaves powers of two there.
    pub(crate) fn reciprocals(self) -> Option<[f64; 14]>
        ensures { IfSome result (λ inverse. Reciprocals self.entry.rows.now self.entry.size inverse) }
    {
        let mut inverse = [0.0; 14];
        for j in 0..self.size - 1 {
            inverse[j] = reciprocal(self.rows[j][j + 1])?;
        }
        Some(inverse)
    }
}

// The exact reciprocal of a positive power of two, from its exponent's field e: that of 2046 - e. None of every other number.
fn reciprocal(x: f64) -> Option<f64>
    ensures { IfSome result (λ r. Reciprocal x r) }
{
    let w = numbers::to_word(x);
    let e = w / 0x0010_0000_0000_0000;
    if w % 0x0010_0000_0000_0000 != 0 || e < 1 || 2045 < e {
        return None;
    }
    Some(numbers::of_word((2046 - e) * 0x0010_0000_0000_0000))
}
