ghost use Rattle.std.specs.Prelude.{Option, ◌≡◌, ◌<◌, ◌≤◌};
ghost use Rattle.colleague.specs.Balance.{steps, row_norm, column_norm, raised, lowered, scaled_by, step_of, stepped, pass_of, moved_in, balanced_of, passes_of};

use crate::Colleague;

// Kept: no plainer, in the four functions below that take a matrix and how many of its rows count: it is lent to be changed, and a
// struct of both would be taken apart in each of them.

// The factor of a row and column, and the column's norm times its square.
#[derive(Clone, Copy)]
pub struct Scale {
    pub factor: f64,
    pub column: f64,
}

impl Scale {
    // As many steps as each of the two scaling loops may make.
    pub const STEPS: u64 = 1023;
}

// The norms of a row and of its column.
#[derive(Clone, Copy)]
struct Norms {
    row: f64,
    column: f64,
}

// Both norms in one loop, each in its own order.
fn norms_of(a: &[[f64; 15]; 15], n: usize, j: usize) -> Norms
    requires { (n ≤ 15) × (j < n) }
    ensures { (result.row ≡ row_norm a.now n j) × (result.column ≡ column_norm a.now n j) }
{
    let mut row = 0.0;
    let mut column = 0.0;
    for k in 0..n {
        if k != j {
            row += numbers::magnitude(a[j][k]);
            column += numbers::magnitude(a[k][j]);
        }
    }
    Norms { row, column }
}

// The scale that is left where `step` makes no more, or after as many steps as may be made.
fn scaled<F: Fn(Scale) -> Option<Scale>>(start: Scale, step: F) -> Scale
    requires { F.IsAlwaysCallable step }
    ensures { (next : Scale → Option Scale) → ((s : Scale) (r : Option Scale) → F.post step s r → r ≡ next s) → result ≡ steps next 1023 start }
{
    let mut s = start;
    for _ in 0..Scale::STEPS {
        match step(s) {
            Some(next) => {
                s = next;
            }
            None => {
                return s;
            }
        }
    }
    s
}

fn raise(s: Scale, half: f64) -> Scale
    ensures { result ≡ raised 1023 half s }
{
    scaled(s, |s| {
        if numbers::is_normal(s.column) && s.column <= half {
            Some(Scale {
                factor: s.factor * 2.0,
                column: s.column * 4.0,
            })
        } else {
            None
        }
    })
}

fn lower(s: Scale, twice: f64) -> Scale
    ensures { result ≡ lowered 1023 twice s }
{
    scaled(s, |s| {
        if numbers::is_normal(s.column) && s.column > twice {
            Some(Scale {
                factor: s.factor / 2.0,
                column: s.column / 4.0,
            })
        } else {
            None
        }
    })
}

// Row j divided and column j multiplied by f, off the diagonal.
fn scale_by(a: &mut [[f64; 15]; 15], n: usize, j: usize, f: f64)
    requires { (n ≤ 15) × (j < n) }
    ensures { a.new ≡ scaled_by f a.old n j }
{
    let f_recip = 1.0 / f;
    for k in 0..n {
        if k != j {
            a[j][k] *= f_recip;
            a[k][j] *= f;
        }
    }
}

// Whether row j was scaled; `None` where its norm is no normal number, which ends balancing.
fn balance_row(a: &mut [[f64; 15]; 15], n: usize, j: usize) -> Option<bool>
    requires { (n ≤ 15) × (j < n) }
    ensures { (result ≡ step_of a.old n j) × (a.new ≡ stepped a.old n j) }
{
    let Norms { row, column } = norms_of(a, n, j);
    if row == 0.0 || column == 0.0 {
        return Some(false);
    }
    let start = Scale {
        factor: 1.0,
        column,
    };
    let s = lower(raise(start, row * 0.5), row * 2.0);
    // The Rust's early return.
    if !numbers::is_normal(s.column) {
        return None;
    }
    if row + s.column < 0.95 * (row + column) * s.factor {
        scale_by(a, n, j, s.factor);
        return Some(true);
    }
    Some(false)
}

// Whether a pass over the rows scaled one; `None` where it was cut short.
fn balance_pass(a: &mut [[f64; 15]; 15], n: usize) -> Option<bool>
    requires { n ≤ 15 }
    ensures { (result ≡ moved_in (pass_of a.old n)) × (a.new ≡ (pass_of a.old n).matrix) }
{
    let mut moved = false;
    for j in 0..n {
        if balance_row(a, n, j)? {
            moved = true;
        }
    }
    Some(moved)
}

// The first n rows and columns balanced in place: how many passes it took, or `None` where as many as may be made are too few.
pub(crate) fn balance_matrix(a: &mut [[f64; 15]; 15], n: usize) -> Option<u64>
    requires { n ≤ 15 }
    ensures { passes_of result a.new ≡ balanced_of a.old n }
{
    for made in 0..Colleague::PASSES {
        // The last is one that scaled no row, or was cut short.
        if !balance_pass(a, n).unwrap_or(false) {
            return Some(made + 1);
        }
    }
    None
}
