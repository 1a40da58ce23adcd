ghost use Rattle.std.specs.Prelude.{◌≡◌, ◌<◌, ◌≤◌, length, set};
ghost use Rattle.colleague.specs.Matrix.{zeros};
ghost use Rattle.colleague.specs.Built.{without_zeros, row_of, built_of};
ghost use Rattle.colleague.specs.Lent.{over_leading, Blank};

// How many coefficients are left when the zeros at the end are removed: the leading one is nonzero.
pub(crate) fn without_zeros(ck: &[f64]) -> usize
    ensures { result ≡ without_zeros ck.now (length ck.now) }
{
    match ck.iter().rposition(|&c| c != 0.0) {
        Some(last) => last + 1,
        None => 0,
    }
}

// Row j of the matrix, where the lent one is still zero; `scale` is the same for every row.
fn put_row(ck: &[f64], s: usize, j: usize, scale: f64, a: &mut [[f64; 15]; 15])
    requires { (s < length ck.now) × (s ≤ 15) × (j < s) × (scale ≡ over_leading ck.now s) × Blank j a.old }
    ensures { a.new ≡ set a.old j (row_of ck.now s j) }
{
    if j + 1 < s {
        a[j][j + 1] = 0.5;
    }
    if 2 <= j {
        a[j][j - 1] = 0.5;
    }
    let c = ck[s - 1 - j] * scale;
    a[j][0] = if j == 1 { c + 0.5 } else { c };
}

// The matrix of s rows of the first s + 1 coefficients, in one that is all zero.
pub(crate) fn build_in(ck: &[f64], s: usize, a: &mut [[f64; 15]; 15])
    requires { (s < length ck.now) × (s ≤ 15) × (a.old ≡ zeros) }
    ensures { a.new ≡ built_of ck.now s }
{
    let scale = -0.5 / ck[s];
    for j in 0..s {
        put_row(ck, s, j, scale, a);
    }
}
