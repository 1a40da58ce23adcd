ghost use Rattle.std.specs.Prelude.{◌≡◌, ◌&&◌, ◌<◌, ◌≤◌, leb, length};
ghost use Rattle.numbers.specs.Floats.{one64};
ghost use Rattle.numbers.specs.Operations.{◌⊘◌};
ghost use Rattle.numbers.specs.Refusals.{Filled};
ghost use Rattle.barycentric.specs.Limits.{most_points};
ghost use Rattle.barycentric.specs.Weights.{factor, lane, product, weights_of, weights_for};
ghost use Rattle.barycentric.specs.Lanes.{Each, Products};

use numbers::Refusal;

// Point j's factor into every product side by side. Its own product is put back as it was.
fn times_row(x: &[f64], j: usize, p: &mut [f64])
    requires { (j < length x.now) × (length p.old ≡ length x.now) }
    ensures { Each (λ k. factor x.now k j) p.old p.new }
{
    let own = p[j];
    let xj = x[j];
    for k in 0..x.len() {
        p[k] *= (x[k] - xj) * 2.0;
    }
    p[j] = own;
}

// The factors of the points a, a + d, a + 2d, ..
fn times_lane(x: &[f64], d: usize, a: usize, p: &mut [f64])
    requires { (0 < d) × (d ≤ length x.now) × (a ≤ length x.now) × (length p.old ≡ length x.now) }
    ensures { Each (λ k. lane x.now k d a) p.old p.new }
{
    for j in (a..x.len()).step_by(d) {
        times_row(x, j, p);
    }
}

fn products(x: &[f64], p: &mut [f64])
    requires { Products x.now p.old }
    ensures { Each (λ k s. product x.now k) p.old p.new }
{
    let d = (x.len() - 2) / 15 + 1;
    for a in 0..d {
        times_lane(x, d, a, p);
    }
}

fn reciprocals(p: &mut [f64])
    ensures { Each (λ k s. one64 ⊘ s) p.old p.new }
{
    for x in p {
        *x = 1.0 / *x;
    }
}

fn weights_into(x: &[f64], p: &mut [f64])
    requires { Products x.now p.old }
    ensures { p.new ≡ weights_of x.now }
{
    products(x, p);
    reciprocals(p);
}

fn is_sized_for_weights(n: usize, room: usize) -> bool
    ensures { result ≡ (leb 2 n && leb n most_points && leb n room) }
{
    2 <= n && n <= super::POINTS && n <= room
}

// The weights of 2 to 65 points, to the front of `out`.
#[tactic(auto, unfolding(crate::specs::Weights::weights_for))]
pub fn compute_barycentric_weights(x: &[f64], out: &mut [f64]) -> Result<(), Refusal>
    ensures { Filled (weights_for x.now (length out.old)) (length x.now) result out.old out.new }
{
    if !is_sized_for_weights(x.len(), out.len()) {
        return Err(Refusal::Lists);
    }
    if !numbers::all_finite(x) {
        return Err(Refusal::NotFinite);
    }
    let n = x.len();
    let mut p = [1.0; super::POINTS];
    weights_into(x, &mut p[..n]);
    numbers::needed_list(&p[..n], out)
}
