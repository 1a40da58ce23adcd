// Chebyshev nodes and coefficients (chebyshev.rs of pm-remez).
#![tactic(auto)]

ghost use Rattle.std.specs.Prelude.{◌≡◌, ◌+◌, ◌≤◌, length};
ghost use Rattle.numbers.specs.Outcome.{gather};
ghost use Rattle.numbers.specs.Refusals.{verdict_of, Filled};
ghost use Rattle.angles.specs.Turns.{cosine_of};
ghost use Rattle.chebyshev.specs.Angles.{node_angle};
ghost use Rattle.chebyshev.specs.Nodes.{nodes_for};
ghost use Rattle.chebyshev.specs.Coefficients.{halve_ends, coefficients_for};
ghost use Rattle.chebyshev.specs.Places.{places_for, pairs, turn, turned, ended, summed, Placed, coefficients_of};

use numbers::Refusal;

const PI: f64 = 3.141592653589793;

// The degrees of a proxy.
pub const LEAST_DEGREE: usize = 2;

pub const MOST_DEGREE: usize = 16;

// How many values coefficients are worked out from.
pub const LEAST_VALUES: usize = 2;

pub const MOST_VALUES: usize = 64;

// Clenshaw's two running numbers.
#[derive(Clone, Copy)]
pub struct Pair {
    pub b1: f64,
    pub b2: f64,
}

fn node_cosines(n: usize, x: &mut [f64]) -> Result<(), Refusal>
    requires { (n ≤ 16) × (length x.old ≡ n + 1) }
    ensures { verdict_of result x.new ≡ gather (λ j. cosine_of (node_angle n j)) (n + 1) 0 }
{
    let scale = PI / numbers::whole(n as u32);
    numbers::fill_with(x, |j| angles::cosine(numbers::whole(j as u32) * scale))
}

// The degree + 1 nodes of a degree from 2 to 16, to the front of `out`.
#[tactic(auto, unfolding(crate::specs::Nodes::nodes_for))]
pub fn chebyshev_nodes(n: usize, out: &mut [f64]) -> Result<(), Refusal>
    ensures { Filled (nodes_for n (length out.old)) (n + 1) result out.old out.new }
{
    if out.len() <= n {
        return Err(Refusal::Lists);
    }
    if n < LEAST_DEGREE || MOST_DEGREE < n {
        return Err(Refusal::Request);
    }
    let mut x = [0.0; MOST_DEGREE + 1];
    node_cosines(n, &mut x[..=n])?;
    numbers::needed_list(&x[..=n], out)
}

fn halve_first_and_last(a: &mut [f64])
    requires { 2 ≤ length a.old }
    ensures { a.new ≡ halve_ends a.old }
{
    let last = a.len() - 1;
    a[0] *= 0.5;
    a[last] *= 0.5;
}

fn coefficient_cosines(x: &mut [f64]) -> Result<(), Refusal>
    requires { (2 ≤ length x.old) × (length x.old ≤ 64) }
    ensures { verdict_of result x.new ≡ places_for (length x.old) }
{
    let n = numbers::whole((x.len() - 1) as u32);
    numbers::fill_with(x, |j| angles::cosine(numbers::whole(j as u32) * PI / n))
}

fn clenshaw_step(x: f64, ak: f64, s: Pair) -> Pair
    ensures { result ≡ turn x ak s }
{
    Pair {
        b1: 2.0 * x * s.b1 - s.b2 + ak,
        b2: s.b1,
    }
}

// One of Clenshaw's turns at every place.
// Kept: tried, slower: the running numbers in two lists; a list of pairs took 1.4 to 1.6 times as long, since it runs in no lanes.
fn clenshaw_row(x: &[f64], ak: f64, b1: &mut [f64], b2: &mut [f64])
    requires { (length b1.old ≡ length x.now) × (length b2.old ≡ length x.now) }
    ensures { pairs b1.new b2.new ≡ turned x.now ak (pairs b1.old b2.old) }
{
    for k in 0..x.len() {
        let s = clenshaw_step(
            x[k],
            ak,
            Pair {
                b1: b1[k],
                b2: b2[k],
            },
        );
        b1[k] = s.b1;
        b2[k] = s.b2;
    }
}

// What each place ends with, in its stead: Clenshaw's sum times the scale.
fn clenshaw_ends(x: &mut [f64], a0: f64, scale: f64, b1: &[f64], b2: &[f64])
    requires { (length b1.now ≡ length x.old) × (length b2.now ≡ length x.old) }
    ensures { x.new ≡ ended x.old a0 scale b1.now b2.now }
{
    for k in 0..x.len() {
        x[k] = (x[k] * b1[k] - b2[k] + a0) * scale;
    }
}

// Clenshaw's sums of a, scaled, at every place x, side by side and in its stead.
fn clenshaw(a: &[f64], x: &mut [f64])
    requires { Placed a.now x.old }
    ensures { x.new ≡ summed a.now x.old }
{
    let n = a.len();
    let m = x.len();
    let mut b1 = [a[n - 1]; MOST_VALUES];
    let mut b2 = [0.0; MOST_VALUES];
    for t in 0..n - 2 {
        clenshaw_row(&*x, a[n - 2 - t], &mut b1[..m], &mut b2[..m]);
    }
    clenshaw_ends(
        x,
        a[0],
        2.0 / numbers::whole((n - 1) as u32),
        &b1[..m],
        &b2[..m],
    );
}

// The coefficients of values d, with places x to work on.
fn coefficients_of(d: &mut [f64], x: &mut [f64], out: &mut [f64]) -> Result<(), Refusal>
    requires { Placed d.old x.old }
    ensures { Filled (coefficients_of d.old (length out.old)) (length d.old) result out.old out.new }
{
    halve_first_and_last(d);
    coefficient_cosines(x)?;
    clenshaw(&*d, x);
    halve_first_and_last(x);
    numbers::needed_list(&*x, out)
}

// The coefficients of 2 to 64 values, to the front of `out`.
#[tactic(auto, unfolding(crate::specs::Coefficients::coefficients_for))]
pub fn compute_cheby_coefficients(p_values: &[f64], out: &mut [f64]) -> Result<(), Refusal>
    ensures { Filled (coefficients_for p_values.now (length out.old)) (length p_values.now) result out.old out.new }
{
    let m = p_values.len();
    if m < LEAST_VALUES || MOST_VALUES < m || out.len() < m {
        return Err(Refusal::Lists);
    }
    let mut d = [0.0; MOST_VALUES];
    let mut x = [0.0; MOST_VALUES];
    numbers::needed_list(p_values, &mut d)?;
    coefficients_of(&mut d[..m], &mut x[..m], out)
}
