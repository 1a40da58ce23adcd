ghost use Rattle.std.specs.Prelude.{◌≡◌, ◌+◌, ◌≤◌, length, take};
ghost use Rattle.numbers.specs.Refusals.{verdict_of, Filled};
ghost use Rattle.angles.specs.Turns.{cosine_of};
ghost use Rattle.angles.specs.Arccosine.{arccosine_of};
ghost use Rattle.fields.specs.Request.{functions_of, points_of};
ghost use Rattle.fields.specs.Interpolant.{places, each, radians_of, first_places, given_places, falling, desired_each, weight_each, interpolated, interpolation_of, Alike};

use crate::request::Request;
use fir_types::Edges;
use numbers::Refusal;

// Kept: a house rule: fixed memory: arrays and how many of their places are used.
// What is worked out from a request and its points: `count` frequencies in radians, points, weights and abscissas, zero beyond; delta.
#[derive(Clone, Copy)]
pub struct Interpolant {
    pub freqs: [f64; 65],
    pub points: [f64; 65],
    pub weights: [f64; 65],
    pub abscissas: [f64; 65],
    pub count: usize,
    pub delta: f64,
}

// Edges in radians: those in cycles times TAU.
pub fn radians_of(bands: Edges) -> Edges
    ensures { result ≡ radians_of bands }
{
    Edges {
        list: bands.list.map(|b| fir_types::in_radians(b)),
        count: bands.count,
    }
}

fn cosines(f: &[f64], x: &mut [f64]) -> Result<(), Refusal>
    requires { length x.old ≡ length f.now }
    ensures { verdict_of result x.new ≡ each cosine_of f.now }
{
    numbers::fill_with(x, |i| angles::cosine(f[i]))
}

fn arccosines(x: &[f64], f: &mut [f64]) -> Result<(), Refusal>
    requires { length f.old ≡ length x.now }
    ensures { verdict_of result f.new ≡ each arccosine_of x.now }
{
    numbers::fill_with(f, |i| angles::arccosine(x[i]))
}

// The first frequencies of the bands, and their cosines.
pub(crate) fn first_places(
    request: Request,
    bands: Edges,
    f: &mut [f64],
    x: &mut [f64],
) -> Result<(), Refusal>
    requires { (length f.old ≡ points_of request) × (length x.old ≡ points_of request) }
    ensures { verdict_of result (places f.new x.new) ≡ first_places request bands }
{
    subdivision::initial_extremal_freqs(radians_of(bands), request.functions(), f)?;
    cosines(f, x)
}

// The points that are given, and their angles.
pub(crate) fn given_places(points: &[f64], f: &mut [f64], x: &mut [f64]) -> Result<(), Refusal>
    requires { (length f.old ≡ length points.now) × (length x.old ≡ length points.now) }
    ensures { verdict_of result (places f.new x.new) ≡ given_places points.now }
{
    numbers::needed_list(points, x)?;
    arccosines(x, f)
}

fn is_falling(x: &[f64]) -> bool
    ensures { result ≡ falling x.now }
{
    x.is_sorted_by(|a, b| *b < *a)
}

// Kept: no plainer: a line each, and the two contracts name their lists.
fn desired_values(request: Request, f: &[f64], out: &mut [f64]) -> Result<(), Refusal>
    requires { length out.old ≡ length f.now }
    ensures { verdict_of result out.new ≡ desired_each request f.now }
{
    let target = request.target();
    numbers::fill_with(out, |i| target.desired_at(f[i]))
}

// Kept: no plainer: as above.
fn error_weights(request: Request, f: &[f64], out: &mut [f64]) -> Result<(), Refusal>
    requires { length out.old ≡ length f.now }
    ensures { verdict_of result out.new ≡ weight_each request f.now }
{
    let target = request.target();
    numbers::fill_with(out, |i| target.weight_at(f[i]))
}

// Weights and abscissas of the points; the answer is delta. `d` and `v` are for the desired values and the error weights.
fn interpolate_with(
    request: Request,
    f: &[f64],
    x: &[f64],
    wk: &mut [f64],
    yk: &mut [f64],
    d: &mut [f64],
    v: &mut [f64],
) -> Result<f64, Refusal>
    requires { Alike (length x.now) f.now x.now wk.old yk.old × (length d.old ≡ length x.now) × (length v.old ≡ length x.now) }
    ensures { interpolation_of result (places f.now x.now) wk.new yk.new ≡ interpolated request (places f.now x.now) }
{
    if !is_falling(x) {
        return Err(Refusal::NotFinite);
    }
    barycentric::compute_barycentric_weights(x, wk)?;
    desired_values(request, f, d)?;
    error_weights(request, f, v)?;
    let delta = barycentric::compute_delta(wk, d, v)?;
    barycentric::compute_lagrange_abscisa(delta, d, v, yk)?;
    Ok(delta)
}

pub(crate) fn interpolate(
    request: Request,
    f: &[f64],
    x: &[f64],
    wk: &mut [f64],
    yk: &mut [f64],
) -> Result<f64, Refusal>
    requires { Alike (length x.now) f.now x.now wk.old yk.old }
    ensures { interpolation_of result (places f.now x.now) wk.new yk.new ≡ interpolated request (places f.now x.now) }
{
    let n = x.len();
    let mut d = [0.0; 65];
    let mut v = [0.0; 65];
    interpolate_with(request, f, x, wk, yk, &mut d[..n], &mut v[..n])
}
