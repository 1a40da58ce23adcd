ghost use Rattle.std.specs.Prelude.{◌≡◌, ◌+◌, ◌≤◌, length};
ghost use Rattle.extrema.specs.Errors.{curve_of};
ghost use Rattle.extrema.specs.Proxy.{onto, scaled, derivative};
ghost use Rattle.extrema.specs.Batches.{of_nodes, places_in, Listed};

use crate::Curve;
use fir_types::Interval;
use numbers::Refusal;

// The places from -1 to 1 mapped onto the subinterval.
fn scale_onto(v: Interval, places: &[f64], out: &mut [f64])
    requires { length out.old ≡ length places.now }
    ensures { out.new ≡ scaled v places.now }
{
    let begin = v.begin;
    let scale = 0.5 * (v.end - begin);
    for i in 0..places.len() {
        out[i] = (places[i] + 1.0) * scale + begin;
    }
}

fn derive(a: &[f64], out: &mut [f64])
    requires { (length a.now ≡ length out.old + 1) × (length a.now ≤ 17) }
    ensures { out.new ≡ derivative a.now }
{
    for i in 0..out.len() {
        out[i] = numbers::whole((i + 1) as u32) * a[i + 1];
    }
}

// The places of the proxy's extrema, from the errors at the nodes: where its derivative has roots.
#[tactic(auto, using(crate::proofs::ErrorLaws::filled_whole, crate::proofs::ProxyLaws::derived_next, crate::proofs::ProxyLaws::derived_stop), unfolding(crate::specs::Batches::of_nodes))]
fn places_of_errors(v: Interval, e: &[f64], out: &mut [f64]) -> Result<usize, Refusal>
    requires { (2 ≤ length e.now) × (length e.now ≤ 17) × (length out.old ≡ 15) }
    ensures { Listed (of_nodes v e.now) result out.new }
{
    let m = e.len();
    let mut a = [0.0; 17];
    let a = &mut a[..m];
    chebyshev::compute_cheby_coefficients(e, a)?;
    let mut ck = [0.0; 16];
    let ck = &mut ck[..m - 1];
    derive(a, ck);
    let mut roots = [0.0; 15];
    let k = roots::derivative_roots(ck, &mut roots)?;
    scale_onto(v, &roots[..k], &mut out[..k]);
    Ok(k)
}

// The places of the extrema inside a subinterval.
#[tactic(auto, unfolding(crate::specs::Batches::places_in))]
pub(crate) fn places_inside(
    curve: Curve,
    nodes: &[f64],
    v: Interval,
    out: &mut [f64],
) -> Result<usize, Refusal>
    requires { (2 ≤ length nodes.now) × (length nodes.now ≤ 17) × (length out.old ≡ 15) }
    ensures { Listed (places_in (curve_of curve.entry) nodes.now v) result out.new }
{
    let m = nodes.len();
    let mut at = [0.0; 17];
    let mut e = [0.0; 17];
    let at = &mut at[..m];
    let e = &mut e[..m];
    scale_onto(v, nodes, at);
    curve.errors(at, e)?;
    places_of_errors(v, e, out)
}
