// The leaves of the crate barycentric.
ghost use Rattle.std.specs.Prelude.{◌≡◌, length};
ghost use Rattle.barycentric.specs.Weights.{weights_for};
ghost use Rattle.barycentric.specs.Delta.{delta_for};
ghost use Rattle.barycentric.specs.Abscissas.{abscissas_for};
ghost use Rattle.barycentric.specs.Response.{response_for, responses_for};
ghost use Rattle.exports.specs.Answers.{single, Numbered};

use crate::answers;

// The weights of 2 to 65 points.
#[unsafe(no_mangle)]
pub extern "C" fn stepsheaf_weights(x: &[f64], out: &mut [f64]) -> u64
    ensures { Numbered (weights_for x.now (length out.old)) result out.old out.new }
{
    answers::told(barycentric::compute_barycentric_weights(x, out))
}

// delta of 1 to 65 points' weights, desired values and error weights.
#[unsafe(no_mangle)]
pub extern "C" fn stepsheaf_delta(
    weights: &[f64],
    desired: &[f64],
    band_weights: &[f64],
    out: &mut [f64],
) -> u64
    ensures { Numbered (single (length out.old) (delta_for weights.now desired.now band_weights.now)) result out.old out.new }
{
    let delta = barycentric::compute_delta(weights, desired, band_weights);
    answers::told(answers::put(delta, out))
}

// The abscissas of 1 to 65 points.
#[unsafe(no_mangle)]
pub extern "C" fn stepsheaf_abscissas(
    delta: f64,
    desired: &[f64],
    band_weights: &[f64],
    out: &mut [f64],
) -> u64
    ensures { Numbered (abscissas_for delta desired.now band_weights.now (length out.old)) result out.old out.new }
{
    answers::told(barycentric::compute_lagrange_abscisa(delta, desired, band_weights, out))
}

// The response at the place x0, of points x, weights w and abscissas y.
#[unsafe(no_mangle)]
pub extern "C" fn stepsheaf_response(
    x0: f64,
    x: &[f64],
    w: &[f64],
    y: &[f64],
    out: &mut [f64],
) -> u64
    ensures { Numbered (single (length out.old) (response_for x0 x.now w.now y.now)) result out.old out.new }
{
    let response = barycentric::compute_freq_response(x0, x, w, y);
    answers::told(answers::put(response, out))
}

// The responses at 1 to 65 places.
#[unsafe(no_mangle)]
pub extern "C" fn stepsheaf_responses(
    places: &[f64],
    x: &[f64],
    w: &[f64],
    y: &[f64],
    out: &mut [f64],
) -> u64
    ensures { Numbered (responses_for places.now x.now w.now y.now (length out.old)) result out.old out.new }
{
    answers::told(barycentric::compute_freq_responses(places, x, w, y, out))
}
