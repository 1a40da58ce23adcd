ghost use Rattle.std.specs.Prelude.{◌≡◌, ◌≤◌, length, take};
ghost use Rattle.numbers.specs.Refusals.{verdict_of, Filled};
ghost use Rattle.fields.specs.Request.{functions_of};
ghost use Rattle.exchange.specs.Job.{held_of, interpolation_in};
ghost use Rattle.exchange.specs.Design.{sample_places, taps_in, in_cycles, design_in, design_for, Designed, Readable};

use crate::job::{Job, State};
use fields::{Fields, Interpolant, Request};
use numbers::Refusal;

// What a design tells beside its taps and frequencies.
#[derive(Clone, Copy)]
pub struct Report {
    pub error: f64,
    pub flatness: f64,
    pub iterations: usize,
}

// The cosines of the angles at which the response is sampled.
fn sample_places(out: &mut [f64]) -> Result<(), Refusal>
    requires { (2 ≤ length out.old) × (length out.old ≤ 64) }
    ensures { verdict_of result out.new ≡ sample_places (length out.old) }
{
    let scale = 3.141592653589793 / numbers::whole((out.len() - 1) as u32);
    numbers::fill_with(out, |k| angles::cosine(numbers::whole(k as u32) * scale))
}

// Radians to cycles per sample.
fn in_cycles(f: &[f64], out: &mut [f64]) -> Result<(), Refusal>
    requires { length out.old ≡ length f.now }
    ensures { verdict_of result out.new ≡ in_cycles f.now }
{
    numbers::fill_with(out, |i| numbers::needed(f[i] / 6.283185307179586))
}

// The taps of the points, their weights and abscissas, by way of samples, the responses there and their coefficients.
fn taps_of(request: Request, i: Interpolant, out: &mut [f64]) -> Result<(), Refusal>
    requires { (i.count ≤ 65) × (2 ≤ functions_of request) × (functions_of request ≤ 64) }
    ensures { Filled (taps_in request (take i.count i.points) (take i.count i.weights) (take i.count i.abscissas) (length out.old)) request.taps result out.old out.new }
{
    let m = request.functions();
    let mut s = [0.0; 64];
    let mut h = [0.0; 64];
    let mut a = [0.0; 64];
    let s = &mut s[..m];
    let h = &mut h[..m];
    let a = &mut a[..m];
    sample_places(s)?;
    let n = i.count;
    barycentric::compute_freq_responses(s, &i.points[..n], &i.weights[..n], &i.abscissas[..n], h)?;
    chebyshev::compute_cheby_coefficients(h, a)?;
    fir_types::h_from_ak(a, request.taps, request.symmetry, out)
}

#[tactic(auto, using(crate::proofs::DesignLaws::designed_none, crate::proofs::DesignLaws::cycles_refused, crate::proofs::DesignLaws::taps_refused, crate::proofs::DesignLaws::filled_kept))]
fn design_from(
    fields: Fields,
    i: Interpolant,
    taps: &mut [f64],
    freqs: &mut [f64],
) -> Result<Report, Refusal>
    requires { Readable fields i freqs.old }
    ensures { Designed (design_in fields (length taps.old) (interpolation_in i)) result taps.old taps.new freqs.old freqs.new }
{
    let n = i.count;
    let mut c = [0.0; 65];
    let c = &mut c[..n];
    in_cycles(&i.freqs[..n], c)?;
    taps_of(fields.request, i, taps)?;
    numbers::needed_list(c, freqs)?;
    Ok(Report {
        error: numbers::magnitude(i.delta),
        flatness: fields.flatness,
        iterations: fields.made,
    })
}

// The design of a finished job, into outputs that are long enough.
#[tactic(auto, using(crate::proofs::DesignLaws::designed_none, crate::proofs::DesignLaws::not_loaded, crate::proofs::DesignLaws::still_running, crate::proofs::DesignLaws::failed_again))]
pub(crate) fn read_out(job: Job, taps: &mut [f64], freqs: &mut [f64]) -> Result<Report, Refusal>
    requires { (128 ≤ length taps.old) × (65 ≤ length freqs.old) }
    ensures { Designed (design_for (held_of job) (length taps.old) (length freqs.old)) result taps.old taps.new freqs.old freqs.new }
{
    let i = job.loaded()?;
    match job.state {
        State::Running => Err(Refusal::State),
        State::Finished => design_from(job.fields, i, taps, freqs),
        State::Failed(why) => Err(why),
    }
}
