ghost use Rattle.std.specs.Prelude.{◌≡◌, ◌≤◌, length, take};
ghost use Rattle.numbers.specs.Refusals.{outcome_of};
ghost use Rattle.fields.specs.Interpolant.{padded};
ghost use Rattle.fields.specs.Request.{points_of};
ghost use Rattle.exchange.specs.Exchange.{falling_of, moved, renewed, exchanged_in, exchanged_at};
ghost use Rattle.exchange.specs.Job.{held_of};
ghost use Rattle.exchange.specs.Step.{next_of, step_of, settled};

use crate::job::{Job, State};
use crate::{bands_in_x, flatness};
use extrema::Curve;
use fields::{Fields, Interpolant};
use numbers::Refusal;
use pruning::Candidate;
use subdivision::Intervals;

// The places of the candidates, the last first.
fn falling(list: &[Candidate]) -> [f64; 65]
    requires { length list.now ≤ 65 }
    ensures { result ≡ padded (falling_of list.now) }
{
    let mut points = [0.0; 65];
    for i in 0..list.len() {
        points[i] = list[list.len() - 1 - i].x;
    }
    points
}

// From the kept candidates on.
#[tactic(auto, using(crate::proofs::StepLaws::unrenewed, crate::proofs::StepLaws::renewed_is, crate::proofs::StepLaws::unaccepted))]
fn renew(fields: Fields, list: &[Candidate]) -> Result<Fields, Refusal>
    requires { (1 ≤ length list.now) × (length list.now ≤ 65) × (fields.made ≤ 100) }
    ensures { outcome_of result ≡ renewed fields list.now }
{
    let flatness = flatness::flatness_of(list)?;
    let next = Fields {
        request: fields.request,
        made: fields.made + 1,
        flatness,
        points: falling(list),
    };
    next.accept()?;
    Ok(next)
}

// From the subintervals on.
fn exchange_in(
    fields: Fields,
    i: Interpolant,
    intervals: Intervals,
    words: &mut [u64],
) -> Result<Fields, Refusal>
    requires { (2482 ≤ length words.old) × (i.count ≤ 65) × (points_of fields.request ≤ 65) × (fields.made ≤ 100) }
    ensures { outcome_of result ≡ exchanged_in fields (take i.count i.points) (take i.count i.weights) (take i.count i.abscissas) intervals }
{
    let curve = Curve {
        target: fields.request.target(),
        x: &i.points[..i.count],
        wk: &i.weights[..i.count],
        yk: &i.abscissas[..i.count],
    };
    let n = fields.request.functions() + 1;
    let kept = extrema::find_extrema(curve, intervals, fields.request.degree, n, words)?;
    renew(fields, &kept.list[..n])
}

// One exchange, from points with their weights and abscissas.
#[tactic(auto, using(crate::proofs::StepLaws::unbanded, crate::proofs::StepLaws::unturned, crate::proofs::StepLaws::uncut, crate::proofs::StepLaws::over_is))]
fn exchange(fields: Fields, i: Interpolant, words: &mut [u64]) -> Result<Fields, Refusal>
    requires { (2482 ≤ length words.old) × (i.count ≤ 65) × (points_of fields.request ≤ 65) × (fields.made ≤ 100) }
    ensures { outcome_of result ≡ exchanged_at fields (take i.count i.points) (take i.count i.weights) (take i.count i.abscissas) }
{
    let edges = fields.request.bands()?;
    let bands = bands_in_x::bands_in_x(fields::radians_of(edges))?;
    let intervals = subdivision::subdivide(&i.points[..i.count], bands)?;
    exchange_in(fields, i, intervals, words)
}

// An exchange of a running job; a failed one keeps what it was before.
fn run(job: &mut Job, i: Interpolant, words: &mut [u64]) -> Result<(), Refusal>
    requires { (2482 ≤ length words.old) × (i.count ≤ 65) × (points_of job.old.fields.request ≤ 65) × (job.old.fields.made ≤ 100) }
    ensures { next_of job.new result ≡ settled (held_of job.old) (exchanged_at job.old.fields (take i.count i.points) (take i.count i.weights) (take i.count i.abscissas)) }
{
    match exchange(job.fields, i, words) {
        Ok(next) => {
            *job = Job::of(next);
            Ok(())
        }
        Err(why) => {
            job.state = State::Failed(why);
            Err(why)
        }
    }
}

// The step in the words it works in. A call that is refused leaves the job as it was.
#[tactic(auto, using(crate::proofs::StepLaws::step_unloaded, crate::proofs::StepLaws::step_finished, crate::proofs::StepLaws::step_failed))]
pub(crate) fn step_in(job: &mut Job, words: &mut [u64]) -> Result<(), Refusal>
    requires { 2482 ≤ length words.old }
    ensures { next_of job.new result ≡ step_of (held_of job.old) (length words.old) }
{
    let i = job.loaded()?;
    match job.state {
        State::Running => run(job, i, words),
        State::Finished => Err(Refusal::State),
        State::Failed(why) => Err(why),
    }
}
