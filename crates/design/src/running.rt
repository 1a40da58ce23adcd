// A request from its first points to its design.
use crate::asking::points_of;
use exchange::{Job, Report, State};
use fields::Request;
use numbers::Refusal;

// What came of a request: the exchanges made, before the one that failed where one did, and what is told of the design, or why there is
// none.
#[derive(Clone, Copy)]
pub(crate) struct Run {
    pub(crate) made: usize,
    pub(crate) report: Result<Report, Refusal>,
}

// A request, what came of it, and its taps and frequencies.
#[derive(Clone, Copy)]
pub(crate) struct Design<'a> {
    pub(crate) request: Request,
    pub(crate) run: Run,
    pub(crate) taps: &'a [f64],
    pub(crate) freqs: &'a [f64],
}

// The job of what was asked for, if that is accepted as a request.
fn opened(asked: Request) -> Result<Job, Refusal> {
    let request = Request::new(
        asked.taps,
        asked.symmetry,
        asked.degree,
        asked.exchanges,
        asked.threshold,
        asked.plan,
    )?;
    Job::open(request)
}

// The design of a request; or why there is none.
pub(crate) fn design_of<'a>(
    request: Request,
    taps: &'a mut [f64],
    freqs: &'a mut [f64],
) -> Design<'a> {
    let run = match opened(request) {
        Ok(job) => finished(job, taps, freqs),
        Err(why) => Run {
            made: 0,
            report: Err(why),
        },
    };
    Design {
        request,
        run,
        taps: taps.get(..request.taps).unwrap_or(&[]),
        freqs: freqs.get(..points_of(request)).unwrap_or(&[]),
    }
}

// Exchange after exchange, until the job no longer runs: at most as many as a request may allow.
fn finished(first: Job, taps: &mut [f64], freqs: &mut [f64]) -> Run {
    let mut job = first;
    let mut scratch = [0u64; 2482];
    for _ in 0..Request::EXCHANGES {
        if !matches!(job.state, State::Running) {
            break;
        }
        // A failed exchange is told by the job's state.
        let (next, _) = job.step(&mut scratch);
        job = next;
    }
    Run {
        made: job.fields.made,
        report: job.read(taps, freqs),
    }
}
