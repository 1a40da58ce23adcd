ghost use Rattle.std.specs.Prelude.{◌≡◌, ◌&&◌, leb, length};
ghost use Rattle.numbers.specs.Outcome.{bind, gave};
ghost use Rattle.numbers.specs.Refusals.{outcome_of, refusal_number};
ghost use Rattle.fields.specs.Interpolant.{answered};
ghost use Rattle.exchange.specs.Job.{standing_of, held, held_of, agrees, job_for, standing_by, Opening, Resuming, Checked};
ghost use Rattle.exchange.specs.Step.{Step};
ghost use Rattle.exchange.specs.Design.{design_for, Designed};

use crate::design::Report;
use crate::{design, step};
use fields::{Fields, Interpolant, Request};
use numbers::Refusal;

// Where a job stands.
#[derive(Clone, Copy)]
pub enum State {
    Running,
    Finished,
    Failed(Refusal),
}

// A job: what its image holds, and where it stands.
#[derive(Clone, Copy)]
pub struct Job {
    pub fields: Fields,
    pub state: State,
}

// What an exchange may be refused with: 9 to 13.
fn is_step_refusal(why: Refusal) -> bool
    ensures { result ≡ (leb 9 (refusal_number why) && leb (refusal_number why) 13) }
{
    matches!(
        why,
        Refusal::NotFinite
            | Refusal::Derivative
            | Refusal::Balancing
            | Refusal::Roots
            | Refusal::Extrema
    )
}

impl Job {
    // The job that fields make, running or finished as they say.
    pub(crate) fn of(fields: Fields) -> Job
        ensures { held_of result ≡ held fields (standing_by fields) }
    {
        let state = if fields.is_finished() {
            State::Finished
        } else {
            State::Running
        };
        Job { fields, state }
    }

    fn does_agree(self) -> bool
        ensures { result ≡ agrees self.fields (standing_of self.state) }
    {
        match self.state {
            State::Running => !self.fields.is_finished(),
            State::Finished => self.fields.is_finished(),
            State::Failed(why) => !self.fields.is_finished() && is_step_refusal(why),
        }
    }

    // What the job's fields give; 4 where it is no job.
    pub(crate) fn loaded(self) -> Result<Interpolant, Refusal>
        ensures outcome { outcome_of result ≡ bind (job_for (held_of self)) (λ i. gave (answered i)) }
        ensures points { length self.fields.points ≡ 65 }
    {
        match self.fields.accept() {
            Ok(i) if self.does_agree() => Ok(i),
            _ => Err(Refusal::Words),
        }
    }

    // Whether it is a job: 4 where it is none.
    pub fn check(self) -> Result<(), Refusal>
        ensures { Checked (held_of self) result }
    {
        self.loaded()?;
        Ok(())
    }

    // The job that fields make, running or finished as they say: 14, then 5 to 9 where they are not accepted.
    pub fn resume(fields: Fields) -> Result<Job, Refusal>
        ensures { Resuming fields result }
    {
        fields.accept()?;
        Ok(Job::of(fields))
    }

    // The job that a request opens: refusals 5 to 9. With no exchange allowed it is finished.
    pub fn open(request: Request) -> Result<Job, Refusal>
        ensures { Opening request result }
    {
        Job::resume(Fields::opening(request))
    }

    // One exchange: a job goes in and comes back as the next one. The first 2,482 words are worked in, and zero afterwards.
    pub fn step(self, scratch: &mut [u64]) -> (Job, Result<(), Refusal>)
        ensures { Step (held_of self) result.0 result.1 scratch.old scratch.new }
    {
        if scratch.len() < extrema::WORDS {
            return (self, Err(Refusal::Room));
        }
        let words = &mut scratch[..extrema::WORDS];
        let mut job = self;
        let answer = step::step_in(&mut job, words);
        numbers::wipe(words);
        (job, answer)
    }

    // The finished design: taps and frequencies to the front of the outputs, which hold at least 128 and 65.
    #[tactic(auto, using(crate::proofs::DesignLaws::designed_none, crate::proofs::DesignLaws::taps_short, crate::proofs::DesignLaws::freqs_short))]
    pub fn read(self, taps: &mut [f64], freqs: &mut [f64]) -> Result<Report, Refusal>
        ensures { Designed (design_for (held_of self) (length taps.old) (length freqs.old)) result taps.old taps.new freqs.old freqs.new }
    {
        if taps.len() < 128 || freqs.len() < 65 {
            return Err(Refusal::Room);
        }
        design::read_out(self, taps, freqs)
    }
}
