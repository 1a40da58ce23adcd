ghost use Rattle.std.specs.Prelude.{◌≡◌, eqb, length};
ghost use Rattle.std.specs.List.{list_all};
ghost use Rattle.numbers.specs.Refusals.{refusal_number, verdict_of};
ghost use Rattle.exchange.specs.Job.{standing_of, held_of, held_in};
ghost use Rattle.bank.specs.Slot.{state_word, failure_word, slot_words};
ghost use Rattle.bank.specs.Content.{named, standing_near, packed_of, content_of, vacant_for, near_for};

use exchange::{Job, State};
use numbers::Refusal;

// What a slot's words are: all zero, or those of a job's fields and state, or neither. Whether they are a job is asked of the job.
#[derive(Clone, Copy)]
enum Content {
    Empty,
    Broken,
    Holds(Job),
}

// The refusal of a step, 9 to 13; for any other number one that no job fails with.
// Kept: no plainer: five of the fifteen refusals, where a conversion of all would have to be narrowed here again.
fn refusal_of(n: u64) -> Refusal
    ensures { refusal_number result ≡ named n }
{
    match n {
        9 => Refusal::NotFinite,
        10 => Refusal::Derivative,
        11 => Refusal::Balancing,
        12 => Refusal::Roots,
        13 => Refusal::Extrema,
        _ => Refusal::Room,
    }
}

// Kept: no plainer: two words make a state, so no `From` can take them.
fn state_in(state: u64, failure: u64) -> State
    ensures { standing_of result ≡ standing_near state failure }
{
    match state {
        1 => State::Running,
        2 => State::Finished,
        _ => State::Failed(refusal_of(failure)),
    }
}

// The words of a state: its number, and that of the refusal that a job failed with.
fn state_words(state: State) -> (u64, u64)
    ensures { (result.0 ≡ state_word (standing_of state)) × (result.1 ≡ failure_word (standing_of state)) }
{
    match state {
        State::Running => (1, 0),
        State::Finished => (2, 0),
        State::Failed(why) => (3, u64::from(why)),
    }
}

// A job as the words of a slot.
#[tactic(auto, using(crate::proofs::SlotLaws::slot_laid))]
fn words_of(job: Job) -> [u64; 256]
    ensures { result ≡ slot_words 256 (held_of job) }
{
    let (state, failure) = state_words(job.state);
    let mut out = [0; 256];
    out[0] = state;
    out[1] = failure;
    out[2..139].copy_from_slice(&packing::pack(job.fields));
    out
}

fn are_zero(s: &[u64]) -> bool
    ensures { result ≡ list_all (λ word. eqb word 0) s.now }
{
    s.iter().all(|&word| word == 0)
}

fn load(s: &[u64]) -> Content
    requires { length s.now ≡ 256 }
    ensures { content_of result ≡ packed_of s.now }
{
    if are_zero(s) {
        return Content::Empty;
    }
    let job = Job {
        fields: packing::unpack(&s[2..]),
        state: state_in(s[0], s[1]),
    };
    if words_of(job).as_slice() == s {
        Content::Holds(job)
    } else {
        Content::Broken
    }
}

// An empty slot: else 3 where it holds a job, and 4 where it is neither.
#[tactic(auto, using(crate::proofs::CallLaws::check_stops))]
pub(crate) fn vacant(s: &[u64]) -> Result<(), Refusal>
    requires { length s.now ≡ 256 }
    ensures { verdict_of result tt ≡ vacant_for (packed_of s.now) }
{
    match load(s) {
        Content::Empty => Ok(()),
        Content::Broken => Err(Refusal::Words),
        Content::Holds(job) => {
            job.check()?;
            Err(Refusal::State)
        }
    }
}

// What may be a job: it judges itself. 3 for an empty slot, 4 for one that is neither.
pub(crate) fn job_in(s: &[u64]) -> Result<Job, Refusal>
    requires { length s.now ≡ 256 }
    ensures { held_in result ≡ near_for (packed_of s.now) }
{
    match load(s) {
        Content::Empty => Err(Refusal::State),
        Content::Broken => Err(Refusal::Words),
        Content::Holds(job) => Ok(job),
    }
}

pub(crate) fn store(s: &mut [u64], job: Job)
    requires { length s.old ≡ 256 }
    ensures { s.new ≡ slot_words (length s.old) (held_of job) }
{
    s.copy_from_slice(&words_of(job));
}
