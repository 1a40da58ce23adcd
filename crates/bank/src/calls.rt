ghost use Rattle.std.specs.Prelude.{◌≡◌, [], ◌≤◌, length};
ghost use Rattle.bank.specs.Sizes.{full};
ghost use Rattle.bank.specs.Calls.{Call, told_by, tell_done, tell_design, tell_bytes, on_slot, Settled};

use crate::slot;
use exchange::{Job, Report, State};
use fields::Request;
use numbers::Refusal;

pub(crate) fn clear_slot(s: &mut [u64]) -> Result<(), Refusal>
    ensures { Settled (on_slot full Call.clear s.old) (told_by tell_done result) s.new [] [] [] }
{
    numbers::wipe(s);
    Ok(())
}

pub(crate) fn open_slot(s: &mut [u64], request: Request) -> Result<(), Refusal>
    requires { length s.old ≡ 256 }
    ensures { Settled (on_slot full (Call.open' request) s.old) (told_by tell_done result) s.new [] [] [] }
{
    slot::vacant(s)?;
    let job = Job::open(request)?;
    slot::store(s, job);
    Ok(())
}

pub(crate) fn step_slot(s: &mut [u64], scratch: &mut [u64]) -> Result<(), Refusal>
    requires { (length s.old ≡ 256) × (length scratch.old ≡ 8192) }
    ensures { Settled (on_slot full Call.step s.old) (told_by tell_done result) s.new [] [] [] }
{
    let before = slot::job_in(s)?;
    let (next, answer) = before.step(scratch);
    slot::store(s, next);
    answer
}

pub(crate) fn restore_slot(s: &mut [u64], image: &[u8]) -> Result<(), Refusal>
    requires { length s.old ≡ 256 }
    ensures { Settled (on_slot full (Call.restore image.now) s.old) (told_by tell_done result) s.new [] [] [] }
{
    slot::vacant(s)?;
    let fields = image::decode(image)?;
    let job = Job::resume(fields)?;
    slot::store(s, job);
    Ok(())
}

pub(crate) fn read_slot(s: &[u64], taps: &mut [f64], freqs: &mut [f64]) -> Result<Report, Refusal>
    requires { (length s.now ≡ 256) × (128 ≤ length taps.old) × (65 ≤ length freqs.old) }
    ensures { Settled (on_slot full (Call.read taps.old freqs.old) s.now) (told_by tell_design result) s.now taps.new freqs.new [] }
{
    let job = slot::job_in(s)?;
    job.read(taps, freqs)
}

// The image of the job: of a failed one its number again.
pub(crate) fn save_slot(s: &[u64], out: &mut [u8]) -> Result<usize, Refusal>
    requires { (length s.now ≡ 256) × (948 ≤ length out.old) }
    ensures { Settled (on_slot full (Call.save out.old) s.now) (told_by tell_bytes result) s.now [] [] out.new }
{
    let job = slot::job_in(s)?;
    job.check()?;
    match job.state {
        State::Failed(why) => Err(why),
        _ => image::encode(job.fields, out),
    }
}
