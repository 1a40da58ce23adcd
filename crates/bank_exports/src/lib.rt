// The bank's calls for C and whatever calls C. A slice is handed over as its address and its length. Each answers 0, or document 01's
// number of the refusal; what a call tells beside that goes to the front of `report` and `counts`, which are refused with 15, before anything
// else is looked at, where they have no room for it.
#![tactic(auto, using(crate::proofs::ServedLaws::served_done))]

ghost use Rattle.std.specs.Prelude.{◌≡◌, true, [], length};
ghost use Rattle.exports.specs.Answers.{said};
ghost use Rattle.bank.specs.Calls.{Call};
ghost use Rattle.bank_exports.specs.Served.{request_from, served, read_for, save_for, reported, iterations_told, bytes_told, Served};

use bands::Symmetry;
use fields::Request;
use numbers::Refusal;

// A symmetry above 1 is out of range, as a request of no taps is.
fn request_from(
    taps: usize,
    symmetry: u64,
    degree: usize,
    exchanges: usize,
    threshold: f64,
    kinds: &[u64],
    numbers: &[f64],
) -> Request
    ensures { result ≡ request_from taps symmetry degree exchanges threshold kinds.now numbers.now }
{
    Request {
        taps: if symmetry <= 1 { taps } else { 0 },
        symmetry: Symmetry::from(symmetry),
        degree,
        exchanges,
        threshold,
        plan: exports::plan_of(kinds, numbers),
    }
}

// A job for a request, into an empty slot. The plan is as `exports::plan_of` reads it.
#[unsafe(no_mangle)]
pub extern "C" fn stepsheaf_open(
    bank: &mut [u64],
    scratch: &mut [u64],
    slot: usize,
    taps: usize,
    symmetry: u64,
    degree: usize,
    exchanges: usize,
    threshold: f64,
    kinds: &[u64],
    numbers: &[f64],
) -> u64
    ensures { Served (served true (Call.open' (request_from taps symmetry degree exchanges threshold kinds.now numbers.now)) slot bank.old scratch.old) result bank.new scratch.new [] [] [] }
{
    let request = request_from(taps, symmetry, degree, exchanges, threshold, kinds, numbers);
    exports::told(bank::open(bank, scratch, slot, request))
}

// One exchange of the job in a slot.
#[unsafe(no_mangle)]
pub extern "C" fn stepsheaf_step(bank: &mut [u64], scratch: &mut [u64], slot: usize) -> u64
    ensures { Served (served true Call.step slot bank.old scratch.old) result bank.new scratch.new [] [] [] }
{
    exports::told(bank::step(bank, scratch, slot))
}

fn read_into(
    bank: &mut [u64],
    scratch: &mut [u64],
    slot: usize,
    taps: &mut [f64],
    freqs: &mut [f64],
    report: &mut [f64],
    counts: &mut [u64],
) -> Result<(), Refusal>
    ensures served { Served (read_for (length report.old) (length counts.old) taps.old freqs.old slot bank.old scratch.old) (said result) bank.new scratch.new taps.new freqs.new [] }
    ensures report_after { report.new ≡ reported (read_for (length report.old) (length counts.old) taps.old freqs.old slot bank.old scratch.old).told report.old }
    ensures counts_after { counts.new ≡ iterations_told (read_for (length report.old) (length counts.old) taps.old freqs.old slot bank.old scratch.old).told counts.old }
{
    if report.len() < 2 || counts.is_empty() {
        return Err(Refusal::Lists);
    }
    let design = bank::read(bank, scratch, slot, taps, freqs)?;
    report[0] = design.error;
    report[1] = design.flatness;
    counts[0] = design.iterations as u64;
    Ok(())
}

// The design of a finished job: taps and extremal frequencies to the front of the outputs, the weighted error and the flatness to
// `report`, the iterations to `counts`.
#[unsafe(no_mangle)]
pub extern "C" fn stepsheaf_read(
    bank: &mut [u64],
    scratch: &mut [u64],
    slot: usize,
    taps: &mut [f64],
    freqs: &mut [f64],
    report: &mut [f64],
    counts: &mut [u64],
) -> u64
    ensures served { Served (read_for (length report.old) (length counts.old) taps.old freqs.old slot bank.old scratch.old) result bank.new scratch.new taps.new freqs.new [] }
    ensures report_after { report.new ≡ reported (read_for (length report.old) (length counts.old) taps.old freqs.old slot bank.old scratch.old).told report.old }
    ensures counts_after { counts.new ≡ iterations_told (read_for (length report.old) (length counts.old) taps.old freqs.old slot bank.old scratch.old).told counts.old }
{
    exports::told(read_into(bank, scratch, slot, taps, freqs, report, counts))
}

fn save_into(
    bank: &mut [u64],
    scratch: &mut [u64],
    slot: usize,
    out: &mut [u8],
    counts: &mut [u64],
) -> Result<(), Refusal>
    ensures served { Served (save_for (length counts.old) out.old slot bank.old scratch.old) (said result) bank.new scratch.new [] [] out.new }
    ensures counts_after { counts.new ≡ bytes_told (save_for (length counts.old) out.old slot bank.old scratch.old).told counts.old }
{
    if counts.is_empty() {
        return Err(Refusal::Lists);
    }
    counts[0] = bank::save(bank, scratch, slot, out)? as u64;
    Ok(())
}

// A running or finished job as an image, to the front of `out`; its bytes are told in `counts`.
#[unsafe(no_mangle)]
pub extern "C" fn stepsheaf_save(
    bank: &mut [u64],
    scratch: &mut [u64],
    slot: usize,
    out: &mut [u8],
    counts: &mut [u64],
) -> u64
    ensures served { Served (save_for (length counts.old) out.old slot bank.old scratch.old) result bank.new scratch.new [] [] out.new }
    ensures counts_after { counts.new ≡ bytes_told (save_for (length counts.old) out.old slot bank.old scratch.old).told counts.old }
{
    exports::told(save_into(bank, scratch, slot, out, counts))
}

// The job of an image, into an empty slot.
#[unsafe(no_mangle)]
pub extern "C" fn stepsheaf_restore(
    bank: &mut [u64],
    scratch: &mut [u64],
    slot: usize,
    image: &[u8],
) -> u64
    ensures { Served (served true (Call.restore image.now) slot bank.old scratch.old) result bank.new scratch.new [] [] [] }
{
    exports::told(bank::restore(bank, scratch, slot, image))
}

// Empties a slot, whatever its words are.
#[unsafe(no_mangle)]
pub extern "C" fn stepsheaf_clear(bank: &mut [u64], scratch: &mut [u64], slot: usize) -> u64
    ensures { Served (served true Call.clear slot bank.old scratch.old) result bank.new scratch.new [] [] [] }
{
    exports::told(bank::clear(bank, scratch, slot))
}
