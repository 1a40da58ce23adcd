// A bank of 16 jobs in lent memory: open, step, read, save, restore, clear.
#![tactic(auto)]

mod calls;
mod slot;

ghost use Rattle.std.specs.Prelude.{◌≡◌, ◌&&◌, ◌≤◌, [], leb, length};
ghost use Rattle.bank.specs.Sizes.{full, wiped};
ghost use Rattle.bank.specs.Calls.{Call, told_by, tell_done, tell_design, tell_bytes};
ghost use Rattle.bank.specs.Bank.{gate_of, cleaned, number_of, At, bank_call, Ends};

use exchange::Report;
use fields::Request;
use numbers::Refusal;

// The words of a scratch that calls work in become zero.
#[tactic(auto, using(crate::proofs::Ending::wiped_front))]
fn clean(scratch: &mut [u64])
    requires { 8192 ≤ length scratch.old }
    ensures { scratch.new ≡ wiped 8192 scratch.old }
{
    numbers::wipe(&mut scratch[..8192]);
}

// The place of a slot's first word: refusals 1 and 2. Past refusal 1 the scratch is wiped.
#[tactic(auto, unfolding(crate::specs::Bank::gate_of, crate::specs::Bank::cleaned), using(crate::proofs::Ending::gate_wiped))]
fn gate(words: usize, scratch: &mut [u64], slot: usize, room: bool) -> Result<usize, Refusal>
    ensures value { number_of result ≡ gate_of full words (length scratch.old) slot room }
    ensures scratch_after { scratch.new ≡ cleaned full (gate_of full words (length scratch.old) slot room) scratch.old }
    ensures at { At words (length scratch.old) slot room result }
{
    if words < 4096 || scratch.len() < 8192 || !room {
        return Err(Refusal::Room);
    }
    clean(scratch);
    if slot >= 16 {
        return Err(Refusal::Slot);
    }
    Ok(slot * 256)
}

// A job for a request, into an empty slot.
pub fn open(
    bank: &mut [u64],
    scratch: &mut [u64],
    slot: usize,
    request: Request,
) -> Result<(), Refusal>
    ensures { Ends (bank_call full (Call.open' request) slot bank.old scratch.old) (told_by tell_done result) bank.new scratch.new [] [] [] }
{
    let at = gate(bank.len(), scratch, slot, true)?;
    calls::open_slot(&mut bank[at..at + 256], request)
}

// One exchange of the job in a slot.
pub fn step(bank: &mut [u64], scratch: &mut [u64], slot: usize) -> Result<(), Refusal>
    ensures { Ends (bank_call full Call.step slot bank.old scratch.old) (told_by tell_done result) bank.new scratch.new [] [] [] }
{
    let at = gate(bank.len(), scratch, slot, true)?;
    let answer = calls::step_slot(&mut bank[at..at + 256], &mut scratch[..8192]);
    clean(scratch);
    answer
}

// Room for the longest design.
fn has_room(taps: usize, freqs: usize) -> bool
    ensures { result ≡ (leb 128 taps && leb 65 freqs) }
{
    taps >= 128 && freqs >= 65
}

// The finished design of the job in a slot: taps and frequencies to the front of outputs of at least 128 and 65.
pub fn read(
    bank: &[u64],
    scratch: &mut [u64],
    slot: usize,
    taps: &mut [f64],
    freqs: &mut [f64],
) -> Result<Report, Refusal>
    ensures { Ends (bank_call full (Call.read taps.old freqs.old) slot bank.now scratch.old) (told_by tell_design result) bank.now scratch.new taps.new freqs.new [] }
{
    let at = gate(bank.len(), scratch, slot, has_room(taps.len(), freqs.len()))?;
    calls::read_slot(&bank[at..at + 256], taps, freqs)
}

// The image of the job in a slot, to the front of an output of at least 948 bytes; how many bytes it has.
pub fn save(
    bank: &[u64],
    scratch: &mut [u64],
    slot: usize,
    out: &mut [u8],
) -> Result<usize, Refusal>
    ensures { Ends (bank_call full (Call.save out.old) slot bank.now scratch.old) (told_by tell_bytes result) bank.now scratch.new [] [] out.new }
{
    let at = gate(bank.len(), scratch, slot, out.len() >= image::BYTES)?;
    calls::save_slot(&bank[at..at + 256], out)
}

// The job of an image, into an empty slot.
pub fn restore(
    bank: &mut [u64],
    scratch: &mut [u64],
    slot: usize,
    image: &[u8],
) -> Result<(), Refusal>
    ensures { Ends (bank_call full (Call.restore image.now) slot bank.old scratch.old) (told_by tell_done result) bank.new scratch.new [] [] [] }
{
    let at = gate(bank.len(), scratch, slot, true)?;
    calls::restore_slot(&mut bank[at..at + 256], image)
}

// Empties a slot, whatever its words are.
pub fn clear(bank: &mut [u64], scratch: &mut [u64], slot: usize) -> Result<(), Refusal>
    ensures { Ends (bank_call full Call.clear slot bank.old scratch.old) (told_by tell_done result) bank.new scratch.new [] [] [] }
{
    let at = gate(bank.len(), scratch, slot, true)?;
    calls::clear_slot(&mut bank[at..at + 256])
}
