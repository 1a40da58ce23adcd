#![tactic(auto)]

ghost use Rattle.std.specs.Prelude.{ℕ, Float, ◌≡◌, not, pos, ◌<◌, ◌≤◌, ◌++◌, length, get_or, drop, replicate};
ghost use Rattle.std.specs.Float.{nan, binary64};
ghost use Rattle.std.specs.Float.Ieee.{of_int};
ghost use Rattle.std.specs.Float.Ieee.Scale.{finite};
ghost use Rattle.numbers.specs.Floats.{sign, fault_of, all_finite, magnitude_of, normal, lesser, clamp};
ghost use Rattle.numbers.specs.Refusals.{refusal_number, outcome_of, verdict_of, Filled, Gives};
ghost use Rattle.numbers.specs.Outcome.{Outcome, needed_of, needed_list_of, gather, fill};
ghost use Rattle.numbers.specs.Words.{of_word, to_word};

// Why a call is refused: the table of document 01, numbers 1 to 15.
#[derive(Clone, Copy, PartialEq, Eq)]
pub enum Refusal {
    Room = 1,
    Slot = 2,
    State = 3,
    Words = 4,
    Request = 5,
    Bands = 6,
    Response = 7,
    Edges = 8,
    NotFinite = 9,
    Derivative = 10,
    Balancing = 11,
    Roots = 12,
    Extrema = 13,
    Layout = 14,
    Lists = 15,
}

// Document 01's number of a refusal.
impl From<Refusal> for u64 {
    ghost from_gives = { λ r n. n ≡ refusal_number r };

    fn from(r: Refusal) -> u64 {
        r as u64
    }
}

// Neither an infinity nor a NaN.
pub fn is_finite(x: f64) -> bool
    ensures { result ≡ finite x }
{
    x < 1.0 / 0.0 && -1.0 / 0.0 < x
}

// A needed number: refusal 9 where it is not finite.
pub fn needed(x: f64) -> Result<f64, Refusal>
    ensures { outcome_of result ≡ needed_of x }
{
    if is_finite(x) {
        Ok(x)
    } else {
        Err(Refusal::NotFinite)
    }
}

// 0 for a finite number, 1 for any other: of those alone x - x is no zero.
fn fault(x: f64) -> u64
    ensures { result ≡ fault_of x }
{
    if x - x == 0.0 { 0 } else { 1 }
}

// Every number of a list is finite. The faults are counted, without a way out of the loop, so that it runs in lanes.
pub fn all_finite(xs: &[f64]) -> bool
    ensures { result ≡ all_finite xs.now }
{
    let mut faults: u64 = 0;
    for &x in xs {
        faults += fault(x);
    }
    faults == 0
}

// A leaf's finished list, written to the front of a lent one: refusal 15 where that is too short, 9 where a number is not
// finite, and then nothing is written.
pub fn needed_list(src: &[f64], out: &mut [f64]) -> Result<(), Refusal>
    ensures { Filled (needed_list_of src.now (length out.old)) (length src.now) result out.old out.new }
{
    if out.len() < src.len() {
        return Err(Refusal::Lists);
    }
    if !all_finite(src) {
        return Err(Refusal::NotFinite);
    }
    out[..src.len()].copy_from_slice(src);
    Ok(())
}

// What `at` gives for each place in turn, into a list of as many; the first refusal ends it, and leaves the places from there on as
// they were.
pub fn fill_with<F: Fn(usize) -> Result<f64, Refusal>>(
    out: &mut [f64],
    at: F,
) -> Result<(), Refusal>
    requires { (k : ℕ) → k < length out.old → F.pre at k }
    ensures outcome { (g : ℕ → Outcome Float) → Gives (length out.old) (F.post at) g → verdict_of result out.new ≡ gather g (length out.old) 0 }
    ensures left { (g : ℕ → Outcome Float) → Gives (length out.old) (F.post at) g → out.new ≡ fill g (length out.old) 0 out.old }
    ensures length { length out.new ≡ length out.old }
{
    for i in 0..out.len() {
        out[i] = at(i)?;
    }
    Ok(())
}

// The number without its sign, that of -0.0 too; a NaN stays one.
pub fn magnitude(x: f64) -> f64
    ensures { result ≡ magnitude_of x }
{
    if x <= 0.0 { 0.0 - x } else { x }
}

// Neither zero, subnormal, infinite nor a NaN.
pub fn is_normal(x: f64) -> bool
    ensures { result ≡ normal x }
{
    let m = magnitude(x);
    2.2250738585072014e-308 <= m && m <= 1.7976931348623157e308
}

// The smaller of two: the first where they are equal, and where one is a NaN.
pub fn smaller(a: f64, b: f64) -> f64
    ensures { result ≡ lesser a b }
{
    if b < a { b } else { a }
}

// A number brought into low to high; a NaN gives high.
pub fn clamped(x: f64, low: f64, high: f64) -> f64
    ensures { result ≡ clamp low high x }
{
    if x <= high {
        if low <= x { x } else { low }
    } else {
        high
    }
}

// A whole number as f64: exact.
pub fn whole(n: u32) -> f64
    ensures { result ≡ of_int binary64 (pos n) }
{
    n as f64
}

// The number whose bits a word holds; 0.0 where they are a NaN's.
pub fn of_word(w: u64) -> f64
    ensures { result ≡ of_word w }
{
    if w % 0x8000_0000_0000_0000 > 0x7ff0_0000_0000_0000 {
        return 0.0;
    }
    f64::from_bits(w)
}

// The bits of a number; 0 for a NaN, which has none of its own.
pub fn to_word(x: f64) -> u64
    ensures { result ≡ to_word x }
{
    if x != x {
        return 0;
    }
    f64::to_bits(x)
}

// The sign bit is clear: that of -0.0 is not, and a NaN has none.
pub fn is_sign_clear(x: f64) -> bool
    ensures { result ≡ not (sign x) }
{
    to_word(x) < 0x8000_0000_0000_0000
}

// The words become zero.
// Kept: what may not change: docs/PROMISES.md names `wipe`.
pub fn wipe(words: &mut [u64])
    ensures { words.new ≡ replicate (length words.old) 0 }
{
    words.fill(0);
}
