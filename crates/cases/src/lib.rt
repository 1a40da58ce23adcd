// Stored cases as the gate's programs replay them: words, whole numbers and lists of numbers by their bits (oracle/README.md has the
// format).
#![tactic(auto)]

mod plans;

ghost use Rattle.std.specs.Prelude.{◌≡◌};
ghost use Rattle.numbers.specs.Loops.{every};
ghost use Rattle.cases.specs.Cases.{past_of, whole_at, count_at, number_in, numbers_at, list_at, ReadInto, same_number, same_bits, finite_front, word_is, case_of};

pub use plans::{Banded, Planned, band_at, plan_at, written_at, written_in};
use text::Word;

// How many there are, and where they end.
#[derive(Clone, Copy)]
pub struct Span {
    pub count: usize,
    pub at: usize,
}

// The end of the next word.
#[tactic(auto, unfolding(crate::specs::Cases::past_of))]
pub fn past(s: &[u8], at: usize) -> usize
    ensures { result ≡ past_of s.now at }
{
    text::next(s, at).map_or(at, |word| word.to)
}

// A whole number, as the count.
#[tactic(auto, unfolding(crate::specs::Cases::whole_at))]
pub fn whole_at(s: &[u8], at: usize) -> Option<Span>
    ensures { result ≡ whole_at s.now at }
{
    let word = text::next(s, at)?;
    let n = text::decimal(s, word)?;
    Some(Span {
        count: n as usize,
        at: word.to,
    })
}

// A whole number, as the count; 0, and no word passed, where there is none.
pub fn count_at(s: &[u8], at: usize) -> Span
    ensures { result ≡ count_at s.now at }
{
    whole_at(s, at).unwrap_or(Span { count: 0, at })
}

// The number of 16 digits; a NaN for its own digits, and for what is no number.
#[tactic(auto, unfolding(crate::specs::Cases::number_in))]
pub fn number_in(s: &[u8], word: Word) -> f64
    ensures { result ≡ number_in s.now word.from word.to }
{
    match text::hex(s, word) {
        Some(w) if numbers::to_word(numbers::of_word(w)) == w => numbers::of_word(w),
        _ => f64::NAN,
    }
}

// As many numbers as `count` says, if there is room.
pub fn numbers_into(s: &[u8], at: usize, count: usize, out: &mut [f64]) -> Option<Span>
    ensures { ReadInto (numbers_at s.now at count out.old) result out.new }
{
    let mut from = at;
    for i in 0..count {
        if out.len() <= i {
            return None;
        }
        let word = text::next(s, from)?;
        out[i] = number_in(s, word);
        from = word.to;
    }
    Some(Span { count, at: from })
}

// A keyword, how many, and the numbers; or where what is missing stands: `at` for the count, and the place after the count for a
// number or room for one.
#[tactic(auto, unfolding(crate::specs::Cases::list_at))]
pub fn list_into(s: &[u8], at: usize, out: &mut [f64]) -> Result<Span, usize>
    ensures { ReadInto (list_at s.now at out.old) result out.new }
{
    let n = whole_at(s, past(s, at)).ok_or(at)?;
    numbers_into(s, n.at, n.count, out).ok_or(n.at)
}

// Finite numbers of the same bits. Nothing is the same as a number that is not finite, which no leaf gives.
// Kept: no plainer: `==` takes zeros of both signs for the same.
pub fn is_same(a: f64, b: f64) -> bool
    ensures { result ≡ same_number a b }
{
    numbers::is_finite(a) && numbers::is_finite(b) && numbers::to_word(a) == numbers::to_word(b)
}

fn is_same_at(a: &[f64], b: &[f64], i: usize) -> bool
    ensures { result ≡ same_bits a.now b.now i }
{
    i < a.len() && i < b.len() && is_same(a[i], b[i])
}

// The first `count` of two lists, bit for bit.
pub fn are_same(a: &[f64], b: &[f64], count: usize) -> bool
    ensures { result ≡ every (same_bits a.now b.now) count }
{
    // Kept: tried, the proof of `(0..count).all(..)` did not close.
    for i in 0..count {
        if !is_same_at(a, b, i) {
            return false;
        }
    }
    true
}

// The first `count` of a list are there and finite.
pub fn are_finite(a: &[f64], count: usize) -> bool
    ensures { result ≡ finite_front a.now count }
{
    count <= a.len() && numbers::all_finite(&a[..count])
}

// Whether the next word is the name.
#[tactic(auto, unfolding(crate::specs::Cases::word_is))]
pub fn is_word(s: &[u8], at: usize, name: &[u8]) -> bool
    ensures { result ≡ word_is s.now at name.now }
{
    match text::next(s, at) {
        Some(word) => text::is(s, word, name),
        None => false,
    }
}

// Whether the word is `leaf` and the one after it the name.
#[tactic(auto, unfolding(crate::specs::Cases::case_of))]
pub fn is_case(s: &[u8], word: Word, name: &[u8]) -> bool
    ensures { result ≡ case_of s.now word.from word.to name.now }
{
    text::is(s, word, b"leaf") && is_word(s, word.to, name)
}
