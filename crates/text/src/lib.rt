// Text as the gate programs read it: words between blanks, numerals in them, and remarks from a `#` to the end of its line.
#![tactic(auto)]

mod fraction;
mod input;

ghost use Rattle.std.specs.Prelude.{◌≡◌, ◌+◌, ◌≤◌, length, drop};
ghost use Rattle.text.specs.Parts.{part_of, same};
ghost use Rattle.text.specs.Words.{blank, begins, remarked, lead, word_length, start_of, next_of};
ghost use Rattle.text.specs.Numerals.{value_of, Short, numeral, hex_of, decimal_of};

pub use fraction::{Fraction, plain};
pub use input::read_full;

// A word from its first byte to one past its last.
#[derive(Clone, Copy)]
pub struct Word {
    pub from: usize,
    pub to: usize,
}

#[tactic(auto, unfolding(crate::specs::Words::blank))]
fn is_blank(b: u8) -> bool
    ensures { result ≡ blank b }
{
    b == b' ' || b == b'\n' || b == b'\r' || b == b'\t'
}

#[tactic(auto, unfolding(crate::specs::Words::begins))]
fn is_first(remark: bool, b: u8) -> bool
    ensures { result ≡ begins remark b }
{
    !remark && !is_blank(b) && b != b'#'
}

#[tactic(auto, unfolding(crate::specs::Words::remarked))]
fn is_remark(remark: bool, b: u8) -> bool
    ensures { result ≡ remarked remark b }
{
    if remark { b != b'\n' } else { b == b'#' }
}

fn word_start(s: &[u8], at: usize) -> Option<usize>
    ensures { result ≡ start_of s.now at }
{
    let mut remark = false;
    for i in at..s.len() {
        if is_first(remark, s[i]) {
            return Some(i);
        }
        remark = is_remark(remark, s[i]);
    }
    None
}

fn word_end(s: &[u8], from: usize) -> usize
    requires { from ≤ length s.now }
    ensures { result ≡ from + word_length (drop from s.now) }
{
    for i in from..s.len() {
        if is_blank(s[i]) {
            return i;
        }
    }
    s.len()
}

// The next word at or after `at`: blanks and remarks before it are passed.
#[tactic(auto, unfolding(crate::specs::Words::next_of))]
pub fn next(s: &[u8], at: usize) -> Option<Word>
    ensures { result ≡ next_of s.now at }
{
    let from = word_start(s, at)?;
    Some(Word {
        from,
        to: word_end(s, from),
    })
}

// The bytes of a word; none where the text has no such part.
#[tactic(auto, unfolding(crate::specs::Parts::part_of))]
pub fn part(s: &[u8], word: Word) -> &[u8]
    ensures { result.now ≡ part_of s.now word.from word.to }
{
    s.get(word.from..word.to).unwrap_or(&[])
}

#[tactic(auto, unfolding(crate::specs::Numerals::value_of))]
fn value(b: u8) -> Option<u64>
    ensures { result ≡ value_of b }
{
    match b {
        b'0'..=b'9' => Some((b - b'0') as u64),
        b'a'..=b'f' => Some((b - b'a' + 10) as u64),
        _ => None,
    }
}

// Kept: no plainer: the library reads a sign and capital letters too.
fn number(s: &[u8], base: u64) -> Option<u64>
    requires { Short s.now base }
    ensures { result ≡ numeral base 0 s.now }
{
    let mut n: u64 = 0;
    for &b in s {
        match value(b) {
            Some(v) if v < base => n = n * base + v,
            _ => return None,
        }
    }
    Some(n)
}

// The number that exactly 16 hexadecimal digits stand for, those above 9 as small letters.
#[tactic(auto, unfolding(crate::specs::Numerals::hex_of))]
pub fn hex(s: &[u8], word: Word) -> Option<u64>
    ensures { result ≡ hex_of s.now word.from word.to }
{
    let p = part(s, word);
    if p.len() == 16 { number(p, 16) } else { None }
}

// The number that 1 to 9 decimal digits stand for.
#[tactic(auto, unfolding(crate::specs::Numerals::decimal_of))]
pub fn decimal(s: &[u8], word: Word) -> Option<u64>
    ensures { result ≡ decimal_of s.now word.from word.to }
{
    let p = part(s, word);
    match p.len() {
        1..=9 => number(p, 10),
        _ => None,
    }
}

// Whether the word is the name; one that is not there is empty.
pub fn is(s: &[u8], word: Word, name: &[u8]) -> bool
    ensures { result ≡ same (part_of s.now word.from word.to) name.now }
{
    part(s, word) == name
}
