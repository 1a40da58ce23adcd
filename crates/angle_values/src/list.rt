// The stored list, line by line: a function's name, a place and the host's value there.
ghost use Rattle.std.specs.Prelude.{◌≡◌, ◌+◌, ◌==◌, count_by};
ghost use Rattle.std.specs.List.{position};
ghost use Rattle.angle_values.specs.Lines.{number_of, name_of, asked_of, line_of, line_end, line_number};

use numbers::{of_word, to_word};
use text::Word;

#[derive(Clone, Copy)]
pub enum Function {
    Cosine,
    Sine,
    Arccosine,
}

#[derive(Clone, Copy)]
pub struct Case {
    pub function: Function,
    pub place: f64,
    pub value: f64,
}

// A case, and where it begins and ends.
#[derive(Clone, Copy)]
pub struct Asked {
    pub case: Case,
    pub from: usize,
    pub to: usize,
}

// Where something else begins.
#[derive(Clone, Copy)]
pub struct Malformed {
    pub from: usize,
}

// A NaN's digits are none.
// Kept: no plainer: digits of bits are no number that the library reads.
#[tactic(auto, unfolding(crate::specs::Lines::number_of))]
fn number(s: &[u8], word: Word) -> Option<f64>
    ensures { result ≡ number_of s.now word.from word.to }
{
    let w = text::hex(s, word)?;
    let x = of_word(w);
    (to_word(x) == w).then_some(x)
}

#[tactic(auto, unfolding(crate::specs::Lines::name_of))]
fn name(s: &[u8], word: Word) -> Option<Function>
    ensures { result ≡ name_of s.now word.from word.to }
{
    if text::is(s, word, b"cosine") {
        Some(Function::Cosine)
    } else if text::is(s, word, b"sine") {
        Some(Function::Sine)
    } else if text::is(s, word, b"arccosine") {
        Some(Function::Arccosine)
    } else {
        None
    }
}

#[tactic(auto, unfolding(crate::specs::Lines::asked_of))]
fn asked_at(s: &[u8], word: Word) -> Option<Asked>
    ensures { result ≡ asked_of s.now word.from word.to }
{
    let function = name(s, word)?;
    let first = text::next(s, word.to)?;
    let place = number(s, first)?;
    let second = text::next(s, first.to)?;
    let value = number(s, second)?;
    Some(Asked {
        case: Case {
            function,
            place,
            value,
        },
        from: word.from,
        to: second.to,
    })
}

// What is read from a place on: a case or something else, or nothing more.
#[tactic(auto, unfolding(crate::specs::Lines::line_of))]
pub fn read(s: &[u8], at: usize) -> Option<Result<Asked, Malformed>>
    ensures { result ≡ line_of s.now at }
{
    let word = text::next(s, at)?;
    Some(asked_at(s, word).ok_or(Malformed { from: word.from }))
}

fn newline(s: &[u8]) -> Option<usize>
    ensures { result ≡ position (λ b. b == 10) s.now }
{
    s.iter().position(|&b| b == b'\n')
}

// Where the line of a place ends.
pub fn line_end(s: &[u8], at: usize) -> usize
    ensures { result ≡ line_end s.now at }
{
    match s.get(at..) {
        Some(rest) => at + newline(rest).unwrap_or(rest.len()),
        None => at,
    }
}

fn newlines(s: &[u8]) -> usize
    ensures { result ≡ count_by (λ b. b == 10) s.now }
{
    let mut n: usize = 0;
    for &b in s {
        n += (b == b'\n') as usize;
    }
    n
}

// The number of a place's line, from 1.
pub fn line_number(s: &[u8], at: usize) -> u64
    ensures { result ≡ line_number s.now at }
{
    newlines(&s[..at.min(s.len())]) as u64 + 1
}
