// Plain decimals, as a person writes them: 0.18, -1.5, 2.
ghost use Rattle.std.specs.Prelude.{◌≡◌, false};
ghost use Rattle.text.specs.Fractions.{with_byte, fraction_from, unsigned_of, fraction_of};

use crate::{Word, part};

// Minus or not, the digits without their point, and the power of ten that the point divides them by.
#[derive(Clone, Copy)]
pub struct Fraction {
    pub minus: bool,
    pub digits: u32,
    pub scale: u32,
}

// The digits so far, their power of ten, and whether the point was passed.
#[derive(Clone, Copy)]
struct Partly {
    digits: u32,
    scale: u32,
    pointed: bool,
}

impl Partly {
    #[tactic(auto, unfolding(crate::specs::Fractions::with_byte))]
    fn with(self, b: u8) -> Option<Self>
        ensures { result ≡ with_byte self.digits self.scale self.pointed b }
    {
        match b {
            b'.' if !self.pointed => Some(Partly {
                pointed: true,
                ..self
            }),
            b'0'..=b'9' if self.digits <= 99_999_999 && self.scale <= 99_999_999 => Some(Partly {
                digits: self.digits * 10 + (b - b'0') as u32,
                scale: if self.pointed {
                    self.scale * 10
                } else {
                    self.scale
                },
                pointed: self.pointed,
            }),
            _ => None,
        }
    }
}

fn digits(s: &[u8], minus: bool) -> Option<Fraction>
    ensures { result ≡ fraction_from minus 0 1 false s.now }
{
    let mut so_far = Partly {
        digits: 0,
        scale: 1,
        pointed: false,
    };
    for &b in s {
        so_far = so_far.with(b)?;
    }
    Some(Fraction {
        minus,
        digits: so_far.digits,
        scale: so_far.scale,
    })
}

// Digits with at most one point, the first byte a digit.
#[tactic(auto, unfolding(crate::specs::Fractions::unsigned_of))]
fn unsigned(s: &[u8], minus: bool) -> Option<Fraction>
    ensures { result ≡ unsigned_of minus s.now }
{
    match s {
        [] | [b'.', ..] => None,
        _ => digits(s, minus),
    }
}

// A plain decimal: a minus sign or none, digits, at most one point after the first of them. At most 9 digits, zeros before the first other
// one not counted, and at most 9 behind the point.
#[tactic(auto, unfolding(crate::specs::Fractions::fraction_of, crate::specs::Fractions::unsigned_of))]
pub fn plain(s: &[u8], word: Word) -> Option<Fraction>
    ensures { result ≡ fraction_of s.now word.from word.to }
{
    let p = part(s, word);
    match p {
        [b'-', rest @ ..] => unsigned(rest, true),
        _ => unsigned(p, false),
    }
}
