// Numbers for a person.
use std::fmt;

// What is below this has one digit before the point, once it is rounded to 12 places.
const TEN: f64 = 9.9999999999995;

const HALF_A_PLACE: f64 = 0.0000000000005;

// A digit, and what is left below 1.
fn peel(x: f64) -> (u64, f64) {
    let mut rest = x;
    for digit in 0..9 {
        if rest < 1.0 {
            return (digit, rest);
        }
        rest -= 1.0;
    }
    (9, rest)
}

// A power of ten, and what it multiplies.
fn scaled(x: f64) -> (u64, f64) {
    let mut rest = x;
    for power in 0..308 {
        if rest < TEN {
            return (power, rest);
        }
        rest /= 10.0;
    }
    (308, rest)
}

// A number from 0 to below 10, cut to 12 decimal places.
#[derive(Clone, Copy)]
struct Places(f64);

impl fmt::Display for Places {
    fn fmt<W: fmt::Write>(&self, f: &mut fmt::Formatter<W>) -> fmt::Result {
        let (digit, mut rest) = peel(self.0);
        write!(f, "{digit}.")?;
        for _ in 0..12 {
            let (digit, left) = peel(rest * 10.0);
            write!(f, "{digit}")?;
            rest = left;
        }
        Ok(())
    }
}

// Rounded to 12 decimal places; from 10 on with a power of ten. Then the 16 digits of its bits.
#[derive(Clone, Copy)]
pub(crate) struct Number(pub(crate) f64);

impl fmt::Display for Number {
    fn fmt<W: fmt::Write>(&self, f: &mut fmt::Formatter<W>) -> fmt::Result {
        let x = self.0;
        let sign = if x < 0.0 { "-" } else { " " };
        let m = numbers::magnitude(x);
        if m < TEN {
            write!(f, "{sign}{}", Places(m + HALF_A_PLACE))?;
        } else {
            let (power, rest) = scaled(m);
            write!(f, "{sign}{}e{power}", Places(rest + HALF_A_PLACE))?;
        }
        write!(f, "  {:016x}", numbers::to_word(x))
    }
}
