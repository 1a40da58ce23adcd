ghost use Rattle.std.specs.Prelude.{◌≡◌, ◌<◌};
ghost use Rattle.std.specs.Float.{binary64};
ghost use Rattle.std.specs.Float.Ieee.{of_bits};
ghost use Rattle.numbers.specs.Loops.{tab};
ghost use Rattle.packing.specs.Packing.{at, number, band_in, point_at, plan_in, request_in};

use bands::{Band, Plan, Symmetry, Value};
use fields::Request;
use std::array;

// A word; past the end of the words, zero.
pub(crate) fn at(words: &[u64], i: usize) -> u64
    ensures { result ≡ at words.now i }
{
    words.get(i).copied().unwrap_or(0)
}

// The number whose bits a word holds, a NaN too.
// Kept: no plainer: `numbers::of_word` is another function, which gives 0.0 for a NaN's bits.
pub fn of_bits(w: u64) -> f64
    ensures { result ≡ of_bits binary64 w }
{
    if w % 0x8000_0000_0000_0000 > 0x7ff0_0000_0000_0000 {
        return f64::NAN;
    }
    f64::from_bits(w)
}

// Kept: no plainer: a word by its place, so no `From` can take it.
pub(crate) fn number(words: &[u64], i: usize) -> f64
    ensures { result ≡ number words.now i }
{
    of_bits(at(words, i))
}

fn band_in(words: &[u64], i: usize) -> Band
    requires { i < 8 }
    ensures { result ≡ band_in words.now i }
{
    let k = 8 + 8 * i;
    Band {
        begin: number(words, k + 2),
        end: number(words, k + 3),
        desired: Value::of_kind(at(words, k), number(words, k + 4), number(words, k + 5)),
        weight: Value::of_kind(at(words, k + 1), number(words, k + 6), number(words, k + 7)),
    }
}

fn plan_in(words: &[u64]) -> Plan
    ensures { result ≡ plan_in words.now }
{
    Plan {
        bands: array::from_fn(|i| band_in(words, i)),
        count: at(words, 5) as usize,
    }
}

pub(crate) fn request_in(words: &[u64]) -> Request
    ensures { result ≡ request_in words.now }
{
    Request {
        taps: at(words, 1) as usize,
        symmetry: Symmetry::from(at(words, 0)),
        degree: at(words, 2) as usize,
        exchanges: at(words, 3) as usize,
        threshold: number(words, 6),
        plan: plan_in(words),
    }
}

pub(crate) fn points_in(words: &[u64]) -> [f64; 65]
    ensures { result ≡ tab (λ i. number words.now (point_at i)) 65 0 }
{
    array::from_fn(|i| number(words, 72 + i))
}
