ghost use Rattle.std.specs.Prelude.{◌≡◌, ◌<◌, ◌≤◌, length};
ghost use Rattle.std.specs.Float.{binary64};
ghost use Rattle.std.specs.Float.Ieee.{of_bits};
ghost use Rattle.numbers.specs.Loops.{every};
ghost use Rattle.fields.specs.Accept.{counts_hold};
ghost use Rattle.image.specs.Bytes.{number_at};
ghost use Rattle.image.specs.Image.{made_in, count_in, points_in, band_word, marked, value_laid, band_laid, head_laid, layout};

use crate::bytes;
use bands::{Plan, Symmetry};

pub(crate) fn count_in(s: &[u8]) -> usize
    ensures { (result ≡ count_in s.now) × (result < 256) }
{
    bytes::number_at(s, 11, 1) as usize
}

fn made_in(s: &[u8]) -> usize
    ensures { (result ≡ made_in s.now) × (result < 256) }
{
    bytes::number_at(s, 10, 1) as usize
}

pub(crate) fn points_in(s: &[u8]) -> usize
    ensures value { result ≡ points_in s.now }
    ensures upper_bound { result < 40000 }
{
    let taps = bytes::number_at(s, 6, 2) as usize;
    let symmetry = Symmetry::from(bytes::number_at(s, 5, 1));
    packing::points_for(made_in(s), taps, symmetry)
}

// Word k of band i: two kinds of a byte, then numbers of eight.
pub(crate) fn band_word(s: &[u8], i: usize, k: usize) -> u64
    requires { (i < 256) × (k < 8) }
    ensures { result ≡ band_word s.now i k }
{
    let at = 28 + 50 * i;
    if count_in(s) <= i {
        0
    } else if k < 2 {
        bytes::number_at(s, at + k, 1)
    } else {
        bytes::number_at(s, at + 2 + 8 * (k - 2), 8)
    }
}

fn is_marked(s: &[u8]) -> bool
    ensures { result ≡ marked s.now }
{
    s.starts_with(b"RXS")
}

// A constant repeats its number's bits.
fn is_value_laid(kind: u64, a: u64, b: u64) -> bool
    ensures { result ≡ value_laid kind a b }
{
    match kind {
        0 => a == b,
        1 => true,
        _ => false,
    }
}

fn is_band_laid(s: &[u8], i: usize) -> bool
    requires { i < 256 }
    ensures { result ≡ band_laid s.now i }
{
    is_value_laid(band_word(s, i, 0), band_word(s, i, 4), band_word(s, i, 5))
        && is_value_laid(band_word(s, i, 1), band_word(s, i, 6), band_word(s, i, 7))
}

fn are_bands_laid(s: &[u8], n: usize) -> bool
    requires { n < 256 }
    ensures { result ≡ every (band_laid s.now) n }
{
    (0..n).all(|i| is_band_laid(s, i))
}

fn do_counts_hold(s: &[u8]) -> bool
    ensures { result ≡ counts_hold (made_in s.now) (number_at s.now 9 1) (of_bits binary64 (number_at s.now 20 8)) }
{
    let allowed = bytes::number_at(s, 9, 1) as usize;
    fields::do_counts_hold(
        made_in(s),
        allowed,
        packing::of_bits(bytes::number_at(s, 20, 8)),
    )
}

#[tactic(auto, unfolding(crate::specs::Image::head_laid))]
fn is_head_laid(s: &[u8]) -> bool
    ensures { result ≡ head_laid s.now }
{
    28 <= s.len()
        && is_marked(s)
        && bytes::number_at(s, 3, 2) == 1
        && bytes::number_at(s, 5, 1) <= 1
        && 1 <= count_in(s)
        && count_in(s) <= Plan::BANDS
        && do_counts_hold(s)
}

#[tactic(auto, unfolding(crate::specs::Image::layout))]
pub(crate) fn has_layout(s: &[u8]) -> bool
    ensures { result ≡ layout s.now }
{
    is_head_laid(s)
        && s.len() == 28 + 50 * count_in(s) + 8 * points_in(s)
        && are_bands_laid(s, count_in(s))
}
