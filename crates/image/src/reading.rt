ghost use Rattle.std.specs.Prelude.{◌≡◌, ◌<◌, ◌/◌, ◌%◌};
ghost use Rattle.numbers.specs.Loops.{tab};
ghost use Rattle.image.specs.Image.{head_in, band_word, point_word, words_in};

use crate::{bytes, layout};
use std::array;

fn head_in(s: &[u8]) -> [u64; 8]
    ensures { result ≡ head_in s.now }
{
    [
        bytes::number_at(s, 5, 1),
        bytes::number_at(s, 6, 2),
        bytes::number_at(s, 8, 1),
        bytes::number_at(s, 9, 1),
        bytes::number_at(s, 10, 1),
        bytes::number_at(s, 11, 1),
        bytes::number_at(s, 12, 8),
        bytes::number_at(s, 20, 8),
    ]
}

fn bands_in(s: &[u8]) -> [u64; 64]
    ensures { result ≡ tab (λ k. band_word s.now (k / 8) (k % 8)) 64 0 }
{
    array::from_fn(|k| layout::band_word(s, k / 8, k % 8))
}

fn point_word(s: &[u8], i: usize) -> u64
    requires { i < 65 }
    ensures { result ≡ point_word s.now i }
{
    if i < layout::points_in(s) {
        bytes::number_at(s, 28 + 50 * layout::count_in(s) + 8 * i, 8)
    } else {
        0
    }
}

fn points_in(s: &[u8]) -> [u64; 65]
    ensures { result ≡ tab (point_word s.now) 65 0 }
{
    array::from_fn(|i| point_word(s, i))
}

#[tactic(auto, unfolding(crate::specs::Image::words_in))]
pub(crate) fn words_in(s: &[u8]) -> [u64; 137]
    ensures { result ≡ words_in s.now }
{
    packing::join(head_in(s), bands_in(s), points_in(s))
}
