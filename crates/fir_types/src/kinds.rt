ghost use Rattle.std.specs.Prelude.{◌≡◌};
ghost use Rattle.fir_types.specs.Kinds.{is_odd, functions, least_taps, taps_in_range};

use bands::Symmetry;

pub fn is_odd(taps: usize) -> bool
    ensures { result ≡ is_odd taps }
{
    taps % 2 == 1
}

// How many cosine functions the taps have.
pub fn functions_of(taps: usize, symmetry: Symmetry) -> usize
    ensures { result ≡ functions taps symmetry }
{
    match symmetry {
        Symmetry::Even => taps.div_ceil(2),
        Symmetry::Odd => taps / 2,
    }
}

fn least_taps(taps: usize, symmetry: Symmetry) -> usize
    ensures { result ≡ least_taps taps symmetry }
{
    match (symmetry, is_odd(taps)) {
        (_, false) => 4,
        (Symmetry::Even, true) => 3,
        (Symmetry::Odd, true) => 7,
    }
}

// From the least number of taps of the type to 128.
pub fn are_taps_in_range(taps: usize, symmetry: Symmetry) -> bool
    ensures { result ≡ taps_in_range taps symmetry }
{
    least_taps(taps, symmetry) <= taps && taps <= 128
}
