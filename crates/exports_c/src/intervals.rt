// The leaves of the crate subdivision. Bands and subintervals are begin and end of each.
ghost use Rattle.std.specs.Prelude.{length};
ghost use Rattle.subdivision.specs.First.{first_for};
ghost use Rattle.exports.specs.Answers.{Numbered, Counted};
ghost use Rattle.exports.specs.Intervals.{pairs_of, cuts_for};

// The first points of bands in radians, functions + 1 of them.
#[unsafe(no_mangle)]
pub extern "C" fn stepsheaf_initial_extremal_freqs(
    bands: &[f64],
    functions: usize,
    out: &mut [f64],
) -> u64
    ensures { Numbered (first_for (pairs_of bands.now) functions (length out.old)) result out.old out.new }
{
    exports::stepsheaf_initial_extremal_freqs(bands, functions, out)
}

// The subintervals that points in falling x make of bands in rising x; their number goes to `counts`. `out` has room for as many
// as 65 points and 8 bands can make, 73 pairs.
#[unsafe(no_mangle)]
pub extern "C" fn stepsheaf_subdivide(
    x: &[f64],
    bands: &[f64],
    counts: &mut [u64],
    out: &mut [f64],
) -> u64
    ensures { Counted (cuts_for x.now bands.now (length counts.old) (length out.old)) result counts.old counts.new out.old out.new }
{
    exports::stepsheaf_subdivide(x, bands, counts, out)
}
