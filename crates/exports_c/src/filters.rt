// The leaves of the crates bands and fir_types. `symmetry` is 0 even, 1 odd, else refusal 5; `odd` is 0 where the number of taps
// is even.
ghost use Rattle.std.specs.Prelude.{◌≡◌, length};
ghost use Rattle.fir_types.specs.Realizable.{realizable_for};
ghost use Rattle.fir_types.specs.Adjusted.{adjusted_desired_for, adjusted_weight_for};
ghost use Rattle.fir_types.specs.Taps.{taps_for};
ghost use Rattle.exports.specs.Answers.{number_of, single, Numbered};
ghost use Rattle.exports.specs.Plans.{plan_of, with_symmetry, says_odd, desired_for, weight_for, edges_for};

// The desired value at f, in cycles per sample.
#[unsafe(no_mangle)]
pub extern "C" fn stepsheaf_desired(kinds: &[u64], numbers: &[f64], f: f64, out: &mut [f64]) -> u64
    ensures { Numbered (single (length out.old) (desired_for (plan_of kinds.now numbers.now) f)) result out.old out.new }
{
    exports::stepsheaf_desired(kinds, numbers, f, out)
}

// The weight at f, in cycles per sample.
#[unsafe(no_mangle)]
pub extern "C" fn stepsheaf_weight(kinds: &[u64], numbers: &[f64], f: f64, out: &mut [f64]) -> u64
    ensures { Numbered (single (length out.old) (weight_for (plan_of kinds.now numbers.now) f)) result out.old out.new }
{
    exports::stepsheaf_weight(kinds, numbers, f, out)
}

// The response check: it writes nothing.
#[unsafe(no_mangle)]
pub extern "C" fn stepsheaf_check_response(
    kinds: &[u64],
    numbers: &[f64],
    symmetry: u64,
    odd: u64,
) -> u64
    ensures { result ≡ number_of (with_symmetry symmetry (λ s. realizable_for (plan_of kinds.now numbers.now) s (says_odd odd))) }
{
    exports::stepsheaf_check_response(kinds, numbers, symmetry, odd)
}

// The adjusted desired value at f radians.
#[unsafe(no_mangle)]
pub extern "C" fn stepsheaf_adjust_desired(
    kinds: &[u64],
    numbers: &[f64],
    symmetry: u64,
    odd: u64,
    f: f64,
    out: &mut [f64],
) -> u64
    ensures { Numbered (single (length out.old) (with_symmetry symmetry (λ s. adjusted_desired_for (plan_of kinds.now numbers.now) s (says_odd odd) f))) result out.old out.new }
{
    exports::stepsheaf_adjust_desired(kinds, numbers, symmetry, odd, f, out)
}

// The adjusted weight at f radians.
#[unsafe(no_mangle)]
pub extern "C" fn stepsheaf_adjust_weights(
    kinds: &[u64],
    numbers: &[f64],
    symmetry: u64,
    odd: u64,
    f: f64,
    out: &mut [f64],
) -> u64
    ensures { Numbered (single (length out.old) (with_symmetry symmetry (λ s. adjusted_weight_for (plan_of kinds.now numbers.now) s (says_odd odd) f))) result out.old out.new }
{
    exports::stepsheaf_adjust_weights(kinds, numbers, symmetry, odd, f, out)
}

// The adjusted bands' edges, begin and end of each. `out` has room for as many pairs as the plan has bands.
#[unsafe(no_mangle)]
pub extern "C" fn stepsheaf_adjust_bands(
    kinds: &[u64],
    numbers: &[f64],
    symmetry: u64,
    odd: u64,
    out: &mut [f64],
) -> u64
    ensures { Numbered (edges_for (plan_of kinds.now numbers.now) symmetry (says_odd odd) (length out.old)) result out.old out.new }
{
    exports::stepsheaf_adjust_bands(kinds, numbers, symmetry, odd, out)
}

// The taps of the coefficients. A symmetry above 1 is refused first: without it no list has a right length.
#[unsafe(no_mangle)]
pub extern "C" fn stepsheaf_taps(
    coefficients: &[f64],
    taps: usize,
    symmetry: u64,
    out: &mut [f64],
) -> u64
    ensures { Numbered (with_symmetry symmetry (λ s. taps_for coefficients.now taps s (length out.old))) result out.old out.new }
{
    exports::stepsheaf_taps(coefficients, taps, symmetry, out)
}
