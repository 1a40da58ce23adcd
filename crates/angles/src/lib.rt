// Angles: cosine and sine on 0 to 3.25, arccosine on -1 to 1, as ordered operations.
#![tactic(auto)]

ghost use Rattle.std.specs.Prelude.{◌≡◌, cond, false};
ghost use Rattle.std.specs.Float.Ieee.{le};
ghost use Rattle.numbers.specs.Outcome.{gave, unless};
ghost use Rattle.numbers.specs.Refusals.{outcome_of};
ghost use Rattle.angles.specs.Turns.{cosine_at, sine_at, cosine_of, sine_of};
ghost use Rattle.angles.specs.Arccosine.{even_terms, odd_terms, arcsine_part, arcsine, near_at, far_at, arccosine_at, arccosine_of};

use numbers::{Refusal, clamped, magnitude};

mod root;
mod series;

const PI: f64 = 3.141592653589793;

const PI_TAIL: f64 = 1.2246467991473532e-16;

const HALF_PI: f64 = 1.5707963267948966;

const HALF_PI_TAIL: f64 = 6.123233995736766e-17;

const QUARTER_PI: f64 = 0.7853981633974483;

const THREE_QUARTERS_PI: f64 = 2.356194490192345;

// The largest angle taken.
const WIDEST: f64 = 3.25;

// A number from low to high as it is; refusal 9 for any other and for a NaN.
fn within(x: f64, low: f64, high: f64) -> Result<f64, Refusal>
    ensures { outcome_of result ≡ unless (cond (le low x) (le x high) false) 9 (gave x) }
{
    if low <= x && x <= high {
        Ok(x)
    } else {
        Err(Refusal::NotFinite)
    }
}

// Kept: no plainer: cosine's and sine's three parts differ in the series and in a sign.
#[tactic(auto, unfolding(crate::specs::Turns::cosine_at))]
fn folded_cosine(x: f64) -> f64
    ensures { result ≡ cosine_at x }
{
    if x <= QUARTER_PI {
        return series::cosine_part(x);
    }
    if x <= THREE_QUARTERS_PI {
        return series::sine_part((HALF_PI - x) + HALF_PI_TAIL);
    }
    0.0 - series::cosine_part((PI - x) + PI_TAIL)
}

#[tactic(auto, unfolding(crate::specs::Turns::sine_at))]
fn folded_sine(x: f64) -> f64
    ensures { result ≡ sine_at x }
{
    if x <= QUARTER_PI {
        return series::sine_part(x);
    }
    if x <= THREE_QUARTERS_PI {
        return series::cosine_part((HALF_PI - x) + HALF_PI_TAIL);
    }
    series::sine_part((PI - x) + PI_TAIL)
}

// The cosine of an angle from 0 to 3.25; refusal 9 for any other number and for a NaN.
#[tactic(auto, unfolding(crate::specs::Turns::cosine_of, crate::specs::Turns::taken))]
pub fn cosine(x: f64) -> Result<f64, Refusal>
    ensures { outcome_of result ≡ cosine_of x }
{
    let angle = within(x, 0.0, WIDEST)?;
    Ok(clamped(folded_cosine(angle), -1.0, 1.0))
}

// The sine of an angle from 0 to 3.25; refusal 9 for any other number and for a NaN.
#[tactic(auto, unfolding(crate::specs::Turns::sine_of, crate::specs::Turns::taken))]
pub fn sine(x: f64) -> Result<f64, Refusal>
    ensures { outcome_of result ≡ sine_of x }
{
    let angle = within(x, 0.0, WIDEST)?;
    Ok(clamped(folded_sine(angle), -1.0, 1.0))
}

fn even_terms(w: f64) -> f64
    ensures { result ≡ even_terms w }
{
    0.16666666666666669
        + w * (0.04464285714635543
            + w * (0.02237217294214989
                + w * (0.013971212973552933
                    + w * (0.01032281435018578
                        + w * (0.01740087944269402 + w * 0.028757851367421566)))))
}

fn odd_terms(w: f64) -> f64
    ensures { result ≡ odd_terms w }
{
    0.07499999999998433
        + w * (0.030381944138531247
            + w * (0.017352392720869973
                + w * (0.011479177415184906
                    + w * (0.005457506718640358 - w * 0.014851887071247204))))
}

#[tactic(auto, unfolding(crate::specs::Arccosine::arcsine_part))]
fn arcsine_part(z: f64) -> f64
    ensures { result ≡ arcsine_part z }
{
    let w = z * z;
    even_terms(w) + z * odd_terms(w)
}

#[tactic(auto, unfolding(crate::specs::Arccosine::arcsine))]
fn arcsine_of(s: f64, z: f64) -> f64
    ensures { result ≡ arcsine s z }
{
    s + s * (z * arcsine_part(z))
}

#[tactic(auto, unfolding(crate::specs::Arccosine::near_at))]
fn near(x: f64) -> f64
    ensures { result ≡ near_at x }
{
    let a = magnitude(x);
    let t = arcsine_of(a, a * a);
    if x <= 0.0 {
        HALF_PI + (t + HALF_PI_TAIL)
    } else {
        HALF_PI - (t - HALF_PI_TAIL)
    }
}

#[tactic(auto, unfolding(crate::specs::Arccosine::far_at))]
fn far(x: f64) -> f64
    ensures { result ≡ far_at x }
{
    let a = magnitude(x);
    let z = 0.5 * (1.0 - a);
    let t = arcsine_of(root::root(z), z);
    if x <= 0.0 {
        PI - (2.0 * t - PI_TAIL)
    } else {
        2.0 * t
    }
}

#[tactic(auto, unfolding(crate::specs::Arccosine::arccosine_at))]
fn folded_arccosine(x: f64) -> f64
    ensures { result ≡ arccosine_at x }
{
    if magnitude(x) <= 0.5 { near(x) } else { far(x) }
}

// The arccosine of a number from -1 to 1; refusal 9 for any other and for a NaN.
#[tactic(auto, unfolding(crate::specs::Arccosine::arccosine_of, crate::specs::Arccosine::in_unit))]
pub fn arccosine(x: f64) -> Result<f64, Refusal>
    ensures { outcome_of result ≡ arccosine_of x }
{
    let cosine = within(x, -1.0, 1.0)?;
    Ok(clamped(folded_arccosine(cosine), 0.0, PI))
}
