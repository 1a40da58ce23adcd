ghost use Rattle.std.specs.Prelude.{◌≡◌};
ghost use Rattle.angles.specs.Series.{cubic, square, sine_part, cosine_part};

fn by_cubic(w: f64, a: f64, b: f64, c: f64, d: f64) -> f64
    ensures { result ≡ cubic w a b c d }
{
    a + w * (b + w * (c + w * d))
}

// Kept: no plainer: one of any length would be a loop over an array in place of this line.
fn by_square(w: f64, a: f64, b: f64, c: f64) -> f64
    ensures { result ≡ square w a b c }
{
    a + w * (b + w * c)
}

// Sine by its series: meant for -PI / 4 to PI / 4.
#[tactic(auto, unfolding(crate::specs::Series::sine_part))]
pub fn sine_part(r: f64) -> f64
    ensures { result ≡ sine_part r }
{
    let z = r * r;
    let w = z * z;
    let even = by_cubic(
        w,
        0.008333333333333333,
        2.7557319223985893e-06,
        1.6059043836821613e-10,
        2.8114572543455206e-15,
    );
    let odd = by_cubic(
        w,
        0.16666666666666666,
        0.0001984126984126984,
        2.505210838544172e-08,
        7.647163731819816e-13,
    );
    r + r * (z * (z * even - odd))
}

// Cosine by its series: meant for -PI / 4 to PI / 4.
#[tactic(auto, unfolding(crate::specs::Series::cosine_part))]
pub fn cosine_part(r: f64) -> f64
    ensures { result ≡ cosine_part r }
{
    let z = r * r;
    let w = z * z;
    let even = by_cubic(
        w,
        0.041666666666666664,
        2.48015873015873e-05,
        2.08767569878681e-09,
        4.779477332387385e-14,
    );
    let odd = by_square(
        w,
        0.001388888888888889,
        2.755731922398589e-07,
        1.1470745597729725e-11,
    );
    1.0 - (0.5 * z - w * (even - z * odd))
}
