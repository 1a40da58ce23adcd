ghost use Rattle.std.specs.Prelude.{◌≡◌, cond, ◌<◌, ◌/◌, ◌%◌, ltb, get_or};
ghost use Rattle.std.specs.Float.{nan};
ghost use Rattle.numbers.specs.Loops.{tab};
ghost use Rattle.numbers.specs.Words.{to_word};
ghost use Rattle.packing.specs.Packing.{kind_word, first_word, second_word, band_words, bands_word, points_for, point_word, head_words};

use bands::{Band, Plan, Symmetry, Value};
use fields::Fields;
use std::array;

// A value's kind, and its two numbers' bits: a constant repeats its number's.
fn value_words(v: Value) -> (u64, u64, u64)
    ensures { (result.0 ≡ kind_word v) × (result.1 ≡ first_word v) × (result.2 ≡ second_word v) }
{
    match v {
        Value::Constant(a) => {
            let w = numbers::to_word(a);
            (0, w, w)
        }
        Value::Linear(a, b) => (1, numbers::to_word(a), numbers::to_word(b)),
    }
}

fn band_words(b: Band) -> [u64; 8]
    ensures { result ≡ band_words b }
{
    let (desired_kind, desired_first, desired_second) = value_words(b.desired);
    let (weight_kind, weight_first, weight_second) = value_words(b.weight);
    [
        desired_kind,
        weight_kind,
        numbers::to_word(b.begin),
        numbers::to_word(b.end),
        desired_first,
        desired_second,
        weight_first,
        weight_second,
    ]
}

fn bands_word(plan: Plan, i: usize, k: usize) -> u64
    requires { (i < 8) × (k < 8) }
    ensures { result ≡ bands_word plan i k }
{
    if i < plan.count {
        band_words(plan.bands[i])[k]
    } else {
        0
    }
}

pub(crate) fn bands_words(plan: Plan) -> [u64; 64]
    ensures { result ≡ tab (λ k. bands_word plan (k / 8) (k % 8)) 64 0 }
{
    array::from_fn(|k| bands_word(plan, k / 8, k % 8))
}

// How many points an image holds: none where no exchange was made, else one more than the taps have functions.
pub fn points_for(made: usize, taps: usize, symmetry: Symmetry) -> usize
    ensures { result ≡ points_for made taps symmetry }
{
    match made {
        0 => 0,
        _ => fir_types::functions_of(taps, symmetry) + 1,
    }
}

fn point_word(points: &[f64; 65], held: usize, i: usize) -> u64
    requires { i < 65 }
    ensures { result ≡ cond (ltb i held) (to_word (get_or points.now i nan)) 0 }
{
    if i < held {
        numbers::to_word(points[i])
    } else {
        0
    }
}

pub(crate) fn points_words(fields: Fields) -> [u64; 65]
    ensures { result ≡ tab (point_word fields) 65 0 }
{
    let held = points_for(fields.made, fields.request.taps, fields.request.symmetry);
    array::from_fn(|i| point_word(&fields.points, held, i))
}

pub(crate) fn head_words(fields: Fields) -> [u64; 8]
    ensures { result ≡ head_words fields }
{
    let request = fields.request;
    [
        u64::from(request.symmetry),
        request.taps as u64,
        request.degree as u64,
        request.exchanges as u64,
        fields.made as u64,
        request.plan.count as u64,
        numbers::to_word(request.threshold),
        numbers::to_word(fields.flatness),
    ]
}
