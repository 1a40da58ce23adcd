// Bands, their values and the plan that holds them (types.rs and bands.rs of pm-remez).
#![tactic(auto)]

ghost use Rattle.std.specs.Prelude.{◌≡◌, ◌&&◌, ◌<◌, ◌≤◌};
ghost use Rattle.numbers.specs.Floats.{clamp};
ghost use Rattle.numbers.specs.Loops.{every};
ghost use Rattle.numbers.specs.Refusals.{verdict_of};
ghost use Rattle.bands.specs.Numbered.{symmetry_of, symmetry_word, value_of};
ghost use Rattle.bands.specs.Rules.{value_finite, value_positive, band_holds, apart, plan_holds, plan_for};
ghost use Rattle.bands.specs.Lookup.{many, band_of, lookup, value_at, desired_at, weight_at};

use numbers::Refusal;

// Symmetry of a filter's taps.
#[derive(Clone, Copy)]
pub enum Symmetry {
    Even,
    Odd,
}

// By number: 0 is even, any other odd. Whoever takes no number above 1 refuses that first.
impl From<u64> for Symmetry {
    ghost from_gives = { λ n s. s ≡ symmetry_of n };

    fn from(n: u64) -> Symmetry {
        match n {
            0 => Symmetry::Even,
            _ => Symmetry::Odd,
        }
    }
}

impl From<Symmetry> for u64 {
    ghost from_gives = { λ s n. n ≡ symmetry_word s };

    fn from(s: Symmetry) -> u64 {
        match s {
            Symmetry::Even => 0,
            Symmetry::Odd => 1,
        }
    }
}

// A desired value or a weight over a band: one number, or a line through the numbers at its two ends.
#[derive(Clone, Copy)]
pub enum Value {
    Constant(f64),
    Linear(f64, f64),
}

// A band, its edges in cycles per sample.
#[derive(Clone, Copy)]
pub struct Band {
    pub begin: f64,
    pub end: f64,
    pub desired: Value,
    pub weight: Value,
}

// A channel plan: the first `count` bands, in rising order.
// Kept: no plainer: as a `Listed` its places would lose the name that document 01 gives them, the bands of a plan.
#[derive(Clone, Copy)]
pub struct Plan {
    pub bands: [Band; 8],
    pub count: usize,
}

impl Value {
    // Of a kind by number, 0 constant and any other linear: a constant takes the first of the two numbers.
    pub fn of_kind(kind: u64, a: f64, b: f64) -> Value
        ensures { result ≡ value_of kind a b }
    {
        match kind {
            0 => Value::Constant(a),
            _ => Value::Linear(a, b),
        }
    }

    fn is_finite(self) -> bool
        ensures { result ≡ value_finite self }
    {
        match self {
            Value::Constant(a) => numbers::is_finite(a),
            Value::Linear(a, b) => numbers::is_finite(a) && numbers::is_finite(b),
        }
    }

    fn is_positive(self) -> bool
        ensures { result ≡ value_positive self }
    {
        match self {
            Value::Constant(a) => 0.0 < a,
            Value::Linear(a, b) => 0.0 < a && 0.0 < b,
        }
    }

    // Between begin and end, at f.
    fn at(self, begin: f64, end: f64, f: f64) -> f64
        ensures { result ≡ value_at self begin end f }
    {
        match self {
            Value::Constant(x) => x,
            Value::Linear(v0, v1) => v0 + (v1 - v0) * ((f - begin) / (end - begin)),
        }
    }
}

impl Band {
    #[tactic(auto, unfolding(crate::specs::Rules::band_holds))]
    fn does_hold(self) -> bool
        ensures { result ≡ band_holds self }
    {
        0.0 <= self.begin
            && self.begin < self.end
            && self.end <= 0.5
            && self.desired.is_finite()
            && self.weight.is_finite()
            && self.weight.is_positive()
    }

    // A value of the band at f, which is brought into the band.
    fn read(self, v: Value, f: f64) -> f64
        ensures { result ≡ value_at v self.begin self.end (clamp self.begin self.end f) }
    {
        v.at(
            self.begin,
            self.end,
            numbers::clamped(f, self.begin, self.end),
        )
    }
}

impl Plan {
    // As many bands as a plan may have.
    pub const BANDS: usize = 8;

    // Band i and, where there is a next one, the gap before it.
    fn is_in_place(self, i: usize) -> bool
        requires { (i < self.count) × (self.count ≤ 8) }
        ensures { result ≡ (band_holds (band_of self i) && apart self i) }
    {
        self.bands[i].does_hold()
            && (self.count <= i + 1 || self.bands[i].end < self.bands[i + 1].begin)
    }

    fn are_in_place(self) -> bool
        requires { self.count ≤ 8 }
        ensures { result ≡ every (λ i. band_holds (band_of self i) && apart self i) self.count }
    {
        (0..self.count).all(|i| self.is_in_place(i))
    }

    #[tactic(auto, unfolding(crate::specs::Rules::plan_holds))]
    fn does_hold(self) -> bool
        ensures { result ≡ plan_holds self }
    {
        1 <= self.count && self.count <= Plan::BANDS && self.are_in_place()
    }
}

// The rules for bands: refusal 6 where one is broken.
#[tactic(auto, unfolding(crate::specs::Rules::plan_for))]
pub fn check_bands(plan: Plan) -> Result<(), Refusal>
    ensures { verdict_of result tt ≡ plan_for plan }
{
    if plan.does_hold() {
        Ok(())
    } else {
        Err(Refusal::Bands)
    }
}

// How many bands count: no more than a plan can hold.
pub fn how_many(plan: Plan) -> usize
    ensures { result ≡ many plan }
{
    plan.count.min(Plan::BANDS)
}

// The band whose values hold at f. A plan is taken to have no more bands than it can hold; of one without bands, the first.
pub fn band_at(plan: Plan, f: f64) -> Band
    ensures { result ≡ lookup plan f }
{
    let n = how_many(plan);
    match plan.bands[..n].iter().find(|band| !(band.end < f)) {
        Some(&band) => band,
        None => plan.bands[n.saturating_sub(1)],
    }
}

// The desired value at a frequency f, in cycles per sample.
#[tactic(auto, unfolding(crate::specs::Lookup::desired_at))]
pub fn desired_at(plan: Plan, f: f64) -> f64
    ensures { result ≡ desired_at plan f }
{
    let band = band_at(plan, f);
    band.read(band.desired, f)
}

// The weight at a frequency f, in cycles per sample.
#[tactic(auto, unfolding(crate::specs::Lookup::weight_at))]
pub fn weight_at(plan: Plan, f: f64) -> f64
    ensures { result ≡ weight_at plan f }
{
    let band = band_at(plan, f);
    band.read(band.weight, f)
}
