ghost use Rattle.std.specs.Prelude.{◌≡◌, ◌≤◌, Float};
ghost use Rattle.numbers.specs.Refusals.{outcome_of, verdict_of};
ghost use Rattle.fir_types.specs.Adjusted.{adjusted_by, adjusted_desired, adjusted_weight, adjusted_desired_for, adjusted_weight_for};
ghost use Rattle.fir_types.specs.Edges.{moved, packed, adjusted, adjusted_for, Edged};
ghost use Rattle.fir_types.specs.Kinds.{singular_zero, singular_nyquist};
ghost use Rattle.fir_types.specs.Realizable.{blocked_at_zero, blocked_at_nyquist, realizable_for};

use crate::edges;
use crate::edges::{Edges, Interval};
use bands::{Band, Plan, Symmetry};
use numbers::Refusal;

const TAU: f64 = 6.283185307179586;

// What is wanted of a filter: its plan, and its type, that is its symmetry and whether its taps are odd.
#[derive(Clone, Copy)]
pub struct Target {
    pub plan: Plan,
    pub symmetry: Symmetry,
    pub odd: bool,
}

impl Target {
    fn is_singular_zero(self) -> bool
        ensures { result ≡ singular_zero self.symmetry }
    {
        matches!(self.symmetry, Symmetry::Odd)
    }

    fn is_singular_nyquist(self) -> bool
        ensures { result ≡ singular_nyquist self.symmetry self.odd }
    {
        match self.symmetry {
            Symmetry::Even => !self.odd,
            Symmetry::Odd => self.odd,
        }
    }

    fn is_blocked_at_zero(self) -> bool
        ensures { result ≡ blocked_at_zero self.plan self.symmetry }
    {
        self.is_singular_zero()
            && self.plan.bands[0].begin == 0.0
            && bands::desired_at(self.plan, 0.0) != 0.0
    }

    fn is_blocked_at_nyquist(self) -> bool
        ensures { result ≡ blocked_at_nyquist self.plan self.symmetry self.odd }
    {
        let last = bands::how_many(self.plan).saturating_sub(1);
        self.is_singular_nyquist()
            && self.plan.bands[last].end == 0.5
            && bands::desired_at(self.plan, 0.5) != 0.0
    }

    // The desired response can be realized by the type: refusal 7 where it cannot, 6 for a plan that breaks the rules for bands.
    #[tactic(auto, unfolding(crate::specs::Realizable::realizable_for, crate::specs::Realizable::realizable, bands::specs::Rules::plan_for))]
    pub fn check_response(self) -> Result<(), Refusal>
        ensures { verdict_of result tt ≡ realizable_for self.plan self.symmetry self.odd }
    {
        bands::check_bands(self.plan)?;
        if self.is_blocked_at_zero() || self.is_blocked_at_nyquist() {
            return Err(Refusal::Response);
        }
        Ok(())
    }

    fn moved(self, band: Band) -> Interval
        ensures { result ≡ moved self.symmetry self.odd band }
    {
        Interval {
            begin: if self.is_singular_zero() && band.begin == 0.0 {
                1e-4
            } else {
                band.begin
            },
            end: if self.is_singular_nyquist() && band.end == 0.5 {
                0.5 - 1e-4
            } else {
                band.end
            },
        }
    }

    fn collected(self) -> Edges
        requires { self.plan.count ≤ 8 }
        ensures { result ≡ packed (adjusted self.plan self.symmetry self.odd) }
    {
        let mut edges = Edges::none(Interval {
            begin: 0.0,
            end: 0.0,
        });
        for &band in &self.plan.bands[..self.plan.count] {
            edges::keep(&mut edges, self.moved(band));
        }
        edges
    }

    // The bands' edges with those at singular points moved: refusal 8 where no band is left, 6 for a plan that breaks the rules.
    #[tactic(auto, unfolding(crate::specs::Edges::adjusted_for, bands::specs::Rules::plan_for), using(bands::proofs::Laws::holds_most))]
    pub fn adjust_bands(self) -> Result<Edges, Refusal>
        ensures { Edged (adjusted_for self.plan self.symmetry self.odd) result }
    {
        bands::check_bands(self.plan)?;
        let edges = self.collected();
        if edges.count == 0 {
            return Err(Refusal::Edges);
        }
        Ok(edges)
    }

    // A value at f radians, joined with what the type's factor is there; even symmetry with odd taps has none.
    fn adjusted_by<F: Fn(f64, f64) -> f64>(self, f: f64, value: f64, by: F) -> Result<f64, Refusal>
        requires { F.IsAlwaysCallable by }
        ensures { (g : Float → Float → Float) → ((c r : Float) → F.post by value c r → r ≡ g value c) → outcome_of result ≡ adjusted_by g self.symmetry self.odd f value }
    {
        let factor = match (self.symmetry, self.odd) {
            (Symmetry::Even, true) => return numbers::needed(value),
            (Symmetry::Even, false) => angles::cosine(0.5 * f)?,
            (Symmetry::Odd, false) => angles::sine(0.5 * f)?,
            (Symmetry::Odd, true) => angles::sine(f)?,
        };
        numbers::needed(by(value, factor))
    }

    // The adjusted desired value at f radians, of a plan that is known to hold; of another, what its lookup gives.
    #[tactic(auto, unfolding(crate::specs::Adjusted::adjusted_desired))]
    pub fn desired_at(self, f: f64) -> Result<f64, Refusal>
        ensures { outcome_of result ≡ adjusted_desired self.plan self.symmetry self.odd f }
    {
        let cycles = numbers::needed(f)? / TAU;
        self.adjusted_by(f, bands::desired_at(self.plan, cycles), |d, c| d / c)
    }

    // The adjusted weight at f radians, of a plan that is known to hold; of another, what its lookup gives.
    #[tactic(auto, unfolding(crate::specs::Adjusted::adjusted_weight))]
    pub fn weight_at(self, f: f64) -> Result<f64, Refusal>
        ensures { outcome_of result ≡ adjusted_weight self.plan self.symmetry self.odd f }
    {
        let cycles = numbers::needed(f)? / TAU;
        self.adjusted_by(f, bands::weight_at(self.plan, cycles), |w, c| w * c)
    }

    // The adjusted desired value at f radians: refusal 6 for a plan that breaks the rules for bands.
    #[tactic(auto, unfolding(crate::specs::Adjusted::adjusted_desired_for, bands::specs::Rules::plan_for))]
    pub fn adjust_desired(self, f: f64) -> Result<f64, Refusal>
        ensures { outcome_of result ≡ adjusted_desired_for self.plan self.symmetry self.odd f }
    {
        bands::check_bands(self.plan)?;
        self.desired_at(f)
    }

    // The adjusted weight at f radians: refusal 6 for a plan that breaks the rules for bands.
    #[tactic(auto, unfolding(crate::specs::Adjusted::adjusted_weight_for, bands::specs::Rules::plan_for))]
    pub fn adjust_weights(self, f: f64) -> Result<f64, Refusal>
        ensures { outcome_of result ≡ adjusted_weight_for self.plan self.symmetry self.odd f }
    {
        bands::check_bands(self.plan)?;
        self.weight_at(f)
    }
}
