ghost use Rattle.std.specs.Prelude.{◌≡◌, ◌≤◌, length};
ghost use Rattle.numbers.specs.Refusals.{outcome_of, verdict_of};
ghost use Rattle.extrema.specs.Errors.{curve_of, weighted, error_from, errors_for};

use fir_types::Target;
use numbers::Refusal;

// What an error is worked out from: what is wanted of the filter; the points, their weights and abscissas.
#[derive(Clone, Copy)]
pub struct Curve<'a> {
    pub target: Target,
    pub x: &'a [f64],
    pub wk: &'a [f64],
    pub yk: &'a [f64],
}

impl<'a> Curve<'a> {
    // The error at the angle f, where the response is h and the desired value d.
    fn weighted_error(self, f: f64, h: f64, d: f64) -> Result<f64, Refusal>
        ensures { outcome_of result ≡ weighted self.entry.target.plan self.entry.target.symmetry self.entry.target.odd f h d }
    {
        let w = self.target.weight_at(f)?;
        numbers::needed(w * (d - h))
    }

    // The error where the response is h.
    #[tactic(auto, unfolding(crate::specs::Errors::error_from))]
    fn error_at(self, x0: f64, h: f64) -> Result<f64, Refusal>
        ensures { outcome_of result ≡ error_from self.entry.target.plan self.entry.target.symmetry self.entry.target.odd x0 h }
    {
        let f = angles::arccosine(x0)?;
        let d = self.target.desired_at(f)?;
        self.weighted_error(f, h, d)
    }

    // The weighted errors at the places.
    #[tactic(auto, using(crate::proofs::ErrorLaws::filled_whole), unfolding(crate::specs::Errors::errors_for))]
    pub(crate) fn errors(self, places: &[f64], out: &mut [f64]) -> Result<(), Refusal>
        requires { (length places.now ≤ 64) × (length out.old ≡ length places.now) }
        ensures { verdict_of result out.new ≡ errors_for (curve_of self.entry) places.now }
    {
        let mut h = [0.0; 64];
        let h = &mut h[..places.len()];
        barycentric::compute_freq_responses(places, self.x, self.wk, self.yk, h)?;
        let h = &*h;
        numbers::fill_with(out, |i| self.error_at(places[i], h[i]))
    }
}
