ghost use Rattle.std.specs.Prelude.{◌≡◌, ◌≤◌, length};
ghost use Rattle.numbers.specs.Outcome.{bind, gave};
ghost use Rattle.numbers.specs.Refusals.{outcome_of, verdict_of};
ghost use Rattle.fields.specs.Request.{points_of};
ghost use Rattle.fields.specs.Interpolant.{places, interpolated, interpolation_of, answered, Alike};
ghost use Rattle.fields.specs.Accept.{flatness_holds, counts_hold, places_of, accept_for, finished, opening};

use crate::interpolant;
use crate::interpolant::Interpolant;
use crate::request::Request;
use fir_types::Edges;
use numbers::Refusal;

// What a job's image holds. With no exchange made it holds no points.
#[derive(Clone, Copy)]
pub struct Fields {
    pub request: Request,
    pub made: usize,
    pub flatness: f64,
    pub points: [f64; 65],
}

fn is_flatness(made: usize, f: f64) -> bool
    ensures { result ≡ flatness_holds made f }
{
    0.0 <= f && f <= 1.0 && numbers::is_sign_clear(f) && (0 < made || f == 0.0)
}

// Counts that an image may hold: made at most allowed, and a flatness that goes with it.
pub fn do_counts_hold(made: usize, allowed: usize, flatness: f64) -> bool
    ensures { result ≡ counts_hold made allowed flatness }
{
    made <= allowed && is_flatness(made, flatness)
}

impl Fields {
    // The frequencies and the points: the first ones where no exchange is made, else those that the job holds.
    fn places(self, bands: Edges, f: &mut [f64], x: &mut [f64]) -> Result<(), Refusal>
        requires { (points_of self.request ≤ 65) × (length f.old ≡ points_of self.request) × (length x.old ≡ points_of self.request) }
        ensures { verdict_of result (places f.new x.new) ≡ places_of self bands }
    {
        if self.made == 0 {
            return interpolant::first_places(self.request, bands, f, x);
        }
        interpolant::given_places(&self.points[..f.len()], f, x)
    }

    // Kept: tried, the proof did not close: the four lists as parts of the one Interpolant that is answered.
    fn interpolate(
        self,
        bands: Edges,
        f: &mut [f64],
        x: &mut [f64],
        wk: &mut [f64],
        yk: &mut [f64],
    ) -> Result<f64, Refusal>
        requires { Alike (points_of self.request) f.old x.old wk.old yk.old }
        ensures { interpolation_of result (places f.new x.new) wk.new yk.new ≡ bind (places_of self bands) (interpolated self.request) }
    {
        self.places(bands, f, x)?;
        interpolant::interpolate(self.request, f, x, wk, yk)
    }

    fn interpolated(self, bands: Edges) -> Result<Interpolant, Refusal>
        requires { points_of self.request ≤ 65 }
        ensures { outcome_of result ≡ bind (bind (places_of self bands) (interpolated self.request)) (λ i. gave (answered i)) }
    {
        let n = self.request.functions() + 1;
        let mut f = [0.0; 65];
        let mut x = [0.0; 65];
        let mut wk = [0.0; 65];
        let mut yk = [0.0; 65];
        let delta = self.interpolate(bands, &mut f[..n], &mut x[..n], &mut wk[..n], &mut yk[..n])?;
        Ok(Interpolant {
            freqs: f,
            points: x,
            weights: wk,
            abscissas: yk,
            count: n,
            delta,
        })
    }

    // What opening or restoring the job works out: refusal 14 for counts that no image may hold, then 5 to 9.
    pub fn accept(self) -> Result<Interpolant, Refusal>
        ensures { outcome_of result ≡ accept_for self }
    {
        if !do_counts_hold(self.made, self.request.exchanges, self.flatness) {
            return Err(Refusal::Layout);
        }
        let bands = self.request.bands()?;
        self.interpolated(bands)
    }

    // The exchanges allowed are made, or the last one left the errors flat enough.
    pub fn is_finished(self) -> bool
        ensures { result ≡ finished self }
    {
        self.made == self.request.exchanges
            || (0 < self.made && self.flatness <= self.request.threshold)
    }

    // The fields of a job that a request opens: no exchange made, and no points held.
    pub fn opening(request: Request) -> Fields
        ensures { result ≡ opening request }
    {
        Fields {
            request,
            made: 0,
            flatness: 0.0,
            points: [0.0; 65],
        }
    }
}
