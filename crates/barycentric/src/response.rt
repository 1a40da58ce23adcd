ghost use Rattle.std.specs.Prelude.{◌≡◌, ◌&&◌, ◌<◌, leb, length, get_or};
ghost use Rattle.std.specs.Float.{nan};
ghost use Rattle.numbers.specs.Floats.{all_finite};
ghost use Rattle.numbers.specs.Operations.{◌⊘◌};
ghost use Rattle.numbers.specs.Refusals.{outcome_of, Filled};
ghost use Rattle.barycentric.specs.Limits.{sized, three_alike, three_finite};
ghost use Rattle.barycentric.specs.Response.{response_step, response_of, response_for, responses_of, responses_for};
ghost use Rattle.barycentric.specs.Lanes.{Each, Places, Added, Summed, node_or, settle};

use super::Sums;
use numbers::Refusal;

// The points of an interpolation, with each its weight and its abscissa.
#[derive(Clone, Copy)]
struct Points<'a> {
    x: &'a [f64],
    wk: &'a [f64],
    yk: &'a [f64],
    ghost alike: { (length wk.now ≡ length x.now) × (length yk.now ≡ length x.now) },
}

impl<'a> Points<'a> {
    fn step(self, x0: f64, i: usize, s: Sums) -> Sums
        requires { i < length self.x.now }
        ensures { result ≡ response_step x0 self.entry.x.now self.entry.wk.now self.entry.yk.now i s }
    {
        let z = self.wk[i] / (x0 - self.x[i]);
        Sums {
            numer: s.numer + z * self.yk[i],
            denom: s.denom + z,
        }
    }

    #[tactic(auto, using(numbers::proofs::LoopLaws::loops), unfolding(crate::specs::Response::response_of))]
    fn response(self, x0: f64) -> f64
        ensures { result ≡ response_of x0 self.entry.x.now self.entry.wk.now self.entry.yk.now }
    {
        let mut s = Sums::none();
        for i in 0..self.x.len() {
            if x0 == self.x[i] {
                return self.yk[i];
            }
            s = self.step(x0, i, s);
        }
        s.quotient()
    }

    // Both sums at every place, point by point.
    fn sums_into(self, places: &[f64], numer: &mut [f64], denom: &mut [f64])
        requires { Places places.now self.x.now self.wk.now self.yk.now numer.old denom.old }
        ensures { Summed places.now self.entry.x.now self.entry.wk.now self.entry.yk.now numer.new denom.new }
    {
        for i in 0..self.x.len() {
            add_row(places, self.x[i], self.wk[i], self.yk[i], numer, denom);
        }
    }

    // The first equal node's y; `q` where there is none.
    #[tactic(auto, using(numbers::proofs::LoopLaws::loops), unfolding(crate::specs::Lanes::node_or))]
    fn node_or(self, x0: f64, q: f64) -> f64
        ensures { result ≡ node_or x0 self.entry.x.now self.entry.yk.now q }
    {
        for i in 0..self.x.len() {
            if x0 == self.x[i] {
                return self.yk[i];
            }
        }
        q
    }

    // At a node neither sum is finite, so that the quotient is a NaN: only there is a node looked for.
    fn settled(self, x0: f64, q: f64) -> f64
        ensures { result ≡ settle x0 self.entry.x.now self.entry.yk.now q }
    {
        if q == q { q } else { self.node_or(x0, q) }
    }

    // The quotient of the two sums at each place, or the node's y.
    fn quotients(self, places: &[f64], denom: &[f64], numer: &mut [f64])
        requires { (length denom.now ≡ length places.now) × (length numer.old ≡ length places.now) }
        ensures { Each (λ k s. settle (get_or places.now k nan) self.entry.x.now self.entry.yk.now (s ⊘ get_or denom.now k nan)) numer.old numer.new }
    {
        for k in 0..places.len() {
            numer[k] = self.settled(places[k], numer[k] / denom[k]);
        }
    }

    fn responses_into(self, places: &[f64], denom: &mut [f64], out: &mut [f64])
        requires { Places places.now self.x.now self.wk.now self.yk.now out.old denom.old }
        ensures { out.new ≡ responses_of places.now self.entry.x.now self.entry.wk.now self.entry.yk.now }
    {
        self.sums_into(places, out, denom);
        self.quotients(places, denom, out);
    }
}

// One point's terms at every place side by side.
// Kept: tried, slower: the sums in two lists; a list of pairs took 1.1 to 1.2 times as long, since it runs in no lanes.
fn add_row(places: &[f64], x: f64, w: f64, y: f64, numer: &mut [f64], denom: &mut [f64])
    requires { (length numer.old ≡ length places.now) × (length denom.old ≡ length places.now) }
    ensures { Added places.now x w y numer.old denom.old numer.new denom.new }
{
    for k in 0..places.len() {
        let z = w / (places[k] - x);
        numer[k] += z * y;
        denom[k] += z;
    }
}

// The response at one place.
// Kept: what may not change: whoever calls `compute_freq_response` gives lists of any lengths, which `Points` excludes.
#[tactic(auto, unfolding(crate::specs::Response::response_for))]
pub fn compute_freq_response(x0: f64, x: &[f64], wk: &[f64], yk: &[f64]) -> Result<f64, Refusal>
    ensures { outcome_of result ≡ response_for x0 x.now wk.now yk.now }
{
    if !super::three_alike(x.len(), wk.len(), yk.len()) {
        return Err(Refusal::Lists);
    }
    if !numbers::is_finite(x0) || !super::three_finite(x, wk, yk) {
        return Err(Refusal::NotFinite);
    }
    let points = Points { x, wk, yk };
    numbers::needed(points.response(x0))
}

fn are_sized_for_list(n: usize, points: usize, weights: usize, values: usize, room: usize) -> bool
    ensures { result ≡ (sized n && three_alike points weights values && leb n room) }
{
    super::is_sized(n) && super::three_alike(points, weights, values) && n <= room
}

// Kept: as above.
fn are_finite(places: &[f64], x: &[f64], wk: &[f64], yk: &[f64]) -> bool
    ensures { result ≡ (all_finite places.now && three_finite x.now wk.now yk.now) }
{
    numbers::all_finite(places) && super::three_finite(x, wk, yk)
}

// The responses at 1 to 65 places, to the front of `out`. Each is that of `compute_freq_response`, bit for bit.
// Kept: what may not change: `compute_freq_responses` too.
#[tactic(auto, unfolding(crate::specs::Response::responses_for), using(crate::proofs::Lengths::responses_length))]
pub fn compute_freq_responses(
    places: &[f64],
    x: &[f64],
    wk: &[f64],
    yk: &[f64],
    out: &mut [f64],
) -> Result<(), Refusal>
    ensures { Filled (responses_for places.now x.now wk.now yk.now (length out.old)) (length places.now) result out.old out.new }
{
    if !are_sized_for_list(places.len(), x.len(), wk.len(), yk.len(), out.len()) {
        return Err(Refusal::Lists);
    }
    if !are_finite(places, x, wk, yk) {
        return Err(Refusal::NotFinite);
    }
    let n = places.len();
    let mut numer = [0.0; super::POINTS];
    let mut denom = [0.0; super::POINTS];
    let points = Points { x, wk, yk };
    points.responses_into(places, &mut denom[..n], &mut numer[..n]);
    numbers::needed_list(&numer[..n], out)
}
