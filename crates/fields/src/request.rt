ghost use Rattle.std.specs.Prelude.{◌≡◌, ◌&&◌, leb};
ghost use Rattle.chebyshev.specs.Nodes.{least_degree, most_degree};
ghost use Rattle.fir_types.specs.Edges.{Edged};
ghost use Rattle.fields.specs.Request.{threshold_holds, in_range, request_of, request_for, functions_of, target_of, Constructed};

use bands::{Plan, Symmetry};
use fir_types::{Edges, Target};
use numbers::Refusal;

// What a filter is designed from.
#[derive(Clone, Copy)]
pub struct Request {
    pub taps: usize,
    pub symmetry: Symmetry,
    pub degree: usize,
    pub exchanges: usize,
    pub threshold: f64,
    pub plan: Plan,
}

fn is_threshold(t: f64) -> bool
    ensures { result ≡ threshold_holds t }
{
    0.0 <= t && t <= 1.0
}

fn is_degree(n: usize) -> bool
    ensures { result ≡ (leb least_degree n && leb n most_degree) }
{
    Request::LEAST_DEGREE <= n && n <= Request::DEGREE
}

impl Request {
    // As many taps as a filter may have.
    pub const TAPS: usize = 128;
    // As many points: those taps have 64 functions, and those one point more.
    pub const POINTS: usize = 65;
    // The proxy's degree.
    pub const LEAST_DEGREE: usize = 2;

    pub const DEGREE: usize = 16;
    // As many exchanges as may be allowed.
    pub const EXCHANGES: usize = 100;

    #[tactic(auto, unfolding(crate::specs::Request::in_range))]
    fn is_in_range(self) -> bool
        ensures { result ≡ in_range self }
    {
        fir_types::are_taps_in_range(self.taps, self.symmetry)
            && is_degree(self.degree)
            && self.exchanges <= Request::EXCHANGES
            && is_threshold(self.threshold)
    }

    // How many cosine functions the taps have.
    pub fn functions(self) -> usize
        ensures { result ≡ functions_of self }
    {
        fir_types::functions_of(self.taps, self.symmetry)
    }

    // What is wanted of the filter: the plan and the type.
    pub fn target(self) -> Target
        ensures { result ≡ target_of self }
    {
        Target {
            plan: self.plan,
            symmetry: self.symmetry,
            odd: fir_types::is_odd(self.taps),
        }
    }

    // The bands as they are left by the edge adjustment, in cycles per sample: refusals 5 to 8.
    #[tactic(auto, unfolding(crate::specs::Request::request_for))]
    pub fn bands(self) -> Result<Edges, Refusal>
        ensures { Edged (request_for self) result }
    {
        if !self.is_in_range() {
            return Err(Refusal::Request);
        }
        let target = self.target();
        target.check_response()?;
        target.adjust_bands()
    }

    // A request that is accepted: refusals 5, 6, 7, 8 in that order.
    pub fn new(
        taps: usize,
        symmetry: Symmetry,
        degree: usize,
        exchanges: usize,
        threshold: f64,
        plan: Plan,
    ) -> Result<Request, Refusal>
        ensures { Constructed (request_of taps symmetry degree exchanges threshold plan) result }
    {
        let request = Request {
            taps,
            symmetry,
            degree,
            exchanges,
            threshold,
            plan,
        };
        request.bands()?;
        Ok(request)
    }
}
