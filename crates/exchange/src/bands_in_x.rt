ghost use Rattle.std.specs.Prelude.{◌≡◌, ◌≤◌};
ghost use Rattle.numbers.specs.Refusals.{outcome_of};
ghost use Rattle.exchange.specs.Bands.{band_in_x, bands_in_x};

use fir_types::{Edges, Interval};
use numbers::Refusal;

// A band in x, where its edges are angles.
fn band_in_x(b: Interval) -> Result<Interval, Refusal>
    ensures { outcome_of result ≡ band_in_x b }
{
    let begin = angles::cosine(b.end)?;
    let end = angles::cosine(b.begin)?;
    Ok(Interval { begin, end })
}

// The bands in x, in rising order.
#[tactic(auto, using(crate::proofs::BandLaws::turn_next, crate::proofs::BandLaws::turn_stop, crate::proofs::BandLaws::turn_end))]
pub(crate) fn bands_in_x(bands: Edges) -> Result<Edges, Refusal>
    requires { bands.count ≤ 8 }
    ensures { outcome_of result ≡ bands_in_x bands }
{
    let n = bands.count;
    let mut list = [Interval {
        begin: 0.0,
        end: 0.0,
    }; 8];
    for i in 0..n {
        list[i] = band_in_x(bands.list[n - 1 - i])?;
    }
    Ok(Edges { list, count: n })
}
