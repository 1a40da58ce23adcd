// A request, as oracle/README.md has its lines.
use bands::{Band, Plan, Symmetry};
use cases::{past, plan_at, whole_at, written_at};
use fields::Request;

// A request, and where its lines end.
#[derive(Clone, Copy)]
pub(crate) struct Asked {
    pub(crate) request: Request,
    pub(crate) at: usize,
}

fn is_without_length(b: Band) -> bool {
    b.begin == 0.0 && b.end == 0.0001 || b.end == 0.5 && b.begin == 0.5 - 0.0001
}

fn is_an_end_without_length(plan: Plan) -> bool {
    plan.bands.get(..plan.count).is_some_and(|bands| {
        bands.first().is_some_and(|b| is_without_length(*b))
            || bands.last().is_some_and(|b| is_without_length(*b))
    })
}

// Whether edge adjustment removes a band at 0 or 0.5 for being without length: fewer bands are left than there were, and one of them
// was left without length.
pub(crate) fn is_band_removed(request: Request) -> bool {
    let left = request.bands().map_or(0, |edges| edges.count);
    left < request.plan.count && is_an_end_without_length(request.plan)
}

// The points of a design: one more than its taps have functions.
pub(crate) fn points_of(request: Request) -> usize {
    request.functions().wrapping_add(1)
}

// From the word after `request` on.
pub(crate) fn asked_at(s: &[u8], at: usize) -> Option<Asked> {
    let taps = whole_at(s, at)?;
    let symmetry = whole_at(s, taps.at)?;
    let degree = whole_at(s, symmetry.at)?;
    let exchanges = whole_at(s, degree.at)?;
    let bands = whole_at(s, past(s, exchanges.at))?;
    let planned = plan_at(s, bands.at, bands.count).ok()?;
    if 1 < symmetry.count {
        return None;
    }
    Some(Asked {
        request: Request {
            taps: taps.count,
            symmetry: Symmetry::from(symmetry.count as u64),
            degree: degree.count,
            exchanges: exchanges.count,
            threshold: written_at(s, exchanges.at),
            plan: planned.plan,
        },
        at: planned.at,
    })
}
