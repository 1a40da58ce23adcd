// Filters as the stored cases have them.
use bands::Symmetry;
use cases::{count_at, past, plan_at};
use fir_types::Target;

// What is wanted of a filter, and where its lines end.
#[derive(Clone, Copy)]
pub(crate) struct Filter {
    pub(crate) target: Target,
    pub(crate) at: usize,
}

pub(crate) fn filter_at(s: &[u8], at: usize) -> Option<Filter> {
    let t = count_at(s, past(s, at));
    let y = count_at(s, t.at);
    let n = count_at(s, y.at);
    let p = plan_at(s, n.at, n.count).ok()?;
    Some(Filter {
        target: Target {
            plan: p.plan,
            symmetry: Symmetry::from(y.count as u64),
            odd: fir_types::is_odd(t.count),
        },
        at: p.at,
    })
}
