// A plan and a symmetry from what C hands over: `kinds`, two to a band (desired value, weight; 0 constant, 1 linear), and
// `numbers`, six to a band (begin, end, two of the desired value, two of the weight).
ghost use Rattle.std.specs.Prelude.{◌≡◌, ◌*◌, ◌/◌, ◌<◌, ◌≤◌, ◌++◌, leb, length, get_or, drop};
ghost use Rattle.std.specs.List.{list_all};
ghost use Rattle.numbers.specs.Outcome.{gave};
ghost use Rattle.numbers.specs.Refusals.{outcome_of};
ghost use Rattle.exports.specs.Plans.{number_at, band_from, matched, plan_of, with_symmetry, target, says_odd, edge_at, flat};

use bands::{Band, Plan, Symmetry, Value};
use fir_types::{Interval, Target};
use numbers::Refusal;
use std::array;

pub(crate) fn number_at(numbers: &[f64], k: usize) -> f64
    ensures { result ≡ number_at numbers.now k }
{
    numbers.get(k).copied().unwrap_or(0.0)
}

fn kind_at(kinds: &[u64], k: usize) -> u64
    ensures { result ≡ get_or kinds.now k 0 }
{
    kinds.get(k).copied().unwrap_or(0)
}

fn band_from(kinds: &[u64], numbers: &[f64], i: usize) -> Band
    requires { i < 8 }
    ensures { result ≡ band_from kinds.now numbers.now i }
{
    Band {
        begin: number_at(numbers, 6 * i),
        end: number_at(numbers, 6 * i + 1),
        desired: Value::of_kind(
            kind_at(kinds, 2 * i),
            number_at(numbers, 6 * i + 2),
            number_at(numbers, 6 * i + 3),
        ),
        weight: Value::of_kind(
            kind_at(kinds, 2 * i + 1),
            number_at(numbers, 6 * i + 4),
            number_at(numbers, 6 * i + 5),
        ),
    }
}

fn are_kinds(kinds: &[u64]) -> bool
    ensures { result ≡ list_all (λ kind. leb kind 1) kinds.now }
{
    kinds.iter().all(|&kind| kind <= 1)
}

// Two kinds and six numbers a band, of at most 8 bands, and each kind 0 or 1.
#[tactic(auto, unfolding(crate::specs::Plans::matched), using(crate::proofs::PlanLaws::every_kind))]
fn are_matched(kinds: &[u64], numbers: &[f64]) -> bool
    ensures { result ≡ matched kinds.now numbers.now }
{
    kinds.len() <= 2 * Plan::BANDS
        && kinds.len() % 2 == 0
        && numbers.len() == 3 * kinds.len()
        && are_kinds(kinds)
}

// Lists that do not match make a plan without bands, which is refused with 6 wherever a plan is checked.
pub fn plan_of(kinds: &[u64], numbers: &[f64]) -> Plan
    ensures { result ≡ plan_of kinds.now numbers.now }
{
    let count = if are_matched(kinds, numbers) {
        kinds.len() / 2
    } else {
        0
    };
    Plan {
        bands: array::from_fn(|i| band_from(kinds, numbers, i)),
        count,
    }
}

// 0 even, 1 odd, else refusal 5.
pub(crate) fn symmetry_in(n: u64) -> Result<Symmetry, Refusal>
    ensures { outcome_of result ≡ with_symmetry n gave }
{
    if n <= 1 {
        Ok(Symmetry::from(n))
    } else {
        Err(Refusal::Request)
    }
}

// What is wanted of a filter: any number but 0 says that its taps are odd.
pub(crate) fn target_of(plan: Plan, symmetry: u64, odd: u64) -> Result<Target, Refusal>
    ensures { outcome_of result ≡ with_symmetry symmetry (λ s. gave (target plan s (says_odd odd))) }
{
    Ok(Target {
        plan,
        symmetry: symmetry_in(symmetry)?,
        odd: odd != 0,
    })
}

fn end_of(list: &[Interval], k: usize) -> f64
    requires { k / 2 < length list.now }
    ensures { result ≡ edge_at list.now k }
{
    let interval = list[k / 2];
    if k % 2 == 0 {
        interval.begin
    } else {
        interval.end
    }
}

// Begin and end of each interval, to the front of `out`.
pub(crate) fn ends_into(list: &[Interval], out: &mut [f64])
    requires { 2 * length list.now ≤ length out.old }
    ensures { out.new ≡ flat list.now ++ drop (2 * length list.now) out.old }
{
    for k in 0..2 * list.len() {
        out[k] = end_of(list, k);
    }
}
