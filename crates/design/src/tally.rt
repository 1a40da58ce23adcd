// How the requests of a list come out.
use crate::judging::Judged;
use crate::running::Design;
use numbers::Refusal;
use std::io;

#[derive(Clone, Copy, Default)]
pub(crate) struct Tally {
    pub(crate) asked: u64,
    same: u64,
    converged: u64,
    budget_used: u64,
    none_allowed: u64,
    response: u64,
    edges: u64,
    not_finite: u64,
    derivative: u64,
    extrema: u64,
    one_coefficient: u64,
    removed: u64,
    went_on: u64,
    wrong: u64,
}

fn count(n: &mut u64) {
    *n = n.wrapping_add(1);
}

fn is_converged(design: Design) -> bool {
    design.run.report.is_ok_and(|report| {
        report.iterations != 0 && report.flatness <= design.request.threshold
    })
}

impl Tally {
    fn count_same(&mut self, design: Design) {
        count(&mut self.same);
        let is_converged = is_converged(design);
        if is_converged {
            count(&mut self.converged);
        }
        if design.request.exchanges == 0 {
            count(&mut self.none_allowed);
        } else if !is_converged {
            count(&mut self.budget_used);
        }
    }

    fn count_refusal(&mut self, why: Refusal) {
        match why {
            Refusal::Response => count(&mut self.response),
            Refusal::Edges => count(&mut self.edges),
            Refusal::NotFinite => count(&mut self.not_finite),
            Refusal::Derivative => count(&mut self.derivative),
            Refusal::Extrema => count(&mut self.extrema),
            _ => {}
        }
    }

    // One request more.
    pub(crate) fn count(&mut self, judged: Judged, design: Design) {
        count(&mut self.asked);
        match judged {
            Judged::Wrong => count(&mut self.wrong),
            Judged::Same => self.count_same(design),
            Judged::Refused(why) => self.count_refusal(why),
            Judged::OneCoefficient => count(&mut self.one_coefficient),
            Judged::Removed => count(&mut self.removed),
            Judged::WentOn => count(&mut self.went_on),
        }
    }
}

pub(crate) fn say_tally(rt: &impl Print, t: Tally) -> io::Result<()> {
    println!(rt; "{} requests beside pm-remez", t.asked)?;
    println!(rt;
        "{} designs with its very bits: {} converged, {} used their budget, {} with no exchange allowed",
        t.same, t.converged, t.budget_used, t.none_allowed
    )?;
    println!(rt;
        "{} refused with 7 where it has InvalidResponse",
        t.response
    )?;
    println!(rt; "{} refused with 8 where it panics", t.edges)?;
    println!(rt;
        "{} refused with 9 where it has EigenvaluesError or a number that is not finite",
        t.not_finite
    )?;
    println!(rt;
        "{} refused with 10 where it has ProxyDerivativeZero",
        t.derivative
    )?;
    println!(rt;
        "{} refused with 13 where it has NotEnoughExtrema",
        t.extrema
    )?;
    println!(rt;
        "{} with a derivative of one coefficient, where it panics",
        t.one_coefficient
    )?;
    println!(rt;
        "{} that differ after a band of no length, which it keeps",
        t.removed
    )?;
    println!(rt; "{} refused with 9 or 11 where it goes on", t.went_on)?;
    println!(rt; "{} that differ otherwise", t.wrong)
}
