// What came of a request beside what pm-remez answered. Where pm-remez fails, document 01 refuses; docs/DIFFERENCES.md has the rest.
use crate::asking::{is_band_removed, points_of};
use crate::running::Design;
use cases::{are_same, is_same, list_into, past, whole_at, written_at};
use numbers::{Refusal, all_finite};

#[derive(Clone, Copy)]
pub(crate) enum Judged {
    // None of the following, or not to be read.
    Wrong,
    // pm-remez's very bits.
    Same,
    // Refused here; there an error, a panic where no band is left, or a number that is not finite.
    Refused(Refusal),
    // A panic of pm-remez at a derivative of one coefficient, which is no refusal here.
    OneCoefficient,
    // Not the same, after a band of no length that pm-remez keeps was removed here.
    Removed,
    // Refused with 9 or 11, where pm-remez goes on with a number that is not finite or a 65th pass.
    WentOn,
}

// What is refused here where pm-remez fails by that name. It panics where no band is left.
fn refusal_named(name: &[u8]) -> Option<Refusal> {
    match name {
        b"NotEnoughExtrema" => Some(Refusal::Extrema),
        b"ProxyDerivativeZero" => Some(Refusal::Derivative),
        b"InvalidResponse" => Some(Refusal::Response),
        b"EigenvaluesError" => Some(Refusal::NotFinite),
        b"panic" => Some(Refusal::Edges),
        _ => None,
    }
}

// Beside the name of pm-remez's error. Any other panic is that of one coefficient.
fn failed(s: &[u8], at: usize, design: Design) -> Option<Judged> {
    let word = text::next(s, at)?;
    let expected = refusal_named(text::part(s, word))?;
    match design.run.report {
        Err(why) if why == expected => Some(Judged::Refused(why)),
        _ => text::is(s, word, b"panic").then_some(Judged::OneCoefficient),
    }
}

// pm-remez's design.
#[derive(Clone, Copy)]
struct Said<'a> {
    iterations: usize,
    flatness: f64,
    error: f64,
    taps: &'a [f64],
    freqs: &'a [f64],
}

fn said_at<'a>(s: &[u8], at: usize, taps: &'a mut [f64], freqs: &'a mut [f64]) -> Option<Said<'a>> {
    let iterations = whole_at(s, at)?;
    let next = past(s, iterations.at);
    let t = list_into(s, past(s, next), taps).ok()?;
    let f = list_into(s, t.at, freqs).ok()?;
    Some(Said {
        iterations: iterations.count,
        flatness: written_at(s, iterations.at),
        error: written_at(s, next),
        taps: taps.get(..t.count)?,
        freqs: freqs.get(..f.count)?,
    })
}

fn is_finite(said: Said) -> bool {
    all_finite(said.taps)
        && all_finite(said.freqs)
        && numbers::is_finite(said.flatness)
        && numbers::is_finite(said.error)
}

// Iterations, flatness, error, every tap and every frequency.
fn is_same_design(design: Design, flatness: f64, error: f64, said: Said) -> bool {
    design.run.made == said.iterations
        && design.request.taps == said.taps.len()
        && points_of(design.request) == said.freqs.len()
        && is_same(flatness, said.flatness)
        && is_same(error, said.error)
        && are_same(design.taps, said.taps, said.taps.len())
        && are_same(design.freqs, said.freqs, said.freqs.len())
}

fn designed(s: &[u8], at: usize, design: Design) -> Option<Judged> {
    let mut taps = [0.0; 128];
    let mut freqs = [0.0; 65];
    let said = said_at(s, at, &mut taps, &mut freqs)?;
    match design.run.report {
        Ok(report) => (is_finite(said)
            && is_same_design(design, report.flatness, report.error, said)).then_some(Judged::Same),
        Err(why) => (why == Refusal::NotFinite && !is_finite(said)).then_some(Judged::Refused(why)),
    }
}

// The differences in which pm-remez goes on.
fn otherwise(design: Design) -> Judged {
    if is_band_removed(design.request) {
        return Judged::Removed;
    }
    match design.run.report {
        Err(Refusal::NotFinite | Refusal::Balancing) => Judged::WentOn,
        _ => Judged::Wrong,
    }
}

fn plainly(s: &[u8], at: usize, design: Design) -> Option<Judged> {
    let word = text::next(s, at)?;
    match text::part(s, word) {
        b"failed" => failed(s, word.to, design),
        b"design" => designed(s, word.to, design),
        _ => None,
    }
}

// Beside the answer after the word `answer`.
pub(crate) fn beside(s: &[u8], at: usize, design: Design) -> Judged {
    plainly(s, at, design).unwrap_or_else(|| otherwise(design))
}
