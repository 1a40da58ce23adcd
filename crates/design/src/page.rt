// A design for a person, or why there is none.
use crate::running::Design;
use crate::saying::Number;
use bands::Symmetry;
use numbers::Refusal;
use std::io;

// What a refusal means to who asked for a filter: 5 to 13 are all that a design can meet.
fn meaning(why: Refusal) -> &'static str {
    match why {
        Refusal::Request => "taps, symmetry, degree, exchanges or threshold are out of range",
        Refusal::Bands => "the bands break a rule: edges, order, values or weights",
        Refusal::Response => "no filter of these taps and this symmetry has that response",
        Refusal::Edges => "edge adjustment leaves no band",
        Refusal::NotFinite => "a number is not finite, or the points do not fall",
        Refusal::Derivative => "the proxy's derivative is all zeros",
        Refusal::Balancing => "balancing needs a 65th pass",
        Refusal::Roots => "a residual is not finite",
        _ => "too few extrema",
    }
}

// A list, one number a line, after its name.
fn say_list(rt: &impl Print, name: &str, list: &[f64]) -> io::Result<()> {
    for &x in list {
        println!(rt; "{name} {}", Number(x))?;
    }
    Ok(())
}

// What came of a request.
pub(crate) fn say_design(rt: &impl Print, design: Design) -> io::Result<()> {
    let symmetry = match design.request.symmetry {
        Symmetry::Even => "even",
        Symmetry::Odd => "odd",
    };
    println!(rt; "{} taps, {symmetry} symmetry", design.request.taps)?;
    match design.run.report {
        Ok(report) => {
            println!(rt; "exchanges {}", design.run.made)?;
            println!(rt; "flatness {}", Number(report.flatness))?;
            println!(rt; "weighted error {}", Number(report.error))?;
            say_list(rt, "tap", design.taps)?;
            say_list(rt, "frequency", design.freqs)
        }
        Err(why) => println!(rt; "refused, {}: {}", u64::from(why), meaning(why)),
    }
}
