// How an answer compares with the host's value.
ghost use Rattle.std.specs.Prelude.{◌≡◌};
ghost use Rattle.numbers.specs.Refusals.{outcome_of};
ghost use Rattle.angle_values.specs.Verdicts.{outcome_of as answer_of, verdict_of};

use crate::list::{Case, Function};
use numbers::{Refusal, magnitude, to_word};

#[derive(Clone, Copy)]
pub enum Verdict {
    Same,
    Near,
    Far,
    Refused,
}

// The goal is 2^-50; document 01 asks for 2^-40.
const NEAR: f64 = 8.881784197001252e-16;

fn answer(c: Case) -> Result<f64, Refusal>
    ensures { outcome_of result ≡ answer_of c.function c.place }
{
    match c.function {
        Function::Cosine => angles::cosine(c.place),
        Function::Sine => angles::sine(c.place),
        Function::Arccosine => angles::arccosine(c.place),
    }
}

// The answer at a place against the host's value there.
#[tactic(auto, unfolding(crate::specs::Verdicts::verdict_of))]
pub fn judged(c: Case) -> Verdict
    ensures { result ≡ verdict_of c }
{
    match answer(c) {
        Ok(x) if to_word(x) == to_word(c.value) => Verdict::Same,
        Ok(x) if magnitude(x - c.value) <= NEAR => Verdict::Near,
        Ok(_) => Verdict::Far,
        Err(_) => Verdict::Refused,
    }
}
