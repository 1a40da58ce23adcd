// How an answer is told to C.
ghost use Rattle.std.specs.Prelude.{◌≡◌, length};
ghost use Rattle.numbers.specs.Refusals.{outcome_of, Filled};
ghost use Rattle.exports.specs.Answers.{said, single};

use numbers::Refusal;

// 0, or document 01's number of the refusal.
pub fn told(answer: Result<(), Refusal>) -> u64
    ensures { result ≡ said answer }
{
    match answer {
        Ok(()) => 0,
        Err(why) => u64::from(why),
    }
}

// A single number to the front of `out`.
pub fn put(number: Result<f64, Refusal>, out: &mut [f64]) -> Result<(), Refusal>
    ensures { Filled (single (length out.old) (outcome_of number)) 1 result out.old out.new }
{
    let first = out.first_mut().ok_or(Refusal::Lists)?;
    *first = number?;
    Ok(())
}
