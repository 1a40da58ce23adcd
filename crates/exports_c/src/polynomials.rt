// The leaves of the crate chebyshev.
ghost use Rattle.std.specs.Prelude.{length};
ghost use Rattle.chebyshev.specs.Nodes.{nodes_for};
ghost use Rattle.chebyshev.specs.Coefficients.{coefficients_for};
ghost use Rattle.exports.specs.Answers.{Numbered};

// The degree + 1 nodes of a degree from 2 to 16.
#[unsafe(no_mangle)]
pub extern "C" fn stepsheaf_nodes(degree: usize, out: &mut [f64]) -> u64
    ensures { Numbered (nodes_for degree (length out.old)) result out.old out.new }
{
    exports::stepsheaf_nodes(degree, out)
}

// The coefficients of 2 to 64 values.
#[unsafe(no_mangle)]
pub extern "C" fn stepsheaf_coefficients(values: &[f64], out: &mut [f64]) -> u64
    ensures { Numbered (coefficients_for values.now (length out.old)) result out.old out.new }
{
    exports::stepsheaf_coefficients(values, out)
}
