// The leaves of the crate pruning.
ghost use Rattle.std.specs.Prelude.{◌≡◌, length};
ghost use Rattle.pruning.specs.Errors.{prune_for};
ghost use Rattle.pruning.specs.Sort.{sorted_words};
ghost use Rattle.exports.specs.Answers.{Numbered};

// The places of n of 1 to 1,241 errors that alternate in sign.
#[unsafe(no_mangle)]
pub extern "C" fn stepsheaf_prune(errors: &[f64], n: usize, places: &mut [u64]) -> u64
    ensures { Numbered (prune_for errors.now n (length places.old)) result places.old places.new }
{
    exports::stepsheaf_prune(errors, n, places)
}

// The first n candidates of the words, x and error of each as the bits of a number, sorted by x. It refuses nothing.
#[unsafe(no_mangle)]
pub extern "C" fn stepsheaf_sort_candidates(words: &mut [u64], n: usize)
    ensures { words.new ≡ sorted_words words.old n }
{
    exports::stepsheaf_sort_candidates(words, n)
}
