ghost use Rattle.std.specs.Prelude.{◌≡◌, ◌<◌, ◌/◌, length, get_or};
ghost use Rattle.pruning.specs.Candidates.{raws, zeros, none, all, put_raw, put};
ghost use Rattle.pruning.specs.Sort.{inserted_words, Insertable, sorted_words};

// A place on the axis of x where the error may be extreme, and the error there.
#[derive(Clone, Copy)]
pub struct Candidate {
    pub x: f64,
    pub error: f64,
}

// A candidate's two words, as they stand.
#[derive(Clone, Copy)]
struct Raw {
    x: u64,
    error: u64,
}

fn raw_at(words: &[u64], i: usize) -> Raw
    requires { i < length words.now / 2 }
    ensures { result ≡ get_or (raws words.now) i zeros }
{
    Raw {
        x: words[2 * i],
        error: words[2 * i + 1],
    }
}

fn put_raw(words: &mut [u64], i: usize, r: Raw)
    requires { i < length words.old / 2 }
    ensures { words.new ≡ put_raw words.old i r }
{
    words[2 * i] = r.x;
    words[2 * i + 1] = r.error;
}

// The candidate at i of the words; zeros where they hold none.
pub fn candidate_at(words: &[u64], i: usize) -> Candidate
    ensures { result ≡ get_or (all words.now) i none }
{
    if i < words.len() / 2 {
        let r = raw_at(words, i);
        return Candidate {
            x: numbers::of_word(r.x),
            error: numbers::of_word(r.error),
        };
    }
    Candidate { x: 0.0, error: 0.0 }
}

// The candidate put at i of the words; nothing where they have no such place.
pub fn put_candidate(words: &mut [u64], i: usize, c: Candidate)
    ensures { words.new ≡ put words.old i c }
{
    if i < words.len() / 2 {
        let r = Raw {
            x: numbers::to_word(c.x),
            error: numbers::to_word(c.error),
        };
        put_raw(words, i, r);
    }
}

// The candidate at i put among the i before it, which are in order: those above it move up.
fn insert_at(words: &mut [u64], i: usize)
    requires { Insertable words.old i }
    ensures { words.new ≡ inserted_words words.old i }
{
    let c = raw_at(words, i);
    let x = numbers::of_word(c.x);
    for k in (0..i).rev() {
        let p = raw_at(words, k);
        if x < numbers::of_word(p.x) {
            put_raw(words, k + 1, p);
        } else {
            put_raw(words, k + 1, c);
            return;
        }
    }
    put_raw(words, 0, c);
}

// The first n candidates of the words, or all where they hold fewer, sorted by x; those of one x stay in their order.
pub fn sort_candidates(words: &mut [u64], n: usize)
    ensures { words.new ≡ sorted_words words.old n }
{
    for i in 0..n.min(words.len() / 2) {
        insert_at(words, i);
    }
}
