// Lists in fixed memory: of N places those of the first `count` are filled.
#![tactic(auto)]

ghost use Rattle.std.specs.Prelude.{◌≡◌, [], take};
ghost use Rattle.listed.specs.Listed.{listed, push};

// A list of up to N entries. Whoever makes one by hand may give any count: `front` then has all places.
#[derive(Clone, Copy)]
pub struct Listed<T, const N: usize> {
    pub list: [T; N],
    pub count: usize,
}

impl<T: Copy, const N: usize> Listed<T, N> {
    // No entry, and the filler in every place.
    pub fn none(filler: T) -> Self
        ensures { result ≡ listed filler N [] }
    {
        Listed {
            list: [filler; N],
            count: 0,
        }
    }

    // An entry behind the others; nothing where every place is filled.
    pub fn push(&mut self, entry: T)
        ensures { self.new ≡ push entry self.old }
    {
        if self.count < N {
            self.list[self.count] = entry;
            self.count += 1;
        }
    }

    // The entries.
    pub fn front(&self) -> &[T]
        ensures { result.now ≡ take self.now.count self.now.list }
    {
        if self.count <= N {
            &self.list[..self.count]
        } else {
            &self.list
        }
    }
}
