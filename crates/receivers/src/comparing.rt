// Finished jobs beside each other.
use crate::bench::Bench;
use crate::saying::say_done;
use cases::{are_same, count_at};
use numbers::to_word;
use std::io;

impl Bench {
    // A finished job's taps to `taps`, zeros beyond them; false where there is none, and then why is said.
    fn taps_of(&mut self, rt: &impl Print, slot: usize, taps: &mut [f64]) -> io::Result<bool> {
        let mut freqs = [0.0; 65];
        match bank::read(&self.bank, &mut self.scratch, slot, taps, &mut freqs) {
            Ok(_) => Ok(true),
            Err(why) => {
                say_done(rt, slot, "", Err(why))?;
                Ok(false)
            }
        }
    }

    // compare SLOT SLOT: whether two finished jobs have the same taps, bit for bit
    pub(crate) fn compare(&mut self, rt: &impl Print, s: &[u8], at: usize) -> io::Result<()> {
        let first = count_at(s, at);
        let second = count_at(s, first.at);
        let mut a = [0.0; 128];
        let mut b = [0.0; 128];
        if !self.taps_of(rt, first.count, &mut a)? || !self.taps_of(rt, second.count, &mut b)? {
            return Ok(());
        }
        let which = if are_same(&a, &b, 128) {
            "the same"
        } else {
            "other"
        };
        println!(rt;
            "slots {} and {}: {which} taps, the first {:016x} and {:016x}",
            first.count,
            second.count,
            to_word(a[0]),
            to_word(b[0])
        )
    }
}
