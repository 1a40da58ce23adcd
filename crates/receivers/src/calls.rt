// The bank's calls, each by a line: its name, the slot, and what else it takes.
use crate::bench::Bench;
use crate::saying::say_done;
use bands::Symmetry;
use cases::{count_at, past, plan_at, written_at};
use fields::Request;
use numbers::Refusal;
use std::io;

impl Bench {
    // open SLOT TAPS SYMMETRY DEGREE EXCHANGES THRESHOLD BANDS, and a line for each band
    pub(crate) fn open(&mut self, rt: &impl Print, s: &[u8], at: usize) -> io::Result<()> {
        let slot = count_at(s, at);
        let taps = count_at(s, slot.at);
        let symmetry = count_at(s, taps.at);
        let degree = count_at(s, symmetry.at);
        let exchanges = count_at(s, degree.at);
        let bands = count_at(s, past(s, exchanges.at));
        let Ok(planned) = plan_at(s, bands.at, bands.count) else {
            return println!(rt; "WRONG: a request that cannot be read");
        };
        let request = Request {
            taps: taps.count,
            symmetry: Symmetry::from(symmetry.count as u64),
            degree: degree.count,
            exchanges: exchanges.count,
            threshold: written_at(s, exchanges.at),
            plan: planned.plan,
        };
        let r = bank::open(&mut self.bank, &mut self.scratch, slot.count, request);
        say_done(rt, slot.count, "opened", r)
    }

    // step SLOT
    pub(crate) fn step(&mut self, rt: &impl Print, s: &[u8], at: usize) -> io::Result<()> {
        let slot = count_at(s, at).count;
        let r = bank::step(&mut self.bank, &mut self.scratch, slot);
        say_done(rt, slot, "one exchange made", r)
    }

    // finish SLOT: exchange after exchange, until one is refused. A finished job refuses with 3.
    pub(crate) fn finish(&mut self, rt: &impl Print, s: &[u8], at: usize) -> io::Result<()> {
        let slot = count_at(s, at).count;
        for made in 0..101 {
            match bank::step(&mut self.bank, &mut self.scratch, slot) {
                Ok(()) => {}
                Err(Refusal::State) => {
                    return println!(rt; "slot {slot}: {made} exchanges more, and no further one");
                }
                refused => return say_done(rt, slot, "", refused),
            }
        }
        Ok(())
    }

    // clear SLOT
    pub(crate) fn clear(&mut self, rt: &impl Print, s: &[u8], at: usize) -> io::Result<()> {
        let slot = count_at(s, at).count;
        let r = bank::clear(&mut self.bank, &mut self.scratch, slot);
        say_done(rt, slot, "cleared", r)
    }

    // save SLOT IMAGE
    pub(crate) fn save(&mut self, rt: &impl Print, s: &[u8], at: usize) -> io::Result<()> {
        let slot = count_at(s, at);
        let k = count_at(s, slot.at).count;
        let Some(image) = self.images.get_mut(k) else {
            return println!(rt; "WRONG: no such image");
        };
        let r = bank::save(&self.bank, &mut self.scratch, slot.count, &mut image.bytes);
        image.size = r.unwrap_or(0);
        say_done(rt, slot.count, "saved", r.map(|_| ()))
    }

    // restore SLOT IMAGE
    pub(crate) fn restore(&mut self, rt: &impl Print, s: &[u8], at: usize) -> io::Result<()> {
        let slot = count_at(s, at);
        let k = count_at(s, slot.at).count;
        let saved = self
            .images
            .get(k)
            .and_then(|image| image.bytes.get(..image.size));
        let Some(saved) = saved else {
            return println!(rt; "WRONG: no such image");
        };
        let r = bank::restore(&mut self.bank, &mut self.scratch, slot.count, saved);
        say_done(rt, slot.count, "restored", r)
    }
}
