// An image with another plan, as a receiver writes it: in the bytes, where document 01 has them.
use crate::bench::{Bench, Image};
use bands::{Band, Plan, Value};
use cases::{count_at, plan_at};
use numbers::to_word;
use std::io;

// A value's kind and its two numbers; a constant repeats its own.
fn parts_of(v: Value) -> (u8, f64, f64) {
    match v {
        Value::Constant(a) => (0, a, a),
        Value::Linear(a, b) => (1, a, b),
    }
}

// Kinds, edges, desired and weight, each number by the eight bytes of its bits, lowest first.
fn put_band(out: &mut [u8; 50], b: Band) {
    let (desired, first, second) = parts_of(b.desired);
    let (weight, third, fourth) = parts_of(b.weight);
    out[0] = desired;
    out[1] = weight;
    out[2..10].copy_from_slice(&to_word(b.begin).to_le_bytes());
    out[10..18].copy_from_slice(&to_word(b.end).to_le_bytes());
    out[18..26].copy_from_slice(&to_word(first).to_le_bytes());
    out[26..34].copy_from_slice(&to_word(second).to_le_bytes());
    out[34..42].copy_from_slice(&to_word(third).to_le_bytes());
    out[42..50].copy_from_slice(&to_word(fourth).to_le_bytes());
}

impl Image {
    // How many bands it says that it has.
    fn bands(&self) -> usize {
        self.bytes[11] as usize
    }

    // Another plan of as many bands.
    fn put_plan(&mut self, plan: Plan) {
        let (bands, _) = self.bytes[28..].as_chunks_mut::<50>();
        for (out, &band) in bands.iter_mut().zip(&plan.bands).take(plan.count) {
            put_band(out, band);
        }
    }

    // No exchange made, flatness 0 and no points: the bytes that are left.
    fn forget(&mut self) {
        self.bytes[10] = 0;
        self.bytes[20..28].fill(0);
        let n = self.bands();
        self.size = if n <= Plan::BANDS { 28 + 50 * n } else { 0 };
    }
}

impl Bench {
    // plan IMAGE BANDS, and a line for each band: another plan of as many bands; all else stays
    pub(crate) fn plan(&mut self, rt: &impl Print, s: &[u8], at: usize) -> io::Result<()> {
        let image = count_at(s, at);
        let bands = count_at(s, image.at);
        match (
            plan_at(s, bands.at, bands.count),
            self.images.get_mut(image.count),
        ) {
            (Ok(planned), Some(image)) if image.bands() == bands.count => {
                image.put_plan(planned.plan);
                Ok(())
            }
            _ => println!(rt;
                "WRONG: no such plan, no such image, or one of another number of bands"
            ),
        }
    }

    // unmade IMAGE: no exchange made, so that restoring opens the job of the plan in the image
    pub(crate) fn unmade(&mut self, rt: &impl Print, s: &[u8], at: usize) -> io::Result<()> {
        let Some(image) = self.images.get_mut(count_at(s, at).count) else {
            return println!(rt; "WRONG: no such image");
        };
        image.forget();
        Ok(())
    }
}
