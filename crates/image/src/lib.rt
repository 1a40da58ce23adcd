// The image of a job, byte for byte (document 01, "The image").
#![tactic(auto)]

mod bytes;
mod layout;
mod reading;
mod writing;

ghost use Rattle.std.specs.Prelude.{◌≡◌, ◌+◌, ◌≤◌, length};
ghost use Rattle.numbers.specs.Refusals.{outcome_of, Wrote};
ghost use Rattle.image.specs.Image.{save_for, image_for, few_bands, few_points, points_part, points_part_at};

use fields::Fields;
use numbers::Refusal;

// As many bytes as an image may have.
pub const BYTES: usize = 948;

fn few_bands(fields: Fields) -> usize
    ensures { (result ≡ few_bands fields) × (result ≤ 8) }
{
    fields.request.plan.count.min(8)
}

fn few_points(fields: Fields) -> usize
    ensures { (result ≡ few_points fields) × (result ≤ 65) }
{
    let request = fields.request;
    packing::points_for(fields.made, request.taps, request.symmetry).min(65)
}

// The bytes of the fields, to the front of an output of at least 948; how many they are.
pub fn encode(fields: Fields, out: &mut [u8]) -> Result<usize, Refusal>
    ensures { Wrote (save_for fields (length out.old)) result out.old out.new }
{
    if out.len() < BYTES {
        return Err(Refusal::Room);
    }
    let words = packing::pack(fields);
    let bands = few_bands(fields);
    let points = few_points(fields);
    writing::put_bytes(&words, bands, points, out);
    Ok(28 + 50 * bands + 8 * points)
}

// The fields that an image holds: refusal 14 for bytes that break its layout. Whether they are accepted is not asked here.
#[tactic(auto, unfolding(crate::specs::Image::image_for))]
pub fn decode(bytes: &[u8]) -> Result<Fields, Refusal>
    ensures { outcome_of result ≡ image_for bytes.now }
{
    if !layout::has_layout(bytes) {
        return Err(Refusal::Layout);
    }
    Ok(packing::unpack(&reading::words_in(bytes)))
}

// The points of an image: that very part of its bytes; for bytes that 14 refuses the empty part at their start.
pub fn points(bytes: &[u8]) -> &[u8]
    ensures contents { result.now ≡ points_part bytes.now }
    ensures place { (result.ref_ptr.0 ≡ bytes.entry.ref_ptr.0) × (result.ref_ptr.1 ≡ points_part_at bytes.now + bytes.entry.ref_ptr.1) }
{
    if !layout::has_layout(bytes) {
        return &bytes[..0];
    }
    let a = 28 + 50 * layout::count_in(bytes);
    &bytes[a..a + 8 * layout::points_in(bytes)]
}
