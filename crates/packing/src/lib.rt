// What a job's image holds, as words: a slot keeps them, and the image's bytes are made from them.
#![tactic(auto)]

mod joining;
mod reading;
mod writing;

ghost use Rattle.std.specs.Prelude.{◌≡◌};
ghost use Rattle.packing.specs.Packing.{words_of, fields_of};

use fields::Fields;
pub use joining::join;
pub use reading::of_bits;
pub use writing::points_for;

// As many words as the fields take.
pub const WORDS: usize = 137;

// The words of the fields.
#[tactic(auto, unfolding(crate::specs::Packing::words_of))]
pub fn pack(fields: Fields) -> [u64; 137]
    ensures { result ≡ words_of fields }
{
    joining::join(
        writing::head_words(fields),
        writing::bands_words(fields.request.plan),
        writing::points_words(fields),
    )
}

// The fields that words hold, whatever they are; past their end they count as zero.
#[tactic(auto, unfolding(crate::specs::Packing::fields_of))]
pub fn unpack(words: &[u64]) -> Fields
    ensures { result ≡ fields_of words.now }
{
    Fields {
        request: reading::request_in(words),
        made: reading::at(words, 4) as usize,
        flatness: reading::number(words, 7),
        points: reading::points_in(words),
    }
}
