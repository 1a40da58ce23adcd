ghost use Rattle.std.specs.Prelude.{◌≡◌, ◌+◌, ◌*◌, ◌<◌, ◌≤◌, length};
ghost use Rattle.std.proofs.lemmas.List.Edits.{sets};
ghost use Rattle.image.specs.Image.{mark, start_of, head_of, band_of, band_from, word_part, parts, bytes_for};

use crate::bytes;

fn put_mark(out: &mut [u8])
    requires { 3 ≤ length out.old }
    ensures { out.new ≡ sets out.old 0 mark }
{
    out[..3].copy_from_slice(b"RXS");
}

// The words, k bytes each, from place a on.
fn put_words(words: &[u64], k: usize, out: &mut [u8], a: usize)
    requires { (a + k * length words.now ≤ length out.old) × (k ≤ 8) }
    ensures { out.new ≡ sets out.old a (parts (word_part words.now 0 k) (length words.now) 0) }
{
    for (i, &word) in words.iter().enumerate() {
        bytes::put(out, a + k * i, k, word);
    }
}

// The mark, version 1, the symmetry and the taps.
fn put_start(w: &[u64; 137], out: &mut [u8])
    requires { 28 ≤ length out.old }
    ensures { out.new ≡ sets out.old 0 (start_of w.now) }
{
    put_mark(out);
    bytes::put(out, 3, 2, 1);
    bytes::put(out, 5, 1, w[0]);
    bytes::put(out, 6, 2, w[1]);
}

fn put_head(w: &[u64; 137], out: &mut [u8])
    requires { 28 ≤ length out.old }
    ensures { out.new ≡ sets out.old 0 (head_of w.now) }
{
    put_start(w, out);
    put_words(&w[2..6], 1, out, 8);
    put_words(&w[6..8], 8, out, 12);
}

fn put_band(w: &[u64; 137], i: usize, out: &mut [u8])
    requires { (i < 8) × (band_from i + 50 ≤ length out.old) }
    ensures { out.new ≡ sets out.old (band_from i) (band_of w.now i) }
{
    let k = 8 + 8 * i;
    let a = 28 + 50 * i;
    put_words(&w[k..k + 2], 1, out, a);
    put_words(&w[k + 2..k + 8], 8, out, a + 2);
}

fn put_bands(w: &[u64; 137], n: usize, out: &mut [u8])
    requires { (n ≤ 8) × (band_from n ≤ length out.old) }
    ensures { out.new ≡ sets out.old 28 (parts (band_of w.now) n 0) }
{
    for i in 0..n {
        put_band(w, i, out);
    }
}

// The bytes of the words, with as many bands and points, at the start of an output.
pub(crate) fn put_bytes(w: &[u64; 137], bands: usize, points: usize, out: &mut [u8])
    requires { (bands ≤ 8) × (points ≤ 65) × (948 ≤ length out.old) }
    ensures { out.new ≡ sets out.old 0 (bytes_for w.now bands points) }
{
    put_head(w, out);
    put_bands(w, bands, out);
    put_words(&w[72..72 + points], 8, out, 28 + 50 * bands);
}
