ghost use Rattle.std.specs.Prelude.{◌≡◌, ◌+◌, ◌^◌, ◌<◌, ◌≤◌, length, get_or};
ghost use Rattle.std.proofs.lemmas.List.Edits.{sets};
ghost use Rattle.image.specs.Bytes.{bytes_of, number_at};

fn byte_at(s: &[u8], i: usize) -> u64
    ensures { (result ≡ get_or s.now i 0) × (result < 256) }
{
    u64::from(s.get(i).copied().unwrap_or(0))
}

// The number in the k bytes from i on, the lowest first; bytes past the end are zero.
pub(crate) fn number_at(s: &[u8], i: usize, k: usize) -> u64
    requires { (i < 100000) × (k ≤ 8) }
    ensures { (result ≡ number_at s.now i k) × (result < 256 ^ k) }
{
    let mut n = 0;
    for j in (i..i + k).rev() {
        n = 256 * n + byte_at(s, j);
    }
    n
}

// The k lowest bytes of a number, written from i on.
pub(crate) fn put(out: &mut [u8], i: usize, k: usize, n: u64)
    requires { (i + k ≤ length out.old) × (k ≤ 8) }
    ensures { out.new ≡ sets out.old i (bytes_of k n) }
{
    out[i..i + k].copy_from_slice(&n.to_le_bytes()[..k]);
}
