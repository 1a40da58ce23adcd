ghost use Rattle.std.specs.Prelude.{◌≡◌, ◌++◌};

// The words of the head, of the bands and of the points, one behind the other.
pub fn join(head: [u64; 8], bands: [u64; 64], points: [u64; 65]) -> [u64; 137]
    ensures { result ≡ head ++ (bands ++ points) }
{
    let mut words = [0; 137];
    words[..8].copy_from_slice(&head);
    words[8..72].copy_from_slice(&bands);
    words[72..].copy_from_slice(&points);
    words
}
