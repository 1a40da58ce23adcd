// How a case comes out. pm-remez fails where document 01 refuses, or goes on where 01 has a difference (docs/DIFFERENCES.md).
#[derive(Clone, Copy)]
pub(crate) enum Judged {
    // pm-remez's very bits.
    Same,
    // Refused here, and failed there.
    Refused,
    // A known difference.
    Known,
}

// Whether pm-remez failed by that name.
pub(crate) fn is_failure(s: &[u8], at: usize, name: &[u8]) -> bool {
    cases::is_word(s, at, b"failed") && cases::is_word(s, cases::past(s, at), name)
}
