//! Kinds of bytes, and texts whose bytes are all of one kind.

ghost use Rattle.std.specs.Prelude.{◌≡◌, ℕ, ◌≤◌, Bool, length, take};
ghost use Rattle.std.specs.List.{list_all};

/// A kind of byte. One byte, or eight together, can be tested for it.
pub(crate) trait ByteKind {
    /// What a contract sees of the kind.
    ghost is_of_kind: { ℕ → Bool };

    /// Whether the byte is of the kind.
    fn is_of_kind(byte: u8) -> bool
        ensures { result ≡ is_of_kind byte };

    /// Whether the first eight bytes are all of the kind.
    fn are_first_eight_of_kind(text: &[u8]) -> bool
        requires { 8 ≤ length text.now }
        ensures { result ≡ list_all is_of_kind (take 8 text.now) };
}

/// Whether all bytes of the text are of the kind. Eight are tested together: one at a time takes
/// several instructions for each. The last eight may overlap those before them.
pub(crate) fn are_all<K: ByteKind>(text: &[u8]) -> bool
    ensures { result ≡ list_all K.is_of_kind text.now }
{
    let len = text.len();
    if len < 8 {
        return text.iter().all(|byte| K::is_of_kind(*byte));
    }
    let mut at = 0;
    while len - at > 8 {
        if !K::are_first_eight_of_kind(&text[at..]) {
            return false;
        }
        at += 8;
    }
    K::are_first_eight_of_kind(&text[len - 8..])
}
