//! The characters that may be dialled.

ghost use Rattle.std.specs.Prelude.{◌≡◌, slice_get};
ghost use Rattle.difference_counts.specs.Places.{has_at};

/// How many there are.
pub(crate) const CHARACTER_COUNT: usize = 12;

/// The characters that may be dialled.
pub(crate) const CHARACTERS: [u8; CHARACTER_COUNT] = *b"0123456789#*";

/// Whether a text has this character at a place.
pub(crate) fn has_at(text: &[u8], place: usize, character: u8) -> bool
    ensures { result ≡ has_at place character text.now }
{
    match byte_at(text, place) {
        Some(byte) => byte == character,
        None => false,
    }
}

/// The character at a place.
fn byte_at(text: &[u8], place: usize) -> Option<u8>
    ensures { result ≡ slice_get text.now place }
{
    text.get(place).copied()
}
