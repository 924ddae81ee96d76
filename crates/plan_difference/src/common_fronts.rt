//! What two texts have in common.

ghost use Rattle.std.specs.Prelude.{◌≡◌, ◌≤◌, take, true, slice_get};

use gk_terms::limits::MOST_DIALLED;

/// How many characters two texts have in common from the first on, up to 32.
pub(crate) fn common_length(text: &[u8], other: &[u8]) -> usize
    ensures same { take result text.now ≡ take result other.now }
    ensures few { result ≤ 32 }
{
    for place in 0..MOST_DIALLED {
        if !is_same_at(text, other, place) {
            return place;
        }
    }
    MOST_DIALLED
}

/// Whether two texts have the same character at a place, or both have none.
fn is_same_at(text: &[u8], other: &[u8], place: usize) -> bool
    ensures { result ≡ true → slice_get text.now place ≡ slice_get other.now place }
{
    match text.get(place) {
        Some(byte) => match other.get(place) {
            Some(character) => *byte == *character,
            None => false,
        },
        None => other.get(place).is_none(),
    }
}
