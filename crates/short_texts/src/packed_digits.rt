//! Dialled digits in 16 bytes, as the record keeps them.

ghost use Rattle.std.specs.Prelude.{◌≡◌, ◌<◌, ◌≤◌, ◌+◌, ◌*◌, true, length, slice_get, Some};
ghost use Rattle.std.specs.List.{list_all};
ghost use Rattle.gk_terms.specs.Dialled.{IsDialled, is_dialled_byte};
ghost use Rattle.short_texts.specs.PackedDigits as Spec;

use gk_terms::Dialled;
use gk_terms::limits::MOST_DIALLED;
use std::marker::Model;

/// How many bytes hold the longest dialled digits.
const BYTES: usize = 16;

/// Dialled digits, two characters in each byte, the first of them in its low bits: 1 to 10 is a
/// digit, 11 the hash sign, 12 the star, and 0 comes after the last one. A contract sees the text.
#[derive(Clone, Copy)]
pub struct PackedDigits {
    bytes: [u8; BYTES],
}

impl Model for PackedDigits {
    ghost use Rattle.std.specs.Prelude.{ℕ, List};
    ghost use Rattle.short_texts.specs.PackedDigits.{ArePacked, packed, unpacked};

    ghost Value = { List ℕ };

    ghost view = { λ d. unpacked d.bytes };

    ghost invariant = { λ d. ArePacked d.bytes };

    ghost inverse = { λ text. record { bytes = packed text } };

    ghost inverse_ok = { λ d h i. record { bytes = h.back i } };
}

impl PackedDigits {
    /// The same digits.
    pub fn of(digits: &Dialled) -> PackedDigits
        ensures { result ≡ digits.now }
    {
        PackedDigits {
            bytes: packed(digits.as_bytes()),
        }
    }

    /// The digits.
    pub fn digits(&self) -> Dialled
        ensures { result ≡ self.now }
    {
        unpacked(&self.bytes)
    }
}

/// The digits that the bytes say.
fn unpacked(bytes: &[u8]) -> Dialled
    requires size { length bytes.now ≡ 16 }
    requires digits { IsDialled (Spec.unpacked bytes.now) }
    ensures { result ≡ Spec.unpacked bytes.now }
{
    let mut text = [0; MOST_DIALLED];
    for place in 0..MOST_DIALLED {
        match character_at(bytes, place) {
            Some(character) => text[place] = character,
            None => return dialled(&text[..place]),
        }
    }
    dialled(&text)
}

/// The text as digits.
fn dialled(text: &[u8]) -> Dialled
    requires { IsDialled text.now }
    ensures { result ≡ text.now }
{
    match Dialled::read(text) {
        Ok(digits) => digits,
        Err(_) => unreachable!(),
    }
}

/// The characters, two in each byte, and zeros after them.
fn packed(text: &[u8]) -> [u8; BYTES]
    requires dialled { list_all is_dialled_byte text.now ≡ true }
    requires fits { length text.now ≤ 32 }
    ensures { result ≡ Spec.packed text.now }
{
    let mut bytes = [0; BYTES];
    for place in 0..text.len().div_ceil(2) {
        bytes[place] = pair_at(text, place);
    }
    bytes
}

/// The byte at this place.
fn pair_at(text: &[u8], place: usize) -> u8
    requires dialled { list_all is_dialled_byte text.now ≡ true }
    requires within { 2 * place < length text.now }
    ensures { slice_get (Spec.pairs_of text.now) place ≡ Some result }
{
    let low = nibble(text[2 * place]);
    match text.get(2 * place + 1) {
        Some(second) => low + 16 * nibble(*second),
        None => low,
    }
}

/// A character as 4 bits.
fn nibble(character: u8) -> u8
    requires { is_dialled_byte character ≡ true }
    ensures value { result ≡ Spec.nibble_of character }
    ensures small { result ≤ 12 }
{
    match character {
        b'#' => 11,
        b'*' => 12,
        digit => digit - 47,
    }
}

/// The character at this place, or nothing after the last one.
fn character_at(bytes: &[u8], place: usize) -> Option<u8>
    requires within { place < 2 * length bytes.now }
    requires after { place ≤ length (Spec.unpacked bytes.now) }
    ensures { slice_get (Spec.unpacked bytes.now) place ≡ result }
{
    let byte = bytes[place / 2];
    if place % 2 == 0 {
        character_in(byte % 16)
    } else {
        character_in(byte / 16)
    }
}

/// The character that 4 bits say, if they say one.
fn character_in(nibble: u8) -> Option<u8>
    requires { nibble < 16 }
    ensures { result ≡ Spec.character_in nibble }
{
    match nibble {
        0 => None,
        11 => Some(b'#'),
        12 => Some(b'*'),
        digit => Some(digit + 47),
    }
}
