//! How many bytes fields take.

ghost use Rattle.std.specs.Prelude.{◌≡◌, ◌≤◌, length};
ghost use Rattle.field_bytes.specs.Fields.{address_bytes, text_bytes};

use gk_terms::{Address, Dialled, Name};

/// Those of a number.
pub const NUMBER_BYTES: usize = 4;

/// Those of a name, with its length.
pub fn size_of_name(name: &Name) -> usize
    ensures value { result ≡ length (text_bytes name.now) }
    ensures most { result ≤ 129 }
{
    1 + name.as_bytes().len()
}

/// Those of dialled digits, with how many they are.
pub fn size_of_dialled(digits: &Dialled) -> usize
    ensures value { result ≡ length (text_bytes digits.now) }
    ensures most { result ≤ 33 }
{
    1 + digits.as_bytes().len()
}

/// Those of an address.
pub fn size_of_address(address: Address) -> usize
    ensures value { result ≡ length (address_bytes address) }
    ensures most { result ≤ 6 }
{
    address.ip().len() + 2
}
