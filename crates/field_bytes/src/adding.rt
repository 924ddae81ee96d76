//! How fields are added to a vector of bytes, in room that it has. None of these takes memory.

ghost use Rattle.std.specs.Prelude.{◌<◌, ◌^◌, [], ◌∷◌, length};
ghost use Rattle.gk_terms.specs.Dialled.{IsDialled};
ghost use Rattle.gk_terms.specs.Name.{IsName};
ghost use Rattle.field_bytes.specs.Adding.{Adds, HasRoom};
ghost use Rattle.field_bytes.specs.Fields.{IsAddress, address_bytes, number_bytes, text_bytes};

use gk_terms::{Address, Dialled, Name, Units};
use std::alloc::AllocError;

/// Adds bytes.
fn add_all(bytes: &mut Vec<u8>, more: &[u8])
    requires { HasRoom bytes.old more.now }
    ensures { Adds bytes.old more.now bytes.new }
{
    let added: Result<(), AllocError> = bytes.extend_from_slice(more);
    let _ = added.unwrap();
}

/// Adds a byte.
pub fn add_byte(bytes: &mut Vec<u8>, byte: u8)
    requires { HasRoom bytes.old (byte ∷ []) }
    ensures { Adds bytes.old (byte ∷ []) bytes.new }
{
    bytes.push_reserved(byte);
}

/// Adds a number, in four bytes.
pub fn add_number(bytes: &mut Vec<u8>, number: u32)
    requires { HasRoom bytes.old (number_bytes number) }
    ensures added { Adds bytes.old (number_bytes number) bytes.new }
    ensures small { number < 2 ^ 32 }
{
    add_all(bytes, &number.to_le_bytes());
}

/// Adds a bandwidth in units of 100 bit/s, in four bytes.
pub fn add_units(bytes: &mut Vec<u8>, units: Units)
    requires { HasRoom bytes.old (number_bytes units) }
    ensures added { Adds bytes.old (number_bytes units) bytes.new }
    ensures small { units < 2 ^ 32 }
{
    add_number(bytes, units.value());
}

/// Adds a text of at most 255 bytes, after its length in one byte.
pub fn add_text(bytes: &mut Vec<u8>, text: &[u8])
    requires short { length text.now < 256 }
    requires room { HasRoom bytes.old (text_bytes text.now) }
    ensures { Adds bytes.old (text_bytes text.now) bytes.new }
{
    add_byte(bytes, text.len() as u8);
    add_all(bytes, text);
}

/// Adds a name, after its length.
pub fn add_name(bytes: &mut Vec<u8>, name: &Name)
    requires { HasRoom bytes.old (text_bytes name.now) }
    ensures added { Adds bytes.old (text_bytes name.now) bytes.new }
    ensures name { IsName name.now }
{
    add_text(bytes, name.as_bytes());
}

/// Adds dialled digits, after how many they are.
pub fn add_dialled(bytes: &mut Vec<u8>, digits: &Dialled)
    requires { HasRoom bytes.old (text_bytes digits.now) }
    ensures added { Adds bytes.old (text_bytes digits.now) bytes.new }
    ensures dialled { IsDialled digits.now }
{
    add_text(bytes, digits.as_bytes());
}

/// Adds an address, in six bytes: those of the IP address, and the port.
pub fn add_address(bytes: &mut Vec<u8>, address: Address)
    requires { HasRoom bytes.old (address_bytes address) }
    ensures added { Adds bytes.old (address_bytes address) bytes.new }
    ensures address { IsAddress address }
{
    add_all(bytes, &address.ip());
    add_all(bytes, &address.port().to_le_bytes());
}
