//! Pieces of a text that is made.

ghost use Rattle.std.specs.Prelude.{◌≡◌, ◌++◌, OnOk, decimal, replicate};
ghost use Rattle.plan_difference.specs.Walk.{text_of};

use gk_terms::TechPrefix;
use itoa::Buffer;
use std::alloc::AllocError;

/// Adds a byte so many times.
pub(crate) fn add_repeated(text: &mut Vec<u8>, byte: u8, count: usize) -> Result<(), AllocError>
    ensures { OnOk result (text.new.items ≡ text.old.items ++ replicate count byte) }
{
    for _i in 0..count {
        text.push(byte)?;
    }
    Ok(())
}

/// Adds a number.
pub(crate) fn add_number(text: &mut Vec<u8>, number: usize) -> Result<(), AllocError>
    ensures { OnOk result (text.new.items ≡ text.old.items ++ decimal number) }
{
    let mut digits = Buffer::new();
    text.extend_from_slice(digits.format(number as u64).as_bytes())
}

/// The text of a technology prefix; empty if there is none.
pub(crate) fn text_of(prefix: &Option<TechPrefix>) -> &[u8]
    ensures { result.now ≡ text_of prefix.now }
{
    match prefix {
        Some(prefix) => prefix.as_bytes(),
        None => b"",
    }
}
