//! Numbers in decimal digits.

ghost use Rattle.std.specs.Prelude.{◌≡◌, ◌^◌, ◌<◌, IsTrue};
ghost use Rattle.std.specs.Option.{SomeIff, ok_or};
ghost use Rattle.std.specs.List.{list_all};
ghost use Rattle.std.specs.Char.{is_ascii_digit};
ghost use Rattle.gk_terms.specs.Number.{is_numeral, value_of, number_of};

use crate::faults::TermFault;

/// Reads a decimal number from `least` to `most`: digits without a sign, and without a leading zero
/// except in `0` itself. Any other text, and a number outside the range, is `BadNumber`. Takes no
/// memory.
pub fn read_number(text: &[u8], least: u32, most: u32) -> Result<u32, TermFault>
    ensures { result ≡ ok_or (number_of least most text.now) TermFault.BadNumber }
{
    match value_of_numeral(text) {
        Some(value) if least <= value && value <= most => Ok(value),
        _ => Err(TermFault::BadNumber),
    }
}

/// The value of a numeral: one or more digits, without a leading zero except in `0` itself. None
/// for any other text, and for a value of 2 ^ 32 or more.
fn value_of_numeral(text: &[u8]) -> Option<u32>
    ensures { SomeIff result (IsTrue (is_numeral text.now) × (value_of text.now < 2 ^ 32))
        (value_of text.now) }
{
    match text {
        [] | [b'0', _, ..] => None,
        digits => value_of(digits),
    }
}

#[tactic(auto, using(crate::proofs::Digits::one_digit_more))]
/// The value of a text of digits, 0 if it is empty. None if a byte is not a digit, and for a value
/// of 2 ^ 32 or more.
fn value_of(text: &[u8]) -> Option<u32>
    ensures { SomeIff result
        (IsTrue (list_all is_ascii_digit text.now) × (value_of text.now < 2 ^ 32))
        (value_of text.now) }
{
    let mut value: u64 = 0;
    for digit in text {
        if !digit.is_ascii_digit() {
            return None;
        }
        value = 10 * value + u64::from(*digit - b'0');
        if value > u64::from(u32::MAX) {
            return None;
        }
    }
    Some(value as u32)
}
