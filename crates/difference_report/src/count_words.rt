//! How many numbers a set has, in words.

ghost use Rattle.std.specs.Prelude.{◌≡◌, ◌++◌, ◌≤◌, OnOk, length};
ghost use Rattle.difference_report.specs.CountWords as Spec;

use crate::texts::add_number;
use itoa::Buffer;
use std::alloc::AllocError;

/// Adds how many numbers a set has: exactly below 10^12, with a comma before each three digits; else
/// in two digits, rounded to the nearest, half up.
pub fn add_count(text: &mut Vec<u8>, count: u128) -> Result<(), AllocError>
    ensures { OnOk result (text.new.items ≡ text.old.items ++ Spec.count_words count) }
{
    let mut digits = Buffer::new();
    add_count_by(text, digits.format(count).as_bytes())
}

/// Adds exactly how many numbers there are, with a comma before each three digits.
pub fn add_numbers(text: &mut Vec<u8>, count: u128) -> Result<(), AllocError>
    ensures { OnOk result (text.new.items ≡ text.old.items ++ Spec.numbers_words count) }
{
    let mut digits = Buffer::new();
    add_commaed(text, digits.format(count).as_bytes())?;
    if count == 1 {
        text.extend_from_slice(b" number")
    } else {
        text.extend_from_slice(b" numbers")
    }
}

/// Adds a number by its decimal digits.
fn add_count_by(text: &mut Vec<u8>, digits: &[u8]) -> Result<(), AllocError>
    requires { length digits.now ≤ 40 }
    ensures { OnOk result (text.new.items ≡ text.old.items ++ Spec.count_by digits.now) }
{
    if digits.len() > 12 {
        add_about(text, digits)
    } else {
        add_commaed(text, digits)
    }
}

/// Adds a number in two digits.
fn add_about(text: &mut Vec<u8>, digits: &[u8]) -> Result<(), AllocError>
    requires { length digits.now ≤ 40 }
    ensures { OnOk result (text.new.items ≡ text.old.items ++ Spec.about digits.now) }
{
    match digits {
        [first, second, third, others @ ..] => {
            text.extend_from_slice(b"about ")?;
            add_scientific(text, rounded(*first, *second, *third), others.len() + 2)
        }
        _ => add_commaed(text, digits),
    }
}

/// The number of which these are the first three decimal digits, in two.
fn rounded(first: u8, second: u8, third: u8) -> usize
    ensures { result ≡ Spec.rounded first second third }
{
    let tens = (first as usize).saturating_sub(48) * 10;
    let ones = (second as usize).saturating_sub(48);
    let up = if third >= 53 { 1 } else { 0 };
    tens + ones + up
}

/// Adds two digits and the power of ten of the first.
fn add_scientific(text: &mut Vec<u8>, digits: usize, power: usize) -> Result<(), AllocError>
    requires { power ≤ 42 }
    ensures { OnOk result (text.new.items ≡ text.old.items ++ Spec.scientific digits power) }
{
    if digits == 100 {
        text.extend_from_slice(b"1.0e")?;
        return add_number(text, power + 1);
    }
    add_number(text, digits / 10)?;
    text.extend_from_slice(b".")?;
    add_number(text, digits % 10)?;
    text.extend_from_slice(b"e")?;
    add_number(text, power)
}

/// Adds digits with a comma before each three, counted from the end.
fn add_commaed(text: &mut Vec<u8>, digits: &[u8]) -> Result<(), AllocError>
    ensures { OnOk result (text.new.items ≡ text.old.items ++ Spec.commaed digits.now) }
{
    for place in 0..digits.len() {
        text.push(digits[place])?;
        let left = digits.len() - place - 1;
        if left != 0 && left % 3 == 0 {
            text.push(b',')?;
        }
    }
    Ok(())
}
