//! The fields of a line, for any type of faults.

ghost use Rattle.std.specs.Prelude.{◌≡◌, ◌≤◌, IfOk};
ghost use Rattle.gk_terms.specs.Text.{words_of};
ghost use Rattle.gk_terms.specs.Name.{name_of};
ghost use Rattle.gk_terms.specs.Dialled.{dialled_of};
ghost use Rattle.gk_terms.specs.Number.{number_of};
ghost use Rattle.gk_terms.specs.Address.{address_of};
ghost use Rattle.gk_terms.specs.Fields.{Gives, field, nothing_more};

use crate::addresses::Address;
use crate::dialled_digits::Dialled;
use crate::names::Name;
use crate::numbers::read_number;
use crate::words::Words;

/// A type of faults that has those of every line of fields.
pub trait FieldFault: Copy {
    /// The fault of a field that is absent.
    ghost missing: { Self };

    /// The fault of a word after the last field.
    ghost extra: { Self };

    /// The fault of a field that is absent.
    fn missing() -> Self
        ensures { result ≡ missing };

    /// The fault of a word after the last field.
    fn extra() -> Self
        ensures { result ≡ extra };
}

/// The next word as a name.
pub fn name_field<F: FieldFault>(words: &mut Words<'_>, bad: F) -> Result<Name, F>
    ensures { Gives (field F.missing name_of bad (words_of words.old)) result (words_of words.new) }
{
    let word = words.next().ok_or(F::missing())?;
    Name::read(word).map_err(|_| bad)
}

/// The next word as a number from `least` to `most`.
pub fn number_field<F: FieldFault>(
    words: &mut Words<'_>,
    least: u32,
    most: u32,
    bad: F,
) -> Result<u32, F>
    ensures value { Gives (field F.missing (number_of least most) bad (words_of words.old))
        result (words_of words.new) }
    ensures within { IfOk result (λ number. (least ≤ number) × (number ≤ most)) }
{
    let word = words.next().ok_or(F::missing())?;
    read_number(word, least, most).map_err(|_| bad)
}

/// The next word as dialled digits.
pub fn dialled_field<F: FieldFault>(words: &mut Words<'_>, bad: F) -> Result<Dialled, F>
    ensures { Gives (field F.missing dialled_of bad (words_of words.old))
        result (words_of words.new) }
{
    let word = words.next().ok_or(F::missing())?;
    Dialled::read(word).map_err(|_| bad)
}

/// The next word as `IP` or `IP:PORT`, at the default port if it gives none.
pub fn address_field<F: FieldFault>(
    words: &mut Words<'_>,
    default_port: u16,
    bad: F,
) -> Result<Address, F>
    requires { 1 ≤ default_port }
    ensures { Gives (field F.missing (address_of default_port) bad (words_of words.old))
        result (words_of words.new) }
{
    let word = words.next().ok_or(F::missing())?;
    Address::read(word, default_port).map_err(|_| bad)
}

/// The value, if no word comes after the last field.
pub fn nothing_more<T: Drop, F: FieldFault>(value: T, words: &mut Words<'_>) -> Result<T, F>
    ensures { result ≡ nothing_more F.extra value (words_of words.old) }
{
    match words.next() {
        None => Ok(value),
        Some(_) => Err(F::extra()),
    }
}
