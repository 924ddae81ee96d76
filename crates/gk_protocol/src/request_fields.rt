//! The fields that only requests have.

ghost use Rattle.std.specs.Prelude.{◌≡◌};
ghost use Rattle.gk_terms.specs.Fields.{Gives, nothing_more};
ghost use Rattle.gk_terms.specs.Text.{words_of};
ghost use Rattle.gk_protocol.specs.RequestFields as Spec;

use crate::request_faults::RequestFault;
use gk_terms::Units;
use gk_terms::fields::{nothing_more, number_field};
use gk_terms::limits::{MOST_LINES, MOST_SEQUENCE};
use gk_terms::words::Words;
use registry::EndpointKind;

/// The port of an address that gives none: that of H.225.0's call signalling.
pub const SIGNALLING_PORT: u16 = 1720;

/// The greatest count of workers that a request may ask for.
const MOST_ASKED_WORKERS: u32 = 65_535;

/// The next word as a sequence number, 1 to 65535.
pub fn sequence_field(words: &mut Words<'_>) -> Result<u32, RequestFault>
    ensures { Gives
        (Spec.field_at Spec.sequence_number_of RequestFault.BadSequence (words_of words.old)) result
        (words_of words.new) }
{
    number_field(words, 1, MOST_SEQUENCE, RequestFault::BadSequence)
}

/// The next word as a count of workers, 0 to 65535, whether so many may be had or not.
pub fn workers_field(words: &mut Words<'_>) -> Result<u32, RequestFault>
    ensures { Gives (Spec.field_at Spec.asked_workers_of RequestFault.BadNumber (words_of
        words.old)) result
        (words_of words.new) }
{
    number_field(words, 0, MOST_ASKED_WORKERS, RequestFault::BadNumber)
}

/// The next word as the kind of an endpoint, `GW` or `TERM`.
pub fn kind_field(words: &mut Words<'_>) -> Result<EndpointKind, RequestFault>
    ensures { Gives (Spec.field_at Spec.endpoint_kind_of RequestFault.BadOption (words_of
        words.old)) result
        (words_of words.new) }
{
    match words.next() {
        None => Err(RequestFault::Missing),
        Some(b"GW") => Ok(EndpointKind::Gateway),
        Some(b"TERM") => Ok(EndpointKind::Terminal),
        Some(_) => Err(RequestFault::BadOption),
    }
}

/// The next word as the number of a call, 1 to 4294967295.
pub fn call_field(words: &mut Words<'_>) -> Result<u32, RequestFault>
    ensures { Gives (Spec.field_at Spec.asked_call_of RequestFault.BadNumber (words_of words.old))
        result
        (words_of words.new) }
{
    number_field(words, 1, u32::MAX, RequestFault::BadNumber)
}

/// The next word as bandwidth in units of 100 bit/s, 0 to 4294967295.
pub fn units_field(words: &mut Words<'_>) -> Result<Units, RequestFault>
    ensures { Gives (Spec.field_at Spec.asked_units_of RequestFault.BadNumber (words_of words.old))
        result
        (words_of words.new) }
{
    let units = number_field(words, 0, u32::MAX, RequestFault::BadNumber)?;
    Ok(Units::new(units))
}

/// The next word as a count of the lines that belong to a request, 0 to 20,000.
pub fn count_field(words: &mut Words<'_>) -> Result<u32, RequestFault>
    ensures { Gives (Spec.field_at Spec.owned_count_of RequestFault.BadNumber (words_of words.old))
        result
        (words_of words.new) }
{
    number_field(words, 0, MOST_LINES as u32, RequestFault::BadNumber)
}

/// The value of the last field, if no word comes after it.
pub fn nothing_after<T: Drop>(value: T, words: &mut Words<'_>) -> Result<T, RequestFault>
    ensures { result ≡ nothing_more RequestFault.Extra value (words_of words.old) }
{
    nothing_more(value, words)
}
