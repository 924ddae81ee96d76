//! A record of a call file, as a row.

ghost use Rattle.std.specs.Prelude.{◌≡◌, ◌≤◌};
ghost use Rattle.std.specs.List.{list_all};
ghost use Rattle.std.specs.Str.{is_utf8};
ghost use Rattle.csv.specs.Records.{fields_of};
ghost use Rattle.call_files.specs.Rows as Spec;

use crate::faults::CallsFaultKind;
use crate::route_texts::read_route;
use call_rows::{AdmittedCall, AnsweredCall, CallEvent, CallRow};
use csv::ByteRecord;
use gk_terms::{Dialled, Name, Units, read_number};
use rulings::{Destination, Route};
use std::str;

/// How many fields a row has.
const FIELDS: usize = 8;

/// Whether a record is the header.
pub(crate) fn is_header(fields: &ByteRecord) -> bool
    ensures { result ≡ Spec.is_header (fields_of fields.now) }
{
    fields.len() == FIELDS
        && is_at(fields, 0, b"number")
        && is_at(fields, 1, b"event")
        && is_at(fields, 2, b"call")
        && is_at(fields, 3, b"zone")
        && is_at(fields, 4, b"digits")
        && is_at(fields, 5, b"units")
        && is_at(fields, 6, b"granted")
        && is_at(fields, 7, b"route")
}

/// The row that a record says. `BadRow` unless it has eight fields that are UTF-8, then `BadField`.
pub(crate) fn row_in(fields: &ByteRecord) -> Result<CallRow, CallsFaultKind>
    ensures { result ≡ Spec.row_in (fields_of fields.now) }
{
    if !is_whole(fields) {
        return Err(CallsFaultKind::BadRow);
    }
    let number = counted_at(fields, 0)?;
    let event = event_in(fields)?;
    match CallRow::new(number, event) {
        Some(row) => Ok(row),
        None => Err(CallsFaultKind::BadField),
    }
}

/// Whether a record has eight fields, each of which is UTF-8.
fn is_whole(fields: &ByteRecord) -> bool
    ensures { result ≡ Spec.is_whole (fields_of fields.now) }
{
    fields.len() == FIELDS && are_utf8(fields)
}

#[tactic(auto, using(crate::proofs::FieldLemmas::text_more, crate::proofs::FieldLemmas::text_lacking))]
/// Whether each field is UTF-8.
fn are_utf8(fields: &ByteRecord) -> bool
    ensures { result ≡ list_all is_utf8 (fields_of fields.now) }
{
    for place in 0..fields.len() {
        if !is_utf8(text_at(fields, place)) {
            return false;
        }
    }
    true
}

/// Whether bytes are UTF-8.
fn is_utf8(bytes: &[u8]) -> bool
    ensures { result ≡ is_utf8 bytes.now }
{
    match str::from_utf8(bytes) {
        Ok(_) => true,
        Err(_) => false,
    }
}

/// The field at a place, empty if there is none.
fn text_at(fields: &ByteRecord, place: usize) -> &[u8]
    ensures { result.now ≡ Spec.text_at (fields_of fields.now) place }
{
    match fields.get(place) {
        Some(text) => text,
        None => &[],
    }
}

/// Whether the field at a place is this text.
fn is_at(fields: &ByteRecord, place: usize, text: &[u8]) -> bool
    ensures { result ≡ Spec.is_text_at (fields_of fields.now) place text.now }
{
    text_at(fields, place) == text
}

/// Whether the field at a place is empty.
fn is_empty_at(fields: &ByteRecord, place: usize) -> bool
    ensures { result ≡ Spec.is_empty_at (fields_of fields.now) place }
{
    text_at(fields, place).is_empty()
}

/// The number at a place, from 1 on: that of an entry, or of a call.
fn counted_at(fields: &ByteRecord, place: usize) -> Result<u32, CallsFaultKind>
    ensures { result ≡ Spec.counted_at (fields_of fields.now) place }
{
    read_number(text_at(fields, place), 1, u32::MAX).map_err(|_| CallsFaultKind::BadField)
}

/// What the row says: an admission, the answer to a call, a change or a release.
fn event_in(fields: &ByteRecord) -> Result<CallEvent, CallsFaultKind>
    ensures { result ≡ Spec.event_in (fields_of fields.now) }
{
    if is_at(fields, 1, b"ARQ") {
        return admitted_in(fields);
    }
    if is_at(fields, 1, b"BRQ") {
        return changed_in(fields);
    }
    if is_at(fields, 1, b"DRQ") {
        return released_in(fields);
    }
    if is_at(fields, 1, b"ANS") {
        return answered_in(fields);
    }
    Err(CallsFaultKind::BadField)
}

/// An admission that was routed.
fn admitted_in(fields: &ByteRecord) -> Result<CallEvent, CallsFaultKind>
    ensures { result ≡ Spec.admitted_in (fields_of fields.now) }
{
    let call = counted_at(fields, 2)?;
    let zone = zone_in(fields)?;
    let digits = digits_in(fields)?;
    let units = units_in(fields)?;
    let granted = granted_in(fields)?;
    let route = route_in(fields)?;
    Ok(CallEvent::Admitted(AdmittedCall {
        call,
        zone,
        digits,
        units,
        granted,
        route,
    }))
}

/// The answer to a call, which has no digits.
fn answered_in(fields: &ByteRecord) -> Result<CallEvent, CallsFaultKind>
    ensures { result ≡ Spec.answered_in (fields_of fields.now) }
{
    let call = counted_at(fields, 2)?;
    let zone = zone_in(fields)?;
    if !is_empty_at(fields, 4) {
        return Err(CallsFaultKind::BadField);
    }
    let units = units_in(fields)?;
    let granted = granted_in(fields)?;
    let route = route_in(fields)?;
    Ok(CallEvent::Answered(AnsweredCall {
        call,
        zone,
        units,
        granted,
        route,
    }))
}

/// A change, which has no zone, digits, answer or route.
fn changed_in(fields: &ByteRecord) -> Result<CallEvent, CallsFaultKind>
    ensures { result ≡ Spec.changed_in (fields_of fields.now) }
{
    let call = counted_at(fields, 2)?;
    let units = units_in(fields)?;
    let others_empty = is_empty_at(fields, 3)
        && is_empty_at(fields, 4)
        && is_empty_at(fields, 6)
        && is_empty_at(fields, 7);
    if !others_empty {
        return Err(CallsFaultKind::BadField);
    }
    Ok(CallEvent::Changed { call, units })
}

/// A release, which has no units either.
fn released_in(fields: &ByteRecord) -> Result<CallEvent, CallsFaultKind>
    ensures { result ≡ Spec.released_in (fields_of fields.now) }
{
    let call = counted_at(fields, 2)?;
    let others_empty = is_empty_at(fields, 3)
        && is_empty_at(fields, 4)
        && is_empty_at(fields, 5)
        && is_empty_at(fields, 6)
        && is_empty_at(fields, 7);
    if !others_empty {
        return Err(CallsFaultKind::BadField);
    }
    Ok(CallEvent::Released { call })
}

/// The zone of the endpoint that asked.
fn zone_in(fields: &ByteRecord) -> Result<Name, CallsFaultKind>
    ensures { result ≡ Spec.zone_in (fields_of fields.now) }
{
    Name::read(text_at(fields, 3)).map_err(|_| CallsFaultKind::BadField)
}

/// What was dialled.
fn digits_in(fields: &ByteRecord) -> Result<Dialled, CallsFaultKind>
    ensures { result ≡ Spec.digits_in (fields_of fields.now) }
{
    Dialled::read(text_at(fields, 4)).map_err(|_| CallsFaultKind::BadField)
}

/// The bandwidth, in units of 100 bit/s.
fn units_in(fields: &ByteRecord) -> Result<Units, CallsFaultKind>
    ensures { result ≡ Spec.units_in (fields_of fields.now) }
{
    let units = read_number(text_at(fields, 5), 0, u32::MAX);
    match units {
        Ok(units) => Ok(Units::new(units)),
        Err(_) => Err(CallsFaultKind::BadField),
    }
}

/// Whether the admission was granted.
fn granted_in(fields: &ByteRecord) -> Result<bool, CallsFaultKind>
    ensures { result ≡ Spec.granted_in (fields_of fields.now) }
{
    if is_at(fields, 6, b"yes") {
        return Ok(true);
    }
    if is_at(fields, 6, b"no") {
        return Ok(false);
    }
    Err(CallsFaultKind::BadField)
}

/// Where the digits led, or which endpoint answered.
fn route_in(fields: &ByteRecord) -> Result<Route, CallsFaultKind>
    ensures { result ≡ Spec.route_in (fields_of fields.now) }
{
    match read_route(text_at(fields, 7)) {
        Some(route) => Ok(route),
        None => Err(CallsFaultKind::BadField),
    }
}
