//! Rows: what the entries of a record say of calls.

ghost use Rattle.std.specs.Prelude.{◌≡◌, IfSome, IsSome, Some, option_map, slice_get};
ghost use Rattle.std.specs.Option.{option_and_then};
ghost use Rattle.rulings.specs.Step.{is_granted};
ghost use Rattle.entry_bytes.specs.Brief.{admission_of, admitted_meant};
ghost use Rattle.entry_bytes.specs.Entry.{entry_told};
ghost use Rattle.entry_bytes.specs.EntryBytes.{entry_after, entry_in};
ghost use Rattle.entry_bytes.specs.ReadEntry.{entry_read};
ghost use Rattle.entry_bytes.specs.ReadEvent.{event_read};
ghost use Rattle.entry_bytes.specs.VerdictBytes.{admitted_in, registered_in};
ghost use Rattle.entry_bytes.specs.declared.verdicts.Verdict.TheVariants as VerdictMeant;
ghost use Rattle.decision_record.specs.Items.{MeansEntry};
ghost use Rattle.decision_record.specs.Past.{IsRightItem, item_row, numbered_row};
ghost use Rattle.decision_record.specs.Rows as Spec;

use crate::record::RELOAD;
use byte_log::ByteLog;
use call_rows::{AdmittedCall, AnsweredCall, CallEvent, CallRow};
use entry_bytes::{
    AdmittedTo, BriefEvent, ReadEntry, ReadEvent, Verdict, VerdictKind, read_entry, verdict_kind_of,
};
use field_bytes::Fields;
use gk_terms::{Dialled, Name, Units};
use rulings::{EventKind, Route};

/// The row of the item of this number, counted from 1.
pub(crate) fn numbered_row(log: &ByteLog, number: u32) -> Option<CallRow>
    requires { (place : _) → IfSome (slice_get log.now.items place) IsRightItem }
    ensures { result ≡ numbered_row log.now.items number }
{
    match number.checked_sub(1) {
        None => None,
        Some(place) => row_at(log, number, place as usize),
    }
}

/// The row of this number by the item at this place.
fn row_at(log: &ByteLog, number: u32, place: usize) -> Option<CallRow>
    requires { IfSome (slice_get log.now.items place) IsRightItem }
    ensures { result ≡ option_and_then (item_row number) (slice_get log.now.items place) }
{
    match log.get(place) {
        None => None,
        Some(item) => row_of_item(number, item),
    }
}

/// The row of this number by the entry that an item means.
fn row_of_item(number: u32, item: &[u8]) -> Option<CallRow>
    requires { IsRightItem item.now }
    ensures { result ≡ item_row number item.now }
{
    match item {
        [RELOAD, ..] => None,
        [_, ..] => row_of_bytes(number, item),
        [] => None,
    }
}

#[tactic(auto, unfolding(entry_bytes::specs::VerdictBytes::verdict_in, entry_bytes::specs::VerdictBytes::verdict_at), using(crate::proofs::RowlessLemmas::no_row_of_kind))]
/// The row of this number by the entry that these bytes are: that an admission was routed, that an
/// answer opened a call or was refused for a limit, that a bandwidth change was granted, or that a
/// call was released. Most entries are admissions and releases that were granted: of these, a text
/// is tried but once, as it is copied. A refusal that has no row, or a registration, is not read
/// whole.
fn row_of_bytes(number: u32, item: &[u8]) -> Option<CallRow>
    requires { MeansEntry (entry_in item.now) }
    ensures { result ≡ option_and_then (Spec.entry_row number) (entry_in item.now) }
{
    let mut fields = Fields::of(item);
    let Some(code) = fields.byte() else {
        return None;
    };
    match verdict_kind_of(code) {
        Some(VerdictKind::Admitted) => row_of_admitted(number, item, &mut fields),
        Some(VerdictKind::Released) => row_of_released(number, item, &mut fields),
        Some(VerdictKind::Registered) => row_of_registered(number, item, &mut fields),
        Some(kind) if is_rowless(kind) => None,
        _ => row_of_any(number, item),
    }
}

/// Whether no entry whose verdict is of this kind has a row.
fn is_rowless(kind: VerdictKind) -> bool
    ensures { result ≡ Spec.is_rowless kind }
{
    matches!(
        kind,
        VerdictKind::RegisterRefused
            | VerdictKind::UnregisterRefused
            | VerdictKind::CallerNotRegistered
            | VerdictKind::CallOpen
            | VerdictKind::ChangeRefused
            | VerdictKind::ReleaseRefused
    )
}

#[tactic(auto, using(crate::proofs::EntryLemmas::verdict_known, crate::proofs::EntryLemmas::event_after, crate::proofs::RowLemmas::admission_known, crate::proofs::RowLemmas::admitted_row))]
/// The same of what was admitted, after the kind of its verdict.
fn row_of_admitted(number: u32, item: &[u8], fields: &mut Fields<'_>) -> Option<CallRow>
    requires known { MeansEntry (entry_in item.now) }
    requires same { entry_in item.now ≡ entry_after (admitted_in fields.old) }
    ensures { result ≡ option_and_then (Spec.entry_row number) (entry_in item.now) }
{
    let led = &AdmittedTo::read(fields);
    let asked = &BriefEvent::read(fields);
    match asked.kind {
        EventKind::Admission => row_of_call(number, led, asked, fields),
        _ => row_of_any(number, item),
    }
}

#[tactic(auto, using(crate::proofs::RowLemmas::digits_there, crate::proofs::RowLemmas::row_made))]
/// The same of the admission that asks this, whose digits are still to be read.
fn row_of_call(
    number: u32,
    led: &AdmittedTo<'_>,
    asked: &BriefEvent<'_>,
    fields: &mut Fields<'_>,
) -> Option<CallRow>
    requires { IsSome (admission_of asked.now fields.old) }
    ensures { result ≡ option_and_then (Spec.entry_row number) (option_map
        (λ event. entry_told event (admitted_meant led.now)) (admission_of asked.now fields.old)) }
{
    let Some(digits) = fields.dialled() else {
        unreachable!();
    };
    CallRow::new(
        number,
        CallEvent::Admitted(AdmittedCall {
            call: asked.number(),
            zone: led.zone.name(),
            digits,
            units: asked.units,
            granted: true,
            route: Route::To(led.kind.destination(&led.name.name(), led.address)),
        }),
    )
}

#[tactic(auto, using(crate::proofs::EntryLemmas::event_known, crate::proofs::RowLemmas::released_row))]
/// The same of what was released, after the kind of its verdict.
fn row_of_released(number: u32, item: &[u8], fields: &mut Fields<'_>) -> Option<CallRow>
    requires known { MeansEntry (entry_in item.now) }
    requires same { entry_in item.now
        ≡ entry_after (Some (VerdictMeant.Released, fields.old)) }
    ensures { result ≡ option_and_then (Spec.entry_row number) (entry_in item.now) }
{
    let asked = &BriefEvent::read(fields);
    match asked.kind {
        EventKind::Release => row_of_release(number, asked.number()),
        _ => row_of_any(number, item),
    }
}

#[tactic(auto, using(crate::proofs::EntryLemmas::verdict_known, crate::proofs::EntryLemmas::zone_known, crate::proofs::EntryLemmas::event_after, crate::proofs::RowlessLemmas::no_row_of_registration))]
/// The same of an endpoint that was registered, after the kind of its verdict.
fn row_of_registered(number: u32, item: &[u8], fields: &mut Fields<'_>) -> Option<CallRow>
    requires known { MeansEntry (entry_in item.now) }
    requires same { entry_in item.now ≡ entry_after (registered_in fields.old) }
    ensures { result ≡ option_and_then (Spec.entry_row number) (entry_in item.now) }
{
    let _zone = fields.known_name();
    match BriefEvent::read(fields).kind {
        EventKind::Registration => None,
        _ => row_of_any(number, item),
    }
}

#[tactic(auto, using(crate::proofs::RowLemmas::row_made))]
/// The row of this number that says that a call was released.
fn row_of_release(number: u32, call: u32) -> Option<CallRow>
    ensures { result ≡ Spec.row_of number (CallEvent.Released call) }
{
    CallRow::new(number, CallEvent::Released { call })
}

#[tactic(auto, using(crate::proofs::EntryLemmas::right_if_any))]
/// The same of an entry that is read whole.
fn row_of_any(number: u32, item: &[u8]) -> Option<CallRow>
    requires { MeansEntry (entry_in item.now) }
    ensures { result ≡ option_and_then (Spec.entry_row number) (entry_in item.now) }
{
    match &read_entry(item) {
        None => None,
        Some(read) => row_of_read(number, read),
    }
}

/// The same of an entry that was read.
fn row_of_read(number: u32, read: &ReadEntry<'_>) -> Option<CallRow>
    ensures { result ≡ Spec.entry_row number (entry_read read.now) }
{
    row_of(number, &event_of_read(read))
}

#[tactic(auto, using(crate::proofs::RowLemmas::said_of_read))]
/// What an entry that was read says of a call.
fn event_of_read(read: &ReadEntry<'_>) -> Option<CallEvent>
    ensures { result ≡ Spec.call_event (entry_read read.now) }
{
    said_by(read)
}

/// What the event of the entry says of a call, with what else the entry tells.
fn said_by(read: &ReadEntry<'_>) -> Option<CallEvent>
    ensures { result ≡ Spec.event_said (event_read read.now.event) (entry_read read.now).reply
        (entry_read read.now).zone (entry_read read.now).route (entry_read read.now).opened }
{
    match &read.event {
        ReadEvent::Admit {
            call,
            digits,
            units,
            ..
        } => routed(
            *call,
            digits,
            *units,
            is_routed_grant(read),
            &read.zone(),
            &read.route(),
        ),
        ReadEvent::Incoming { call, units, .. } => answered(
            *call,
            *units,
            is_answered_grant(read),
            &read.zone(),
            &read.route(),
        ),
        ReadEvent::Change { call, units, .. } => changed(*call, *units, read),
        ReadEvent::Release { call, .. } => released(*call, read),
        ReadEvent::Register(_) | ReadEvent::Unregister { .. } => None,
    }
}

/// Whether a routed admission was granted; none of an admission that was refused for another cause
/// than its route or a limit.
fn is_routed_grant(read: &ReadEntry<'_>) -> Option<bool>
    ensures { result ≡ Spec.routed_verdict (entry_read read.now).reply }
{
    match &read.verdict {
        Verdict::Admitted { .. } | Verdict::Answering { .. } | Verdict::Repeated { .. } => {
            Some(true)
        }
        Verdict::NoRoute { .. } | Verdict::OverLimit { .. } => Some(false),
        _ => None,
    }
}

/// Whether an answer to a call that was not open was granted; none of an answer that was refused
/// for another cause than a limit, or that opened no call.
fn is_answered_grant(read: &ReadEntry<'_>) -> Option<bool>
    ensures { result ≡ Spec.answered_verdict (entry_read read.now).reply
        (entry_read read.now).opened }
{
    match &read.verdict {
        Verdict::Admitted { .. } | Verdict::Answering { .. } => Some(true),
        Verdict::OverLimit { .. } => Some(false),
        _ => None,
    }
}

/// Whether what was asked was granted.
fn is_grant(read: &ReadEntry<'_>) -> bool
    ensures { result ≡ is_granted (entry_read read.now).reply }
{
    matches!(
        &read.verdict,
        Verdict::Registered { .. }
            | Verdict::Unregistered
            | Verdict::Admitted { .. }
            | Verdict::Answering { .. }
            | Verdict::Repeated { .. }
            | Verdict::Changed
            | Verdict::Released
            | Verdict::Reloaded { .. }
    )
}

/// That an admission was routed, with the zone of its caller and its route.
fn routed(
    call: u32,
    digits: &Dialled,
    units: Units,
    verdict: Option<bool>,
    zone: &Option<Name>,
    route: &Option<Route>,
) -> Option<CallEvent>
    ensures { result
        ≡ Spec.routed_event call digits.now units verdict zone.now route.now }
{
    let granted = verdict?;
    match zone {
        None => None,
        Some(zone) => match route {
            None => None,
            Some(route) => Some(CallEvent::Admitted(AdmittedCall {
                call,
                zone: *zone,
                digits: *digits,
                units,
                granted,
                route: *route,
            })),
        },
    }
}

/// That a call was answered, with the zone of the endpoint and its route.
fn answered(
    call: u32,
    units: Units,
    verdict: Option<bool>,
    zone: &Option<Name>,
    route: &Option<Route>,
) -> Option<CallEvent>
    ensures { result ≡ Spec.answered_event call units verdict zone.now route.now }
{
    let granted = verdict?;
    match zone {
        None => None,
        Some(zone) => match route {
            None => None,
            Some(route) => Some(CallEvent::Answered(AnsweredCall {
                call,
                zone: *zone,
                units,
                granted,
                route: *route,
            })),
        },
    }
}

/// That a bandwidth change was granted, if it was.
fn changed(call: u32, units: Units, read: &ReadEntry<'_>) -> Option<CallEvent>
    ensures { result ≡ Spec.if_granted (entry_read read.now).reply (CallEvent.Changed call units) }
{
    if is_grant(read) {
        Some(CallEvent::Changed { call, units })
    } else {
        None
    }
}

/// That a call was released, if it was.
fn released(call: u32, read: &ReadEntry<'_>) -> Option<CallEvent>
    ensures { result ≡ Spec.if_granted (entry_read read.now).reply (CallEvent.Released call) }
{
    if is_grant(read) {
        Some(CallEvent::Released { call })
    } else {
        None
    }
}

/// The row of this number that says this, if something is said and it is a row.
fn row_of(number: u32, said: &Option<CallEvent>) -> Option<CallRow>
    ensures { result ≡ option_and_then (Spec.row_of number) said.now }
{
    match said {
        None => None,
        Some(event) => row_saying(number, event),
    }
}

#[tactic(auto, using(crate::proofs::RowLemmas::row_made))]
/// The row of this number that says this, if it is one.
fn row_saying(number: u32, event: &CallEvent) -> Option<CallRow>
    ensures { result ≡ Spec.row_of number event.now }
{
    CallRow::new(number, *event)
}
