//! Whether a receipt is that of an entry, which is looked at where it stands.

ghost use Rattle.std.specs.Prelude.{◌≡◌, ◌↔◌, Some, true, option_map};
ghost use Rattle.entry_bytes.specs.Entry.{asked_id};
ghost use Rattle.entry_bytes.specs.EntryBytes.{entry_after, entry_in};
ghost use Rattle.entry_bytes.specs.ReadEntry.{entry_read};
ghost use Rattle.entry_bytes.specs.ReadEvent.{event_read};
ghost use Rattle.entry_bytes.specs.VerdictBytes.{admitted_in, registered_in};
ghost use Rattle.entry_bytes.specs.declared.verdicts.Verdict.TheVariants as Verdict;
ghost use Rattle.decision_record.specs.History.{IsOfAsked, IsOfEvent, receipt_of};
ghost use Rattle.decision_record.specs.Items.{MeansEntry};

use crate::entries::{Receipt, call_of, kind_of};
use entry_bytes::{
    AdmittedTo, BriefEvent, ReadEntry, ReadEvent, VerdictKind, is_admitted, is_changed,
    is_registered, is_released, read_entry, verdict_kind_of,
};
use field_bytes::{Fields, NameText};
use gk_terms::Name;
use rulings::Reply;

#[tactic(auto, unfolding(entry_bytes::specs::VerdictBytes::verdict_in, entry_bytes::specs::VerdictBytes::verdict_at))]
/// Whether the receipt is that of the entry that these bytes are, if that has its number. Most
/// entries are grants: of these no text is tried as it is read, but of those of answers and
/// unregistrations.
pub(crate) fn is_of_bytes(item: &[u8], receipt: &Receipt) -> bool
    requires { MeansEntry (entry_in item.now) }
    ensures { (result ≡ true) ↔ (Some receipt.now
        ≡ option_map (receipt_of receipt.now.number) (entry_in item.now)) }
{
    let mut fields = Fields::of(item);
    let Some(code) = fields.byte() else {
        return false;
    };
    match verdict_kind_of(code) {
        Some(VerdictKind::Admitted) => is_of_admitted(&mut fields, receipt),
        Some(VerdictKind::Released) => is_of_released(&mut fields, receipt),
        Some(VerdictKind::Changed) => is_of_changed(&mut fields, receipt),
        Some(VerdictKind::Registered) => is_of_registered(&mut fields, receipt),
        _ => is_of_any(item, receipt),
    }
}

#[tactic(auto, using(crate::proofs::EntryLemmas::verdict_known, crate::proofs::EntryLemmas::event_after, crate::proofs::ReceiptLemmas::admitted_by))]
/// The same of what was admitted, after the kind of its verdict.
fn is_of_admitted(fields: &mut Fields<'_>, receipt: &Receipt) -> bool
    requires { MeansEntry (entry_after (admitted_in fields.old)) }
    ensures { (result ≡ true) ↔ (Some receipt.now ≡ option_map (receipt_of receipt.now.number)
        (entry_after (admitted_in fields.old))) }
{
    let led = &AdmittedTo::read(fields);
    let asked = &BriefEvent::read(fields);
    is_of_asked(asked, receipt)
        && is_admitted(
            &receipt.reply,
            asked.number(),
            led.kind,
            &led.name,
            led.address,
            asked.units,
        )
}

#[tactic(auto, using(crate::proofs::EntryLemmas::event_known, crate::proofs::ReceiptLemmas::released_by))]
/// The same of what was released, after the kind of its verdict.
fn is_of_released(fields: &mut Fields<'_>, receipt: &Receipt) -> bool
    requires { MeansEntry (entry_after (Some (Verdict.Released, fields.old))) }
    ensures { (result ≡ true) ↔ (Some receipt.now ≡ option_map (receipt_of receipt.now.number)
        (entry_after (Some (Verdict.Released, fields.old)))) }
{
    let asked = &BriefEvent::read(fields);
    is_of_asked(asked, receipt) && is_released(&receipt.reply, asked.number())
}

#[tactic(auto, using(crate::proofs::EntryLemmas::event_known, crate::proofs::ReceiptLemmas::changed_by))]
/// The same of a change that was granted.
fn is_of_changed(fields: &mut Fields<'_>, receipt: &Receipt) -> bool
    requires { MeansEntry (entry_after (Some (Verdict.Changed, fields.old))) }
    ensures { (result ≡ true) ↔ (Some receipt.now ≡ option_map (receipt_of receipt.now.number)
        (entry_after (Some (Verdict.Changed, fields.old)))) }
{
    let asked = &BriefEvent::read(fields);
    is_of_asked(asked, receipt) && is_changed(&receipt.reply, asked.number(), asked.units)
}

#[tactic(auto, using(crate::proofs::EntryLemmas::zone_known, crate::proofs::EntryLemmas::event_after, crate::proofs::ReceiptLemmas::registered_by))]
/// The same of a registration that was granted.
fn is_of_registered(fields: &mut Fields<'_>, receipt: &Receipt) -> bool
    requires { MeansEntry (entry_after (registered_in fields.old)) }
    ensures { (result ≡ true) ↔ (Some receipt.now ≡ option_map (receipt_of receipt.now.number)
        (entry_after (registered_in fields.old))) }
{
    let zone = fields.known_name();
    let asked = &BriefEvent::read(fields);
    is_of_asked(asked, receipt) && is_registered(&receipt.reply, &asked.id, &zone)
}

/// Whether the receipt is of what was asked.
fn is_of_asked(asked: &BriefEvent<'_>, receipt: &Receipt) -> bool
    ensures { (result ≡ true) ↔ IsOfAsked asked.now receipt.now }
{
    receipt.kind == asked.kind && receipt.call == asked.call && is_name(&receipt.id, &asked.id)
}

#[tactic(auto, using(crate::proofs::EntryLemmas::right_if_any))]
/// The same of an entry that is read whole.
fn is_of_any(item: &[u8], receipt: &Receipt) -> bool
    requires { MeansEntry (entry_in item.now) }
    ensures { (result ≡ true) ↔ (Some receipt.now
        ≡ option_map (receipt_of receipt.now.number) (entry_in item.now)) }
{
    match &read_entry(item) {
        Some(read) => is_of_read(read, receipt),
        None => false,
    }
}

/// The same of an entry that was read.
fn is_of_read(read: &ReadEntry<'_>, receipt: &Receipt) -> bool
    ensures { (result ≡ true) ↔ (receipt.now
        ≡ receipt_of receipt.now.number (entry_read read.now)) }
{
    is_of_event(&read.event, receipt) && read.has_reply(&receipt.reply)
}

/// Whether the receipt is of such an event of the same endpoint and call.
fn is_of_event(event: &ReadEvent<'_>, receipt: &Receipt) -> bool
    ensures { (result ≡ true) ↔ IsOfEvent (event_read event.now) receipt.now }
{
    receipt.kind == kind_of(event) && receipt.call == call_of(event) && is_id(&receipt.id, event)
}

/// Whether it is the ID of the endpoint that asked.
fn is_id(id: &Option<Name>, event: &ReadEvent<'_>) -> bool
    ensures { (result ≡ true) ↔ (id.now ≡ Some (asked_id (event_read event.now))) }
{
    is_name(id, &event.id())
}

/// Whether it is this name.
fn is_name(id: &Option<Name>, name: &NameText<'_>) -> bool
    ensures { (result ≡ true) ↔ (id.now ≡ Some name.now) }
{
    match id {
        Some(id) => name.is(id),
        None => false,
    }
}

/// Whether two receipts are the same.
pub(crate) fn same_receipt(a: &Receipt, b: &Receipt) -> bool
    ensures { (result ≡ true) ↔ (a.now ≡ b.now) }
{
    a.number == b.number
        && a.kind == b.kind
        && same_id(&a.id, &b.id)
        && a.call == b.call
        && same_reply(&a.reply, &b.reply)
}

/// Whether two IDs are the same, or both are absent.
fn same_id(a: &Option<Name>, b: &Option<Name>) -> bool
    ensures { (result ≡ true) ↔ (a.now ≡ b.now) }
{
    *a == *b
}

/// Whether two replies are the same.
fn same_reply(a: &Reply, b: &Reply) -> bool
    ensures { (result ≡ true) ↔ (a.now ≡ b.now) }
{
    *a == *b
}
