//! The record: what was asked, and what was replied.

ghost use Rattle.std.specs.Prelude.{◌≡◌, ◌↔◌, ◌<◌, [], true, length, take, slice_get, OnOk, IfOk, IfErr, IfNone, IfSome, Some, option_map};
ghost use Rattle.std.specs.List.{All};
ghost use Rattle.std.specs.Option.{option_and_then};
ghost use Rattle.std.specs.Arc.{arc_value};
ghost use Rattle.entry_bytes.specs.EntryBytes.{entry_in};
ghost use Rattle.entry_bytes.specs.ReadEvent.{HasRightEndpoint};
ghost use Rattle.decision_record.specs.Items.{MeansEntry, item_meant, reload_in};
ghost use Rattle.decision_record.specs.Past.{HasRows};
ghost use Rattle.decision_record.specs.Rows.{entry_row};
ghost use Rattle.decision_record.specs.History.{plain_entry, entry_of_number, receipt_of, Stands, in_force};

use crate::entries::{Entry, Receipt};
use crate::past_record::PastRecord;
use crate::receipts::{is_of_bytes, same_receipt};
use crate::reloads::Reloads;
use crate::rows::numbered_row;
use byte_log::ByteLog;
use call_rows::CallRow;
use compiler::Tables;
use entry_bytes::read_entry;
use field_bytes::Fields;
use std::alloc::{AllocError, Global};
use std::marker::Model;
use std::snapshot::Snapshot;
use std::sync::Arc;

/// The first byte of the item of a reload, with which no other entry begins.
pub(crate) const RELOAD: u8 = 255;

/// The recorded events in order, and the tables that they put in force. A contract sees the events
/// by their values alone, after the commands that were in force before them; how many places are
/// kept for further ones; and for how many there is room without memory, which are no fewer, if
/// they are short, of 138 bytes at most.
///
/// `log` has one item for each entry: its bytes; or, of a reload, the byte `RELOAD` and its place in
/// `reloads`, where its commands stand. Both have room for every kept place, and neither moves what
/// it holds, but for the last reload.
///
/// `opening` are the tables that were in force before the first entry. `reloads` owns the tables of
/// the last reload, so that the tables in force are found at once, and the core needs no second
/// owner of them.
#[derive(Drop)]
pub struct Record {
    opening: Arc<Tables>,
    pub(crate) log: ByteLog,
    pub(crate) reloads: Reloads,
    pub(crate) kept: usize,
}

impl Model for Record {
    ghost use Rattle.std.specs.Arc.{arc_value};
    ghost use Rattle.decision_record.specs.History.{RecordParts};
    ghost use Rattle.decision_record.specs.Items.{entries_told, room_in, IsStored, IsLastReload};

    ghost Value = { RecordParts };

    ghost view = { λ r. record {
      opening = (arc_value r.opening).commands;
      entries = entries_told r.log r.reloads;
      kept = r.kept;
      room = room_in r.log r.reloads;
    } };

    ghost invariant = { λ r. IsStored r.log r.reloads (entries_told r.log r.reloads) r.kept
        × IsLastReload (arc_value r.opening).commands r.reloads.last (entries_told r.log r.reloads) };
}

impl Record {
    /// No entries after these tables, and no place kept.
    pub fn new(alloc: Global, opening: Arc<Tables>) -> Record
        ensures { result ≡ record {
          opening = (arc_value opening).commands;
          entries = [];
          kept = 0;
          room = 0;
        } }
    {
        Record {
            opening,
            log: ByteLog::new(alloc),
            reloads: Reloads::new(alloc),
            kept: 0,
        }
    }

    /// The tables in force after the entries.
    pub fn tables(&self) -> &Tables
        ensures { result.now.commands ≡ in_force self.now }
    {
        match self.reloads.tables() {
            None => &self.opening,
            Some(tables) => tables,
        }
    }

    /// How many entries there are.
    pub fn len(&self) -> usize
        ensures { result ≡ length self.now.entries }
    {
        self.log.len()
    }

    /// The entry of this number. The first has number 1.
    pub fn get(&self, number: u32) -> Option<Entry<'_>>
        ensures { option_map plain_entry result ≡ entry_of_number self.now.entries number }
    {
        let place = number.checked_sub(1)?;
        self.at(place as usize)
    }

    /// The entry at this place, from 0.
    fn at(&self, place: usize) -> Option<Entry<'_>>
        ensures { option_map plain_entry result ≡ slice_get self.now.entries place }
    {
        entry_at(&self.log, &self.reloads, place)
    }

    /// What the entry of this number says of a call, as a row: that an admission was routed, that
    /// an answer opened a call or was refused for a limit, that a bandwidth change was granted, or
    /// that a call was released. None of any other entry, nor of a call of number 0, which no
    /// request can have.
    pub fn row(&self, number: u32) -> Option<CallRow>
        ensures { result ≡ option_and_then (entry_row number)
            (entry_of_number self.now.entries number) }
    {
        numbered_row(self.items(), number)
    }

    /// What the entries say of calls, as of now; what is entered later is not in it. It shares the
    /// entries, so it is made in little time. `AllocError` comes only if memory runs out.
    pub fn past(&self) -> Result<PastRecord, AllocError>
        ensures { IfOk result (λ past. past ≡ self.now) }
    {
        Ok(PastRecord {
            log: self.items().share()?,
            was: Snapshot::of(self),
        })
    }

    /// The items of the entries, of which the rows are made without the reloads.
    fn items(&self) -> &ByteLog
        ensures { HasRows result.now.items self.now.entries }
    {
        // So it is known that whatever stands among the reloads is one.
        let _reloads = self.reloads.len();
        &self.log
    }

    /// `Ok` if each receipt is that of the entry at its number; else the place, from 0, of the
    /// first that is not.
    pub fn confirm(&self, receipts: &[Receipt]) -> Result<(), usize>
        ensures all { OnOk result (All (Stands self.now.entries) receipts.now) }
        ensures first { IfErr result (λ place. (place < length receipts.now)
            × All (Stands self.now.entries) (take place receipts.now)
            × ((receipt : _) → slice_get receipts.now place ≡ Some receipt
            → ¬ Stands self.now.entries receipt)) }
    {
        match self.first_astray(receipts) {
            None => Ok(()),
            Some(place) => Err(place),
        }
    }

    /// The place of the first receipt that is not that of the entry at its number.
    fn first_astray(&self, receipts: &[Receipt]) -> Option<usize>
        ensures none { IfNone result (All (Stands self.now.entries) receipts.now) }
        ensures first { IfSome result (λ place. (place < length receipts.now)
            × All (Stands self.now.entries) (take place receipts.now)
            × ((receipt : _) → slice_get receipts.now place ≡ Some receipt
            → ¬ Stands self.now.entries receipt)) }
    {
        for (place, receipt) in receipts.iter().enumerate() {
            if !self.stands(receipt) {
                return Some(place);
            }
        }
        None
    }

    /// Whether the receipt is that of the entry at this place, from 0.
    fn has_receipt(&self, place: usize, receipt: &Receipt) -> bool
        ensures { (result ≡ true) ↔ (Some receipt.now ≡ option_map (receipt_of receipt.now.number)
            (slice_get self.now.entries place)) }
    {
        is_at(&self.log, &self.reloads, place, receipt)
    }

    /// Whether the receipt is that of the entry at its number.
    pub fn stands(&self, receipt: &Receipt) -> bool
        ensures { (result ≡ true) ↔ Stands self.now.entries receipt.now }
    {
        match receipt.number.checked_sub(1) {
            None => false,
            Some(place) => self.has_receipt(place as usize, receipt),
        }
    }
}

/// Whether the receipt is that of the entry of the item at this place.
fn is_at(log: &ByteLog, reloads: &Reloads, place: usize, receipt: &Receipt) -> bool
    requires { IfSome (slice_get log.now.items place)
        (λ item. MeansEntry (item_meant reloads.now.entries item)) }
    ensures { (result ≡ true) ↔ (Some receipt.now ≡ option_map (receipt_of receipt.now.number)
        (option_and_then (item_meant reloads.now.entries) (slice_get log.now.items place))) }
{
    match log.get(place) {
        None => false,
        Some(item) => is_of_item(item, reloads, receipt),
    }
}

/// Whether the receipt is that of the entry that an item means.
fn is_of_item(item: &[u8], reloads: &Reloads, receipt: &Receipt) -> bool
    requires { MeansEntry (item_meant reloads.now.entries item.now) }
    ensures { (result ≡ true) ↔ (Some receipt.now ≡ option_map (receipt_of receipt.now.number)
        (item_meant reloads.now.entries item.now)) }
{
    match item {
        [RELOAD, place @ ..] => is_of_reload_in(place, reloads, receipt),
        [_, ..] => is_of_bytes(item, receipt),
        [] => false,
    }
}

/// Whether the receipt is that of the reload at the place that these bytes are.
fn is_of_reload_in(place: &[u8], reloads: &Reloads, receipt: &Receipt) -> bool
    ensures { (result ≡ true) ↔ (Some receipt.now ≡ option_map (receipt_of receipt.now.number)
        (reload_in reloads.now.entries place.now)) }
{
    match &reload_in(place, reloads) {
        None => false,
        Some(entry) => same_receipt(receipt, &entry.receipt(receipt.number)),
    }
}

/// The entry of the item at this place.
fn entry_at<'a>(log: &'a ByteLog, reloads: &'a Reloads, place: usize) -> Option<Entry<'a>>
    requires { IfSome (option_and_then (item_meant reloads.now.entries)
        (slice_get log.now.items place)) (λ e. HasRightEndpoint e.event) }
    ensures { option_map plain_entry result ≡ option_and_then (item_meant reloads.now.entries)
        (slice_get log.now.items place) }
{
    match log.get(place) {
        None => None,
        Some(item) => entry_meant(item, reloads),
    }
}

/// The entry that an item means.
fn entry_meant<'a>(item: &'a [u8], reloads: &'a Reloads) -> Option<Entry<'a>>
    requires { IfSome (item_meant reloads.now.entries item.now) (λ e. HasRightEndpoint e.event) }
    ensures { option_map plain_entry result ≡ item_meant reloads.now.entries item.now }
{
    match item {
        [RELOAD, place @ ..] => reload_in(place, reloads),
        [_, ..] => asked_in(item),
        [] => None,
    }
}

/// The reload at the place that these bytes are.
fn reload_in<'a>(place: &[u8], reloads: &'a Reloads) -> Option<Entry<'a>>
    ensures { option_map plain_entry result ≡ reload_in reloads.now.entries place.now }
{
    match Fields::of(place).number() {
        None => None,
        Some(place) => reloads.get(place as usize),
    }
}

/// The entry that these bytes are.
fn asked_in(item: &[u8]) -> Option<Entry<'_>>
    requires { IfSome (entry_in item.now) (λ e. HasRightEndpoint e.event) }
    ensures { option_map plain_entry result ≡ entry_in item.now }
{
    match read_entry(item) {
        None => None,
        Some(read) => Some(Entry::Asked(read)),
    }
}
