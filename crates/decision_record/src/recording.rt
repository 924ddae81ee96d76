//! How entries are put at the end of a record, in places that were kept.

ghost use Rattle.std.specs.Prelude.{◌≡◌, ◌<◌, ◌≤◌, ◌+◌, ◌-◌, ◌^◌, ◌++◌, ◌∷◌, [], length, OnOk, OnErr, IsOk, IsSome};
ghost use Rattle.std.specs.List.{cons_option};
ghost use Rattle.std.specs.Arc.{arc_value};
ghost use Rattle.byte_log.specs.Room.{places_taken};
ghost use Rattle.decision_record.specs.History.{reload_entry};
ghost use Rattle.decision_record.specs.Items.{reload_item, room_in};

use crate::drafts::EntryDraft;
use crate::record::{RELOAD, Record};
use crate::reloads::{LastReload, Reloads};
use byte_log::{ByteLog, SHORT_BYTES, room_taken};
use compiler::Tables;
use gk_terms::Version;
use std::alloc::AllocError;
use std::sync::Arc;

/// How many bytes the entry of a reload has: one, and those of a place.
pub const RELOAD_BYTES: usize = 5;

impl Record {
    /// Keeps this many further places, at most 2, as an event needs; and makes room for an entry of
    /// so many bytes in one of the kept places, of which there is then one at least. `AllocError`
    /// comes only if memory runs out and there is no room for so much; then nothing changes, but for
    /// some room that may have been made. It never comes for none, if the entry is short.
    pub fn keep(&mut self, bytes: usize, places: usize) -> Result<(), AllocError>
        requires few { places ≤ 2 }
        requires most { bytes ≤ 1396 }
        requires one { 1 ≤ self.old.kept + places }
        ensures ok { OnOk result (self.new ≡ record self.old {
          kept = self.old.kept + places;
          room = self.new.room;
        }) }
        ensures enough { OnOk result (places_taken bytes + self.new.kept ≤ self.new.room + 1) }
        ensures err { OnErr result (self.new ≡ record self.old { room = self.new.room }) }
        ensures room { self.old.room ≤ self.new.room }
        ensures lacking { OnErr result
            (self.old.room + 1 < places_taken bytes + self.old.kept + places) }
        ensures unfailing { bytes ≤ 138 → places ≡ 0 → IsOk result }
    {
        // So it is known that the sum fits.
        let _count = self.log.len();
        let kept = self.kept + places;
        // There is room for a short entry in each kept place.
        if places == 0 && bytes <= SHORT_BYTES {
            return Ok(());
        }
        reserve_both(&mut self.log, &mut self.reloads, bytes, kept)?;
        self.kept = kept;
        Ok(())
    }

    /// Keeps this many places less.
    pub fn give_back(&mut self, places: usize)
        requires { places ≤ self.old.kept }
        ensures { self.new ≡ record self.old { kept = self.old.kept - places } }
    {
        self.kept -= places;
    }

    /// Puts the entry that was written at the end, in a place that was kept and in room that was
    /// made for it. It takes no memory.
    pub fn push(&mut self, draft: &EntryDraft)
        requires kept { 1 ≤ self.old.kept }
        requires room { places_taken draft.now.bytes + self.old.kept ≤ self.old.room + 1 }
        requires written { IsSome draft.now.entry }
        ensures entered { self.new ≡ record self.old {
          entries = self.old.entries ++ cons_option draft.now.entry [];
          kept = self.old.kept - 1;
          room = self.new.room;
        } }
        ensures room { self.old.room ≤ self.new.room + places_taken draft.now.bytes }
    {
        self.log.push(&draft.bytes);
        self.kept -= 1;
    }

    /// Puts the entry of a reload at the end, in a place that was kept. It takes no memory.
    pub fn push_reload(&mut self, tables: Arc<Tables>, version: Version)
        requires kept { 1 ≤ self.old.kept }
        requires few { length self.old.entries < 2 ^ 32 }
        ensures entered { self.new ≡ record self.old {
          entries = self.old.entries ++ reload_entry (arc_value tables).commands version ∷ [];
          kept = self.old.kept - 1;
          room = self.new.room;
        } }
        ensures room { self.old.room ≤ self.new.room + 1 }
    {
        let place = self.reloads.len() as u32;
        push_reload_item(&mut self.log, place);
        self.reloads.push(LastReload { tables, version });
        self.kept -= 1;
    }
}

/// Puts the item of the reload at this place at the end of a log.
fn push_reload_item(log: &mut ByteLog, place: u32)
    requires { 1 ≤ log.old.room }
    ensures items { log.new.items ≡ log.old.items ++ reload_item place ∷ [] }
    ensures room { log.old.room ≤ log.new.room + 1 }
{
    let [first, second, third, fourth] = place.to_le_bytes();
    log.push(&[RELOAD, first, second, third, fourth]);
}

/// Makes room in both for an entry of so many bytes in one of this many places, and for short ones
/// in the others. If memory runs out, they hold what they did; it never does if there is the room
/// already.
fn reserve_both(
    log: &mut ByteLog,
    reloads: &mut Reloads,
    bytes: usize,
    places: usize,
) -> Result<(), AllocError>
    requires most { bytes ≤ 1396 }
    requires one { 1 ≤ places }
    requires near { places ≤ reloads.old.room + 2 }
    ensures items { log.new.items ≡ log.old.items }
    ensures entries { reloads.new.entries ≡ reloads.old.entries }
    ensures last { reloads.new.last ≡ reloads.old.last }
    ensures room { log.old.room ≤ log.new.room }
    ensures room_reloads { reloads.old.room ≤ reloads.new.room }
    ensures ok { OnOk result (places_taken bytes + places
        ≤ room_in log.new reloads.new + 1) }
    ensures err { OnErr result (room_in log.old reloads.old + 1 < places_taken bytes + places) }
{
    log.reserve(bytes, places - 1)?;
    // So it is known that the sum fits.
    let _count = log.len();
    reloads.reserve(places - 1 + room_taken(bytes))
}
