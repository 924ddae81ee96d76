//! An entry that is written before the event is carried out, and put into the record after that.

ghost use Rattle.std.specs.Prelude.{◌≡◌, ◌≤◌, ◌<◌, None, Some, length, max, OnErr, OnOk};
ghost use Rattle.rulings.specs.Events.{event_meant, put_in_force};
ghost use Rattle.rulings.specs.Lent.{ruling_meant};
ghost use Rattle.rulings.specs.Step.{places_needed};
ghost use Rattle.entry_bytes.specs.Entry.{Agrees, entry_by, verdict_meant};
ghost use Rattle.entry_bytes.specs.EntryBytes.{entry_bytes};

use byte_log::SHORT_BYTES;
use entry_bytes::{add_entry, size_of_entry};
use rulings::{LentEvent, LentRuling};
use std::alloc::{AllocError, Global};
use std::marker::Model;

/// An entry that is written, and not in the record yet: so what is lent for it need not last until
/// the event is carried out. A contract sees the entry, how many bytes it has, and how many there
/// is room for without memory. The room stays from one entry to the next.
#[derive(Drop)]
pub struct EntryDraft {
    pub(crate) bytes: Vec<u8>,
}

impl Model for EntryDraft {
    ghost use Rattle.std.specs.Prelude.{vec_capacity, vec_len};
    ghost use Rattle.entry_bytes.specs.EntryBytes.{entry_in};
    ghost use Rattle.decision_record.specs.Drafts.{DraftParts, IsDraft};

    ghost Value = { DraftParts };

    ghost view = { λ d. record {
      entry = entry_in d.bytes.items;
      bytes = vec_len d.bytes;
      room = vec_capacity d.bytes;
    } };

    ghost invariant = { λ d. IsDraft d.bytes.items };
}

impl EntryDraft {
    #[tactic(auto, unfolding(entry_bytes::specs::VerdictBytes::verdict_in))]
    /// None. It takes no memory.
    pub fn new(alloc: Global) -> EntryDraft
        ensures { result.entry ≡ None }
    {
        EntryDraft {
            bytes: Vec::new(alloc),
        }
    }

    /// How many bytes the entry has.
    pub fn len(&self) -> usize
        ensures value { result ≡ self.now.bytes }
        ensures most { result ≤ 1396 }
    {
        self.bytes.len()
    }

    #[tactic(auto, unfolding(entry_bytes::specs::VerdictBytes::verdict_in))]
    /// Writes the entry of an event, other than a reload, on which this was ruled, in place of the
    /// one before, and keeps room for 138 bytes. `AllocError` comes only if memory runs out and
    /// there is not that much room or not as much as the entry takes; then there is none. It never
    /// comes for a granted release if there is room for 138 bytes, and the entry of that is short.
    pub fn write(
        &mut self,
        event: &LentEvent<'_>,
        ruling: &LentRuling<'_>,
    ) -> Result<(), AllocError>
        requires other { put_in_force (event_meant event.now) ≡ None }
        requires agrees { Agrees (event_meant event.now) ruling.now }
        ensures entry { OnOk result (self.new.entry
            ≡ Some (entry_by (event_meant event.now) (ruling_meant ruling.now))) }
        ensures bytes { OnOk result (self.new.bytes ≡ length (entry_bytes
            (event_meant event.now) (verdict_meant ruling.now))) }
        ensures none { OnErr result (self.new.entry ≡ None) }
        ensures room { OnOk result (138 ≤ self.new.room) }
        ensures kept { self.old.room ≤ self.new.room }
        ensures lacking { OnErr result (self.old.room < max 138 (length (entry_bytes
            (event_meant event.now) (verdict_meant ruling.now)))) }
        ensures releases { places_needed (ruling_meant ruling.now).effect ≡ 0
            → OnOk result (self.new.bytes ≤ 138) }
        ensures unfailing { places_needed (ruling_meant ruling.now).effect ≡ 0
            → OnErr result (self.old.room < 138) }
    {
        self.bytes.clear();
        let size = size_of_entry(event, ruling);
        self.bytes.reserve(size.max(SHORT_BYTES))?;
        add_entry(&mut self.bytes, event, ruling);
        Ok(())
    }
}
