//! What is done for an event that no count refuses: room, its effect, and its entry.

ghost use Rattle.std.specs.Prelude.{◌≡◌, ◌≤◌, ◌<◌, ◌+◌, ◌-◌, ◌^◌, ◌++◌, ◌∷◌, [], true, false, None, Some, length, OnOk, OnErr, IsOk};
ghost use Rattle.byte_log.specs.Room.{places_taken};
ghost use Rattle.rulings.specs.Events.{event_meant};
ghost use Rattle.rulings.specs.Ruling.{ruling_of};
ghost use Rattle.rulings.specs.State.{under};
ghost use Rattle.rulings.specs.Step.{count_refusal, is_recorded, state_after, places_needed};
ghost use Rattle.decision_record.specs.History.{entry_of, in_force};
ghost use Rattle.admission.specs.CoreInvariant.{places_reserved};
ghost use Rattle.admission.specs.HistoryLaws.{IsWithinLimits};
ghost use Rattle.rulings.specs.Founded.{IsUnder, IsFallible, takes_memory};

use decision_record::{EntryDraft, Record};
use rulings::{Effect, LentEvent, Machine};
use std::alloc::AllocError;

#[tactic(auto, unfolding(rulings::specs::Step::state_after))]
/// Makes room in the record for the entry of an event that no count refuses, of so many bytes (at
/// most 1,396: `size_of_entry` of entry_bytes), and carries out the effect of the ruling. If memory
/// runs out, nothing changes, but for some room in the record that may have been made. It never
/// does, if the entry is short, for an effect that takes none and has a place, as that of a release
/// and of a reload whose place is `reserved`; nor for one that takes none as long as the record has
/// room.
pub(crate) fn prepare(
    history: &mut Record,
    machine: &mut Machine,
    event: &LentEvent<'_>,
    effect: &Effect,
    reserved: usize,
    bytes: usize,
) -> Result<(), AllocError>
    requires ruled { effect.now ≡ (ruling_of (under (in_force history.old) machine.old)
        (event_meant event.now)).effect }
    requires recordable { count_refusal (under (in_force history.old) machine.old)
        (event_meant event.now) (ruling_of (under (in_force history.old) machine.old)
        (event_meant event.now)) ≡ None }
    requires recorded { is_recorded (ruling_of (under (in_force history.old) machine.old)
        (event_meant event.now)).verdict ≡ true }
    requires kept { length machine.old.calls + reserved ≤ history.old.kept }
    requires one { reserved ≤ 1 }
    requires counted { machine.old.records ≡ length history.old.entries }
    requires within { IsWithinLimits (under (in_force history.old) machine.old) }
    requires most { bytes ≤ 1396 }
    requires short { places_needed effect.now ≡ 0 → bytes ≤ 138 }
    ensures state { OnOk result (IsUnder machine.new
        (state_after (under (in_force history.old) machine.old) (event_meant event.now)
        (ruling_of (under (in_force history.old) machine.old) (event_meant event.now)))) }
    ensures entries { OnOk result (history.new.entries ≡ history.old.entries) }
    ensures opening { OnOk result (history.new.opening ≡ history.old.opening) }
    ensures few { OnOk result (length history.new.entries < 2 ^ 32) }
    ensures places { OnOk result (length machine.new.calls + 1 ≤ history.new.kept) }
    ensures kept { OnOk result (history.new.kept + reserved
        ≡ history.old.kept + places_needed effect.now) }
    ensures made { OnOk result (places_taken bytes + history.new.kept ≤ history.new.room + 1) }
    ensures err { OnErr result ((machine.new ≡ machine.old)
        × (history.new ≡ record history.old { room = history.new.room })
        × IsFallible (event_meant event.now)) }
    ensures room { history.old.room ≤ history.new.room }
    ensures lacking { OnErr result (takes_memory effect.now ≡ false → history.old.room + 1
        < places_taken bytes + history.old.kept + (places_needed effect.now - reserved)) }
    ensures unfailing { bytes ≤ 138 → takes_memory effect.now ≡ false
        → places_needed effect.now ≤ reserved → IsOk result }
{
    // So it is known that the number of the entry fits.
    let _number = machine.next_number();
    let needed = effect.places_needed();
    // The reserved place is the first of those that are needed; if none is, it is free again.
    let more = needed.saturating_sub(reserved);
    history.keep(bytes, more)?;
    if let Err(error) = machine.apply(history.tables(), event, effect) {
        history.give_back(more);
        return Err(error);
    }
    history.give_back(reserved + more - needed);
    Ok(())
}

/// Records an event that no count refuses, if its entry was written: makes room, carries out the
/// effect of the ruling, and puts the entry at the end. If memory runs out, or did as the entry was
/// written, nothing changes, but for some room in the record that may have been made.
pub(crate) fn settle(
    history: &mut Record,
    machine: &mut Machine,
    draft: &EntryDraft,
    written: Result<(), AllocError>,
    event: &LentEvent<'_>,
    effect: &Effect,
    reserved: usize,
) -> Result<(), AllocError>
    requires entry { OnOk written (draft.now.entry
        ≡ Some (entry_of (under (in_force history.old) machine.old) (event_meant event.now))) }
    requires short { OnOk written (places_needed effect.now ≡ 0 → draft.now.bytes ≤ 138) }
    requires fallible { OnErr written (IsFallible (event_meant event.now)) }
    requires ruled { effect.now ≡ (ruling_of (under (in_force history.old) machine.old)
        (event_meant event.now)).effect }
    requires recordable { count_refusal (under (in_force history.old) machine.old)
        (event_meant event.now) (ruling_of (under (in_force history.old) machine.old)
        (event_meant event.now)) ≡ None }
    requires recorded { is_recorded (ruling_of (under (in_force history.old) machine.old)
        (event_meant event.now)).verdict ≡ true }
    requires kept { length machine.old.calls + reserved ≤ history.old.kept }
    requires one { reserved ≤ 1 }
    requires counted { machine.old.records ≡ length history.old.entries }
    requires within { IsWithinLimits (under (in_force history.old) machine.old) }
    ensures state { OnOk result (IsUnder machine.new
        (state_after (under (in_force history.old) machine.old) (event_meant event.now)
        (ruling_of (under (in_force history.old) machine.old) (event_meant event.now)))) }
    ensures entries { OnOk result (history.new.entries ≡ history.old.entries
        ++ entry_of (under (in_force history.old) machine.old) (event_meant event.now) ∷ []) }
    ensures opening { OnOk result (history.new.opening ≡ history.old.opening) }
    ensures places { OnOk result (length machine.new.calls ≤ history.new.kept) }
    ensures written { OnOk result (IsOk written) }
    ensures err { OnErr result ((machine.new ≡ machine.old)
        × (history.new ≡ record history.old { room = history.new.room })
        × IsFallible (event_meant event.now)) }
{
    written?;
    prepare(history, machine, event, effect, reserved, draft.len())?;
    history.push(draft);
    Ok(())
}

/// The places of the record that are kept for a reload.
pub(crate) fn places_reserved(reserved: bool) -> usize
    ensures { result ≡ places_reserved reserved }
{
    if reserved { 1 } else { 0 }
}
