//! How an entry is written.

ghost use Rattle.std.specs.Prelude.{◌≡◌, ◌≤◌, length, None, Some};
ghost use Rattle.rulings.specs.Events.{event_meant, put_in_force};
ghost use Rattle.rulings.specs.Lent.{ruling_meant};
ghost use Rattle.rulings.specs.Step.{places_needed};
ghost use Rattle.field_bytes.specs.Adding.{Adds, HasRoom};
ghost use Rattle.entry_bytes.specs.Entry.{Agrees, entry_by, verdict_meant};
ghost use Rattle.entry_bytes.specs.EntryBytes.{entry_bytes, entry_in};
ghost use Rattle.entry_bytes.specs.ReadEvent.{HasRightEndpoint};

use crate::event_adding::{add_event, size_of_event};
use crate::verdict_adding::add_verdict;
use crate::verdict_sizes::size_of_verdict;
use rulings::{LentEvent, LentRuling};

#[tactic(auto, using(crate::proofs::AgreeLaws::needs_no_place))]
/// How many bytes the entry takes of an event, other than a reload, on which this was ruled: at most
/// 1,396, and of a granted release, which alone needs no further place, 135.
pub fn size_of_entry(event: &LentEvent<'_>, ruling: &LentRuling<'_>) -> usize
    requires other { put_in_force (event_meant event.now) ≡ None }
    requires agrees { Agrees (event_meant event.now) ruling.now }
    ensures value { result
        ≡ length (entry_bytes (event_meant event.now) (verdict_meant ruling.now)) }
    ensures most { result ≤ 1396 }
    ensures releases { places_needed (ruling_meant ruling.now).effect ≡ 0 → result ≤ 135 }
{
    size_of_verdict(ruling) + size_of_event(event)
}

#[tactic(auto, using(crate::proofs::EntryLaws::entry_by_back))]
/// Adds the entry of an event, other than a reload, on which this was ruled, in room that there is.
/// It takes no memory.
pub fn add_entry(bytes: &mut Vec<u8>, event: &LentEvent<'_>, ruling: &LentRuling<'_>)
    requires other { put_in_force (event_meant event.now) ≡ None }
    requires agrees { Agrees (event_meant event.now) ruling.now }
    requires room { HasRoom bytes.old
        (entry_bytes (event_meant event.now) (verdict_meant ruling.now)) }
    ensures added { Adds bytes.old
        (entry_bytes (event_meant event.now) (verdict_meant ruling.now)) bytes.new }
    ensures read { entry_in (entry_bytes (event_meant event.now) (verdict_meant ruling.now))
        ≡ Some (entry_by (event_meant event.now) (ruling_meant ruling.now)) }
    ensures right { HasRightEndpoint (event_meant event.now) }
{
    add_verdict(bytes, ruling);
    add_event(bytes, event);
}
