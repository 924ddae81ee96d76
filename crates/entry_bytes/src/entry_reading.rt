//! How an entry is read.

ghost use Rattle.std.specs.Prelude.{◌≡◌, IfSome, option_map};
ghost use Rattle.entry_bytes.specs.EntryBytes.{entry_in};
ghost use Rattle.entry_bytes.specs.ReadEntry.{entry_read};
ghost use Rattle.entry_bytes.specs.ReadEvent.{HasRightEndpoint};

use crate::event_reading::read_event;
use crate::read_events::ReadEvent;
use crate::verdict_reading::read_verdict;
use crate::verdicts::Verdict;
use field_bytes::Fields;

/// An entry as it is read: its event, and what it tells beside that.
#[derive(Drop)]
pub struct ReadEntry<'a> {
    /// What was asked.
    pub event: ReadEvent<'a>,
    /// What was decided.
    pub verdict: Verdict<'a>,
}

/// The entry with which the bytes begin, if they begin with one.
pub fn read_entry<'a>(bytes: &'a [u8]) -> Option<ReadEntry<'a>>
    requires { IfSome (entry_in bytes.now) (λ e. HasRightEndpoint e.event) }
    ensures { option_map entry_read result ≡ entry_in bytes.now }
{
    let mut fields = Fields::of(bytes);
    let verdict = read_verdict(&mut fields)?;
    let event = read_event(&mut fields)?;
    Some(ReadEntry { event, verdict })
}
