//! Entries of the record, and their receipts.

ghost use Rattle.std.specs.Prelude.{◌≡◌, MatchResult};
ghost use Rattle.std.specs.Cow.{cow_value};
ghost use Rattle.rulings.specs.Events.{kind_of, call_number_of};
ghost use Rattle.entry_bytes.specs.ReadEntry.{entry_read};
ghost use Rattle.entry_bytes.specs.ReadEvent.{event_read};
ghost use Rattle.decision_record.specs.History.{plain_entry, receipt_of, configuration_reloaded, AreKeptAsLines};

use command_reader::read_again;
use entry_bytes::{ReadEntry, ReadEvent};
use gk_commands::{CommandLines, Commands};
use gk_terms::{Name, Version};
use rulings::{EventKind, Reply};
use std::alloc::{AllocError, Global};
use std::borrow::Cow;

/// The commands of a reload, as the record keeps them.
#[derive(Clone, Copy)]
pub enum ReloadedCommands<'a> {
    /// Those of the reload that was the last one, or of an older one whose tables somebody else
    /// still had, or whose lines were not kept.
    Commands(&'a Commands),
    /// The lines that said the commands of a reload that another one followed.
    Lines(&'a CommandLines),
}

impl<'a> ReloadedCommands<'a> {
    /// The commands, from which a replay compiles the tables. Those of which the lines are kept are
    /// read again, with no line passed over; that fails only if memory runs out. It never fails for
    /// others.
    pub fn commands(&self, alloc: Global) -> Result<Cow<'a, Commands>, AllocError>
        ensures { MatchResult result
            (λ commands. cow_value commands ≡ configuration_reloaded self.now)
            (λ _. AreKeptAsLines self.now) }
    {
        match self {
            ReloadedCommands::Commands(commands) => Ok(Cow::Borrowed(commands)),
            ReloadedCommands::Lines(lines) => match read_again(alloc, lines) {
                Ok(commands) => Ok(Cow::Owned(commands)),
                Err(error) => Err(error),
            },
        }
    }
}

/// One recorded event with what was decided on it.
#[derive(Drop)]
pub enum Entry<'a> {
    /// Of an event other than a reload.
    Asked(ReadEntry<'a>),
    /// Of a reload.
    Reload {
        /// What was put in force.
        commands: ReloadedCommands<'a>,
        /// As which version.
        version: Version,
    },
}

impl Entry<'_> {
    /// What was replied.
    pub fn reply(&self) -> Reply
        ensures { result ≡ (plain_entry self.now).reply }
    {
        match self {
            Entry::Asked(read) => read.reply(),
            Entry::Reload { version, .. } => Reply::Reloaded { version: *version },
        }
    }

    /// The receipt of this entry, if it has this number.
    pub fn receipt(&self, number: u32) -> Receipt
        ensures { result ≡ receipt_of number (plain_entry self.now) }
    {
        match self {
            Entry::Asked(read) => receipt_of_read(number, read),
            Entry::Reload { version, .. } => Receipt {
                number,
                kind: EventKind::Reload,
                id: None,
                call: None,
                reply: Reply::Reloaded { version: *version },
            },
        }
    }
}

/// The receipt of the entry of this number that was read.
fn receipt_of_read(number: u32, read: &ReadEntry<'_>) -> Receipt
    ensures { result ≡ receipt_of number (entry_read read.now) }
{
    Receipt {
        number,
        kind: kind_of(&read.event),
        id: Some(read.event.id().name()),
        call: call_of(&read.event),
        reply: read.reply(),
    }
}

/// What kind of event it was.
pub(crate) fn kind_of(event: &ReadEvent<'_>) -> EventKind
    ensures { result ≡ kind_of (event_read event.now) }
{
    match event {
        ReadEvent::Register(_) => EventKind::Registration,
        ReadEvent::Unregister { .. } => EventKind::Unregistration,
        ReadEvent::Admit { .. } => EventKind::Admission,
        ReadEvent::Incoming { .. } => EventKind::Incoming,
        ReadEvent::Change { .. } => EventKind::BandwidthChange,
        ReadEvent::Release { .. } => EventKind::Release,
    }
}

/// The number of the call that it was about, if it was about one.
pub(crate) fn call_of(event: &ReadEvent<'_>) -> Option<u32>
    ensures { result ≡ call_number_of (event_read event.now) }
{
    match event {
        ReadEvent::Register(_) | ReadEvent::Unregister { .. } => None,
        ReadEvent::Admit { call, .. }
        | ReadEvent::Incoming { call, .. }
        | ReadEvent::Change { call, .. }
        | ReadEvent::Release { call, .. } => Some(*call),
    }
}

/// What whoever asked may keep of an entry, to find it in the record again.
#[derive(Clone, Copy, Debug, PartialEq, Eq)]
pub struct Receipt {
    /// The number of the entry, from 1.
    pub number: u32,
    /// What kind of event it was.
    pub kind: EventKind,
    /// The ID of the endpoint that asked; nothing for a reload.
    pub id: Option<Name>,
    /// The number of the call that it was about, if it was about one.
    pub call: Option<u32>,
    /// What was replied.
    pub reply: Reply,
}
