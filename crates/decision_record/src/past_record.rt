//! A record as it was at one moment, of which rows are made while the record itself grows.

ghost use Rattle.std.specs.Prelude.{◌≡◌, length};
ghost use Rattle.std.specs.Option.{option_and_then};
ghost use Rattle.decision_record.specs.History.{entry_of_number};
ghost use Rattle.decision_record.specs.Rows.{entry_row};

use crate::record::Record;
use crate::rows::numbered_row;
use byte_log::ByteLog;
use call_rows::CallRow;
use std::marker::Model;
use std::snapshot::Snapshot;

/// What the entries of a record said of calls at the moment at which it was taken. A contract sees
/// the record as it was then.
///
/// `log` shares the pieces of the record's log, so a past record is made in little time and memory.
/// The configurations that reloads put in force are not in it: a reload says nothing of a call.
#[derive(Drop)]
pub struct PastRecord {
    pub(crate) log: ByteLog,
    pub(crate) was: Snapshot<Record>,
}

impl Model for PastRecord {
    ghost use Rattle.decision_record.specs.History.{RecordParts};
    ghost use Rattle.decision_record.specs.Past.{HasRows};

    ghost Value = { RecordParts };

    ghost view = { λ p. p.was.value };

    ghost invariant = { λ p. HasRows p.log.items p.was.value.entries };
}

impl PastRecord {
    /// How many entries there were.
    pub fn len(&self) -> usize
        ensures { result ≡ length self.now.entries }
    {
        self.log.len()
    }

    /// What the entry of this number says of a call, as a row: that an admission was routed, that
    /// an answer opened a call or was refused for a limit, that a bandwidth change was granted, or
    /// that a call was released. None of any other entry, nor of a call of number 0, which no
    /// request can have.
    pub fn row(&self, number: u32) -> Option<CallRow>
        ensures { result ≡ option_and_then (entry_row number)
            (entry_of_number self.now.entries number) }
    {
        numbered_row(&self.log, number)
    }
}
