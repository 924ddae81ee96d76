//! The rows of a core's record, on their way to a file.

ghost use Rattle.std.specs.Prelude.{◌≡◌, true, IfSome, OnOk, OnErr};
ghost use Rattle.std.specs.Io.KnownBytes.{Appends};
ghost use Rattle.gk_lines.specs.Streams.{NotesIf, AppendsFront};
ghost use Rattle.rulings.specs.Limits.{are_limits};
ghost use Rattle.decision_record.specs.Rows.{rows_of};
ghost use Rattle.call_files.specs.Calls.{SaysRows, calls_text};
ghost use Rattle.call_files.specs.RowWriter.{is_write_fault};

use admission::Core;
use call_files::{RowSource, WriteRowsFault, write_rows_of};
use call_rows::CallRow;
use gk_lines::Sink;
use std::alloc::Global;
use std::marker::Model;

/// Writes the call file of a core's record, row by row. It reads back as the rows of the record, if
/// the core's limits are in their ranges.
///
/// `WriteFault` comes exactly if the writer fails in this call. After a fault it has taken a front
/// of the text.
pub fn write_record<W: Sink>(
    alloc: Global,
    core: &Core,
    writer: &mut W,
) -> Result<(), WriteRowsFault>
    ensures whole { OnOk result (Appends (W.contents writer.old) (W.contents writer.new)
        (calls_text (rows_of core.now.opening core.now.entries))) }
    ensures front { OnErr result (AppendsFront (W.contents writer.old) (W.contents writer.new)
        (calls_text (rows_of core.now.opening core.now.entries))) }
    ensures noted { NotesIf is_write_fault (W.failures writer.old) (W.failures writer.new)
        result }
    // The limits of every core are in their ranges; no clause of a core says so.
    ensures reads_back { OnOk result (are_limits core.now.opening.limits ≡ true
        → SaysRows (calls_text (rows_of core.now.opening core.now.entries))
        (rows_of core.now.opening core.now.entries)) }
{
    // So it is known that the record is a legal history.
    let _record = core.record();
    let Some(rows) = RecordedRows::of(core) else {
        return Err(WriteRowsFault::NoMemory);
    };
    write_rows_of(alloc, &rows, writer)
}

/// The rows of a core's record, each made of its entry when it is asked for. A contract sees the
/// core.
#[derive(Drop)]
struct RecordedRows<'a> {
    core: &'a Core,
}

impl<'a> Model for RecordedRows<'a> {
    ghost use Rattle.std.specs.Prelude.{◌<◌, ◌^◌, length};
    ghost use Rattle.decision_record.specs.History.{CoreParts};

    ghost Value = { CoreParts };

    ghost view = { λ r. r.core.now };

    ghost invariant = { λ r. length r.core.now.entries < 2 ^ 32 };
}

impl<'a> RecordedRows<'a> {
    /// Those of this core; none if its entries can't be numbered, which its limits rule out.
    fn of(core: &'a Core) -> Option<RecordedRows<'a>>
        ensures { IfSome result (λ rows. rows ≡ core.now) }
    {
        if core.record().len() > u32::MAX as usize {
            return None;
        }
        Some(RecordedRows { core })
    }
}

impl RowSource for RecordedRows<'_> {
    ghost use Rattle.std.specs.Prelude.{length, take};
    ghost use Rattle.decision_record.specs.Rows.{rows_of};

    ghost rows = { λ core. rows_of core.opening core.entries };

    ghost rows_before = { λ core place. rows_of core.opening (take place core.entries) };

    ghost count = { λ core. length core.entries };

    fn places(&self) -> usize {
        self.core.record().len()
    }

    fn row_at(&self, place: usize) -> Option<CallRow> {
        self.core.record().row(place as u32 + 1)
    }
}
