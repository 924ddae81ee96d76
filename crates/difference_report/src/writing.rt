//! Writing which digits two configurations plan otherwise.

ghost use Rattle.gk_lines.specs.Streams.{NotesIf};
ghost use Rattle.difference_report.specs.Writing.{IsReport, Writes, is_write_fault};

use crate::report::report_on;
use crate::wanted::{Form, Listing};
use compiler::Tables;
use gk_lines::{Sink, WriteFault, write_whole};
use std::alloc::Global;
use thiserror::Error;

/// Why a report was not written.
#[derive(Clone, Copy, Debug, PartialEq, Eq, Error)]
pub enum ReportFault {
    /// Memory ran out; nothing was written.
    #[error("no memory")]
    NoMemory,
    /// The writer failed; it has taken a front of the text.
    #[error("the writer failed")]
    WriteFault,
}

/// Writes which dialled digits two configurations plan otherwise, and how, a line or a row for each
/// set of them, and for each of the others too if all are to be listed. Gives whether the two
/// configurations differ: whether they plan some digits otherwise, or have other default
/// technologies. `WriteFault` comes exactly if the writer fails in this call.
pub fn write_difference<W: Sink>(
    alloc: Global,
    old: &Tables,
    new: &Tables,
    listing: Listing,
    form: Form,
    writer: &mut W,
) -> Result<bool, ReportFault>
    ensures written { Writes (W.contents writer.old) (W.contents writer.new)
        (IsReport old.now.commands new.now.commands listing form) result }
    ensures noted { NotesIf is_write_fault (W.failures writer.old) (W.failures writer.new) result }
{
    let Ok(report) = report_on(alloc, old, new, listing, form) else {
        return Err(ReportFault::NoMemory);
    };
    match write_whole(writer, report.text.as_slice()) {
        Ok(()) => Ok(report.differs),
        Err(WriteFault) => Err(ReportFault::WriteFault),
    }
}
