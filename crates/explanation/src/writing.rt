//! Writing an explanation.

ghost use Rattle.std.specs.Prelude.{IfOk, is_some};
ghost use Rattle.std.specs.Option.{option_copied};
ghost use Rattle.gk_lines.specs.Streams.{NotesIf};
ghost use Rattle.explanation.specs.Steps.{endpoints_known};
ghost use Rattle.explanation.specs.Writing.{IsExplained, Writes, is_write_fault};

use crate::explaining::explain;
use crate::text::Text;
use compiler::Tables;
use gk_lines::{Sink, WriteFault, write_whole};
use gk_terms::{Dialled, Name};
use registry::Registry;
use std::alloc::{AllocError, Global};
use thiserror::Error;

/// Why an explanation was not written.
#[derive(Clone, Copy, Debug, PartialEq, Eq, Error)]
pub enum ExplainFault {
    /// Memory ran out; nothing was written.
    #[error("no memory")]
    NoMemory,
    /// The writer failed; it has taken a front of the text.
    #[error("the writer failed")]
    WriteFault,
}

/// Writes why the digits go where they go for a caller of this zone, a line for each step that is
/// taken. The endpoints are those that are registered; without them it is what the configuration
/// alone says, and what is looked for. `WriteFault` comes exactly if the writer fails in this call.
pub fn write_explanation<W: Sink>(
    alloc: Global,
    tables: &Tables,
    endpoints: Option<&Registry>,
    caller: &Name,
    digits: &Dialled,
    writer: &mut W,
) -> Result<(), ExplainFault>
    ensures written { Writes (W.contents writer.old) (W.contents writer.new)
        (IsExplained tables.now.commands (endpoints_known (option_copied endpoints.entry))
        (is_some endpoints.entry) caller.now digits.now) result }
    ensures noted { NotesIf is_write_fault (W.failures writer.old) (W.failures writer.new) result }
{
    let Ok(text) = explained(alloc, tables, endpoints, caller, digits) else {
        return Err(ExplainFault::NoMemory);
    };
    match write_whole(writer, text.as_bytes()) {
        Ok(()) => Ok(()),
        Err(WriteFault) => Err(ExplainFault::WriteFault),
    }
}

/// The text of the explanation.
fn explained(
    alloc: Global,
    tables: &Tables,
    endpoints: Option<&Registry>,
    caller: &Name,
    digits: &Dialled,
) -> Result<Text, AllocError>
    ensures { IfOk result (IsExplained tables.now.commands
        (endpoints_known (option_copied endpoints.entry)) (is_some endpoints.entry) caller.now
        digits.now) }
{
    let explanation = explain(alloc, tables, endpoints, caller, digits)?;
    explanation.text(alloc, tables)
}
