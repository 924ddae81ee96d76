//! The tables of the lines that belong to a request.

ghost use Rattle.std.specs.Prelude.{◌≡◌, [], Ok, OnOk, MatchResult};
ghost use Rattle.std.specs.Arc.{arc_value};
ghost use Rattle.gk_terms.specs.Text.{lines_of};
ghost use Rattle.gk_commands.specs.Reading.{reading_in};
ghost use Rattle.gk_protocol.specs.Answering.{IsNoConfiguration};

use crate::owned_lines::OwnedLines;
use command_reader::read;
use compiler::Tables;
use gk_commands::{FaultKind, LineFault};
use std::alloc::{AllocError, AllocFailed, Global};
use std::sync::Arc;

/// Why there are no tables of lines.
#[derive(Clone, Copy, Debug, PartialEq, Eq)]
pub enum NoTables {
    /// The first fault of the lines, which is not that memory ran out.
    Faulty(LineFault),
    /// Memory ran out while the lines were read, compiled or shared.
    NoMemory,
}

/// The tables of the configuration that the lines are, to be put in force by a reload. `Faulty` has
/// the first fault of the lines. `NoMemory` comes only at a line that would be kept, after lines
/// without a fault, or for lines that are accepted. The lines are let go, as by `tables_in`.
pub fn tables_of(alloc: Global, lines: &mut OwnedLines) -> Result<Arc<Tables>, NoTables>
    ensures { MatchResult result
        (λ tables. reading_in (lines_of lines.old) ≡ Ok (arc_value tables))
        (IsNoConfiguration (lines_of lines.old)) }
{
    let tables = tables_in(alloc, lines)?;
    let shared = Arc::new(alloc, tables)?;
    Ok(shared)
}

/// Reads the lines and compiles them, with the errors of `tables_of`. Once they are read they are
/// let go, so that their memory is free for the tables.
pub fn tables_in(alloc: Global, lines: &mut OwnedLines) -> Result<Tables, NoTables>
    ensures read { MatchResult result (λ tables. reading_in (lines_of lines.old) ≡ Ok tables)
        (IsNoConfiguration (lines_of lines.old)) }
    ensures cleared { OnOk result (lines.new ≡ []) }
{
    let commands = read(alloc, lines.as_bytes())?;
    lines.clear();
    let tables = Tables::compile(alloc, commands)?;
    Ok(tables)
}

impl From<LineFault> for NoTables {
    ghost use Rattle.gk_protocol.specs.Answering.{IsNoTablesFor};

    ghost from_gives = { IsNoTablesFor };

    fn from(fault: LineFault) -> NoTables {
        match fault.kind {
            FaultKind::NoMemory => NoTables::NoMemory,
            _ => NoTables::Faulty(fault),
        }
    }
}

impl From<AllocError> for NoTables {
    ghost use Rattle.std.specs.Prelude.{◌≡◌};
    ghost use Rattle.gk_protocol.specs.declared.owned_tables.NoTables.TheVariants.{NoMemory};

    ghost from_gives = { λ _ none. none ≡ NoMemory };

    fn from(_refused: AllocError) -> NoTables {
        NoTables::NoMemory
    }
}

impl<T: Drop> From<AllocFailed<T>> for NoTables {
    ghost use Rattle.std.specs.Prelude.{◌≡◌};
    ghost use Rattle.gk_protocol.specs.declared.owned_tables.NoTables.TheVariants.{NoMemory};

    ghost from_gives = { λ _ none. none ≡ NoMemory };

    fn from(_refused: AllocFailed<T>) -> NoTables {
        NoTables::NoMemory
    }
}
