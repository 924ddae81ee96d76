//! Reloads: another configuration in place of the one in force.

ghost use Rattle.std.specs.Prelude.{◌≡◌};
ghost use Rattle.std.specs.Arc.{arc_value};
ghost use Rattle.gk_terms.specs.Text.{lines_of};
ghost use Rattle.rulings.specs.Events.{Reloading};
ghost use Rattle.gk_protocol.specs.CoreAnswers.{MayReload, Replies};
ghost use Rattle.gk_protocol.specs.Requests.{reload_without_memory};

use crate::answers::Answer;
use crate::owned_lines::OwnedLines;
use crate::owned_tables::{NoTables, tables_of};
use admission::{Core, ReloadRefusal, Reply, reply_in};
use compiler::Tables;
use std::alloc::Global;
use std::sync::Arc;

/// Answers `CFG`: reads the lines, compiles them and puts them in force, whole. The lines are read
/// and compiled before anything is asked of the core: a fault of a line is named although no
/// further reload is allowed. Once they are read they are let go, so that their memory is free for
/// the tables.
pub(crate) fn reload(
    core: &mut Core,
    alloc: Global,
    sequence: u32,
    lines: &mut OwnedLines,
) -> Answer
    ensures { MayReload core.old sequence (lines_of lines.old) result core.new }
{
    match tables_of(alloc, lines) {
        Ok(tables) => put_in_force(core, sequence, tables),
        Err(NoTables::Faulty(fault)) => Answer::Misconfigured { sequence, fault },
        Err(NoTables::NoMemory) => reload_without_memory(sequence),
    }
}

/// Puts these tables in force: the core's reply, as the answer to the request of this number.
fn put_in_force(core: &mut Core, sequence: u32, tables: Arc<Tables>) -> Answer
    ensures { Replies core.old sequence (Reloading (arc_value tables).commands) result core.new }
{
    let answer = core.reload(tables);
    let reply = reply_in(&answer);
    Answer::Reply { sequence, reply }
}

/// The answer to the reload of this number if memory ran out for it.
pub fn reload_without_memory(sequence: u32) -> Answer
    ensures { result ≡ reload_without_memory sequence }
{
    let reason = ReloadRefusal::NoMemory;
    let reply = Reply::ReloadRefused { reason };
    Answer::Reply { sequence, reply }
}
