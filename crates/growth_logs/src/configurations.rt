//! Configurations. Each call that lacks memory is made again.

use crate::logs::Log;
use command_reader::read;
use compiler::Tables;
use gk_commands::{Commands, FaultKind};
use std::alloc::Global;
use std::sync::Arc;

/// The commands of a text.
pub fn commands_of(alloc: Global, text: &[u8], log: &mut Log) -> Option<Commands> {
    match read(alloc, text) {
        Ok(commands) => Some(commands),
        Err(fault) => {
            log.refused(b"read", fault.kind == FaultKind::NoMemory);
            read(alloc, text).ok()
        }
    }
}

/// The tables of a text, for several owners.
pub fn shared_tables(alloc: Global, text: &[u8], log: &mut Log) -> Option<Arc<Tables>> {
    let tables = tables_of(alloc, text, log)?;
    log.count(b"compile", tables.commands().len());
    match Arc::new(alloc, tables) {
        Ok(shared) => Some(shared),
        Err(failed) => {
            log.lacked(b"share");
            Arc::new(alloc, failed.value).ok()
        }
    }
}

/// The tables of a text.
fn tables_of(alloc: Global, text: &[u8], log: &mut Log) -> Option<Tables> {
    let commands = commands_of(alloc, text, log)?;
    log.count(b"read", commands.len());
    if let Ok(tables) = Tables::compile(alloc, commands) {
        return Some(tables);
    }
    log.lacked(b"compile");
    let commands = commands_of(alloc, text, log)?;
    Tables::compile(alloc, commands).ok()
}
