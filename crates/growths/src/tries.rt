//! Tables of patterns, which are built again if that lacks memory.

use digit_patterns::{Pattern, PlainTable, PrefixTable, TableFault};
use gk_terms::Dialled;
use growth_logs::Log;
use raw_trie::{RawTrie, TrieFault};
use std::alloc::Global;

/// Builds a trie and a plain table of two patterns, and says to which value each leads 9123.
pub fn build_tables(alloc: Global, log: &mut Log) {
    let (Ok(here), Ok(there)) = (Pattern::parse(b"408*"), Pattern::parse(b"9*")) else {
        return log.fault(b"Pattern::parse");
    };
    let rows = [(here, 5), (there, 7)];
    if let Some(trie) = trie_of(alloc, &rows, log) {
        count_best(b"RawTrie::build", &trie, log);
    }
    if let Some(table) = table_of(alloc, &rows, log) {
        count_best(b"PlainTable::build", &table, log);
    }
}

/// Says to which value a table leads 9123.
fn count_best<T: PrefixTable>(call: &[u8], table: &T, log: &mut Log) {
    let Ok(digits) = Dialled::read(b"9123") else {
        return log.fault(b"Dialled::read");
    };
    match table.best(&digits, 0) {
        Some(hit) => log.count(call, hit.value as usize),
        None => log.fault(call),
    }
}

/// The trie of some rows.
fn trie_of(alloc: Global, rows: &[(Pattern, u32)], log: &mut Log) -> Option<RawTrie> {
    match RawTrie::build(alloc, rows, 64) {
        Ok(trie) => Some(trie),
        Err(fault) => {
            log.refused(b"RawTrie::build", fault == TrieFault::NoMemory);
            RawTrie::build(alloc, rows, 64).ok()
        }
    }
}

/// The plain table of some rows.
fn table_of(alloc: Global, rows: &[(Pattern, u32)], log: &mut Log) -> Option<PlainTable> {
    match PlainTable::build(alloc, rows) {
        Ok(table) => Some(table),
        Err(fault) => {
            log.refused(b"PlainTable::build", fault == TableFault::NoMemory);
            PlainTable::build(alloc, rows).ok()
        }
    }
}
