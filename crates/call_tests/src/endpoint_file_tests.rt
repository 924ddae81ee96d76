//! A file of endpoints: what it gives, and each of its faults.

use command_reader::read;
use compiler::Tables;
use gk_protocol::{EndpointsFaultKind, read_endpoints};
use std::alloc::Global;
use std::sync::Arc;

/// Two local zones, of which `a` is the first.
const ZONES: &[u8] = b"zone local a example.com\nzone local b example.com\n";

/// The tables of the zones.
fn tables(alloc: Global) -> Option<Arc<Tables>> {
    let commands = read(alloc, ZONES).ok()?;
    let tables = Tables::compile(alloc, commands).ok()?;
    Arc::new(alloc, tables).ok()
}

/// How many endpoints a file gives; or the line of its first fault, and its kind.
fn given(
    alloc: Global,
    text: &[u8],
    tables: &Tables,
) -> (usize, Option<(u32, EndpointsFaultKind)>) {
    match read_endpoints(alloc, text, tables) {
        Ok(registry) => (registry.len(), None),
        Err(fault) => (0, Some((fault.line, fault.kind))),
    }
}

#[test]
fn a_file_gives_its_endpoints(rt: HostRuntime) {
    let Some(tables) = tables(rt.alloc()) else {
        panic!(rt; "no tables");
    };
    let bad = |line| (0, Some((line, EndpointsFaultKind::BadLine)));
    let duplicate = |line| (0, Some((line, EndpointsFaultKind::DuplicateAlias)));
    for (text, want) in [
        (b"".as_slice(), (0, None)),
        (
            b"RRQ 1 TERM ta - 10.0.0.1 e164=7\n\n! RRQ\nRRQ 1 GW gb b 10.0.0.2 tech=1",
            (2, None),
        ),
        (
            b"RRQ 1 TERM ta a 10.0.0.1\r\nRRQ 2 TERM tx x 10.0.0.1\n",
            (1, None),
        ),
        (
            b"RRQ 1 TERM ta a 10.0.0.1\nRRQ 2 TERM ta b 10.0.0.1\n",
            (1, None),
        ),
        (b"RRQ 1 TERM ta a 10.0.0.1\nURQ 2 ta\n", bad(2)),
        (b"\nRRQ 0 TERM ta a 10.0.0.1\n", bad(2)),
        (
            b"RRQ 1 TERM ta a 10.0.0.1\nRRQ 2 TERM ta a 10.0.0.2\n",
            duplicate(2),
        ),
        (
            b"RRQ 1 TERM ta a 10.0.0.1 e164=7\nRRQ 2 TERM tb b 10.0.0.2 e164=7\n",
            duplicate(2),
        ),
    ] {
        assert!(rt; given(rt.alloc(), text, &tables) == want);
    }
}
