//! What the tests of trials share: a configuration, endpoints, the calls of a record, and a
//! candidate.

use call_files::read_calls;
use call_rows::Snapshot;
use command_reader::read;
use compiler::Tables;
use gk_terms::{Address, Dialled, Name, TechPrefix};
use registry::{Endpoint, EndpointKind, Registry};
use std::alloc::Global;
use std::sync::Arc;

/// The candidate: digits that begin with 9 go to `gk-b`, and not to another gatekeeper as they did.
pub(crate) const CANDIDATE: &[u8] = b"gatekeeper\n \
zone local gk-a example.com 10.0.0.1\n \
zone local gk-b example.com\n \
zone remote gk-x example.com 10.9.0.1 1719 cost 50\n \
zone remote gk-y example.com 10.9.0.2 1719 cost 20\n \
zone prefix gk-a 408*\n \
zone prefix gk-b 4085......\n \
zone prefix gk-b 9*\n \
gw-type-prefix 1#* default-technology\n \
gw-type-prefix 2# hopoff gk-x\n \
bandwidth total zone gk-a 256\n \
bandwidth session default 128\n \
no shutdown\n\
end\n";

/// The calls. The second is released, and the last one was refused for a limit.
pub(crate) const CALLS: &[u8] = b"number,event,call,zone,digits,units,granted,route\n\
5,ARQ,1001,gk-a,9123,640,yes,ZONE gk-y 10.9.0.2:1719\n\
6,ARQ,1002,gk-a,4085551234,1280,yes,GW gb1 10.0.2.1:1720\n\
7,ARQ,1003,gk-b,9124,640,yes,ZONE gk-y 10.9.0.2:1719\n\
8,DRQ,1002,,,,,\n\
9,ARQ,1004,gk-a,2#9123,1280,yes,ZONE gk-x 10.9.0.1:1719\n\
10,ARQ,1005,gk-a,9125,1280,no,ZONE gk-y 10.9.0.2:1719\n";

/// Calls of which two were answered for other gatekeepers. The second answer was refused for a
/// limit.
pub(crate) const ANSWERED: &[u8] = b"number,event,call,zone,digits,units,granted,route\n\
5,ANS,2001,gk-b,,1280,yes,GW gb1 10.0.2.1:1720\n\
6,ANS,2002,gk-a,,1281,no,TERM ta 10.0.1.1:1720\n\
7,ARQ,1001,gk-a,4085551234,640,yes,GW gb1 10.0.2.1:1720\n\
11,DRQ,2001,,,,,\n";

/// Answers in a zone that the candidate has, in one that is another gatekeeper's there, and in one
/// that it does not have.
pub(crate) const ANSWERED_ELSEWHERE: &[u8] = b"number,event,call,zone,digits,units,granted,route\n\
1,ANS,1,gk-a,,640,yes,TERM t 10.0.1.9:1720\n\
2,BRQ,1,,,800,,\n\
3,ANS,2,gk-x,,1280,yes,GW g 10.9.0.3:1720\n\
4,ANS,3,gk-c,,1280,yes,GW g 10.0.3.1:1720\n\
5,DRQ,1,,,,,\n";

/// The tables of a configuration.
pub(crate) fn tables_of(alloc: Global, configuration: &[u8]) -> Option<Arc<Tables>> {
    let commands = read(alloc, configuration).ok()?;
    let tables = Tables::compile(alloc, commands).ok()?;
    Arc::new(alloc, tables).ok()
}

/// The calls of a call file, with the endpoints that were registered after them.
pub(crate) fn snapshot_of(alloc: Global, tables: &Tables, calls: &[u8]) -> Option<Snapshot> {
    let mut registry = Registry::new(alloc, 4);
    for (kind, id, zone, ip) in [
        (
            EndpointKind::Terminal,
            b"ta".as_slice(),
            b"gk-a".as_slice(),
            [10, 0, 1, 1],
        ),
        (EndpointKind::Gateway, b"ga", b"gk-a", [10, 0, 1, 2]),
        (EndpointKind::Gateway, b"gb1", b"gk-b", [10, 0, 2, 1]),
        (EndpointKind::Gateway, b"gb2", b"gk-b", [10, 0, 2, 2]),
    ] {
        if !is_registered(alloc, &mut registry, tables, kind, id, zone, ip) {
            return None;
        }
    }
    let calls = read_calls(alloc, calls).ok()?;
    Some(calls.with_endpoints(registry))
}

/// Whether an endpoint is registered, with an alias or a technology prefix.
fn is_registered(
    alloc: Global,
    registry: &mut Registry,
    tables: &Tables,
    kind: EndpointKind,
    id: &[u8],
    zone: &[u8],
    ip: [u8; 4],
) -> bool {
    let (Ok(id), Ok(zone)) = (Name::read(id), Name::read(zone)) else {
        return false;
    };
    let mut endpoint = Endpoint::new(alloc, kind, id, zone, Address::new(ip, 1720));
    is_named(&mut endpoint, kind) && registry.register(endpoint, tables).is_ok()
}

/// Whether a terminal has its alias, or a gateway its technology prefix.
fn is_named(endpoint: &mut Endpoint, kind: EndpointKind) -> bool {
    match kind {
        EndpointKind::Terminal => match Dialled::read(b"5551000") {
            Ok(alias) => endpoint.add_alias(alias).is_ok(),
            Err(_) => false,
        },
        EndpointKind::Gateway => match TechPrefix::read(b"1#") {
            Ok(prefix) => endpoint.add_technology(prefix).is_ok(),
            Err(_) => false,
        },
    }
}
