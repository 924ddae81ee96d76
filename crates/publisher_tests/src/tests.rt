//! Places, publications, and what readers read.

ghost use Rattle.std.specs.Prelude.{◌≡◌, ◌+◌, ◌<◌, ◌≤◌, length};

use command_reader::read;
use compiler::{Plan, Tables, ZoneNo};
use gk_terms::{Dialled, Version};
use publisher::{Blank, Imprint, Lost, Publisher, Reader, TablesFault};
use std::alloc::Global;
use std::marker::Brand;
use std::process::Abort;
use std::sync::{Arc, Wait};
use std::test::Fail;

/// Numbers that begin with 1 go to zone 1.
pub(crate) const TO_ONE: &str =
    "zone local a d\nzone remote x d 10.9.0.1\nzone remote y d 10.9.0.2\n\
    zone prefix x 1*\n";

/// Numbers that begin with 1 go to zone 2.
const TO_TWO: &str = "zone local a d\nzone remote x d 10.9.0.1\nzone remote y d 10.9.0.2\n\
    zone prefix y 1*\n";

/// The tables of a configuration.
pub(crate) fn tables_of(
    rt: &impl Abort,
    alloc: Global,
    configuration: &str,
) -> Result<Arc<Tables, Global>, Fail> {
    let Ok(commands) = read(alloc, configuration.as_bytes()) else {
        panic!(rt; "refused");
    };
    let tables = Tables::compile(alloc, commands)?;
    Ok(Arc::new(alloc, tables)?)
}

/// The tables that lead to zone 1 and those that lead to zone 2.
pub(crate) fn both(
    rt: &impl Abort,
    alloc: Global,
) -> Result<(Arc<Tables, Global>, Arc<Tables, Global>), Fail> {
    Ok((tables_of(rt, alloc, TO_ONE)?, tables_of(rt, alloc, TO_TWO)?))
}

/// A reader that has read nothing.
pub(crate) fn reader_of<J: Imprint, R: Abort>(rt: &R, publisher: &mut Publisher<J>) -> Reader<J>
    ensures { publisher.new ≡ publisher.old }
{
    let Ok(reader) = publisher.reader() else {
        panic!(rt; "no reader");
    };
    reader
}

/// A version, and the number of the zone to which it leads 12.
pub(crate) type InForce = (u32, u32);

/// What a reader reads of version 1, which it holds, and of version 2, of which it was told: its
/// tables and its route.
type Read = (Option<InForce>, Option<InForce>, Option<InForce>);

/// Why a reader reads nothing: no version, no tables, no route.
type Refusals = (Option<Lost>, Option<TablesFault>, Option<Lost>);

#[test]
fn what_was_told_is_read_and_what_is_held_stays(rt: HostRuntime) -> Result<(), Fail> {
    let tables = both(&rt, rt.alloc())?;
    let (read, refusals) = read_when_told::<Brand, _>(&rt, rt.alloc(), Blank::new(), &tables);
    assert!(rt; read == (Some((1, 1)), Some((2, 2)), Some((2, 2))));
    assert!(rt; refusals == (Some(Lost), Some(TablesFault::Lost), Some(Lost)));
    assert!(rt; Arc::strong_count(&tables.0) == 1);
    Ok(())
}

/// What a reader reads, the tables that it holds once the publisher is closed; and why it then
/// reads nothing.
fn read_when_told<J: Imprint, R: Wait + Abort>(
    rt: &R,
    alloc: Global,
    blank: Blank,
    tables: &(Arc<Tables, Global>, Arc<Tables, Global>),
) -> (Read, Refusals)
    requires { blank ≡ J.book }
{
    let Ok(first) = Arc::try_clone(&tables.0) else {
        panic!(rt; "too many owners");
    };
    let Ok(second) = Arc::try_clone(&tables.1) else {
        panic!(rt; "too many owners");
    };
    let Ok(mut publisher) = Publisher::<J>::new(alloc, blank, first, 1) else {
        panic!(rt; "refused");
    };
    let mut reader = reader_of(rt, &mut publisher);
    let held = reader.read();
    let _ = version_told(rt, &mut publisher, &mut reader, second);
    let read = reader.read();
    let routed = zone_of(rt, &mut reader);
    publisher.close(rt);
    let read = (in_force(rt, held), in_force(rt, read), routed);
    (read, refusals_of(rt, &mut reader))
}

/// The version that was read, and where its tables lead 12.
fn in_force<R: Abort>(
    rt: &R,
    read: Result<(Version, Arc<Tables, Global>), TablesFault>,
) -> Option<InForce> {
    match read {
        Ok((version, tables)) => Some((version.value(), zone_in(&tables.plan(&digits(rt)))?)),
        Err(_) => None,
    }
}

/// The number 12.
fn digits<R: Abort>(rt: &R) -> Dialled {
    let Ok(digits) = Dialled::read(b"12") else {
        panic!(rt; "no digits");
    };
    digits
}

/// The number of the zone of a plan, 1 or 2.
fn zone_in(plan: &Plan) -> Option<u32> {
    if *plan == to(1) {
        return Some(1);
    }
    if *plan == to(2) {
        return Some(2);
    }
    None
}

/// To the remote zone of this number.
pub(crate) fn to(zone: u32) -> Plan {
    Plan::Remote(ZoneNo::new(zone))
}

/// Publishes these tables, and tells the reader of what is published. The number of the tables, if
/// they were not refused.
fn version_told<J: Imprint, R: Wait + Abort>(
    rt: &R,
    publisher: &mut Publisher<J>,
    reader: &mut Reader<J>,
    tables: Arc<Tables, Global>,
) -> Option<u32>
    requires { length publisher.old < 10 }
    ensures { length publisher.new ≤ length publisher.old + 1 }
{
    let published = publisher.publish(rt, tables);
    reader.learn(publisher.tell());
    match published {
        Ok(version) => Some(version.value()),
        Err(_) => None,
    }
}

/// Why a reader doesn't tell the version, the tables and a route, if it doesn't.
fn refusals_of<J: Imprint, R: Abort>(rt: &R, reader: &mut Reader<J>) -> Refusals {
    let version = reader.version().err();
    let read = match reader.read() {
        Ok(_) => None,
        Err(fault) => Some(fault),
    };
    let route = reader.route(&digits(rt)).err();
    (version, read, route)
}

/// The version in force, and the number of the zone to which it leads 12.
pub(crate) fn zone_of<J: Imprint, R: Abort>(rt: &R, reader: &mut Reader<J>) -> Option<InForce> {
    let Ok(routed) = reader.route(&digits(rt)) else {
        return None;
    };
    Some((routed.version.value(), zone_in(&routed.plan)?))
}
