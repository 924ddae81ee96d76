//! The tables of a few lines, and each of their calls once; the cases show what they choose.

use command_reader::read;
use compiler::{LimitKind, Plan, RowNo, Tables, ZoneNo};
use gk_terms::{Dialled, Name, TechPrefix};
use std::alloc::Global;
use std::process::Abort;
use std::sync::Arc;
use std::test::Fail;

/// Two zones, a row with a gateway, a technology prefix and two limits.
const LINES: &[u8] = b"zone remote x d 10.9.0.1\nzone local a d\n\
    zone prefix a 408* gw-priority 9 g\ngw-type-prefix 1#* default-technology\n\
    bandwidth total zone a 1\nbandwidth remote 64\n";

#[test]
fn tells_what_the_lines_say(rt: HostRuntime) -> Result<(), Fail> {
    let tables = tables_of(rt.alloc())?;
    assert_told(&rt, &tables)
}

/// The tables of the lines.
fn tables_of(alloc: Global) -> Result<Arc<Tables>, Fail> {
    let tables = Tables::compile(alloc, read(alloc, LINES)?)?;
    Ok(Arc::new(alloc, tables)?)
}

/// Asserts what the tables tell.
fn assert_told(rt: &impl Abort, tables: &Tables) -> Result<(), Fail> {
    assert_plan(rt, tables)?;
    assert_zones(rt, tables)?;
    assert_limits(rt, tables);
    Ok(())
}

/// A number with the technology prefix leads to the row of the local zone, where the gateway has
/// the priority 9.
fn assert_plan(rt: &impl Abort, tables: &Tables) -> Result<(), Fail> {
    let digits = Dialled::read(b"1#4085")?;
    let (technology, row) = (Some(TechPrefix::read(b"1#")?), Some(RowNo::new(0)));
    let want = Plan::Local {
        zone: ZoneNo::new(1),
        technology,
        row,
    };
    assert!(rt; tables.plan(&digits) == want);
    assert!(rt; tables.default_technology() == technology);
    assert!(rt; tables.gateways(row).is_some());
    assert!(rt; tables.priority(row, &Name::read(b"g")?) == 9);
    Ok(())
}

/// The local zone is the first one, and is found by its name.
fn assert_zones(rt: &impl Abort, tables: &Tables) -> Result<(), Fail> {
    let zone = Name::read(b"a")?;
    assert!(rt; tables.first_local() == zone);
    assert!(rt; tables.local_zone(&Name::read(b"-")?) == Some(zone));
    let Some(view) = tables.zone_of(&zone) else {
        panic!(rt; "no zone");
    };
    assert!(rt; view.no == ZoneNo::new(1));
    assert!(rt; tables.limit(LimitKind::Total, &zone) == Some(10));
    assert!(rt; tables.limits(&zone).total == Some(10));
    Ok(())
}

/// The limit of calls to remote zones, and how many commands there are.
fn assert_limits(rt: &impl Abort, tables: &Tables) {
    assert!(rt; tables.remote_limit() == Some(640));
    assert!(rt; tables.commands().len() == 6);
}
