//! Reloads: what a reservation leaves, and what the entries of past ones show.

use crate::test_cores::{ZONES, core_of, tables_of};
use admission::{Core, Entry, EventKind, Receipt, Record, ReloadedCommands, Reply};
use compiler::Tables;
use gk_terms::Version;
use std::alloc::Global;
use std::process::Abort;
use std::sync::Arc;
use std::test::Fail;

/// Other zones, in three commands: `gk-b` here, and `gk-x`, to which all numbers go.
const OTHER_ZONES: &[u8] = b"zone local gk-b example.com\n\
    zone remote gk-x example.com 10.9.0.1\n\
    zone prefix gk-x *\n";

#[test]
fn past_reloads_show_their_commands(rt: HostRuntime) -> Result<(), Fail> {
    let held = tables_of(rt.alloc(), ZONES)?;
    let mut core = core_of(rt.alloc())?;
    assert_shown(&rt, rt.alloc(), &mut core, &held)
}

/// Asserts what the entries of three reloads show, of which the second one's tables are held.
fn assert_shown(
    rt: &impl Abort,
    alloc: Global,
    core: &mut Core,
    held: &Arc<Tables>,
) -> Result<(), Fail> {
    let receipts = [
        reload_other(core, alloc)?,
        reload_held(core, held)?,
        reload_other(core, alloc)?,
    ];
    assert!(rt; receipts == [receipt(1, 2), receipt(2, 3), receipt(3, 4)]);
    assert!(rt; core.version() == Version::new(4));
    for (number, want) in [(1, (true, 3, 2)), (2, (false, 4, 3)), (3, (false, 3, 4))] {
        let shown = commands_reloaded(core.record(), alloc, number);
        assert!(rt; shown == Some(want), "entry {number}");
    }
    for receipt in &receipts {
        assert!(rt;
            has_receipt(core.record(), receipt),
            "entry {}",
            receipt.number
        );
    }
    Ok(())
}

/// The receipt of the reload that has this number, and puts this version in force.
fn receipt(number: u32, version: u32) -> Receipt {
    Receipt {
        number,
        kind: EventKind::Reload,
        id: None,
        call: None,
        reply: Reply::Reloaded {
            version: Version::new(version),
        },
    }
}

/// Puts the other zones in force.
fn reload_other(core: &mut Core, alloc: Global) -> Result<Receipt, Fail> {
    let (_, receipt) = core.reload(tables_of(alloc, OTHER_ZONES)?)?;
    Ok(receipt)
}

/// Puts these tables in force, for which a place is reserved first.
fn reload_held(core: &mut Core, held: &Arc<Tables>) -> Result<Receipt, Fail> {
    core.reserve_reload(held)?;
    let (_, receipt) = core.reload(Arc::try_clone(held)?)?;
    Ok(receipt)
}

/// Whether the entry of this number has the lines of its commands alone, how many commands it put
/// in force, and as which version.
fn commands_reloaded(record: &Record, alloc: Global, number: u32) -> Option<(bool, usize, u32)> {
    let entry = record.get(number)?;
    let Entry::Reload { commands, version } = &entry else {
        return None;
    };
    let as_lines = matches!(commands, ReloadedCommands::Lines(_));
    let commands = commands.commands(alloc).ok()?;
    Some((as_lines, commands.len(), version.value()))
}

/// Whether the entry has this receipt and its reply, and no row.
fn has_receipt(record: &Record, receipt: &Receipt) -> bool {
    let number = receipt.number;
    match &record.get(number) {
        Some(entry) => {
            entry.reply() == receipt.reply
                && entry.receipt(number) == *receipt
                && record.stands(receipt)
                && record.row(number).is_none()
        }
        None => false,
    }
}
