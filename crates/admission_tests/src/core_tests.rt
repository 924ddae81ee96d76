//! The core: each of its calls once, with receipts that its record confirms.

use crate::test_cores::{core_of, terminal_in};
use admission::{Core, Destination, Receipt, Reply, Route, route};
use gk_terms::{Address, Dialled, Name, Units};
use std::alloc::Global;
use std::process::Abort;
use std::test::Fail;

#[test]
fn answers_each_call(rt: HostRuntime) -> Result<(), Fail> {
    let mut core = core_of(rt.alloc())?;
    assert_answers(&rt, rt.alloc(), &mut core)
}

/// Asserts that `ta` registers, opens a call, changes it, releases it and leaves, each recorded, and
/// what a snapshot has of that.
fn assert_answers(rt: &impl Abort, alloc: Global, core: &mut Core) -> Result<(), Fail> {
    let (ta, zone) = (Name::read(b"ta")?, Name::read(b"gk-a")?);
    core.register(terminal_in(alloc, ta, zone))?;
    let receipt = admitted(rt, core, &ta)?;
    core.change(&ta, 1001, Units::new(5))?;
    assert_eq!(rt; shown_of_before(core, alloc, &ta), Some((2, 1)));
    assert_eq!(rt; (core.calls().len(), core.registry().len()), (0, 0));
    assert_eq!(rt; core.record().len(), 5);
    assert_eq!(rt; core.record().confirm(&[receipt, receipt]), Ok(()));
    let another = Receipt {
        number: 3,
        ..receipt
    };
    assert_eq!(rt; core.record().confirm(&[receipt, another]), Err(1));
    assert_snapshot(rt, alloc, core)
}

/// Releases the call and unregisters `ta`; how many rows and endpoints the core as it was before
/// these shows after them.
fn shown_of_before(core: &mut Core, alloc: Global, ta: &Name) -> Option<(usize, usize)> {
    let past = core.past().ok()?;
    let gone = core.release(ta, 1001).is_ok() && core.unregister(ta).is_ok();
    match past.snapshot(alloc) {
        Ok(snapshot) if gone => Some((snapshot.len(), snapshot.endpoints().len())),
        _ => None,
    }
}

/// Asserts that a snapshot has a row for the admission, the change and the release.
fn assert_snapshot(rt: &impl Abort, alloc: Global, core: &Core) -> Result<(), Fail> {
    let snapshot = core.snapshot(alloc)?;
    assert_eq!(rt; (snapshot.len(), snapshot.endpoints().len()), (3, 0));
    Ok(())
}

/// Asserts that `ta` opens the call 1001 to the zone `gk-x`. The receipt.
fn admitted(rt: &impl Abort, core: &mut Core, ta: &Name) -> Result<Receipt, Fail> {
    let (call, units) = (1001, Units::new(640));
    let (dialled, zone) = (Dialled::read(b"9123")?, Name::read(b"gk-a")?);
    let destination = Destination::Zone {
        name: Name::read(b"gk-x")?,
        address: Address::new([10, 9, 0, 1], 1719),
    };
    let led = route(core.tables(), core.registry(), &zone, &dialled);
    assert!(rt; led == Route::To(destination));
    let routed = core.route_here(&dialled);
    let (reply, receipt) = core.admit(&routed, ta, call, units)?;
    let want = Reply::Admitted {
        call,
        destination,
        units,
    };
    assert_eq!(rt; reply, want);
    assert_eq!(rt; (receipt.number, receipt.reply), (2, want));
    Ok(receipt)
}
