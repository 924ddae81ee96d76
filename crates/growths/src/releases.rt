//! Releases of a core while each growth is refused.

use admission::{Core, STATED_LIMITS};
use compiler::Tables;
use gk_terms::Units;
use growth_logs::{Hoard, Log, MOST_CALLS, Terms, shared_tables, texts};
use std::alloc::Global;
use std::sync::Arc;

/// Opens calls and reloads three times, uses up memory, and releases the calls.
pub fn release_all(alloc: Global, log: &mut Log) {
    let Some(tables) = shared_tables(alloc, texts::ZONES, log) else {
        return log.fault(b"compile");
    };
    let Some(other) = shared_tables(alloc, texts::OTHER_ZONES, log) else {
        return log.fault(b"compile");
    };
    let (Some(terms), Ok(mut hoard)) = (Terms::new(), Hoard::new(alloc)) else {
        return log.fault(b"Hoard::new");
    };
    let Ok(mut core) = Core::new(alloc, tables, STATED_LIMITS) else {
        return log.fault(b"Core::new");
    };
    open_calls(alloc, &mut core, &other, &terms, log);
    release_calls(alloc, &mut core, &terms, &mut hoard, log);
    drop(core);
}

/// Registers the gateway, opens calls, half of them for another gatekeeper, and reloads three
/// times.
fn open_calls(alloc: Global, core: &mut Core, other: &Arc<Tables>, terms: &Terms, log: &mut Log) {
    if core.register(terms.endpoint(alloc, log)).is_err() {
        log.fault(b"register");
    }
    for call in 1..MOST_CALLS + 1 {
        let opened = if call % 2 == 0 {
            core.incoming(&terms.id, call, Units::new(1))
        } else {
            let routed = core.route_here(&terms.digits);
            core.admit(&routed, &terms.id, call, Units::new(1))
        };
        if opened.is_err() {
            log.fault(b"admit");
        }
    }
    log.count(b"open", core.calls().len());
    for _ in 0..3 {
        reload(core, other, log);
    }
    log.count(b"version", core.version().value() as usize);
}

/// Puts the other tables in force.
fn reload(core: &mut Core, other: &Arc<Tables>, log: &mut Log) {
    let Ok(tables) = Arc::try_clone(other) else {
        return log.fault(b"try_clone");
    };
    if core.reload(tables).is_err() {
        log.fault(b"reload");
    }
}

/// Releases each call once memory is used up again.
fn release_calls(alloc: Global, core: &mut Core, terms: &Terms, hoard: &mut Hoard, log: &mut Log) {
    let mut released = 0usize;
    for call in 1..MOST_CALLS + 1 {
        if !hoard.take_all(alloc) {
            return log.fault(b"Hoard::take_all");
        }
        if core.release(&terms.id, call).is_ok() {
            released = released.saturating_add(1);
        }
    }
    log.count(b"released", released);
    log.count(b"open", core.calls().len());
    log.count(b"record", core.record().len());
}
