//! Releases of a core that publishes while each growth is refused.

ghost use Rattle.std.specs.Prelude.{◌≡◌};

use admission::STATED_LIMITS;
use compiler::Tables;
use gk_terms::Units;
use growth_logs::{Hoard, Log, MOST_CALLS, Terms, shared_tables, texts};
use live_desk::Live;
use publisher::{Blank, Imprint};
use std::alloc::Global;
use std::marker::Brand;
use std::sync::{Arc, Wait};

/// Opens calls and reloads three times, uses up memory, and releases the calls.
pub fn release_all<R: Wait>(rt: &R, alloc: Global, log: &mut Log) {
    let Some(tables) = shared_tables(alloc, texts::ZONES, log) else {
        return log.fault(b"compile");
    };
    let Some(other) = shared_tables(alloc, texts::OTHER_ZONES, log) else {
        return log.fault(b"compile");
    };
    release_opened::<Brand, R>(rt, alloc, Blank::new(), tables, &other, log);
}

/// The same once it is opened.
fn release_opened<J: Imprint, R: Wait>(
    rt: &R,
    alloc: Global,
    blank: Blank,
    tables: Arc<Tables>,
    other: &Arc<Tables>,
    log: &mut Log,
)
    requires { blank ≡ J.book }
{
    let Ok(mut live) = Live::<J>::new(alloc, blank, tables, STATED_LIMITS, 1) else {
        return log.fault(b"Live::new");
    };
    match (Terms::new(), Hoard::new(alloc)) {
        (Some(terms), Ok(mut hoard)) => {
            open_calls(rt, alloc, &mut live, other, &terms, log);
            release_calls(alloc, &mut live, &terms, &mut hoard, log);
        }
        _ => log.fault(b"Hoard::new"),
    }
    live.close(rt);
}

/// Registers the gateway, opens calls, half of them for another gatekeeper, and reloads three
/// times.
fn open_calls<J: Imprint, R: Wait>(
    rt: &R,
    alloc: Global,
    live: &mut Live<J>,
    other: &Arc<Tables>,
    terms: &Terms,
    log: &mut Log,
) {
    if live.register(terms.endpoint(alloc, log)).is_err() {
        log.fault(b"Live::register");
    }
    for call in 1..MOST_CALLS + 1 {
        let opened = if call % 2 == 0 {
            live.incoming(&terms.id, call, Units::new(1))
        } else {
            let routed = live.route_here(&terms.digits);
            live.admit(&routed, &terms.id, call, Units::new(1))
        };
        if opened.is_err() {
            log.fault(b"Live::admit");
        }
    }
    log.count(b"open", live.calls().len());
    for _ in 0..3 {
        reload(rt, live, other, log);
    }
    log.count(b"version", live.version().value() as usize);
}

/// Puts the other tables in force.
fn reload<J: Imprint, R: Wait>(rt: &R, live: &mut Live<J>, other: &Arc<Tables>, log: &mut Log) {
    let Ok(tables) = Arc::try_clone(other) else {
        return log.fault(b"try_clone");
    };
    if live.reload(rt, tables).is_err() {
        log.fault(b"Live::reload");
    }
}

/// Releases each call once memory is used up again.
fn release_calls<J: Imprint>(
    alloc: Global,
    live: &mut Live<J>,
    terms: &Terms,
    hoard: &mut Hoard,
    log: &mut Log,
) {
    let mut released = 0usize;
    for call in 1..MOST_CALLS + 1 {
        if !hoard.take_all(alloc) {
            return log.fault(b"Hoard::take_all");
        }
        if live.release(&terms.id, call).is_ok() {
            released = released.saturating_add(1);
        }
    }
    log.count(b"released", released);
    log.count(b"open", live.calls().len());
    log.count(b"record", live.record().len());
}
