//! The events of a core. After each that lacks memory the state has to be as before, and then it is
//! asked again.

use crate::states::State;
use admission::{Core, ReloadRefusal, Reply, STATED_LIMITS, Snapshot};
use compiler::Tables;
use gk_lines::LineBuffer;
use gk_terms::Units;
use growth_logs::{Log, Terms, lacks_memory, show_reply};
use std::alloc::Global;
use std::sync::Arc;

/// What is asked of the core.
#[derive(Clone, Copy, Debug, PartialEq, Eq)]
enum Step {
    Register,
    Admit,
    Incoming,
    Change,
    Reserve,
    Reload,
    Release(u32),
    Unregister,
}

impl Step {
    /// The call.
    fn name(self) -> &'static [u8] {
        match self {
            Step::Register => b"register",
            Step::Admit => b"admit",
            Step::Incoming => b"incoming",
            Step::Change => b"change",
            Step::Reserve => b"reserve_reload",
            Step::Reload => b"reload",
            Step::Release(_) => b"release",
            Step::Unregister => b"unregister",
        }
    }
}

/// Asks a core one event after another, with a snapshot among them.
pub fn ask_all(alloc: Global, core: &mut Core, other: &Arc<Tables>, log: &mut Log) {
    let Some(terms) = Terms::new() else {
        return log.fault(b"terms");
    };
    for step in [
        Step::Register,
        Step::Admit,
        Step::Incoming,
        Step::Change,
        Step::Reload,
    ] {
        take_step(alloc, core, other, &terms, step, log);
    }
    count_snapshot(alloc, core, log);
    for step in [
        Step::Reserve,
        Step::Reload,
        Step::Release(1001),
        Step::Release(1002),
        Step::Unregister,
    ] {
        take_step(alloc, core, other, &terms, step, log);
    }
}

/// Asks a core of which nothing was asked one event, of each kind that takes no memory later, since
/// the first entry of a record makes room for more.
pub fn ask_first(alloc: Global, tables: &Arc<Tables>, log: &mut Log) {
    let Some(terms) = Terms::new() else {
        return log.fault(b"terms");
    };
    for step in [
        Step::Admit,
        Step::Incoming,
        Step::Change,
        Step::Reserve,
        Step::Reload,
        Step::Unregister,
    ] {
        ask_first_of(alloc, tables, &terms, step, log);
    }
}

/// Asks one event of a core of which nothing was asked.
fn ask_first_of(alloc: Global, tables: &Arc<Tables>, terms: &Terms, step: Step, log: &mut Log) {
    let Ok(opening) = Arc::try_clone(tables) else {
        return log.fault(b"try_clone");
    };
    match Core::new(alloc, opening, STATED_LIMITS) {
        Ok(mut core) => {
            take_step(alloc, &mut core, tables, terms, step, log);
            drop(core);
        }
        Err(_) => log.fault(b"Core::new"),
    }
}

/// Asks one event, and says the reply and the state.
fn take_step(
    alloc: Global,
    core: &mut Core,
    other: &Arc<Tables>,
    terms: &Terms,
    step: Step,
    log: &mut Log,
) {
    let before = State::of(core);
    let mut reply = reply_to(alloc, core, other, terms, step, log);
    if lacks_memory(&reply) {
        log.lacked(step.name());
        if State::of(core) != before {
            log.fault(step.name());
        }
        reply = reply_to(alloc, core, other, terms, step, log);
    }
    say_step(reply, &State::of(core), log);
}

/// Says a reply, and the state after it.
fn say_step(reply: Reply, state: &State, log: &mut Log) {
    let mut line = LineBuffer::new();
    show_reply(&mut line, 1, reply);
    state.show(&mut line);
    log.answer(line.as_bytes());
}

/// The reply to an event.
fn reply_to(
    alloc: Global,
    core: &mut Core,
    other: &Arc<Tables>,
    terms: &Terms,
    step: Step,
    log: &mut Log,
) -> Reply {
    let id = &terms.id;
    let answer = match step {
        Step::Register => core.register(terms.endpoint(alloc, log)),
        Step::Admit => {
            let routed = core.route_here(&terms.digits);
            core.admit(&routed, id, 1001, Units::new(640))
        }
        Step::Incoming => core.incoming(id, 1002, Units::new(64)),
        Step::Change => core.change(id, 1001, Units::new(320)),
        Step::Reserve => return reserve(core, other),
        Step::Reload => return reload(core, other),
        Step::Release(call) => core.release(id, call),
        Step::Unregister => core.unregister(id),
    };
    match answer {
        Ok((reply, _)) => reply,
        Err(reply) => reply,
    }
}

/// The reply to a reservation: the version in force, if there is a place.
fn reserve(core: &mut Core, other: &Arc<Tables>) -> Reply {
    match core.reserve_reload(other) {
        Ok(()) => Reply::Reloaded {
            version: core.version(),
        },
        Err(reply) => reply,
    }
}

/// The reply to a reload to the other tables.
fn reload(core: &mut Core, other: &Arc<Tables>) -> Reply {
    let reason = ReloadRefusal::NoMemory;
    let Ok(tables) = Arc::try_clone(other) else {
        return Reply::ReloadRefused { reason };
    };
    match core.reload(tables) {
        Ok((reply, _)) => reply,
        Err(reply) => reply,
    }
}

/// Says how many rows a snapshot has.
fn count_snapshot(alloc: Global, core: &Core, log: &mut Log) {
    match snapshot_of(alloc, core, log) {
        Some(snapshot) => log.count(b"snapshot", snapshot.len()),
        None => log.fault(b"snapshot"),
    }
}

/// A snapshot of a core.
fn snapshot_of(alloc: Global, core: &Core, log: &mut Log) -> Option<Snapshot> {
    let before = State::of(core);
    if let Ok(snapshot) = core.snapshot(alloc) {
        return Some(snapshot);
    }
    log.lacked(b"snapshot");
    if State::of(core) != before {
        log.fault(b"snapshot");
    }
    core.snapshot(alloc).ok()
}
