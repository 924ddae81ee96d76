//! A core that publishes. After each event that lacks memory the state has to be as before, and
//! then it is asked again.

ghost use Rattle.std.specs.Prelude.{◌≡◌};

use admission::{Event, ReloadRefusal, Reply, STATED_LIMITS, Snapshot};
use compiler::Tables;
use gk_lines::LineBuffer;
use gk_terms::Units;
use growth_logs::{Log, Terms, lacks_memory, shared_tables, show_reply, texts};
use live_desk::{Live, OpenFault};
use publisher::{Blank, Imprint};
use std::alloc::Global;
use std::marker::Brand;
use std::sync::{Arc, Wait};

/// What is asked.
#[derive(Clone, Copy, Debug, PartialEq, Eq)]
enum Step {
    Register,
    Admit,
    Incoming,
    Change,
    Reload,
    Release(u32),
    Unregister,
}

/// All of it, in order.
const STEPS: [Step; 8] = [
    Step::Register,
    Step::Admit,
    Step::Incoming,
    Step::Change,
    Step::Reload,
    Step::Release(1001),
    Step::Release(1002),
    Step::Unregister,
];

impl Step {
    /// The call.
    fn name(self) -> &'static [u8] {
        match self {
            Step::Register => b"Live::register",
            Step::Admit => b"Live::admit",
            Step::Incoming => b"Live::incoming",
            Step::Change => b"Live::change",
            Step::Reload => b"Live::reload",
            Step::Release(_) => b"Live::release",
            Step::Unregister => b"Live::unregister",
        }
    }
}

/// The state, by the views.
#[derive(Clone, Copy, Debug, PartialEq, Eq)]
struct State {
    version: u32,
    endpoints: usize,
    calls: usize,
    total: u64,
    remote: u64,
    entries: usize,
}

/// Opens a core and asks it. Then it opens another one, whose first event is a reload: the first
/// entry of a record makes room for more, so that a later reload takes no memory for its own.
pub fn go_through<R: Wait>(rt: &R, alloc: Global, other: &Arc<Tables>, log: &mut Log) {
    open(rt, alloc, other, STEPS.as_slice(), log);
    open(rt, alloc, other, [Step::Reload].as_slice(), log);
}

/// Opens a core, if need be twice, asks it these events one after another, and then for a snapshot.
fn open<R: Wait>(rt: &R, alloc: Global, other: &Arc<Tables>, steps: &[Step], log: &mut Log) {
    let Some(tables) = shared_tables(alloc, texts::ZONES, log) else {
        return log.fault(b"compile");
    };
    let Ok(copy) = Arc::try_clone(&tables) else {
        return log.fault(b"try_clone");
    };
    if !is_opened(rt, alloc, copy, other, steps, log)
        && !is_opened(rt, alloc, tables, other, steps, log)
    {
        log.fault(b"Live::new");
    }
}

/// Whether a core of these tables is opened, with a history of its own.
fn is_opened<R: Wait>(
    rt: &R,
    alloc: Global,
    tables: Arc<Tables>,
    other: &Arc<Tables>,
    steps: &[Step],
    log: &mut Log,
) -> bool {
    is_opened_as::<Brand, R>(rt, alloc, Blank::new(), tables, other, steps, log)
}

/// Whether a core of these tables is opened. Then it is asked.
fn is_opened_as<J: Imprint, R: Wait>(
    rt: &R,
    alloc: Global,
    blank: Blank,
    tables: Arc<Tables>,
    other: &Arc<Tables>,
    steps: &[Step],
    log: &mut Log,
) -> bool
    requires { blank ≡ J.book }
{
    match Live::<J>::new(alloc, blank, tables, STATED_LIMITS, 1) {
        Ok(mut live) => {
            ask_all(rt, alloc, &mut live, other, steps, log);
            live.close(rt);
            true
        }
        Err(fault) => {
            log.refused(b"Live::new", fault == OpenFault::NoMemory);
            false
        }
    }
}

/// Asks one event after another, and then for a snapshot.
fn ask_all<J: Imprint, R: Wait>(
    rt: &R,
    alloc: Global,
    live: &mut Live<J>,
    other: &Arc<Tables>,
    steps: &[Step],
    log: &mut Log,
) {
    let Some(terms) = Terms::new() else {
        return log.fault(b"terms");
    };
    for step in steps {
        take_step(rt, alloc, live, other, &terms, *step, log);
    }
    match snapshot_of(alloc, live, log) {
        Some(snapshot) => log.count(b"Live::snapshot", snapshot.len()),
        None => log.fault(b"Live::snapshot"),
    }
}

/// Asks one event, and says the reply and the state.
fn take_step<J: Imprint, R: Wait>(
    rt: &R,
    alloc: Global,
    live: &mut Live<J>,
    other: &Arc<Tables>,
    terms: &Terms,
    step: Step,
    log: &mut Log,
) {
    let before = state_of(live);
    let mut reply = reply_to(rt, alloc, live, other, terms, step, log);
    if lacks_memory(&reply) {
        log.lacked(step.name());
        if state_of(live) != before {
            log.fault(step.name());
        }
        reply = reply_to(rt, alloc, live, other, terms, step, log);
    }
    say_step(reply, &state_of(live), log);
}

/// The reply to an event.
fn reply_to<J: Imprint, R: Wait>(
    rt: &R,
    alloc: Global,
    live: &mut Live<J>,
    other: &Arc<Tables>,
    terms: &Terms,
    step: Step,
    log: &mut Log,
) -> Reply {
    let id = terms.id;
    let answer = match step {
        Step::Register => live.register(terms.endpoint(alloc, log)),
        Step::Admit => {
            let routed = live.route_here(&terms.digits);
            live.admit(&routed, &id, 1001, Units::new(640))
        }
        Step::Incoming => live.incoming(&id, 1002, Units::new(64)),
        Step::Change => live.change(&id, 1001, Units::new(320)),
        Step::Reload => return reload(rt, live, other),
        Step::Release(call) => live.release(&id, call),
        Step::Unregister => live.answer(rt, Event::Unregister { id }),
    };
    match answer {
        Ok((reply, _)) => reply,
        Err(reply) => reply,
    }
}

/// The reply to a reload to the other tables.
fn reload<J: Imprint, R: Wait>(rt: &R, live: &mut Live<J>, other: &Arc<Tables>) -> Reply {
    let reason = ReloadRefusal::NoMemory;
    let Ok(tables) = Arc::try_clone(other) else {
        return Reply::ReloadRefused { reason };
    };
    match live.reload(rt, tables) {
        Ok((reply, _)) => reply,
        Err(reply) => reply,
    }
}

/// The state of a core that publishes.
fn state_of<J: Imprint>(live: &Live<J>) -> State {
    let zone = live.tables().first_local();
    State {
        version: live.version().value(),
        endpoints: live.registry().len(),
        calls: live.calls().len(),
        total: live.calls().total(&zone),
        remote: live.calls().remote(),
        entries: live.record().len(),
    }
}

/// Says a reply, and the state after it.
fn say_step(reply: Reply, state: &State, log: &mut Log) {
    let mut line = LineBuffer::new();
    show_reply(&mut line, 1, reply);
    line.word(b"|");
    line.number(state.version);
    for number in [state.endpoints, state.calls, state.entries] {
        line.number(u32::try_from(number).unwrap_or(u32::MAX));
    }
    for sum in [state.total, state.remote] {
        line.number(u32::try_from(sum).unwrap_or(u32::MAX));
    }
    log.answer(line.as_bytes());
}

/// A snapshot.
fn snapshot_of<J: Imprint>(alloc: Global, live: &Live<J>, log: &mut Log) -> Option<Snapshot> {
    if let Ok(snapshot) = live.snapshot(alloc) {
        return Some(snapshot);
    }
    log.lacked(b"Live::snapshot");
    live.snapshot(alloc).ok()
}
