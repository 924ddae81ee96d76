//! A desk with one seat. After each event that lacks memory the seat sees the version that it saw
//! before, and then it is asked again. The number of each entry shows that a refused one has none.

ghost use Rattle.std.specs.Prelude.{◌≡◌};
ghost use Rattle.std.specs.Arc.{arc_value};

use admission::{Event, Limits, Receipt, ReloadRefusal, Reply, STATED_LIMITS, Snapshot};
use compiler::Tables;
use gk_commands::Commands;
use gk_lines::LineBuffer;
use gk_terms::Units;
use growth_logs::{Log, Terms, commands_of, lacks_memory, shared_tables, show_reply, texts};
use live_desk::{Blank, Desk, House, OpenFault, Seat};
use std::alloc::Global;
use std::marker::Brand;
use std::sync::{Arc, Wait};

/// What is asked on the seat of a desk: one event after another, or a reload alone.
#[derive(Clone, Copy, Debug, PartialEq, Eq)]
enum Asks {
    All,
    Reload,
}

/// An event that is asked on the seat.
#[derive(Clone, Copy, Debug, PartialEq, Eq)]
enum Step {
    Register,
    Admit,
    Incoming,
    Change,
    Release(u32),
    Unregister,
}

impl Step {
    /// The call, with its event.
    fn name(self) -> &'static [u8] {
        match self {
            Step::Register => b"Seat::ask:Register",
            Step::Admit => b"Seat::ask:Admit",
            Step::Incoming => b"Seat::ask:Incoming",
            Step::Change => b"Seat::ask:Change",
            Step::Release(_) => b"Seat::ask:Release",
            Step::Unregister => b"Seat::ask:Unregister",
        }
    }
}

/// Opens a desk and asks on its seat. Then it opens another one, whose first event is a reload: the
/// first entry of a record makes room for more, so that a later reload takes no memory for its own.
pub fn go_through<R: Wait>(rt: &R, alloc: Global, log: &mut Log) {
    open(rt, alloc, Asks::All, log);
    open(rt, alloc, Asks::Reload, log);
}

/// Opens a desk, if need be twice, and asks on its seat.
fn open<R: Wait>(rt: &R, alloc: Global, asks: Asks, log: &mut Log) {
    let Some(tables) = shared_tables(alloc, texts::ZONES, log) else {
        return log.fault(b"compile");
    };
    let Ok(copy) = Arc::try_clone(&tables) else {
        return log.fault(b"try_clone");
    };
    if !is_opened(rt, alloc, copy, asks, log) && !is_opened(rt, alloc, tables, asks, log) {
        log.fault(b"Desk::open");
    }
}

/// Whether a desk of these tables is opened, as a house of its own.
fn is_opened<R: Wait>(
    rt: &R,
    alloc: Global,
    tables: Arc<Tables>,
    asks: Asks,
    log: &mut Log,
) -> bool {
    is_opened_as::<Brand, R>(rt, alloc, blank(), tables, STATED_LIMITS, 1, asks, log)
}

/// What a desk of one seat is made of.
fn blank() -> Blank
    ensures { result.ledger.parts ≡ 1 }
{
    Blank {
        ledger: std::sync::ledger::Blank::new(1),
        publisher: publisher::Blank::new(),
    }
}

/// Whether a desk of these tables is opened. Then its seat asks.
fn is_opened_as<J: House, R: Wait>(
    rt: &R,
    alloc: Global,
    blank: Blank,
    tables: Arc<Tables>,
    limits: Limits,
    seats: u32,
    asks: Asks,
    log: &mut Log,
) -> bool
    requires ledger { (blank.ledger.name ≡ J.name) × (blank.ledger.parts ≡ J.parts) }
    requires parts { (J.all ≡ J.parts) × (seats ≡ J.all) }
    requires publisher { blank.publisher ≡ J.book }
    requires opening { (J.begun ≡ (arc_value tables).commands) × (J.limits ≡ limits) }
{
    match Desk::<J>::open(alloc, blank, tables, limits, seats) {
        Ok(desk) => {
            ask_on_seat(rt, alloc, &desk, asks, log);
            desk.close(rt);
            true
        }
        Err(fault) => {
            log.refused(b"Desk::open", fault == OpenFault::NoMemory);
            false
        }
    }
}

/// Gives out the seat, which takes no memory, and asks on it.
fn ask_on_seat<J: House, R: Wait>(
    rt: &R,
    alloc: Global,
    desk: &Desk<J>,
    asks: Asks,
    log: &mut Log,
) {
    let (Some(terms), Ok(mut seat)) = (Terms::new(), desk.seat(rt)) else {
        return log.fault(b"Desk::seat");
    };
    match asks {
        Asks::All => ask_all(rt, alloc, desk, &mut seat, &terms, log),
        Asks::Reload => reload(rt, alloc, desk, &mut seat, &terms, log),
    }
    if seat.lost() || seat.astray() {
        log.fault(b"Seat");
    }
}

/// Asks one event after another on a seat, with a reload among them, and then for a snapshot.
fn ask_all<J: House, R: Wait>(
    rt: &R,
    alloc: Global,
    desk: &Desk<J>,
    seat: &mut Seat<J>,
    terms: &Terms,
    log: &mut Log,
) {
    for step in [Step::Register, Step::Admit, Step::Incoming, Step::Change] {
        take_step(rt, alloc, desk, seat, terms, step, log);
    }
    reload(rt, alloc, desk, seat, terms, log);
    for step in [Step::Release(1001), Step::Release(1002), Step::Unregister] {
        take_step(rt, alloc, desk, seat, terms, step, log);
    }
    count_snapshot(rt, alloc, desk, seat, log);
}

/// Asks one event, and says the reply with the number of its entry.
fn take_step<J: House, R: Wait>(
    rt: &R,
    alloc: Global,
    desk: &Desk<J>,
    seat: &mut Seat<J>,
    terms: &Terms,
    step: Step,
    log: &mut Log,
) {
    let before = version_seen(seat, terms);
    let mut answer = seat.ask(rt, desk, event(alloc, terms, step, log));
    if lacked_memory(&answer) {
        log.lacked(step.name());
        if version_seen(seat, terms) != before {
            log.fault(step.name());
        }
        answer = seat.ask(rt, desk, event(alloc, terms, step, log));
    }
    say_answer(&answer, version_seen(seat, terms), log);
}

/// The event of a step.
fn event(alloc: Global, terms: &Terms, step: Step, log: &mut Log) -> Event {
    let id = terms.id;
    match step {
        Step::Register => Event::Register(terms.endpoint(alloc, log)),
        Step::Admit => Event::Admit {
            id,
            call: 1001,
            digits: terms.digits,
            units: Units::new(640),
        },
        Step::Incoming => Event::Incoming {
            id,
            call: 1002,
            units: Units::new(64),
        },
        Step::Change => Event::Change {
            id,
            call: 1001,
            units: Units::new(320),
        },
        Step::Release(call) => Event::Release { id, call },
        Step::Unregister => Event::Unregister { id },
    }
}

/// Whether memory ran out for an answer.
fn lacked_memory(answer: &Result<(Reply, Receipt), Reply>) -> bool {
    match answer {
        Ok(_) => false,
        Err(reply) => lacks_memory(reply),
    }
}

/// The version by which the seat routes; 0 if it is lost.
fn version_seen<J: House>(seat: &mut Seat<J>, terms: &Terms) -> u32 {
    match seat.route(&terms.digits) {
        Ok(routed) => routed.version.value(),
        Err(_) => 0,
    }
}

/// Says a reply with the number of its entry, and the version that the seat sees after it.
fn say_answer(answer: &Result<(Reply, Receipt), Reply>, version: u32, log: &mut Log) {
    let mut line = LineBuffer::new();
    match answer {
        Ok((reply, receipt)) => show_reply(&mut line, receipt.number, *reply),
        Err(reply) => show_reply(&mut line, 0, *reply),
    }
    line.word(b"|");
    line.number(version);
    log.answer(line.as_bytes());
}

/// Puts the other configuration in force, and says its version and the number of its entry.
fn reload<J: House, R: Wait>(
    rt: &R,
    alloc: Global,
    desk: &Desk<J>,
    seat: &mut Seat<J>,
    terms: &Terms,
    log: &mut Log,
) {
    let before = version_seen(seat, terms);
    let (Some(first), Some(second)) = (other(alloc, log), other(alloc, log)) else {
        return log.fault(b"read");
    };
    let mut answer = seat.reload(rt, alloc, desk, first);
    if matches!(answer, Err(ReloadRefusal::NoMemory)) {
        log.lacked(b"Seat::reload");
        if version_seen(seat, terms) != before {
            log.fault(b"Seat::reload");
        }
        answer = seat.reload(rt, alloc, desk, second);
    }
    match answer {
        Ok((_, receipt)) => {
            say_answer(
                &Ok((receipt.reply, receipt)),
                version_seen(seat, terms),
                log,
            );
        }
        Err(_) => log.fault(b"Seat::reload"),
    }
}

/// The commands of the other configuration.
fn other(alloc: Global, log: &mut Log) -> Option<Commands> {
    commands_of(alloc, texts::OTHER_ZONES, log)
}

/// Says how many rows a snapshot has.
fn count_snapshot<J: House, R: Wait>(
    rt: &R,
    alloc: Global,
    desk: &Desk<J>,
    seat: &mut Seat<J>,
    log: &mut Log,
) {
    match snapshot_of(rt, alloc, desk, seat, log) {
        Some(snapshot) => log.count(b"Seat::snapshot", snapshot.len()),
        None => log.fault(b"Seat::snapshot"),
    }
}

/// A snapshot.
fn snapshot_of<J: House, R: Wait>(
    rt: &R,
    alloc: Global,
    desk: &Desk<J>,
    seat: &mut Seat<J>,
    log: &mut Log,
) -> Option<Snapshot> {
    if let Ok(snapshot) = seat.snapshot(rt, alloc, desk) {
        return Some(snapshot);
    }
    log.lacked(b"Seat::snapshot");
    seat.snapshot(rt, alloc, desk).ok()
}
