//! A storm of reloads: two seats reload as often as a server may, while two others admit and
//! release.

use crate::desks::{Steps, goes_right};
use crate::given::{
    OTHER, TEXT, admission, gateway, is_led_to, is_refused, terminal, version_seen,
};
use crate::workers::{Task, Work, Worker, ask, reload};
use admission::{Event, ReloadRefusal, Reply, STATED_LIMITS};
use gk_terms::{Dialled, Name};
use live_desk::{Desk, House, Seat};
use std::alloc::Global;
use std::sync::Wait;
use std::sync::atomic::{AtomicU64, Ordering};

/// How often each of the first two seats reloads.
const RELOADS: u32 = 2048;

/// The version that is in force once both have reloaded.
const LAST: u32 = 4097;

/// A number that goes to the gateway by one of the two configurations, and by the other to a remote
/// zone.
const DIGITS: &[u8] = b"40855512345";

#[test]
fn two_seats_reload_while_two_admit_and_release(rt: HostRuntime) {
    assert!(&rt; goes_right(&rt, rt.alloc(), STATED_LIMITS, 4, Steps::Work(Task::Storm)));
}

/// Whether 4,096 reloads were put in force, all went as it should on each seat, and each of the
/// four was told at the end that reloads are spent, and routed by the last version then.
pub(crate) fn is_right_storm(work: &Work) -> bool {
    (work.reloads, work.right, work.spent, work.at_last) == (4096, true, 4, 4)
}

/// Registers the terminal that calls, and the gateway.
pub(crate) fn register_both<J: House, R: Wait>(
    rt: &R,
    alloc: Global,
    desk: &Desk<J>,
    worker: &mut Worker<J>,
) {
    ask_right(rt, desk, worker, terminal(alloc));
    ask_right(rt, desk, worker, gateway(alloc, b"ga", b"1#"));
}

/// The first two seats reload, and the others admit and release until both have ended.
pub(crate) fn storm<J: House, R: Wait>(
    rt: &R,
    alloc: Global,
    desk: &Desk<J>,
    ended: &AtomicU64,
    place: usize,
    worker: &mut Worker<J>,
) {
    let Ok(digits) = Dialled::read(DIGITS) else {
        return;
    };
    if place < 2 {
        reload_all(rt, alloc, desk, &digits, worker);
        ended.fetch_add(1, Ordering::SeqCst);
    } else {
        let call = if place == 2 { 1002 } else { 1003 };
        call_on(rt, desk, &digits, ended, call, worker);
    }
}

/// Reloads to one of two configurations in turn.
fn reload_all<J: House, R: Wait>(
    rt: &R,
    alloc: Global,
    desk: &Desk<J>,
    digits: &Dialled,
    worker: &mut Worker<J>,
) {
    for number in 0..RELOADS {
        let text = if number % 2 == 0 { OTHER } else { TEXT };
        reload(rt, alloc, desk, text, worker);
        look(digits, worker);
    }
}

/// Admits and releases a call at each version that the seat sees for the first time, until the
/// reloads have ended, and once more then.
fn call_on<J: House, R: Wait>(
    rt: &R,
    desk: &Desk<J>,
    digits: &Dialled,
    ended: &AtomicU64,
    call: u32,
    worker: &mut Worker<J>,
) {
    for _ in rt.forever() {
        let over = ended.load(Ordering::SeqCst) == 2;
        let before = worker.version;
        look(digits, worker);
        if over || before < worker.version {
            call_once(rt, desk, call, worker);
        }
        if over {
            break;
        }
    }
}

/// Looks at the version by which the seat routes, which is none below those that it saw before.
fn look<J: House>(digits: &Dialled, worker: &mut Worker<J>) {
    let seen = version_seen(&mut worker.seat, digits);
    match seen {
        Some(version) => {
            worker.right = worker.right && worker.version <= version;
            worker.version = version;
        }
        None => worker.right = false,
    }
}

/// Admits and releases a call of this number.
fn call_once<J: House, R: Wait>(rt: &R, desk: &Desk<J>, call: u32, worker: &mut Worker<J>) {
    let Ok(id) = Name::read(b"ta") else {
        return;
    };
    ask_right(rt, desk, worker, admission(call, DIGITS));
    ask_right(rt, desk, worker, Some(Event::Release { id, call }));
}

/// Asks an event, which is to be granted, and keeps its receipt.
fn ask_right<J: House, R: Wait>(
    rt: &R,
    desk: &Desk<J>,
    worker: &mut Worker<J>,
    event: Option<Event>,
) {
    let granted = match event {
        Some(event) => is_granted(ask(rt, desk, worker, event)),
        None => false,
    };
    worker.right = worker.right && granted;
}

/// Whether this is what is granted in the storm. An admission leads to the gateway or to the remote
/// zone, by one of the two configurations.
fn is_granted(reply: Option<Reply>) -> bool {
    match reply {
        Some(Reply::Registered { .. }) => true,
        Some(Reply::Released { .. }) => true,
        Some(reply) => is_led_to(&reply, b"ga") || is_led_to(&reply, b"gk-x"),
        None => false,
    }
}

/// What a seat is told of one more reload, and the version that it sees then.
pub(crate) fn ask_once_more<J: House, R: Wait>(
    rt: &R,
    alloc: Global,
    desk: &Desk<J>,
    seat: &mut Seat<J>,
    work: &mut Work,
) {
    let Ok(digits) = Dialled::read(DIGITS) else {
        return;
    };
    let spent = is_refused(rt, alloc, desk, seat, ReloadRefusal::ReloadsSpent);
    let at_last = version_seen(seat, &digits) == Some(LAST);
    work.spent = work.spent.saturating_add(spent as u32);
    work.at_last = work.at_last.saturating_add(at_last as u32);
}
