//! Eight seats in threads of their own.

use crate::desks::{Steps, goes_right};
use crate::given::{TEXT, registration};
use crate::workers::{Task, Work, Worker, ask, reload};
use admission::{Event, STATED_LIMITS};
use gk_terms::{Dialled, Name, Units};
use live_desk::{Desk, House};
use registry::EndpointKind;
use std::alloc::Global;
use std::sync::Wait;

/// How many calls each seat admits, changes and releases: with its registration and its
/// unregistration it asks 500 events.
const CALLS: u32 = 166;

/// Eight seats ask 500 events each, and the first one also reloads four times. Each is recorded.
#[test]
fn eight_seats_in_threads(rt: HostRuntime) {
    assert!(&rt; goes_right(&rt, rt.alloc(), STATED_LIMITS, 8, Steps::Work(Task::Ask)));
}

/// Whether there is a receipt of each event and of each reload, all went as it should on each seat,
/// and no seat is lost or astray.
pub(crate) fn is_right_asking(work: &Work) -> bool {
    (work.receipts.len(), work.right, work.lost, work.astray) == (4004, true, 0, 0)
}

/// A registration, calls which are each admitted, changed and released, and an unregistration. The
/// first seat also reloads, at every 50th call.
pub(crate) fn ask_all<J: House, R: Wait>(
    rt: &R,
    alloc: Global,
    desk: &Desk<J>,
    place: usize,
    worker: &mut Worker<J>,
) {
    let name = [b't', b'0' + (place % 10) as u8];
    let (Ok(id), Ok(digits)) = (Name::read(&name), Dialled::read(b"912")) else {
        return;
    };
    let kind = EndpointKind::Terminal;
    if let Some(event) = registration(alloc, kind, &name, b"10.0.0.1", b"") {
        let _registered = ask(rt, desk, worker, event);
    }
    for number in 0..CALLS {
        let call = (place % 10) as u32 * 1000 + number + 1;
        ask_of_call(rt, desk, worker, id, call, digits);
        if place == 0 && number % 50 == 0 {
            reload(rt, alloc, desk, TEXT, worker);
        }
    }
    let _left = ask(rt, desk, worker, Event::Unregister { id });
}

/// Admits, changes and releases a call.
fn ask_of_call<J: House, R: Wait>(
    rt: &R,
    desk: &Desk<J>,
    worker: &mut Worker<J>,
    id: Name,
    call: u32,
    digits: Dialled,
) {
    let units = Units::new(0);
    let _admitted = ask(
        rt,
        desk,
        worker,
        Event::Admit {
            id,
            call,
            digits,
            units,
        },
    );
    let units = Units::new(1);
    let _changed = ask(rt, desk, worker, Event::Change { id, call, units });
    let _released = ask(rt, desk, worker, Event::Release { id, call });
}
