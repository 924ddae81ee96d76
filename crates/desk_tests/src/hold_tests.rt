//! A held lock: routing goes on beside it, and an event waits for it.

use crate::desks::{Steps, goes_right};
use admission::{Event, STATED_LIMITS};
use gk_terms::{Dialled, Gate, Name};
use live_desk::{Desk, House, Seat};
use std::sync::Wait;
use std::sync::atomic::{AtomicU64, Ordering};
use std::thread::{Threads, join, yield_now};

/// How often one looks for what the other is about to do. At each look other threads may run, so
/// that these are seconds at the least, however busy the machine is.
const PATIENCE: u32 = 10_000_000;

/// How often one looks for what must not come.
const GLANCES: u32 = 100_000;

/// No worker's number.
const NOBODY: u64 = 77;

/// A gate that holds the lock until a plan was made, and then for as many turns as it glances, in
/// which no event may be answered.
#[derive(Drop)]
struct Signals {
    worker: AtomicU64,
    held: AtomicU64,
    planned: AtomicU64,
    answered: AtomicU64,
    saw_plan: AtomicU64,
    saw_answer: AtomicU64,
}

impl Gate for Signals {
    fn begin(&self, worker: u32) {
        self.worker.store(worker as u64, Ordering::SeqCst);
        self.held.store(1, Ordering::SeqCst);
        if is_set(&self.planned, PATIENCE) {
            self.saw_plan.store(1, Ordering::SeqCst);
        }
        if is_set(&self.answered, GLANCES) {
            self.saw_answer.store(1, Ordering::SeqCst);
        }
    }
}

/// Whether the signal is set within so many turns.
fn is_set(signal: &AtomicU64, turns: u32) -> bool {
    for _ in 0..turns {
        if signal.load(Ordering::SeqCst) == 1 {
            return true;
        }
        yield_now();
    }
    false
}

/// No event may be answered while a gate holds the lock, though a plan is made, and the event is
/// recorded once the lock is let go. The gate is given the number 0.
#[test]
fn a_held_lock_lets_plans_be_made_and_no_event_be_answered(rt: HostRuntime) {
    assert!(&rt; goes_right(&rt, rt.alloc(), STATED_LIMITS, 1, Steps::Hold));
}

/// Whether whoever held the lock was given the number 0, and saw that a plan was made, and that no
/// event was answered; and whether the seat made its plan, and its event was recorded.
pub(crate) fn waits_for_the_lock<J: House + Send + Sync, R: Threads + Wait + Sync>(
    rt: &R,
    desk: &Desk<J>,
    seat: &mut Seat<J>,
) -> bool {
    let signals = Signals {
        worker: AtomicU64::new(NOBODY),
        held: AtomicU64::new(0),
        planned: AtomicU64::new(0),
        answered: AtomicU64::new(0),
        saw_plan: AtomicU64::new(0),
        saw_answer: AtomicU64::new(0),
    };
    let ((), done) = join(
        rt,
        || desk.hold(rt, &signals),
        || planned_and_asked(rt, desk, seat, &signals),
    );
    let worker = signals.worker.load(Ordering::SeqCst);
    let plan = signals.saw_plan.load(Ordering::SeqCst);
    let answer = signals.saw_answer.load(Ordering::SeqCst);
    (worker, plan, answer, done) == (0, 1, 0, Some((true, true)))
}

/// Once the lock is held, makes a plan and says so; then asks an event, and says when it was
/// answered. Whether the plan was made, and the event recorded. None if the lock was not seen to be
/// held.
fn planned_and_asked<J: House, R: Wait>(
    rt: &R,
    desk: &Desk<J>,
    seat: &mut Seat<J>,
    signals: &Signals,
) -> Option<(bool, bool)> {
    let digits = Dialled::read(b"4085551234").ok()?;
    let id = Name::read(b"nobody").ok()?;
    if !is_set(&signals.held, PATIENCE) {
        return None;
    }
    let planned = seat.route(&digits).is_ok();
    signals.planned.store(1, Ordering::SeqCst);
    let recorded = seat.ask(rt, desk, Event::Unregister { id }).is_ok();
    signals.answered.store(1, Ordering::SeqCst);
    Some((planned, recorded))
}
