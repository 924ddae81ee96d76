//! Seats at work in threads of their own, and what they got.

ghost use Rattle.std.specs.Prelude.{◌≡◌};

use crate::given::reloaded;
use crate::seat_tests::ended;
use crate::storm_tests::{ask_once_more, is_right_storm, register_both, storm};
use crate::thread_tests::{ask_all, is_right_asking};
use admission::{Event, Receipt, Reply};
use live_desk::{Desk, House, Seat};
use std::alloc::Global;
use std::sync::Wait;
use std::sync::atomic::AtomicU64;
use std::thread;
use std::thread::Threads;

/// What the seats do.
#[derive(Clone, Copy)]
pub(crate) enum Task {
    /// Each of them asks events.
    Ask,
    /// The first two reload, and the others admit and release.
    Storm,
}

/// A seat at work, the receipts that it got, the number of the last one, how many of its reloads
/// were put in force, the version that it saw last, and whether all went as it should: the numbers
/// of the receipts rise, no version was below one before, and each event of a storm was granted.
#[derive(Drop)]
pub(crate) struct Worker<J: House> {
    pub(crate) seat: Seat<J>,
    pub(crate) receipts: Vec<Receipt>,
    pub(crate) last: u32,
    pub(crate) reloads: u32,
    pub(crate) version: u32,
    pub(crate) right: bool,
}

/// What all seats got: the receipts; how many reloads were put in force; whether all went as it
/// should on each seat; how many seats were lost or astray; and how many were told after a storm
/// that reloads are spent, and how many routed by the last version then.
#[derive(Drop)]
pub(crate) struct Work {
    pub(crate) receipts: Vec<Receipt>,
    pub(crate) reloads: u32,
    pub(crate) right: bool,
    pub(crate) lost: u32,
    pub(crate) astray: u32,
    pub(crate) spent: u32,
    pub(crate) at_last: u32,
}

/// All seats of the desk work, and come back. Whether all went as it should, each receipt stands in
/// the record, and there is one for each entry.
pub(crate) fn works_right<J: House + Send + Sync, R: Threads + Wait + Sync>(
    rt: &R,
    alloc: Global,
    desk: Desk<J>,
    seats: u32,
    task: Task,
) -> bool
    requires { J.all ≡ J.parts }
{
    let mut work = Work {
        receipts: Vec::new(alloc),
        reloads: 0,
        right: true,
        lost: 0,
        astray: 0,
        spent: 0,
        at_last: 0,
    };
    let mut workers = workers_at(rt, alloc, &desk, seats);
    work_in_threads(rt, alloc, &desk, task, workers.as_mut_slice());
    let seats = put_together(rt, alloc, &desk, task, workers, &mut work);
    let ended = ended(rt, desk, seats, work.receipts.as_slice());
    let right = match task {
        Task::Ask => is_right_asking(&work),
        Task::Storm => is_right_storm(&work),
    };
    right && ended == Some((work.receipts.len(), true))
}

/// So many seats of the desk, if it has them.
fn workers_at<J: House, R: Wait>(
    rt: &R,
    alloc: Global,
    desk: &Desk<J>,
    seats: u32,
) -> Vec<Worker<J>> {
    let mut workers = Vec::new(alloc);
    for _ in 0..seats {
        if let Ok(seat) = desk.seat(rt) {
            let _kept = workers.push(Worker {
                seat,
                receipts: Vec::new(alloc),
                last: 0,
                reloads: 0,
                version: 0,
                right: true,
            });
        }
    }
    workers
}

/// Each seat works in a thread of its own. Before a storm the first one registers who calls, and
/// who is called.
fn work_in_threads<J: House + Send + Sync, R: Threads + Wait + Sync>(
    rt: &R,
    alloc: Global,
    desk: &Desk<J>,
    task: Task,
    workers: &mut [Worker<J>],
) {
    if let (Task::Storm, Some(first)) = (task, workers.first_mut()) {
        register_both(rt, alloc, desk, first);
    }
    if workers.is_empty() {
        return;
    }
    let count = workers.len();
    let ended = AtomicU64::new(0);
    thread::for_each_mut(
        rt,
        workers,
        count,
        &|place, worker| { work_at(rt, alloc, desk, task, &ended, place, worker) },
    );
}

/// What the seat at this place does.
fn work_at<J: House, R: Wait>(
    rt: &R,
    alloc: Global,
    desk: &Desk<J>,
    task: Task,
    ended: &AtomicU64,
    place: usize,
    worker: &mut Worker<J>,
) {
    match task {
        Task::Ask => ask_all(rt, alloc, desk, place, worker),
        Task::Storm => storm(rt, alloc, desk, ended, place, worker),
    }
}

/// The seats. What they got is added up.
fn put_together<J: House, R: Wait>(
    rt: &R,
    alloc: Global,
    desk: &Desk<J>,
    task: Task,
    workers: Vec<Worker<J>>,
    work: &mut Work,
) -> Vec<Seat<J>> {
    let mut seats = Vec::new(alloc);
    for worker in workers {
        let mut worker = worker;
        add_up(rt, alloc, desk, task, &mut worker, work);
        let _kept = seats.push(worker.seat);
    }
    seats
}

/// Adds what a seat got. After a storm it is told of one more reload.
fn add_up<J: House, R: Wait>(
    rt: &R,
    alloc: Global,
    desk: &Desk<J>,
    task: Task,
    worker: &mut Worker<J>,
    work: &mut Work,
) {
    work.reloads = work.reloads.saturating_add(worker.reloads);
    work.right = work.right && worker.right;
    work.lost = work.lost.saturating_add(worker.seat.lost() as u32);
    work.astray = work.astray.saturating_add(worker.seat.astray() as u32);
    let _kept = work.receipts.extend_from_slice(worker.receipts.as_slice());
    if let Task::Storm = task {
        ask_once_more(rt, alloc, desk, &mut worker.seat, work);
    }
}

/// Asks an event, and keeps its receipt. The reply, if it is recorded.
pub(crate) fn ask<J: House, R: Wait>(
    rt: &R,
    desk: &Desk<J>,
    worker: &mut Worker<J>,
    event: Event,
) -> Option<Reply> {
    match worker.seat.ask(rt, desk, event) {
        Ok((reply, receipt)) => {
            keep(worker, receipt);
            Some(reply)
        }
        Err(_) => None,
    }
}

/// Reloads to this text, and keeps the receipt. Its version is to be above those that the seat saw
/// before.
pub(crate) fn reload<J: House, R: Wait>(
    rt: &R,
    alloc: Global,
    desk: &Desk<J>,
    text: &[u8],
    worker: &mut Worker<J>,
) {
    if let Ok((version, receipt)) = reloaded(rt, alloc, desk, &mut worker.seat, text) {
        worker.reloads = worker.reloads.saturating_add(1);
        worker.right = worker.right && worker.version < version.value();
        worker.version = version.value();
        keep(worker, receipt);
    }
}

/// Keeps a receipt, and notes if its number is not above the last one's.
fn keep<J: House>(worker: &mut Worker<J>, receipt: Receipt) {
    worker.right = worker.right && worker.last < receipt.number;
    worker.last = receipt.number;
    let _kept = worker.receipts.push(receipt);
}
