//! What the workers of a trial tell a gate.

use crate::test_trials::{CALLS, CANDIDATE, snapshot_of, tables_of};
use gk_terms::Gate;
use std::alloc::Global;
use std::sync::Wait;
use std::sync::atomic::{AtomicU64, Ordering};
use std::thread::{Threads, yield_now};
use trial_run::trial;

/// How often a worker that waits looks for the other. At each look other threads may run, so that
/// these are seconds at the least, however busy the machine is.
const TURNS: u32 = 10_000_000;

/// A gate that holds each of two workers until the other has begun, or for so many turns.
#[derive(Drop)]
struct Meeting {
    first: AtomicU64,
    second: AtomicU64,
    met: AtomicU64,
}

impl Meeting {
    /// Nobody has begun.
    fn new() -> Meeting {
        Meeting {
            first: AtomicU64::new(0),
            second: AtomicU64::new(0),
            met: AtomicU64::new(0),
        }
    }

    /// Notes that one has begun, and whether it saw that the other had.
    fn meet(&self, own: &AtomicU64, other: &AtomicU64) {
        own.store(1, Ordering::SeqCst);
        for _ in 0..TURNS {
            if other.load(Ordering::SeqCst) == 1 {
                let _before = self.met.fetch_add(1, Ordering::SeqCst);
                return;
            }
            yield_now();
        }
    }
}

impl Gate for Meeting {
    fn begin(&self, worker: u32) {
        if worker == 1 {
            self.meet(&self.first, &self.second);
        } else {
            self.meet(&self.second, &self.first);
        }
    }
}

/// A gate that counts how often each worker begins.
#[derive(Drop)]
struct Counting {
    begun: Vec<AtomicU64>,
}

impl Gate for Counting {
    fn begin(&self, worker: u32) {
        if let Some(count) = self.begun.get(worker as usize) {
            let _before = count.fetch_add(1, Ordering::SeqCst);
        }
    }
}

/// Whether a trial of the calls by so many workers makes a report.
fn is_tried<R: Threads + Wait, G: Gate>(rt: &R, alloc: Global, workers: u32, gate: &G) -> bool {
    let Some(tables) = tables_of(alloc, CANDIDATE) else {
        return false;
    };
    let Some(snapshot) = snapshot_of(alloc, &tables, CALLS) else {
        return false;
    };
    trial(rt, alloc, &snapshot, &tables, workers, gate).is_ok()
}

#[test]
fn two_workers_are_at_work_at_once(rt: HostRuntime) {
    let gate = Meeting::new();
    assert!(rt; is_tried(&rt, rt.alloc(), 2, &gate));
    assert!(rt; gate.met.load(Ordering::SeqCst) == 2);
}

/// A gate that has counted nobody, for workers up to this number.
fn counting_up_to(alloc: Global, most: u32) -> Option<Counting> {
    let mut begun = Vec::new(alloc);
    for _ in 0..=most {
        begun.push(AtomicU64::new(0)).ok()?;
    }
    Some(Counting { begun })
}

#[test]
fn each_of_64_workers_begins_once(rt: HostRuntime) {
    let Some(gate) = counting_up_to(rt.alloc(), 65) else {
        panic!(rt; "no memory");
    };
    assert!(rt; is_tried(&rt, rt.alloc(), 64, &gate));
    assert!(rt; gate.begun.len() == 66);
    for (worker, count) in gate.begun.iter().enumerate() {
        let due = if worker > 0 && worker < 65 { 1 } else { 0 };
        assert!(rt; count.load(Ordering::SeqCst) == due);
    }
}
