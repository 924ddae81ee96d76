//! A trial of calls in a file, by one worker. Each call that lacks memory is made again.

use crate::texts::{CALLS, ENDPOINTS};
use call_files::{CallsFaultKind, WriteRowsFault, read_calls, write_calls};
use call_rows::Snapshot;
use compiler::Tables;
use gk_lines::Noted;
use gk_protocol::{EndpointsFaultKind, read_endpoints};
use gk_terms::OpenGate;
use growth_logs::Log;
use registry::Registry;
use std::alloc::Global;
use std::sync::Wait;
use std::thread::Threads;
use trial_run::{Report, TrialFault, trial, write_report};

/// How many bytes of a report there is room for.
const ROOM: usize = 1024;

/// Tries the calls on a candidate, and says the report.
pub fn try_calls<R: Threads + Wait>(rt: &R, alloc: Global, candidate: &Tables, log: &mut Log) {
    let Some(snapshot) = snapshot_of(alloc, candidate, log) else {
        return log.fault(b"read_calls");
    };
    say_calls(alloc, &snapshot, log);
    match report_on(rt, alloc, &snapshot, candidate, log) {
        Some(report) => say_report(alloc, &report, log),
        None => log.fault(b"trial"),
    }
}

/// The calls, with the endpoint that is registered.
fn snapshot_of(alloc: Global, candidate: &Tables, log: &mut Log) -> Option<Snapshot> {
    let endpoints = endpoints_under(alloc, candidate, log)?;
    log.count(b"read_endpoints", endpoints.len());
    let calls = calls_in(alloc, log)?;
    log.count(b"read_calls", calls.len());
    Some(calls.with_endpoints(endpoints))
}

/// The endpoints of the file.
fn endpoints_under(alloc: Global, tables: &Tables, log: &mut Log) -> Option<Registry> {
    match read_endpoints(alloc, ENDPOINTS, tables) {
        Ok(endpoints) => Some(endpoints),
        Err(fault) => {
            let for_memory = fault.line == 1 && fault.kind == EndpointsFaultKind::NoMemory;
            log.refused(b"read_endpoints", for_memory);
            read_endpoints(alloc, ENDPOINTS, tables).ok()
        }
    }
}

/// The calls of the file.
fn calls_in(alloc: Global, log: &mut Log) -> Option<Snapshot> {
    match read_calls(alloc, CALLS) {
        Ok(calls) => Some(calls),
        Err(fault) => {
            log.refused(b"read_calls", fault.kind == CallsFaultKind::NoMemory);
            read_calls(alloc, CALLS).ok()
        }
    }
}

/// Says the call file of some calls.
fn say_calls(alloc: Global, calls: &Snapshot, log: &mut Log) {
    let Some(mut text) = room(alloc, log) else {
        return log.fault(b"room");
    };
    if let Err(fault) = write_calls(alloc, calls, &mut Noted::new(&mut text)) {
        log.refused(b"write_calls", fault == WriteRowsFault::NoMemory);
        text.clear();
        if write_calls(alloc, calls, &mut Noted::new(&mut text)).is_err() {
            log.fault(b"write_calls");
        }
    }
    log.text(text.as_slice());
}

/// The report of one worker.
fn report_on<R: Threads + Wait>(
    rt: &R,
    alloc: Global,
    snapshot: &Snapshot,
    candidate: &Tables,
    log: &mut Log,
) -> Option<Report> {
    match trial(rt, alloc, snapshot, candidate, 1, &OpenGate) {
        Ok(report) => Some(report),
        Err(fault) => {
            match fault {
                TrialFault::NoMemory => log.lacked(b"trial"),
                // for which the system takes memory
                TrialFault::NoThread => log.lacked(b"trial:thread"),
                TrialFault::BadWorkers => log.fault(b"trial"),
            }
            trial(rt, alloc, snapshot, candidate, 1, &OpenGate).ok()
        }
    }
}

/// Says what a report says.
fn say_report(alloc: Global, report: &Report, log: &mut Log) {
    let Some(mut text) = room(alloc, log) else {
        return log.fault(b"room");
    };
    if let Err(fault) = write_report(alloc, report, &mut Noted::new(&mut text)) {
        log.refused(b"write_report", fault == WriteRowsFault::NoMemory);
        text.clear();
        if write_report(alloc, report, &mut Noted::new(&mut text)).is_err() {
            log.fault(b"write_report");
        }
    }
    log.text(text.as_slice());
}

/// Room for what is written, so that writing takes no memory.
pub fn room(alloc: Global, log: &mut Log) -> Option<Vec<u8>> {
    if let Ok(room) = Vec::with_capacity(alloc, ROOM) {
        return Some(room);
    }
    log.lacked(b"room");
    Vec::with_capacity(alloc, ROOM).ok()
}
