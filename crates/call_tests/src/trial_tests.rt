//! The report of a trial, on one worker and on many.

use crate::test_trials::{ANSWERED, ANSWERED_ELSEWHERE, CALLS, CANDIDATE, snapshot_of, tables_of};
use gk_lines::Noted;
use gk_terms::OpenGate;
use std::alloc::Global;
use std::sync::Wait;
use std::thread::Threads;
use trial_run::{TrialFault, trial, write_report};

/// What the candidate makes of the calls.
const REPORT: &[u8] = b"number,digits,recorded,candidate,verdict\n\
5,9123,ZONE gk-y 10.9.0.2:1719,GW gb1 10.0.2.1:1720,changed\n\
6,4085551234,GW gb1 10.0.2.1:1720,GW gb1 10.0.2.1:1720,same\n\
7,9124,ZONE gk-y 10.9.0.2:1719,GW gb1 10.0.2.1:1720,changed\n\
9,2#9123,ZONE gk-x 10.9.0.1:1719,ZONE gk-x 10.9.0.1:1719,same\n\
10,9125,ZONE gk-y 10.9.0.2:1719,GW gb1 10.0.2.1:1720,changed\n\
peak,gk-a,1920,,\n\
peak,gk-b,2560,,\n\
peak,gk-x,1280,,\n\
peak,gk-y,0,,\n\
count,5,2,3,\n";

/// What it makes of those that were answered: the peak of a zone has an answer in it, and each
/// answer is the same.
const ANSWERED_REPORT: &[u8] = b"number,digits,recorded,candidate,verdict\n\
5,,GW gb1 10.0.2.1:1720,GW gb1 10.0.2.1:1720,same\n\
6,,TERM ta 10.0.1.1:1720,TERM ta 10.0.1.1:1720,same\n\
7,4085551234,GW gb1 10.0.2.1:1720,GW gb1 10.0.2.1:1720,same\n\
peak,gk-a,640,,\n\
peak,gk-b,1920,,\n\
peak,gk-x,0,,\n\
peak,gk-y,0,,\n\
count,3,3,0,\n";

/// What it makes of those in other zones: only that of a zone of its own stands.
const ELSEWHERE_REPORT: &[u8] = b"number,digits,recorded,candidate,verdict\n\
1,,TERM t 10.0.1.9:1720,TERM t 10.0.1.9:1720,same\n\
3,,GW g 10.9.0.3:1720,callerNotRegistered,changed\n\
4,,GW g 10.0.3.1:1720,callerNotRegistered,changed\n\
peak,gk-a,800,,\n\
peak,gk-b,0,,\n\
peak,gk-x,0,,\n\
peak,gk-y,0,,\n\
count,3,1,2,\n";

/// The text of the report of these calls that so many workers make, or the fault.
fn report_by<R: Threads + Wait>(
    rt: &R,
    alloc: Global,
    calls: &[u8],
    workers: u32,
) -> Option<Result<Vec<u8>, TrialFault>> {
    let tables = tables_of(alloc, CANDIDATE)?;
    let snapshot = snapshot_of(alloc, &tables, calls)?;
    let report = match trial(rt, alloc, &snapshot, &tables, workers, &OpenGate) {
        Ok(report) => report,
        Err(fault) => return Some(Err(fault)),
    };
    let mut text = Vec::new(alloc);
    let written = write_report(alloc, &report, &mut Noted::new(&mut text));
    if written.is_err() {
        return None;
    }
    Some(Ok(text))
}

#[test]
fn each_number_of_workers_makes_the_same_report(rt: HostRuntime) {
    for workers in [1, 3, 64] {
        let Some(Ok(text)) = report_by(&rt, rt.alloc(), CALLS, workers) else {
            panic!(rt; "no report");
        };
        assert!(rt; text.as_slice() == REPORT);
    }
}

#[test]
fn tells_what_becomes_of_answers(rt: HostRuntime) {
    for (calls, report) in [
        (ANSWERED, ANSWERED_REPORT),
        (ANSWERED_ELSEWHERE, ELSEWHERE_REPORT),
    ] {
        let Some(Ok(text)) = report_by(&rt, rt.alloc(), calls, 2) else {
            panic!(rt; "no report");
        };
        assert!(rt; text.as_slice() == report);
    }
}

#[test]
fn takes_from_1_to_64_workers(rt: HostRuntime) {
    for workers in [0, 65] {
        let Some(Err(fault)) = report_by(&rt, rt.alloc(), CALLS, workers) else {
            panic!(rt; "a report");
        };
        assert!(rt; fault == TrialFault::BadWorkers);
    }
}
