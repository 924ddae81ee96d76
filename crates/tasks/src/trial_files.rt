//! `gkd trial`: recorded calls and registered endpoints, from files, under a candidate
//! configuration.

use crate::files::{calls_in, endpoints_in, tables_in};
use crate::saying::{UNWRITTEN, fail, refuse_tables, refuse_unknown};
use call_files::WriteRowsFault;
use call_rows::Snapshot;
use compiler::Tables;
use gk_lines::Noted;
use gk_terms::OpenGate;
use registry::Registry;
use std::alloc::AllocGlobal;
use std::io;
use std::process::ExitCode;
use std::rt::Runtime;
use std::sync::Wait;
use std::thread::Threads;
use trial_run::{Report, TrialFault, trial, write_report};

/// The files of a trial.
#[derive(Clone, Copy, Debug)]
pub struct TrialFiles<'a> {
    /// The candidate configuration.
    pub candidate: &'a str,
    /// The endpoints that are registered.
    pub endpoints: &'a str,
    /// The recorded calls.
    pub calls: &'a str,
}

/// Prints what the candidate would have answered to the calls, or the first fault: of the
/// candidate, of the endpoints, of the calls, and then of the trial itself.
pub fn try_files<R: Runtime + AllocGlobal + Threads + Wait>(
    rt: &R,
    files: &TrialFiles<'_>,
    workers: u32,
) -> io::Result<ExitCode> {
    match tables_in(rt, files.candidate) {
        Ok(tables) => try_under(rt, files, &tables, workers),
        Err(why) => refuse_tables(rt, files.candidate, why),
    }
}

/// The same under these tables.
fn try_under<R: Runtime + AllocGlobal + Threads + Wait>(
    rt: &R,
    files: &TrialFiles<'_>,
    tables: &Tables,
    workers: u32,
) -> io::Result<ExitCode> {
    match endpoints_in(rt, files.endpoints, tables) {
        Ok(endpoints) => try_calls(rt, files.calls, tables, endpoints, workers),
        Err(why) => refuse_unknown(rt, files.endpoints, "endpoints", &why),
    }
}

/// The same of the calls in a file, once the endpoints are known.
fn try_calls<R: Runtime + AllocGlobal + Threads + Wait>(
    rt: &R,
    file: &str,
    tables: &Tables,
    endpoints: Registry,
    workers: u32,
) -> io::Result<ExitCode> {
    match calls_in(rt, file) {
        Ok(calls) => report(rt, &calls.with_endpoints(endpoints), tables, workers),
        Err(why) => refuse_unknown(rt, file, "calls", &why),
    }
}

/// Prints the report of a trial.
fn report<R: Runtime + AllocGlobal + Threads + Wait>(
    rt: &R,
    calls: &Snapshot,
    tables: &Tables,
    workers: u32,
) -> io::Result<ExitCode> {
    match trial(rt, rt.alloc(), calls, tables, workers, &OpenGate) {
        Ok(report) => print_report(rt, &report),
        Err(TrialFault::NoThread) => fail(rt, "no thread"),
        Err(TrialFault::NoMemory) => fail(rt, "no memory"),
        // The command line was refused if there is no such number of workers.
        Err(TrialFault::BadWorkers) => fail(rt, "bad workers"),
    }
}

/// Prints a report to standard output.
fn print_report<R: Runtime + AllocGlobal>(rt: &R, report: &Report) -> io::Result<ExitCode> {
    match write_report(rt.alloc(), report, &mut Noted::new(io::writer(rt))) {
        Ok(()) => Ok(ExitCode::SUCCESS),
        Err(WriteRowsFault::WriteFault) => fail(rt, UNWRITTEN),
        Err(WriteRowsFault::NoMemory) => fail(rt, "no memory"),
    }
}
