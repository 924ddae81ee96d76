//! Goes through calls that take memory, whichever growth it is refused by whoever runs it: a call
//! that answers that memory ran out is made again. It prints the answers, which have to
//! be those of ample memory, and the calls that lacked it. After `releases` on standard input it
//! uses up memory instead, and releases the calls of a core.
#![tactic(auto)]

mod events;
mod exchanges;
mod releases;
mod states;
mod texts;
mod trials;
mod tries;

use admission::{Core, STATED_LIMITS};
use compiler::Tables;
use events::{ask_all, ask_first};
use exchanges::{FIRST_REQUESTS, exchange, hold_exchanges};
use gk_lines::Noted;
use growth_logs::{Log, Task, shared_tables, task_in, texts as given};
use std::alloc::{AllocGlobal, Global};
use std::io;
use std::process::ExitCode;
use std::rt::Runtime;
use std::sync::{Arc, Wait};
use std::thread::Threads;
use trials::try_calls;
use tries::build_tables;

fn main(rt: HostRuntime) -> io::Result<ExitCode> {
    let task = task_in(&mut Noted::new(rt.reader()));
    let Ok(mut log) = Log::new(rt.alloc()) else {
        eprintln!(rt; "growths: no memory for the answers")?;
        return Ok(ExitCode::from(1));
    };
    match task {
        Task::Calls => go_through(&rt, rt.alloc(), &mut log),
        Task::Releases => releases::release_all(rt.alloc(), &mut log),
    }
    Ok(log.print(&rt))
}

/// Goes through the calls.
fn go_through<R: Threads + Wait>(rt: &R, alloc: Global, log: &mut Log) {
    build_tables(alloc, log);
    let Some(other) = shared_tables(alloc, given::OTHER_ZONES, log) else {
        return log.fault(b"compile");
    };
    try_calls(rt, alloc, &other, log);
    if let Some(core) = opened(alloc, given::ZONES, log) {
        ask_core(alloc, core, &other, log);
    }
    ask_first(alloc, &other, log);
    if let Some(core) = opened(alloc, given::ZONES, log) {
        hold_exchanges(rt, alloc, core, log);
    }
    for request in &FIRST_REQUESTS {
        if let Some(core) = opened(alloc, given::OTHER_ZONES, log) {
            drop(exchange(rt, alloc, core, request, log));
        }
    }
}

/// A core, which takes no memory beyond its tables.
fn opened(alloc: Global, text: &[u8], log: &mut Log) -> Option<Core> {
    let tables = shared_tables(alloc, text, log)?;
    match Core::new(alloc, tables, STATED_LIMITS) {
        Ok(core) => Some(core),
        Err(_) => {
            log.fault(b"Core::new");
            None
        }
    }
}

/// Asks a core one event after another, and lets it go.
fn ask_core(alloc: Global, core: Core, other: &Arc<Tables>, log: &mut Log) {
    let mut core = core;
    ask_all(alloc, &mut core, other, log);
    drop(core);
}
