//! Goes through the calls of a publisher, of a core that publishes and of a desk, whichever growth
//! it is refused, as `growths` does with those that they stand on. After `releases` on
//! standard input it uses up memory instead, and releases the calls of a core that publishes.
#![tactic(auto)]

mod desks;
mod lives;
mod publications;
mod releases;

use gk_lines::Noted;
use growth_logs::{Log, Task, shared_tables, task_in, texts};
use std::alloc::{AllocGlobal, Global};
use std::io;
use std::process::ExitCode;
use std::rt::Runtime;
use std::sync::Wait;

fn main(rt: HostRuntime) -> io::Result<ExitCode> {
    let task = task_in(&mut Noted::new(rt.reader()));
    let Ok(mut log) = Log::new(rt.alloc()) else {
        eprintln!(rt; "desk_growths: no memory for the answers")?;
        return Ok(ExitCode::from(1));
    };
    match task {
        Task::Calls => go_through(&rt, rt.alloc(), &mut log),
        Task::Releases => releases::release_all(&rt, rt.alloc(), &mut log),
    }
    Ok(log.print(&rt))
}

/// Goes through the calls.
fn go_through<R: Wait>(rt: &R, alloc: Global, log: &mut Log) {
    let Some(other) = shared_tables(alloc, texts::OTHER_ZONES, log) else {
        return log.fault(b"compile");
    };
    publications::go_through(rt, alloc, &other, log);
    lives::go_through(rt, alloc, &other, log);
    desks::go_through(rt, alloc, log);
}
