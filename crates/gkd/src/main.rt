//! `gkd`: the gatekeeper. Without words it reads a configuration and then requests from standard
//! input, and writes a reply to each request on standard output. `gkd run FILE` reads the
//! configuration from a file, `gkd check FILE` says whether one is accepted, `gkd trial FILE`
//! reports what one would have answered to recorded calls, `gkd explain FILE` says why digits go
//! where they go, `gkd diff OLD NEW` which digits two configurations plan otherwise, and
//! `gkd serve FILE` serves many sessions over TCP.
#![tactic(auto)]

mod serving;

use serving::serve_file;
use std::alloc::AllocGlobal;
use std::net::{Net, TcpListener, TcpStream};
use std::process::ExitCode;
use std::rt::Runtime;
use std::sync::Wait;
use std::thread::Threads;
use std::{env, io};
use tasks::{
    Task, TrialFiles, check_file, diff_files, explain_file, fail, form_of, listing_of,
    refuse_command_line, refuse_number, refuse_word, run_file, run_input, task_of, try_files,
};

fn main(rt: HostRuntime) -> io::Result<ExitCode> {
    let words = match words(&rt) {
        Ok(words) => words,
        Err(error) => return refuse_words(&rt, &error),
    };
    match task_of(rt.alloc(), &words) {
        Ok(task) => carry_out(&rt, &task),
        Err(error) => refuse_command_line(&rt, &error),
    }
}

/// Does what the command line asks for.
fn carry_out<
    R: Runtime
        + AllocGlobal
        + Net<Listener = TcpListener, Stream = TcpStream>
        + Sync
        + Threads
        + Wait,
>(rt: &R, task: &Task<'_>) -> io::Result<ExitCode> {
    match task {
        Task::RunInput => run_input(rt),
        Task::RunFile { file, record } => run_file(rt, file, *record),
        Task::Check { file, prints } => check_file(rt, file, *prints),
        Task::Trial {
            file,
            calls,
            endpoints,
            workers,
        } => {
            let files = TrialFiles {
                candidate: file,
                endpoints,
                calls,
            };
            try_files(rt, &files, *workers)
        }
        Task::Serve { file, port, seats } => serve_file(rt, file, *port, *seats),
        Task::Explain(question) => explain_file(rt, question),
        Task::Diff {
            old,
            new,
            lists_all,
            as_csv,
        } => {
            let listing = listing_of(*lists_all);
            diff_files(rt, old, new, listing, form_of(*as_csv))
        }
        Task::BadNumber(bad) => refuse_number(rt, bad),
        Task::BadWord(bad) => refuse_word(rt, bad),
    }
}

/// The words of the command line.
fn words(rt: &HostRuntime) -> io::Result<Vec<String>> {
    let words = env::args(rt)?.collect(rt.alloc())?;
    Ok(words)
}

/// Says why there are no words: they are not UTF-8, or memory ran out.
fn refuse_words(rt: &HostRuntime, error: &io::Error) -> io::Result<ExitCode> {
    if error.kind() == io::ErrorKind::OutOfMemory {
        return fail(rt, "no memory");
    }
    eprintln!(rt; "gkd: the command line is not valid UTF-8")?;
    Ok(ExitCode::from(2))
}
