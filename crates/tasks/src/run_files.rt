//! `gkd` and `gkd run`: a run over standard input and output, and its calls in a file.

use crate::files::configuration_in;
use crate::saying::{cannot_read, cannot_write, fail, refuse_configuration};
use admission::{Core, STATED_LIMITS};
use call_files::WriteRowsFault;
use configuration_reader::configuration::ConfigurationFault;
use gk_commands::Commands;
use gk_lines::Noted;
use gk_protocol::SessionFault;
use runs::{Ended, RunFault, run_over, run_under, write_record};
use std::alloc::AllocGlobal;
use std::process::ExitCode;
use std::rt::Runtime;
use std::sync::Wait;
use std::thread::Threads;
use std::{fs, io};

/// A run over standard input and output, within the stated limits; or says at its end why it did
/// not come to the end of the input.
pub fn run_input<R: Runtime + AllocGlobal + Threads + Wait>(rt: &R) -> io::Result<ExitCode> {
    let mut reader = Noted::new(rt.reader());
    let mut writer = Noted::new(io::writer(rt));
    let result = run_over(rt, rt.alloc(), STATED_LIMITS, &mut reader, &mut writer);
    end_run(rt, result)
}

/// A run under the configuration in a file, over standard input and output, within the stated
/// limits; and then, if a file is named for them, its calls. It says the first fault: of the
/// configuration, of the run, and then of that file.
pub fn run_file<R: Runtime + AllocGlobal + Threads + Wait>(
    rt: &R,
    file: &str,
    record: Option<&str>,
) -> io::Result<ExitCode> {
    match configuration_in(rt, file) {
        Ok(commands) => run_commands(rt, commands, record),
        Err(ConfigurationFault::Line(fault)) => refuse_configuration(rt, fault),
        Err(ConfigurationFault::Read(_)) => cannot_read(rt, file),
    }
}

/// The same under these commands.
fn run_commands<R: Runtime + AllocGlobal + Threads + Wait>(
    rt: &R,
    commands: Commands,
    record: Option<&str>,
) -> io::Result<ExitCode> {
    let mut reader = Noted::new(rt.reader());
    let mut writer = Noted::new(io::writer(rt));
    let ended = run_under(
        rt,
        rt.alloc(),
        STATED_LIMITS,
        commands,
        &mut reader,
        &mut writer,
    );
    match ended {
        Ok(ended) => end_session(rt, &ended, record),
        Err(fault) => end_run(rt, Err(fault)),
    }
}

/// Writes the calls of a session that has ended, if a file is named for them, and says its fault.
fn end_session<R: Runtime + AllocGlobal>(
    rt: &R,
    ended: &Ended,
    record: Option<&str>,
) -> io::Result<ExitCode> {
    match record {
        Some(calls) => end_recorded(rt, ended, calls),
        None => end_run(rt, replies_of(ended)),
    }
}

/// How many replies a session wrote, or its fault.
fn replies_of(ended: &Ended) -> Result<u64, RunFault> {
    match ended.replies {
        Ok(replies) => Ok(replies),
        Err(fault) => Err(RunFault::Session(fault)),
    }
}

/// Writes the calls of a session that has ended, also after a fault, and says the first fault: that
/// of the session, or else that of the file.
fn end_recorded<R: Runtime + AllocGlobal>(
    rt: &R,
    ended: &Ended,
    file: &str,
) -> io::Result<ExitCode> {
    let written = record_calls(rt, &ended.core, file);
    match (ended.replies, written) {
        (Err(_), _) | (Ok(_), Ok(())) => end_run(rt, replies_of(ended)),
        (Ok(_), Err(WriteRowsFault::NoMemory)) => fail(rt, "no memory"),
        (Ok(_), Err(WriteRowsFault::WriteFault)) => cannot_write(rt, file),
    }
}

/// Writes the calls of a core's record to a file, in place of what it had.
fn record_calls<R: Runtime + AllocGlobal>(
    rt: &R,
    core: &Core,
    file: &str,
) -> Result<(), WriteRowsFault> {
    let Ok(created) = fs::create(rt, file) else {
        return Err(WriteRowsFault::WriteFault);
    };
    write_record(rt.alloc(), core, &mut Noted::new(created))
}

/// Says why a run ended, if it did not come to the end of its input.
fn end_run<R: Runtime>(rt: &R, ended: Result<u64, RunFault>) -> io::Result<ExitCode> {
    match ended {
        Ok(_) => Ok(ExitCode::SUCCESS),
        Err(RunFault::Config(fault)) => refuse_configuration(rt, fault),
        Err(RunFault::NoMemory | RunFault::Session(SessionFault::NoMemory)) => {
            fail(rt, "no memory")
        }
        Err(RunFault::Session(_)) => fail(rt, "session fault"),
        Err(RunFault::BadLimits) => fail(rt, "bad limits"),
    }
}
