//! What the program says of a fault, and with which status it ends.

use crate::files::{Uncompiled, Unknown, Unread};
use configuration_reader::configuration::ConfigurationFault;
use gk_commands::LineFault;
use std::fmt::Display;
use std::io;
use std::process::ExitCode;

/// What is said if standard output takes no more.
pub const UNWRITTEN: &str = "cannot write standard output";

/// Says on standard error why there is no answer.
pub fn fail<R: Eprint>(rt: &R, why: &str) -> io::Result<ExitCode> {
    eprintln!(rt; "gkd: {why}")?;
    Ok(ExitCode::from(1))
}

/// Names the first fault of a configuration on standard output.
pub fn refuse_configuration<R: Print + Eprint>(rt: &R, fault: LineFault) -> io::Result<ExitCode> {
    if println!(rt; "{fault}").is_err() {
        return fail(rt, UNWRITTEN);
    }
    Ok(ExitCode::from(1))
}

/// Says why a file gives no tables: the first fault of its configuration on standard output, and
/// anything else on standard error.
pub fn refuse_tables<R: Print + Eprint>(
    rt: &R,
    file: &str,
    why: Uncompiled,
) -> io::Result<ExitCode> {
    match why {
        Uncompiled::Config(ConfigurationFault::Line(fault)) => refuse_configuration(rt, fault),
        Uncompiled::Config(ConfigurationFault::Read(_)) => cannot_read(rt, file),
        Uncompiled::NoMemory => fail(rt, "no memory"),
    }
}

/// Says on standard error that a file cannot be read.
pub fn cannot_read<R: Eprint>(rt: &R, file: &str) -> io::Result<ExitCode> {
    eprintln!(rt; "gkd: cannot read {file}")?;
    Ok(ExitCode::from(1))
}

/// Says on standard error that a file cannot be written.
pub fn cannot_write<R: Eprint>(rt: &R, file: &str) -> io::Result<ExitCode> {
    eprintln!(rt; "gkd: cannot write {file}")?;
    Ok(ExitCode::from(1))
}

/// Names the first fault of a file on standard error: which file, and what it is.
pub fn refuse_file<R: Eprint, F: Display>(rt: &R, what: &str, fault: &F) -> io::Result<ExitCode> {
    eprintln!(rt; "gkd: {what} {fault}")?;
    Ok(ExitCode::from(1))
}

/// Says on standard error why it is not known what a file says.
pub fn refuse_unknown<R: Eprint, F: Display>(
    rt: &R,
    file: &str,
    what: &str,
    why: &Unknown<F>,
) -> io::Result<ExitCode> {
    match why {
        Unknown::Unread(Unread::Failed) => cannot_read(rt, file),
        Unknown::Unread(Unread::NoMemory) => fail(rt, "no memory"),
        Unknown::Faulty(fault) => refuse_file(rt, what, fault),
    }
}
