//! What the program says of a command line that asks for no task.

use crate::command_line::{BadNumber, BadWord};
use crate::saying::{UNWRITTEN, fail};
use clap::error::ErrorKind;
use std::io;
use std::process::ExitCode;

/// Prints the help that was asked for, or what is wrong with the command line; the status is that
/// of `clap`, 0 for help and 2 for a mistake. If memory ran out for the command line, or it cannot
/// be printed, that is said on standard error.
pub fn refuse_command_line<R: Print + Eprint>(rt: &R, error: &clap::Error) -> io::Result<ExitCode> {
    if error.kind() == ErrorKind::OutOfMemory {
        return fail(rt, "no memory");
    }
    if error.print(rt).is_err() {
        return fail(rt, UNWRITTEN);
    }
    Ok(ExitCode::from(error.exit_code() as u8))
}

/// Says on standard error that a word is not a number in the range of its option; the status is 2.
pub fn refuse_number<R: Eprint>(rt: &R, bad: &BadNumber<'_>) -> io::Result<ExitCode> {
    let BadNumber { word, option, most } = *bad;
    eprintln!(rt; "error: invalid value '{word}' for '{option}': not a number from 1 to {most}")?;
    Ok(ExitCode::from(2))
}

/// Says on standard error that a word is not what its place asks for; the status is 2.
pub fn refuse_word<R: Eprint>(rt: &R, bad: &BadWord<'_>) -> io::Result<ExitCode> {
    let BadWord { word, place, what } = *bad;
    eprintln!(rt; "error: invalid value '{word}' for '{place}': not {what}")?;
    Ok(ExitCode::from(2))
}
