//! `gkd check`: whether the configuration in a file is accepted.

use crate::saying::{UNWRITTEN, cannot_read, fail, refuse_configuration};
use configuration_reader::check;
use configuration_reader::check::CheckFault;
use gk_lines::Noted;
use std::alloc::AllocGlobal;
use std::io::{BufWriter, Write};
use std::process::ExitCode;
use std::rt::Runtime;
use std::{fs, io};

/// Checks the configuration in a file, and prints how many commands it has and how many are passed
/// over, after its canonical lines if these are asked for; or says its first fault, or that the
/// file cannot be read, standard output not be written, or memory ran out.
pub fn check_file<R: Runtime + AllocGlobal>(
    rt: &R,
    file: &str,
    prints: bool,
) -> io::Result<ExitCode> {
    let Ok(opened) = fs::open(rt, file) else {
        return cannot_read(rt, file);
    };
    let mut reader = Noted::new(opened);
    // Up to 20,000 lines are printed, each by a call of its own.
    let Ok(mut printed) = BufWriter::new(rt.alloc(), io::writer(rt)) else {
        return fail(rt, "no memory");
    };
    let checked = check::check(
        rt.alloc(),
        &mut reader,
        &mut Noted::new(&mut printed),
        prints,
    );
    let is_written = printed.flush().is_ok();
    match checked {
        Ok(()) if is_written => Ok(ExitCode::SUCCESS),
        Ok(()) => fail(rt, UNWRITTEN),
        Err(CheckFault::Config(fault)) => refuse_configuration(rt, fault),
        Err(CheckFault::ReadFault(_)) => cannot_read(rt, file),
        Err(CheckFault::WriteFault) => fail(rt, UNWRITTEN),
    }
}
