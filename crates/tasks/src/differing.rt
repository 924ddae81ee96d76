//! `gkd diff`: which dialled digits two configurations plan otherwise, from files.

use crate::files::{Uncompiled, tables_in};
use crate::saying::UNWRITTEN;
use compiler::Tables;
use configuration_reader::configuration::ConfigurationFault;
use difference_report::{Form, Listing, ReportFault, write_difference};
use gk_lines::Noted;
use std::alloc::AllocGlobal;
use std::io;
use std::process::ExitCode;
use std::rt::Runtime;

/// The status of `gkd diff` if it cannot tell whether the configurations differ, as that of
/// diff(1).
const TROUBLE: u8 = 2;

/// Which sets of digits are listed: all, or those that are planned otherwise.
pub fn listing_of(lists_all: bool) -> Listing {
    if lists_all {
        Listing::All
    } else {
        Listing::Changed
    }
}

/// How the sets are written: as rows of comma-separated fields, or as lines.
pub fn form_of(as_csv: bool) -> Form {
    if as_csv { Form::Rows } else { Form::Lines }
}

/// Prints the sets of digits that the configurations in two files plan otherwise, with the others
/// if all are listed, or the first fault: of the old one, of the new one, and then of the report.
/// The status is that of diff(1): 0 if they plan all digits alike and have the same default
/// technology, 1 if they do not.
pub fn diff_files<R: Runtime + AllocGlobal>(
    rt: &R,
    old: &str,
    new: &str,
    listing: Listing,
    form: Form,
) -> io::Result<ExitCode> {
    match tables_in(rt, old) {
        Ok(old) => diff_from(rt, &old, new, listing, form),
        Err(why) => trouble_in(rt, old, why),
    }
}

/// The same, once the old one is compiled.
fn diff_from<R: Runtime + AllocGlobal>(
    rt: &R,
    old: &Tables,
    new: &str,
    listing: Listing,
    form: Form,
) -> io::Result<ExitCode> {
    match tables_in(rt, new) {
        Ok(new) => print_difference(rt, old, &new, listing, form),
        Err(why) => trouble_in(rt, new, why),
    }
}

/// Says on standard error why a file gives no tables.
fn trouble_in<R: Eprint>(rt: &R, file: &str, why: Uncompiled) -> io::Result<ExitCode> {
    match why {
        Uncompiled::Config(ConfigurationFault::Line(fault)) => {
            eprintln!(rt; "gkd: {file}: {fault}")?;
        }
        Uncompiled::Config(ConfigurationFault::Read(_)) => {
            eprintln!(rt; "gkd: cannot read {file}")?;
        }
        Uncompiled::NoMemory => eprintln!(rt; "gkd: no memory")?,
    }
    Ok(ExitCode::from(TROUBLE))
}

/// Prints the difference of these tables to standard output.
fn print_difference<R: Runtime + AllocGlobal>(
    rt: &R,
    old: &Tables,
    new: &Tables,
    listing: Listing,
    form: Form,
) -> io::Result<ExitCode> {
    let mut writer = Noted::new(io::writer(rt));
    match write_difference(rt.alloc(), old, new, listing, form, &mut writer) {
        Ok(false) => Ok(ExitCode::SUCCESS),
        Ok(true) => Ok(ExitCode::from(1)),
        Err(ReportFault::WriteFault) => trouble(rt, UNWRITTEN),
        Err(ReportFault::NoMemory) => trouble(rt, "no memory"),
    }
}

/// Says on standard error why there is no answer.
fn trouble<R: Eprint>(rt: &R, why: &str) -> io::Result<ExitCode> {
    eprintln!(rt; "gkd: {why}")?;
    Ok(ExitCode::from(TROUBLE))
}
