//! `gkd explain`: why digits go where they go, by a configuration and registered endpoints from
//! files.

use crate::files::{Uncompiled, endpoints_in, tables_in};
use crate::saying::{UNWRITTEN, fail, refuse_file, refuse_tables, refuse_unknown};
use compiler::Tables;
use configuration_reader::configuration::ConfigurationFault;
use explanation::{ExplainFault, write_explanation};
use gk_lines::Noted;
use gk_terms::{Dialled, Name};
use registry::Registry;
use std::alloc::AllocGlobal;
use std::io;
use std::process::ExitCode;
use std::rt::Runtime;

/// What is to be explained.
#[derive(Clone, Copy, Debug, PartialEq, Eq)]
pub struct Question<'a> {
    /// The configuration.
    pub file: &'a str,
    /// What is dialled.
    pub digits: Dialled,
    /// The zone of the caller, if it is named; else it is the first local one.
    pub zone: Option<Name>,
    /// The endpoints that are registered, if they are known.
    pub endpoints: Option<&'a str>,
}

/// Prints the explanation, or the first fault: of the configuration, of the zone, of the endpoints,
/// and then of the explanation itself.
pub fn explain_file<R: Runtime + AllocGlobal>(
    rt: &R,
    question: &Question<'_>,
) -> io::Result<ExitCode> {
    match tables_in(rt, question.file) {
        Ok(tables) => explain_under(rt, question, &tables),
        Err(Uncompiled::Config(ConfigurationFault::Line(fault))) => {
            refuse_file(rt, "configuration", &fault)
        }
        Err(why) => refuse_tables(rt, question.file, why),
    }
}

/// The same under these tables.
fn explain_under<R: Runtime + AllocGlobal>(
    rt: &R,
    question: &Question<'_>,
    tables: &Tables,
) -> io::Result<ExitCode> {
    let Some(caller) = caller_in(tables, question.zone) else {
        return fail(rt, "the zone is not local");
    };
    let Some(file) = question.endpoints else {
        return print_explanation(rt, tables, None, &caller, &question.digits);
    };
    match endpoints_in(rt, file, tables) {
        Ok(endpoints) => {
            print_explanation(rt, tables, Some(&endpoints), &caller, &question.digits)
        }
        Err(why) => refuse_unknown(rt, file, "endpoints", &why),
    }
}

/// The zone of the caller: the local one of this name, or the first one if none is named.
fn caller_in(tables: &Tables, zone: Option<Name>) -> Option<Name> {
    match zone {
        Some(zone) => tables.local_zone(&zone),
        None => Some(tables.first_local()),
    }
}

/// Prints the explanation to standard output.
fn print_explanation<R: Runtime + AllocGlobal>(
    rt: &R,
    tables: &Tables,
    endpoints: Option<&Registry>,
    caller: &Name,
    digits: &Dialled,
) -> io::Result<ExitCode> {
    let mut writer = Noted::new(io::writer(rt));
    match write_explanation(rt.alloc(), tables, endpoints, caller, digits, &mut writer) {
        Ok(()) => Ok(ExitCode::SUCCESS),
        Err(ExplainFault::WriteFault) => fail(rt, UNWRITTEN),
        Err(ExplainFault::NoMemory) => fail(rt, "no memory"),
    }
}
