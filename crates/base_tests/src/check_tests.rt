//! Configurations that are checked, over readers and writers that move a byte a call, or fail.

use configuration_reader::check::{CheckFault, check};
use gk_commands::{FaultKind, LineFault};
use gk_lines::fakes::Piecewise;
use gk_lines::{Noted, ReadFault};
use std::alloc::Global;
use std::test::Fail;

/// A configuration of three commands, in five lines.
const CONFIGURATION: &[u8] = b"gatekeeper\n \
    zone local gk-a  example.com\n \
    zone remote gk-x example.com 10.9.0.1\n \
    gw-type-prefix 1#* hopoff gk-x seq\n\
    end\n";

/// Its canonical lines, and then the summary.
const REPORT: &[u8] = b"zone local gk-a example.com\n\
    zone remote gk-x example.com 10.9.0.1 1719 cost 50 priority 50\n\
    gw-type-prefix 1# hopoff gk-x\n\
    3 commands, 2 passed over\n";

/// The fault of a line.
fn refused(line: u32, kind: FaultKind) -> Result<(), CheckFault> {
    Err(CheckFault::Config(LineFault { line, kind }))
}

/// How a check of these bytes ends if the reader fails at this call, and how often it is called. It
/// fails at no call 0.
fn end_and_calls(alloc: Global, text: &[u8], failing_call: u64) -> (Result<(), CheckFault>, u64) {
    let mut reader = Noted::new(Piecewise::failing_at(text, 1, failing_call));
    let ended = check(alloc, &mut reader, &mut Noted::new(Vec::new(alloc)), true);
    (ended, reader.calls())
}

#[test]
fn reads_nothing_after_the_first_faulty_line(rt: HostRuntime) {
    for (text, bytes, line, kind) in [
        (
            b"!\nzone local a b c\n!".as_slice(),
            19,
            2,
            FaultKind::BadAddress,
        ),
        (
            b"zone local a b\nend\nhost\nend\n",
            24,
            3,
            FaultKind::UnknownCommand,
        ),
        (b"end x\n\n\n", 6, 1, FaultKind::Extra),
        // These faults are known only at the end, which takes one more call.
        (b"", 1, 1, FaultKind::NoLocalZone),
        (
            b"zone local a b\nzone prefix q 9*\n!\n",
            35,
            2,
            FaultKind::UnknownZone,
        ),
    ] {
        let want = (refused(line, kind), bytes);
        assert_eq!(rt; end_and_calls(rt.alloc(), text, 0), want);
    }
}

#[test]
fn names_a_reader_that_fails(rt: HostRuntime) {
    let failed = Err(CheckFault::ReadFault(ReadFault::Failed));
    let most = CONFIGURATION.len() as u64;
    for call in 1..=most + 1 {
        let ended = end_and_calls(rt.alloc(), CONFIGURATION, call);
        assert_eq!(rt; ended, (failed, call));
    }
    // The second line has a fault, and ends with the twentieth byte.
    let faulty = b"zone local a b\nzone\nzone local a b\n".as_slice();
    let missing = refused(2, FaultKind::Missing);
    for (call, want) in [(20, (failed, 20)), (21, (missing, 20))] {
        assert_eq!(rt; end_and_calls(rt.alloc(), faulty, call), want);
    }
}

/// How a check ends whose writer, which takes one byte a call, fails at this call.
fn end_of_report(alloc: Global, output: &mut Vec<u8>, failing_call: u64) -> Result<(), CheckFault> {
    let mut reader = Noted::new(CONFIGURATION);
    let mut writer = Noted::new(Piecewise::failing_at(output, 1, failing_call));
    check(alloc, &mut reader, &mut writer, true)
}

#[test]
fn names_a_writer_that_fails(rt: HostRuntime) {
    for count in 0..=REPORT.len() {
        let (taken, rest) = REPORT.split_at(count.min(REPORT.len()));
        let want = if rest.is_empty() {
            Ok(())
        } else {
            Err(CheckFault::WriteFault)
        };
        let mut output = Vec::new(rt.alloc());
        let ended = end_of_report(rt.alloc(), &mut output, (count as u64).saturating_add(1));
        assert_eq!(rt; ended, want);
        assert_eq!(rt; output.as_slice(), taken);
    }
}

#[test]
fn check_faults_are_printed(rt: HostRuntime) -> Result<(), Fail> {
    let (line, kind) = (7, FaultKind::TooMany);
    for (fault, text) in [
        (CheckFault::ReadFault(ReadFault::Failed), "cannot read"),
        (
            CheckFault::Config(LineFault { line, kind }),
            "line 7: TooMany",
        ),
        (CheckFault::WriteFault, "cannot write"),
    ] {
        assert_eq!(rt; format!(in rt.alloc(); "{fault}")?.as_str(), text);
    }
    Ok(())
}
