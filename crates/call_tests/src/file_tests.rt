//! Call files that are read and written again, and the first faults of others.

use call_files::{CallsFault, CallsFaultKind, WriteRowsFault, read_calls, write_calls};
use gk_lines::Noted;
use gk_lines::fakes::Piecewise;
use std::alloc::Global;

const HEADER: &[u8] = b"number,event,call,zone,digits,units,granted,route\n";

/// Four calls from two zones. The second is released, and the last one is refused for a limit.
const ROWS: &[u8] = b"5,ARQ,1001,gk-a,9123,640,yes,ZONE gk-y 10.9.0.2:1719\n\
6,ARQ,1002,gk-a,4085551234,1280,yes,GW gb1 10.0.2.1:1720\n\
7,ARQ,1003,gk-b,9124,640,yes,ZONE gk-y 10.9.0.2:1719\n\
8,DRQ,1002,,,,,\n\
9,ARQ,1004,gk-a,2#9123,1280,yes,ZONE gk-x 10.9.0.1:1719\n\
10,ARQ,1005,gk-a,9125,1280,no,ZONE gk-y 10.9.0.2:1719\n";

/// Names with a comma and with quotes, terminals, changes, and calls that led nowhere.
const OTHER_ROWS: &[u8] = b"1,ARQ,4294967295,\"a,b\",#*,0,yes,\"TERM \"\"t\"\" 0.0.0.0:1\"\n\
2,BRQ,4294967295,,,4294967295,,\n\
3,ARQ,1,z,1,5,no,unknown-prefix\n\
4,ARQ,1,z,1,5,no,no-gateway\n\
4294967295,ARQ,4294967295,z,1,5,no,no-default\n";

/// Answers to calls from other gatekeepers, beside an admission.
const ANSWERED_ROWS: &[u8] = b"5,ANS,2001,gk-b,,1280,yes,GW gb1 10.0.2.1:1720\n\
6,ANS,2002,gk-a,,1281,no,TERM ta 10.0.1.1:1720\n\
7,ARQ,1001,gk-a,4085551234,640,yes,GW gb1 10.0.2.1:1720\n\
11,DRQ,2001,,,,,\n\
12,ANS,4294967295,\"a,b\",,0,yes,\"TERM \"\"t\"\" 0.0.0.0:1\"\n\
13,BRQ,4294967295,,,4294967295,,\n";

/// A call file of these rows; an empty one if memory runs out, which is no call file.
fn file_of(alloc: Global, rows: &[u8]) -> Vec<u8> {
    let mut file = Vec::new(alloc);
    if file.extend_from_slice(HEADER).is_err() || file.extend_from_slice(rows).is_err() {
        return Vec::new(alloc);
    }
    file
}

/// Whether a call file of these rows is read, and written again as the same bytes.
fn is_written_back(alloc: Global, rows: &[u8]) -> bool {
    let file = file_of(alloc, rows);
    let Ok(snapshot) = read_calls(alloc, &file) else {
        return false;
    };
    let mut output = Vec::new(alloc);
    let written = write_calls(alloc, &snapshot, &mut Noted::new(&mut output));
    drop(snapshot);
    written.is_ok() && output.as_slice() == file.as_slice()
}

#[test]
fn writes_back_what_it_read(rt: HostRuntime) {
    for rows in [b"".as_slice(), ROWS, OTHER_ROWS, ANSWERED_ROWS] {
        assert!(rt; is_written_back(rt.alloc(), rows));
    }
}

/// The first fault of a call file.
fn fault_of(alloc: Global, file: &[u8]) -> Option<CallsFault> {
    match read_calls(alloc, file) {
        Ok(snapshot) => {
            drop(snapshot);
            None
        }
        Err(fault) => Some(fault),
    }
}

#[test]
fn tells_the_first_fault(rt: HostRuntime) {
    for (rows, row, kind) in [
        (
            b"5,ARQ,1001,gk-a,9123,640,yes\n".as_slice(),
            1,
            CallsFaultKind::BadRow,
        ),
        (
            b"5,ARQ,1001,gk-a,9x,640,no,no-default\n",
            1,
            CallsFaultKind::BadField,
        ),
        (
            b"5,ARQ,1001,gk-a,9,1,no,no-default\n5,ARQ,1001,gk-a,9,1,no,no-default\n",
            2,
            CallsFaultKind::OutOfOrder,
        ),
        (
            b"5,ARQ,1,gk-a,9,1,yes,TERM t 1.1.1.1:1\n6,ARQ,1,gk-a,9,1,yes,TERM t 1.1.1.1:1\n",
            2,
            CallsFaultKind::CallOpen,
        ),
        (
            b"5,ANS,1,gk-a,,1,yes,TERM t 1.1.1.1:1\n6,ANS,1,gk-a,,1,yes,TERM t 1.1.1.1:1\n",
            2,
            CallsFaultKind::CallOpen,
        ),
        (b"5,DRQ,1001,,,,,\n", 1, CallsFaultKind::NoCall),
    ] {
        let fault = fault_of(rt.alloc(), &file_of(rt.alloc(), rows));
        assert!(rt; fault == Some(CallsFault { row, kind }));
    }
}

#[test]
fn wants_the_header(rt: HostRuntime) {
    let bad_header = Some(CallsFault {
        row: 0,
        kind: CallsFaultKind::BadHeader,
    });
    assert!(rt; fault_of(rt.alloc(), b"") == bad_header);
    assert!(rt; fault_of(rt.alloc(), b"number,event\n") == bad_header);
    let marked = b"\xEF\xBB\xBFnumber,event,call,zone,digits,units,granted,route\r\n\r\n";
    assert!(rt; fault_of(rt.alloc(), marked).is_none());
}

/// How the rows are written to a writer that takes so many bytes a call and fails at this call.
fn write_failing(alloc: Global, most: usize, call: u64) -> Option<WriteRowsFault> {
    let Ok(snapshot) = read_calls(alloc, &file_of(alloc, ROWS)) else {
        return None;
    };
    let mut output = Vec::new(alloc);
    let mut writer = Piecewise::failing_at(&mut output, most, call);
    let written = write_calls(alloc, &snapshot, &mut Noted::new(&mut writer));
    drop(snapshot);
    written.err()
}

#[test]
fn tells_that_the_writer_failed(rt: HostRuntime) {
    for (most, call, want) in [
        (1000, 1, Some(WriteRowsFault::WriteFault)),
        (100, 3, Some(WriteRowsFault::WriteFault)),
        (0, 9, Some(WriteRowsFault::WriteFault)),
        (1000, 2, None),
    ] {
        assert!(rt; write_failing(rt.alloc(), most, call) == want);
    }
}
