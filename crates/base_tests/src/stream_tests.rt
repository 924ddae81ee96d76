//! What readers and writers note of their calls, and what is written whole.

use gk_lines::fakes::Piecewise;
use gk_lines::{Noted, Sink, Source, StreamFailed, WriteFault, write_whole};
use std::alloc::Global;

/// What a call answers, how many have failed, and how many there were.
type Noting = (Result<usize, StreamFailed>, u64, u64);

/// A call of the reader for four bytes.
fn read_noted(noted: &mut Noted<&mut Piecewise<&[u8]>>) -> Noting {
    let mut piece = [0; 4];
    let read = noted.read(&mut piece);
    (read, noted.failures(), noted.calls())
}

#[test]
fn notes_each_read(rt: HostRuntime) {
    let mut reader = Piecewise::failing_at(b"abcde".as_slice(), 2, 3);
    let mut noted = Noted::new(&mut reader);
    for want in [
        (Ok(2), 0, 1),
        (Ok(2), 0, 2),
        (Err(StreamFailed), 1, 3),
        (Ok(1), 1, 4),
        (Ok(0), 1, 5),
    ] {
        assert_eq!(rt; read_noted(&mut noted), want);
    }
    assert_eq!(rt; reader.calls, 5);
}

/// A call of the writer with these bytes.
fn write_noted(noted: &mut Noted<&mut Piecewise<&mut Vec<u8>>>, bytes: &[u8]) -> Noting {
    let written = noted.write(bytes);
    (written, noted.failures(), noted.calls())
}

#[test]
fn notes_each_write(rt: HostRuntime) {
    let mut output = Vec::new(rt.alloc());
    let mut writer = Piecewise::failing_at(&mut output, 2, 2);
    let mut noted = Noted::new(&mut writer);
    for (bytes, want) in [
        (b"abc".as_slice(), (Ok(2), 0, 1)),
        (b"c", (Err(StreamFailed), 1, 2)),
        (b"c", (Ok(1), 1, 3)),
        (b"", (Ok(0), 1, 4)),
    ] {
        assert_eq!(rt; write_noted(&mut noted, bytes), want);
    }
    assert_eq!(rt; output.as_slice(), b"abc".as_slice());
}

/// How seven bytes are written whole to a writer that takes so many a call and fails at this one,
/// how many calls have failed, and how many there were.
fn write_seven(
    output: &mut Vec<u8>,
    most: usize,
    failing_call: u64,
) -> (Result<(), WriteFault>, u64, u64) {
    let mut writer = Piecewise::failing_at(output, most, failing_call);
    let mut noted = Noted::new(&mut writer);
    let written = write_whole(&mut noted, b"abcdefg");
    (written, noted.failures(), noted.calls())
}

/// Whether that is written after so many calls, and else so many bytes at the call that fails.
fn is_written(alloc: Global, most: usize, failing_call: u64, calls: u64, taken: &[u8]) -> bool {
    let mut output = Vec::new(alloc);
    let written = write_seven(&mut output, most, failing_call);
    let want = if taken == b"abcdefg".as_slice() {
        (Ok(()), 0, calls)
    } else {
        (Err(WriteFault), 1, calls)
    };
    written == want && output.as_slice() == taken
}

#[test]
fn writes_whole(rt: HostRuntime) {
    for (most, failing_call, calls, taken) in [
        (100, 2, 1, b"abcdefg".as_slice()),
        (3, 4, 3, b"abcdefg"),
        (1, 8, 7, b"abcdefg"),
        (3, 2, 2, b"abc"),
        (3, 1, 1, b""),
        (0, 9, 1, b""),
    ] {
        let written = is_written(rt.alloc(), most, failing_call, calls, taken);
        assert!(rt; written, "most {most}, failing at {failing_call}");
    }
}
