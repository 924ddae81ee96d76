//! Sessions over readers and writers that do little at a time, or fail.

use gk_lines::fakes::Piecewise;
use gk_lines::{Noted, Sink, Source};
use gk_protocol::answerer::Answerer;
use gk_protocol::answers::Answer;
use gk_protocol::reply_lines::ReplyLine;
use gk_protocol::request_faults::RequestFault;
use gk_protocol::requests::Request;
use gk_protocol::session_faults::SessionFault;
use gk_protocol::sessions::session;
use std::alloc::Global;

/// Answers every request with `ERR cut`, which is 8 bytes, and counts them.
#[derive(Drop)]
struct Counter {
    asked: u64,
}

impl Answerer for Counter {
    ghost use Rattle.std.specs.Prelude.{⊤};

    ghost may_answer = { λ _ _ _ _. ⊤ };

    fn answer_into(&mut self, _alloc: Global, _request: Request, reply: &mut ReplyLine) {
        self.asked = self.asked.saturating_add(1);
        reply.show(Answer::Malformed(RequestFault::CutShort));
    }
}

/// Two requests of 8 bytes each, and a reload of 8 with its line of 2.
const ASKED: &[u8] = b"URQ 1 a\nURQ 2 b\nCFG 3 1\na\n";

/// The answers to them.
const ANSWERED: &[u8] = b"ERR cut\nERR cut\nERR cut\n";

/// How a session ends, how many requests it asked, how often it called its reader, and how many
/// bytes it wrote.
type End = (Result<u64, SessionFault>, u64, u64, usize);

/// How a session ends, and how many requests it asked.
fn end_over<R: Source, W: Sink>(
    alloc: Global,
    reader: &mut R,
    writer: &mut W,
    turns: u32,
) -> (Result<u64, SessionFault>, u64) {
    let mut counter = Counter { asked: 0 };
    let ended = session(alloc, reader, writer, &mut counter, turns);
    (ended, counter.asked)
}

/// How a session over this reader ends, which may call it so often.
fn end_of_reading(alloc: Global, reader: Piecewise<&[u8]>, turns: u32) -> End {
    let mut output = Vec::new(alloc);
    let mut reader = Noted::new(reader);
    let (ended, asked) = end_over(alloc, &mut reader, &mut Noted::new(&mut output), turns);
    (ended, asked, reader.calls(), output.len())
}

#[test]
fn each_call_of_the_reader_takes_a_turn(rt: HostRuntime) {
    let spent = Err(SessionFault::TurnsSpent);
    for (most, turns, want) in [
        (1, 28, (Ok(3), 3, 27, 24)),
        (1, 27, (Ok(3), 3, 27, 24)),
        (1, 26, (spent, 3, 26, 24)),
        (1, 25, (spent, 2, 25, 16)),
        (1, 8, (spent, 1, 8, 8)),
        (1, 7, (spent, 0, 7, 0)),
        (1, 0, (spent, 0, 0, 0)),
        (9, 4, (Ok(3), 3, 4, 24)),
        (9, 3, (spent, 3, 3, 24)),
        (9, 2, (spent, 2, 2, 16)),
    ] {
        let reader = Piecewise::new(ASKED, most);
        assert_eq!(rt; end_of_reading(rt.alloc(), reader, turns), want);
    }
}

/// How many requests stand whole in so many bytes of what is asked, and no line of the reload is
/// lacking.
fn asked_in(bytes: u64) -> u64 {
    match bytes {
        0..=7 => 0,
        8..=15 => 1,
        16..=25 => 2,
        _ => 3,
    }
}

/// Whether a session whose reader gives so many bytes a call and fails at this one has answered so
/// many requests, and no more.
fn has_answered(alloc: Global, most: usize, call: u64, asked: u64) -> bool {
    let reader = Piecewise::failing_at(ASKED, most, call);
    let (ended, requests, calls, written) = end_of_reading(alloc, reader, 100);
    let failed = Err(SessionFault::ReadFault);
    (ended, requests, calls) == (failed, asked, call) && written as u64 == asked.saturating_mul(8)
}

#[test]
fn answers_what_was_read_before_the_reader_fails(rt: HostRuntime) {
    // Each call fails in turn: of the 26 that read a byte, and the one that finds the end.
    for bytes in 0..27 {
        let answered = has_answered(rt.alloc(), 1, bytes + 1, asked_in(bytes));
        assert!(rt; answered, "after {bytes} bytes");
    }
    for (most, asked) in [(9, 1), (24, 2), (26, 3)] {
        let answered = has_answered(rt.alloc(), most, 2, asked);
        assert!(rt; answered, "{most} bytes a call");
    }
}

/// How a session ends that reads nine bytes a call, and whose writer takes so many a call and fails
/// at this one; and whether a front of the answers was written.
fn end_of_writing(alloc: Global, most: usize, call: u64) -> (End, bool) {
    let mut output = Vec::new(alloc);
    let mut reader = Noted::new(Piecewise::new(ASKED, 9));
    let mut writer = Noted::new(Piecewise::failing_at(&mut output, most, call));
    let (ended, asked) = end_over(alloc, &mut reader, &mut writer, 100);
    let is_front = ANSWERED.starts_with(&output);
    ((ended, asked, reader.calls(), output.len()), is_front)
}

#[test]
fn asks_no_more_after_the_writer_fails(rt: HostRuntime) {
    let failed = Err(SessionFault::WriteFault);
    for (most, call, want) in [
        (100, 1, (failed, 1, 1, 0)),
        (100, 2, (failed, 2, 2, 8)),
        (100, 3, (failed, 3, 3, 16)),
        (100, 4, (Ok(3), 3, 4, 24)),
        (3, 3, (failed, 1, 1, 6)),
        (3, 4, (failed, 2, 2, 8)),
        (0, 0, (failed, 1, 1, 0)),
    ] {
        assert_eq!(rt; end_of_writing(rt.alloc(), most, call), (want, true));
    }
}

#[test]
fn a_front_is_written_whichever_call_of_the_writer_fails(rt: HostRuntime) {
    // Each reply has 8 bytes, and each call of the reader gives a request.
    for written in 0..24 {
        let asked = written / 8 + 1;
        let ended = end_of_writing(rt.alloc(), 1, written + 1);
        let want = (
            Err(SessionFault::WriteFault),
            asked,
            asked,
            written as usize,
        );
        assert!(rt; ended == (want, true), "after {written} bytes");
    }
}
