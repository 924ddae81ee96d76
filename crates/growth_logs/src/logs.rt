//! What is said of the calls.

use gk_lines::{LineBuffer, Noted, write_whole};
use std::alloc::{AllocError, Global};
use std::io;
use std::process::ExitCode;

/// How many bytes of answers there is room for.
const ROOM: usize = 8192;

/// The answers, a line for each; the calls that lacked memory; and those that did not keep to the
/// rules. Its room is taken at first, so that it takes no memory later.
#[derive(Drop)]
pub struct Log {
    answers: Vec<u8>,
    names: LineBuffer,
    has_faults: bool,
}

impl Log {
    /// One that has nothing to say. If its room is refused, it is asked for again.
    pub fn new(alloc: Global) -> Result<Log, AllocError> {
        let answers = match Vec::with_capacity(alloc, ROOM) {
            Ok(answers) => answers,
            Err(_) => Vec::with_capacity(alloc, ROOM)?,
        };
        let mut names = LineBuffer::new();
        names.begin(b"lacked:");
        Ok(Log {
            answers,
            names,
            has_faults: false,
        })
    }

    /// Says the answer of a call with ample memory, a line.
    pub fn answer(&mut self, line: &[u8]) {
        self.text(line);
        self.text(b"\n");
    }

    /// Says the answer of a call with ample memory, of whole lines.
    pub fn text(&mut self, lines: &[u8]) {
        if self.answers.extend_from_slice(lines).is_err() {
            self.fault(b"answers");
        }
    }

    /// Says this number of a call with ample memory.
    pub fn count(&mut self, call: &[u8], number: usize) {
        let mut line = LineBuffer::new();
        line.begin(call);
        line.number(u32::try_from(number).unwrap_or(u32::MAX));
        self.answer(line.as_bytes());
    }

    /// Says that a call lacked memory, and that nothing is wrong with that.
    pub fn lacked(&mut self, call: &[u8]) {
        self.names.word(call);
    }

    /// Says that a call did not keep to the rules.
    pub fn fault(&mut self, call: &[u8]) {
        self.has_faults = true;
        self.names.word(b"FAULT");
        self.names.word(call);
    }

    /// Says that a call was refused: it lacked memory, or else it did not keep to the rules.
    pub fn refused(&mut self, call: &[u8], for_memory: bool) {
        if for_memory {
            self.lacked(call);
        } else {
            self.fault(call);
        }
    }

    /// Prints the answers, and a line of the calls that lacked memory and of those that did not
    /// keep to the rules. The status is 1 if there are any of these, or if it is not printed.
    pub fn print<R: Print>(mut self, rt: &R) -> ExitCode {
        self.names.push_byte(b'\n');
        let written = write_whole(&mut Noted::new(io::writer(rt)), self.answers.as_slice());
        let named = write_whole(&mut Noted::new(io::writer(rt)), self.names.as_bytes());
        if self.has_faults || written.is_err() || named.is_err() {
            return ExitCode::from(1);
        }
        ExitCode::SUCCESS
    }
}
