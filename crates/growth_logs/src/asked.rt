//! What a program is asked for.

use gk_lines::{LineBuffer, LineReader, Source};

/// What a program is asked for by the first line of its input.
#[derive(Clone, Copy, Debug, PartialEq, Eq)]
pub enum Task {
    /// To go through its calls.
    Calls,
    /// `releases`: to use up memory, and to release calls then.
    Releases,
}

/// What the first line asks for: `releases`, or the calls for any other line.
pub fn task_in<R: Source>(reader: &mut R) -> Task {
    let mut line = LineBuffer::new();
    let mut lines = LineReader::new(1);
    if lines.next_line(reader, &mut line).is_err() {
        return Task::Calls;
    }
    if line.content() == b"releases".as_slice() {
        Task::Releases
    } else {
        Task::Calls
    }
}
