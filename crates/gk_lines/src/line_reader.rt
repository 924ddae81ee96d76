//! The lines of an input that is read in pieces.

ghost use Rattle.std.specs.Prelude.{◌≡◌, ◌+◌, ◌^◌, ◌<◌, ◌≤◌, ◌==◌, [], IsTrue, IfOk, IfErr, false, length, take, drop, nat_lt};
ghost use Rattle.std.specs.List.{position_or_len};
ghost use Rattle.std.specs.Io.KnownBytes.{Keeps, IsAtEnd};
ghost use Rattle.gk_lines.specs.Streams.{NotesIf, KnownStep};
ghost use Rattle.gk_lines.specs.LineBuffer.{extended};
ghost use Rattle.gk_lines.specs.LineReader.{work_left, length_in_line, left_of, AtEndIfEnded, CountsTurns, GaveBytes, failed_calls, TakesLine, TakesPart, is_failure};

use crate::line_buffer::LineBuffer;
use crate::streams::Source;
use gk_terms::text_lines::bytes_before_feed;
use std::marker::Model;
use thiserror::Error;

/// How many bytes the reader is asked for at once.
const PIECE: usize = 4_096;

/// Why no line could be read.
#[derive(Clone, Copy, Debug, PartialEq, Eq, Error)]
pub enum ReadFault {
    /// The reader failed.
    #[error("the reader failed")]
    Failed,
    /// The reader was called as often as it may be.
    #[error("the turns are spent")]
    TurnsSpent,
}

/// What was read of an input and not yet taken, and how often its reader may still be called. The
/// bytes of `piece` from `start` to `end` are pending; `ended` says that the reader gave no byte
/// more, and then none is pending.
#[derive(Drop)]
pub struct LineReader {
    piece: [u8; PIECE],
    start: usize,
    end: usize,
    turns: u32,
    ended: bool,
}

impl Model for LineReader {
    ghost use Rattle.std.specs.Prelude.{◌≡◌, ◌-◌, ◌≤◌, IsTrue, length, take, drop};
    ghost use Rattle.gk_lines.specs.LineReader.{LineReaderParts, PIECE_BYTES};

    ghost Value = { LineReaderParts };

    ghost view = { λ i. record {
      pending = take (i.end - i.start)
          (drop i.start i.piece);
      turns = i.turns;
      ended = i.ended;
    } };

    ghost invariant = { λ i. (i.start ≤ i.end) × (i.end ≤ PIECE_BYTES)
        × (length i.piece ≡ PIECE_BYTES)
        × (IsTrue i.ended → i.end ≤ i.start) };
}

impl LineReader {
    /// An input of which nothing was read, whose reader may be called so often.
    pub fn new(turns: u32) -> LineReader
        ensures { result ≡ record { pending = []; turns = turns; ended = false } }
    {
        LineReader {
            piece: [0; PIECE],
            start: 0,
            end: 0,
            turns,
            ended: false,
        }
    }

    /// How often the reader may still be called.
    pub fn turns(&self) -> u32
        ensures turns { result ≡ self.now.turns }
        ensures bounded { work_left self.now < 2 ^ 63 }
    {
        self.turns
    }

    /// The next line, with its line feed if it has one, as far as it is kept; false at the end of
    /// the input. The reader is called only if no byte is pending, and each call takes one turn.
    ///
    /// `TurnsSpent` comes only if no turn is left, and `Failed` exactly if the reader fails in this
    /// call.
    pub fn next_line<R: Source>(
        &mut self,
        reader: &mut R,
        line: &mut LineBuffer,
    ) -> Result<bool, ReadFault>
        // An input stays with its reader: if it saw the end, the reader has no byte left. A new
        // input meets this.
        requires { AtEndIfEnded self.old (R.remaining reader.old) }

        // The first of the lines that are left is taken off, in whatever pieces it comes.
        ensures line { IfOk result (λ more. IsTrue more → KnownStep
            (left_of self.old (R.remaining reader.old)) (left_of self.new (R.remaining reader.new))
            (TakesLine self.new.ended line.new)) }

        // False comes only if no line is left.
        ensures none { IfOk result
            (λ more. more ≡ false → IsAtEnd (left_of self.old (R.remaining reader.old))) }
        ensures nothing_taken { IfOk result (λ more. more ≡ false → Keeps
            (left_of self.old (R.remaining reader.old))
            (left_of self.new (R.remaining reader.new))) }
        ensures none_pending { IfOk result (λ more. more ≡ false → self.new.pending ≡ []) }
        ensures none_to_read { IfOk result
            (λ more. more ≡ false → IsAtEnd (R.remaining reader.new)) }
        ensures none_left { IfOk result (λ more. more ≡ false → IsTrue self.new.ended) }

        // At a fault, what was taken belongs to a line whose end was not read yet, nothing is
        // pending, and no end of the input is noted. No more turns were taken than bytes came, the
        // call that failed aside.
        ensures part { IfErr result (λ _. KnownStep
            (left_of self.old (R.remaining reader.old))
            (left_of self.new (R.remaining reader.new)) TakesPart) }
        ensures part_read { IfErr result (λ _. self.new.pending ≡ []) }
        ensures unended { IfErr result (λ _. self.old.ended ≡ false) }
        ensures still_unended { IfErr result (λ _. self.new.ended ≡ false) }
        ensures turns_read { IfErr result (λ fault. GaveBytes (R.remaining reader.old)
            (R.remaining reader.new) self.old.turns (self.new.turns + failed_calls fault)) }

        // An input that came to its end stays there, and gives no further line.
        ensures unended_line { IfOk result (λ more. IsTrue more → self.old.ended ≡ false) }
        ensures ended { AtEndIfEnded self.new (R.remaining reader.new) }
        ensures stays_ended { self.new.ended ≡ false → self.old.ended ≡ false }

        ensures turns { CountsTurns (R.calls reader.old)
            (R.calls reader.new) self.old.turns self.new.turns }
        ensures turns_spent { IfErr result
            (λ fault. fault ≡ ReadFault.TurnsSpent → self.new.turns ≡ 0) }
        ensures noted { NotesIf is_failure (R.failures reader.old)
            (R.failures reader.new) result }

        // What is left to do falls with each line.
        ensures progress { IfOk result
            (λ more. IsTrue more → work_left self.new < work_left self.old) }
        ensures work { work_left self.new ≤ work_left self.old }
    {
        line.clear();
        let mut more = false;
        while self.fill(reader)? {
            more = true;
            if self.take_part(line) {
                break;
            }
        }
        Ok(more)
    }

    /// Whether a byte of the input is left; the reader is called if none is pending.
    fn fill<R: Source>(&mut self, reader: &mut R) -> Result<bool, ReadFault>
        requires { AtEndIfEnded self.old (R.remaining reader.old) }
        ensures more { IfOk result (λ more. IsTrue more → 0 < length self.new.pending) }
        ensures none_pending { IfOk result (λ more. more ≡ false → self.new.pending ≡ []) }
        ensures none_to_read { IfOk result
            (λ more. more ≡ false → IsAtEnd (R.remaining reader.new)) }
        ensures none_left { IfOk result (λ more. more ≡ false → IsTrue self.new.ended) }
        ensures unended_line { IfOk result (λ more. IsTrue more → self.old.ended ≡ false) }
        ensures part_read { IfErr result (λ _. self.new.pending ≡ []) }
        ensures unended { IfErr result (λ _. self.old.ended ≡ false) }
        ensures still_unended { IfErr result (λ _. self.new.ended ≡ false) }
        ensures turns_gave { IfOk result (λ more. IsTrue more → GaveBytes (R.remaining reader.old)
            (R.remaining reader.new) self.old.turns self.new.turns) }
        ensures turns_read { IfErr result (λ fault. GaveBytes (R.remaining reader.old)
            (R.remaining reader.new) self.old.turns (self.new.turns + failed_calls fault)) }
        ensures left { Keeps (left_of self.old (R.remaining reader.old))
            (left_of self.new (R.remaining reader.new)) }
        ensures ended { AtEndIfEnded self.new (R.remaining reader.new) }
        ensures stays_ended { self.new.ended ≡ false → self.old.ended ≡ false }
        ensures turns { CountsTurns (R.calls reader.old)
            (R.calls reader.new) self.old.turns self.new.turns }
        ensures turns_spent { IfErr result
            (λ fault. fault ≡ ReadFault.TurnsSpent → self.new.turns ≡ 0) }
        ensures noted { NotesIf is_failure (R.failures reader.old)
            (R.failures reader.new) result }
        ensures work { work_left self.new ≤ work_left self.old }
    {
        if self.start < self.end {
            return Ok(true);
        }
        if self.ended {
            return Ok(false);
        }
        if self.turns == 0 {
            return Err(ReadFault::TurnsSpent);
        }
        self.turns -= 1;
        self.start = 0;
        self.end = 0;
        let Ok(count) = reader.read(&mut self.piece) else {
            return Err(ReadFault::Failed);
        };
        self.end = count;
        self.ended = count == 0;
        Ok(count > 0)
    }

    /// Takes the pending bytes up to the end of the line, and says if they end it.
    fn take_part(&mut self, line: &mut LineBuffer) -> bool
        ensures ends { result
            ≡ nat_lt (position_or_len (λ b. b == 10) self.old.pending) (length self.old.pending) }
        ensures taken { self.new.pending ≡ drop (length_in_line self.old.pending) self.old.pending }
        ensures kept { line.new
            ≡ extended line.old (take (length_in_line self.old.pending) self.old.pending) }
        ensures turns { self.new.turns ≡ self.old.turns }
        ensures same_end { self.new.ended ≡ self.old.ended }
    {
        let pending = self.pending();
        let before = bytes_before_feed(pending);
        let ends = before < pending.len();
        let count = if ends { before + 1 } else { before };
        line.push(&pending[..count]);
        self.consume(count);
        ends
    }

    /// The bytes that were read and not yet taken.
    fn pending(&self) -> &[u8]
        ensures { result.now ≡ self.now.pending }
    {
        &self.piece[self.start..self.end]
    }

    /// Takes so many of the pending bytes.
    fn consume(&mut self, count: usize)
        requires { count ≤ length self.old.pending }
        ensures { self.new ≡ record self.old { pending = drop count self.old.pending } }
    {
        self.start += count;
    }
}
