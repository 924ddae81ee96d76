//! Readers and writers that know how often they have failed, and how often they were called.

ghost use Rattle.std.specs.Prelude.{◌≡◌, ℕ, ◌<◌, ◌==◌, ◌||◌, nat_lt, List, Option, Ok, length, IfOk, IsErr, MatchResult, MatchBool};
ghost use Rattle.std.specs.Io.{ReadsAtMost, WritesAtMost};
ghost use Rattle.std.specs.Io.KnownBytes.{ReadConsumes, WriteAppends};
ghost use Rattle.gk_lines.specs.Streams.{Notes, CountsCall};

use std::io;
use std::io::{Read, Write};
use thiserror::Error;

/// A call of a reader or a writer failed.
#[derive(Clone, Copy, Debug, PartialEq, Eq, Error)]
#[error("a read or write failed")]
pub struct StreamFailed;

/// Where bytes come from. It knows how often it has failed, and how often it was called.
pub trait Source {
    /// The bytes that it will still give, if they are known.
    ghost remaining: { Self → Option (List ℕ) };

    /// How often it has failed. The count begins again at 0 after 2^64 - 1.
    ghost failures: { Self → ℕ };

    /// How often it was called. The count is exact up to 2^64 - 1 calls.
    ghost calls: { Self → ℕ };

    /// Reads bytes to the front of the piece, and says how many. 0 comes only at the end, or if the
    /// piece is empty.
    fn read(&mut self, piece: &mut [u8]) -> Result<usize, StreamFailed>
        ensures bound { ReadsAtMost result piece.new }
        ensures bytes { ReadConsumes (remaining self.old) (remaining self.new) result piece.new }
        ensures noted { Notes (failures self.old) (failures self.new) result }
        ensures counted { CountsCall (calls self.old) (calls self.new) };
}

/// Where bytes go. It knows how often it has failed.
pub trait Sink {
    /// The bytes that it holds, if they are known.
    ghost contents: { Self → Option (List ℕ) };

    /// How often it has failed. The count begins again at 0 after 2^64 - 1.
    ghost failures: { Self → ℕ };

    /// Writes a front of the bytes, and says how many. To take none of them is to fail.
    fn write(&mut self, bytes: &[u8]) -> Result<usize, StreamFailed>
        ensures bound { WritesAtMost result bytes.now }
        ensures some { IfOk result (λ count. 0 < length bytes.now → 0 < count) }
        ensures bytes { WriteAppends (contents self.old) (contents self.new) result bytes.now }
        ensures noted { Notes (failures self.old) (failures self.new) result };
}

/// A reader or writer of the library, with a count of its calls, and one of those that failed. An
/// interrupted call counts as one that failed.
#[derive(Drop)]
pub struct Noted<T> {
    stream: T,
    failures: u64,
    calls: u64,
}

impl<T> Noted<T> {
    ghost use Rattle.std.specs.Prelude.{◌≡◌};
    ghost use Rattle.gk_lines.specs.Streams.{Notes, CountsCall};

    /// With nothing counted.
    pub fn new(stream: T) -> Noted<T>
        ensures { result ≡ record { stream = stream; failures = 0; calls = 0 } }
    {
        Noted {
            stream,
            failures: 0,
            calls: 0,
        }
    }

    /// How many calls have failed. After 2^64 - 1 the count begins again at 0.
    pub fn failures(&self) -> u64
        ensures { result ≡ self.now.failures }
    {
        let Noted { failures, .. } = self;
        *failures
    }

    /// How often it was called. The count stops at 2^64 - 1.
    pub fn calls(&self) -> u64
        ensures { result ≡ self.now.calls }
    {
        let Noted { calls, .. } = self;
        *calls
    }

    /// Counts one more call, and one that failed if it did.
    fn note(&mut self, outcome: &Result<usize, StreamFailed>)
        ensures stream { self.new.stream ≡ self.old.stream }
        ensures failures { Notes self.old.failures self.new.failures outcome.now }
        ensures calls { CountsCall self.old.calls self.new.calls }
    {
        self.calls = self.calls.saturating_add(1);
        if outcome.is_err() {
            self.failures = self.failures.wrapping_add(1);
        }
    }
}

impl<R: Read> Source for Noted<R> {
    ghost remaining = { λ noted. R.remaining noted.stream };

    ghost failures = { λ noted. noted.failures };

    ghost calls = { λ noted. noted.calls };

    fn read(&mut self, piece: &mut [u8]) -> Result<usize, StreamFailed> {
        let outcome = read_outcome(self.stream.read(piece));
        self.note(&outcome);
        outcome
    }
}

impl<W: Write> Sink for Noted<W> {
    ghost contents = { λ noted. W.contents noted.stream };

    ghost failures = { λ noted. noted.failures };

    fn write(&mut self, bytes: &[u8]) -> Result<usize, StreamFailed> {
        let outcome = write_outcome(self.stream.write(bytes), bytes.len());
        self.note(&outcome);
        outcome
    }
}

/// What the library's answer to a read comes to: it failed exactly if the answer is an error.
fn read_outcome(answered: io::Result<usize>) -> Result<usize, StreamFailed>
    ensures { MatchResult answered (λ count. result ≡ Ok count) (λ _. IsErr result) }
{
    match answered {
        Ok(count) => Ok(count),
        Err(_) => Err(StreamFailed),
    }
}

/// What the library's answer to a write of so many bytes comes to: it failed exactly if the answer
/// is an error, or if none of some bytes was taken.
fn write_outcome(answered: io::Result<usize>, offered: usize) -> Result<usize, StreamFailed>
    ensures { MatchResult answered
        (λ count. MatchBool (nat_lt 0 count || (offered == 0)) (result ≡ Ok count) (IsErr result))
        (λ _. IsErr result) }
{
    match answered {
        Ok(count) if count > 0 || offered == 0 => Ok(count),
        _ => Err(StreamFailed),
    }
}
