//! Readers and writers that do little at a time, or fail: for tests, those of the crates above too.

ghost use Rattle.std.specs.Prelude.{◌≡◌, Some, None};

use std::io;
use std::io::{ErrorKind, Read, Write};

/// A reader or writer in front of another one, which passes on at most `most` bytes a call. Its
/// call of the number `failing_call`, from 1, fails without reaching the other one; the calls after
/// it do not fail.
#[derive(Drop)]
pub struct Piecewise<T> {
    /// The other reader or writer.
    pub stream: T,
    /// The most bytes that it passes on in a call. At 0 a reader seems to be at its end, and a
    /// writer takes nothing.
    pub most: usize,
    /// Which of its calls fails, if one does.
    pub failing_call: Option<u64>,
    /// How often it was called.
    pub calls: u64,
}

impl<T> Piecewise<T> {
    /// One that does not fail.
    pub fn new(stream: T, most: usize) -> Piecewise<T>
        ensures { result ≡ record { stream = stream; most = most; failing_call = None; calls = 0 } }
    {
        Piecewise {
            stream,
            most,
            failing_call: None,
            calls: 0,
        }
    }

    /// One that fails at its call of this number, the first being 1.
    pub fn failing_at(stream: T, most: usize, call: u64) -> Piecewise<T>
        ensures { result
            ≡ record { stream = stream; most = most; failing_call = Some call; calls = 0 } }
    {
        Piecewise {
            stream,
            most,
            failing_call: Some(call),
            calls: 0,
        }
    }

    /// Counts a call, and fails if that is the call to fail.
    fn begin_call(&mut self) -> io::Result<()> {
        self.calls = self.calls.saturating_add(1);
        if self.failing_call == Some(self.calls) {
            return Err(io::Error::from(ErrorKind::Other));
        }
        Ok(())
    }
}

impl<R: Read> Read for Piecewise<R> {
    fn read(&mut self, buf: &mut [u8]) -> io::Result<usize> {
        self.begin_call()?;
        let count = self.most.min(buf.len());
        self.stream.read(&mut buf[..count])
    }
}

impl<W: Write> Write for Piecewise<W> {
    fn write(&mut self, buf: &[u8]) -> io::Result<usize> {
        self.begin_call()?;
        let count = self.most.min(buf.len());
        self.stream.write(&buf[..count])
    }

    fn flush(&mut self) -> io::Result<()> {
        self.stream.flush()
    }
}
