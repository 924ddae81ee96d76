//! Rows of comma-separated fields, on their way to a writer.

ghost use Rattle.std.specs.Prelude.{◌≡◌, ◌++◌, [], map, Some, IfOk, OnOk, OnErr};
ghost use Rattle.std.specs.Io.KnownBytes.{Appends};
ghost use Rattle.csv.specs.Writing.{default_writer, row_text, text_written};
ghost use Rattle.gk_lines.specs.Streams.{NotesIf, AppendsFront, AppendsUpTo};
ghost use Rattle.call_files.specs.RowWriter.{IsBetweenRows, is_write_fault, waiting};
ghost use Rattle.call_files.specs.declared.row_writer.WriteRowsFault.TheVariants.{NoMemory};

use csv::{Writer, WriterBuilder};
use gk_lines::{Sink, WriteFault, write_whole};
use std::alloc::{AllocError, Global};
use std::marker::Model;
use std::mem;
use thiserror::Error;

/// How many rows wait for the writer at most: a writer is called once for so many.
const BATCH_ROWS: u32 = 500;

/// Why rows could not be written.
#[derive(Clone, Copy, Debug, PartialEq, Eq, Error)]
pub enum WriteRowsFault {
    /// The writer failed, or took no byte.
    #[error("the writer failed")]
    WriteFault,
    /// Memory ran out.
    #[error("no memory")]
    NoMemory,
}

impl From<WriteFault> for WriteRowsFault {
    ghost use Rattle.std.specs.Prelude.{◌≡◌};
    ghost use Rattle.call_files.specs.declared.row_writer.WriteRowsFault.TheVariants as faults;

    ghost from_gives = { λ _ fault. fault ≡ faults.WriteFault };

    fn from(_failed: WriteFault) -> WriteRowsFault {
        WriteRowsFault::WriteFault
    }
}

impl From<AllocError> for WriteRowsFault {
    ghost use Rattle.std.specs.Prelude.{◌≡◌};
    ghost use Rattle.call_files.specs.declared.row_writer.WriteRowsFault.TheVariants as faults;

    ghost from_gives = { λ _ fault. fault ≡ faults.NoMemory };

    fn from(_refused: AllocError) -> WriteRowsFault {
        WriteRowsFault::NoMemory
    }
}

/// Rows of comma-separated fields that wait for a writer: some hundreds are sent at once. A
/// contract sees the text that waits.
#[derive(Drop)]
pub struct RowWriter {
    batch: Writer<Vec<u8>>,
    rows: u32,
    alloc: Global,
}

impl Model for RowWriter {
    ghost use Rattle.std.specs.Prelude.{ℕ, List};
    ghost use Rattle.call_files.specs.RowWriter.{IsBetweenRows, waiting};

    ghost Value = { List ℕ };

    ghost view = { λ w. waiting w.batch };

    ghost invariant = { λ w. IsBetweenRows w.batch };
}

impl RowWriter {
    /// Nothing waits. Takes no memory.
    pub fn new(alloc: Global) -> RowWriter
        ensures { result ≡ [] }
    {
        RowWriter {
            batch: batch_over(Vec::new(alloc)),
            rows: 0,
            alloc,
        }
    }

    /// Adds a row: its fields as `csv` writes them by default, with commas between, in quotes only
    /// if they need them, and a line feed. What waits is sent if it is many rows.
    ///
    /// After a fault the writer has taken a front of what waited and of this row, and nothing waits
    /// any more. `WriteFault` comes only if the writer fails in this call.
    pub fn row<W: Sink>(&mut self, fields: &[&[u8]], writer: &mut W) -> Result<(), WriteRowsFault>
        ensures added { OnOk result (AppendsUpTo (W.contents writer.old) (W.contents writer.new)
            (self.old ++ row_text default_writer (map (λ f. f.now) fields.now)) self.new) }
        ensures front { OnErr result (AppendsFront (W.contents writer.old) (W.contents writer.new)
            (self.old ++ row_text default_writer (map (λ f. f.now) fields.now))) }
        ensures gone { OnErr result (self.new ≡ []) }
        ensures noted { NotesIf is_write_fault (W.failures writer.old) (W.failures writer.new)
            result }
    {
        self.add(fields)?;
        if self.rows < BATCH_ROWS {
            return Ok(());
        }
        self.send(writer)
    }

    /// Sends what waits. Nothing waits any more, not even after a fault: then the writer has taken
    /// a front of it. `WriteFault` comes only if the writer fails in this call.
    pub fn send<W: Sink>(&mut self, writer: &mut W) -> Result<(), WriteRowsFault>
        ensures whole { OnOk result (Appends (W.contents writer.old) (W.contents writer.new)
            self.old) }
        ensures front { OnErr result (AppendsFront (W.contents writer.old) (W.contents writer.new)
            self.old) }
        ensures empty { self.new ≡ [] }
        ensures noted { NotesIf is_write_fault (W.failures writer.old) (W.failures writer.new)
            result }
    {
        let mut text = self.take()?;
        write_whole(writer, &text)?;
        text.clear();
        self.batch = batch_over(text);
        Ok(())
    }

    /// Adds a row to what waits. If memory runs out nothing waits any more.
    fn add(&mut self, fields: &[&[u8]]) -> Result<(), AllocError>
        ensures added { OnOk result (self.new
            ≡ self.old ++ row_text default_writer (map (λ f. f.now) fields.now)) }
        ensures gone { OnErr result (self.new ≡ []) }
    {
        match self.batch.write_fields(fields) {
            Ok(()) => {
                self.rows = self.rows.saturating_add(1);
                Ok(())
            }
            Err(_) => {
                forget(&mut self.batch, self.alloc);
                Err(AllocError)
            }
        }
    }

    /// Takes what waits.
    fn take(&mut self) -> Result<Vec<u8>, AllocError>
        ensures text { IfOk result (λ text. text.items ≡ self.old) }
        ensures empty { self.new ≡ [] }
    {
        self.rows = 0;
        let batch = mem::replace(&mut self.batch, batch_over(Vec::new(self.alloc)));
        match batch.into_inner() {
            Ok(text) => Ok(text),
            Err(_) => Err(AllocError),
        }
    }
}

/// Rows over a buffer.
fn batch_over(text: Vec<u8>) -> Writer<Vec<u8>>
    ensures text { waiting result ≡ text.items }
    ensures between { IsBetweenRows result }
{
    WriterBuilder::new().from_writer(text)
}

/// Puts a row writer without rows in this one's place.
fn forget(batch: &mut Writer<Vec<u8>>, alloc: Global)
    ensures text { waiting batch.new ≡ [] }
    ensures between { IsBetweenRows batch.new }
{
    *batch = batch_over(Vec::new(alloc));
}
