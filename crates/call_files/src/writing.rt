//! Writing a call file.

ghost use Rattle.std.specs.Prelude.{◌≡◌, ◌++◌, [], OnOk, OnErr};
ghost use Rattle.std.specs.List.{All};
ghost use Rattle.std.specs.Io.KnownBytes.{Appends};
ghost use Rattle.gk_lines.specs.Streams.{NotesIf, AppendsFront, AppendsUpTo};
ghost use Rattle.csv.specs.Writing.{default_writer, row_text};
ghost use Rattle.call_rows.specs.Pushing.{MayFollow};
ghost use Rattle.call_rows.specs.declared.rows.CallEvent.TheVariants as events;
ghost use Rattle.call_files.specs.Rows.{fields_from, granted_word, header};
ghost use Rattle.call_files.specs.Calls.{SaysRows, calls_text, row_said, rows_said};
ghost use Rattle.call_files.specs.ReadBack.{IsRow};
ghost use Rattle.call_files.specs.RowWriter.{is_write_fault};

use crate::route_texts::show_route;
use crate::row_source::RowSource;
use crate::row_writer::{RowWriter, WriteRowsFault};
use crate::sound_rows::row_is_sound;
use call_rows::{AdmittedCall, AnsweredCall, CallEvent, CallRow, Snapshot};
use gk_lines::{LineBuffer, Sink};
use gk_terms::Units;
use itoa::Buffer;
use std::alloc::Global;

/// Writes the call file of a snapshot's rows: the header, and a record for each row, as `csv`
/// writes them by default. `read_calls` reads it as the same rows: its first record is the header,
/// and those after it say the rows, without a fault.
///
/// `WriteFault` comes exactly if the writer fails in this call. After a fault it has taken a front
/// of the text.
pub fn write_calls<W: Sink>(
    alloc: Global,
    snapshot: &Snapshot,
    writer: &mut W,
) -> Result<(), WriteRowsFault>
    ensures whole { OnOk result (Appends (W.contents writer.old) (W.contents writer.new)
        (calls_text snapshot.now.rows)) }
    ensures front { OnErr result (AppendsFront (W.contents writer.old) (W.contents writer.new)
        (calls_text snapshot.now.rows)) }
    ensures noted { NotesIf is_write_fault (W.failures writer.old) (W.failures writer.new)
        result }
    ensures reads_back { OnOk result (SaysRows (calls_text snapshot.now.rows) snapshot.now.rows) }
{
    // So it is known that each row could be added after those before it.
    let _rows = snapshot.len();
    write_rows_of(alloc, snapshot, writer)
}

/// Writes the call file of these rows, as `write_calls` does. It takes one row after another, and
/// holds some hundreds of them at a time. `read_calls` reads it as the same rows if each may
/// be put into a snapshot after those before it.
pub fn write_rows_of<S: RowSource, W: Sink>(
    alloc: Global,
    source: &S,
    writer: &mut W,
) -> Result<(), WriteRowsFault>
    ensures whole { OnOk result (Appends (W.contents writer.old) (W.contents writer.new)
        (calls_text (S.rows source.now))) }
    ensures front { OnErr result (AppendsFront (W.contents writer.old) (W.contents writer.new)
        (calls_text (S.rows source.now))) }
    ensures noted { NotesIf is_write_fault (W.failures writer.old) (W.failures writer.new)
        result }
    ensures reads_back { OnOk result (MayFollow [] (S.rows source.now)
        → SaysRows (calls_text (S.rows source.now)) (S.rows source.now)) }
{
    let mut rows = RowWriter::new(alloc);
    write_header(&mut rows, writer)?;
    write_rows(&mut rows, source, writer)?;
    rows.send(writer)
}

/// Writes the header.
fn write_header<W: Sink>(rows: &mut RowWriter, writer: &mut W) -> Result<(), WriteRowsFault>
    ensures added { OnOk result (AppendsUpTo (W.contents writer.old) (W.contents writer.new)
        (rows.old ++ row_text default_writer header) rows.new) }
    ensures front { OnErr result (AppendsFront (W.contents writer.old) (W.contents writer.new)
        (rows.old ++ row_text default_writer header)) }
    ensures noted { NotesIf is_write_fault (W.failures writer.old) (W.failures writer.new)
        result }
{
    let fields: [&[u8]; 8] = [
        b"number", b"event", b"call", b"zone", b"digits", b"units", b"granted", b"route",
    ];
    rows.row(&fields, writer)
}

/// Writes the rows, each of which is one of the type.
fn write_rows<S: RowSource, W: Sink>(
    rows: &mut RowWriter,
    source: &S,
    writer: &mut W,
) -> Result<(), WriteRowsFault>
    ensures added { OnOk result (AppendsUpTo (W.contents writer.old) (W.contents writer.new)
        (rows.old ++ rows_said (S.rows source.now)) rows.new) }
    ensures front { OnErr result (AppendsFront (W.contents writer.old) (W.contents writer.new)
        (rows.old ++ rows_said (S.rows source.now))) }
    ensures noted { NotesIf is_write_fault (W.failures writer.old) (W.failures writer.new)
        result }
    ensures sound { OnOk result (All IsRow (S.rows source.now)) }
{
    for place in 0..source.places() {
        if let Some(row) = source.row_at(place) {
            row_is_sound(&row);
            write_row(rows, &row, writer)?;
        }
    }
    Ok(())
}

/// Writes a row.
fn write_row<W: Sink>(
    rows: &mut RowWriter,
    row: &CallRow,
    writer: &mut W,
) -> Result<(), WriteRowsFault>
    ensures added { OnOk result (AppendsUpTo (W.contents writer.old) (W.contents writer.new)
        (rows.old ++ row_said row.now) rows.new) }
    ensures front { OnErr result (AppendsFront (W.contents writer.old) (W.contents writer.new)
        (rows.old ++ row_said row.now)) }
    ensures noted { NotesIf is_write_fault (W.failures writer.old) (W.failures writer.new)
        result }
{
    let number = row.number();
    match row.event() {
        CallEvent::Admitted(asked) => write_admitted(rows, number, asked, writer),
        CallEvent::Answered(asked) => write_answered(rows, number, asked, writer),
        CallEvent::Changed { call, units } => write_changed(rows, number, *call, *units, writer),
        CallEvent::Released { call } => write_released(rows, number, *call, writer),
    }
}

/// Writes the row of an admission.
fn write_admitted<W: Sink>(
    rows: &mut RowWriter,
    number: u32,
    asked: &AdmittedCall,
    writer: &mut W,
) -> Result<(), WriteRowsFault>
    ensures added { OnOk result (AppendsUpTo (W.contents writer.old) (W.contents writer.new)
        (rows.old ++ row_text default_writer (fields_from number (events.Admitted asked.now)))
        rows.new) }
    ensures front { OnErr result (AppendsFront (W.contents writer.old) (W.contents writer.new)
        (rows.old ++ row_text default_writer (fields_from number (events.Admitted asked.now)))) }
    ensures noted { NotesIf is_write_fault (W.failures writer.old) (W.failures writer.new)
        result }
{
    let mut number_text = Buffer::new();
    let mut call_text = Buffer::new();
    let mut units_text = Buffer::new();
    let mut route_text = LineBuffer::new();
    show_route(&mut route_text, &asked.route);
    let (zone, digits) = (asked.zone, asked.digits);
    let fields: [&[u8]; 8] = [
        number_text.format(number).as_bytes(),
        b"ARQ",
        call_text.format(asked.call).as_bytes(),
        zone.as_bytes(),
        digits.as_bytes(),
        units_text.format(asked.units.value()).as_bytes(),
        granted_word(asked.granted),
        route_text.as_bytes(),
    ];
    rows.row(&fields, writer)
}

/// Writes the row of the answer to a call.
fn write_answered<W: Sink>(
    rows: &mut RowWriter,
    number: u32,
    asked: &AnsweredCall,
    writer: &mut W,
) -> Result<(), WriteRowsFault>
    ensures added { OnOk result (AppendsUpTo (W.contents writer.old) (W.contents writer.new)
        (rows.old ++ row_text default_writer (fields_from number (events.Answered asked.now)))
        rows.new) }
    ensures front { OnErr result (AppendsFront (W.contents writer.old) (W.contents writer.new)
        (rows.old ++ row_text default_writer (fields_from number (events.Answered asked.now)))) }
    ensures noted { NotesIf is_write_fault (W.failures writer.old) (W.failures writer.new)
        result }
{
    let mut number_text = Buffer::new();
    let mut call_text = Buffer::new();
    let mut units_text = Buffer::new();
    let mut route_text = LineBuffer::new();
    show_route(&mut route_text, &asked.route);
    let zone = asked.zone;
    let fields: [&[u8]; 8] = [
        number_text.format(number).as_bytes(),
        b"ANS",
        call_text.format(asked.call).as_bytes(),
        zone.as_bytes(),
        b"",
        units_text.format(asked.units.value()).as_bytes(),
        granted_word(asked.granted),
        route_text.as_bytes(),
    ];
    rows.row(&fields, writer)
}

/// Whether an admission was granted, in a word.
fn granted_word(granted: bool) -> &'static [u8]
    ensures { result.now ≡ granted_word granted }
{
    if granted { b"yes" } else { b"no" }
}

#[tactic(auto, using(crate::proofs::WriterLemmas::front_of_same))]
/// Writes the row of a change.
fn write_changed<W: Sink>(
    rows: &mut RowWriter,
    number: u32,
    call: u32,
    units: Units,
    writer: &mut W,
) -> Result<(), WriteRowsFault>
    ensures added { OnOk result (AppendsUpTo (W.contents writer.old) (W.contents writer.new)
        (rows.old ++ row_text default_writer (fields_from number (events.Changed call units)))
        rows.new) }
    ensures front { OnErr result (AppendsFront (W.contents writer.old) (W.contents writer.new)
        (rows.old ++ row_text default_writer (fields_from number (events.Changed call units)))) }
    ensures noted { NotesIf is_write_fault (W.failures writer.old) (W.failures writer.new)
        result }
{
    let mut number_text = Buffer::new();
    let mut call_text = Buffer::new();
    let mut units_text = Buffer::new();
    let fields: [&[u8]; 8] = [
        number_text.format(number).as_bytes(),
        b"BRQ",
        call_text.format(call).as_bytes(),
        b"",
        b"",
        units_text.format(units.value()).as_bytes(),
        b"",
        b"",
    ];
    rows.row(&fields, writer)
}

#[tactic(auto, using(crate::proofs::WriterLemmas::front_of_same))]
/// Writes the row of a release.
fn write_released<W: Sink>(
    rows: &mut RowWriter,
    number: u32,
    call: u32,
    writer: &mut W,
) -> Result<(), WriteRowsFault>
    ensures added { OnOk result (AppendsUpTo (W.contents writer.old) (W.contents writer.new)
        (rows.old ++ row_text default_writer (fields_from number (events.Released call)))
        rows.new) }
    ensures front { OnErr result (AppendsFront (W.contents writer.old) (W.contents writer.new)
        (rows.old ++ row_text default_writer (fields_from number (events.Released call)))) }
    ensures noted { NotesIf is_write_fault (W.failures writer.old) (W.failures writer.new)
        result }
{
    let mut number_text = Buffer::new();
    let mut call_text = Buffer::new();
    let fields: [&[u8]; 8] = [
        number_text.format(number).as_bytes(),
        b"DRQ",
        call_text.format(call).as_bytes(),
        b"",
        b"",
        b"",
        b"",
        b"",
    ];
    rows.row(&fields, writer)
}
