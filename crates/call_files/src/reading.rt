//! Reading a call file.

ghost use Rattle.std.specs.Prelude.{◌≡◌, ◌+◌, ◌<◌, ◌≤◌, ℕ, List, true, length, OnOk, MatchResult, Ok, Err};
ghost use Rattle.std.specs.Result.{result_map_both};
ghost use Rattle.csv.specs.Records.{fields_of};
ghost use Rattle.call_files.specs.Rows.{is_header};
ghost use Rattle.call_files.specs.Calls.{MayRefuseRow, ReadsCalls, with_record, with_row};
ghost use Rattle.call_files.specs.RecordReader.{IsPast, IsReading};

use crate::faults::{CallsFault, CallsFaultKind};
use crate::fields::{is_header, row_in};
use crate::record_reader::{next_record, reader_of};
use call_rows::{CallRow, Snapshot};
use csv::{ByteRecord, Reader};
use gk_terms::limits::{MOST_ENDPOINTS, MOST_RECORDS};
use registry::Registry;
use std::alloc::Global;

/// Reads a call file: comma-separated fields, as `csv` reads them by default. So a byte order mark
/// before the header is passed over, as are empty lines, and a field may stand in quotes. The
/// snapshot has no endpoints.
///
/// The first fault is answered. In each row they are tried in this order: `TooMany` for the count
/// of rows, `BadRow`, `BadField`, `OutOfOrder`, `CallOpen` or `NoCall`, and `TooMany` for the count
/// of open calls. `NoMemory` comes at row 0, or at a row before which the header and all rows were
/// read without a fault. It then stands in place of whatever would be answered of that row, of
/// those after it, or of the end of the text.
pub fn read_calls(alloc: Global, text: &[u8]) -> Result<Snapshot, CallsFault>
    ensures { ReadsCalls text.now
        (result_map_both (λ snapshot. snapshot) (λ fault. fault) result) }
{
    let mut reader = reader_of(alloc, text);
    let mut fields = ByteRecord::new(alloc);
    match next_record(&mut reader, &mut fields) {
        Ok(true) => {}
        Ok(false) => return Err(fault_at(0, CallsFaultKind::BadHeader)),
        Err(_) => return Err(fault_at(0, CallsFaultKind::NoMemory)),
    }
    if !is_header(&fields) {
        return Err(fault_at(0, CallsFaultKind::BadHeader));
    }
    rows_under(alloc, &mut reader, &mut fields)
}

/// The rows after the header, which was read.
fn rows_under(
    alloc: Global,
    reader: &mut Reader<&[u8]>,
    fields: &mut ByteRecord,
) -> Result<Snapshot, CallsFault>
    requires { IsReading reader.old }
    ensures { (text : List ℕ) (names : List (List ℕ)) → IsPast text names reader.old
        → is_header names ≡ true → ReadsCalls text
        (result_map_both (λ snapshot. snapshot) (λ fault. fault) result) }
{
    let mut snapshot = Snapshot::new(alloc, Registry::new(alloc, MOST_ENDPOINTS));
    for rows in 0..MOST_RECORDS + 2 {
        match next_record(reader, fields) {
            Ok(true) => {
                if let Err(fault) = add_record(&mut snapshot, rows, fields) {
                    return Err(fault);
                }
            }
            Ok(false) => return Ok(snapshot),
            Err(_) => return Err(fault_at(rows + 1, CallsFaultKind::NoMemory)),
        }
    }
    unreachable!()
}

/// Adds the row of a record to so many rows. `NoMemory` comes only if it has no fault.
fn add_record(snapshot: &mut Snapshot, rows: u32, fields: &ByteRecord) -> Result<(), CallsFault>
    requires rows { rows ≡ length snapshot.old.rows }
    requires few { rows ≤ 1000000 }
    ensures longer { OnOk result (length snapshot.new.rows ≡ length snapshot.old.rows + 1) }
    ensures few { OnOk result (length snapshot.new.rows ≤ 1000000) }
    ensures endpoints { snapshot.new.endpoints ≡ snapshot.old.endpoints }
    ensures says { MatchResult result
        (λ _. with_record snapshot.old.rows (fields_of fields.now) ≡ Ok snapshot.new.rows)
        (MayRefuseRow snapshot.old.rows
        (with_record snapshot.old.rows (fields_of fields.now))) }
{
    if rows >= MOST_RECORDS {
        return Err(fault_at(rows + 1, CallsFaultKind::TooMany));
    }
    match row_in(fields) {
        Ok(row) => add_row(snapshot, rows, &row),
        Err(kind) => Err(fault_at(rows + 1, kind)),
    }
}

/// Adds a row to so many rows. `NoMemory` comes only if it has no fault.
fn add_row(snapshot: &mut Snapshot, rows: u32, row: &CallRow) -> Result<(), CallsFault>
    requires rows { rows ≡ length snapshot.old.rows }
    requires few { rows < 1000000 }
    ensures longer { OnOk result (length snapshot.new.rows ≡ length snapshot.old.rows + 1) }
    ensures endpoints { snapshot.new.endpoints ≡ snapshot.old.endpoints }
    ensures says { MatchResult result
        (λ _. with_row snapshot.old.rows row.now ≡ Ok snapshot.new.rows)
        (MayRefuseRow snapshot.old.rows (with_row snapshot.old.rows row.now)) }
{
    match snapshot.push(row) {
        Ok(()) => Ok(()),
        Err(fault) => Err(fault_at(rows + 1, CallsFaultKind::from(fault))),
    }
}

fn fault_at(row: u32, kind: CallsFaultKind) -> CallsFault
    ensures { result ≡ record { row = row; kind = kind } }
{
    CallsFault { row, kind }
}
