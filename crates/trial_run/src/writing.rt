//! Writing a report.

ghost use Rattle.std.specs.Prelude.{◌≡◌, ◌++◌, [], OnOk, OnErr};
ghost use Rattle.std.specs.Io.KnownBytes.{Appends};
ghost use Rattle.csv.specs.Writing.{default_writer, row_text};
ghost use Rattle.gk_lines.specs.Streams.{NotesIf, AppendsFront, AppendsUpTo};
ghost use Rattle.call_files.specs.RowWriter.{is_write_fault};
ghost use Rattle.trial_run.specs.Answers.{candidate_text};
ghost use Rattle.trial_run.specs.ReportText.{count_fields, digits_text, header, peak_said, peaks_said, report_text, row_said, rows_said, verdict_word};

use crate::report::Report;
use crate::report_rows::{CandidateAnswer, Counts, ReportRow, Verdict, ZonePeak};
use call_files::route_texts::show_route;
use call_files::{RowWriter, WriteRowsFault};
use gk_lines::{LineBuffer, Sink};
use gk_terms::Dialled;
use itoa::Buffer;
use std::alloc::Global;

/// Writes a report: the header, a row for each admission, one for the peak of each zone, and the
/// counts, as `csv` writes them by default.
///
/// `WriteFault` comes exactly if the writer fails in this call. After a fault it has taken a front
/// of the text.
pub fn write_report<W: Sink>(
    alloc: Global,
    report: &Report,
    writer: &mut W,
) -> Result<(), WriteRowsFault>
    ensures whole { OnOk result (Appends (W.contents writer.old) (W.contents writer.new)
        (report_text report.now)) }
    ensures front { OnErr result (AppendsFront (W.contents writer.old) (W.contents writer.new)
        (report_text report.now)) }
    ensures noted { NotesIf is_write_fault (W.failures writer.old) (W.failures writer.new)
        result }
{
    let mut rows = RowWriter::new(alloc);
    write_parts(&mut rows, report, writer)?;
    rows.send(writer)
}

/// Writes all rows of the report, but for what still waits.
fn write_parts<W: Sink>(
    rows: &mut RowWriter,
    report: &Report,
    writer: &mut W,
) -> Result<(), WriteRowsFault>
    requires { rows.old ≡ [] }
    ensures added { OnOk result (AppendsUpTo (W.contents writer.old) (W.contents writer.new)
        (report_text report.now) rows.new) }
    ensures front { OnErr result (AppendsFront (W.contents writer.old) (W.contents writer.new)
        (report_text report.now)) }
    ensures noted { NotesIf is_write_fault (W.failures writer.old) (W.failures writer.new)
        result }
{
    write_header(rows, writer)?;
    write_rows(rows, report, writer)?;
    write_peaks(rows, report, writer)?;
    write_counts(rows, &report.counts(), writer)
}

/// Writes the header.
fn write_header<W: Sink>(rows: &mut RowWriter, writer: &mut W) -> Result<(), WriteRowsFault>
    ensures added { OnOk result (AppendsUpTo (W.contents writer.old) (W.contents writer.new)
        (rows.old ++ row_text default_writer header) rows.new) }
    ensures front { OnErr result (AppendsFront (W.contents writer.old) (W.contents writer.new)
        (rows.old ++ row_text default_writer header)) }
    ensures noted { NotesIf is_write_fault (W.failures writer.old) (W.failures writer.new)
        result }
{
    let fields: [&[u8]; 5] = [b"number", b"digits", b"recorded", b"candidate", b"verdict"];
    rows.row(&fields, writer)
}

/// Writes the rows of the admissions.
fn write_rows<W: Sink>(
    rows: &mut RowWriter,
    report: &Report,
    writer: &mut W,
) -> Result<(), WriteRowsFault>
    ensures added { OnOk result (AppendsUpTo (W.contents writer.old) (W.contents writer.new)
        (rows.old ++ rows_said report.now.rows) rows.new) }
    ensures front { OnErr result (AppendsFront (W.contents writer.old) (W.contents writer.new)
        (rows.old ++ rows_said report.now.rows)) }
    ensures noted { NotesIf is_write_fault (W.failures writer.old) (W.failures writer.new)
        result }
{
    for place in 0..report.row_count() {
        let Some(row) = report.row(place) else {
            unreachable!()
        };
        write_row(rows, &row, writer)?;
    }
    Ok(())
}

/// Writes the rows of the peaks.
fn write_peaks<W: Sink>(
    rows: &mut RowWriter,
    report: &Report,
    writer: &mut W,
) -> Result<(), WriteRowsFault>
    ensures added { OnOk result (AppendsUpTo (W.contents writer.old) (W.contents writer.new)
        (rows.old ++ peaks_said report.now.peaks) rows.new) }
    ensures front { OnErr result (AppendsFront (W.contents writer.old) (W.contents writer.new)
        (rows.old ++ peaks_said report.now.peaks)) }
    ensures noted { NotesIf is_write_fault (W.failures writer.old) (W.failures writer.new)
        result }
{
    for place in 0..report.peak_count() {
        let Some(peak) = report.peak(place) else {
            unreachable!()
        };
        write_peak(rows, &peak, writer)?;
    }
    Ok(())
}

/// Writes the row of an admission.
fn write_row<W: Sink>(
    rows: &mut RowWriter,
    row: &ReportRow,
    writer: &mut W,
) -> Result<(), WriteRowsFault>
    ensures added { OnOk result (AppendsUpTo (W.contents writer.old) (W.contents writer.new)
        (rows.old ++ row_said row.now) rows.new) }
    ensures front { OnErr result (AppendsFront (W.contents writer.old) (W.contents writer.new)
        (rows.old ++ row_said row.now)) }
    ensures noted { NotesIf is_write_fault (W.failures writer.old) (W.failures writer.new)
        result }
{
    let mut number = Buffer::new();
    let mut recorded = LineBuffer::new();
    let mut candidate = LineBuffer::new();
    show_route(&mut recorded, &row.recorded);
    show_candidate(&mut candidate, &row.candidate);
    let digits = row.digits;
    let fields: [&[u8]; 5] = [
        number.format(row.number).as_bytes(),
        digits_text(&digits),
        recorded.as_bytes(),
        candidate.as_bytes(),
        verdict_word(row.verdict),
    ];
    rows.row(&fields, writer)
}

/// Writes the row of a peak.
fn write_peak<W: Sink>(
    rows: &mut RowWriter,
    peak: &ZonePeak,
    writer: &mut W,
) -> Result<(), WriteRowsFault>
    ensures added { OnOk result (AppendsUpTo (W.contents writer.old) (W.contents writer.new)
        (rows.old ++ peak_said peak.now) rows.new) }
    ensures front { OnErr result (AppendsFront (W.contents writer.old) (W.contents writer.new)
        (rows.old ++ peak_said peak.now)) }
    ensures noted { NotesIf is_write_fault (W.failures writer.old) (W.failures writer.new)
        result }
{
    let mut units = Buffer::new();
    let fields: [&[u8]; 5] = [
        b"peak",
        peak.zone.as_bytes(),
        units.format(peak.units).as_bytes(),
        b"",
        b"",
    ];
    rows.row(&fields, writer)
}

/// Writes the counts.
fn write_counts<W: Sink>(
    rows: &mut RowWriter,
    counts: &Counts,
    writer: &mut W,
) -> Result<(), WriteRowsFault>
    ensures added { OnOk result (AppendsUpTo (W.contents writer.old) (W.contents writer.new)
        (rows.old ++ row_text default_writer (count_fields counts.now)) rows.new) }
    ensures front { OnErr result (AppendsFront (W.contents writer.old) (W.contents writer.new)
        (rows.old ++ row_text default_writer (count_fields counts.now))) }
    ensures noted { NotesIf is_write_fault (W.failures writer.old) (W.failures writer.new)
        result }
{
    let mut all = Buffer::new();
    let mut same = Buffer::new();
    let mut changed = Buffer::new();
    let fields: [&[u8]; 5] = [
        b"count",
        all.format(counts.rows).as_bytes(),
        same.format(counts.same).as_bytes(),
        changed.format(counts.changed).as_bytes(),
        b"",
    ];
    rows.row(&fields, writer)
}

/// What was dialled; nothing if nothing was.
fn digits_text(digits: &Option<Dialled>) -> &[u8]
    ensures { result.now ≡ digits_text digits.now }
{
    match digits {
        Some(digits) => digits.as_bytes(),
        None => b"",
    }
}

/// A verdict in a word.
fn verdict_word(verdict: Verdict) -> &'static [u8]
    ensures { result.now ≡ verdict_word verdict }
{
    match verdict {
        Verdict::Same => b"same",
        Verdict::Changed => b"changed",
    }
}

#[tactic(auto, unfolding(gk_lines::specs::LineBuffer::extended))]
/// Makes it the text of the candidate's answer.
fn show_candidate(line: &mut LineBuffer, candidate: &CandidateAnswer)
    ensures { line.new ≡ candidate_text candidate.now }
{
    match candidate {
        CandidateAnswer::Led(route) => show_route(line, route),
        CandidateAnswer::CallerNotRegistered => line.begin(b"callerNotRegistered"),
    }
}
