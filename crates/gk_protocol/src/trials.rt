//! Trials: what the calls so far would be under another configuration.

ghost use Rattle.std.specs.Prelude.{◌≡◌, ◌⊎◌, true, Ok, IfOk, MatchResult};
ghost use Rattle.gk_terms.specs.Text.{lines_of};
ghost use Rattle.gk_commands.specs.Reading.{reading_in};
ghost use Rattle.trial_run.specs.Report.{report_of};
ghost use Rattle.trial_run.specs.ReportText.{report_text};
ghost use Rattle.gk_protocol.specs.Answering.{are_workers, IsNoTrial, TriesOn};
ghost use Rattle.gk_protocol.specs.CoreAnswers.{MayTry, shown_by};
ghost use Rattle.gk_protocol.specs.Requests.{trial_without_memory};

use crate::answers::{Answer, TrialRefusal};
use crate::owned_lines::OwnedLines;
use crate::owned_tables::{NoTables, tables_in};
use crate::report_texts::ReportText;
use crate::text_writers::TextWriter;
use admission::Core;
use call_rows::Snapshot;
use compiler::Tables;
use gk_terms::OpenGate;
use std::alloc::{AllocError, Global};
use std::sync::Wait;
use std::thread::Threads;
use trial_run::{Report, TrialFault, trial, write_report};

#[tactic(auto, using(crate::proofs::TrialLemmas::refused_trial))]
/// Answers `TRY`: reads the lines, compiles them, and tries the record of the core on them, by so
/// many workers. The core stays as it was.
pub(crate) fn tried<R: Threads + Wait>(
    rt: &R,
    alloc: Global,
    core: &Core,
    sequence: u32,
    workers: u32,
    lines: &mut OwnedLines,
) -> Answer
    ensures { MayTry core.now sequence workers (lines_of lines.old) result }
{
    match trial_tables(alloc, workers, lines) {
        Ok(tables) => tried_under(rt, alloc, core, sequence, workers, &tables),
        Err(reason) => Answer::TryRefused { sequence, reason },
    }
}

/// Tries the record of a core under these tables.
fn tried_under<R: Threads + Wait>(
    rt: &R,
    alloc: Global,
    core: &Core,
    sequence: u32,
    workers: u32,
    tables: &Tables,
) -> Answer
    requires { are_workers workers ≡ true }
    ensures { TriesOn sequence (shown_by core.now) tables.now result }
{
    let Ok(snapshot) = core.snapshot(alloc) else {
        return trial_without_memory(sequence);
    };
    trial_answer(rt, alloc, sequence, workers, &snapshot, tables)
}

/// The tables for a trial by so many workers, which is its first step: whoever tries a record takes
/// the snapshot of it after this. `BadWorkers` comes exactly if their number is not 1 to 64,
/// whatever the lines say. `Misconfigured` has the first fault of the lines. `NoMemory` comes only
/// at a line that would be kept, after lines without a fault, or for lines that are accepted.
/// `NoThread` does not come. The lines are let go once they are read.
pub fn trial_tables(
    alloc: Global,
    workers: u32,
    lines: &mut OwnedLines,
) -> Result<Tables, TrialRefusal>
    ensures { MatchResult result
        (λ tables. (are_workers workers ≡ true)
        × (reading_in (lines_of lines.old) ≡ Ok tables))
        (IsNoTrial workers (lines_of lines.old)) }
{
    if !are_workers(workers) {
        return Err(TrialRefusal::BadWorkers);
    }
    match tables_in(alloc, lines) {
        Ok(tables) => Ok(tables),
        Err(NoTables::Faulty(fault)) => Err(TrialRefusal::Misconfigured(fault)),
        Err(NoTables::NoMemory) => Err(TrialRefusal::NoMemory),
    }
}

/// Whether there may be so many workers.
fn are_workers(workers: u32) -> bool
    ensures { result ≡ are_workers workers }
{
    1 <= workers && workers <= 64
}

/// The answer to the trial of this number, on this snapshot under these tables, which is its second
/// step: the report, by so many workers, made whole before any of it is written; or that a worker's
/// thread could not be started; or that memory ran out.
pub fn trial_answer<R: Threads + Wait>(
    rt: &R,
    alloc: Global,
    sequence: u32,
    workers: u32,
    snapshot: &Snapshot,
    tables: &Tables,
) -> Answer
    requires { are_workers workers ≡ true }
    ensures { TriesOn sequence snapshot.now tables.now result }
{
    match report_by(rt, alloc, snapshot, workers, tables) {
        Ok(report) => report_answer(alloc, sequence, &report),
        Err(reason) => Answer::TryRefused { sequence, reason },
    }
}

/// The answer to the trial of this number if memory ran out for it.
pub fn trial_without_memory(sequence: u32) -> Answer
    ensures { result ≡ trial_without_memory sequence }
{
    let reason = TrialRefusal::NoMemory;
    Answer::TryRefused { sequence, reason }
}

/// The answer that is a report; or, if memory runs out for its text, that.
fn report_answer(alloc: Global, sequence: u32, report: &Report) -> Answer
    ensures { (result ≡ Answer.Tried sequence (report_text report.now))
        ⊎ (result ≡ trial_without_memory sequence) }
{
    match text_of(alloc, report) {
        Ok(report) => Answer::Tried { sequence, report },
        Err(_) => trial_without_memory(sequence),
    }
}

/// The text of a report.
fn text_of(alloc: Global, report: &Report) -> Result<ReportText, AllocError>
    ensures { IfOk result (λ text. text ≡ report_text report.now) }
{
    let mut writer = TextWriter::new(alloc);
    match write_report(alloc, report, &mut writer) {
        Ok(()) => Ok(writer.into_text()),
        Err(_) => Err(AllocError),
    }
}

/// The report of a snapshot under these tables. `NoThread` and `NoMemory` are the only refusals.
fn report_by<R: Threads + Wait>(
    rt: &R,
    alloc: Global,
    snapshot: &Snapshot,
    workers: u32,
    tables: &Tables,
) -> Result<Report, TrialRefusal>
    requires { are_workers workers ≡ true }
    ensures { MatchResult result
        (λ report. report
        ≡ report_of tables.now.commands snapshot.now.endpoints snapshot.now.rows)
        (λ reason. (reason ≡ TrialRefusal.NoThread) ⊎ (reason ≡ TrialRefusal.NoMemory)) }
{
    match trial(rt, alloc, snapshot, tables, workers, &OpenGate) {
        Ok(report) => Ok(report),
        Err(TrialFault::NoThread) => Err(TrialRefusal::NoThread),
        Err(TrialFault::NoMemory) => Err(TrialRefusal::NoMemory),
        Err(TrialFault::BadWorkers) => unreachable!(),
    }
}
