//! A session: requests in, replies out.

ghost use Rattle.std.specs.Prelude.{◌≡◌, ◌≢◌, ◌+◌, ◌^◌, ◌<◌, ◌≤◌, ℕ, List, [], ◌++◌, IfOk, IfErr, OnOk, OnErr};
ghost use Rattle.std.specs.Io.KnownBytes.{Appends, IsAtEnd};
ghost use Rattle.gk_lines.specs.Streams.{Notes, NotesIf, KnownStep, AppendsFront};
ghost use Rattle.gk_lines.specs.LineReader.{left_of, work_left, AtEndIfEnded, CountsTurns, is_failure};
ghost use Rattle.gk_terms.specs.Text.{content_of};
ghost use Rattle.gk_protocol.specs.Answers.{answer_text_of};
ghost use Rattle.gk_protocol.specs.Session.{IsReadAhead, Ends, is_read_fault, is_write_fault};
ghost use Rattle.gk_protocol.specs.LineOwners.{request_with, lines_without_memory};
ghost use Rattle.gk_protocol.specs.AnswersLine.{AnswersLine, AnswersOwner};

use crate::answerer::Answerer;
use crate::answers::Answer;
use crate::line_owners::LineOwner;
use crate::owned_lines::{TakenLines, take_lines};
use crate::reply_lines::ReplyLine;
use crate::request_faults::RequestFault;
use crate::request_lines::{Heard, hear};
use crate::session_faults::SessionFault;
use gk_lines::{LineBuffer, LineReader, ReadFault, Sink, Source, WriteFault, write_whole};
use std::alloc::Global;

/// Answers the requests that the reader gives to its end, and says how many replies were written.
/// The reader is called at most so many `turns`; each request is answered, and its reply written in
/// one call of the writer if it takes the whole, before the reader is called again; the lines of a
/// trial's report take a second call.
///
/// `ReadFault` comes exactly if the reader fails, `WriteFault` exactly if the writer fails or takes
/// no byte, `TurnsSpent` only if the reader was called as often as it may be. `NoMemory` does not
/// come: a request that finds no memory gets a reply that says so.
pub fn session<R: Source, W: Sink, A: Answerer>(
    alloc: Global,
    reader: &mut R,
    writer: &mut W,
    answerer: &mut A,
    turns: u32,
) -> Result<u64, SessionFault>
    // What was written, by how the session ended, however the reader cut the bytes into pieces.
    // What was read ahead of the lines that were taken is no more than one call of the reader
    // gives.
    ensures written { KnownStep (R.remaining reader.old) (R.remaining reader.new) (λ bytes rest.
        (ahead : List ℕ) × (text : List ℕ) × IsReadAhead ahead
        × Ends A.may_answer bytes ahead rest answerer.old answerer.new text result
        × Appends (W.contents writer.old) (W.contents writer.new) text) }
    ensures end { OnOk result (IsAtEnd (R.remaining reader.new)) }
    ensures buffered { IfErr result (λ fault. fault ≢ SessionFault.NoMemory) }

    // A fault of a stream comes exactly if that one failed.
    ensures reader_noted { NotesIf is_read_fault (R.failures reader.old)
        (R.failures reader.new) result }
    ensures writer_noted { NotesIf is_write_fault (W.failures writer.old)
        (W.failures writer.new) result }

    // One turn is one call of the reader.
    ensures turns { R.calls reader.old + turns < 2 ^ 64
        → R.calls reader.new ≤ R.calls reader.old + turns }
    ensures turns_spent { IfErr result (λ fault. fault ≡ SessionFault.TurnsSpent
        → R.calls reader.old + turns < 2 ^ 64 → R.calls reader.new ≡ R.calls reader.old + turns) }
{
    let mut lines = LineReader::new(turns);
    let result = session_from(alloc, &mut lines, reader, writer, answerer);
    let_go(lines);
    result
}

/// The same over an input of which some lines were taken: `lines` is what was read ahead of the
/// reader, and the turns that are left.
pub fn session_from<R: Source, W: Sink, A: Answerer>(
    alloc: Global,
    lines: &mut LineReader,
    reader: &mut R,
    writer: &mut W,
    answerer: &mut A,
) -> Result<u64, SessionFault>
    requires { AtEndIfEnded lines.old (R.remaining reader.old) }
    ensures written { KnownStep (left_of lines.old (R.remaining reader.old))
        (R.remaining reader.new) (λ bytes rest.
        (text : List ℕ)
        × Ends A.may_answer bytes lines.new.pending rest answerer.old answerer.new text result
        × Appends (W.contents writer.old) (W.contents writer.new) text) }
    ensures end { OnOk result (IsAtEnd (R.remaining reader.new)) }
    ensures ended { AtEndIfEnded lines.new (R.remaining reader.new) }
    ensures buffered { IfErr result (λ fault. fault ≢ SessionFault.NoMemory) }
    ensures reader_noted { NotesIf is_read_fault (R.failures reader.old)
        (R.failures reader.new) result }
    ensures writer_noted { NotesIf is_write_fault (W.failures writer.old)
        (W.failures writer.new) result }
    ensures turns { CountsTurns (R.calls reader.old)
        (R.calls reader.new) lines.old.turns lines.new.turns }
    ensures turns_spent { IfErr result
        (λ fault. fault ≡ SessionFault.TurnsSpent → lines.new.turns ≡ 0) }
{
    // Each reply takes a line, and each line a turn or a byte: so the count of replies fits.
    let _turns = lines.turns();
    let mut line = LineBuffer::new();
    let mut reply = ReplyLine::new();
    let mut replies = 0u64;
    while lines.next_line(reader, &mut line)? {
        match progress_with(alloc, lines, reader, &mut line, answerer, &mut reply)? {
            Progress::Blank => {}
            Progress::Answered => {
                send(&reply, writer)?;
                replies += 1;
            }
            Progress::CutShort => {
                send(&reply, writer)?;
                return Ok(replies + 1);
            }
        }
    }
    Ok(replies)
}

/// Lets a reader of lines go. What it had read and not yet taken is no more than one call of its
/// reader gives.
pub fn let_go(lines: LineReader)
    ensures { IsReadAhead lines.pending }
{}

/// How far a line takes the session. The answer itself is not in it, since a large value is copied
/// each time that it is handed on: its line is made in the reply at once.
#[derive(Clone, Copy, Debug, PartialEq, Eq)]
enum Progress {
    /// The line is blank, and gets no answer.
    Blank,
    /// The reply is the line of its answer.
    Answered,
    /// The input ended before the lines that belong to it, and so does the session: the reply says
    /// so.
    CutShort,
}

/// Answers a line, with the lines that belong to it, which are taken off the input: the reply is the
/// line of an answer that this line may get.
fn progress_with<R: Source, A: Answerer>(
    alloc: Global,
    lines: &mut LineReader,
    reader: &mut R,
    line: &mut LineBuffer,
    answerer: &mut A,
    reply: &mut ReplyLine,
) -> Result<Progress, ReadFault>
    requires { AtEndIfEnded lines.old (R.remaining reader.old) }
    ensures progress { KnownStep (left_of lines.old (R.remaining reader.old))
        (left_of lines.new (R.remaining reader.new))
        (AnswersLine A.may_answer lines.old.ended lines.new.ended answerer.old
        (content_of line.old) result reply.new.text answerer.new) }
    ensures ended { AtEndIfEnded lines.new (R.remaining reader.new) }
    ensures part_read { IfErr result (λ _. lines.new.pending ≡ []) }
    ensures nothing_left { IfOk result (λ progress. progress ≡ Progress.CutShort
        → (lines.new.pending ≡ []) × IsAtEnd (R.remaining reader.new)) }
    ensures turns { CountsTurns (R.calls reader.old)
        (R.calls reader.new) lines.old.turns lines.new.turns }
    ensures turns_spent { IfErr result
        (λ fault. fault ≡ ReadFault.TurnsSpent → lines.new.turns ≡ 0) }
    ensures noted { NotesIf is_failure (R.failures reader.old)
        (R.failures reader.new) result }
    ensures work { work_left lines.new ≤ work_left lines.old }
{
    match hear(alloc, line.content(), answerer, reply) {
        Ok(Heard::Blank) => Ok(Progress::Blank),
        Ok(Heard::Answered) => Ok(Progress::Answered),
        Ok(Heard::Owns { owner, count }) => {
            let taken = take_lines(alloc, count, lines, reader, line)?;
            Ok(answer_owner(alloc, owner, taken, answerer, reply))
        }
        Err(fault) => {
            show_fault(fault, reply);
            Ok(Progress::Answered)
        }
    }
}

/// Answers a request with its lines, by what became of them.
fn answer_owner<A: Answerer>(
    alloc: Global,
    owner: LineOwner,
    lines: TakenLines,
    answerer: &mut A,
    reply: &mut ReplyLine,
) -> Progress
    ensures { AnswersOwner A.may_answer answerer.old (request_with owner)
        (lines_without_memory owner) lines result reply.new.text answerer.new }
{
    match lines {
        TakenLines::Whole(lines) => {
            answerer.answer_into(alloc, owner.request(lines), reply);
            Progress::Answered
        }
        TakenLines::NoMemory => {
            reply.show(owner.no_memory());
            Progress::Answered
        }
        TakenLines::CutShort => {
            reply.show(Answer::Malformed(RequestFault::CutShort));
            Progress::CutShort
        }
    }
}

/// Answers a line that is not a request.
fn show_fault(fault: RequestFault, reply: &mut ReplyLine)
    ensures { reply.new.text ≡ answer_text_of (Answer.Malformed fault) }
{
    reply.show(Answer::Malformed(fault));
}

/// Writes a reply: its first line in one call of the writer if it takes the whole, and so the lines
/// after it, if there are any (`write_both`).
fn send<W: Sink>(reply: &ReplyLine, writer: &mut W) -> Result<(), WriteFault>
    ensures whole { OnOk result
        (Appends (W.contents writer.old) (W.contents writer.new) reply.now.text) }
    ensures front { OnErr result
        (AppendsFront (W.contents writer.old) (W.contents writer.new) reply.now.text) }
    ensures noted { Notes (W.failures writer.old) (W.failures writer.new) result }
{
    let (line, body) = reply.parts();
    write_both(line, body, writer)
}

#[tactic(auto, using(crate::proofs::WritingLemmas::front_and_more, crate::proofs::WritingLemmas::whole_and_front))]
/// Writes one text, and then another.
fn write_both<W: Sink>(first: &[u8], second: &[u8], writer: &mut W) -> Result<(), WriteFault>
    ensures whole { OnOk result
        (Appends (W.contents writer.old) (W.contents writer.new) (first.now ++ second.now)) }
    ensures front { OnErr result
        (AppendsFront (W.contents writer.old) (W.contents writer.new) (first.now ++ second.now)) }
    ensures noted { Notes (W.failures writer.old) (W.failures writer.new) result }
{
    match write_whole(writer, first) {
        Ok(()) => write_whole(writer, second),
        Err(fault) => Err(fault),
    }
}
