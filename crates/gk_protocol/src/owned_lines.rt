//! The lines that belong to a request.

ghost use Rattle.std.specs.Prelude.{◌≡◌, ◌+◌, ◌≤◌, [], ◌∷◌, ◌++◌, replicate, IfSome, IfOk, IfErr, OnOk};
ghost use Rattle.std.specs.Io.KnownBytes.{IsAtEnd};
ghost use Rattle.gk_lines.specs.Streams.{NotesIf, KnownStep};
ghost use Rattle.gk_lines.specs.LineReader.{left_of, work_left, AtEndIfEnded, CountsTurns, is_failure};
ghost use Rattle.gk_protocol.specs.Session.{handed_on};
ghost use Rattle.gk_protocol.specs.OwnedLines.{HandsOn, GivesLines};

use gk_lines::{LineBuffer, LineReader, ReadFault, Source};
use gk_terms::limits::MOST_LINE_BYTES;
use std::alloc::{AllocError, Global};
use std::marker::Model;

/// The lines that belong to a request, one after another as they stood, with their endings; one of
/// more than 512 bytes stands as 513 bytes `a` and a line feed. A contract sees their bytes.
#[derive(Drop)]
pub struct OwnedLines {
    bytes: Vec<u8>,
}

impl Model for OwnedLines {
    ghost use Rattle.std.specs.Prelude.{ℕ, List};

    ghost Value = { List ℕ };

    ghost view = { λ l. l.bytes.items };
}

impl OwnedLines {
    /// Lines of these bytes.
    pub fn of(bytes: Vec<u8>) -> OwnedLines
        ensures { result ≡ bytes.items }
    {
        OwnedLines { bytes }
    }

    /// The bytes of the lines.
    pub fn as_bytes(&self) -> &[u8]
        ensures { result.now ≡ self.now }
    {
        &self.bytes
    }

    /// Lets the lines go.
    pub(crate) fn clear(&mut self)
        ensures { self.new ≡ [] }
    {
        self.bytes = Vec::new(*self.bytes.allocator());
    }

    /// With one more line, as it is handed on; nothing if memory is refused for it.
    fn with(mut self, line: &LineBuffer) -> Option<OwnedLines>
        ensures { IfSome result (λ lines. lines ≡ self ++ handed_on line.now) }
    {
        match hand_on(&mut self.bytes, line) {
            Ok(()) => Some(self),
            Err(_) => None,
        }
    }
}

/// Adds a line, as it is handed on.
fn hand_on(bytes: &mut Vec<u8>, line: &LineBuffer) -> Result<(), AllocError>
    ensures { OnOk result (bytes.new.items ≡ bytes.old.items ++ handed_on line.now) }
{
    if line.content().len() > MOST_LINE_BYTES {
        return hand_on_too_long(bytes);
    }
    bytes.extend_from_slice(line.as_bytes())
}

/// Adds what stands for a line that is too long.
fn hand_on_too_long(bytes: &mut Vec<u8>) -> Result<(), AllocError>
    ensures { OnOk result
        (bytes.new.items ≡ bytes.old.items ++ (replicate (MOST_LINE_BYTES + 1) 97 ++ 10 ∷ [])) }
{
    bytes.extend_from_slice(&[b'a'; MOST_LINE_BYTES + 1])?;
    bytes.extend_from_slice(b"\n")
}

/// What became of the lines that belong to a request.
#[derive(Drop)]
pub(crate) enum TakenLines {
    /// All of them.
    Whole(OwnedLines),
    /// All of them were taken, and memory ran out for them.
    NoMemory,
    /// The input ended before the last of them.
    CutShort,
}

/// Takes so many lines, one after another. If memory runs out, the others are passed over. At a
/// fault of the reader, and at the end of the input, those before it were taken.
pub(crate) fn take_lines<R: Source>(
    alloc: Global,
    count: u32,
    lines: &mut LineReader,
    reader: &mut R,
    line: &mut LineBuffer,
) -> Result<TakenLines, ReadFault>
    requires { AtEndIfEnded lines.old (R.remaining reader.old) }
    ensures taken { KnownStep (left_of lines.old (R.remaining reader.old))
        (left_of lines.new (R.remaining reader.new))
        (GivesLines lines.old.ended lines.new.ended count result) }
    ensures ended { AtEndIfEnded lines.new (R.remaining reader.new) }
    ensures part_read { IfErr result (λ _. lines.new.pending ≡ []) }
    ensures nothing_left { IfOk result (λ taken. taken ≡ TakenLines.CutShort
        → (lines.new.pending ≡ []) × IsAtEnd (R.remaining reader.new)) }
    ensures turns { CountsTurns (R.calls reader.old)
        (R.calls reader.new) lines.old.turns lines.new.turns }
    ensures turns_spent { IfErr result
        (λ fault. fault ≡ ReadFault.TurnsSpent → lines.new.turns ≡ 0) }
    ensures noted { NotesIf is_failure (R.failures reader.old)
        (R.failures reader.new) result }
    ensures work { work_left lines.new ≤ work_left lines.old }
{
    let mut owned = Some(OwnedLines::of(Vec::new(alloc)));
    for _taken in 0..count {
        if !lines.next_line(reader, line)? {
            return Ok(TakenLines::CutShort);
        }
        owned = with_line(owned, line);
    }
    Ok(match owned {
        Some(owned) => TakenLines::Whole(owned),
        None => TakenLines::NoMemory,
    })
}

/// Lines with one more, as it is handed on. Once memory ran out there are none.
fn with_line(owned: Option<OwnedLines>, line: &LineBuffer) -> Option<OwnedLines>
    ensures { HandsOn owned line.now result }
{
    owned?.with(line)
}
