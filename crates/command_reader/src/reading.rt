//! A configuration, read whole.

ghost use Rattle.std.specs.Prelude.{◌≡◌, IfOk};
ghost use Rattle.gk_terms.specs.Text.{lines_of};
ghost use Rattle.gk_commands.specs.Reading.{nothing_read, MayReadOn, MayRead};

use crate::draft::Draft;
use gk_commands::{CommandLines, Commands, LineFault};
use gk_terms::limits::MOST_LINES;
use gk_terms::text_lines::{RawLines, content};
use std::alloc::{AllocError, Global};

/// Reads a configuration: the bytes of Cisco IOS command lines as its commands, or its first fault.
///
/// First the lines are looked at one by one, in order. The 20,001st line is `TooMany`, and one of
/// more than 512 bytes `TooLong`; then its fields are read from the left; a zone that is declared a
/// second time is `DuplicateZone`, and the 1,025th zone `TooMany`. If no line has such a fault, the
/// first that names an undeclared zone is `UnknownZone`. If there is none either, a configuration
/// without a local zone is `NoLocalZone`, numbered one past its last line.
///
/// `NoMemory` is answered only at a line whose command would be kept, after lines without a fault,
/// whatever comes after it. It names that line.
#[tactic(auto, using(crate::proofs::one_by_one::ReadOnLemmas::finishes, crate::proofs::one_by_one::ReadOnLemmas::refuses))]
pub fn read(alloc: Global, bytes: &[u8]) -> Result<Commands, LineFault>
    ensures { MayRead (lines_of bytes.now) result }
{
    lines_in(alloc, bytes)?.finish()
}

/// The commands of lines that say them, read again. It fails only if memory runs out.
pub fn read_again(alloc: Global, lines: &CommandLines) -> Result<Commands, AllocError>
    ensures { IfOk result
        (λ commands. commands ≡ record { commands = lines.now; passed = 0 }) }
{
    match read(alloc, lines.as_bytes()) {
        Ok(commands) => Ok(commands),
        Err(_) => Err(AllocError),
    }
}

/// About how many lines there are, or more: a line that declares a prefix has some 45 bytes.
fn lines_expected(bytes: &[u8]) -> usize {
    (bytes.len() / 32).min(MOST_LINES)
}

/// The lines, each looked at by itself.
fn lines_in(alloc: Global, bytes: &[u8]) -> Result<Draft, LineFault>
    ensures { MayReadOn nothing_read (lines_of bytes.now) result }
{
    let mut draft = Draft::keeping_lines(alloc, lines_expected(bytes));
    for line in RawLines::of(bytes) {
        draft.read_line(content(line))?;
    }
    Ok(draft)
}
