//! Whether a configuration is accepted, and its canonical form.

ghost use Rattle.std.specs.Prelude.{◌≡◌, ◌≢◌, ◌+◌, ◌^◌, ◌<◌, ◌≤◌, ◌++◌, Ok, Err, IfOk, IfSome, OnErr, OnOk};
ghost use Rattle.std.specs.Io.KnownBytes.{Appends};
ghost use Rattle.gk_terms.specs.Text.{lines_of, line_text};
ghost use Rattle.gk_lines.specs.Streams.{Notes, NotesIf, AppendsFront};
ghost use Rattle.gk_commands.specs.Configuration.{Configuration};
ghost use Rattle.gk_commands.specs.Printing.{text_of};
ghost use Rattle.gk_commands.specs.Reading.{reading_of, MayRead};
ghost use Rattle.configuration_reader.specs.Configuration.{is_read_failure};
ghost use Rattle.configuration_reader.specs.Check as Spec;

use crate::configuration::{ConfigurationFault, MOST_TURNS, Until, read_configuration};
use command_reader::print;
use gk_commands::{Commands, LineFault};
use gk_lines::{LineBuffer, LineReader, ReadFault, Sink, Source, WriteFault, write_whole};
use std::alloc::Global;
use thiserror::Error;

/// Why a check ends without its report.
#[derive(Clone, Copy, Debug, PartialEq, Eq, Error)]
pub enum CheckFault {
    /// The reader failed, or had not come to its end after 4,294,967,295 calls. Nothing was
    /// written.
    #[error("cannot read")]
    ReadFault(ReadFault),
    /// The configuration is refused. Nothing was written.
    #[error("{0}")]
    Config(LineFault),
    /// The writer failed, or took no byte. A front of the report was written.
    #[error("cannot write")]
    WriteFault,
}

impl From<ConfigurationFault> for CheckFault {
    ghost use Rattle.std.specs.Prelude.{◌≡◌};
    ghost use Rattle.configuration_reader.specs.Check.{check_fault_of};

    ghost from_gives = { λ fault check. check ≡ check_fault_of fault };

    fn from(fault: ConfigurationFault) -> CheckFault {
        match fault {
            ConfigurationFault::Line(fault) => CheckFault::Config(fault),
            ConfigurationFault::Read(fault) => CheckFault::ReadFault(fault),
        }
    }
}

impl From<WriteFault> for CheckFault {
    ghost use Rattle.std.specs.Prelude.{◌≡◌};
    ghost use Rattle.configuration_reader.specs.declared.check.CheckFault.TheVariants as check;

    ghost from_gives = { λ _ fault. fault ≡ check.WriteFault };

    fn from(_failed: WriteFault) -> CheckFault {
        CheckFault::WriteFault
    }
}

/// Reads the configuration that a reader gives, and reports if it is accepted: its canonical lines,
/// if they are asked for, and then how many commands it has and how many of its lines were passed
/// over. It is read line by line, and nothing is read after its first faulty line, so it takes
/// memory only for the commands that are kept.
pub fn check<R: Source, W: Sink>(
    alloc: Global,
    reader: &mut R,
    writer: &mut W,
    prints: bool,
) -> Result<(), CheckFault>
    // Ok comes only if the configuration is accepted, and then its report was written, and nothing
    // else. If the writer failed, a front of that report was written.
    ensures reported { OnOk result
        (IfSome (R.remaining reader.old) (λ bytes. (configuration : Configuration)
        × (reading_of bytes ≡ Ok configuration)
        × Appends (W.contents writer.old) (W.contents writer.new)
        (Spec.report_text prints configuration))) }
    ensures front { result ≡ Err CheckFault.WriteFault
        → IfSome (R.remaining reader.old) (λ bytes. (configuration : Configuration)
        × (reading_of bytes ≡ Ok configuration)
        × AppendsFront (W.contents writer.old) (W.contents writer.new)
        (Spec.report_text prints configuration)) }

    // `Config` names the configuration's first fault, or the line at which memory ran out.
    ensures config { (fault : _) → result ≡ Err (CheckFault.Config fault)
        → IfSome (R.remaining reader.old) (λ bytes. MayRead (lines_of bytes) (Err fault)) }

    // Nothing is written before the whole report is known.
    ensures unwritten { (fault : _) → result ≡ Err fault → fault ≢ CheckFault.WriteFault
        → writer.new ≡ writer.old }

    // A fault of a stream comes exactly if that one failed in this check, and the turns are spent
    // only after 4,294,967,295 calls.
    ensures reader_noted { NotesIf Spec.is_check_read_fault (R.failures reader.old)
        (R.failures reader.new) result }
    ensures writer_noted { NotesIf Spec.is_check_write_fault (W.failures writer.old)
        (W.failures writer.new) result }
    ensures turns { R.calls reader.old + 4294967295 < 2 ^ 64
        → R.calls reader.new ≤ R.calls reader.old + 4294967295 }
    ensures turns_spent { result ≡ Err (CheckFault.ReadFault ReadFault.TurnsSpent)
        → R.calls reader.old + 4294967295 < 2 ^ 64 → R.calls reader.new
        ≡ R.calls reader.old + 4294967295 }
{
    let commands = configuration_of(alloc, reader)?;
    write_report(&commands, prints, writer)?;
    Ok(())
}

/// The configuration that a reader gives.
pub fn configuration_of<R: Source>(
    alloc: Global,
    reader: &mut R,
) -> Result<Commands, ConfigurationFault>
    ensures read { IfOk result (λ configuration. IfSome (R.remaining reader.old) (λ bytes.
        reading_of bytes ≡ Ok configuration)) }
    ensures config { (fault : _) → result ≡ Err (ConfigurationFault.Line fault)
        → IfSome (R.remaining reader.old) (λ bytes. MayRead (lines_of bytes) (Err fault)) }
    ensures noted { NotesIf is_read_failure (R.failures reader.old)
        (R.failures reader.new) result }
    ensures turns { R.calls reader.old + 4294967295 < 2 ^ 64
        → R.calls reader.new ≤ R.calls reader.old + 4294967295 }
    ensures turns_spent { result ≡ Err (ConfigurationFault.Read ReadFault.TurnsSpent)
        → R.calls reader.old + 4294967295 < 2 ^ 64 → R.calls reader.new
        ≡ R.calls reader.old + 4294967295 }
{
    let mut lines = LineReader::new(MOST_TURNS);
    read_configuration(alloc, &mut lines, reader, Until::EndOfInput)
}

/// Writes the canonical lines if they are asked for, and then the summary.
fn write_report<W: Sink>(
    commands: &Commands,
    prints: bool,
    writer: &mut W,
) -> Result<(), WriteFault>
    ensures whole { OnOk result (Appends (W.contents writer.old) (W.contents writer.new)
        (Spec.report_text prints commands.now)) }
    ensures front { OnErr result (AppendsFront (W.contents writer.old) (W.contents writer.new)
        (Spec.report_text prints commands.now)) }
    ensures noted { Notes (W.failures writer.old) (W.failures writer.new) result }
{
    if prints {
        print_with_summary(commands, writer)
    } else {
        write_summary(commands, writer)
    }
}

#[tactic(auto, using(crate::proofs::CheckLemmas::front_and_more, crate::proofs::CheckLemmas::whole_and_front))]
/// Writes the canonical lines, and then the summary.
fn print_with_summary<W: Sink>(commands: &Commands, writer: &mut W) -> Result<(), WriteFault>
    ensures whole { OnOk result (Appends (W.contents writer.old) (W.contents writer.new)
        (text_of commands.now.commands ++ Spec.summary_text commands.now)) }
    ensures front { OnErr result (AppendsFront (W.contents writer.old) (W.contents writer.new)
        (text_of commands.now.commands ++ Spec.summary_text commands.now)) }
    ensures noted { Notes (W.failures writer.old) (W.failures writer.new) result }
{
    match print(commands, writer) {
        Ok(()) => write_summary(commands, writer),
        Err(fault) => Err(fault),
    }
}

/// Writes the summary.
fn write_summary<W: Sink>(commands: &Commands, writer: &mut W) -> Result<(), WriteFault>
    ensures whole { OnOk result (Appends (W.contents writer.old) (W.contents writer.new)
        (Spec.summary_text commands.now)) }
    ensures front { OnErr result (AppendsFront (W.contents writer.old) (W.contents writer.new)
        (Spec.summary_text commands.now)) }
    ensures noted { Notes (W.failures writer.old) (W.failures writer.new) result }
{
    let mut line = LineBuffer::new();
    show_summary(&mut line, commands.len() as u32, commands.passed());
    write_whole(writer, line.as_bytes())
}

#[tactic(auto, using(gk_lines::proofs::LineBufferLemmas::line_in_room))]
/// Makes it the summary: so many commands, and so many lines passed over.
fn show_summary(line: &mut LineBuffer, count: u32, passed: u32)
    ensures { line.new ≡ line_text (Spec.summary_words count passed) }
{
    line.begin_number(count);
    line.word(b"commands,");
    line.number(passed);
    line.word(b"passed");
    line.word(b"over");
    line.push_byte(b'\n');
}
