//! A configuration, read line by line in bounded memory.

ghost use Rattle.std.specs.Prelude.{◌≡◌, [], IfErr};
ghost use Rattle.gk_terms.specs.Text.{words_of};
ghost use Rattle.gk_lines.specs.Streams.{NotesIf, KnownStep};
ghost use Rattle.gk_lines.specs.LineReader.{left_of, AtEndIfEnded, CountsTurns};
ghost use Rattle.gk_commands.specs.Reading.{finished_of};
ghost use Rattle.configuration_reader.specs.Configuration as Spec;

use command_reader::Draft;
use gk_commands::{Commands, LineFault};
use gk_lines::{LineBuffer, LineReader, ReadFault, Source};
use gk_terms::limits::MOST_LINE_BYTES;
use gk_terms::words::Words;
use std::alloc::Global;
use thiserror::Error;

/// How often a run or a check may call its reader: the stated limit.
pub const MOST_TURNS: u32 = 4_294_967_295;

/// Where a configuration ends.
#[derive(Clone, Copy, Debug, PartialEq, Eq)]
pub enum Until {
    /// With the first line of at most 512 bytes whose only word is `end`, or else with the input.
    EndLine,
    /// With the input. `end` is a line that is passed over.
    EndOfInput,
}

/// Why there is no configuration.
#[derive(Clone, Copy, Debug, PartialEq, Eq, Error)]
pub enum ConfigurationFault {
    /// It is refused: its first fault, or the line at which memory ran out.
    #[error("{0}")]
    Line(LineFault),
    /// Its end was not read.
    #[error("{0}")]
    Read(ReadFault),
}

impl From<ReadFault> for ConfigurationFault {
    ghost use Rattle.std.specs.Prelude.{◌≡◌};
    ghost use Rattle.configuration_reader.specs.declared.configuration.ConfigurationFault.TheVariants.{Read};

    ghost from_gives = { λ fault configuration. configuration ≡ Read fault };

    fn from(fault: ReadFault) -> ConfigurationFault {
        ConfigurationFault::Read(fault)
    }
}

/// Reads the configuration at the front of the input. It takes memory only for the commands that
/// are kept, so an input without an end needs no more than the longest configuration.
///
/// A configuration that ends with a line is read up to that line, even after its first fault; of
/// one that ends with the input nothing is read after the first faulty line.
pub fn read_configuration<R: Source>(
    alloc: Global,
    lines: &mut LineReader,
    reader: &mut R,
    until: Until,
) -> Result<Commands, ConfigurationFault>
    requires { AtEndIfEnded lines.old (R.remaining reader.old) }
    ensures read { KnownStep
        (left_of lines.old (R.remaining reader.old)) (left_of lines.new (R.remaining reader.new))
        (λ bytes rest. Spec.MayGive until bytes rest result) }
    ensures ended { AtEndIfEnded lines.new (R.remaining reader.new) }
    ensures part_read { IfErr result (λ fault. Spec.IfRead fault (λ _. lines.new.pending ≡ [])) }
    ensures turns { CountsTurns (R.calls reader.old)
        (R.calls reader.new) lines.old.turns lines.new.turns }
    ensures turns_spent { IfErr result
        (λ fault. Spec.IfRead fault (λ read. read ≡ ReadFault.TurnsSpent → lines.new.turns ≡ 0)) }
    ensures noted { NotesIf Spec.is_read_failure (R.failures reader.old)
        (R.failures reader.new) result }
{
    let mut line = LineBuffer::new();
    let mut read = Ok(Draft::new(alloc));
    while lines.next_line(reader, &mut line)? {
        read = with_line(read, line.content());
        if is_last(line.content(), until) {
            return conclude(read);
        }
        if is_decided(until, &read) {
            return conclude(read);
        }
    }
    conclude(read)
}

/// What was read, with one more line; the first fault stays.
fn with_line(read: Result<Draft, LineFault>, line: &[u8]) -> Result<Draft, LineFault>
    ensures { Spec.ContinuesWith read line.now result }
{
    match read {
        Ok(draft) => draft.with_line(line),
        Err(fault) => Err(fault),
    }
}

/// The configuration that was read, or its fault.
fn conclude(read: Result<Draft, LineFault>) -> Result<Commands, ConfigurationFault>
    ensures { result ≡ Spec.with_line_fault (finished_of read) }
{
    let draft = match read {
        Ok(draft) => draft,
        Err(fault) => return Err(ConfigurationFault::Line(fault)),
    };
    match draft.finish() {
        Ok(commands) => Ok(commands),
        Err(fault) => Err(ConfigurationFault::Line(fault)),
    }
}

/// Whether nothing more of a configuration is read: it ends with its input, and is faulty already.
fn is_decided(until: Until, read: &Result<Draft, LineFault>) -> bool
    ensures { result ≡ Spec.is_decided until read.now }
{
    match until {
        Until::EndLine => false,
        Until::EndOfInput => read.is_err(),
    }
}

/// Whether a configuration ends with this line.
fn is_last(line: &[u8], until: Until) -> bool
    ensures { result ≡ Spec.ends_with until line.now }
{
    match until {
        Until::EndLine => is_end_line(line),
        Until::EndOfInput => false,
    }
}

/// Whether it has at most 512 bytes, and its only word is `end`.
fn is_end_line(line: &[u8]) -> bool
    ensures { result ≡ Spec.is_end_line line.now }
{
    line.len() <= MOST_LINE_BYTES && is_end_alone(&mut Words::of(line))
}

/// Whether the only word is `end`.
fn is_end_alone(words: &mut Words<'_>) -> bool
    ensures { result ≡ Spec.is_end_alone (words_of words.old) }
{
    match words.next() {
        Some(b"end") => words.next().is_none(),
        _ => false,
    }
}
