//! What one line says, by its first word. Here and in the modules of each kind of line, words are
//! compared by guards: with several byte strings as patterns of one `match`, no proof is found.

ghost use Rattle.std.specs.Prelude.{◌≡◌, None};
ghost use Rattle.gk_terms.specs.Text.{words_of};
ghost use Rattle.gk_terms.specs.Fields.{nothing_more};
ghost use Rattle.gk_commands.specs.Fields.{is_one_of};
ghost use Rattle.command_reader.specs.Kept.{MayAdd, Passes};
ghost use Rattle.gk_commands.specs.TechnologyLine.{gw_type_prefix_at};
ghost use Rattle.gk_commands.specs.BandwidthLine.{bandwidth_at};
ghost use Rattle.gk_commands.specs.Line.{arq_at, kept_command_of, no_at, passed_alone, passed_whole, left_out_commands, passed_at, named_command_at, command_at, command_of};

use crate::bandwidth_lines::bandwidth;
use crate::kept::Kept;
use crate::technology_lines::gw_type_prefix;
use crate::zone_lines::add_zone;
use gk_commands::{Command, FaultKind};
use gk_terms::fields::nothing_more;
use gk_terms::limits::MOST_LINE_BYTES;
use gk_terms::words::Words;
use std::alloc::Global;

#[tactic(auto, unfolding(gk_commands::specs::Line::command_of))]
/// Adds the command of a line, or nothing if it is passed over, or says its first fault from the
/// left. Memory is taken only for long names, for those of gateways and of hop-off zones, and to
/// keep the command. If it is refused, and the line has no fault, the answer is `NoMemory`.
pub fn add_line(kept: &mut Kept, alloc: Global, line: &[u8]) -> Result<(), FaultKind>
    ensures { MayAdd kept.old (command_of line.now) kept.new result }
{
    if line.len() > MOST_LINE_BYTES {
        return Err(FaultKind::TooLong);
    }
    add_words(kept, alloc, &mut Words::of(line))
}

/// The same, by the words of the line.
fn add_words(kept: &mut Kept, alloc: Global, words: &mut Words<'_>) -> Result<(), FaultKind>
    ensures { MayAdd kept.old (command_at (words_of words.old)) kept.new result }
{
    match words.next() {
        None => Ok(()),
        Some([b'!', ..]) => Ok(()),
        Some(first) => add_named(kept, alloc, first, words),
    }
}

/// The same, by its first word and those after it.
fn add_named(
    kept: &mut Kept,
    alloc: Global,
    first: &[u8],
    words: &mut Words<'_>,
) -> Result<(), FaultKind>
    ensures { MayAdd kept.old (named_command_at first.now (words_of words.old)) kept.new result }
{
    if first == b"zone".as_slice() {
        add_zone(kept, alloc, words)
    } else if first == b"gw-type-prefix".as_slice() {
        add_gw_type_prefix(kept, alloc, words)
    } else if first == b"arq".as_slice() {
        add_arq(kept, words)
    } else if first == b"bandwidth".as_slice() {
        add_bandwidth(kept, alloc, words)
    } else {
        passed_at(first, words)
    }
}

/// Adds the command of `gw-type-prefix` and what follows it.
fn add_gw_type_prefix(
    kept: &mut Kept,
    alloc: Global,
    words: &mut Words<'_>,
) -> Result<(), FaultKind>
    ensures { MayAdd kept.old (kept_command_of (gw_type_prefix_at (words_of words.old))) kept.new
        result }
{
    kept.add(gw_type_prefix(alloc, words)?)
}

/// Adds the command of `arq` and what follows it.
fn add_arq(kept: &mut Kept, words: &mut Words<'_>) -> Result<(), FaultKind>
    ensures { MayAdd kept.old (kept_command_of (arq_at (words_of words.old))) kept.new result }
{
    kept.add(arq(words)?)
}

/// Adds the command of `bandwidth` and what follows it.
fn add_bandwidth(kept: &mut Kept, alloc: Global, words: &mut Words<'_>) -> Result<(), FaultKind>
    ensures { MayAdd kept.old (kept_command_of (bandwidth_at (words_of words.old))) kept.new
        result }
{
    kept.add(bandwidth(alloc, words)?)
}

/// `arq` and what follows it.
fn arq(words: &mut Words<'_>) -> Result<Command, FaultKind>
    ensures { result ≡ arq_at (words_of words.old) }
{
    match words.next() {
        None => Err(FaultKind::Missing),
        Some(word) if word == b"reject-unknown-prefix".as_slice() => {
            nothing_more(Command::RejectUnknownPrefix, words)
        }
        Some(_) => Err(FaultKind::UnknownCommand),
    }
}

/// A line that no command begins: it is passed over or at fault.
fn passed_at(first: &[u8], words: &mut Words<'_>) -> Result<(), FaultKind>
    ensures { Passes (passed_at first.now (words_of words.old)) result }
{
    if first == b"no".as_slice() {
        no(words)
    } else if is_passed_alone(first) {
        alone(words)
    } else if is_passed_whole(first) {
        Ok(())
    } else if is_left_out(first) {
        Err(FaultKind::Unsupported)
    } else {
        Err(FaultKind::UnknownCommand)
    }
}

/// `no` and what follows it.
fn no(words: &mut Words<'_>) -> Result<(), FaultKind>
    ensures { Passes (no_at (words_of words.old)) result }
{
    match words.next() {
        None => Err(FaultKind::Missing),
        Some(word) if word == b"shutdown".as_slice() => alone(words),
        Some(word) if word == b"use-proxy".as_slice() => Ok(()),
        Some(_) => Err(FaultKind::Unsupported),
    }
}

/// A line that is passed over if it has no further word.
fn alone(words: &mut Words<'_>) -> Result<(), FaultKind>
    ensures { Passes (nothing_more FaultKind.Extra None (words_of words.old)) result }
{
    nothing_more((), words)
}

/// Whether a line that begins with the word is passed over if it has no further word.
fn is_passed_alone(word: &[u8]) -> bool
    ensures { result ≡ is_one_of passed_alone word.now }
{
    word == b"gatekeeper".as_slice() || word == b"exit".as_slice() || word == b"end".as_slice()
}

/// Whether a line that begins with the word is passed over, whatever follows.
fn is_passed_whole(word: &[u8]) -> bool
    ensures { result ≡ is_one_of passed_whole word.now }
{
    word == b"accounting".as_slice() || word == b"timer".as_slice() || word == b"lrq".as_slice()
}

/// Whether the word begins a command that is left out.
fn is_left_out(word: &[u8]) -> bool
    ensures { result ≡ is_one_of left_out_commands word.now }
{
    word == b"alias".as_slice()
        || word == b"endpoint".as_slice()
        || word == b"gw".as_slice()
        || word == b"load-balance".as_slice()
        || word == b"security".as_slice()
        || word == b"server".as_slice()
        || word == b"shutdown".as_slice()
        || word == b"use-proxy".as_slice()
}
