//! What a line that begins with `gw-type-prefix` says.

ghost use Rattle.std.specs.Prelude.{◌≡◌, false};
ghost use Rattle.gk_terms.specs.Text.{words_of};
ghost use Rattle.gk_commands.specs.TechnologyLine.{options_at, gw_type_prefix_at};
ghost use Rattle.command_reader.specs.Options.{hopoff_name_of, option_of, option_at, AddsOption, hopoffs_and_default};
ghost use Rattle.command_reader.specs.Memory.{UnlessMemory, Any, DeclaresNone};

use crate::fields::{name, technology_field, with_name};
use crate::zone_lines::is_hunt_word;
use gk_commands::{Command, FaultKind, Names};
use gk_terms::Name;
use gk_terms::words::Words;
use std::alloc::{AllocError, Global};

/// What may come next.
#[derive(Clone, Copy, Debug, PartialEq, Eq)]
pub enum Expected {
    /// An option.
    AnOption,
    /// A name, whatever the word is: right after `hopoff`.
    AName,
    /// An option, or another name of the hopoff.
    OptionOrName,
}

/// One word of the options.
#[derive(Clone, Copy)]
pub enum TechnologyOption {
    /// `hopoff`: a name follows.
    Hopoff,
    /// The name of a zone to hop off to.
    HopoffName(Name),
    /// `seq` or `blast`: accepted without effect.
    Hunt,
    /// `default-technology`: gateways of the prefix take the calls that nothing else takes.
    DefaultTechnology,
}

/// The options so far, and what may come next. The names are held unless memory was refused for one
/// of them.
#[derive(Drop)]
pub struct OpenOptions {
    /// What may come next.
    pub expected: Expected,
    /// The names of all hopoffs.
    pub hopoffs: Result<Names, AllocError>,
    /// Whether `default-technology` was given.
    pub is_default: bool,
}

/// `gw-type-prefix PREFIX [hopoff NAME ...] [seq|blast] [default-technology]`, the options in any
/// order.
pub fn gw_type_prefix(alloc: Global, words: &mut Words<'_>) -> Result<Command, FaultKind>
    ensures { UnlessMemory DeclaresNone (gw_type_prefix_at (words_of words.old)) result }
{
    let prefix = technology_field(words)?;
    let (hopoffs, is_default) = options(alloc, words)?;
    Ok(Command::GwTypePrefix {
        prefix,
        hopoffs,
        is_default,
    })
}

/// The names of all hopoffs, and whether `default-technology` was given. If memory is refused for a
/// name, the words are still read to their end, since a fault of theirs comes first.
fn options(alloc: Global, words: &mut Words<'_>) -> Result<(Names, bool), FaultKind>
    ensures { UnlessMemory Any
        (hopoffs_and_default (options_at false (words_of words.old))) result }
{
    let mut options = OpenOptions {
        expected: Expected::AnOption,
        hopoffs: Ok(Names::new(alloc)),
        is_default: false,
    };
    for word in words {
        let option = option_at(options.expected, word)?;
        options = options.with(option);
    }
    if matches!(options.expected, Expected::AName) {
        return Err(FaultKind::Missing);
    }
    Ok((options.hopoffs?, options.is_default))
}

impl OpenOptions {
    /// With one more option.
    fn with(self, option: TechnologyOption) -> OpenOptions
        ensures { AddsOption self option result }
    {
        match option {
            TechnologyOption::Hopoff => OpenOptions {
                expected: Expected::AName,
                ..self
            },
            TechnologyOption::HopoffName(name) => OpenOptions {
                expected: Expected::OptionOrName,
                hopoffs: with_name(self.hopoffs, name),
                is_default: self.is_default,
            },
            TechnologyOption::Hunt => OpenOptions {
                expected: Expected::AnOption,
                ..self
            },
            TechnologyOption::DefaultTechnology => OpenOptions {
                expected: Expected::AnOption,
                is_default: true,
                ..self
            },
        }
    }
}

/// A word, by what may come next: right after `hopoff` it is a name, whatever it is.
fn option_at(expected: Expected, word: &[u8]) -> Result<TechnologyOption, FaultKind>
    ensures { result ≡ option_at expected word.now }
{
    match expected {
        Expected::AName => hopoff_name(word),
        Expected::AnOption => option_of(word)?.ok_or(FaultKind::Extra),
        Expected::OptionOrName => match option_of(word)? {
            Some(option) => Ok(option),
            None => hopoff_name(word),
        },
    }
}

/// The word as the name of a hopoff.
fn hopoff_name(word: &[u8]) -> Result<TechnologyOption, FaultKind>
    ensures { result ≡ hopoff_name_of word.now }
{
    Ok(TechnologyOption::HopoffName(name(word)?))
}

/// The option that a word is, if it is one.
fn option_of(word: &[u8]) -> Result<Option<TechnologyOption>, FaultKind>
    ensures { result ≡ option_of word.now }
{
    if word == b"hopoff".as_slice() {
        Ok(Some(TechnologyOption::Hopoff))
    } else if is_hunt_word(word) {
        Ok(Some(TechnologyOption::Hunt))
    } else if word == b"default-technology".as_slice() {
        Ok(Some(TechnologyOption::DefaultTechnology))
    } else if word == b"gw".as_slice() {
        Err(FaultKind::Unsupported)
    } else {
        Ok(None)
    }
}
