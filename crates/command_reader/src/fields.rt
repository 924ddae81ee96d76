//! The fields of a line.

ghost use Rattle.std.specs.Prelude.{◌≡◌, [], ◌∷◌, ◌++◌, IsErr, MatchResult, Ok};
ghost use Rattle.std.specs.Option.{ok_or};
ghost use Rattle.gk_terms.specs.Text.{words_of};
ghost use Rattle.gk_terms.specs.Name.{name_of};
ghost use Rattle.gk_terms.specs.Number.{number_of};
ghost use Rattle.gk_terms.specs.TechPrefix.{tech_prefix_of};
ghost use Rattle.gk_terms.specs.Address.{ip_of};
ghost use Rattle.digit_patterns.specs.Pattern.{pattern_of};
ghost use Rattle.gk_terms.specs.Fields.{Gives, field};
ghost use Rattle.gk_commands.specs.Fields.{names_in, some_names_in};
ghost use Rattle.command_reader.specs.Memory.{UnlessMemory, Any, HoldsNames};

use digit_patterns::Pattern;
use gk_commands::{FaultKind, Names};
use gk_terms::addresses::read_ip;
use gk_terms::fields::number_field;
use gk_terms::words::Words;
use gk_terms::{Kbps, Name, TechPrefix};
use short_texts::KeptName;
use std::alloc::{AllocError, Global};

/// A word as a name.
pub fn name(word: &[u8]) -> Result<Name, FaultKind>
    ensures { result ≡ ok_or (name_of word.now) FaultKind.BadName }
{
    Name::read(word).map_err(|_| FaultKind::BadName)
}

/// The name, to be kept.
pub fn kept_name(alloc: Global, name: &Name) -> Result<KeptName, FaultKind>
    ensures { UnlessMemory Any (Ok name.now) result }
{
    Ok(KeptName::of(alloc, name)?)
}

/// The next word as a pattern.
pub fn pattern_field(words: &mut Words<'_>) -> Result<Pattern, FaultKind>
    ensures { Gives (field FaultKind.Missing pattern_of FaultKind.BadPattern (words_of words.old))
        result (words_of words.new) }
{
    let word = words.next().ok_or(FaultKind::Missing)?;
    Pattern::parse(word).map_err(|_| FaultKind::BadPattern)
}

/// The next word as a technology prefix.
pub fn technology_field(words: &mut Words<'_>) -> Result<TechPrefix, FaultKind>
    ensures { Gives
        (field FaultKind.Missing tech_prefix_of FaultKind.BadPattern (words_of words.old))
        result (words_of words.new) }
{
    let word = words.next().ok_or(FaultKind::Missing)?;
    TechPrefix::read(word).map_err(|_| FaultKind::BadPattern)
}

/// The next word as an IPv4 address.
pub fn ip_field(words: &mut Words<'_>) -> Result<[u8; 4], FaultKind>
    ensures { Gives (field FaultKind.Missing ip_of FaultKind.BadAddress (words_of words.old))
        result (words_of words.new) }
{
    let word = words.next().ok_or(FaultKind::Missing)?;
    read_ip(word).ok_or(FaultKind::BadAddress)
}

/// The next word as a bandwidth, 1 to so many kbit/s.
pub fn size_field(words: &mut Words<'_>, most: u32) -> Result<Kbps, FaultKind>
    ensures { Gives
        (field FaultKind.Missing (number_of 1 most) FaultKind.BadNumber (words_of words.old))
        result (words_of words.new) }
{
    let size = number_field(words, 1, most, FaultKind::BadNumber)?;
    Ok(Kbps::new(size))
}

/// The next word as the priority of gateways, 0 to 10.
pub fn gateway_priority_field(words: &mut Words<'_>) -> Result<u8, FaultKind>
    ensures { Gives
        (field FaultKind.Missing (number_of 0 10) FaultKind.BadNumber (words_of words.old))
        result (words_of words.new) }
{
    let priority = number_field(words, 0, 10, FaultKind::BadNumber)?;
    Ok(priority as u8)
}

/// All further words as names; at least one is needed. If memory is refused for one, the words are
/// still read to their end, since a fault of theirs comes first.
pub fn some_names(alloc: Global, words: &mut Words<'_>) -> Result<Names, FaultKind>
    ensures { UnlessMemory Any (some_names_in (words_of words.old)) result }
{
    let first = words.next().ok_or(FaultKind::Missing)?;
    names_from(alloc, first, words)
}

/// The same, with the first word.
fn names_from(alloc: Global, first: &[u8], words: &mut Words<'_>) -> Result<Names, FaultKind>
    ensures { UnlessMemory Any (names_in (first.now ∷ words_of words.old)) result }
{
    let mut names = Names::new(alloc).with(name(first)?);
    for word in words {
        names = with_name(names, name(word)?);
    }
    Ok(names?)
}

/// With one more name, unless memory was refused for an earlier one.
pub fn with_name(names: Result<Names, AllocError>, name: Name) -> Result<Names, AllocError>
    ensures { MatchResult names
        (λ front. HoldsNames result (front ++ name ∷ []))
        (λ _. IsErr result) }
{
    names?.with(name)
}
