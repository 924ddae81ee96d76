//! Lists in the text of an explanation.

ghost use Rattle.std.specs.Prelude.{◌≡◌, ◌++◌, IfOk, OnOk};
ghost use Rattle.gk_commands.specs.Printing.{limit_word};
ghost use Rattle.explanation.specs.Lists.{candidate_text, candidates_text, commands_that, declares, default_line, later_default, limit_text, limits_text, names_row, names_text, never_chosen, over_text, with_command, with_item};

use crate::steps::{Candidate, HeldLimit};
use crate::text::Text;
use bandwidth::Over;
use digit_patterns::Pattern;
use gk_commands::{Command, LimitKind};
use gk_terms::{Name, TechPrefix};
use std::alloc::{AllocError, Global};

/// The commands that declare a technology prefix.
pub(crate) fn declaring(
    alloc: Global,
    commands: &[Command],
    prefix: &TechPrefix,
) -> Result<Text, AllocError>
    ensures { IfOk result (λ list. list ≡ commands_that (declares prefix.now) commands.now) }
{
    let mut list = Text::new(alloc);
    for command in commands {
        list.add_if_declares(command, prefix)?;
    }
    Ok(list)
}

/// The commands that name a pattern for a zone.
pub(crate) fn rows(
    alloc: Global,
    commands: &[Command],
    pattern: &Pattern,
    zone: &[u8],
) -> Result<Text, AllocError>
    ensures { IfOk result (λ list.
        list ≡ commands_that (names_row pattern.now zone.now) commands.now) }
{
    let mut list = Text::new(alloc);
    for command in commands {
        list.add_if_row(command, pattern, zone)?;
    }
    Ok(list)
}

/// The last command that sets the default technology.
pub(crate) fn default_line(alloc: Global, commands: &[Command]) -> Result<Text, AllocError>
    ensures { IfOk result (λ line. line ≡ default_line commands.now) }
{
    let mut line = Text::new(alloc);
    for command in commands {
        line.change_if_default(command)?;
    }
    Ok(line)
}

/// Names, as a list.
pub(crate) fn names(alloc: Global, names: &[Name]) -> Result<Text, AllocError>
    ensures { IfOk result (λ list. list ≡ names_text names.now) }
{
    let mut list = Text::new(alloc);
    for name in names {
        list.add_name(name)?;
    }
    Ok(list)
}

/// Candidates, as a list.
pub(crate) fn candidates(alloc: Global, candidates: &[Candidate]) -> Result<Text, AllocError>
    ensures { IfOk result (λ list. list ≡ candidates_text candidates.now) }
{
    let mut list = Text::new(alloc);
    for candidate in candidates {
        list.add_candidate(candidate)?;
    }
    Ok(list)
}

/// Limits, as a list.
pub(crate) fn limits(alloc: Global, limits: &[HeldLimit]) -> Result<Text, AllocError>
    ensures { IfOk result (λ list. list ≡ limits_text limits.now) }
{
    let mut list = Text::new(alloc);
    for limit in limits {
        list.add_limit(limit)?;
    }
    Ok(list)
}

impl Text {
    /// Adds a command as an item, if it declares the prefix.
    fn add_if_declares(&mut self, command: &Command, prefix: &TechPrefix) -> Result<(), AllocError>
        ensures { OnOk result (self.new ≡ with_command (declares prefix.now) self.old command.now) }
    {
        match command {
            Command::GwTypePrefix {
                prefix: declared,
                hopoffs,
                is_default,
            } => {
                if *declared == *prefix {
                    self.begin_item()?;
                    self.add_technology_line(declared, hopoffs, *is_default)?;
                }
                Ok(())
            }
            _ => Ok(()),
        }
    }

    /// Adds a command as an item, if it names the pattern for the zone.
    fn add_if_row(
        &mut self,
        command: &Command,
        pattern: &Pattern,
        zone: &[u8],
    ) -> Result<(), AllocError>
        ensures { OnOk result (self.new
            ≡ with_command (names_row pattern.now zone.now) self.old command.now) }
    {
        match command {
            Command::ZonePrefix {
                zone: named,
                pattern: said,
                gateways,
            } => {
                if named.as_bytes() == zone && *said == *pattern {
                    self.begin_item()?;
                    self.add_row_line(named, said, gateways)?;
                }
                Ok(())
            }
            _ => Ok(()),
        }
    }

    /// Becomes the command, if it sets the default technology.
    fn change_if_default(&mut self, command: &Command) -> Result<(), AllocError>
        ensures { OnOk result (self.new ≡ later_default self.old command.now) }
    {
        match command {
            Command::GwTypePrefix {
                prefix,
                hopoffs,
                is_default,
            } => {
                if *is_default {
                    self.clear();
                    self.add_technology_line(prefix, hopoffs, *is_default)?;
                }
                Ok(())
            }
            _ => Ok(()),
        }
    }

    /// Adds a name as an item.
    fn add_name(&mut self, name: &Name) -> Result<(), AllocError>
        ensures { OnOk result (self.new ≡ with_item self.old name.now) }
    {
        self.begin_item()?;
        self.add(name.as_bytes())
    }

    /// Adds a candidate as an item.
    fn add_candidate(&mut self, candidate: &Candidate) -> Result<(), AllocError>
        ensures { OnOk result (self.new ≡ with_item self.old (candidate_text candidate.now)) }
    {
        self.begin_item()?;
        self.add(candidate.id.as_bytes())?;
        self.add(b" priority ")?;
        self.number(u64::from(candidate.priority))?;
        self.add(never_chosen(candidate.priority))
    }

    /// Adds a limit as an item.
    fn add_limit(&mut self, limit: &HeldLimit) -> Result<(), AllocError>
        ensures { OnOk result (self.new ≡ with_item self.old (limit_text limit.now)) }
    {
        self.begin_item()?;
        self.add_over(&limit.over)?;
        self.add(b" ")?;
        self.number(limit.units)?;
        self.add(b" units")
    }

    /// Adds which limit it is.
    fn add_over(&mut self, over: &Over) -> Result<(), AllocError>
        ensures { OnOk result (self.new ≡ self.old ++ over_text over.now) }
    {
        match over {
            Over::Zone { kind, zone } => {
                self.add(limit_word(*kind))?;
                self.add(b" ")?;
                self.add(zone.as_bytes())
            }
            Over::Remote => self.add(b"remote"),
        }
    }
}

/// What is said of a priority: that no gateway of priority 0 is chosen.
fn never_chosen(priority: u8) -> &'static [u8]
    ensures { result.now ≡ never_chosen priority }
{
    if priority == 0 {
        b", never chosen"
    } else {
        b""
    }
}

/// The word of a limit's kind.
fn limit_word(kind: LimitKind) -> &'static [u8]
    ensures { result.now ≡ limit_word kind }
{
    match kind {
        LimitKind::Session => b"session",
        LimitKind::Total => b"total",
        LimitKind::Interzone => b"interzone",
    }
}
