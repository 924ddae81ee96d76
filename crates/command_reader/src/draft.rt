//! A configuration as it is read, line by line.

ghost use Rattle.std.specs.Prelude.{◌≡◌, ◌≤◌, true, None, is_some, option_map, slice_get};
ghost use Rattle.std.specs.List.{list_any, position_or_len};
ghost use Rattle.gk_commands.specs.Progress.{line_count, commands_in};
ghost use Rattle.gk_commands.specs.Zones.{first_local_of, is_declared, is_local_command};
ghost use Rattle.gk_commands.specs.Reading.{nothing_read, fault_at, finished, names_unknown, unknown_zone, MayReadLine, ReadsLine};
ghost use Rattle.gk_commands.specs.WholeLines.{KeepsLine};

use crate::first_words::add_line;
use crate::kept::Kept;
use gk_commands::{Command, Commands, FaultKind, LineFault, WholeLines};
use gk_terms::limits::MOST_LINES;
use short_texts::KeptName;
use std::alloc::Global;
use std::marker::Model;

/// The lines read so far: the kept commands, the number of each one's line, how many lines were
/// passed over, and the names of the declared zones. A contract sees them as `Progress`.
///
/// `command_lines` are the lines that said the commands, if they are kept: from the first one that
/// finds no memory on, they are not.
#[derive(Drop)]
pub struct Draft {
    alloc: Global,
    kept: Kept,
    passed: u32,
    command_lines: Option<WholeLines>,
}

impl Model for Draft {
    ghost use Rattle.std.specs.Prelude.{◌≡◌, ◌+◌, ◌≤◌, length, IfSome};
    ghost use Rattle.std.specs.HashSet.{keys};
    ghost use Rattle.gk_terms.specs.declared.limits.TheConstants.{MOST_LINES};
    ghost use Rattle.gk_commands.specs.Accepted.{IsPrintable, LinesSay};
    ghost use Rattle.command_reader.specs.Index.{AreDeclared};
    ghost use Rattle.gk_commands.specs.Progress.{Progress, with_numbers};

    ghost Value = { Progress };

    ghost view = { λ d. record {
      kept = with_numbers d.kept.numbers.items d.kept.commands.items;
      passed = d.passed;
    } };

    ghost invariant = { λ d. (length d.kept.numbers.items ≡ length d.kept.commands.items)
        × (length d.kept.commands.items + d.passed ≤ MOST_LINES)
        × AreDeclared (keys d.kept.declared) d.kept.commands.items
        × IsPrintable d.kept.commands.items
        × IfSome d.command_lines (λ lines. LinesSay lines d.kept.commands.items) };
}

impl Draft {
    #[tactic(auto, using(crate::proofs::read_back::File::none_printable))]
    /// Nothing read yet. The lines that say the commands will not be kept.
    pub fn new(alloc: Global) -> Draft
        ensures { result ≡ nothing_read }
    {
        Draft {
            alloc,
            kept: Kept::new(alloc, 0),
            passed: 0,
            command_lines: None,
        }
    }

    #[tactic(auto, using(crate::proofs::read_back::File::none_printable, crate::proofs::read_back::File::none_said))]
    /// Nothing read yet, with room for so many commands, if there is memory for it: else the draft
    /// takes memory as it is read, so that only a line that finds none is refused. The lines that
    /// say the commands will be kept, if there is memory for them.
    pub fn keeping_lines(alloc: Global, commands: usize) -> Draft
        ensures { result ≡ nothing_read }
    {
        Draft {
            alloc,
            kept: Kept::new(alloc, commands),
            passed: 0,
            command_lines: Some(WholeLines::new(alloc)),
        }
    }

    /// How many lines were read.
    pub fn line_count(&self) -> usize
        ensures count { result ≡ line_count self.now }
        ensures within { result ≤ MOST_LINES }
    {
        self.commands().len() + self.passed as usize
    }

    /// With the next line, or the line's first fault. If memory is refused for the command of a
    /// line without a fault, the answer is the fault `NoMemory`.
    pub fn with_line(mut self, line: &[u8]) -> Result<Draft, LineFault>
        ensures { MayReadLine self line.now result }
    {
        self.read_line(line)?;
        Ok(self)
    }

    #[tactic(auto, unfolding(gk_commands::specs::Reading::line_after))]
    /// Reads the next line, or says its first fault, as `with_line` does. At a fault the draft is
    /// unchanged.
    pub fn read_line(&mut self, line: &[u8]) -> Result<(), LineFault>
        ensures { ReadsLine self.old line.now self.new result }
    {
        let before = self.line_count();
        let number = before as u32 + 1;
        if before >= MOST_LINES {
            return Err(fault_at(number, FaultKind::TooMany));
        }
        let commands_before = self.kept.commands.len();
        self.kept.line = number;
        if let Err(kind) = add_line(&mut self.kept, self.alloc, line) {
            return Err(fault_at(number, kind));
        }
        if self.kept.commands.len() > commands_before {
            self.command_lines = keep_line(self.command_lines.take(), line);
            return Ok(());
        }
        self.passed += 1;
        Ok(())
    }

    /// The configuration of the lines that were read: its commands, or the fault of its zones.
    pub fn finish(self) -> Result<Commands, LineFault>
        ensures { result ≡ finished self }
    {
        if let Some(fault) = self.unknown_zone() {
            return Err(fault);
        }
        if !self.has_local_zone() {
            let end = self.line_count() as u32 + 1;
            return Err(fault_at(end, FaultKind::NoLocalZone));
        }
        Ok(self.into_commands())
    }

    /// The fault of the first line that names a zone which no line declares.
    pub fn unknown_zone(&self) -> Option<LineFault>
        ensures { result ≡ unknown_zone self.now }
    {
        unknown_at(&self.kept.numbers, self.place_of_unknown())
    }

    /// The place of the first command that names a zone which no line declares; their number if
    /// there is none.
    fn place_of_unknown(&self) -> usize
        ensures { result ≡
            position_or_len (names_unknown (commands_in self.now)) (commands_in self.now) }
    {
        self.commands()
            .iter()
            .take_while(|command| !self.names_unknown(command))
            .count()
    }

    /// The kept commands.
    fn commands(&self) -> &[Command]
        ensures { result.now ≡ commands_in self.now }
    {
        &self.kept.commands
    }

    /// Whether a command names a zone that no line declares.
    fn names_unknown(&self, command: &Command) -> bool
        ensures { result ≡ names_unknown (commands_in self.now) command.now }
    {
        command.names().iter().any(|name| !self.declares(name))
    }

    /// Whether a line declares a zone of this name.
    fn declares(&self, name: &KeptName) -> bool
        ensures { result ≡ is_declared (commands_in self.now) name.now }
    {
        self.kept.declared.contains(&name.name())
    }

    #[tactic(auto, using(crate::proofs::accepted::LocalZones::some_local))]
    /// Whether a line declares a local zone.
    pub fn has_local_zone(&self) -> bool
        ensures { result ≡ is_some (first_local_of (commands_in self.now)) }
    {
        has_local(self.commands())
    }

    /// The commands, and how many lines were passed over.
    fn into_commands(self) -> Commands
        requires declared { unknown_zone self ≡ None }
        requires has_local { is_some (first_local_of (commands_in self)) ≡ true }
        ensures { result ≡ record { commands = commands_in self; passed = self.passed } }
    {
        let Draft {
            kept,
            passed,
            command_lines,
            ..
        } = self;
        Commands::new(kept.commands, passed, command_lines)
    }
}

/// The lines with one more; nothing from the first one on that cannot be kept.
fn keep_line(lines: Option<WholeLines>, line: &[u8]) -> Option<WholeLines>
    ensures { KeepsLine lines line.now result }
{
    lines?.with_line(line)
}

/// The fault of naming an unknown zone, at the line of the command at a place, by the numbers of
/// the lines.
fn unknown_at(numbers: &[u32], place: usize) -> Option<LineFault>
    ensures { result ≡
        option_map (λ number. fault_at number FaultKind.UnknownZone) (slice_get numbers.now place) }
{
    let line = *numbers.get(place)?;
    Some(fault_at(line, FaultKind::UnknownZone))
}

/// The fault of the line with this number.
fn fault_at(line: u32, kind: FaultKind) -> LineFault
    ensures { result ≡ fault_at line kind }
{
    LineFault { line, kind }
}

/// Whether one of the commands declares a local zone.
fn has_local(commands: &[Command]) -> bool
    ensures { result ≡ list_any is_local_command commands.now }
{
    commands.iter().any(|command| command.is_local_zone())
}
