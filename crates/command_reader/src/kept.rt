//! What is kept of the lines of a configuration as they are read.

ghost use Rattle.std.specs.Prelude.{◌≡◌, [], MatchResult, Ok, Some, None};
ghost use Rattle.std.specs.Option.{option_copied};
ghost use Rattle.std.specs.HashSet.{keys};
ghost use Rattle.command_reader.specs.Index.{declared_name, AddsDeclared, MayRefuseCommand, fault_of_one_more, fault_by_names};
ghost use Rattle.command_reader.specs.Kept.{MayAdd};

use gk_commands::{Command, FaultKind};
use gk_terms::Name;
use gk_terms::limits::MOST_ZONES;
use short_texts::KeptName;
use std::alloc::{AllocError, Global};
use std::collections::HashSet;

/// The commands of the lines that were read, in line order, the number of each one's line, and the
/// names of the zones that they declare; and the number of the line being read, 0 before the first.
#[derive(Drop)]
pub struct Kept {
    pub commands: Vec<Command>,
    pub numbers: Vec<u32>,
    pub declared: HashSet<Name>,
    pub line: u32,
}

impl Kept {
    /// Nothing kept yet, with room for this many commands if there is memory for it.
    pub fn new(alloc: Global, commands: usize) -> Kept
        ensures commands { result.commands.items ≡ [] }
        ensures numbers { result.numbers.items ≡ [] }
        ensures declared { keys result.declared ≡ [] }
    {
        Kept {
            commands: room_for(alloc, commands),
            numbers: room_for(alloc, commands),
            declared: HashSet::new(alloc),
            line: 0,
        }
    }

    /// The name and the domain of one more zone, to be kept; or the fault of its name; or
    /// `NoMemory`, if that has none.
    pub fn zone_names(
        &self,
        alloc: Global,
        name: &Name,
        domain: &Name,
    ) -> Result<(KeptName, KeptName), FaultKind>
        ensures { MatchResult result
            (λ names. names ≡ (name.now, domain.now))
            (λ kind. MayRefuseCommand
            (fault_of_one_more (keys self.now.declared) name.now) kind) }
    {
        check_name(&self.declared, name)?;
        let name = KeptName::of(alloc, name)?;
        let domain = KeptName::of(alloc, domain)?;
        Ok((name, domain))
    }

    /// Adds the command of the line, or says why not: the fault of the zone that it declares, or
    /// `NoMemory`. In that case what was kept is unchanged. A command is large, so room is made for
    /// it first: `push` may hand it back, which costs another copy.
    pub fn add(&mut self, command: Command) -> Result<(), FaultKind>
        ensures { MayAdd self.old (Ok (Some command)) self.new result }
    {
        check(&self.declared, &command)?;
        self.commands.reserve(1)?;
        self.numbers.reserve(1)?;
        declare(&mut self.declared, &command)?;
        self.commands.push_reserved(command);
        self.numbers.push_reserved(self.line);
        Ok(())
    }
}

/// The fault of the zone that a command declares, if it has one.
fn check(declared: &HashSet<Name>, command: &Command) -> Result<(), FaultKind>
    ensures { MatchResult result
        (λ _. fault_by_names (keys declared.now) command.now ≡ None)
        (λ kind. fault_by_names (keys declared.now) command.now ≡ Some kind) }
{
    let Some(name) = declared_name(command) else {
        return Ok(());
    };
    check_name(declared, &name.name())
}

/// The fault of one more zone of this name, if it has one.
fn check_name(declared: &HashSet<Name>, name: &Name) -> Result<(), FaultKind>
    ensures { MatchResult result
        (λ _. fault_of_one_more (keys declared.now) name.now ≡ None)
        (λ kind. fault_of_one_more (keys declared.now) name.now ≡ Some kind) }
{
    if declared.contains(name) {
        return Err(FaultKind::DuplicateZone);
    }
    if declared.len() >= MOST_ZONES {
        return Err(FaultKind::TooMany);
    }
    Ok(())
}

/// Adds the name of the zone that a command declares, if it declares one. If memory runs out,
/// nothing is changed.
fn declare(declared: &mut HashSet<Name>, command: &Command) -> Result<(), AllocError>
    requires free { fault_by_names (keys declared.old) command.now ≡ None }
    ensures { MatchResult result
        (λ _. AddsDeclared (keys declared.old) (keys declared.new) command.now)
        (λ _. keys declared.new ≡ keys declared.old) }
{
    let Some(name) = declared_name(command) else {
        return Ok(());
    };
    match declared.insert(name.name()) {
        Ok(_) => Ok(()),
        Err(_) => Err(AllocError),
    }
}

/// The name of the zone that a command declares, if it declares one.
fn declared_name(command: &Command) -> Option<&KeptName>
    ensures { option_copied result ≡ declared_name command.now }
{
    match command {
        Command::ZoneLocal { name, .. } | Command::ZoneRemote { name, .. } => Some(name),
        _ => None,
    }
}

/// No items, with room for this many if there is memory for it.
fn room_for<T: Drop>(alloc: Global, items: usize) -> Vec<T>
    ensures { result.items ≡ [] }
{
    match Vec::with_capacity(alloc, items) {
        Ok(room) => room,
        Err(_) => Vec::new(alloc),
    }
}
