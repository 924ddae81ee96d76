//! The zones that were named and not picked.

ghost use Rattle.std.specs.Prelude.{◌≡◌, ◌++◌, IfOk, OnOk, Some, bytes_eq, nat_lt};
ghost use Rattle.std.specs.List.{list_any};
ghost use Rattle.std.specs.Option.{option_or};
ghost use Rattle.compiler.specs.Technology.{hopoffs_in};
ghost use Rattle.explanation.specs.Lists.{kind_if, kind_in, names_row, names_zone, others_of, why_later, why_not, with_declared};

use crate::steps::Way;
use crate::text::Text;
use digit_patterns::Pattern;
use gk_commands::{Command, KeptName, ZoneKind};
use gk_terms::{Name, TechPrefix};
use std::alloc::{AllocError, Global};

/// The zones that are named for the same as the picked one, and were not picked, each with why not.
/// The time grows with the number of the zones times that of the lines.
pub(crate) fn others(
    alloc: Global,
    commands: &[Command],
    technology: &Option<TechPrefix>,
    way: &Way,
    picked: &[u8],
) -> Result<Text, AllocError>
    ensures { IfOk result (λ list. list ≡ others_of commands.now technology.now way.now picked.now
        (kind_in commands.now picked.now)) }
{
    match kind_in(commands, picked) {
        Some(kind) => others_than(alloc, commands, technology, way, picked, &kind),
        None => Ok(Text::new(alloc)),
    }
}

/// The same, if the picked zone is of this kind.
fn others_than(
    alloc: Global,
    commands: &[Command],
    technology: &Option<TechPrefix>,
    way: &Way,
    picked: &[u8],
    kind: &ZoneKind,
) -> Result<Text, AllocError>
    ensures { IfOk result (λ list. list ≡ others_of commands.now technology.now way.now picked.now
        (Some kind.now)) }
{
    let mut list = Text::new(alloc);
    for command in commands {
        list.add_if_other(commands, technology, way, picked, kind, &command.zone())?;
    }
    Ok(list)
}

/// The kind of the zone of a name, by the first command that declares it.
fn kind_in(commands: &[Command], name: &[u8]) -> Option<ZoneKind>
    ensures { result ≡ kind_in commands.now name.now }
{
    let mut found = None;
    for command in commands {
        found = first_of(found, kind_if(&command.zone(), name));
    }
    found
}

/// The first of two, if there is one.
fn first_of(found: Option<ZoneKind>, other: Option<ZoneKind>) -> Option<ZoneKind>
    ensures { result ≡ option_or found other }
{
    match found {
        Some(kind) => Some(kind),
        None => other,
    }
}

/// The kind of a zone, if it has this name.
fn kind_if(zone: &Option<(Name, ZoneKind)>, name: &[u8]) -> Option<ZoneKind>
    ensures { result ≡ kind_if name.now zone.now }
{
    match zone {
        Some((declared, kind)) => {
            if declared.as_bytes() == name {
                Some(*kind)
            } else {
                None
            }
        }
        None => None,
    }
}

impl Text {
    /// Adds a zone with why it was not picked, if it is named for the same as the picked one, and
    /// is another one.
    fn add_if_other(
        &mut self,
        commands: &[Command],
        technology: &Option<TechPrefix>,
        way: &Way,
        picked: &[u8],
        kind: &ZoneKind,
        zone: &Option<(Name, ZoneKind)>,
    ) -> Result<(), AllocError>
        ensures { OnOk result (self.new ≡ with_declared commands.now technology.now way.now
            picked.now kind.now self.old zone.now) }
    {
        let Some((name, other)) = zone else {
            return Ok(());
        };
        if is_named(commands, technology, way, name) && name.as_bytes() != picked {
            self.begin_item()?;
            self.add(name.as_bytes())?;
            self.add_why_not(kind, other)?;
        }
        Ok(())
    }

    /// Adds why a zone was not picked.
    fn add_why_not(&mut self, kind: &ZoneKind, other: &ZoneKind) -> Result<(), AllocError>
        ensures { OnOk result (self.new ≡ self.old ++ why_not kind.now other.now) }
    {
        match (kind, other) {
            (ZoneKind::Local, ZoneKind::Remote { .. }) => self.add(
                b", remote, and a local zone comes first",
            ),
            (
                ZoneKind::Remote { cost, priority, .. },
                ZoneKind::Remote {
                    cost: other_cost,
                    priority: other_priority,
                    ..
                },
            ) => self.add_why_later(*cost, *other_cost, *priority, *other_priority),
            (_, ZoneKind::Local) => self.add(b", named later"),
        }
    }

    /// Adds why a remote zone was not picked, if another one was.
    fn add_why_later(
        &mut self,
        cost: u8,
        other_cost: u8,
        priority: u8,
        other_priority: u8,
    ) -> Result<(), AllocError>
        ensures { OnOk result (self.new ≡ self.old ++ why_later (nat_lt cost other_cost) cost
            other_cost priority other_priority) }
    {
        if cost < other_cost {
            self.add(b", cost ")?;
            self.number(u64::from(other_cost))?;
            self.add(b" above ")?;
            return self.number(u64::from(cost));
        }
        if other_priority < priority {
            self.add(b", priority ")?;
            self.number(u64::from(other_priority))?;
            self.add(b" below ")?;
            return self.number(u64::from(priority));
        }
        self.add(b", named later")
    }
}

/// Whether a command names the zone for what decides.
fn is_named(commands: &[Command], technology: &Option<TechPrefix>, way: &Way, name: &Name) -> bool
    ensures { result ≡ list_any (names_zone technology.now way.now name.now) commands.now }
{
    commands
        .iter()
        .any(|command| names_zone(command, technology, way, name))
}

/// Whether a command names the zone as a hop-off zone of the prefix, or for the pattern.
fn names_zone(command: &Command, technology: &Option<TechPrefix>, way: &Way, name: &Name) -> bool
    ensures { result ≡ names_zone technology.now way.now name.now command.now }
{
    match way {
        Way::HopOff => match technology {
            Some(prefix) => names_hopoff(command, prefix, name),
            None => false,
        },
        Way::Matched(pattern) => names_row(command, pattern, name.as_bytes()),
        Way::Unmatched => false,
    }
}

/// Whether a command names the zone as a hop-off zone of the prefix.
fn names_hopoff(command: &Command, prefix: &TechPrefix, name: &Name) -> bool
    ensures { result ≡ list_any (bytes_eq name.now) (hopoffs_in prefix.now command.now) }
{
    match command {
        Command::GwTypePrefix {
            prefix: declared,
            hopoffs,
            ..
        } => {
            if *declared == *prefix {
                is_among(hopoffs.as_slice(), name)
            } else {
                false
            }
        }
        _ => false,
    }
}

/// Whether a name is among some.
fn is_among(names: &[KeptName], name: &Name) -> bool
    ensures { result ≡ list_any (bytes_eq name.now) names.now }
{
    names.iter().any(|one| name.as_bytes() == one.as_bytes())
}

/// Whether a command names the pattern for the zone.
fn names_row(command: &Command, pattern: &Pattern, zone: &[u8]) -> bool
    ensures { result ≡ names_row pattern.now zone.now command.now }
{
    match command {
        Command::ZonePrefix {
            zone: named,
            pattern: said,
            ..
        } => named.as_bytes() == zone && *said == *pattern,
        _ => false,
    }
}
