//! Technology prefixes and their hop-off zones. From Cisco's `gw-type-prefix`.

ghost use Rattle.std.specs.Prelude.{◌≡◌, ◌≤◌, ◌<◌, ℕ, ◌-◌, List, length, true, IfOk, OnOk, Some, None, is_some, bytes_eq, if◌then◌else◌};
ghost use Rattle.std.specs.List.{prefix_len};
ghost use Rattle.gk_terms.specs.declared.limits.TheConstants.{MOST_ZONES, MOST_TECHNOLOGY};
ghost use Rattle.gk_terms.specs.TechPrefix.{is_technology_byte, is_tech_prefix};
ghost use Rattle.compiler.specs.Technology.{prefix_in, default_in, default_technology_of};
ghost use Rattle.compiler.specs.TablesIndex.{best_after, technology_at, hopoff_at, AreTechnologies, IsLongest, hopoffs_named};

use crate::picking::best_after;
use crate::plans::ZoneNo;
use crate::technology_map::TechnologyMap;
use gk_commands::{Command, KeptName, ZoneKind};
use gk_terms::limits::MOST_TECHNOLOGY;
use gk_terms::{Name, TechPrefix};
use indexmap::IndexMap;
use std::alloc::{AllocError, Global};

/// The declared prefixes, each with the number of the hop-off zone that is picked for it. The
/// hop-off zones of several commands for one prefix follow each other in line order.
pub(crate) fn technologies_in(
    alloc: Global,
    commands: &[Command],
    zones: &IndexMap<Name, ZoneKind>,
) -> Result<TechnologyMap, AllocError>
    requires { length zones.now.entries ≤ MOST_ZONES }
    ensures { IfOk result (λ technologies.
        AreTechnologies zones.now.entries commands.now technologies) }
{
    let mut technologies = TechnologyMap::new(alloc);
    for command in commands {
        if let Some(prefix) = prefix_in(command) {
            add_hopoffs(&mut technologies, zones, &prefix, hopoffs_named(command))?;
        }
    }
    Ok(technologies)
}

/// The prefix that a command declares, if it declares one.
fn prefix_in(command: &Command) -> Option<TechPrefix>
    ensures { result ≡ prefix_in command.now }
{
    match command {
        Command::GwTypePrefix { prefix, .. } => Some(*prefix),
        _ => None,
    }
}

/// The hop-off zones that a command names for the prefix that it declares.
fn hopoffs_named(command: &Command) -> &[KeptName]
    ensures { result.now ≡ hopoffs_named command.now }
{
    match command {
        Command::GwTypePrefix { hopoffs, .. } => hopoffs.as_slice(),
        _ => &[],
    }
}

/// The prefix that a command makes the default technology, if it makes one.
fn default_in(command: &Command) -> Option<TechPrefix>
    ensures { result ≡ default_in command.now }
{
    match command {
        Command::GwTypePrefix {
            prefix,
            is_default: true,
            ..
        } => Some(*prefix),
        _ => None,
    }
}

/// Adds a prefix, if it is new, and the hop-off zones that one more command names for it.
fn add_hopoffs(
    technologies: &mut TechnologyMap,
    zones: &IndexMap<Name, ZoneKind>,
    prefix: &TechPrefix,
    hopoffs: &[KeptName],
) -> Result<(), AllocError>
    requires { length zones.now.entries ≤ MOST_ZONES }
    ensures added { OnOk result ((other : List ℕ)
        → technology_at technologies.new other ≡ (if bytes_eq prefix.now other
        then Some (best_after zones.now.entries
        (hopoff_at technologies.old prefix.now) hopoffs.now)
        else technology_at technologies.old other)) }
    ensures text { is_tech_prefix prefix.now ≡ true }
{
    // So it is known what the text of a prefix is made of.
    let _text = prefix.as_bytes();
    let before = technologies.get(prefix).flatten();
    let best = best_after(zones, before, hopoffs);
    technologies.insert(prefix, best)
}

/// The default technology: the last command that sets one counts.
pub(crate) fn default_technology_in(commands: &[Command]) -> Option<TechPrefix>
    ensures { result ≡ default_technology_of commands.now }
{
    let mut default = None;
    for command in commands {
        if let Some(prefix) = default_in(command) {
            default = Some(prefix);
        }
    }
    default
}

/// The longest declared prefix with which the text begins, with its hop-off zone if it has one.
pub(crate) fn technology_of(
    technologies: &TechnologyMap,
    text: &[u8],
) -> Option<(TechPrefix, Option<ZoneNo>)>
    requires { (prefix : List ℕ)
        → is_some (technology_at technologies.now prefix) ≡ true
        → is_tech_prefix prefix ≡ true }
    ensures { IsLongest technologies.now text.now result }
{
    let most = technology_bytes(text).min(MOST_TECHNOLOGY);
    for shorter in 0..most {
        if let Some(found) = technologies.declared(&text[..most - shorter]) {
            return Some(found);
        }
    }
    None
}

/// How many characters in front of the text may be in a technology prefix.
pub fn technology_bytes(text: &[u8]) -> usize
    ensures counted { result ≡ prefix_len is_technology_byte text.now }
    ensures within { result ≤ length text.now }
{
    text.iter()
        .take_while(|byte| byte.is_ascii_digit() || **byte == b'#')
        .count()
}
