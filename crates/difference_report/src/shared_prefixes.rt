//! The technology prefixes of the joint group.

ghost use Rattle.std.specs.Prelude.{◌≡◌, [], IfOk, OnOk, bytes_eq, fold, Some};
ghost use Rattle.std.specs.Option.{option_eq};
ghost use Rattle.compiler.specs.Technology.{prefix_in, technology_of};
ghost use Rattle.plan_difference.specs.Sets.{hops_off};
ghost use Rattle.difference_report.specs.Headings as Spec;

use compiler::Tables;
use gk_commands::Command;
use gk_terms::{Dialled, TechPrefix};
use indexmap::IndexSet;
use std::alloc::{AllocError, Global};

/// The prefixes that both configurations declare, and that hop off in neither, each once, in the
/// order in which the old one declares them.
pub(crate) fn shared_prefixes(
    alloc: Global,
    old: &Tables,
    new: &Tables,
) -> Result<IndexSet<TechPrefix>, AllocError>
    ensures { IfOk result (λ prefixes. prefixes.keys
        ≡ Spec.shared_prefixes old.now.commands new.now.commands) }
{
    shared_in(alloc, old, new, old.commands().as_slice())
}

/// The same of commands of the old one.
fn shared_in(
    alloc: Global,
    old: &Tables,
    new: &Tables,
    commands: &[Command],
) -> Result<IndexSet<TechPrefix>, AllocError>
    ensures { IfOk result (λ prefixes. prefixes.keys
        ≡ fold (λ list command. Spec.with_shared old.now.commands new.now.commands list
        (prefix_in command)) [] commands.now) }
{
    let mut prefixes = IndexSet::new(alloc);
    for command in commands {
        add_shared(&mut prefixes, old, new, &prefix_in(command))?;
    }
    Ok(prefixes)
}

/// Adds a prefix, if there is one, it is shared and is not there yet.
fn add_shared(
    prefixes: &mut IndexSet<TechPrefix>,
    old: &Tables,
    new: &Tables,
    prefix: &Option<TechPrefix>,
) -> Result<(), AllocError>
    ensures { OnOk result (prefixes.new.keys ≡ Spec.with_shared old.now.commands
        new.now.commands prefixes.old.keys prefix.now) }
{
    match prefix {
        Some(prefix) => add_if_shared(prefixes, old, new, prefix),
        None => Ok(()),
    }
}

#[tactic(auto, using(crate::proofs::SharedLemmas::shared_added, crate::proofs::SharedLemmas::other_added))]
/// Adds a prefix, if it is shared and is not there yet.
fn add_if_shared(
    prefixes: &mut IndexSet<TechPrefix>,
    old: &Tables,
    new: &Tables,
    prefix: &TechPrefix,
) -> Result<(), AllocError>
    ensures { OnOk result (prefixes.new.keys ≡ Spec.with_shared old.now.commands
        new.now.commands prefixes.old.keys (Some prefix.now)) }
{
    if !is_shared(old, new, prefix) {
        return Ok(());
    }
    prefixes.insert(*prefix)?;
    Ok(())
}

/// Whether both configurations declare a prefix, and it hops off in neither.
fn is_shared(old: &Tables, new: &Tables, prefix: &TechPrefix) -> bool
    ensures { result ≡ Spec.is_shared old.now.commands new.now.commands prefix.now }
{
    takes_off(old, prefix) && takes_off(new, prefix)
}

/// Whether a configuration declares a prefix, and it does not hop off.
fn takes_off(tables: &Tables, prefix: &TechPrefix) -> bool
    ensures { result ≡ Spec.takes_off tables.now.commands prefix.now }
{
    is_declared(tables, prefix) && !hops_off(tables, prefix)
}

/// Whether a configuration declares a prefix.
fn is_declared(tables: &Tables, prefix: &TechPrefix) -> bool
    ensures { result ≡ option_eq bytes_eq (technology_of tables.now.commands prefix.now)
        (Some prefix.now) }
{
    is_same(&tables.declared(&dialled(prefix)), &Some(*prefix))
}

/// Whether two prefixes, if there are any, are the same.
pub(crate) fn is_same(prefix: &Option<TechPrefix>, other: &Option<TechPrefix>) -> bool
    ensures { result ≡ option_eq bytes_eq prefix.now other.now }
{
    *prefix == *other
}

#[tactic(auto, using(plan_difference::proofs::GatherLemmas::prefix_is_dialled))]
/// A technology prefix as dialled digits.
fn dialled(prefix: &TechPrefix) -> Dialled
    ensures { result ≡ prefix.now }
{
    match Dialled::read(prefix.as_bytes()) {
        Ok(digits) => digits,
        Err(_) => unreachable!(),
    }
}

/// Whether digits with a technology prefix hop off.
pub(crate) fn hops_off(tables: &Tables, prefix: &TechPrefix) -> bool
    ensures { result ≡ hops_off tables.now.commands (Some prefix.now) }
{
    tables.hopoff(prefix).is_some()
}

/// The prefix that a command declares, if it declares one.
fn prefix_in(command: &Command) -> Option<TechPrefix>
    ensures { result ≡ prefix_in command.now }
{
    match command {
        Command::GwTypePrefix { prefix, .. } => Some(*prefix),
        _ => None,
    }
}

/// Prefixes, as a list.
pub(crate) fn prefixes_text(alloc: Global, prefixes: &[TechPrefix]) -> Result<Vec<u8>, AllocError>
    ensures { IfOk result (λ text. text.items ≡ Spec.prefixes_text prefixes.now) }
{
    let mut list = Vec::new(alloc);
    for prefix in prefixes {
        add_prefix(&mut list, prefix)?;
    }
    Ok(list)
}

/// Adds a prefix to a list.
fn add_prefix(list: &mut Vec<u8>, prefix: &TechPrefix) -> Result<(), AllocError>
    ensures { OnOk result (list.new.items ≡ Spec.with_prefix list.old.items prefix.now) }
{
    if !list.is_empty() {
        list.extend_from_slice(b", ")?;
    }
    list.extend_from_slice(prefix.as_bytes())
}
