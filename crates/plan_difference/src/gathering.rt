//! What is gathered from two configurations before digits are tried.

ghost use Rattle.std.specs.Prelude.{◌≡◌, ◌++◌, IfOk, OnOk, MatchOption, None, Some, map};
ghost use Rattle.compiler.specs.Technology.{prefixes_of, prefix_in};
ghost use Rattle.plan_difference.specs.Gathered.{HasPatterns, HasPrefixes, Has, KeepsAll, pattern_in, patterns_of};
ghost use Rattle.plan_difference.specs.Order.{IsEachOnce};

use compiler::Tables;
use digit_patterns::Pattern;
use gk_commands::Command;
use gk_terms::TechPrefix;
use std::alloc::{AllocError, Global};

/// The patterns of all `zone prefix` lines of both configurations, each once, in the order of their
/// characters.
pub(crate) fn patterns_in(
    alloc: Global,
    old: &Tables,
    new: &Tables,
) -> Result<Vec<Pattern>, AllocError>
    ensures old { IfOk result (λ patterns. HasPatterns patterns.items old.now.commands) }
    ensures new { IfOk result (λ patterns. HasPatterns patterns.items new.now.commands) }
{
    let mut patterns = Vec::new(alloc);
    add_patterns_of(&mut patterns, lines_of(old))?;
    add_patterns_of(&mut patterns, lines_of(new))?;
    put_in_order(&mut patterns);
    Ok(patterns)
}

/// The commands of a configuration.
fn lines_of(tables: &Tables) -> &[Command]
    ensures { result.now ≡ tables.now.commands }
{
    tables.commands().as_slice()
}

/// Adds the patterns of the `zone prefix` lines of a configuration.
fn add_patterns_of(patterns: &mut Vec<Pattern>, commands: &[Command]) -> Result<(), AllocError>
    ensures { OnOk result
        (patterns.new.items ≡ patterns.old.items ++ patterns_of commands.now) }
{
    for command in commands {
        if let Some(pattern) = pattern_in(command) {
            patterns.push(*pattern)?;
        }
    }
    Ok(())
}

/// The pattern of a command, if it is a `zone prefix`.
fn pattern_in(command: &Command) -> Option<&Pattern>
    ensures { MatchOption result
        (pattern_in command.now ≡ None)
        (λ pattern. pattern_in command.now ≡ Some pattern.now) }
{
    match command {
        Command::ZonePrefix { pattern, .. } => Some(pattern),
        _ => None,
    }
}

/// Puts patterns in the order of their characters, and leaves each once.
fn put_in_order(patterns: &mut Vec<Pattern>)
    ensures { KeepsAll patterns.old.items patterns.new.items }
{
    patterns.sort_unstable();
    patterns.dedup();
}

/// No technology prefix, and then those of all `gw-type-prefix` lines of both configurations, each
/// once, in the order of their characters.
pub(crate) fn heads_in(
    alloc: Global,
    old: &Tables,
    new: &Tables,
) -> Result<Vec<Option<TechPrefix>>, AllocError>
    ensures none { IfOk result (λ heads. Has heads.items None) }
    ensures old { IfOk result (λ heads. HasPrefixes heads.items old.now.commands) }
    ensures new { IfOk result (λ heads. HasPrefixes heads.items new.now.commands) }
    ensures once { IfOk result (λ heads. IsEachOnce heads.items) }
{
    let mut heads = Vec::new(alloc);
    heads.push(None)?;
    add_prefixes_of(&mut heads, lines_of(old))?;
    add_prefixes_of(&mut heads, lines_of(new))?;
    put_heads_in_order(&mut heads);
    Ok(heads)
}

/// Adds the technology prefixes of the `gw-type-prefix` lines of a configuration.
fn add_prefixes_of(
    heads: &mut Vec<Option<TechPrefix>>,
    commands: &[Command],
) -> Result<(), AllocError>
    ensures { OnOk result (heads.new.items
        ≡ heads.old.items ++ map (λ prefix. Some prefix) (prefixes_of commands.now)) }
{
    for command in commands {
        if let Some(prefix) = prefix_in(command) {
            heads.push(Some(prefix))?;
        }
    }
    Ok(())
}

/// The prefix that a command declares, if it declares one.
fn prefix_in(command: &Command) -> Option<TechPrefix>
    ensures { result ≡ prefix_in command.now }
{
    match command {
        Command::GwTypePrefix { prefix, .. } => Some(*prefix),
        _ => None,
    }
}

/// Puts technology prefixes in the order of their characters, none before all, and leaves each
/// once.
fn put_heads_in_order(heads: &mut Vec<Option<TechPrefix>>)
    ensures kept { KeepsAll heads.old.items heads.new.items }
    ensures once { IsEachOnce heads.new.items }
{
    heads.sort_unstable();
    heads.dedup();
}
