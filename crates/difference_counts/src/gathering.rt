//! All of a configuration that the digits may begin with.

ghost use Rattle.std.specs.Prelude.{◌≡◌, [], IfOk, IfSome, MatchOption, None, Some, true};
ghost use Rattle.std.specs.List.{list_all};
ghost use Rattle.compiler.specs.Technology.{prefixes_of, prefix_in};
ghost use Rattle.plan_difference.specs.Gathered.{has_no_star, pattern_in, patterns_of};
ghost use Rattle.difference_counts.specs.Ahead.{IsAhead, IsWhole, literal_pattern};

use crate::ahead::Ahead;
use compiler::Tables;
use digit_patterns::Pattern;
use gk_commands::Command;
use gk_terms::TechPrefix;
use std::alloc::{AllocError, Global};

/// All that is ahead of the empty front.
pub(crate) fn all_of(alloc: Global, tables: &Tables) -> Result<Ahead, AllocError>
    ensures ahead { IfOk result (λ all. IsAhead tables.now.commands [] all.technology
        all.prefixes.items) }
    ensures none { IfOk result (λ all. all.technology ≡ None) }
    ensures whole { IfOk result (λ all. IsWhole tables.now.commands all.patterns.items) }
{
    let commands = lines_of(tables);
    let prefixes = prefixes_in(alloc, commands)?;
    let patterns = patterns_in(alloc, commands)?;
    Ok(Ahead {
        technology: None,
        prefixes,
        patterns,
    })
}

/// The commands of a configuration.
fn lines_of(tables: &Tables) -> &[Command]
    ensures { result.now ≡ tables.now.commands }
{
    tables.commands().as_slice()
}

/// The patterns of the `zone prefix` lines.
fn patterns_in(alloc: Global, commands: &[Command]) -> Result<Vec<Pattern>, AllocError>
    ensures patterns { IfOk result (λ patterns. patterns.items ≡ patterns_of commands.now) }
    ensures literal { IfOk result (λ patterns. list_all literal_pattern patterns.items ≡ true) }
{
    let mut patterns = Vec::new(alloc);
    for command in commands {
        if let Some(pattern) = pattern_in(command) {
            patterns.push(*pattern)?;
        }
    }
    Ok(patterns)
}

#[tactic(auto, using(plan_difference::proofs::GatherLemmas::pattern_is_literal))]
/// The pattern of a command, if it is a `zone prefix`.
fn pattern_in(command: &Command) -> Option<&Pattern>
    ensures pattern { MatchOption result
        (pattern_in command.now ≡ None)
        (λ pattern. pattern_in command.now ≡ Some pattern.now) }
    ensures literal { IfSome result (λ pattern. literal_pattern pattern.now ≡ true) }
{
    match command {
        Command::ZonePrefix { pattern, .. } => {
            // So it is known that these are digits.
            let _literals = pattern.literals();
            Some(pattern)
        }
        _ => None,
    }
}

/// The technology prefixes of the `gw-type-prefix` lines.
fn prefixes_in(alloc: Global, commands: &[Command]) -> Result<Vec<TechPrefix>, AllocError>
    ensures prefixes { IfOk result (λ prefixes. prefixes.items ≡ prefixes_of commands.now) }
    ensures literal { IfOk result (λ prefixes. list_all has_no_star prefixes.items ≡ true) }
{
    let mut prefixes = Vec::new(alloc);
    for command in commands {
        if let Some(prefix) = prefix_in(command) {
            prefixes.push(prefix)?;
        }
    }
    Ok(prefixes)
}

#[tactic(auto, using(plan_difference::proofs::GatherLemmas::prefix_is_clean))]
/// The prefix that a command declares, if it declares one.
fn prefix_in(command: &Command) -> Option<TechPrefix>
    ensures prefix { result ≡ prefix_in command.now }
    ensures literal { IfSome result (λ prefix. has_no_star prefix ≡ true) }
{
    match command {
        Command::GwTypePrefix { prefix, .. } => {
            // So it is known that no star is in it.
            let _text = prefix.as_bytes();
            Some(*prefix)
        }
        _ => None,
    }
}
