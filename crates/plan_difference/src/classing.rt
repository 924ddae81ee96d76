//! The set to which dialled digits belong.

ghost use Rattle.std.specs.Prelude.{◌≡◌, ◌≤◌, length, drop, Some, option_map};
ghost use Rattle.compiler.specs.Rows.{row_for};
ghost use Rattle.compiler.specs.Technology.{technology_of, found_length};
ghost use Rattle.plan_difference.specs.Entries.{group_by};
ghost use Rattle.plan_difference.specs.Sets.{hops_off, row_after, same_technology, is_joint, set_by, set_of};

use crate::number_sets::{Group, NumberSet};
use compiler::Tables;
use digit_patterns::Pattern;
use gk_terms::{Dialled, TechPrefix};

/// The set to which the digits belong.
pub fn set_of(old: &Tables, new: &Tables, digits: &Dialled) -> NumberSet
    ensures { result ≡ set_of old.now.commands new.now.commands digits.now }
{
    let old_technology = old.declared(digits);
    let new_technology = new.declared(digits);
    let old_row = pattern_after(old, &old_technology, digits);
    let new_row = pattern_after(new, &new_technology, digits);
    if is_joint(old, new, &old_technology, &new_technology) {
        NumberSet {
            old_technology: None,
            new_technology: None,
            old_row,
            new_row,
        }
    } else {
        NumberSet {
            old_technology,
            new_technology,
            old_row,
            new_row,
        }
    }
}

/// The group of digits for which these technology prefixes are found.
pub(crate) fn group_by(
    old: &Tables,
    new: &Tables,
    old_technology: &Option<TechPrefix>,
    new_technology: &Option<TechPrefix>,
) -> Group
    ensures { result ≡ group_by
        (is_joint old.now.commands new.now.commands old_technology.now new_technology.now)
        old_technology.now new_technology.now }
{
    if is_joint(old, new, old_technology, new_technology) {
        Group {
            old: None,
            new: None,
        }
    } else {
        Group {
            old: *old_technology,
            new: *new_technology,
        }
    }
}

/// Whether both configurations have found the same technology prefix, or none, and digits with it
/// hop off in neither.
pub(crate) fn is_joint(
    old: &Tables,
    new: &Tables,
    old_technology: &Option<TechPrefix>,
    new_technology: &Option<TechPrefix>,
) -> bool
    ensures { result ≡ is_joint old.now.commands new.now.commands
        old_technology.now new_technology.now }
{
    is_same_technology(old_technology, new_technology)
        && !hops_off(old, old_technology)
        && !hops_off(new, new_technology)
}

/// Whether both are the same technology prefix, or both are none.
fn is_same_technology(technology: &Option<TechPrefix>, other: &Option<TechPrefix>) -> bool
    ensures { result ≡ same_technology technology.now other.now }
{
    match technology {
        Some(prefix) => match other {
            Some(other) => prefix.as_bytes() == other.as_bytes(),
            None => false,
        },
        None => other.is_none(),
    }
}

/// Whether digits with this technology prefix hop off.
pub(crate) fn hops_off(tables: &Tables, technology: &Option<TechPrefix>) -> bool
    ensures { result ≡ hops_off tables.now.commands technology.now }
{
    match technology {
        Some(prefix) => tables.hopoff(prefix).is_some(),
        None => false,
    }
}

/// How many characters a technology prefix has that was found: 0 if none was.
pub(crate) fn found_length(technology: &Option<TechPrefix>) -> usize
    ensures { result ≡ found_length technology.now }
{
    match technology {
        Some(prefix) => prefix.as_bytes().len(),
        None => 0,
    }
}

#[tactic(auto, using(crate::proofs::Finding::found_within))]
/// The zone prefix that is used for digits with this technology prefix, which they are found to
/// have.
fn pattern_after(
    tables: &Tables,
    technology: &Option<TechPrefix>,
    digits: &Dialled,
) -> Option<Pattern>
    requires { technology_of tables.now.commands digits.now ≡ technology.now }
    ensures { result ≡ option_map (λ row. row.0)
        (row_after tables.now.commands technology.now digits.now) }
{
    if hops_off(tables, technology) {
        return None;
    }
    pattern_from(tables, digits, found_length(technology))
}

/// The zone prefix that matches the digits from the place `from` on.
fn pattern_from(tables: &Tables, digits: &Dialled, from: usize) -> Option<Pattern>
    requires { from ≤ length digits.now }
    ensures { result ≡ option_map (λ row. row.0)
        (row_for tables.now.commands (drop from digits.now)) }
{
    let row = tables.row(digits, from)?;
    tables.pattern(row).copied()
}
