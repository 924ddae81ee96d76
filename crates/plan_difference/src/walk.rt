//! The digits are gone through.

ghost use Rattle.std.specs.Prelude.{◌≡◌, ◌↔◌, OnOk, MatchOption, Some, ℕ, List, true};
ghost use Rattle.compiler.specs.Technology.{technology_of};
ghost use Rattle.plan_difference.specs.Entries.{Grows, group_of};
ghost use Rattle.plan_difference.specs.Gathered.{AreLiteral, has_no_star};
ghost use Rattle.plan_difference.specs.Order.{Adds, IsOf};
ghost use Rattle.plan_difference.specs.Sets.{set_of};
ghost use Rattle.plan_difference.specs.Walk.{IsPick, Settles, SettlesStem, SettlesPattern, SettlesPatterns, longer_of};

use crate::adding::add;
use crate::classing::group_by;
use crate::number_sets::Group;
use crate::sameness::is_same_technology;
use crate::sets::Sets;
use crate::texts::{fits, starred, text_of};
use compiler::Tables;
use digit_patterns::Pattern;
use gk_terms::{Dialled, TechPrefix};
use std::alloc::AllocError;

/// The first of the technology prefixes that, with this stem and so many stars after it, makes
/// digits of this group with no longer declared prefix; those digits.
fn pick(
    old: &Tables,
    new: &Tables,
    heads: &[Option<TechPrefix>],
    group: &Group,
    stem: &[u8],
    stars: usize,
) -> Option<Dialled>
    ensures { MatchOption result
        ((digits : List ℕ) → ¬ IsPick old.now.commands new.now.commands heads.now group.now
        stem.now stars digits)
        (λ digits. IsPick old.now.commands new.now.commands heads.now group.now stem.now stars
        digits) }
{
    if !fits(0, stem.len(), stars) {
        return None;
    }
    for head in heads {
        if let Some(digits) = starred(text_of(head), stem, stars) {
            if is_pick(old, new, head, group, &digits) {
                return Some(digits);
            }
        }
    }
    None
}

/// Whether digits that begin with this technology prefix, or with none, are of this group, and no
/// longer one is found in either configuration.
fn is_pick(
    old: &Tables,
    new: &Tables,
    head: &Option<TechPrefix>,
    group: &Group,
    digits: &Dialled,
) -> bool
    ensures { (result ≡ true) ↔
        ((group_of (set_of old.now.commands new.now.commands digits.now) ≡ group.now)
        × (longer_of (technology_of old.now.commands digits.now)
        (technology_of new.now.commands digits.now) ≡ head.now)) }
{
    let old_technology = old.declared(digits);
    let new_technology = new.declared(digits);
    if !is_same_technology(&longer_of(&old_technology, &new_technology), head) {
        return false;
    }
    group_by(old, new, &old_technology, &new_technology).is(group)
}

/// The longer of two technology prefixes, the first if they are as long; none if there is none.
pub(crate) fn longer_of(
    technology: &Option<TechPrefix>,
    other: &Option<TechPrefix>,
) -> Option<TechPrefix>
    ensures { result ≡ longer_of technology.now other.now }
{
    match technology {
        None => *other,
        Some(prefix) => longer_than(prefix, other),
    }
}

/// This technology prefix, or another one if it is longer.
fn longer_than(prefix: &TechPrefix, other: &Option<TechPrefix>) -> Option<TechPrefix>
    ensures { result ≡ longer_of (Some prefix.now) other.now }
{
    match other {
        Some(other) if prefix.as_bytes().len() < other.as_bytes().len() => Some(*other),
        _ => Some(*prefix),
    }
}

#[tactic(auto, using(crate::proofs::OrderLemmas::adds_nothing))]
/// Adds the set of the digits with so many stars.
fn add_at(
    sets: &mut Sets,
    old: &Tables,
    new: &Tables,
    heads: &[Option<TechPrefix>],
    group: &Group,
    stem: &[u8],
    stars: usize,
) -> Result<(), AllocError>
    ensures grows { OnOk result (Grows old.now.commands new.now.commands sets.old sets.new) }
    ensures adds { OnOk result (Adds (IsOf group.now heads.now) sets.old sets.new) }
    ensures settles { OnOk result (Settles old.now.commands new.now.commands sets.new
        heads.now group.now stem.now stars) }
{
    match pick(old, new, heads, group, stem, stars) {
        Some(digits) => add(sets, old, new, &digits),
        None => Ok(()),
    }
}

#[tactic(auto, using(crate::proofs::OrderLemmas::adds_nothing))]
/// Adds the sets of the digits with each number of stars.
pub(crate) fn add_stem(
    sets: &mut Sets,
    old: &Tables,
    new: &Tables,
    heads: &[Option<TechPrefix>],
    group: &Group,
    stem: &[u8],
) -> Result<(), AllocError>
    ensures grows { OnOk result (Grows old.now.commands new.now.commands sets.old sets.new) }
    ensures adds { OnOk result (Adds (IsOf group.now heads.now) sets.old sets.new) }
    ensures settles { OnOk result (SettlesStem old.now.commands new.now.commands sets.new
        heads.now group.now stem.now) }
{
    for stars in 0..33 {
        add_at(sets, old, new, heads, group, stem, stars)?;
    }
    Ok(())
}

#[tactic(auto, using(crate::proofs::OrderLemmas::adds_nothing, crate::proofs::GatherLemmas::pattern_is_literal))]
/// Adds the sets of the digits with what is left of the literals of a pattern after this front.
fn add_pattern(
    sets: &mut Sets,
    old: &Tables,
    new: &Tables,
    heads: &[Option<TechPrefix>],
    group: &Group,
    front: &[u8],
    pattern: &Pattern,
) -> Result<(), AllocError>
    ensures grows { OnOk result (Grows old.now.commands new.now.commands sets.old sets.new) }
    ensures adds { OnOk result (Adds (IsOf group.now heads.now) sets.old sets.new) }
    ensures settles { OnOk result (SettlesPattern old.now.commands new.now.commands sets.new
        heads.now group.now front.now pattern.now) }
    ensures literal { has_no_star pattern.now.literals ≡ true }
{
    match pattern.literals().strip_prefix(front) {
        Some(stem) => add_stem(sets, old, new, heads, group, stem),
        None => Ok(()),
    }
}

#[tactic(auto, using(crate::proofs::OrderLemmas::adds_nothing))]
/// The same of each of these patterns.
pub(crate) fn add_patterns(
    sets: &mut Sets,
    old: &Tables,
    new: &Tables,
    heads: &[Option<TechPrefix>],
    group: &Group,
    front: &[u8],
    patterns: &[Pattern],
) -> Result<(), AllocError>
    ensures grows { OnOk result (Grows old.now.commands new.now.commands sets.old sets.new) }
    ensures adds { OnOk result (Adds (IsOf group.now heads.now) sets.old sets.new) }
    ensures settles { OnOk result (SettlesPatterns old.now.commands new.now.commands sets.new
        heads.now group.now front.now patterns.now) }
    ensures literal { OnOk result (AreLiteral patterns.now) }
{
    for pattern in patterns {
        add_pattern(sets, old, new, heads, group, front, pattern)?;
    }
    Ok(())
}
