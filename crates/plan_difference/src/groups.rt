//! The groups of technology prefixes.

ghost use Rattle.std.specs.Prelude.{◌≡◌, ◌∷◌, ◌≤◌, [], OnOk, IfSome, Some, ℕ, List, Option, true, false, length, drop, slice_get};
ghost use Rattle.compiler.specs.Technology.{technology_of, found_length};
ghost use Rattle.plan_difference.specs.Blocked.{AreJoint};
ghost use Rattle.plan_difference.specs.Entries.{Grows};
ghost use Rattle.plan_difference.specs.Gathered.{AreClean, AreLiteral, has_no_star, joint};
ghost use Rattle.plan_difference.specs.Order.{Adds, AddsInOrder, IsGroupOf, IsGroupOfHead, IsOf};
ghost use Rattle.plan_difference.specs.Sets.{hops_off, is_joint};
ghost use Rattle.plan_difference.specs.Walk.{SettlesStem, SettlesPatterns, SettlesGroup, SettlesHead};

use crate::classing::{found_length, hops_off, is_joint};
use crate::joint_walk::add_joint_patterns;
use crate::number_sets::Group;
use crate::sets::Sets;
use crate::walk::{add_patterns, add_stem};
use compiler::Tables;
use digit_patterns::Pattern;
use gk_terms::{Dialled, TechPrefix};
use std::alloc::{AllocError, Global};

/// Adds the sets of the joint group, after these technology prefixes.
pub(crate) fn add_joint(
    sets: &mut Sets,
    alloc: Global,
    old: &Tables,
    new: &Tables,
    heads: &[Option<TechPrefix>],
    patterns: &[Pattern],
) -> Result<(), AllocError>
    ensures grows { OnOk result (Grows old.now.commands new.now.commands sets.old sets.new) }
    ensures adds { OnOk result (Adds (IsOf joint heads.now) sets.old sets.new) }
    ensures alone { OnOk result (SettlesStem old.now.commands new.now.commands sets.new
        heads.now joint []) }
    ensures joint_patterns { OnOk result (AreJoint old.now.commands new.now.commands heads.now
        → SettlesPatterns old.now.commands new.now.commands sets.new heads.now joint []
        patterns.now) }
    ensures literal { OnOk result (AreLiteral patterns.now) }
{
    let group = Group {
        old: None,
        new: None,
    };
    add_stem(sets, old, new, heads, &group, b"")?;
    add_joint_patterns(sets, alloc, old, new, heads, patterns)
}

#[tactic(auto, using(crate::proofs::OrderLemmas::none_in_order))]
/// Adds the sets of the group of each of these technology prefixes.
pub(crate) fn add_groups(
    sets: &mut Sets,
    old: &Tables,
    new: &Tables,
    heads: &[Option<TechPrefix>],
    patterns: &[Pattern],
) -> Result<(), AllocError>
    ensures grows { OnOk result (Grows old.now.commands new.now.commands sets.old sets.new) }
    ensures adds { OnOk result ((bound : ℕ) × AddsInOrder old.now.commands new.now.commands
        heads.now bound sets.old sets.new) }
    ensures settles { OnOk result ((place : ℕ) (head : Option (List ℕ))
        → slice_get heads.now place ≡ Some head
        → SettlesHead old.now.commands new.now.commands sets.new patterns.now head) }
    ensures clean { OnOk result (AreClean heads.now) }
{
    for head in heads {
        add_head(sets, old, new, head, patterns)?;
    }
    Ok(())
}

#[tactic(auto, using(crate::proofs::OrderLemmas::adds_nothing))]
/// Adds the sets of the group of a technology prefix, if it is one, unless it is the joint one.
fn add_head(
    sets: &mut Sets,
    old: &Tables,
    new: &Tables,
    head: &Option<TechPrefix>,
    patterns: &[Pattern],
) -> Result<(), AllocError>
    ensures grows { OnOk result (Grows old.now.commands new.now.commands sets.old sets.new) }
    ensures adds { OnOk result (Adds (IsGroupOfHead old.now.commands new.now.commands head.now)
        sets.old sets.new) }
    ensures settles { OnOk result (SettlesHead old.now.commands new.now.commands sets.new
        patterns.now head.now) }
    ensures clean { IfSome head.now (λ prefix. has_no_star prefix ≡ true) }
{
    match head {
        Some(prefix) => add_group_of(sets, old, new, prefix, patterns),
        None => Ok(()),
    }
}

#[tactic(auto, using(crate::proofs::OrderLemmas::adds_nothing))]
/// Adds the sets of the group of a technology prefix, unless it is the joint one.
fn add_group_of(
    sets: &mut Sets,
    old: &Tables,
    new: &Tables,
    prefix: &TechPrefix,
    patterns: &[Pattern],
) -> Result<(), AllocError>
    ensures grows { OnOk result (Grows old.now.commands new.now.commands sets.old sets.new) }
    ensures adds { OnOk result (Adds (IsGroupOf old.now.commands new.now.commands prefix.now)
        sets.old sets.new) }
    ensures settles { OnOk result (SettlesHead old.now.commands new.now.commands sets.new
        patterns.now (Some prefix.now)) }
    ensures clean { has_no_star prefix.now ≡ true }
{
    let text = dialled(prefix);
    let group = Group {
        old: old.declared(&text),
        new: new.declared(&text),
    };
    if is_joint(old, new, &group.old, &group.new) {
        return Ok(());
    }
    add_group(sets, old, new, prefix, &group, patterns)
}

#[tactic(auto, using(crate::proofs::GatherLemmas::prefix_is_dialled))]
/// A technology prefix as dialled digits.
pub(crate) fn dialled(prefix: &TechPrefix) -> Dialled
    ensures same { result ≡ prefix.now }
    ensures clean { has_no_star prefix.now ≡ true }
{
    match Dialled::read(prefix.as_bytes()) {
        Ok(digits) => digits,
        Err(_) => unreachable!(),
    }
}

/// Adds the sets of a group of its own, whose technology prefix is found to be these.
fn add_group(
    sets: &mut Sets,
    old: &Tables,
    new: &Tables,
    prefix: &TechPrefix,
    group: &Group,
    patterns: &[Pattern],
) -> Result<(), AllocError>
    requires old { found_length group.now.old ≤ length prefix.now }
    requires new { found_length group.now.new ≤ length prefix.now }
    ensures grows { OnOk result (Grows old.now.commands new.now.commands sets.old sets.new) }
    ensures adds { OnOk result (Adds (IsOf group.now (Some prefix.now ∷ []))
        sets.old sets.new) }
    ensures settles { OnOk result (SettlesGroup old.now.commands new.now.commands sets.new
        patterns.now prefix.now group.now.old group.now.new) }
{
    let heads = [Some(*prefix)];
    add_stem(sets, old, new, &heads, group, b"")?;
    add_side(
        sets, old, new, &heads, group, prefix, old, &group.old, patterns,
    )?;
    add_side(
        sets, old, new, &heads, group, prefix, new, &group.new, patterns,
    )
}

#[tactic(auto, using(crate::proofs::OrderLemmas::adds_nothing))]
/// The part of it by the zone prefixes that one configuration uses after its technology prefix;
/// nothing if that one hops off.
fn add_side(
    sets: &mut Sets,
    old: &Tables,
    new: &Tables,
    heads: &[Option<TechPrefix>],
    group: &Group,
    prefix: &TechPrefix,
    side: &Tables,
    technology: &Option<TechPrefix>,
    patterns: &[Pattern],
) -> Result<(), AllocError>
    requires { found_length technology.now ≤ length prefix.now }
    ensures grows { OnOk result (Grows old.now.commands new.now.commands sets.old sets.new) }
    ensures adds { OnOk result (Adds (IsOf group.now heads.now) sets.old sets.new) }
    ensures settles { OnOk result (hops_off side.now.commands technology.now ≡ false
        → SettlesPatterns old.now.commands new.now.commands sets.new heads.now group.now
        (drop (found_length technology.now) prefix.now) patterns.now) }
{
    if hops_off(side, technology) {
        return Ok(());
    }
    let (_, front) = prefix.as_bytes().split_at(found_length(technology));
    add_patterns(sets, old, new, heads, group, front, patterns)
}
