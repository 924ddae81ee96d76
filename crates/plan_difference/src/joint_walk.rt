//! The digits of the joint group are gone through.

ghost use Rattle.std.specs.Prelude.{◌≡◌, ◌∷◌, ◌<◌, [], MatchOption, None, OnOk, Some, length};
ghost use Rattle.plan_difference.specs.Blocked.{AreChosen, AreJoint, IsChosen};
ghost use Rattle.plan_difference.specs.Entries.{Grows};
ghost use Rattle.plan_difference.specs.Gathered.{AreLiteral, joint};
ghost use Rattle.plan_difference.specs.Order.{Adds, IsOf};
ghost use Rattle.plan_difference.specs.Walk.{SettlesPatterns, SettlesStem};

use crate::choosing::{choose, chosen_at, literals_at};
use crate::number_sets::Group;
use crate::sets::Sets;
use crate::walk::add_stem;
use compiler::Tables;
use digit_patterns::Pattern;
use gk_terms::TechPrefix;
use std::alloc::{AllocError, Global};

/// Adds the sets of the joint group's digits with the literals of each of these patterns, which are
/// in the order of their characters. One of its technology prefixes is enough for each of them.
pub(crate) fn add_joint_patterns(
    sets: &mut Sets,
    alloc: Global,
    old: &Tables,
    new: &Tables,
    heads: &[Option<TechPrefix>],
    patterns: &[Pattern],
) -> Result<(), AllocError>
    ensures grows { OnOk result (Grows old.now.commands new.now.commands sets.old sets.new) }
    ensures adds { OnOk result (Adds (IsOf joint heads.now) sets.old sets.new) }
    ensures settles { OnOk result (AreJoint old.now.commands new.now.commands heads.now
        → SettlesPatterns old.now.commands new.now.commands sets.new heads.now joint []
        patterns.now) }
    ensures literal { OnOk result (AreLiteral patterns.now) }
{
    let chosen = choose(alloc, old, new, heads, patterns)?;
    add_chosen(sets, old, new, heads, patterns, &chosen)
}

#[tactic(auto, using(crate::proofs::OrderLemmas::adds_nothing))]
/// The same, after the technology prefix that is chosen for each pattern.
fn add_chosen(
    sets: &mut Sets,
    old: &Tables,
    new: &Tables,
    heads: &[Option<TechPrefix>],
    patterns: &[Pattern],
    chosen: &[Option<Option<TechPrefix>>],
) -> Result<(), AllocError>
    requires size { length chosen.now ≡ length patterns.now }
    requires chosen { AreChosen old.now.commands new.now.commands heads.now patterns.now 33
        chosen.now }
    ensures grows { OnOk result (Grows old.now.commands new.now.commands sets.old sets.new) }
    ensures adds { OnOk result (Adds (IsOf joint heads.now) sets.old sets.new) }
    ensures settles { OnOk result (AreJoint old.now.commands new.now.commands heads.now
        → SettlesPatterns old.now.commands new.now.commands sets.new heads.now joint []
        patterns.now) }
    ensures literal { OnOk result (AreLiteral patterns.now) }
{
    for place in 0..patterns.len() {
        let stem = literals_at(patterns, place);
        add_joint_stem(sets, old, new, heads, stem, &chosen_at(chosen, place))?;
    }
    Ok(())
}

/// Adds the sets of the joint group's digits with this stem and each number of stars, after the
/// technology prefix that is chosen for it; after all if it is empty.
fn add_joint_stem(
    sets: &mut Sets,
    old: &Tables,
    new: &Tables,
    heads: &[Option<TechPrefix>],
    stem: &[u8],
    chosen: &Option<Option<TechPrefix>>,
) -> Result<(), AllocError>
    requires { 0 < length stem.now → IsChosen old.now.commands new.now.commands heads.now stem.now
        33 chosen.now }
    ensures grows { OnOk result (Grows old.now.commands new.now.commands sets.old sets.new) }
    ensures adds { OnOk result (Adds (IsOf joint heads.now) sets.old sets.new) }
    ensures settles { OnOk result (AreJoint old.now.commands new.now.commands heads.now
        → SettlesStem old.now.commands new.now.commands sets.new heads.now joint stem.now) }
{
    if stem.is_empty() {
        return add_any(sets, old, new, heads, stem);
    }
    add_after(sets, old, new, heads, stem, chosen)
}

/// The same after any of the technology prefixes.
fn add_any(
    sets: &mut Sets,
    old: &Tables,
    new: &Tables,
    heads: &[Option<TechPrefix>],
    stem: &[u8],
) -> Result<(), AllocError>
    ensures grows { OnOk result (Grows old.now.commands new.now.commands sets.old sets.new) }
    ensures adds { OnOk result (Adds (IsOf joint heads.now) sets.old sets.new) }
    ensures settles { OnOk result
        (SettlesStem old.now.commands new.now.commands sets.new heads.now joint stem.now) }
{
    let group = Group {
        old: None,
        new: None,
    };
    add_stem(sets, old, new, heads, &group, stem)
}

#[tactic(auto, using(crate::proofs::OrderLemmas::adds_nothing))]
/// The same after the technology prefix that is chosen; nothing if there is none.
fn add_after(
    sets: &mut Sets,
    old: &Tables,
    new: &Tables,
    heads: &[Option<TechPrefix>],
    stem: &[u8],
    chosen: &Option<Option<TechPrefix>>,
) -> Result<(), AllocError>
    requires { IsChosen old.now.commands new.now.commands heads.now stem.now 33 chosen.now }
    ensures grows { OnOk result (Grows old.now.commands new.now.commands sets.old sets.new) }
    ensures adds { OnOk result (Adds (IsOf joint heads.now) sets.old sets.new) }
    ensures settles { OnOk result (AreJoint old.now.commands new.now.commands heads.now
        → SettlesStem old.now.commands new.now.commands sets.new heads.now joint stem.now) }
{
    match head_in(chosen) {
        Some(head) => add_alone(sets, old, new, head, stem),
        None => Ok(()),
    }
}

/// The technology prefix, or none, that is chosen.
fn head_in(chosen: &Option<Option<TechPrefix>>) -> Option<&Option<TechPrefix>>
    ensures { MatchOption result
        (chosen.now ≡ None)
        (λ head. chosen.now ≡ Some head.now) }
{
    match chosen {
        Some(head) => Some(head),
        None => None,
    }
}

/// The same after this technology prefix alone.
fn add_alone(
    sets: &mut Sets,
    old: &Tables,
    new: &Tables,
    head: &Option<TechPrefix>,
    stem: &[u8],
) -> Result<(), AllocError>
    ensures grows { OnOk result (Grows old.now.commands new.now.commands sets.old sets.new) }
    ensures adds { OnOk result (Adds (IsOf joint (head.now ∷ [])) sets.old sets.new) }
    ensures settles { OnOk result
        (SettlesStem old.now.commands new.now.commands sets.new (head.now ∷ []) joint stem.now) }
{
    let heads = [*head];
    add_any(sets, old, new, &heads, stem)
}
