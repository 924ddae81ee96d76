//! The sets whose digits are planned otherwise.

ghost use Rattle.std.specs.Prelude.{IfOk, IfSome, OnOk, slice_get};
ghost use Rattle.std.specs.Map.{keys_of};
ghost use Rattle.plan_difference.specs.Difference.{AreClasses, IsDifference};
ghost use Rattle.plan_difference.specs.Entries.{AreChanged, AreSampled, HaveDigits, NotedIfChanged};
ghost use Rattle.plan_difference.specs.Order.{AreGrouped};

use crate::number_sets::NumberSet;
use crate::sameness::is_same_plan;
use crate::sets::Sets;
use compiler::Tables;
use gk_terms::Dialled;
use std::alloc::{AllocError, Global};

/// Those of the sets of all dialled digits whose digits two configurations plan otherwise, in the
/// same order. `AllocError` if memory is refused.
pub fn changed_sets(
    alloc: Global,
    old: &Tables,
    new: &Tables,
    classes: &Sets,
) -> Result<Sets, AllocError>
    requires classes { AreClasses old.now.commands new.now.commands (keys_of classes.now) }
    requires digits { HaveDigits old.now.commands new.now.commands classes.now }
    requires grouped { AreGrouped (keys_of classes.now) }
    ensures part { IfOk result (λ sets.
        AreChanged old.now.commands new.now.commands classes.now sets) }
    ensures difference { IfOk result (λ sets.
        IsDifference old.now.commands new.now.commands (keys_of sets)) }
    ensures samples { IfOk result (λ sets.
        AreSampled old.now.commands new.now.commands sets) }
    ensures grouped { IfOk result (λ sets. AreGrouped (keys_of sets)) }
{
    let changed = changed_of(alloc, old, new, classes)?;
    // So it is known that no set is there twice.
    let _count = changed.len();
    Ok(changed)
}

/// Those of some sets whose digits are planned otherwise.
fn changed_of(alloc: Global, old: &Tables, new: &Tables, sets: &Sets) -> Result<Sets, AllocError>
    ensures { IfOk result (λ changed.
        AreChanged old.now.commands new.now.commands sets.now changed) }
{
    let mut changed = Sets::new(alloc);
    for place in 0..sets.len() {
        add_at(&mut changed, old, new, sets, place)?;
    }
    Ok(changed)
}

/// Adds the set at a place, if its digits are planned otherwise.
fn add_at(
    changed: &mut Sets,
    old: &Tables,
    new: &Tables,
    sets: &Sets,
    place: usize,
) -> Result<(), AllocError>
    ensures { OnOk result (IfSome (slice_get sets.now place) (λ entry.
        NotedIfChanged old.now.commands new.now.commands changed.old changed.new entry)) }
{
    match sets.get(place) {
        Some((set, digits)) => add_if_changed(changed, old, new, set, digits),
        None => Ok(()),
    }
}

/// Adds a set, if these digits of it are planned otherwise.
fn add_if_changed(
    changed: &mut Sets,
    old: &Tables,
    new: &Tables,
    set: &NumberSet,
    digits: &Dialled,
) -> Result<(), AllocError>
    ensures { OnOk result (NotedIfChanged old.now.commands new.now.commands
        changed.old changed.new (set.now, digits.now)) }
{
    if is_same_plan(old, new, digits) {
        return Ok(());
    }
    changed.note(set, digits)
}
