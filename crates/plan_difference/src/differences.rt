//! Which dialled digits two configurations plan otherwise.

ghost use Rattle.std.specs.Prelude.{IfOk};
ghost use Rattle.std.specs.Map.{keys_of};
ghost use Rattle.plan_difference.specs.Difference.{IsDifference};
ghost use Rattle.plan_difference.specs.Entries.{AreSampled};
ghost use Rattle.plan_difference.specs.Order.{AreGrouped};

use crate::all_sets::classes;
use crate::changes::changed_sets;
use crate::sets::Sets;
use compiler::Tables;
use std::alloc::{AllocError, Global};

/// The sets of dialled digits that two configurations plan otherwise: all digits that they plan
/// otherwise are in one of these sets, and no others; each set has some digits. Two plans are the
/// same if they lead to the same zone, if it is a remote one at the same address, and else with the
/// same technology prefix and the same priority of each gateway; or to the caller's zone with the
/// same technology prefix; or nowhere.
///
/// Plans are compared by the configurations alone: what gateways give when they register is not in
/// them.
///
/// Those of one group stand together, and those of the joint group come first, in the order in which
/// `classes` finds them, which says what that takes. `AllocError` if memory is refused.
pub fn difference(alloc: Global, old: &Tables, new: &Tables) -> Result<Sets, AllocError>
    ensures difference { IfOk result (λ sets.
        IsDifference old.now.commands new.now.commands (keys_of sets)) }
    ensures samples { IfOk result (λ sets.
        AreSampled old.now.commands new.now.commands sets) }
    ensures grouped { IfOk result (λ sets. AreGrouped (keys_of sets)) }
{
    let classes = classes(alloc, old, new)?;
    changed_sets(alloc, old, new, &classes)
}
