//! All sets of dialled digits.

ghost use Rattle.std.specs.Prelude.{IfOk};
ghost use Rattle.std.specs.Map.{keys_of};
ghost use Rattle.plan_difference.specs.Difference.{AreClasses};
ghost use Rattle.plan_difference.specs.Entries.{HaveDigits};
ghost use Rattle.plan_difference.specs.Order.{AreGrouped};

use crate::gathering::{heads_in, patterns_in};
use crate::groups::{add_groups, add_joint};
use crate::joint_heads::joint_heads;
use crate::sets::Sets;
use compiler::Tables;
use std::alloc::{AllocError, Global};

/// The sets of all dialled digits, whether two configurations plan them alike or not: all are in
/// exactly one of these sets, and each set has some.
///
/// The sets are in the order in which they are found: those of one group stand together, and those
/// of the joint group come first. `AllocError` if memory is refused.
///
/// Digits are tried for the literals of each zone prefix of both configurations, with 0 to 32
/// characters after them, so that two configurations of 20,000 zone prefixes each take at most 1.4
/// million tries, of a few look-ups each. The technology prefixes that both declare, and that hop
/// off in neither, add no tries: one of them, or none, is chosen for each zone prefix, by at most a
/// look-up for each length that they have, and at most eleven for each pair of one of them and a
/// longer prefix that begins with it. A technology prefix that hops off in both adds 33 tries; each
/// other one adds at most twice as many as there are without one.
pub fn classes(alloc: Global, old: &Tables, new: &Tables) -> Result<Sets, AllocError>
    ensures classes { IfOk result (λ sets.
        AreClasses old.now.commands new.now.commands (keys_of sets)) }
    ensures digits { IfOk result (λ sets.
        HaveDigits old.now.commands new.now.commands sets) }
    ensures grouped { IfOk result (λ sets. AreGrouped (keys_of sets)) }
{
    let patterns = patterns_in(alloc, old, new)?;
    let heads = heads_in(alloc, old, new)?;
    let joint = joint_heads(alloc, old, new, &heads)?;
    let mut sets = Sets::new(alloc);
    add_joint(&mut sets, alloc, old, new, &joint, &patterns)?;
    add_groups(&mut sets, old, new, &heads, &patterns)?;
    // So it is known that no set is there twice.
    let _count = sets.len();
    Ok(sets)
}
