//! Digits are tried, and their set is added.

ghost use Rattle.std.specs.Prelude.{OnOk};
ghost use Rattle.plan_difference.specs.Entries.{Grows, IsEntered, NotedBy};
ghost use Rattle.plan_difference.specs.Sets.{set_of};

use crate::classing::set_of;
use crate::sets::Sets;
use compiler::Tables;
use gk_terms::Dialled;
use std::alloc::AllocError;

/// Adds the set of these digits, unless it is there.
pub(crate) fn add(
    sets: &mut Sets,
    old: &Tables,
    new: &Tables,
    digits: &Dialled,
) -> Result<(), AllocError>
    ensures grows { OnOk result (Grows old.now.commands new.now.commands sets.old sets.new) }
    ensures entered { OnOk result
        (IsEntered old.now.commands new.now.commands sets.new digits.now) }
    ensures noted { OnOk result (NotedBy sets.old sets.new
        (set_of old.now.commands new.now.commands digits.now) digits.now) }
{
    // So it is known that they are dialled digits.
    let _text = digits.as_bytes();
    sets.note(&set_of(old, new, digits), digits)
}
