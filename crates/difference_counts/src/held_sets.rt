//! A set as a map holds it.

use plan_difference::NumberSet;
use std::marker::Model;

/// A set with a view of its own, so that a map need not know what is inside. A contract sees the
/// set.
#[derive(Clone, Copy, PartialEq, Eq, Hash)]
pub(crate) struct HeldSet {
    set: NumberSet,
}

impl Model for HeldSet {
    ghost use Rattle.plan_difference.specs.declared.number_sets.NumberSet.{NumberSet};

    ghost Value = { NumberSet };

    ghost view = { λ h. h.set };

    ghost inverse = { λ set. record { set = set } };
}

impl HeldSet {
    ghost use Rattle.std.specs.Prelude.{◌≡◌};

    /// This set.
    pub(crate) fn of(set: &NumberSet) -> HeldSet
        ensures { result ≡ set.now }
    {
        HeldSet { set: *set }
    }
}
