//! The sets that are found.

ghost use Rattle.std.specs.Prelude.{◌≡◌, ◌==◌, [], OnOk, OnErr, length, slice_get, option_map};
ghost use Rattle.std.specs.Map.Iter.{deref_pair};
ghost use Rattle.plan_difference.specs.Entries.{NotedBy, AreOnce, has_set};

use crate::held_sets::HeldSet;
use crate::number_sets::NumberSet;
use gk_terms::Dialled;
use indexmap::IndexMap;
use std::alloc::{AllocError, Global};
use std::marker::Model;

/// Sets of dialled digits, none of them twice, in the order in which they were found, each with some
/// of its digits.
#[derive(Drop)]
pub struct Sets {
    found: IndexMap<HeldSet, Dialled>,
}

impl Model for Sets {
    ghost use Rattle.plan_difference.specs.Entries.{Entries, AreOnce};

    ghost Value = { Entries };

    ghost view = { λ s. s.found.entries };

    ghost invariant = { λ s. AreOnce s.found.entries };
}

impl Sets {
    /// No set.
    pub(crate) fn new(alloc: Global) -> Sets
        ensures { result ≡ [] }
    {
        Sets {
            found: IndexMap::new(alloc),
        }
    }

    /// How many there are.
    pub fn len(&self) -> usize
        ensures count { result ≡ length self.now }
        ensures once { AreOnce self.now }
    {
        self.found.len()
    }

    /// Whether there is none.
    pub fn is_empty(&self) -> bool
        ensures { result ≡ (length self.now == 0) }
    {
        self.found.is_empty()
    }

    /// The set at a place, counted from 0, and some digits that are in it.
    pub fn get(&self, place: usize) -> Option<(&NumberSet, &Dialled)>
        ensures { option_map deref_pair result ≡ slice_get self.now place }
    {
        let (held, digits) = self.found.get_index(place)?;
        Some((held.set(), digits))
    }

    /// Whether a set is there.
    pub fn has(&self, set: &NumberSet) -> bool
        ensures { result ≡ has_set self.now set.now }
    {
        self.found.contains_key(&HeldSet::of(set))
    }

    /// Adds a set, of which these digits are some, unless it is there.
    pub(crate) fn note(&mut self, set: &NumberSet, digits: &Dialled) -> Result<(), AllocError>
        ensures { OnOk result (NotedBy self.old self.new set.now digits.now) }
    {
        note(&mut self.found, set, digits)
    }
}

/// Adds a set, of which these digits are some, unless it is there.
fn note(
    found: &mut IndexMap<HeldSet, Dialled>,
    set: &NumberSet,
    digits: &Dialled,
) -> Result<(), AllocError>
    ensures noted { OnOk result (NotedBy found.old.entries found.new.entries set.now digits.now) }
    ensures unchanged { OnErr result (found.new.entries ≡ found.old.entries) }
{
    let held = HeldSet::of(set);
    if found.contains_key(&held) {
        return Ok(());
    }
    found.insert(held, *digits)?;
    Ok(())
}
