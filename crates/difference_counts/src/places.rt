//! At which place a set is.

ghost use Rattle.std.specs.Prelude.{◌≡◌, IfOk, option_map, position};
ghost use Rattle.std.specs.Map.{keys_of};
ghost use Rattle.compiler.specs.Rows.{row_for};
ghost use Rattle.plan_difference.specs.Entries.{same_set};
ghost use Rattle.plan_difference.specs.Sets.{set_of};
ghost use Rattle.difference_counts.specs.Walk.{joint_of, place_of, rest_place};

use crate::held_sets::HeldSet;
use compiler::Tables;
use digit_patterns::Pattern;
use gk_terms::Dialled;
use indexmap::IndexSet;
use plan_difference::{NumberSet, Sets, set_of};
use std::alloc::{AllocError, Global};
use std::marker::Model;

/// The places of some sets.
#[derive(Drop)]
pub(crate) struct Places {
    found: IndexSet<HeldSet>,
}

impl Model for Places {
    ghost use Rattle.std.specs.Prelude.{List};
    ghost use Rattle.plan_difference.specs.declared.number_sets.NumberSet.{NumberSet};

    ghost Value = { List NumberSet };

    ghost view = { λ p. p.found.keys };
}

impl Places {
    /// Those of the sets of a difference.
    pub(crate) fn of(alloc: Global, sets: &Sets) -> Result<Places, AllocError>
        ensures { IfOk result (λ places. places ≡ keys_of sets.now) }
    {
        let mut found = IndexSet::new(alloc);
        for place in 0..sets.len() {
            if let Some((set, _)) = sets.get(place) {
                found.insert(HeldSet::of(set))?;
            }
        }
        Ok(Places { found })
    }

    /// The place of a set, if it is one of them.
    fn place(&self, set: &NumberSet) -> Option<usize>
        ensures { result ≡ position (same_set set.now) self.now }
    {
        self.found.get_index_of(&HeldSet::of(set))
    }

    #[tactic(auto, unfolding(crate::specs::Walk::place_of))]
    /// The place of the set to which the digits belong.
    pub(crate) fn place_of(&self, old: &Tables, new: &Tables, digits: &Dialled) -> Option<usize>
        ensures { result ≡ place_of old.now.commands new.now.commands self.now digits.now }
    {
        self.place(&set_of(old, new, digits))
    }

    #[tactic(auto, unfolding(crate::specs::Walk::rest_place))]
    /// The place of the set to which digits belong that have these after a technology prefix that
    /// both configurations take off.
    pub(crate) fn rest_place(&self, old: &Tables, new: &Tables, rest: &Dialled) -> Option<usize>
        ensures { result ≡ rest_place old.now.commands new.now.commands self.now rest.now }
    {
        self.place(&joint_of(old, new, rest))
    }
}

/// The set to which digits belong that have these after a technology prefix that both
/// configurations take off.
fn joint_of(old: &Tables, new: &Tables, rest: &Dialled) -> NumberSet
    ensures { result ≡ joint_of old.now.commands new.now.commands rest.now }
{
    NumberSet {
        old_technology: None,
        new_technology: None,
        old_row: pattern_for(old, rest),
        new_row: pattern_for(new, rest),
    }
}

/// The zone prefix that matches the digits.
fn pattern_for(tables: &Tables, digits: &Dialled) -> Option<Pattern>
    ensures { result ≡ option_map (λ row. row.0) (row_for tables.now.commands digits.now) }
{
    let row = tables.row(digits, 0)?;
    tables.pattern(row).copied()
}
