//! How many open calls each endpoint owns.

ghost use Rattle.std.specs.Prelude.{◌≡◌, ◌<◌, ◌≤◌, None, nat_lt};
ghost use Rattle.std.specs.HashMap.{spare};
ghost use Rattle.bandwidth.specs.Sums.{CountsPass, MayCount, count_at, count_found};

use crate::named::{self, Tally};
use crate::open_call::OpenCall;
use crate::step::Step;
use gk_terms::Name;
use std::collections::HashMap;

impl Tally for usize {
    ghost has_calls = { nat_lt 0 };

    fn has_calls(&self) -> bool {
        *self > 0
    }
}

/// Takes the step for the call's owner. Takes no memory: the map needs room for an owner that has
/// no entry.
pub fn pass(owners: &mut HashMap<Name, usize>, call: &OpenCall, step: &Step)
    requires count { MayCount step.now (count_at owners.old.entries call.now.owner) }
    requires room { count_found owners.old.entries call.now.owner ≡ None → 1 ≤ spare owners.old }
    ensures { CountsPass call.now step.now owners.old.entries owners.new.entries }
{
    if step.before.is_some() && step.after.is_some() {
        // The call stays open, so it counts as before.
        return;
    }
    match owners.get_mut(&call.owner) {
        Some(count) => *count = step.count_after(*count),
        None => named::put(owners, call.owner, step.count_after(0)),
    }
}
