//! What open calls use of each zone.

ghost use Rattle.std.specs.Prelude.{◌≡◌, ◌≤◌, ◌+◌, true, None, nat_lt};
ghost use Rattle.std.specs.HashMap.{spare};
ghost use Rattle.bandwidth.specs.Use.{is_interzone, touches};
ghost use Rattle.bandwidth.specs.Sums.{MayUse, UsesPass, UsesPassAt, no_use, use_after, use_at, use_found};

use crate::named::{self, Tally};
use crate::open_call::OpenCall;
use crate::step::Step;
use gk_terms::Name;
use std::collections::HashMap;

/// What the open calls that touch a zone use of it.
#[derive(Clone, Copy)]
pub struct ZoneUse {
    /// How many they are.
    pub calls: usize,
    /// The sum of their bandwidth, in units of 100 bit/s.
    pub total: u64,
    /// The sum of those among them that are between two zones, in the same units.
    pub interzone: u64,
}

impl ZoneUse {
    /// A zone that no call touches.
    fn none() -> ZoneUse
        ensures { result ≡ no_use }
    {
        ZoneUse {
            calls: 0,
            total: 0,
            interzone: 0,
        }
    }

    /// What is used of a zone after the step of a call that touches it, and that is between two
    /// zones or not.
    fn after(self, between: bool, step: &Step) -> ZoneUse
        requires { MayUse between step.now self }
        ensures { result ≡ use_after between step.now self }
    {
        ZoneUse {
            calls: step.count_after(self.calls),
            total: step.sum_after(self.total),
            interzone: if between {
                step.sum_after(self.interzone)
            } else {
                self.interzone
            },
        }
    }
}

impl Tally for ZoneUse {
    ghost has_calls = { λ used. nat_lt 0 used.calls };

    fn has_calls(&self) -> bool {
        self.calls > 0
    }
}

/// What is used of the zone.
pub fn use_at(zones: &HashMap<Name, ZoneUse>, zone: &Name) -> ZoneUse
    ensures { result ≡ use_at zones.now.entries zone.now }
{
    match zones.get(zone) {
        Some(used) => *used,
        None => ZoneUse::none(),
    }
}

/// Takes the step for each zone that the call touches. Takes no memory: the map needs room for the
/// zones that have no entry.
pub fn pass(zones: &mut HashMap<Name, ZoneUse>, call: &OpenCall, step: &Step)
    requires sums { (zone : _) → touches zone call.now ≡ true
        → MayUse (is_interzone call.now) step.now (use_at zones.old.entries zone) }
    requires room { (zone : _) → touches zone call.now ≡ true
        → use_found zones.old.entries zone ≡ None → 2 ≤ spare zones.old }
    ensures { UsesPass call.now step.now zones.old.entries zones.new.entries }
{
    let touched = call.zones_touched();
    let between = call.is_interzone();
    pass_at(zones, touched.first, between, step);
    if let Some(second) = touched.second {
        pass_at(zones, second, between, step);
    }
}

/// Takes the step of a call that is between two zones or not, for one zone. No entry goes.
fn pass_at(zones: &mut HashMap<Name, ZoneUse>, zone: &Name, between: bool, step: &Step)
    requires sums { MayUse between step.now (use_at zones.old.entries zone.now) }
    requires room { use_found zones.old.entries zone.now ≡ None → 1 ≤ spare zones.old }
    ensures zones { UsesPassAt zone.now between step.now zones.old.entries zones.new.entries }
    ensures room { spare zones.old ≤ spare zones.new + 1 }
{
    match zones.get_mut(zone) {
        Some(used) => *used = used.after(between, step),
        None => named::put(zones, *zone, ZoneUse::none().after(between, step)),
    }
}
