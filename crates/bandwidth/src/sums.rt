//! The running sums: the calls of each owner, the bandwidth in each zone, and that of all calls to
//! and from other gatekeepers.

ghost use Rattle.std.specs.Prelude.{◌≡◌, ◌<◌, ◌≤◌, [], true, None, nat_lt, IsOk, OnOk};
ghost use Rattle.std.specs.HashMap.{spare};
ghost use Rattle.bandwidth.specs.Use.{touches};
ghost use Rattle.bandwidth.specs.Sums.{AllCounted, AllUsed, AreBare, CountsPass, MayPass, UsesPass, count_at, count_found, remote_after, use_at, use_found};

use crate::open_call::OpenCall;
use crate::step::Step;
use crate::zone_uses::{self, ZoneUse};
use crate::{named, owner_counts};
use gk_terms::Name;
use std::alloc::{AllocError, Global};
use std::collections::HashMap;

/// What is kept of the open calls, so that no request adds them up.
#[derive(Drop)]
pub struct Sums {
    /// How many calls each owner has. An entry may stay at 0; see `zones`.
    pub owners: HashMap<Name, usize>,
    /// For each zone how many calls touch it, and their sums. An entry may stay when none does, for
    /// the next call. Such entries go when the map would otherwise have to grow, so that the names
    /// of zones that have gone do not pile up.
    pub zones: HashMap<Name, ZoneUse>,
    /// The sum of the calls to and from other gatekeepers, in units of 100 bit/s.
    pub remote: u64,
}

impl Sums {
    /// The sums of no calls. Takes no memory.
    pub fn new(alloc: Global) -> Sums
        ensures owners { result.owners.entries ≡ [] }
        ensures zones { result.zones.entries ≡ [] }
        ensures remote { result.remote ≡ 0 }
    {
        Sums {
            owners: HashMap::new(alloc),
            zones: HashMap::new(alloc),
            remote: 0,
        }
    }

    /// Whether any counted call belongs to the endpoint with this ID.
    pub fn counts_owner(&self, id: &Name) -> bool
        ensures { result ≡ nat_lt 0 (count_at self.now.owners.entries id.now) }
    {
        match self.owners.get(id) {
            Some(count) => *count > 0,
            None => false,
        }
    }

    /// What is used of the zone.
    pub fn in_zone(&self, zone: &Name) -> ZoneUse
        ensures { result ≡ use_at self.now.zones.entries zone.now }
    {
        zone_uses::use_at(&self.zones, zone)
    }

    /// Makes room for a call more, whose owner and two zones may be new. If it is not there,
    /// the entries without calls go. If memory runs out there may be no room. No sum changes.
    /// At an error of the owners' map the zones' map is not looked at.
    pub fn reserve(&mut self) -> Result<(), AllocError>
        requires { AreBare self.old.zones.entries }
        ensures owners { (id : _) → count_at self.new.owners.entries id
            ≡ count_at self.old.owners.entries id }
        ensures zones { (zone : _) → use_at self.new.zones.entries zone
            ≡ use_at self.old.zones.entries zone }
        ensures owners_kept { 1 ≤ spare self.old.owners → (id : _)
            → count_found self.new.owners.entries id ≡ count_found self.old.owners.entries id }
        ensures zones_kept { 2 ≤ spare self.old.zones → (zone : _)
            → use_found self.new.zones.entries zone ≡ use_found self.old.zones.entries zone }
        ensures owners_left { spare self.old.owners < 1 → AllCounted self.new.owners.entries }
        ensures zones_left { OnOk result (spare self.old.zones < 2
            → AllUsed self.new.zones.entries) }
        ensures remote { self.new.remote ≡ self.old.remote }
        ensures owners_room { OnOk result (1 ≤ spare self.new.owners) }
        ensures zones_room { OnOk result (2 ≤ spare self.new.zones) }
        ensures succeeds { 1 ≤ spare self.old.owners → 2 ≤ spare self.old.zones → IsOk result }
    {
        named::reserve(&mut self.owners, 1)?;
        named::reserve(&mut self.zones, 2)
    }

    /// Takes the step in each sum in which the call counts. Takes no memory: the maps need room for
    /// what has no entry.
    pub fn pass(&mut self, call: &OpenCall, step: &Step)
        requires sums { MayPass self.old.owners.entries self.old.zones.entries self.old.remote
            call.now step.now }
        requires owners_room { count_found self.old.owners.entries call.now.owner ≡ None
            → 1 ≤ spare self.old.owners }
        requires zones_room { (zone : _) → touches zone call.now ≡ true
            → use_found self.old.zones.entries zone ≡ None → 2 ≤ spare self.old.zones }
        ensures owners { CountsPass call.now step.now self.old.owners.entries
            self.new.owners.entries }
        ensures zones { UsesPass call.now step.now self.old.zones.entries self.new.zones.entries }
        ensures remote { self.new.remote ≡ remote_after call.now step.now self.old.remote }
    {
        owner_counts::pass(&mut self.owners, call, step);
        zone_uses::pass(&mut self.zones, call, step);
        if call.remote {
            self.remote = step.sum_after(self.remote);
        }
    }
}
