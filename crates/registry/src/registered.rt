//! The registered endpoints: in order of registration, found by ID, by alias and by what gateways
//! serve.

ghost use Rattle.std.specs.Prelude.{◌≡◌, ◌<◌, ◌≤◌, ◌+◌, ◌^◌, [], None, true, false, length, slice_get, OnOk, OnErr, IfOk, MatchOption, bytes_eq};
ghost use Rattle.std.specs.Option.{option_copied};
ghost use Rattle.std.specs.Ordering.{nat_cmp};
ghost use Rattle.std.specs.List.{list_any};
ghost use Rattle.std.specs.List.Sorted.{IsStrictlySortedBy};
ghost use Rattle.std.specs.Map.{keys_of};
ghost use Rattle.std.specs.HashMap.{spare};
ghost use Rattle.compiler.specs.Priority.{named_priority};
ghost use Rattle.compiler.specs.Technology.{longest_learned};
ghost use Rattle.registry.specs.Learned.{learned_prefixes};
ghost use Rattle.registry.specs.Registration.{HaveDifferentIds, ShareNoAlias, endpoint_of, by_alias, is_registered, id_is_taken, alias_is_taken, with_endpoint, without_endpoint};
ghost use Rattle.registry.specs.RegistryIndex.{Forgets, IsNextServing, LeadTo, NoneServes, aliases_of, is_of_another, owner_of};
ghost use Rattle.registry.specs.Gateway.{gateway_by};
ghost use Rattle.registry.specs.NumberedEndpoints.{IsNextFrom, IsNumberFor, IsSetAt, NoneFrom, at_number, by_id, endpoints_of, kept_endpoint_of};

use crate::endpoints::Endpoint;
use crate::held_endpoint::{HeldEndpoint, endpoint_in};
use crate::numbered_endpoints::NumberedEndpoints;
use crate::served::Served;
use crate::{changes, choosing};
use compiler::Tables;
use gk_terms::{Dialled, Name, TechPrefix};
use indexmap::IndexMap;
use std::alloc::{AllocError, Global};
use std::collections::HashMap;
use std::marker::Model;

/// Endpoints in order of registration, each under a number, with the places that the gateways among
/// them serve and the number to which each E.164 alias leads. A contract sees the endpoints by
/// number, and the next number.
#[derive(Drop)]
pub struct Endpoints {
    by_number: NumberedEndpoints,
    serving: Served,
    alias_numbers: HashMap<Dialled, u32>,
}

impl Model for Endpoints {
    ghost use Rattle.registry.specs.RegistryIndex.{AreServed, IsIndexed};
    ghost use Rattle.registry.specs.NumberedEndpoints.{NumberedParts};

    ghost Value = { NumberedParts };

    ghost view = { λ e. e.by_number };

    ghost invariant = { λ e. IsIndexed e.by_number.entries e.alias_numbers.entries
        × AreServed e.serving e.by_number.entries };
}

impl Endpoints {
    /// No endpoints.
    pub fn new(alloc: Global) -> Endpoints
        ensures { result ≡ record { entries = []; next = 0 } }
    {
        Endpoints {
            by_number: NumberedEndpoints::new(alloc),
            serving: Served::new(alloc),
            alias_numbers: HashMap::new(alloc),
        }
    }

    /// The number of endpoints.
    pub fn len(&self) -> usize
        ensures value { result ≡ length (endpoints_of self.now) }
        ensures different { HaveDifferentIds (endpoints_of self.now) }
        ensures unshared { ShareNoAlias (endpoints_of self.now) }
    {
        self.by_number.len()
    }

    /// Whether no number is left for one more endpoint.
    fn is_used_up(&self) -> bool
        ensures left { (result ≡ false) → self.now.next + 1 < 2 ^ 32 }
        ensures none { (result ≡ true) → 2 ^ 32 ≤ self.now.next + 1 }
    {
        self.by_number.next() == u32::MAX
    }

    /// The endpoint at this place in the order of registration, from 0. Goes over those before it.
    pub fn at(&self, place: usize) -> Option<&Endpoint>
        ensures { option_copied result ≡ slice_get (endpoints_of self.now) place }
    {
        endpoint_in(self.by_number.endpoints().nth(place))
    }

    /// The endpoint with this ID.
    pub fn endpoint(&self, id: &Name) -> Option<&Endpoint>
        ensures { option_copied result ≡ endpoint_of (endpoints_of self.now) id.now }
    {
        self.by_number.get(id)
    }

    /// Whether an endpoint has this ID.
    pub fn is_registered(&self, id: &Name) -> bool
        ensures { result ≡ is_registered (endpoints_of self.now) id.now }
    {
        self.by_number.has(id)
    }

    /// The next number: each number in use is less.
    pub fn next(&self) -> u32
        ensures value { result ≡ self.now.next }
        ensures below { (number : _) (e : _) → at_number self.now.entries number ≡ Some e
            → number < self.now.next }
        ensures sorted { IsStrictlySortedBy nat_cmp (keys_of self.now.entries) }
    {
        self.by_number.next()
    }

    /// The endpoint of this number.
    pub fn at_number(&self, number: u32) -> Option<&Endpoint>
        ensures { option_copied result ≡ at_number self.now.entries number }
    {
        self.by_number.at_number(number)
    }

    /// The number of this ID.
    pub fn number(&self, id: &Name) -> Option<u32>
        ensures { MatchOption result (kept_endpoint_of (by_id self.now.entries) id.now ≡ None)
            (λ number. (IsNumberFor self.now id.now number)
            × (kept_endpoint_of (by_id self.now.entries) id.now
            ≡ at_number self.now.entries number)) }
    {
        self.by_number.number(id)
    }

    /// The least number, from this one on, of a gateway that serves the zone with the prefix.
    pub fn next_serving(&self, zone: &Name, prefix: &TechPrefix, from: u32) -> Option<u32>
        ensures { MatchOption result
            (NoneServes self.now.entries zone.now prefix.now from)
            (IsNextServing self.now.entries zone.now prefix.now from) }
    {
        self.serving.next_from(zone, prefix, from)
    }

    /// The endpoint of the least number from this one on, with that number.
    pub fn next_from(&self, from: u32) -> Option<(u32, &Endpoint)>
        ensures next { MatchOption result (NoneFrom self.now.entries from)
            (λ found. IsNextFrom self.now from found.0 found.1.now) }
        ensures sorted { IsStrictlySortedBy nat_cmp (keys_of self.now.entries) }
    {
        self.by_number.next_from(from)
    }

    #[tactic(auto, using(crate::proofs::OwnerLemmas::owner_in_zone))]
    /// The endpoint of that zone with that E.164 alias.
    pub fn by_alias(&self, zone: &Name, number: &Dialled) -> Option<&Endpoint>
        ensures { option_copied result ≡ by_alias (endpoints_of self.now) zone.now number.now }
    {
        let endpoint = self.owner(number)?;
        if *endpoint.zone() == *zone {
            Some(endpoint)
        } else {
            None
        }
    }

    /// The gateway that is chosen for the zone and the prefix by these priorities: the greatest one
    /// above 0, and of equal ones the gateway that registered first. One that is not named has the
    /// default priority. The time grows with the number of those that are named, and not with that
    /// of the endpoints.
    pub fn chosen(
        &self,
        zone: &Name,
        prefix: &TechPrefix,
        named: &IndexMap<Name, u8>,
    ) -> Option<&Endpoint>
        ensures { option_copied result ≡ gateway_by (named_priority named.now.entries)
            (endpoints_of self.now) zone.now prefix.now }
    {
        choosing::chosen(self, zone, prefix, named)
    }

    /// The longest technology prefix with which the text begins, of those of gateways whose zone is
    /// a local one of these tables that have more than `least` characters.
    pub fn learned(&self, tables: &Tables, text: &[u8], least: usize) -> Option<TechPrefix>
        ensures { result ≡ longest_learned
            (learned_prefixes tables.now.commands (endpoints_of self.now)) text.now least }
    {
        self.serving.longest_local(tables, text, least)
    }

    /// Whether the endpoint's ID is registered from another address.
    pub fn id_is_taken(&self, endpoint: &Endpoint) -> bool
        ensures { result ≡ id_is_taken (endpoints_of self.now) endpoint.now }
    {
        match self.by_number.get(endpoint.id()) {
            Some(other) => other.address() != endpoint.address(),
            None => false,
        }
    }

    #[tactic(auto, using(crate::proofs::OwnerLemmas::aliases_taken))]
    /// Whether one of the endpoint's aliases is another endpoint's, in whatever zone.
    pub fn alias_is_taken(&self, endpoint: &Endpoint) -> bool
        ensures { result ≡ alias_is_taken (endpoints_of self.now) endpoint.now }
    {
        self.is_any_of_another(endpoint.aliases(), endpoint.id())
    }

    /// Puts a copy of the endpoint in this zone in the place of the one with its ID, or else at the
    /// end. None of its aliases may be another endpoint's; `alias_is_taken` tests that. If memory
    /// runs out, the endpoints stay as they are. The time does not grow with their number, except
    /// that once in about 4,000,000,000 calls each gets a new number.
    pub fn put(&mut self, endpoint: &Endpoint, zone: &Name, alloc: Global) -> Result<(), AllocError>
        requires free { alias_is_taken (endpoints_of self.old) endpoint.now ≡ false }
        requires few { length (endpoints_of self.old) < 2 ^ 32 }
        ensures ok { OnOk result (endpoints_of self.new
            ≡ with_endpoint (endpoints_of self.old) (record endpoint.now { zone = zone.now })) }
        ensures err { OnErr result (endpoints_of self.new ≡ endpoints_of self.old) }
    {
        self.leave_a_number(alloc)?;
        self.put_numbered(endpoint, zone, alloc)
    }

    /// Leaves a number for one more endpoint: if none is left, each endpoint gets a new number.
    /// Memory may run out only then.
    fn leave_a_number(&mut self, alloc: Global) -> Result<(), AllocError>
        requires few { length (endpoints_of self.old) < 2 ^ 32 }
        ensures same { endpoints_of self.new ≡ endpoints_of self.old }
        ensures still { self.old.next + 1 < 2 ^ 32 → self.new ≡ self.old }
        ensures ok { OnOk result (self.new.next + 1 < 2 ^ 32) }
        ensures err { OnErr result (2 ^ 32 ≤ self.old.next + 1) }
    {
        if !self.is_used_up() {
            return Ok(());
        }
        *self = self.copy(alloc)?;
        if self.is_used_up() {
            return Err(AllocError);
        }
        Ok(())
    }

    /// The same while a number is left; `is_used_up` tests that. If memory runs out, the endpoints
    /// stay as they are.
    fn put_numbered(
        &mut self,
        endpoint: &Endpoint,
        zone: &Name,
        alloc: Global,
    ) -> Result<(), AllocError>
        requires free { alias_is_taken (endpoints_of self.old) endpoint.now ≡ false }
        requires room { self.old.next + 1 < 2 ^ 32 }
        ensures ok { OnOk result (endpoints_of self.new
            ≡ with_endpoint (endpoints_of self.old) (record endpoint.now { zone = zone.now })) }
        ensures err { OnErr result (endpoints_of self.new ≡ endpoints_of self.old) }
        ensures next { self.new.next ≤ self.old.next + 1 }
    {
        let aliases = endpoint.aliases();
        self.alias_numbers.reserve(aliases.len())?;
        let held = HeldEndpoint::copied(alloc, endpoint, zone)?;
        let (number, replaced) = changes::insert(
            &mut self.by_number,
            &mut self.serving,
            held,
            endpoint.id(),
        )?;
        forget_aliases_of(&mut self.alias_numbers, replaced.as_ref());
        lead(&mut self.alias_numbers, aliases, number);
        Ok(())
    }

    /// Takes out the endpoint with this ID, if there is one. Takes no memory.
    pub fn remove(&mut self, id: &Name) -> Option<HeldEndpoint>
        ensures without { endpoints_of self.new
            ≡ without_endpoint (endpoints_of self.old) id.now }
        ensures removed { result ≡ endpoint_of (endpoints_of self.old) id.now }
        ensures numbered { (number : _) → IsNumberFor self.old id.now number
            → IsSetAt self.old.entries self.new.entries number None }
        ensures next { self.new.next ≡ self.old.next }
    {
        let removed = changes::remove(&mut self.by_number, &mut self.serving, id);
        forget_aliases_of(&mut self.alias_numbers, removed.as_ref());
        removed
    }

    /// The same endpoints in the same order, under new numbers from 0 on.
    pub fn copy(&self, alloc: Global) -> Result<Endpoints, AllocError>
        requires few { length (endpoints_of self.now) < 2 ^ 32 }
        ensures { IfOk result (λ copy. endpoints_of copy ≡ endpoints_of self.now) }
    {
        let mut copy = Endpoints::new(alloc);
        for held in self.by_number.endpoints() {
            let endpoint = held.endpoint();
            copy.put_numbered(endpoint, endpoint.zone(), alloc)?;
        }
        Ok(copy)
    }

    /// Copies of the endpoints, in order.
    pub fn list(&self, alloc: Global) -> Result<Vec<Endpoint>, AllocError>
        ensures { IfOk result (λ list. list.items ≡ endpoints_of self.now) }
    {
        let mut list = Vec::with_capacity(alloc, self.len())?;
        for held in self.by_number.endpoints() {
            list.push(held.endpoint().copy()?)?;
        }
        Ok(list)
    }

    /// These endpoints in the same order, under numbers from 0 on.
    pub fn of(alloc: Global, endpoints: &[Endpoint]) -> Result<Endpoints, AllocError>
        requires different { HaveDifferentIds endpoints.now }
        requires unshared { ShareNoAlias endpoints.now }
        requires few { length endpoints.now < 2 ^ 32 }
        ensures { IfOk result (λ made. endpoints_of made ≡ endpoints.now) }
    {
        let mut made = Endpoints::new(alloc);
        for endpoint in endpoints {
            made.put_numbered(endpoint, endpoint.zone(), alloc)?;
        }
        Ok(made)
    }

    /// The endpoint with this E.164 alias, in whatever zone.
    fn owner(&self, alias: &Dialled) -> Option<&Endpoint>
        ensures found { option_copied result ≡ owner_of (endpoints_of self.now) alias.now }
        ensures unshared { ShareNoAlias (endpoints_of self.now) }
    {
        self.by_number.at_number(*self.alias_numbers.get(alias)?)
    }

    #[tactic(auto, using(crate::proofs::OwnerLemmas::anothers))]
    /// Whether the alias is that of an endpoint with another ID.
    fn is_of_another(&self, alias: &Dialled, id: &Name) -> bool
        ensures { result ≡ is_of_another (endpoints_of self.now) id.now alias.now }
    {
        match self.owner(alias) {
            Some(owner) => *owner.id() != *id,
            None => false,
        }
    }

    /// Whether one of the aliases is that of an endpoint with another ID.
    fn is_any_of_another(&self, aliases: &[Dialled], id: &Name) -> bool
        ensures { result ≡ list_any (is_of_another (endpoints_of self.now) id.now) aliases.now }
    {
        aliases.iter().any(|alias| self.is_of_another(alias, id))
    }
}

/// Takes the aliases of the endpoint, if there is one, out of the map.
fn forget_aliases_of(alias_numbers: &mut HashMap<Dialled, u32>, gone: Option<&HeldEndpoint>)
    ensures forgets { Forgets alias_numbers.old.entries alias_numbers.new.entries
        (aliases_of (option_copied gone.entry)) }
    ensures room { spare alias_numbers.old ≤ spare alias_numbers.new }
{
    if let Some(gone) = gone {
        forget(alias_numbers, gone.endpoint().aliases());
    }
}

/// Takes these aliases out of the map.
fn forget(alias_numbers: &mut HashMap<Dialled, u32>, aliases: &[Dialled])
    ensures forgets { Forgets alias_numbers.old.entries alias_numbers.new.entries aliases.now }
    ensures room { spare alias_numbers.old ≤ spare alias_numbers.new }
{
    for alias in aliases {
        let _ = alias_numbers.remove(alias);
    }
}

/// Makes these aliases lead to this number. The map has room for them.
fn lead(alias_numbers: &mut HashMap<Dialled, u32>, aliases: &[Dialled], number: u32)
    requires room { length aliases.now ≤ spare alias_numbers.old }
    ensures { LeadTo alias_numbers.old.entries alias_numbers.new.entries aliases.now number }
{
    for alias in aliases {
        let inserted: Result<_, _> = alias_numbers.insert(*alias, number);
        let _ = inserted.unwrap();
    }
}
