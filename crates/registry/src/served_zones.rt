//! The zones in which gateways serve with one technology prefix.

ghost use Rattle.std.specs.Prelude.{◌≡◌, ◌≤◌, [], true, false, IfOk, OnOk, OnErr, MatchOption};
ghost use Rattle.std.specs.List.{list_any};
ghost use Rattle.std.specs.Map.{keys_of};
ghost use Rattle.gk_commands.specs.Zones.{is_local};
ghost use Rattle.registry.specs.Served.{IsLeastFrom, KeepsOthers, NoneServesIn, PutsIn, SomeServes, found_empty, kept_for, lists_none, serves_in};

use crate::gateway_numbers::GatewayNumbers;
use crate::keeping::is_local;
use compiler::Tables;
use gk_terms::Name;
use std::alloc::{AllocError, Global};
use std::collections::HashMap;
use std::marker::Model;

/// The zones in which gateways serve with one technology prefix: by zone, the numbers of these
/// gateways in order. A zone in which none serves has no entry. A contract sees the entries.
#[derive(Drop)]
pub struct ServedZones {
    numbers: HashMap<Name, GatewayNumbers>,
}

impl Model for ServedZones {
    ghost use Rattle.registry.specs.Served.{HasNoEmpty, ZoneNumbers};

    ghost Value = { ZoneNumbers };

    ghost view = { λ z. z.numbers.entries };

    ghost invariant = { λ z. HasNoEmpty z.numbers.entries };
}

impl ServedZones {
    /// This one gateway in this one zone. `AllocError` comes only if memory runs out.
    pub fn of(zone: &Name, number: u32, alloc: Global) -> Result<ServedZones, AllocError>
        ensures { IfOk result (λ zones. PutsIn [] zones zone.now number true) }
    {
        let mut zones = ServedZones {
            numbers: HashMap::new(alloc),
        };
        zones.add(zone, number, alloc)?;
        Ok(zones)
    }

    /// The least number, from this one on, of a gateway that serves in the zone.
    pub fn next_from(&self, zone: &Name, from: u32) -> Option<u32>
        ensures { MatchOption result
            ((number : _) → from ≤ number → serves_in self.now zone.now number ≡ false)
            (IsLeastFrom (λ number. serves_in self.now zone.now number) from) }
    {
        match self.numbers.get(zone) {
            Some(numbers) => numbers.next_from(from),
            None => None,
        }
    }

    #[tactic(auto, using(crate::proofs::ServedLemmas::some_local, crate::proofs::ServedLemmas::none_local))]
    /// Whether a gateway serves in a zone that is a local one of these tables. Asks zone by zone
    /// until the first local one, which is the first of all in a gatekeeper that takes out the
    /// endpoints of zones that have gone.
    pub fn has_local(&self, tables: &Tables) -> bool
        ensures yes { result ≡ true → SomeServes self.now (is_local tables.now.commands) }
        ensures no { result ≡ false → NoneServesIn self.now (is_local tables.now.commands) }
    {
        any_is_local(&self.numbers, tables)
    }

    /// Whether no gateway serves.
    pub fn is_empty(&self) -> bool
        ensures { result ≡ lists_none self.now }
    {
        self.numbers.is_empty()
    }

    /// Adds a gateway in a zone. If memory runs out nothing has changed.
    pub fn add(&mut self, zone: &Name, number: u32, alloc: Global) -> Result<(), AllocError>
        ensures ok { OnOk result (PutsIn self.old self.new zone.now number true) }
        ensures err { OnErr result (self.new ≡ self.old) }
    {
        if let Some(numbers) = self.numbers.get_mut(zone) {
            return numbers.add(number);
        }
        let first = GatewayNumbers::of(number, alloc)?;
        match self.numbers.insert(*zone, first) {
            Ok(_) => Ok(()),
            Err(_) => Err(AllocError),
        }
    }

    /// Takes out a gateway in a zone, if it is there.
    pub fn take_out(&mut self, zone: &Name, number: u32)
        ensures { PutsIn self.old self.new zone.now number false }
    {
        if is_last_taken(&mut self.numbers, zone, number) {
            drop(self.numbers.remove(zone));
        }
    }
}

/// Whether one of the zones is a local one of these tables.
fn any_is_local(numbers: &HashMap<Name, GatewayNumbers>, tables: &Tables) -> bool
    ensures { result ≡ list_any (is_local tables.now.commands) (keys_of numbers.now.entries) }
{
    numbers.keys().any(|zone| is_local(tables, zone))
}

/// Takes out a gateway in a zone, if it is there. Gives whether no number is left where one was.
fn is_last_taken(numbers: &mut HashMap<Name, GatewayNumbers>, zone: &Name, number: u32) -> bool
    ensures puts { PutsIn numbers.old.entries numbers.new.entries zone.now number false }
    ensures others { KeepsOthers numbers.old.entries numbers.new.entries zone.now }
    ensures empty { result ≡ found_empty (kept_for numbers.new.entries zone.now) }
{
    match numbers.get_mut(zone) {
        Some(numbers) => {
            numbers.take_out(number);
            numbers.is_empty()
        }
        None => false,
    }
}
