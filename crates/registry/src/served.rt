//! Which gateways serve a zone with a technology prefix.

ghost use Rattle.std.specs.Prelude.{◌≡◌, ◌≤◌, ℕ, List, [], length, true, false, Some, OnOk, OnErr, IsOk, IfSome, MatchOption, is_some};
ghost use Rattle.std.specs.Option.{option_copied};
ghost use Rattle.gk_commands.specs.Zones.{is_local};
ghost use Rattle.gk_terms.specs.TechPrefix.{is_tech_prefix};
ghost use Rattle.registry.specs.Gateway.{is_gateway};
ghost use Rattle.registry.specs.NumberedEndpoints.{at_number};
ghost use Rattle.registry.specs.Served.{Puts, AddsPlaces, MayAddPlaces, TakesOut, Enters, MayEnter, KeepsOthers, Leaves, IsLongestServed, IsNext, IsServed, NoneIsServed, serves_at, found_empty, found_serving, kept_for, longest_for};

use crate::endpoints::{Endpoint, EndpointKind};
use crate::held_endpoint::HeldEndpoint;
use crate::numbered_endpoints::NumberedEndpoints;
use crate::served_zones::ServedZones;
use compiler::{Tables, technology_bytes};
use gk_terms::limits::MOST_TECHNOLOGY;
use gk_terms::{Name, TechPrefix};
use std::alloc::{AllocError, Global};
use std::collections::HashMap;
use std::marker::Model;

/// Which gateways serve a zone with a technology prefix: by prefix, the zones in which gateways
/// serve with it, each with their numbers in order. So whatever begins dialled digits is found by
/// its text. A prefix with which no gateway serves has no entry, so nothing stays of what was once
/// served. By a first character, `longest` has a number of characters that no prefix which begins
/// with it passes, so that most digits need no look-up. A contract sees the entries.
#[derive(Drop)]
pub struct Served {
    zones: HashMap<TechPrefix, ServedZones>,
    longest: [u8; 256],
    alloc: Global,
}

impl Model for Served {
    ghost use Rattle.registry.specs.Served.{AreWithin, HasNoEmpty, Places};

    ghost Value = { Places };

    ghost view = { λ s. s.zones.entries };

    ghost invariant = { λ s. HasNoEmpty s.zones.entries × AreWithin s.longest s.zones.entries };
}

impl Served {
    /// No gateways.
    pub fn new(alloc: Global) -> Served
        ensures { result ≡ [] }
    {
        Served {
            zones: HashMap::new(alloc),
            longest: [0; 256],
            alloc,
        }
    }

    /// The least number, from this one on, of a gateway that serves the zone with the prefix.
    pub fn next_from(&self, zone: &Name, prefix: &TechPrefix, from: u32) -> Option<u32>
        ensures { MatchOption result
            ((number : _) → from ≤ number
            → serves_at self.now (zone.now, prefix.now, number) ≡ false)
            (IsNext self.now zone.now prefix.now from) }
    {
        match self.zones.get(prefix) {
            Some(zones) => zones.next_from(zone, from),
            None => None,
        }
    }

    /// The longest prefix with which the text begins and with which a gateway serves in a zone that
    /// is a local one of these tables, of those that have more than `least` characters. Looks up at
    /// most one text for each length up to that of the longest prefix with the same first character
    /// that was ever given.
    pub fn longest_local(&self, tables: &Tables, text: &[u8], least: usize) -> Option<TechPrefix>
        ensures { MatchOption result
            (NoneIsServed self.now (is_local tables.now.commands) text.now least)
            (IsLongestServed self.now (is_local tables.now.commands) text.now least) }
    {
        let longest = longest_for(&self.longest, text);
        let front = &text[..text.len().min(longest)];
        let most = technology_bytes(front).min(MOST_TECHNOLOGY);
        for shorter in 0..most.saturating_sub(least) {
            if let Some(prefix) = self.served_as(tables, &text[..most - shorter]) {
                return Some(prefix);
            }
        }
        None
    }

    /// The text as a prefix, if a gateway serves with it in a local zone.
    fn served_as(&self, tables: &Tables, text: &[u8]) -> Option<TechPrefix>
        requires { is_tech_prefix text.now ≡ true }
        ensures spells { IfSome result (λ prefix. prefix ≡ text.now) }
        ensures served { MatchOption result
            (IsServed self.now (is_local tables.now.commands) text.now → ⊥)
            (λ _. IsServed self.now (is_local tables.now.commands) text.now) }
    {
        let prefix = as_prefix(text)?;
        let zones = self.zones.get(&prefix)?;
        if zones.has_local(tables) {
            Some(prefix)
        } else {
            None
        }
    }

    /// Adds one place.
    fn add(&mut self, zone: &Name, prefix: &TechPrefix, number: u32) -> Result<(), AllocError>
        ensures ok { OnOk result (Puts self.old self.new (zone.now, prefix.now, number) true) }
        ensures err { OnErr result (self.new ≡ self.old) }
    {
        if let Some(zones) = self.zones.get_mut(prefix) {
            return zones.add(zone, number, self.alloc);
        }
        let first = ServedZones::of(zone, number, self.alloc)?;
        match self.zones.insert(*prefix, first) {
            Ok(_) => {
                lengthen(&mut self.longest, prefix);
                Ok(())
            }
            Err(_) => Err(AllocError),
        }
    }

    /// Takes out one place, if it is there.
    fn take_out(&mut self, zone: &Name, prefix: &TechPrefix, number: u32)
        ensures { Puts self.old self.new (zone.now, prefix.now, number) false }
    {
        if is_last_taken(&mut self.zones, zone, prefix, number) {
            drop(self.zones.remove(prefix));
        }
    }

    /// Adds the places of the zone with these prefixes. If memory runs out, some of them may have
    /// been added.
    fn add_each(
        &mut self,
        zone: Name,
        prefixes: &[TechPrefix],
        number: u32,
    ) -> Result<(), AllocError>
        ensures ok { OnOk result (AddsPlaces self.old self.new number zone prefixes.now) }
        ensures err { OnErr result (MayAddPlaces self.old self.new number zone prefixes.now) }
    {
        for prefix in prefixes {
            self.add(&zone, prefix, number)?;
        }
        Ok(())
    }

    /// Takes out the places of the zone with these prefixes that the other endpoint has not.
    fn take_out_each(
        &mut self,
        zone: Name,
        prefixes: &[TechPrefix],
        number: u32,
        kept: Option<&Endpoint>,
    )
        ensures { TakesOut self.old self.new number zone prefixes.now
            (option_copied kept.entry) }
    {
        for prefix in prefixes {
            if !serves(kept, &zone, prefix) {
                self.take_out(&zone, prefix, number);
            }
        }
    }

    /// Adds the places of the endpoint under this number. If memory runs out, some of them may have
    /// been added; for a terminal, which has none, it never does.
    pub fn enter(&mut self, number: u32, held: &HeldEndpoint) -> Result<(), AllocError>
        ensures ok { OnOk result (Enters self.old self.new number held.now) }
        ensures err { OnErr result (MayEnter self.old self.new number held.now) }
        ensures terminal { is_gateway held.now.kind ≡ false → IsOk result }
    {
        self.enter_endpoint(number, held.endpoint())
    }

    /// The same of an endpoint in whatever place.
    fn enter_endpoint(&mut self, number: u32, endpoint: &Endpoint) -> Result<(), AllocError>
        ensures ok { OnOk result (Enters self.old self.new number endpoint.now) }
        ensures err { OnErr result (MayEnter self.old self.new number endpoint.now) }
        ensures terminal { is_gateway endpoint.now.kind ≡ false → IsOk result }
    {
        match endpoint.kind() {
            EndpointKind::Gateway => {
                self.add_each(*endpoint.zone(), endpoint.technologies(), number)
            }
            EndpointKind::Terminal => Ok(()),
        }
    }

    /// Takes out the places of this endpoint under this number, except those that the endpoint of
    /// that number serves too. The endpoints are read only for a gateway.
    pub fn leave(&mut self, number: u32, gone: Option<&HeldEndpoint>, by_number: &NumberedEndpoints)
        ensures { Leaves self.old self.new number (option_copied gone.entry)
            (at_number by_number.now.entries number) }
    {
        if let Some(gone) = gone {
            self.leave_one(number, gone.endpoint(), by_number);
        }
    }

    /// The same of an endpoint that there is.
    fn leave_one(&mut self, number: u32, gone: &Endpoint, by_number: &NumberedEndpoints)
        ensures { Leaves self.old self.new number (Some gone.now)
            (at_number by_number.now.entries number) }
    {
        match gone.kind() {
            EndpointKind::Gateway => {
                let kept = by_number.at_number(number);
                self.take_out_each(*gone.zone(), gone.technologies(), number, kept);
            }
            EndpointKind::Terminal => {}
        }
    }
}

/// How many characters a prefix with the first character of this text may have.
fn longest_for(longest: &[u8; 256], text: &[u8]) -> usize
    ensures { result ≡ longest_for longest.now text.now }
{
    match text {
        [first, ..] => longest[*first as usize] as usize,
        [] => 0,
    }
}

/// Lets a prefix with the first character of this one have as many characters as this one has.
fn lengthen(longest: &mut [u8; 256], prefix: &TechPrefix)
    ensures own { length prefix.now ≤ longest_for longest.new prefix.now }
    ensures others { (other : List ℕ)
        → longest_for longest.old other ≤ longest_for longest.new other }
    ensures text { is_tech_prefix prefix.now ≡ true }
{
    let text = prefix.as_bytes();
    if let [first, ..] = text {
        let place = *first as usize;
        longest[place] = longest[place].max(text.len() as u8);
    }
}

/// The text, which is a prefix, as one.
fn as_prefix(text: &[u8]) -> Option<TechPrefix>
    requires { is_tech_prefix text.now ≡ true }
    ensures { result ≡ Some text.now }
{
    TechPrefix::read(text).ok()
}

/// Takes out one place, if it is there. Gives whether no zone is left where one was.
fn is_last_taken(
    zones: &mut HashMap<TechPrefix, ServedZones>,
    zone: &Name,
    prefix: &TechPrefix,
    number: u32,
) -> bool
    ensures puts { Puts zones.old.entries zones.new.entries (zone.now, prefix.now, number) false }
    ensures others { KeepsOthers zones.old.entries zones.new.entries prefix.now }
    ensures there { is_some (kept_for zones.new.entries prefix.now)
        ≡ is_some (kept_for zones.old.entries prefix.now) }
    ensures empty { result ≡ found_empty (kept_for zones.new.entries prefix.now) }
{
    match zones.get_mut(prefix) {
        Some(zones) => {
            zones.take_out(zone, number);
            zones.is_empty()
        }
        None => false,
    }
}

/// Whether the endpoint, if there is one, is a gateway that serves the zone with the prefix.
pub fn serves(endpoint: Option<&Endpoint>, zone: &Name, prefix: &TechPrefix) -> bool
    ensures { result ≡ found_serving (option_copied endpoint.entry) zone.now prefix.now }
{
    match endpoint {
        Some(endpoint) => {
            endpoint.kind() == EndpointKind::Gateway
                && *endpoint.zone() == *zone
                && endpoint.has_technology(prefix)
        }
        None => false,
    }
}
