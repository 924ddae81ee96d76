//! Endpoints in order of registration, found by ID and by number.

ghost use Rattle.std.specs.Prelude.{◌≡◌, ◌<◌, ◌≤◌, ◌+◌, ◌^◌, [], None, Some, length, OnOk, OnErr, IfOk, IfErr, IsOk, IsSome, MatchOption, bytes_eq, is_some, ◌==◌, if◌then◌else◌};
ghost use Rattle.std.specs.Option.{option_copied};
ghost use Rattle.std.specs.Ordering.{nat_cmp};
ghost use Rattle.std.specs.List.{IsDistinct};
ghost use Rattle.std.specs.List.Sorted.{IsStrictlySortedBy};
ghost use Rattle.std.specs.Map.{keys_of, values_of};
ghost use Rattle.registry.specs.NumberedEndpoints.{IsNextFrom, IsNumberFor, IsPut, IsTakenOut, IsSetAt, NoneFrom, at_number, by_id, kept_endpoint_of};

use crate::endpoint_number::EndpointNumber;
use crate::endpoints::Endpoint;
use crate::held_endpoint::{HeldEndpoint, endpoint_in};
use gk_terms::Name;
use std::alloc::Global;
use std::collections::btree_map::Values;
use std::collections::{BTreeMap, HashMap};
use std::marker::Model;

/// Endpoints in order of registration, each under a number. An endpoint keeps its number for as
/// long as its ID is there. A contract sees the endpoints by number, and the next number.
#[derive(Drop)]
pub struct NumberedEndpoints {
    endpoints: BTreeMap<EndpointNumber, HeldEndpoint>,
    numbers: HashMap<Name, u32>,
    next: u32,
}

impl Model for NumberedEndpoints {
    ghost use Rattle.registry.specs.NumberedEndpoints.{NumberedParts, IsNumbered};

    ghost Value = { NumberedParts };

    ghost view = { λ r. record { entries = r.endpoints.entries; next = r.next } };

    ghost invariant = { λ r. IsNumbered r.endpoints.entries r.numbers.entries r.next };
}

impl NumberedEndpoints {
    /// No endpoints.
    pub fn new(alloc: Global) -> NumberedEndpoints
        ensures { result ≡ record { entries = []; next = 0 } }
    {
        NumberedEndpoints {
            endpoints: BTreeMap::new(alloc),
            numbers: HashMap::new(alloc),
            next: 0,
        }
    }

    /// The number of endpoints.
    pub fn len(&self) -> usize
        ensures value { result ≡ length self.now.entries }
        ensures distinct { IsDistinct bytes_eq (keys_of (by_id self.now.entries)) }
    {
        self.endpoints.len()
    }

    /// The next number: each number in use is less.
    pub fn next(&self) -> u32
        ensures value { result ≡ self.now.next }
        ensures below { (number : _) (e : _) → at_number self.now.entries number ≡ Some e
            → number < self.now.next }
        ensures sorted { IsStrictlySortedBy nat_cmp (keys_of self.now.entries) }
    {
        self.next
    }

    /// The number of this ID, or the next one if no endpoint has the ID.
    pub fn number_for(&self, id: &Name) -> u32
        ensures number { IsNumberFor self.now id.now result }
        ensures within { result ≤ self.now.next }
        ensures kept { kept_endpoint_of (by_id self.now.entries) id.now
            ≡ at_number self.now.entries result }
    {
        match self.numbers.get(id) {
            Some(number) => *number,
            None => self.next,
        }
    }

    /// The number of this ID.
    pub fn number(&self, id: &Name) -> Option<u32>
        ensures { MatchOption result (kept_endpoint_of (by_id self.now.entries) id.now ≡ None)
            (λ number. (IsNumberFor self.now id.now number)
            × (kept_endpoint_of (by_id self.now.entries) id.now
            ≡ at_number self.now.entries number)) }
    {
        self.numbers.get(id).copied()
    }

    /// Whether an endpoint has this ID.
    pub fn has(&self, id: &Name) -> bool
        ensures { result ≡ is_some (kept_endpoint_of (by_id self.now.entries) id.now) }
    {
        self.numbers.contains_key(id)
    }

    /// The endpoint with this ID.
    pub fn get(&self, id: &Name) -> Option<&Endpoint>
        ensures { option_copied result ≡ kept_endpoint_of (by_id self.now.entries) id.now }
    {
        let number = *self.numbers.get(id)?;
        endpoint_in(self.endpoints.get(&EndpointNumber { number }))
    }

    /// The endpoint of this number.
    pub fn at_number(&self, number: u32) -> Option<&Endpoint>
        ensures { option_copied result ≡ at_number self.now.entries number }
    {
        endpoint_in(self.endpoints.get(&EndpointNumber { number }))
    }

    /// The endpoint of the least number from this one on, with that number.
    pub fn next_from(&self, from: u32) -> Option<(u32, &Endpoint)>
        ensures next { MatchOption result (NoneFrom self.now.entries from)
            (λ found. IsNextFrom self.now from found.0 found.1.now) }
        ensures sorted { IsStrictlySortedBy nat_cmp (keys_of self.now.entries) }
    {
        // So it is known that no number in use is the greatest u32.
        let _next = self.next;
        let from = EndpointNumber { number: from };
        let (number, held) = self.endpoints.range(from..).next()?;
        Some((number.number, held.endpoint()))
    }

    /// The endpoints, in order.
    pub fn endpoints(&self) -> Values<'_, EndpointNumber, HeldEndpoint>
        ensures value { result ≡ values_of self.now.entries }
        ensures fits { length self.now.entries < 2 ^ 63 }
    {
        self.endpoints.values()
    }

    /// Puts the endpoint under the number for its ID, in the place of the one that has that ID,
    /// which it gives. If memory runs out it gives the endpoint itself, and nothing has changed; it
    /// never does if there is an endpoint of that ID.
    pub fn insert(
        &mut self,
        number: u32,
        held: HeldEndpoint,
        id: &Name,
    ) -> Result<Option<HeldEndpoint>, HeldEndpoint>
        requires number { IsNumberFor self.old held.id number }
        requires room { number + 1 < 2 ^ 32 }
        requires own { id.now ≡ held.id }
        ensures ok { OnOk result (IsPut (by_id self.old.entries) (by_id self.new.entries) held) }
        ensures placed { OnOk result
            (IsSetAt self.old.entries self.new.entries number (Some held)) }
        ensures replaced { IfOk result (λ replaced. replaced ≡ at_number self.old.entries number) }
        ensures sorted { OnOk result (IsStrictlySortedBy nat_cmp (keys_of self.new.entries)) }
        ensures next { self.new.next ≤ self.old.next + 1 }
        ensures err { OnErr result (self.new ≡ self.old) }
        ensures back { IfErr result (λ back. back ≡ held) }
        ensures again { IsSome (at_number self.old.entries number) → IsOk result }
    {
        let more = more_numbers(number, self.next);
        if self.numbers.reserve(more).is_err() {
            return Err(held);
        }
        match self.endpoints.insert(EndpointNumber { number }, held) {
            Ok(replaced) => {
                if number == self.next {
                    let numbered: Result<_, _> = self.numbers.insert(*id, number);
                    let _ = numbered.unwrap();
                    self.next = number + 1;
                }
                Ok(replaced)
            }
            Err(failed) => Err(failed.value.1),
        }
    }

    /// Takes out the endpoint with this ID, if there is one. Takes no memory.
    pub fn remove(&mut self, id: &Name) -> Option<HeldEndpoint>
        ensures removed { result ≡ kept_endpoint_of (by_id self.old.entries) id.now }
        ensures entries { IsTakenOut (by_id self.old.entries) (by_id self.new.entries) id.now }
        ensures numbered { (number : _) → IsNumberFor self.old id.now number
            → IsSetAt self.old.entries self.new.entries number None }
        ensures sorted { IsStrictlySortedBy nat_cmp (keys_of self.new.entries) }
        ensures next { self.new.next ≡ self.old.next }
    {
        let number = self.numbers.remove(id)?;
        self.endpoints.remove(&EndpointNumber { number })
    }
}

/// For how many further IDs the endpoint of this number needs a place: for one if its number is
/// the next one.
fn more_numbers(number: u32, next: u32) -> usize
    ensures { result ≡ (if number == next then 1 else 0) }
{
    if number == next { 1 } else { 0 }
}
