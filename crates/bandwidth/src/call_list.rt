//! The open calls by number.

ghost use Rattle.std.specs.Prelude.{◌≡◌, ◌≤◌, ◌*◌, [], false, length, IfErr, OnOk, OnErr};
ghost use Rattle.std.specs.Option.{option_copied};
ghost use Rattle.std.specs.Result.{result_map_both};
ghost use Rattle.bandwidth.specs.Calls.{AreInOrder, call_of, is_open, with_call, with_changed, without_call};
ghost use Rattle.bandwidth.specs.OpenCalls.{owned_in};
ghost use Rattle.bandwidth.specs.Use.{units_of};

use crate::faults::CallsFault;
use crate::held_call::HeldCall;
use crate::open_call::OpenCall;
use gk_terms::{Name, Units};
use std::alloc::{AllocError, Global};
use std::collections::HashMap;
use std::marker::Model;

/// Calls, each under its number in a hash map and in a place of its own. A contract sees them as a
/// list in order of number.
#[derive(Drop)]
pub struct CallList {
    calls: HashMap<u32, HeldCall>,
    alloc: Global,
}

impl Model for CallList {
    ghost use Rattle.std.specs.Prelude.{List};
    ghost use Rattle.std.specs.Map.{values_of};
    ghost use Rattle.bandwidth.specs.declared.open_call.OpenCall.{OpenCall};
    ghost use Rattle.bandwidth.specs.CallList.{IsCallList, by_number};

    ghost Value = { List OpenCall };

    ghost view = { λ l. values_of (by_number l.calls.entries) };

    ghost invariant = { λ l. IsCallList (by_number l.calls.entries) };
}

impl CallList {
    /// No calls. Takes no memory.
    pub fn new(alloc: Global) -> CallList
        ensures { result ≡ [] }
    {
        CallList {
            calls: HashMap::new(alloc),
            alloc,
        }
    }

    /// The number of calls.
    pub fn len(&self) -> usize
        ensures value { result ≡ length self.now }
        ensures ordered { AreInOrder self.now }
        ensures small { units_of self.now ≤ length self.now * 4294967295 }
    {
        self.calls.len()
    }

    /// The call with this number.
    pub fn get(&self, number: u32) -> Option<&OpenCall>
        ensures { option_copied result ≡ call_of self.now number }
    {
        match self.calls.get(&number) {
            Some(held) => Some(held.call()),
            None => None,
        }
    }

    /// The call with this number, if it belongs to this ID. It is refused as `NoCall`, if no call
    /// has the number, and as `NotYours`, if it is another endpoint's.
    pub fn owned(&self, number: u32, id: &Name) -> Result<&OpenCall, CallsFault>
        ensures { result_map_both (λ held. held.now) (λ fault. fault) result
            ≡ owned_in self.now number id.now }
    {
        match self.get(number) {
            Some(held) => {
                if held.owner == *id {
                    Ok(held)
                } else {
                    Err(CallsFault::NotYours)
                }
            }
            None => Err(CallsFault::NoCall),
        }
    }

    /// Whether a call has this number.
    pub fn has(&self, number: u32) -> bool
        ensures { result ≡ is_open self.now number }
    {
        self.calls.contains_key(&number)
    }

    /// Adds a call with a new number. If memory runs out nothing has changed.
    pub fn insert(&mut self, call: &OpenCall) -> Result<(), AllocError>
        requires fresh { is_open self.old call.now.number ≡ false }
        ensures ok { OnOk result (self.new ≡ with_call self.old call.now) }
        ensures err { OnErr result (self.new ≡ self.old) }
    {
        match HeldCall::new(self.alloc, call) {
            Ok(held) => match self.put(held) {
                Ok(_) => Ok(()),
                Err(_) => Err(AllocError),
            },
            Err(error) => Err(error),
        }
    }

    /// Adds a call with a new number, which is in a place of its own; nothing had that number. If
    /// memory runs out it gives the call back, and nothing has changed.
    fn put(&mut self, held: HeldCall) -> Result<Option<HeldCall>, HeldCall>
        requires fresh { is_open self.old held.number ≡ false }
        ensures ok { OnOk result (self.new ≡ with_call self.old held) }
        ensures err { OnErr result (self.new ≡ self.old) }
        ensures back { IfErr result (λ back. back ≡ held) }
    {
        let number = held.call().number;
        // So it is known that it fits 32 bits.
        let _units = held.call().units.value();
        match self.calls.insert(number, held) {
            Ok(replaced) => Ok(replaced),
            Err(failed) => Err(failed.value.1),
        }
    }

    /// Gives the call with this number another bandwidth, if there is one. Takes no memory.
    pub fn change(&mut self, number: u32, units: Units)
        ensures { self.new ≡ with_changed self.old number units }
    {
        // So it is known that it fits 32 bits.
        let _units = units.value();
        if let Some(held) = self.calls.get_mut(&number) {
            held.set_units(units);
        }
    }

    /// Takes out the call with this number and gives it, if there is one. Takes no memory.
    pub fn take(&mut self, number: u32) -> Option<HeldCall>
        ensures taken { result ≡ call_of self.old number }
        ensures left { self.new ≡ without_call self.old number }
    {
        self.calls.remove(&number)
    }
}
