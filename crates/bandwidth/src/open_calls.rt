//! The open calls: who is found, and what opening, changing and closing a call leaves.

ghost use Rattle.std.specs.Prelude.{◌≡◌, ◌<◌, ◌≤◌, ◌+◌, ◌^◌, [], false, Some, length, IfOk, OnOk, OnErr};
ghost use Rattle.std.specs.Option.{option_copied};
ghost use Rattle.gk_terms.specs.Outcome.{Changes, ChangesUnlessMemory};
ghost use Rattle.bandwidth.specs.declared.faults.CallsFault.TheVariants as faults;
ghost use Rattle.bandwidth.specs.Calls.{AreOpenCalls, call_of, changed_in, closed_in, is_open, opened_in, owns, with_call, without_call};
ghost use Rattle.bandwidth.specs.Sums.{use_of};
ghost use Rattle.bandwidth.specs.Use.{interzone_of, remote_of, total_of};

use crate::call_list::CallList;
use crate::faults::CallsFault;
use crate::open_call::OpenCall;
use crate::step::Step;
use crate::sums::Sums;
use crate::zone_uses::ZoneUse;
use gk_terms::{Name, Units};
use std::alloc::{AllocError, Global};
use std::marker::Model;

/// The open calls in order of number, and how many there may be. `calls` has each call under its
/// number. `sums` has what they add up to: how many calls each owner has, how many touch each zone
/// with their total and their interzone sum, and the sum of those to and from other gatekeepers.
/// Each is changed with the calls and stays equal to what they add up to, so that no request goes
/// over them; the entry of an owner or a zone without calls may stay until its place is needed.
/// There are at most `most` calls, each of 32 bits of bandwidth, so no sum wraps. A contract sees
/// `OpenCallsParts`: the list of the calls, and how many there may be.
#[derive(Drop)]
pub struct OpenCalls {
    calls: CallList,
    sums: Sums,
    most: u32,
}

impl Model for OpenCalls {
    ghost use Rattle.bandwidth.specs.Calls.{OpenCallsParts};
    ghost use Rattle.bandwidth.specs.OpenCalls.{AreKept};

    ghost Value = { OpenCallsParts };

    ghost view = { λ o. record { calls = o.calls; most = o.most } };

    ghost invariant = { λ o. AreKept o.calls o.most o.sums.owners.entries o.sums.zones.entries
        o.sums.remote };
}

impl OpenCalls {
    /// No calls, and how many there may be. Takes no memory.
    pub fn new(alloc: Global, most: u32) -> OpenCalls
        ensures { result ≡ record { calls = []; most = most } }
    {
        OpenCalls {
            calls: CallList::new(alloc),
            sums: Sums::new(alloc),
            most,
        }
    }

    /// The number of open calls.
    pub fn len(&self) -> usize
        ensures value { result ≡ length self.now.calls }
        ensures sound { AreOpenCalls self.now }
    {
        self.calls.len()
    }

    /// The open call with this number.
    pub fn get(&self, number: u32) -> Option<&OpenCall>
        ensures { option_copied result ≡ call_of self.now.calls number }
    {
        self.calls.get(number)
    }

    /// Whether a call with this number is open.
    pub fn is_open(&self, number: u32) -> bool
        ensures { result ≡ is_open self.now.calls number }
    {
        self.calls.has(number)
    }

    /// Whether the endpoint with this ID owns an open call.
    pub fn owns(&self, id: &Name) -> bool
        ensures { result ≡ owns self.now.calls id.now }
    {
        self.sums.counts_owner(id)
    }

    /// The bandwidth of the open calls that touch the zone, each counted once, in units of
    /// 100 bit/s.
    pub fn total(&self, zone: &Name) -> u64
        ensures value { result ≡ total_of self.now.calls zone.now }
        ensures small { result + 2 ^ 32 ≤ 2 ^ 64 }
    {
        self.used(zone).total
    }

    /// The bandwidth of those among them that are between two zones, in units of 100 bit/s.
    pub fn interzone(&self, zone: &Name) -> u64
        ensures value { result ≡ interzone_of self.now.calls zone.now }
        ensures small { result + 2 ^ 32 ≤ 2 ^ 64 }
    {
        self.used(zone).interzone
    }

    /// The bandwidth of the open calls to and from other gatekeepers, in units of 100 bit/s: those
    /// whose target was a remote zone when they were admitted, and those without a source.
    pub fn remote(&self) -> u64
        ensures value { result ≡ remote_of self.now.calls }
        ensures small { result + 2 ^ 32 ≤ 2 ^ 64 }
    {
        // So it is known how many calls there are at most.
        let _most = self.most;
        let _count = self.calls.len();
        self.sums.remote
    }

    /// What the open calls use of the zone.
    pub(crate) fn used(&self, zone: &Name) -> ZoneUse
        ensures value { result ≡ use_of self.now.calls zone.now }
        ensures small_total { result.total + 2 ^ 32 ≤ 2 ^ 64 }
        ensures small_interzone { result.interzone + 2 ^ 32 ≤ 2 ^ 64 }
    {
        // So it is known how many calls there are at most.
        let _most = self.most;
        let _count = self.calls.len();
        self.sums.in_zone(zone)
    }

    /// Opens a call. It is refused as `CallOpen`, if a call of its number is open, and then as
    /// `Full`, if as many calls are open as there may be. If memory runs out it is `NoMemory`.
    /// After an error nothing has changed.
    pub fn open(&mut self, call: OpenCall) -> Result<(), CallsFault>
        ensures { ChangesUnlessMemory faults.NoMemory self.old self.new (opened_in self.old call)
            result }
    {
        if self.calls.has(call.number) {
            return Err(CallsFault::CallOpen);
        }
        if self.most as usize <= self.calls.len() {
            return Err(CallsFault::Full);
        }
        match self.open_fresh(&call) {
            Ok(()) => Ok(()),
            Err(_) => Err(CallsFault::NoMemory),
        }
    }

    /// Gives the call of this number another bandwidth, if it belongs to this ID. It is refused as
    /// `NoCall`, if no call of the number is open, and as `NotYours`, if it is another endpoint's.
    /// After an error nothing has changed. Takes no memory.
    pub fn change(&mut self, number: u32, id: &Name, units: Units) -> Result<(), CallsFault>
        ensures { Changes self.old self.new (changed_in self.old number id.now units) result }
    {
        match self.calls.owned(number, id) {
            Ok(held) => {
                let step = Step {
                    before: Some(held.units),
                    after: Some(units),
                };
                // So it is known that no sum wraps.
                let _units = units.value();
                let _most = self.most;
                let _count = self.calls.len();
                self.sums.pass(held, &step);
                self.calls.change(number, units);
                Ok(())
            }
            Err(fault) => Err(fault),
        }
    }

    /// Closes the call of this number and gives it, if it belongs to this ID. It is refused as
    /// `NoCall`, if no call of the number is open, and as `NotYours`, if it is another endpoint's.
    /// After an error nothing has changed. Takes no memory.
    pub fn close(&mut self, number: u32, id: &Name) -> Result<OpenCall, CallsFault>
        ensures changes { Changes self.old self.new (closed_in self.old number id.now) result }
        ensures given { IfOk result (λ call. call_of self.old.calls number ≡ Some call) }
    {
        let owned = self.calls.owned(number, id);
        match owned {
            Ok(held) => {
                let closed = *held;
                self.take_out(number);
                Ok(closed)
            }
            Err(fault) => Err(fault),
        }
    }

    /// Closes the call of this number, if one is open, whoever owns it. Takes no memory. For a
    /// caller that knows the owner: the call is looked up once, and not copied.
    pub fn take_out(&mut self, number: u32)
        ensures { self.new ≡ record self.old { calls = without_call self.old.calls number } }
    {
        // So it is known that no sum wraps.
        let _most = self.most;
        let _count = self.calls.len();
        let Some(held) = self.calls.take(number) else {
            return;
        };
        let closed = held.call();
        let step = Step {
            before: Some(closed.units),
            after: None,
        };
        self.sums.pass(closed, &step);
    }

    /// Opens a call whose number no open call has, and for which there is room; `is_open` and `len`
    /// test that. If memory runs out nothing has changed. The number is looked up once.
    pub fn open_fresh(&mut self, call: &OpenCall) -> Result<(), AllocError>
        requires fresh { is_open self.old.calls call.now.number ≡ false }
        requires room { length self.old.calls < self.old.most }
        ensures ok { OnOk result
            (self.new ≡ record self.old { calls = with_call self.old.calls call.now }) }
        ensures err { OnErr result (self.new ≡ self.old) }
    {
        let step = Step {
            before: None,
            after: Some(call.units),
        };
        // So it is known that no sum wraps.
        let _units = call.units.value();
        let _most = self.most;
        let _count = self.calls.len();
        self.sums.reserve()?;
        self.calls.insert(call)?;
        self.sums.pass(call, &step);
        Ok(())
    }
}
