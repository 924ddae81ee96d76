//! The machine: the state of a running core, except for the tables in force.

ghost use Rattle.std.specs.Prelude.{◌≡◌, ◌≤◌, ◌+◌, nat_le, false, true, length, OnOk, OnErr};
ghost use Rattle.registry.specs.Registration.{alias_is_taken, is_registered, with_endpoint, without_endpoint, kept_zones};
ghost use Rattle.bandwidth.specs.Calls.{call_of, is_open, with_call, with_changed, without_call};
ghost use Rattle.rulings.specs.State.{bare, idle, under};
ghost use Rattle.rulings.specs.Limits.{are_limits};
ghost use Rattle.rulings.specs.Events.{event_meant};
ghost use Rattle.rulings.specs.Step.{with_effect, with_count};
ghost use Rattle.rulings.specs.Founded.{is_full_of_endpoints, is_owned, IsFounded, IsReloadable, IsUnder, IsFallible, takes_memory};

use crate::calling::{close_in, open_in, resize_in};
use crate::events::LentEvent;
use crate::limits::Limits;
use crate::registering::remove_from;
use crate::rulings::Effect;
use bandwidth::{OpenCall, OpenCalls};
use compiler::Tables;
use gk_terms::{Name, Units, Version};
use registry::{Endpoint, Registry};
use std::alloc::{AllocError, Global};
use std::marker::Model;

/// The version in force, the registered endpoints, the open calls, the number of recorded verdicts
/// and the limits. With the commands of the tables in force, which the record keeps, they are a
/// `State`. The registry takes as many endpoints as the limit allows, and the open calls are as
/// many as the limit allows.
#[derive(Drop)]
pub struct Machine {
    version: Version,
    registry: Registry,
    calls: OpenCalls,
    records: u32,
    limits: Limits,
}

impl Model for Machine {
    ghost use Rattle.std.specs.Prelude.{◌≡◌, ◌≤◌, ◌+◌, true};
    ghost use Rattle.rulings.specs.State.{MachineParts};
    ghost use Rattle.rulings.specs.Limits.{are_limits};

    ghost Value = { MachineParts };

    ghost view = { λ m. record {
      version = m.version;
      endpoints = m.registry.endpoints;
      calls = m.calls.calls;
      records = m.records;
      limits = m.limits;
    } };

    ghost invariant = { λ m. (m.registry.most ≡ m.limits.endpoints)
        × (m.calls.most ≡ m.limits.calls)
        × (are_limits m.limits ≡ true)
        × (m.version ≤ m.limits.reloads + 1) };
}

impl Machine {
    /// Version 1, and nothing registered, open or recorded.
    pub fn new(alloc: Global, limits: Limits) -> Machine
        requires { are_limits limits ≡ true }
        ensures { result ≡ idle limits }
    {
        Machine {
            version: Version::new(1),
            registry: Registry::new(alloc, limits.endpoints),
            calls: OpenCalls::new(alloc, limits.calls),
            records: 0,
            limits,
        }
    }

    // ---- views

    #[tactic(auto, using(crate::proofs::LimitLemmas::few_versions))]
    /// The number of the version in force.
    pub fn version(&self) -> Version
        ensures version { result ≡ self.now.version }
        ensures few { result ≤ 4097 }
    {
        self.version
    }

    /// The number of the version after the one in force.
    pub fn next_version(&self) -> Version
        ensures { result ≡ self.now.version + 1 }
    {
        // At most 4,097 versions come to be, so the number is a u32.
        Version::new(self.version().value() + 1)
    }

    /// The registered endpoints.
    pub fn registry(&self) -> &Registry
        ensures endpoints { result.now.endpoints ≡ self.now.endpoints }
        ensures most { result.now.most ≡ self.now.limits.endpoints }
    {
        &self.registry
    }

    /// The open calls.
    pub fn calls(&self) -> &OpenCalls
        ensures calls { result.now.calls ≡ self.now.calls }
        ensures most { result.now.most ≡ self.now.limits.calls }
    {
        &self.calls
    }

    /// The limits, each within its range.
    pub fn limits(&self) -> Limits
        ensures limits { result ≡ self.now.limits }
        ensures good { are_limits result ≡ true }
    {
        self.limits
    }

    /// How many verdicts were recorded.
    pub fn records(&self) -> u32
        ensures { result ≡ self.now.records }
    {
        self.records
    }

    /// The number of the entry that is recorded next.
    pub fn next_number(&self) -> u32
        requires { 1 + self.now.records ≤ self.now.limits.records }
        ensures { result ≡ self.now.records + 1 }
    {
        // Reading the limit tells the proof that it is a u32, and so that the number is one.
        let _most = self.limits.records;
        self.records + 1
    }

    // ---- effects

    /// Carries out an effect, with these tables in force, and counts what is recorded. If memory
    /// runs out, nothing changes; it never does for a release or a reload.
    pub fn apply(
        &mut self,
        tables: &Tables,
        event: &LentEvent<'_>,
        effect: &Effect,
    ) -> Result<(), AllocError>
        requires founded { IsFounded (under tables.now.commands self.old) (event_meant event.now)
            effect.now }
        requires counted { 1 + self.old.records ≤ self.old.limits.records }
        ensures ok { OnOk result (IsUnder self.new (with_count
            (with_effect (under tables.now.commands self.old) (event_meant event.now)
            effect.now))) }
        ensures err { OnErr result ((self.new ≡ self.old) × IsFallible (event_meant event.now)
            × (takes_memory effect.now ≡ true)) }
    {
        let records = self.next_number();
        self.carry_out(tables, event, effect)?;
        self.records = records;
        Ok(())
    }

    #[tactic(auto, using(crate::proofs::CarryingLemmas::put_under))]
    /// Carries out an effect.
    fn carry_out(
        &mut self,
        tables: &Tables,
        event: &LentEvent<'_>,
        effect: &Effect,
    ) -> Result<(), AllocError>
        requires founded { IsFounded (under tables.now.commands self.old) (event_meant event.now)
            effect.now }
        ensures ok { OnOk result (IsUnder self.new
            (with_effect (under tables.now.commands self.old) (event_meant event.now) effect.now)) }
        ensures err { OnErr result ((self.new ≡ self.old) × IsFallible (event_meant event.now)
            × (takes_memory effect.now ≡ true)) }
    {
        match effect {
            Effect::Nothing => Ok(()),
            Effect::Put { zone } => self.put(tables, event, *zone),
            Effect::Remove { id } => {
                self.remove(id);
                Ok(())
            }
            Effect::Open(call) => self.open(call),
            Effect::Resize { call, id, units } => {
                self.resize(*call, id, *units);
                Ok(())
            }
            Effect::Close { call, id } => {
                self.close(*call, id);
                Ok(())
            }
            Effect::PutInForce => {
                self.put_in_force(event);
                Ok(())
            }
        }
    }

    #[tactic(auto, using(crate::proofs::RegisteringLemmas::not_taken))]
    /// Puts a copy of the endpoint that asks among the endpoints, in this zone.
    fn put(&mut self, tables: &Tables, event: &LentEvent<'_>, zone: Name) -> Result<(), AllocError>
        requires founded { IsFounded (under tables.now.commands self.old) (event_meant event.now)
            (Effect.Put zone) }
        ensures ok { OnOk result (IsUnder self.new
            (with_effect (under tables.now.commands self.old) (event_meant event.now)
            (Effect.Put zone))) }
        ensures err { OnErr result ((self.new ≡ self.old) × IsFallible (event_meant event.now)) }
    {
        match event {
            LentEvent::Register(endpoint) => self.register(endpoint, zone),
            LentEvent::Unregister { .. }
            | LentEvent::Admit { .. }
            | LentEvent::Incoming { .. }
            | LentEvent::Change { .. }
            | LentEvent::Release { .. }
            | LentEvent::Reload(_) => unreachable!(),
        }
    }

    /// Begins the next version, with the tables that are asked for, and lets go of each
    /// endpoint whose zone is not local in them. Open calls stay as they are.
    fn put_in_force(&mut self, event: &LentEvent<'_>)
        requires founded { IsReloadable (bare self.old) (event_meant event.now) }
        ensures { IsUnder self.new
            (with_effect (bare self.old) (event_meant event.now) Effect.PutInForce) }
    {
        match event {
            LentEvent::Reload(tables) => self.begin_version(tables),
            LentEvent::Register(_)
            | LentEvent::Unregister { .. }
            | LentEvent::Admit { .. }
            | LentEvent::Incoming { .. }
            | LentEvent::Change { .. }
            | LentEvent::Release { .. } => unreachable!(),
        }
    }

    /// Begins the next version: these tables.
    fn begin_version(&mut self, tables: &Tables)
        requires { self.old.version ≤ self.old.limits.reloads }
        ensures { self.new ≡ record self.old {
          version = self.old.version + 1;
          endpoints = kept_zones tables.now.commands self.old.endpoints;
        } }
    {
        self.version = self.next_version();
        self.registry.keep_zones(tables);
    }

    /// Registers an endpoint in this zone; no alias of it is another's, and there is room for it.
    fn register(&mut self, endpoint: &Endpoint, zone: Name) -> Result<(), AllocError>
        requires free { alias_is_taken self.old.endpoints endpoint.now ≡ false }
        requires room { is_full_of_endpoints (bare self.old) endpoint.now ≡ false }
        ensures ok { OnOk result (self.new ≡ record self.old {
          endpoints = with_endpoint self.old.endpoints (record endpoint.now { zone = zone });
        }) }
        ensures err { OnErr result (self.new ≡ self.old) }
    {
        self.registry.put(endpoint, zone)
    }

    /// Takes out an endpoint that is registered.
    fn remove(&mut self, id: &Name)
        requires { is_registered self.old.endpoints id.now ≡ true }
        ensures { self.new
            ≡ record self.old { endpoints = without_endpoint self.old.endpoints id.now } }
    {
        remove_from(&mut self.registry, id);
    }

    /// Opens a call whose number is not that of an open call, and for which there is room.
    fn open(&mut self, call: &OpenCall) -> Result<(), AllocError>
        requires closed { is_open self.old.calls call.now.number ≡ false }
        requires room { nat_le self.old.limits.calls (length self.old.calls) ≡ false }
        ensures ok { OnOk result (self.new
            ≡ record self.old { calls = with_call self.old.calls call.now }) }
        ensures err { OnErr result (self.new ≡ self.old) }
    {
        open_in(&mut self.calls, call)
    }

    /// Gives a call of this owner another bandwidth.
    fn resize(&mut self, call: u32, id: &Name, units: Units)
        requires { is_owned id.now (call_of self.old.calls call) ≡ true }
        ensures { self.new
            ≡ record self.old { calls = with_changed self.old.calls call units } }
    {
        resize_in(&mut self.calls, call, id, units);
    }

    /// Closes a call of this owner.
    fn close(&mut self, call: u32, id: &Name)
        requires { is_owned id.now (call_of self.old.calls call) ≡ true }
        ensures { self.new ≡ record self.old { calls = without_call self.old.calls call } }
    {
        close_in(&mut self.calls, call);
    }
}
