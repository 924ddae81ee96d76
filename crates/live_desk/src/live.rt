//! A core that publishes each configuration which it puts in force.

ghost use Rattle.std.specs.Prelude.{◌≡◌, ◌≤◌, ◌↔◌, [], true, false, length, Some, None, IfSome, IfOk, IfErr, IsSome, OnOk};
ghost use Rattle.std.specs.Arc.{arc_value};
ghost use Rattle.std.specs.Option.{option_copied};
ghost use mathlib.Core.List.{IsPrefix};
ghost use Rattle.compiler.specs.Last.{last_in};
ghost use Rattle.compiler.specs.Plan.{plan_of, target_of};
ghost use Rattle.rulings.specs.Events as Events;
ghost use Rattle.rulings.specs.Events.{event_meant, put_in_force};
ghost use Rattle.rulings.specs.State.{opening_of};
ghost use Rattle.rulings.specs.Limits.{are_limits};
ghost use Rattle.decision_record.specs.History.{generations, state_of, Steps};
ghost use Rattle.decision_record.specs.Rows.{rows_of};
ghost use Rattle.admission.specs.Answering.{answered, reply_kept};
ghost use Rattle.live_desk.specs.Seats.{held, unreserved, IsBadCount, IsLawful, IsPlanBehind, IsPut};

use admission::{
    Core, Event, KeptReply, LentEvent, Limits, PastCore, Receipt, Record, ReloadRefusal, Reply,
    Snapshot,
};
use bandwidth::OpenCalls;
use compiler::{Routed, Tables};
use gk_terms::{Dialled, Name, Units, Version};
use publisher::{Blank, Imprint, MOST_PLACES, Publisher, Reader, Told};
use registry::{Endpoint, Registry};
use std::alloc::{AllocError, Global};
use std::marker::Model;
use std::sync::{Arc, Wait};
use thiserror::Error;

/// Why a core that publishes, or a desk, is not opened. They are tried in this order.
#[derive(Clone, Copy, Debug, PartialEq, Eq, Error)]
pub enum OpenFault {
    /// A limit is 0 or above the stated one.
    #[error("bad limits")]
    BadLimits,
    /// The number of seats is not 1 to 32.
    #[error("bad seats")]
    BadSeats,
    /// Memory ran out.
    #[error("no memory")]
    NoMemory,
}

/// A core, and the publisher of its generations. Each call that answers an event is one step of the
/// core. It can't be let go: it ends by `close` or `into_record`. A contract sees the core as it is
/// with no place reserved for a reload, since a place that stays reserved after a publication was
/// refused changes nothing that can be asked.
pub struct Live<J: Imprint> {
    core: Core,
    publisher: Publisher<J>,
}

impl<J: Imprint> Model for Live<J> {
    ghost use Rattle.std.specs.Prelude.{◌≡◌};
    ghost use Rattle.decision_record.specs.History.{CoreParts, generations};
    ghost use Rattle.live_desk.specs.Seats.{unreserved};

    ghost Value = { CoreParts };

    ghost view = { λ l. unreserved l.core };

    ghost invariant = { λ l. l.publisher ≡ generations l.core };
}

impl<J: Imprint> Live<J> {
    /// A core with these tables as version 1, which are published for so many readers, 1 to 32.
    /// `BadLimits` comes exactly if a limit is 0 or above the stated one; else `BadSeats` exactly
    /// for other numbers of readers; and `NoMemory` if memory runs out. This project's profile.
    pub fn new(
        alloc: Global,
        blank: Blank,
        tables: Arc<Tables>,
        limits: Limits,
        places: u32,
    ) -> Result<Live<J>, OpenFault>
        requires { blank ≡ J.book }
        ensures opened { IfOk result (λ live.
            live ≡ held (opening_of (arc_value tables).commands limits) []) }
        ensures good { OnOk result ((are_limits limits ≡ true) × (IsBadCount places → ⊥)) }
        ensures limits { IfErr result (λ fault.
            fault ≡ OpenFault.BadLimits ↔ (are_limits limits ≡ false)) }
        ensures seats { IfErr result (λ fault.
            fault ≡ OpenFault.BadSeats ↔ (are_limits limits ≡ true) × IsBadCount places) }
    {
        if !limits.are_good() {
            return Err(OpenFault::BadLimits);
        }
        if places == 0 {
            return Err(OpenFault::BadSeats);
        }
        if places > MOST_PLACES {
            return Err(OpenFault::BadSeats);
        }
        let copy = match Arc::try_clone(&tables) {
            Ok(copy) => copy,
            Err(_) => return Err(OpenFault::NoMemory),
        };
        // The publisher can't be let go, so nothing that fails comes after it.
        let publisher = match Publisher::<J>::new(alloc, blank, copy, places) {
            Ok(publisher) => publisher,
            Err(_) => return Err(OpenFault::NoMemory),
        };
        match Core::new(alloc, tables, limits) {
            Ok(core) => Ok(Live { core, publisher }),
            Err(_) => unreachable!(),
        }
    }

    // ---- views

    /// The record, as `Core::record`.
    pub fn record(&self) -> &Record
        ensures entries { result.now.entries ≡ self.now.entries }
        ensures begun { result.now.opening ≡ self.now.opening.commands }
        ensures lawful { IsLawful self.now.opening self.now.entries }
    {
        self.core.record()
    }

    #[tactic(auto, using(crate::proofs::Grows::same_state))]
    /// The number of the version in force, 1 to 4,097.
    pub fn version(&self) -> Version
        ensures version { result ≡ (state_of self.now).version }
        ensures generations { result ≡ length (generations self.now) }
        ensures few { result ≤ 4097 }
    {
        self.core.version()
    }

    #[tactic(auto, using(crate::proofs::Grows::same_state))]
    /// The tables in force.
    pub fn tables(&self) -> &Tables
        ensures tables { result.now.commands ≡ (state_of self.now).commands }
        ensures generations { Some result.now.commands ≡ last_in (generations self.now) }
    {
        self.core.tables()
    }

    #[tactic(auto, using(crate::proofs::Grows::same_state))]
    /// The registered endpoints, in order of registration, and how many there may be.
    pub fn registry(&self) -> &Registry
        ensures endpoints { result.now.endpoints ≡ (state_of self.now).endpoints }
        ensures most { result.now.most ≡ (state_of self.now).limits.endpoints }
    {
        self.core.registry()
    }

    #[tactic(auto, using(crate::proofs::Grows::same_state))]
    /// The open calls, in order of number, and how many there may be.
    pub fn calls(&self) -> &OpenCalls
        ensures calls { result.now.calls ≡ (state_of self.now).calls }
        ensures most { result.now.most ≡ (state_of self.now).limits.calls }
    {
        self.core.calls()
    }

    #[tactic(auto, using(crate::proofs::Grows::same_state))]
    /// The rows of the record and the registered endpoints, as `Core::snapshot`.
    pub fn snapshot(&self, alloc: Global) -> Result<Snapshot, AllocError>
        ensures { IfOk result (λ snapshot. snapshot ≡ record {
          rows = rows_of self.now.opening self.now.entries;
          endpoints = (state_of self.now).endpoints;
        }) }
    {
        self.core.snapshot(alloc)
    }

    /// The core as it is now, as `Core::past`.
    pub(crate) fn past(&self) -> Result<PastCore, AllocError>
        ensures { IfOk result (λ past. unreserved past ≡ self.now) }
    {
        self.core.past()
    }

    #[tactic(auto, using(crate::proofs::Grows::same_state))]
    /// What the tables in force say of the digits, under the version in force.
    pub fn route_here(&self, digits: &Dialled) -> Routed
        ensures version { result.version ≡ (state_of self.now).version }
        ensures dialled { result.dialled ≡ digits.now }
        ensures plan { target_of (state_of self.now).commands result.plan
            ≡ Some (plan_of (state_of self.now).commands digits.now) }
    {
        self.core.route_here(digits)
    }

    // ---- readers

    /// A reader of the generations, which has read none. None if each place is taken, or if the
    /// table of places finds none for a reason of its own.
    pub fn reader(&mut self) -> Option<Reader<J>>
        ensures same { self.new ≡ self.old }
        ensures reader { IfSome result (λ reader. IsPrefix reader.list (generations self.old)) }
    {
        match self.publisher.reader() {
            Ok(reader) => Some(reader),
            Err(_) => None,
        }
    }

    /// What its readers learn, to read the version in force or a later one.
    pub fn tell(&mut self) -> Told<J>
        ensures told { result ≡ generations self.old }
        ensures same { self.new ≡ self.old }
    {
        self.publisher.tell()
    }

    // ---- events

    #[tactic(auto, using(crate::proofs::Grows::steps_shown, crate::proofs::Grows::stays))]
    /// Registers an endpoint. Ok and Err of this call and of those after it are as of
    /// `Core::answer`.
    pub fn register(&mut self, endpoint: Endpoint) -> Result<(Reply, Receipt), Reply>
        ensures step { Steps self.old (Events.Registering endpoint) result self.new }
        ensures published { generations self.new ≡ generations self.old }
    {
        self.core.register(endpoint)
    }

    #[tactic(auto, using(crate::proofs::Grows::steps_shown, crate::proofs::Grows::stays))]
    /// Takes a registration away.
    pub fn unregister(&mut self, id: &Name) -> Result<(Reply, Receipt), Reply>
        ensures step { Steps self.old (Events.Unregistering id.now) result self.new }
        ensures published { generations self.new ≡ generations self.old }
    {
        self.core.unregister(id)
    }

    #[tactic(auto, using(crate::proofs::Grows::steps_shown, crate::proofs::Grows::stays, crate::proofs::Grows::same_state))]
    /// Admits a call to where its digits were routed, as `Core::admit`.
    pub fn admit(
        &mut self,
        routed: &Routed,
        id: &Name,
        call: u32,
        units: Units,
    ) -> Result<(Reply, Receipt), Reply>
        requires planned { routed.now.version ≡ (state_of self.old).version
            → target_of (state_of self.old).commands routed.now.plan
            ≡ Some (plan_of (state_of self.old).commands routed.now.dialled) }
        ensures step { Steps self.old (Events.Admitting id.now call routed.now.dialled units)
            result self.new }
        ensures published { generations self.new ≡ generations self.old }
    {
        self.core.admit(routed, id, call, units)
    }

    #[tactic(auto, using(crate::proofs::Grows::steps_shown, crate::proofs::Grows::stays))]
    /// Answers a call for a gateway or terminal, as `Core::incoming`.
    pub fn incoming(
        &mut self,
        id: &Name,
        call: u32,
        units: Units,
    ) -> Result<(Reply, Receipt), Reply>
        ensures step { Steps self.old (Events.Answering id.now call units) result self.new }
        ensures published { generations self.new ≡ generations self.old }
    {
        self.core.incoming(id, call, units)
    }

    #[tactic(auto, using(crate::proofs::Grows::steps_shown, crate::proofs::Grows::stays))]
    /// Gives an open call another bandwidth.
    pub fn change(&mut self, id: &Name, call: u32, units: Units) -> Result<(Reply, Receipt), Reply>
        ensures step { Steps self.old (Events.Changing id.now call units) result self.new }
        ensures published { generations self.new ≡ generations self.old }
    {
        self.core.change(id, call, units)
    }

    #[tactic(auto, using(crate::proofs::Grows::steps_shown, crate::proofs::Grows::stays))]
    /// Releases an open call. Takes no memory.
    pub fn release(&mut self, id: &Name, call: u32) -> Result<(Reply, Receipt), Reply>
        ensures step { Steps self.old (Events.Releasing id.now call) result self.new }
        ensures published { generations self.new ≡ generations self.old }
    {
        self.core.release(id, call)
    }

    #[tactic(auto, using(crate::proofs::Grows::steps_shown, crate::proofs::Grows::stays))]
    /// Answers an event that is lent, and is not a reload: the step of the core with a reply that is
    /// kept, as the clauses of `Live` see it. An admission goes by a plan that was made outside if
    /// that was done under the version in force.
    pub(crate) fn step(
        &mut self,
        routed: Option<&Routed>,
        event: &LentEvent<'_>,
        kept: &mut KeptReply,
    ) -> Option<u32>
        requires planned { IfSome (option_copied routed)
            (IsPlanBehind (event_meant event.now) (generations self.old)) }
        requires other { put_in_force (event_meant event.now) ≡ None }
        ensures kept { IsSome kept.new.kept }
        ensures step { Steps self.old (event_meant event.now)
            (answered (event_meant event.now) (reply_kept kept.new.kept) result) self.new }
        ensures published { generations self.new ≡ generations self.old }
    {
        // So it is known which commands are in force, and how many were.
        let _tables = self.core.tables();
        let _version = self.core.version();
        self.core.step(routed, event, kept)
    }

    #[tactic(auto, using(crate::proofs::Grows::steps_shown))]
    /// Puts another configuration in force, as `Core::reload`: first a place is kept for its entry,
    /// then the tables are published, and then the core steps, which can't fail any more. It waits
    /// until no reader is inside a copy that is written. If anything is refused, neither the core
    /// nor what is published has changed.
    pub fn reload<R: Wait>(
        &mut self,
        rt: &R,
        tables: Arc<Tables>,
    ) -> Result<(Reply, Receipt), Reply>
        ensures step { Steps self.old (Events.Reloading (arc_value tables).commands)
            result self.new }
        ensures put { IsPut (Events.Reloading (arc_value tables).commands) result
            (generations self.new) }
    {
        if let Err(reply) = self.core.reserve_reload(&tables) {
            return Err(reply);
        }
        let no_memory = Reply::ReloadRefused {
            reason: ReloadRefusal::NoMemory,
        };
        let copy = match Arc::try_clone(&tables) {
            Ok(copy) => copy,
            Err(_) => return Err(no_memory),
        };
        // So it is known that the next version fits.
        let _few = self.core.version();
        match self.publisher.publish(rt, copy) {
            Ok(_) => self.core.reload(tables),
            Err(_) => Err(no_memory),
        }
    }

    #[tactic(auto, using(crate::proofs::Grows::steps_shown))]
    /// Answers an event as the call of its kind does. An admission is planned by the tables in
    /// force and by the technology prefixes that gateways gave.
    pub fn answer<R: Wait>(&mut self, rt: &R, event: Event) -> Result<(Reply, Receipt), Reply>
        ensures step { Steps self.old (Events.plain event) result self.new }
        ensures put { IsPut (Events.plain event) result (generations self.new) }
    {
        match event {
            Event::Register(endpoint) => self.register(endpoint),
            Event::Unregister { id } => self.unregister(&id),
            Event::Admit {
                id,
                call,
                digits,
                units,
            } => {
                let routed = self.route_here(&digits);
                self.admit(&routed, &id, call, units)
            }
            Event::Incoming { id, call, units } => self.incoming(&id, call, units),
            Event::Change { id, call, units } => self.change(&id, call, units),
            Event::Release { id, call } => self.release(&id, call),
            Event::Reload(tables) => self.reload(rt, tables),
        }
    }

    // ---- its end

    /// The record, in place of the core. Readers are lost from then on.
    pub fn into_record<R: Wait>(self, rt: &R) -> Record
        ensures entries { result.entries ≡ self.entries }
        ensures begun { result.opening ≡ self.opening.commands }
    {
        let Live { core, publisher } = self;
        publisher.close(rt);
        core.into_record()
    }

    /// Ends it without its record. Readers are lost from then on.
    pub fn close<R: Wait>(self, rt: &R) {
        let Live { core: _, publisher } = self;
        publisher.close(rt);
    }
}
