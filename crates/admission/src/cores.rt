//! The core: one event after another, and those that are recorded with their replies.

ghost use Rattle.std.specs.Prelude.{◌≡◌, ◌≤◌, ◌↔◌, ◌++◌, ◌∷◌, [], length, Some, true, false, IfOk, IfErr, OnOk, OnErr, IsErrOf, IsSome, MatchResult};
ghost use Rattle.std.specs.Arc.{arc_value};
ghost use Rattle.compiler.specs.Last.{last_in};
ghost use Rattle.rulings.specs.Events as Events;
ghost use Rattle.rulings.specs.Events.{put_in_force};
ghost use Rattle.rulings.specs.State.{opening_of};
ghost use Rattle.rulings.specs.Limits.{are_limits};
ghost use Rattle.compiler.specs.Plan.{plan_of, target_of};
ghost use Rattle.rulings.specs.Step.{step};
ghost use Rattle.decision_record.specs.History.{generations, IsLegal, IsUnrecorded, state_of, Steps};
ghost use Rattle.rulings.specs.Founded.{IsUnder};
ghost use Rattle.admission.specs.HistoryLaws.{AreAccepted, IsSound};
ghost use Rattle.std.specs.List.{AllByRecursion};

use crate::answering::reload_receipt;
use crate::refusing::reload_refused;
use bandwidth::OpenCalls;
use compiler::{Routed, Tables};
use decision_record::{EntryDraft, RELOAD_BYTES, Receipt, Record};
use gk_terms::{Dialled, Name, Units, Version};
use registry::{Endpoint, Registry};
use rulings::{Event, KeptReply, Lack, Limits, Machine, ReloadRefusal, Reply};
use std::alloc::Global;
use std::marker::Model;
use std::sync::Arc;
use thiserror::Error;

/// Why a core is not opened.
#[derive(Clone, Copy, Debug, PartialEq, Eq, Error)]
pub enum OpeningFault {
    /// A limit is 0 or above the stated one.
    #[error("bad limits")]
    BadLimits,
    /// Memory ran out.
    #[error("no memory")]
    NoMemory,
}

/// A gatekeeper's core: the configuration in force, the registered endpoints, the open calls, and
/// the record from which all of it can be rebuilt. A contract sees it as `CoreParts`: its opening
/// state, the entries of its record, and whether a place is reserved for the entry of a reload; the
/// current state is the replay of the entries. `history` is the record. While a call is open,
/// `draft` has room for the entry of its release.
#[derive(Drop)]
pub struct Core {
    pub(crate) machine: Machine,
    pub(crate) history: Record,
    pub(crate) reserved: bool,
    pub(crate) draft: EntryDraft,
}

impl Model for Core {
    ghost use Rattle.rulings.specs.State.{opening_of, under};
    ghost use Rattle.admission.specs.CoreInvariant.{IsOrderKept, IsReady};
    ghost use Rattle.decision_record.specs.History.{CoreParts, in_force};

    ghost Value = { CoreParts };

    ghost view = { λ c. record {
      opening = opening_of c.history.opening c.machine.limits;
      entries = c.history.entries;
      reserved = c.reserved;
    } };

    ghost invariant = { λ c. IsOrderKept (opening_of c.history.opening c.machine.limits) c.history
        (under (in_force c.history) c.machine) c.reserved × IsReady c.machine.calls c.draft };
}

impl Core {
    /// A core with these tables as version 1, and nothing registered, open or recorded.
    /// `BadLimits` comes exactly if a limit is 0 or above the stated one. `NoMemory` does not come:
    /// an empty core takes none.
    pub fn new(alloc: Global, tables: Arc<Tables>, limits: Limits) -> Result<Core, OpeningFault>
        ensures opened { IfOk result (λ core. core ≡ record {
          opening = opening_of (arc_value tables).commands limits;
          entries = [];
          reserved = false;
        }) }
        ensures memory { IfErr result (λ fault. fault ≡ OpeningFault.BadLimits) }
        ensures limits { IsErrOf result OpeningFault.BadLimits ↔ (are_limits limits ≡ false) }
    {
        if !limits.are_good() {
            return Err(OpeningFault::BadLimits);
        }
        // So it is known that they are of an accepted configuration.
        let _count = tables.commands().len();
        Ok(Core {
            machine: Machine::new(alloc, limits),
            history: Record::new(alloc, tables),
            reserved: false,
            draft: EntryDraft::new(alloc),
        })
    }

    // ---- events

    /// Registers an endpoint. Ok and Err are as of `answer`.
    pub fn register(&mut self, endpoint: Endpoint) -> Result<(Reply, Receipt), Reply>
        ensures { Steps self.old (Events.Registering endpoint) result self.new }
    {
        self.answer(Event::Register(endpoint))
    }

    /// Takes a registration away. Ok and Err are as of `answer`.
    pub fn unregister(&mut self, id: &Name) -> Result<(Reply, Receipt), Reply>
        ensures { Steps self.old (Events.Unregistering id.now) result self.new }
    {
        self.answer(Event::Unregister { id: *id })
    }

    /// Admits a call to where its digits were routed. If that was done under the version in force,
    /// the plan has to be what its tables say of the digits; a plan of another version is made
    /// anew, and so is one for digits that begin with a technology prefix which a gateway gave and
    /// which is longer than the declared one. Ok and Err are as of `answer`.
    pub fn admit(
        &mut self,
        routed: &Routed,
        id: &Name,
        call: u32,
        units: Units,
    ) -> Result<(Reply, Receipt), Reply>
        requires planned { routed.now.version ≡ (state_of self.old).version
            → target_of (state_of self.old).commands routed.now.plan
            ≡ Some (plan_of (state_of self.old).commands routed.now.dialled) }
        ensures { Steps self.old (Events.Admitting id.now call routed.now.dialled units)
            result self.new }
    {
        let event = &Event::Admit {
            id: *id,
            call,
            digits: routed.dialled,
            units,
        };
        self.answer_lent(Some(routed), &event.lent())
    }

    /// Lets an endpoint answer a call. A call of a number that is not open comes from a zone of
    /// another gatekeeper: it is opened, and the endpoint owns it. One that was admitted to this ID
    /// stays as it is, and is granted with its own bandwidth, as often as it is asked. Ok and Err
    /// are as of `answer`.
    pub fn incoming(
        &mut self,
        id: &Name,
        call: u32,
        units: Units,
    ) -> Result<(Reply, Receipt), Reply>
        ensures { Steps self.old (Events.Answering id.now call units) result self.new }
    {
        self.answer(Event::Incoming {
            id: *id,
            call,
            units,
        })
    }

    /// Gives an open call another bandwidth. Ok and Err are as of `answer`.
    pub fn change(&mut self, id: &Name, call: u32, units: Units) -> Result<(Reply, Receipt), Reply>
        ensures { Steps self.old (Events.Changing id.now call units) result self.new }
    {
        self.answer(Event::Change {
            id: *id,
            call,
            units,
        })
    }

    /// Releases an open call. Ok and Err are as of `answer`. Takes no memory, and meets no full
    /// record: the place of the entry was kept when the call was opened.
    pub fn release(&mut self, id: &Name, call: u32) -> Result<(Reply, Receipt), Reply>
        ensures { Steps self.old (Events.Releasing id.now call) result self.new }
    {
        self.answer(Event::Release { id: *id, call })
    }

    #[tactic(auto, using(crate::proofs::VersionLemmas::reload_version))]
    /// Puts another configuration in force, whole, as the next version. Open calls stay with the
    /// names of their zones, and may be changed and released as before; registrations whose zone is
    /// no longer local go. Ok and Err are as of `answer`; the refusal by a count is reloads-spent,
    /// if the configuration was replaced as often as the limit allows, or record-full. After
    /// `reserve_reload` it takes no memory.
    pub fn reload(&mut self, tables: Arc<Tables>) -> Result<(Reply, Receipt), Reply>
        ensures step { Steps self.old (Events.Reloading (arc_value tables).commands)
            result self.new }
        ensures reserved { self.old.reserved ≡ true → OnErr result
            ((step (state_of self.old) (Events.Reloading (arc_value tables).commands)).recorded
            ≡ false) }
        ensures refused { IfErr result (λ reply.
            (reason : ReloadRefusal) × (reply ≡ Reply.ReloadRefused reason)) }
        ensures generations { MatchResult result
            (λ _. generations self.new ≡ generations self.old ++ (arc_value tables).commands ∷ [])
            (λ _. generations self.new ≡ generations self.old) }
        ensures version { IfOk result (λ answer. answer.0
            ≡ Reply.Reloaded (length (generations self.new))) }
    {
        // So it is known which version comes next.
        let _before = self.version();
        let mut kept = KeptReply::none();
        let number = self.step_reload(tables, &mut kept);
        let reply = kept.reply();
        match number {
            Some(number) => Ok((reply, reload_receipt(&reply, number))),
            None => Err(reply),
        }
    }

    /// Keeps a place for the entry of a reload of these tables, so that `reload`, if it is the next
    /// event, takes no memory: then it is refused only if this is. The refusals are those of
    /// `reload`. Nothing that can be asked of the core changes.
    pub fn reserve_reload(&mut self, tables: &Arc<Tables>) -> Result<(), Reply>
        ensures ok { OnOk result ((self.new ≡ record self.old { reserved = true })
            × ((step (state_of self.old)
            (Events.Reloading (arc_value tables.now).commands)).recorded ≡ true)) }
        ensures again { self.old.reserved ≡ true → OnErr result ((step (state_of self.old)
            (Events.Reloading (arc_value tables.now).commands)).recorded ≡ false) }
        ensures refused { IfErr result (λ reply.
            (reason : ReloadRefusal) × (reply ≡ Reply.ReloadRefused reason)) }
        ensures err { IfErr result (λ reply. IsUnrecorded self.old
            (Events.Reloading (arc_value tables.now).commands) reply self.new) }
    {
        // Only the contract speaks of the tables.
        let _ = tables;
        let ruling = &self.machine.reload();
        if let Some(lack) = self.machine.reload_lack(ruling) {
            return Err(reload_refused(lack));
        }
        if self.reserved {
            return Ok(());
        }
        match self.history.keep(RELOAD_BYTES, 1) {
            Ok(()) => {
                self.reserved = true;
                Ok(())
            }
            Err(_) => Err(reload_refused(Lack::Memory)),
        }
    }

    /// Answers an event. An admission is planned by the tables in force and by the technology
    /// prefixes that gateways gave.
    ///
    /// `Ok` comes exactly if the event was recorded: with the reply, granted or refused, and the
    /// receipt of the new entry. `Err` is a refusal by a count (endpoints-full, calls-full,
    /// reloads-spent, record-full), a refused release, or no-memory if memory ran out for an event
    /// that would have been recorded; then nothing has changed.
    pub fn answer(&mut self, event: Event) -> Result<(Reply, Receipt), Reply>
        ensures step { Steps self.old (Events.plain event) result self.new }
        ensures reserved { self.old.reserved ≡ true → IsSome (put_in_force (Events.plain event))
            → OnErr result ((step (state_of self.old) (Events.plain event)).recorded ≡ false) }
    {
        match event {
            Event::Reload(tables) => self.reload(tables),
            event => self.answer_lent(None, &event.lent()),
        }
    }

    /// What the tables in force say of the digits.
    pub fn route_here(&self, digits: &Dialled) -> Routed
        ensures version { result.version ≡ (state_of self.now).version }
        ensures dialled { result.dialled ≡ digits.now }
        ensures plan { target_of (state_of self.now).commands result.plan
            ≡ Some (plan_of (state_of self.now).commands digits.now) }
    {
        self.tables().routed(self.version(), digits)
    }

    // ---- views

    /// The number of the version in force: how many configurations were put in force, the opening
    /// one included. It is at most 4,097.
    pub fn version(&self) -> Version
        ensures version { result ≡ (state_of self.now).version }
        ensures generations { result ≡ length (generations self.now) }
        ensures few { result ≤ 4097 }
    {
        self.machine.version()
    }

    /// The tables in force: those that were put in force last.
    pub fn tables(&self) -> &Tables
        ensures tables { result.now.commands ≡ (state_of self.now).commands }
        ensures generations { Some result.now.commands ≡ last_in (generations self.now) }
    {
        self.history.tables()
    }

    /// The registered endpoints, in order of registration, and how many there may be.
    pub fn registry(&self) -> &Registry
        ensures endpoints { result.now.endpoints ≡ (state_of self.now).endpoints }
        ensures most { result.now.most ≡ (state_of self.now).limits.endpoints }
    {
        self.machine().registry()
    }

    /// The open calls, in order of number, and how many there may be.
    pub fn calls(&self) -> &OpenCalls
        ensures calls { result.now.calls ≡ (state_of self.now).calls }
        ensures most { result.now.most ≡ (state_of self.now).limits.calls }
    {
        self.machine().calls()
    }

    /// The record. Each entry is what the rules say of its event in the state that the entries
    /// before it leave, and with a place for the release of each open call it stays within the
    /// limit of the record. Each configuration that was put in force is an accepted one.
    pub fn record(&self) -> &Record
        ensures entries { result.now.entries ≡ self.now.entries }
        ensures begun { result.now.opening ≡ self.now.opening.commands }
        ensures opening { self.now.opening
            ≡ opening_of self.now.opening.commands self.now.opening.limits }
        ensures legal { IsLegal self.now.opening self.now.entries }
        ensures sound { IsSound self.now.opening.commands self.now.opening.limits
            self.now.entries (state_of self.now) }
        ensures accepted { AllByRecursion AreAccepted (generations self.now) }
    {
        &self.history
    }

    /// The record, in place of the core.
    pub fn into_record(self) -> Record
        ensures entries { result.entries ≡ self.entries }
        ensures begun { result.opening ≡ self.opening.commands }
    {
        self.history
    }

    /// The machine: with the commands in force it is the current state, the replay of the record.
    pub(crate) fn machine(&self) -> &Machine
        ensures { IsUnder result.now (state_of self.now) }
    {
        &self.machine
    }
}
