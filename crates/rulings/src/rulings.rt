//! Rulings: what is decided of an event, and what the decision changes.

ghost use Rattle.std.specs.Prelude.{◌≡◌, false, Some, None, IfSome, MatchResult};
ghost use Rattle.std.specs.Option.{option_copied};
ghost use Rattle.bandwidth.specs.Calls.{call_of, is_open};
ghost use Rattle.bandwidth.specs.Fits.{over_of};
ghost use Rattle.compiler.specs.Plan as Plans;
ghost use Rattle.compiler.specs.Zones.{zone_meant};
ghost use Rattle.rulings.specs.Events as Events;
ghost use Rattle.rulings.specs.Lent.{IsPlanOf, destination_meant, ruling_meant};
ghost use Rattle.rulings.specs.Routing.{destination_of};
ghost use Rattle.rulings.specs.Ruling as Spec;
ghost use Rattle.rulings.specs.State.{bare, under};

use crate::events::LentEvent;
use crate::lent_routes::{DestinationKind, LentRoute};
use crate::lent_rulings::LentRuling;
use crate::machine::Machine;
use crate::registering::refusal_of;
use crate::replies::{ChangeRefusal, RegisterRefusal, ReleaseRefusal, UnregisterRefusal};
use crate::routing::{is_remote, plan_beside, route_of_plan, target_zone};
use bandwidth::OpenCall;
use compiler::{Plan, Tables};
use gk_terms::{Dialled, Name, Units};
use registry::{Endpoint, EndpointKind};

/// What a ruling changes.
#[derive(Clone, Copy)]
pub enum Effect {
    /// Nothing.
    Nothing,
    /// The endpoint that asks is registered in this zone.
    Put { zone: Name },
    /// The endpoint of this ID is no longer registered.
    Remove { id: Name },
    /// This call is open.
    Open(OpenCall),
    /// The call of this number, whose owner this is, has this bandwidth.
    Resize { call: u32, id: Name, units: Units },
    /// The call of this number, whose owner this was, is no longer open.
    Close { call: u32, id: Name },
    /// The configuration that is asked for is in force, as the next version, and only endpoints of
    /// its local zones are registered.
    PutInForce,
}

impl Machine {
    #[tactic(auto, unfolding(crate::specs::Ruling::ruling_of))]
    /// The ruling on an event, with these tables in force. An admission is planned by them, unless
    /// their plan for its digits is given, and by the technology prefixes that gateways gave.
    pub fn ruling<'a, 'e: 'a>(
        &'a self,
        tables: &'a Tables,
        planned: Option<&Plan>,
        event: &LentEvent<'e>,
    ) -> LentRuling<'a>
        requires planned { IfSome (option_copied planned)
            (IsPlanOf tables.now.commands (Events.event_meant event.now)) }
        ensures { ruling_meant result ≡ Spec.ruling_of (under tables.now.commands self.now)
            (Events.event_meant event.now) }
    {
        match event {
            LentEvent::Register(endpoint) => self.registration(tables, endpoint),
            LentEvent::Unregister { id } => self.unregistration(id),
            LentEvent::Admit {
                id,
                call,
                digits,
                units,
            } => match planned {
                Some(plan) => self.admission(tables, plan, id, *call, digits, *units),
                None => {
                    let plan = &tables.plan(digits);
                    self.admission(tables, plan, id, *call, digits, *units)
                }
            },
            LentEvent::Incoming { id, call, units } => self.answer_to(tables, id, *call, *units),
            LentEvent::Change { id, call, units } => {
                self.bandwidth_change(tables, id, *call, *units)
            }
            LentEvent::Release { id, call } => self.release(id, *call),
            LentEvent::Reload(_) => self.reload(),
        }
    }

    // ---- registrations

    #[tactic(auto, unfolding(crate::specs::Ruling::ruling_of))]
    /// The ruling on a registration. The refusals are tried in this order: the zone is not a local
    /// zone; the ID is registered from another address; an alias is another endpoint's.
    pub fn registration<'a>(&self, tables: &Tables, endpoint: &'a Endpoint) -> LentRuling<'a>
        ensures { ruling_meant result ≡ Spec.ruling_of (under tables.now.commands self.now)
            (Events.Registering endpoint.now) }
    {
        let id = endpoint.id();
        match self.placement(tables, endpoint) {
            Ok(zone) => LentRuling::Registered { id, zone },
            Err(reason) => LentRuling::RegisterRefused { id, reason },
        }
    }

    #[tactic(auto, using(crate::proofs::RegisteringLemmas::placed, crate::proofs::RegisteringLemmas::refused_as))]
    /// The local zone in which the endpoint may register, or the first refusal.
    fn placement(&self, tables: &Tables, endpoint: &Endpoint) -> Result<Name, RegisterRefusal>
        ensures { MatchResult result
            (λ zone. (Spec.register_refusal (under tables.now.commands self.now) endpoint.now
            ≡ None)
            × (zone ≡ zone_meant tables.now.commands endpoint.now.zone))
            (λ reason. Spec.register_refusal (under tables.now.commands self.now) endpoint.now
            ≡ Some reason) }
    {
        match self.registry().placement(endpoint, tables) {
            Ok(zone) => Ok(zone),
            Err(fault) => Err(refusal_of(fault)),
        }
    }

    // ---- unregistrations

    /// The ruling on an unregistration. The refusals are tried in this order: the ID is not
    /// registered; it owns an open call.
    pub fn unregistration<'a>(&self, id: &'a Name) -> LentRuling<'a>
        ensures { ruling_meant result ≡ Spec.unregistration_ruling (bare self.now) id.now }
    {
        if !self.registry().is_registered(id) {
            let reason = UnregisterRefusal::NotRegistered;
            LentRuling::UnregisterRefused { id, reason }
        } else if self.calls().owns(id) {
            let reason = UnregisterRefusal::CallInProgress;
            LentRuling::UnregisterRefused { id, reason }
        } else {
            LentRuling::Unregistered { id }
        }
    }

    // ---- admissions

    #[tactic(auto, using(crate::proofs::AdmittingLemmas::caller_has_id, crate::proofs::AdmittingLemmas::over_alike), unfolding(crate::specs::Ruling::ruling_of))]
    /// The ruling on an admission. The plan is what the commands in force say of the digits; the
    /// technology prefixes that gateways gave are added here. The refusals are tried in this order:
    /// the caller is not registered; a call of the number is open; the digits lead nowhere; a sum of
    /// the call would be above its limit.
    pub fn admission<'a>(
        &'a self,
        tables: &'a Tables,
        plan: &Plan,
        id: &'a Name,
        call: u32,
        digits: &Dialled,
        units: Units,
    ) -> LentRuling<'a>
        requires planned { Plans.target_of tables.now.commands plan.now
            ≡ Some (Plans.plan_of tables.now.commands digits.now) }
        ensures { ruling_meant result ≡ Spec.ruling_of (under tables.now.commands self.now)
            (Events.Admitting id.now call digits.now units) }
    {
        let Some(caller) = self.registry().endpoint(id) else {
            return LentRuling::CallerNotRegistered { call };
        };
        let source = caller.zone();
        if self.calls().is_open(call) {
            return LentRuling::CallOpen { call, source };
        }
        let plan = &plan_beside(tables, self.registry(), plan, digits);
        match route_of_plan(tables, self.registry(), plan, source, digits) {
            LentRoute::Refused(refusal) => LentRuling::NoRoute {
                call,
                source,
                refusal,
            },
            LentRoute::To {
                kind,
                name,
                address,
            } => {
                // The ID in the request is the caller's, and has just been read.
                let owner = id;
                let target = target_zone(tables, plan, source);
                let remote = is_remote(plan);
                let admitted = &OpenCall {
                    number: call,
                    units,
                    remote,
                    owner: *owner,
                    source: Some(*source),
                    target: *target,
                    // To whom it is admitted is in none of its sums.
                    answerer: None,
                };
                match &self.calls().fits_new(tables, admitted) {
                    Err(over) => LentRuling::OverLimit {
                        call,
                        source,
                        kind,
                        name,
                        address,
                        over: *over,
                    },
                    Ok(()) => LentRuling::Admitted {
                        call,
                        owner,
                        source,
                        target,
                        remote,
                        units,
                        kind,
                        name,
                        address,
                    },
                }
            }
        }
    }

    // ---- answers

    #[tactic(auto, using(crate::proofs::AdmittingLemmas::caller_has_id, bandwidth::proofs::CallLemmas::closed_if_none), unfolding(crate::specs::Ruling::ruling_of))]
    /// The ruling on an endpoint's answer to a call. The refusals are tried in this order: the
    /// endpoint is not registered; a call of the number is open that was not admitted to it; a sum
    /// of the call would be above its limit. One that was admitted to it stays as it is.
    pub fn answer_to<'a>(
        &'a self,
        tables: &Tables,
        id: &'a Name,
        call: u32,
        units: Units,
    ) -> LentRuling<'a>
        ensures { ruling_meant result ≡ Spec.ruling_of (under tables.now.commands self.now)
            (Events.Answering id.now call units) }
    {
        let Some(endpoint) = self.registry().endpoint(id) else {
            return LentRuling::CallerNotRegistered { call };
        };
        match self.calls().get(call) {
            Some(held) if is_that(id, &held.answerer) => repeated(endpoint, call, held.units),
            Some(_) => LentRuling::CallOpen {
                call,
                source: endpoint.zone(),
            },
            None => self.answer_new(tables, endpoint, call, units),
        }
    }

    /// The same if no call of the number is open: it comes from a zone of another gatekeeper.
    fn answer_new<'a>(
        &self,
        tables: &Tables,
        endpoint: &'a Endpoint,
        call: u32,
        units: Units,
    ) -> LentRuling<'a>
        requires fresh { is_open self.now.calls call ≡ false }
        ensures { ruling_meant result ≡ Spec.answering_to (under tables.now.commands self.now)
            endpoint.now call units None }
    {
        let zone = endpoint.zone();
        let answered = &OpenCall {
            number: call,
            units,
            remote: true,
            owner: *endpoint.id(),
            source: None,
            target: *zone,
            answerer: None,
        };
        let kind = kind_of(endpoint);
        let address = endpoint.address();
        match &self.calls().fits_new(tables, answered) {
            Err(over) => LentRuling::OverLimit {
                call,
                source: zone,
                kind,
                name: endpoint.id(),
                address,
                over: *over,
            },
            Ok(()) => LentRuling::Answering {
                call,
                owner: endpoint.id(),
                zone,
                units,
                kind,
                address,
            },
        }
    }

    // ---- bandwidth changes

    #[tactic(auto, unfolding(crate::specs::Ruling::ruling_of))]
    /// The ruling on a bandwidth change. The refusals are tried in this order: no call of the
    /// number is open; it belongs to another endpoint; a sum of the call would be above its limit.
    pub fn bandwidth_change<'a>(
        &self,
        tables: &Tables,
        id: &'a Name,
        call: u32,
        units: Units,
    ) -> LentRuling<'a>
        ensures { ruling_meant result ≡ Spec.ruling_of (under tables.now.commands self.now)
            (Events.Changing id.now call units) }
    {
        match self.calls().get(call) {
            None => {
                let reason = ChangeRefusal::NoCall;
                LentRuling::ChangeRefused { call, reason }
            }
            Some(held) if held.owner != *id => {
                let reason = ChangeRefusal::NotYours;
                LentRuling::ChangeRefused { call, reason }
            }
            Some(held) => {
                // One copy of the whole: `..*held` would copy it field by field.
                let mut changed = *held;
                changed.units = units;
                self.change_to(tables, id, call, &changed)
            }
        }
    }

    /// The ruling on a change of a call that is open, to what it would be, by the limits.
    fn change_to<'a>(
        &self,
        tables: &Tables,
        id: &'a Name,
        call: u32,
        changed: &OpenCall,
    ) -> LentRuling<'a>
        ensures { ruling_meant result ≡ Spec.change_unless id.now call changed.now.units
            (over_of tables.now.commands self.now.calls changed.now) }
    {
        let units = changed.units;
        match self.calls().fits(tables, changed) {
            Err(over) => {
                let reason = ChangeRefusal::OverLimit(over);
                LentRuling::ChangeRefused { call, reason }
            }
            Ok(()) => LentRuling::Changed { call, id, units },
        }
    }

    // ---- releases

    /// The ruling on a release. It is granted to the owner of the call, registered or not. Else the
    /// refusals are tried in this order: the ID is not registered; the call belongs to another
    /// endpoint; no call of the number is open.
    pub fn release<'a>(&self, id: &'a Name, call: u32) -> LentRuling<'a>
        ensures { ruling_meant result ≡ Spec.release_ruling (bare self.now) id.now call
            (call_of self.now.calls call) }
    {
        match self.calls().get(call) {
            None => self.release_refused(id, call, ReleaseRefusal::NoCall),
            Some(held) if held.owner != *id => {
                self.release_refused(id, call, ReleaseRefusal::NotYours)
            }
            Some(_) => LentRuling::Released { call, id },
        }
    }

    /// A refused release, for this reason if the ID is registered.
    fn release_refused<'a>(&self, id: &Name, call: u32, reason: ReleaseRefusal) -> LentRuling<'a>
        ensures { ruling_meant result ≡ Spec.release_refused (bare self.now) id.now call reason }
    {
        let reason = if self.registry().is_registered(id) {
            reason
        } else {
            ReleaseRefusal::NotRegistered
        };
        LentRuling::ReleaseRefused { call, reason }
    }

    // ---- reloads

    /// The ruling on a reload: it is granted, and makes the next version.
    pub fn reload(&self) -> LentRuling<'static>
        ensures { ruling_meant result ≡ Spec.reload_ruling (bare self.now) }
    {
        LentRuling::Reloaded {
            version: self.next_version(),
        }
    }
}

/// The answer of the endpoint to which the open call was admitted.
fn repeated(endpoint: &Endpoint, call: u32, units: Units) -> LentRuling<'_>
    ensures { ruling_meant result ≡ Spec.repeated_answer endpoint.now call units }
{
    LentRuling::Repeated {
        call,
        zone: endpoint.zone(),
        units,
        kind: kind_of(endpoint),
        name: endpoint.id(),
        address: endpoint.address(),
    }
}

/// Whether it is this ID.
fn is_that(id: &Name, answerer: &Option<Name>) -> bool
    ensures { result ≡ Spec.is_that id.now answerer.now }
{
    match answerer {
        Some(answerer) => *answerer == *id,
        None => false,
    }
}

/// What kind of destination the endpoint is.
fn kind_of(endpoint: &Endpoint) -> DestinationKind
    ensures { destination_meant result endpoint.now.id endpoint.now.address
        ≡ destination_of endpoint.now.kind endpoint.now }
{
    match endpoint.kind() {
        EndpointKind::Gateway => DestinationKind::Gateway,
        EndpointKind::Terminal => DestinationKind::Terminal,
    }
}
