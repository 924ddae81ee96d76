//! Rulings that lend what they name, so that a ruling is small while it is handed on.

ghost use Rattle.std.specs.Prelude.{◌≡◌, true, None};
ghost use Rattle.rulings.specs.Lent as Spec;
ghost use Rattle.rulings.specs.declared.rulings.Effect.TheVariants as effects;
ghost use Rattle.rulings.specs.Step.{is_granted, is_recorded, places_needed, opens_call};

use crate::lent_routes::DestinationKind;
use crate::replies::{
    AdmitRefusal, ChangeRefusal, RegisterRefusal, ReleaseRefusal, Reply, UnregisterRefusal,
};
use crate::routes::RouteRefusal;
use crate::rulings::Effect;
use bandwidth::{OpenCall, Over};
use gk_terms::{Address, Name, Units, Version};

/// What is ruled of an event, apart from counts and memory. What it names stands in the event, in
/// the registry or in the tables.
#[derive(Clone, Copy)]
pub enum LentRuling<'a> {
    /// The endpoint registers in this zone.
    Registered {
        id: &'a Name,
        zone: Name,
    },
    /// The endpoint may not register.
    RegisterRefused {
        id: &'a Name,
        reason: RegisterRefusal,
    },
    /// The endpoint leaves.
    Unregistered {
        id: &'a Name,
    },
    /// The endpoint may not leave.
    UnregisterRefused {
        id: &'a Name,
        reason: UnregisterRefusal,
    },
    /// The call is open, for this owner in this source zone and with this bandwidth, to this
    /// destination; its target zone is of another gatekeeper or not.
    Admitted {
        call: u32,
        owner: &'a Name,
        source: &'a Name,
        target: &'a Name,
        remote: bool,
        units: Units,
        kind: DestinationKind,
        name: &'a Name,
        address: Address,
    },
    /// The endpoint answers a call from a zone of another gatekeeper, which is open for it.
    Answering {
        call: u32,
        owner: &'a Name,
        zone: &'a Name,
        units: Units,
        kind: DestinationKind,
        address: Address,
    },
    /// The open call of the number was admitted to the endpoint.
    Repeated {
        call: u32,
        zone: &'a Name,
        units: Units,
        kind: DestinationKind,
        name: &'a Name,
        address: Address,
    },
    /// The caller is not registered.
    CallerNotRegistered {
        call: u32,
    },
    /// A call of the number is open.
    CallOpen {
        call: u32,
        source: &'a Name,
    },
    /// The digits lead nowhere.
    NoRoute {
        call: u32,
        source: &'a Name,
        refusal: RouteRefusal,
    },
    /// The digits lead to this destination, but a sum of the call would be above its limit.
    OverLimit {
        call: u32,
        source: &'a Name,
        kind: DestinationKind,
        name: &'a Name,
        address: Address,
        over: Over,
    },
    /// The call of this owner has this bandwidth.
    Changed {
        call: u32,
        id: &'a Name,
        units: Units,
    },
    /// The call keeps the bandwidth that it has.
    ChangeRefused {
        call: u32,
        reason: ChangeRefusal,
    },
    /// The call of this owner is closed.
    Released {
        call: u32,
        id: &'a Name,
    },
    /// The call stays as it is.
    ReleaseRefused {
        call: u32,
        reason: ReleaseRefusal,
    },
    /// The configuration that is asked for is in force, as this version.
    Reloaded {
        version: Version,
    },
}

impl LentRuling<'_> {
    /// Whether it grants what was asked.
    pub fn is_granted(&self) -> bool
        ensures { result ≡ is_granted (Spec.ruling_meant self.now).verdict }
    {
        match self {
            LentRuling::Registered { .. }
            | LentRuling::Unregistered { .. }
            | LentRuling::Admitted { .. }
            | LentRuling::Answering { .. }
            | LentRuling::Repeated { .. }
            | LentRuling::Changed { .. }
            | LentRuling::Released { .. }
            | LentRuling::Reloaded { .. } => true,
            LentRuling::RegisterRefused { .. }
            | LentRuling::UnregisterRefused { .. }
            | LentRuling::CallerNotRegistered { .. }
            | LentRuling::CallOpen { .. }
            | LentRuling::NoRoute { .. }
            | LentRuling::OverLimit { .. }
            | LentRuling::ChangeRefused { .. }
            | LentRuling::ReleaseRefused { .. } => false,
        }
    }

    /// Whether it opens a call.
    pub fn opens_call(&self) -> bool
        ensures { result ≡ opens_call (Spec.ruling_meant self.now).effect }
    {
        matches!(
            self,
            LentRuling::Admitted { .. } | LentRuling::Answering { .. }
        )
    }

    /// Whether it is recorded, if no count refuses it: each is but a refused release.
    pub fn is_recorded(&self) -> bool
        ensures { result ≡ is_recorded (Spec.ruling_meant self.now).verdict }
    {
        !matches!(self, LentRuling::ReleaseRefused { .. })
    }

    /// The free places of the record that are needed: to open a call, one more than for other
    /// entries, for the entry of its release, which then needs none.
    pub fn places_needed(&self) -> usize
        ensures { result ≡ places_needed (Spec.ruling_meant self.now).effect }
    {
        match self {
            LentRuling::Admitted { .. } | LentRuling::Answering { .. } => 2,
            LentRuling::Released { .. } => 0,
            _ => 1,
        }
    }

    /// The verdict.
    pub fn verdict(&self) -> Reply
        ensures { result ≡ (Spec.ruling_meant self.now).verdict }
    {
        match self {
            LentRuling::Registered { id, zone } => Reply::Registered {
                id: **id,
                zone: *zone,
            },
            LentRuling::RegisterRefused { id, reason } => Reply::RegisterRefused {
                id: **id,
                reason: *reason,
            },
            LentRuling::Unregistered { id } => Reply::Unregistered { id: **id },
            LentRuling::UnregisterRefused { id, reason } => Reply::UnregisterRefused {
                id: **id,
                reason: *reason,
            },
            LentRuling::Admitted {
                call,
                units,
                kind,
                name,
                address,
                ..
            } => Reply::Admitted {
                call: *call,
                destination: kind.destination(name, *address),
                units: *units,
            },
            LentRuling::Answering {
                call,
                owner,
                units,
                kind,
                address,
                ..
            } => Reply::Admitted {
                call: *call,
                destination: kind.destination(owner, *address),
                units: *units,
            },
            LentRuling::Repeated {
                call,
                units,
                kind,
                name,
                address,
                ..
            } => Reply::Admitted {
                call: *call,
                destination: kind.destination(name, *address),
                units: *units,
            },
            LentRuling::CallerNotRegistered { call } => Reply::AdmitRefused {
                call: *call,
                reason: AdmitRefusal::CallerNotRegistered,
            },
            LentRuling::CallOpen { call, .. } => Reply::AdmitRefused {
                call: *call,
                reason: AdmitRefusal::CallOpen,
            },
            LentRuling::NoRoute { call, refusal, .. } => Reply::AdmitRefused {
                call: *call,
                reason: AdmitRefusal::NoRoute(*refusal),
            },
            LentRuling::OverLimit { call, over, .. } => Reply::AdmitRefused {
                call: *call,
                reason: AdmitRefusal::OverLimit(*over),
            },
            LentRuling::Changed { call, units, .. } => Reply::Changed {
                call: *call,
                units: *units,
            },
            LentRuling::ChangeRefused { call, reason } => Reply::ChangeRefused {
                call: *call,
                reason: *reason,
            },
            LentRuling::Released { call, .. } => Reply::Released { call: *call },
            LentRuling::ReleaseRefused { call, reason } => Reply::ReleaseRefused {
                call: *call,
                reason: *reason,
            },
            LentRuling::Reloaded { version } => Reply::Reloaded { version: *version },
        }
    }

    /// What it changes.
    pub fn effect(&self) -> Effect
        ensures { result ≡ (Spec.ruling_meant self.now).effect }
    {
        match self {
            LentRuling::Registered { zone, .. } => Effect::Put { zone: *zone },
            LentRuling::Unregistered { id } => Effect::Remove { id: **id },
            LentRuling::Admitted {
                call,
                owner,
                source,
                target,
                remote,
                units,
                kind,
                name,
                ..
            } => Effect::Open(OpenCall {
                number: *call,
                units: *units,
                remote: *remote,
                owner: **owner,
                source: Some(**source),
                target: **target,
                answerer: match kind {
                    DestinationKind::Gateway | DestinationKind::Terminal => Some(**name),
                    DestinationKind::Zone => None,
                },
            }),
            LentRuling::Answering {
                call,
                owner,
                zone,
                units,
                ..
            } => answering(*call, owner, zone, *units),
            LentRuling::Changed { call, id, units } => Effect::Resize {
                call: *call,
                id: **id,
                units: *units,
            },
            LentRuling::Released { call, id } => Effect::Close {
                call: *call,
                id: **id,
            },
            LentRuling::Reloaded { .. } => Effect::PutInForce,
            LentRuling::RegisterRefused { .. }
            | LentRuling::UnregisterRefused { .. }
            | LentRuling::Repeated { .. }
            | LentRuling::CallerNotRegistered { .. }
            | LentRuling::CallOpen { .. }
            | LentRuling::NoRoute { .. }
            | LentRuling::OverLimit { .. }
            | LentRuling::ChangeRefused { .. }
            | LentRuling::ReleaseRefused { .. } => Effect::Nothing,
        }
    }
}

/// Of an answer to a call from another gatekeeper: the call is open.
fn answering(call: u32, owner: &Name, zone: &Name, units: Units) -> Effect
    ensures { result ≡ effects.Open (record {
      number = call;
      owner = owner.now;
      source = None;
      target = zone.now;
      remote = true;
      units = units;
      answerer = None;
    }) }
{
    Effect::Open(OpenCall {
        number: call,
        units,
        remote: true,
        owner: *owner,
        source: None,
        target: *zone,
        answerer: None,
    })
}
