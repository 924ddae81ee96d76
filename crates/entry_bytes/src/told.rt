//! What an entry that was read tells.

ghost use Rattle.std.specs.Prelude.{◌≡◌};
ghost use Rattle.entry_bytes.specs.Entry.{asked_call, asked_id, asked_units};
ghost use Rattle.entry_bytes.specs.ReadEntry.{entry_read};
ghost use Rattle.entry_bytes.specs.ReadEvent.{event_read};

use crate::entry_reading::ReadEntry;
use crate::read_events::ReadEvent;
use crate::verdicts::Verdict;
use field_bytes::NameText;
use gk_terms::{Name, Units};
use rulings::{AdmitRefusal, Reply, Route};

impl<'a> ReadEvent<'a> {
    /// The ID of the endpoint that asks.
    pub fn id(&self) -> NameText<'a>
        ensures { result ≡ asked_id (event_read self.now) }
    {
        match self {
            ReadEvent::Register(endpoint) => endpoint.id(),
            ReadEvent::Unregister { id }
            | ReadEvent::Admit { id, .. }
            | ReadEvent::Incoming { id, .. }
            | ReadEvent::Change { id, .. }
            | ReadEvent::Release { id, .. } => id.lent(),
        }
    }

    /// The number of the call that it is about; 0 if it is about none.
    pub fn call(&self) -> u32
        ensures { result ≡ asked_call (event_read self.now) }
    {
        match self {
            ReadEvent::Register(_) | ReadEvent::Unregister { .. } => 0,
            ReadEvent::Admit { call, .. }
            | ReadEvent::Incoming { call, .. }
            | ReadEvent::Change { call, .. }
            | ReadEvent::Release { call, .. } => *call,
        }
    }

    /// The bandwidth that it asks for, in units of 100 bit/s; 0 if it asks for none.
    pub fn units(&self) -> Units
        ensures { result ≡ asked_units (event_read self.now) }
    {
        match self {
            ReadEvent::Register(_) | ReadEvent::Unregister { .. } | ReadEvent::Release { .. } => {
                Units::new(0)
            }
            ReadEvent::Admit { units, .. }
            | ReadEvent::Incoming { units, .. }
            | ReadEvent::Change { units, .. } => *units,
        }
    }
}

impl ReadEntry<'_> {
    /// What was replied.
    pub fn reply(&self) -> Reply
        ensures { result ≡ (entry_read self.now).reply }
    {
        let event = &self.event;
        match &self.verdict {
            Verdict::Registered { zone } => Reply::Registered {
                id: event.id().name(),
                zone: zone.name(),
            },
            Verdict::RegisterRefused { reason } => Reply::RegisterRefused {
                id: event.id().name(),
                reason: *reason,
            },
            Verdict::Unregistered => Reply::Unregistered {
                id: event.id().name(),
            },
            Verdict::UnregisterRefused { reason } => Reply::UnregisterRefused {
                id: event.id().name(),
                reason: *reason,
            },
            Verdict::Admitted {
                kind,
                name,
                address,
                ..
            } => Reply::Admitted {
                call: event.call(),
                destination: kind.destination(&name.name(), *address),
                units: event.units(),
            },
            Verdict::Answering { kind, address, .. } => Reply::Admitted {
                call: event.call(),
                destination: kind.destination(&event.id().name(), *address),
                units: event.units(),
            },
            Verdict::Repeated {
                units,
                kind,
                name,
                address,
                ..
            } => Reply::Admitted {
                call: event.call(),
                destination: kind.destination(&name.name(), *address),
                units: *units,
            },
            Verdict::CallerNotRegistered => Reply::AdmitRefused {
                call: event.call(),
                reason: AdmitRefusal::CallerNotRegistered,
            },
            Verdict::CallOpen { .. } => Reply::AdmitRefused {
                call: event.call(),
                reason: AdmitRefusal::CallOpen,
            },
            Verdict::NoRoute { refusal, .. } => Reply::AdmitRefused {
                call: event.call(),
                reason: AdmitRefusal::NoRoute(*refusal),
            },
            Verdict::OverLimit { over, .. } => Reply::AdmitRefused {
                call: event.call(),
                reason: AdmitRefusal::OverLimit(*over),
            },
            Verdict::Changed => Reply::Changed {
                call: event.call(),
                units: event.units(),
            },
            Verdict::ChangeRefused { reason } => Reply::ChangeRefused {
                call: event.call(),
                reason: *reason,
            },
            Verdict::Released => Reply::Released { call: event.call() },
            Verdict::ReleaseRefused { reason } => Reply::ReleaseRefused {
                call: event.call(),
                reason: *reason,
            },
            Verdict::Reloaded { version } => Reply::Reloaded { version: *version },
        }
    }

    /// Of an admission or an answer: the zone of the endpoint that asks, if it is registered.
    pub fn zone(&self) -> Option<Name>
        ensures { result ≡ (entry_read self.now).zone }
    {
        match &self.verdict {
            Verdict::Admitted { zone, .. }
            | Verdict::Answering { zone, .. }
            | Verdict::Repeated { zone, .. }
            | Verdict::CallOpen { zone }
            | Verdict::NoRoute { zone, .. }
            | Verdict::OverLimit { zone, .. } => Some(zone.name()),
            _ => None,
        }
    }

    /// Of an admission or an answer: where the call leads, if that was looked for.
    pub fn route(&self) -> Option<Route>
        ensures { result ≡ (entry_read self.now).route }
    {
        match &self.verdict {
            Verdict::Admitted {
                kind,
                name,
                address,
                ..
            }
            | Verdict::Repeated {
                kind,
                name,
                address,
                ..
            }
            | Verdict::OverLimit {
                kind,
                name,
                address,
                ..
            } => Some(Route::To(kind.destination(&name.name(), *address))),
            Verdict::Answering { kind, address, .. } => {
                Some(Route::To(kind.destination(&self.event.id().name(), *address)))
            }
            Verdict::NoRoute { refusal, .. } => Some(Route::Refused(*refusal)),
            _ => None,
        }
    }

    /// Whether it opened a call.
    pub fn opened(&self) -> bool
        ensures { result ≡ (entry_read self.now).opened }
    {
        matches!(
            &self.verdict,
            Verdict::Admitted { .. } | Verdict::Answering { .. }
        )
    }
}
