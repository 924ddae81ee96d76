//! Events: what a core is asked.

ghost use Rattle.std.specs.Prelude.{◌≡◌, IfSome};
ghost use Rattle.gk_commands.specs.Accepted.{IsAccepted};
ghost use Rattle.rulings.specs.Events.{plain, event_meant, put_in_force};

use compiler::Tables;
use gk_terms::{Dialled, Name, Units};
use registry::Endpoint;
use std::sync::Arc;

/// What an endpoint or an operator asks of the core.
#[derive(Drop)]
pub enum Event {
    /// To be registered, in the zone that it names.
    Register(Endpoint),
    /// To be unregistered.
    Unregister {
        /// The ID of the endpoint.
        id: Name,
    },
    /// To be admitted to a call.
    Admit {
        /// The ID of the caller.
        id: Name,
        /// The number of the call, 1 to 4294967295.
        call: u32,
        /// What the caller dialled.
        digits: Dialled,
        /// The bandwidth that the call asks for, in units of 100 bit/s.
        units: Units,
    },
    /// To answer a call.
    Incoming {
        /// The ID of the endpoint that answers.
        id: Name,
        /// The number of the call, 1 to 4294967295.
        call: u32,
        /// The bandwidth that it asks for, in units of 100 bit/s.
        units: Units,
    },
    /// Another bandwidth for an open call.
    Change {
        /// The ID of the endpoint that owns the call.
        id: Name,
        /// The number of the call, 1 to 4294967295.
        call: u32,
        /// The bandwidth that the call asks for, in units of 100 bit/s.
        units: Units,
    },
    /// To be released from an open call.
    Release {
        /// The ID of the endpoint that owns the call.
        id: Name,
        /// The number of the call, 1 to 4294967295.
        call: u32,
    },
    /// Another configuration, whole, in place of the one in force: these are its tables.
    Reload(Arc<Tables>),
}

/// An event, of which the names, the endpoint and the tables are lent: an event is large, and
/// whoever looks at it keeps little of it.
#[derive(Clone, Copy)]
pub enum LentEvent<'a> {
    /// `Event::Register`.
    Register(&'a Endpoint),
    /// `Event::Unregister`.
    Unregister {
        id: &'a Name,
    },
    /// `Event::Admit`.
    Admit {
        id: &'a Name,
        call: u32,
        digits: &'a Dialled,
        units: Units,
    },
    /// `Event::Incoming`.
    Incoming {
        id: &'a Name,
        call: u32,
        units: Units,
    },
    /// `Event::Change`.
    Change {
        id: &'a Name,
        call: u32,
        units: Units,
    },
    /// `Event::Release`.
    Release {
        id: &'a Name,
        call: u32,
    },
    /// `Event::Reload`.
    Reload(&'a Tables),
}

impl LentEvent<'_> {
    /// Does nothing: it tells the proofs that the tables of a reload are of an accepted
    /// configuration.
    pub fn is_of_an_accepted_configuration(&self)
        ensures { IfSome (put_in_force (event_meant self.now)) IsAccepted }
    {
        if let LentEvent::Reload(tables) = self {
            let _count = tables.commands().len();
        }
    }
}

/// What kind of event it is.
#[derive(Clone, Copy, Debug, PartialEq, Eq)]
pub enum EventKind {
    /// A registration.
    Registration,
    /// An unregistration.
    Unregistration,
    /// An admission.
    Admission,
    /// An answer to a call.
    Incoming,
    /// A bandwidth change.
    BandwidthChange,
    /// A release.
    Release,
    /// A reload of the configuration.
    Reload,
}

impl Event {
    /// The same event, of which the names, the endpoint and the tables are lent.
    pub fn lent(&self) -> LentEvent<'_>
        ensures { event_meant result ≡ plain self.now }
    {
        match self {
            Event::Register(endpoint) => LentEvent::Register(endpoint),
            Event::Unregister { id } => LentEvent::Unregister { id },
            Event::Admit {
                id,
                call,
                digits,
                units,
            } => LentEvent::Admit {
                id,
                call: *call,
                digits,
                units: *units,
            },
            Event::Incoming { id, call, units } => LentEvent::Incoming {
                id,
                call: *call,
                units: *units,
            },
            Event::Change { id, call, units } => LentEvent::Change {
                id,
                call: *call,
                units: *units,
            },
            Event::Release { id, call } => LentEvent::Release { id, call: *call },
            Event::Reload(tables) => LentEvent::Reload(tables),
        }
    }
}
