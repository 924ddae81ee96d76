//! Requests, as they are read.

ghost use Rattle.std.specs.Prelude.{◌≡◌};
ghost use Rattle.std.specs.Option.{option_map};
ghost use Rattle.rulings.specs.Events.{event_meant};
ghost use Rattle.gk_protocol.specs.Demands as Spec;

use crate::owned_lines::OwnedLines;
use admission::LentEvent;
use gk_terms::{Dialled, Name, Units};
use registry::Endpoint;

/// A request of an endpoint, or of an operator.
#[derive(Drop)]
pub enum Request {
    /// `RRQ`, H.225.0's registration request. Options are this project's profile.
    Register {
        /// The sequence number, 1 to 65535, which the reply repeats.
        sequence: u32,
        /// The endpoint that asks to be registered, in the zone that it names.
        endpoint: Endpoint,
    },
    /// `URQ`, H.225.0's unregistration request.
    Unregister {
        /// The sequence number, 1 to 65535, which the reply repeats.
        sequence: u32,
        /// The ID that asks to be unregistered.
        id: Name,
    },
    /// `ARQ`, H.225.0's admission request.
    Admit {
        /// The sequence number, 1 to 65535, which the reply repeats.
        sequence: u32,
        /// The ID of the caller.
        id: Name,
        /// The number of the call, 1 to 4294967295.
        call: u32,
        /// What the caller dialled.
        digits: Dialled,
        /// The bandwidth that the call asks for, in units of 100 bit/s.
        units: Units,
    },
    /// `ANS`, of this project: H.225.0's admission request of an endpoint that is called and asks
    /// whether it may answer (its `answerCall` is true).
    Incoming {
        /// The sequence number, 1 to 65535, which the reply repeats.
        sequence: u32,
        /// The ID of the endpoint that asks.
        id: Name,
        /// The number of the call, 1 to 4294967295.
        call: u32,
        /// The bandwidth that it asks for, in units of 100 bit/s.
        units: Units,
    },
    /// `BRQ`, H.225.0's bandwidth request: another bandwidth for an open call.
    Change {
        /// The sequence number, 1 to 65535, which the reply repeats.
        sequence: u32,
        /// The ID of the endpoint that asks.
        id: Name,
        /// The number of the call, 1 to 4294967295.
        call: u32,
        /// The bandwidth that the call is to have, in units of 100 bit/s.
        units: Units,
    },
    /// `DRQ`, H.225.0's disengage request: to be released from an open call.
    Release {
        /// The sequence number, 1 to 65535, which the reply repeats.
        sequence: u32,
        /// The ID of the endpoint that asks.
        id: Name,
        /// The number of the call, 1 to 4294967295.
        call: u32,
    },
    /// `CFG`, of this project: another configuration, whole, in place of the one in force.
    Reload {
        /// The sequence number, 1 to 65535, which the reply repeats.
        sequence: u32,
        /// The lines of the configuration.
        lines: OwnedLines,
    },
    /// `TRY`, of this project: the calls so far under another configuration, which is not put in
    /// force.
    Try {
        /// The sequence number, 1 to 65535, which the reply repeats.
        sequence: u32,
        /// How many workers are asked for, 0 to 65535.
        workers: u32,
        /// The lines of the configuration.
        lines: OwnedLines,
    },
}

impl Request {
    /// The sequence number, 1 to 65535, which the reply repeats.
    pub fn sequence(&self) -> u32
        ensures { result ≡ Spec.sequence_of self.now }
    {
        match self {
            Request::Register { sequence, .. }
            | Request::Unregister { sequence, .. }
            | Request::Admit { sequence, .. }
            | Request::Incoming { sequence, .. }
            | Request::Change { sequence, .. }
            | Request::Release { sequence, .. }
            | Request::Reload { sequence, .. }
            | Request::Try { sequence, .. } => *sequence,
        }
    }

    /// The event that it asks for, of which the names and the endpoint are lent; nothing for a
    /// reload, which asks for one by its lines, and for a trial.
    pub fn event(&self) -> Option<LentEvent<'_>>
        ensures { option_map event_meant result ≡ Spec.asked_event self.now }
    {
        match self {
            Request::Register { endpoint, .. } => Some(LentEvent::Register(endpoint)),
            Request::Unregister { id, .. } => Some(LentEvent::Unregister { id }),
            Request::Admit {
                id,
                call,
                digits,
                units,
                ..
            } => Some(LentEvent::Admit {
                id,
                call: *call,
                digits,
                units: *units,
            }),
            Request::Incoming {
                id,
                call,
                units,
                ..
            } => Some(LentEvent::Incoming {
                id,
                call: *call,
                units: *units,
            }),
            Request::Change {
                id,
                call,
                units,
                ..
            } => Some(LentEvent::Change {
                id,
                call: *call,
                units: *units,
            }),
            Request::Release { id, call, .. } => Some(LentEvent::Release { id, call: *call }),
            Request::Reload { .. } | Request::Try { .. } => None,
        }
    }
}
