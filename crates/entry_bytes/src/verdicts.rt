//! What an entry tells beside its event.

use bandwidth::Over;
use field_bytes::NameText;
use gk_terms::{Address, Units, Version};
use rulings::{
    ChangeRefusal, DestinationKind, RegisterRefusal, ReleaseRefusal, RouteRefusal,
    UnregisterRefusal,
};

/// What an entry tells beside its event. The call, the bandwidth and the ID that the event names
/// are not in it. The names stand in the entry.
#[derive(Drop)]
pub enum Verdict<'a> {
    /// The endpoint registers in this zone.
    Registered {
        zone: NameText<'a>,
    },
    /// The endpoint may not register.
    RegisterRefused {
        reason: RegisterRefusal,
    },
    /// The endpoint leaves.
    Unregistered,
    /// The endpoint may not leave.
    UnregisterRefused {
        reason: UnregisterRefusal,
    },
    /// The call is opened, from this zone to this destination.
    Admitted {
        zone: NameText<'a>,
        kind: DestinationKind,
        name: NameText<'a>,
        address: Address,
    },
    /// The endpoint, which is in this zone, answers a call, which is opened for it.
    Answering {
        zone: NameText<'a>,
        kind: DestinationKind,
        address: Address,
    },
    /// The open call of the number was admitted to the endpoint, with this bandwidth.
    Repeated {
        zone: NameText<'a>,
        units: Units,
        kind: DestinationKind,
        name: NameText<'a>,
        address: Address,
    },
    /// The caller is not registered.
    CallerNotRegistered,
    /// A call of the number is open.
    CallOpen {
        zone: NameText<'a>,
    },
    /// The digits lead nowhere.
    NoRoute {
        zone: NameText<'a>,
        refusal: RouteRefusal,
    },
    /// The digits lead to this destination, but a sum of the call would be above its limit.
    OverLimit {
        zone: NameText<'a>,
        kind: DestinationKind,
        name: NameText<'a>,
        address: Address,
        over: Over,
    },
    /// The call has the bandwidth that was asked for.
    Changed,
    /// The call keeps the bandwidth that it has.
    ChangeRefused {
        reason: ChangeRefusal,
    },
    /// The call is closed.
    Released,
    /// The call stays as it is.
    ReleaseRefused {
        reason: ReleaseRefusal,
    },
    /// The configuration that is asked for is in force, as this version.
    Reloaded {
        version: Version,
    },
}
