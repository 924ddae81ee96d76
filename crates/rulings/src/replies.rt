//! Replies to events.

use crate::routes::{Destination, RouteRefusal};
use bandwidth::Over;
use gk_terms::{Name, Units, Version};
use registry::Duplicate;

/// Why a registration is refused. Which case has which of H.225.0's reasons is this project's
/// profile.
#[derive(Clone, Copy, Debug, PartialEq, Eq)]
pub enum RegisterRefusal {
    /// The zone is not a local zone: undefinedReason.
    UnknownZone,
    /// Another endpoint has the ID or an alias: duplicateAlias.
    DuplicateAlias(Duplicate),
    /// As many endpoints are registered as the limit allows, and this one is not among them:
    /// undefinedReason.
    EndpointsFull,
    /// The record has no free place for the entry: undefinedReason.
    RecordFull,
    /// Memory ran out: undefinedReason.
    NoMemory,
}

/// Why an unregistration is refused. Which case has which of H.225.0's reasons is this project's
/// profile.
#[derive(Clone, Copy, Debug, PartialEq, Eq)]
pub enum UnregisterRefusal {
    /// The ID is not registered: notCurrentlyRegistered.
    NotRegistered,
    /// The ID owns an open call: callInProgress.
    CallInProgress,
    /// The record has no free place for the entry: undefinedReason.
    RecordFull,
    /// Memory ran out: undefinedReason.
    NoMemory,
}

/// Why an admission is refused. Which case has which of H.225.0's reasons is this project's
/// profile.
#[derive(Clone, Copy, Debug, PartialEq, Eq)]
pub enum AdmitRefusal {
    /// The caller is not a registered endpoint: callerNotRegistered.
    CallerNotRegistered,
    /// A call of this number is open, whoever owns it; of an answer, one that was not admitted to
    /// the endpoint that asks: undefinedReason.
    CallOpen,
    /// The dialled digits lead nowhere: calledPartyNotRegistered.
    NoRoute(RouteRefusal),
    /// A sum of the call would be above its limit: requestDenied.
    OverLimit(Over),
    /// As many calls are open as the limit allows: resourceUnavailable.
    CallsFull,
    /// The record lacks the free places for the entry and, if a call would be opened, for the entry
    /// of its release: resourceUnavailable.
    RecordFull,
    /// Memory ran out: resourceUnavailable.
    NoMemory,
}

/// Why another bandwidth is refused. Which case has which of H.225.0's reasons is this project's
/// profile.
#[derive(Clone, Copy, Debug, PartialEq, Eq)]
pub enum ChangeRefusal {
    /// No call of the number is open: undefinedReason.
    NoCall,
    /// The call belongs to another endpoint: invalidPermission.
    NotYours,
    /// A sum of the call would be above its limit: insufficientResources.
    OverLimit(Over),
    /// The record has no free place for the entry: undefinedReason.
    RecordFull,
    /// Memory ran out: undefinedReason.
    NoMemory,
}

/// Why a release is refused. Which case has which of H.225.0's reasons is this project's profile.
#[derive(Clone, Copy, Debug, PartialEq, Eq)]
pub enum ReleaseRefusal {
    /// The call is not the endpoint's own, and the ID is not registered: notRegistered.
    NotRegistered,
    /// The call belongs to another endpoint: requestToDropOther.
    NotYours,
    /// No call of the number is open: requestToDropOther.
    NoCall,
}

/// Why a configuration is not replaced. The words are this project's profile.
#[derive(Clone, Copy, Debug, PartialEq, Eq)]
pub enum ReloadRefusal {
    /// The configuration was replaced as often as the limit allows.
    ReloadsSpent,
    /// The record has no free place for the entry.
    RecordFull,
    /// Memory ran out.
    NoMemory,
}

/// What is replied to a request.
#[derive(Clone, Copy, Debug, PartialEq, Eq)]
pub enum Reply {
    /// `RCF`, H.225.0's registration confirm, with the zone in which the endpoint is registered.
    Registered {
        id: Name,
        zone: Name,
    },
    /// `RRJ`, H.225.0's registration reject.
    RegisterRefused {
        id: Name,
        reason: RegisterRefusal,
    },
    /// `UCF`, H.225.0's unregistration confirm.
    Unregistered {
        id: Name,
    },
    /// `URJ`, H.225.0's unregistration reject.
    UnregisterRefused {
        id: Name,
        reason: UnregisterRefusal,
    },
    /// `ACF`, H.225.0's admission confirm, with the bandwidth in units of 100 bit/s.
    Admitted {
        call: u32,
        destination: Destination,
        units: Units,
    },
    /// `ARJ`, H.225.0's admission reject.
    AdmitRefused {
        call: u32,
        reason: AdmitRefusal,
    },
    /// `BCF`, H.225.0's bandwidth confirm, with the bandwidth in units of 100 bit/s.
    Changed {
        call: u32,
        units: Units,
    },
    /// `BRJ`, H.225.0's bandwidth reject.
    ChangeRefused {
        call: u32,
        reason: ChangeRefusal,
    },
    /// `DCF`, H.225.0's disengage confirm.
    Released {
        call: u32,
    },
    /// `DRJ`, H.225.0's disengage reject.
    ReleaseRefused {
        call: u32,
        reason: ReleaseRefusal,
    },
    /// `CCF`, of this project: the new configuration is in force, as this version.
    Reloaded {
        version: Version,
    },
    /// `CRJ`, of this project: the configuration in force stays.
    ReloadRefused {
        reason: ReloadRefusal,
    },
}
