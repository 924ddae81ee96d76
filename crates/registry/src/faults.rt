//! Why a registry refuses.

use thiserror::Error;

/// What of a registration belongs to another endpoint.
#[derive(Clone, Copy, Debug, PartialEq, Eq)]
pub enum Duplicate {
    /// The ID is registered from another address.
    Id,
    /// An E.164 alias is another endpoint's.
    E164,
}

/// Why an endpoint may not register, room and memory aside.
#[derive(Clone, Copy, Debug, PartialEq, Eq, Error)]
pub enum PlacementFault {
    /// The zone is not a local zone of the configuration.
    #[error("unknown zone")]
    UnknownZone,
    /// The ID or an alias belongs to another endpoint.
    #[error("duplicate alias")]
    DuplicateAlias(Duplicate),
}

/// Why an endpoint or a registry refuses.
#[derive(Clone, Copy, Debug, PartialEq, Eq, Error)]
pub enum RegistryFault {
    /// The zone is not a local zone of the configuration.
    #[error("unknown zone")]
    UnknownZone,
    /// The ID or an alias belongs to another endpoint.
    #[error("duplicate alias")]
    DuplicateAlias(Duplicate),
    /// There are as many endpoints, aliases or technology prefixes as there may be.
    #[error("too many")]
    TooMany,
    /// Memory ran out.
    #[error("no memory")]
    NoMemory,
    /// No endpoint has the ID.
    #[error("not registered")]
    NotRegistered,
}

impl From<PlacementFault> for RegistryFault {
    ghost use Rattle.std.specs.Prelude.{◌≡◌};
    ghost use Rattle.registry.specs.Registration.{registry_fault_of};

    ghost from_gives = { λ fault wider. wider ≡ registry_fault_of fault };

    fn from(fault: PlacementFault) -> RegistryFault {
        match fault {
            PlacementFault::UnknownZone => RegistryFault::UnknownZone,
            PlacementFault::DuplicateAlias(duplicate) => RegistryFault::DuplicateAlias(duplicate),
        }
    }
}
