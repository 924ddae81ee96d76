//! Copies of the registered endpoints, from which a registry is made elsewhere.

ghost use Rattle.std.specs.Prelude.{◌≡◌, IfOk};

use crate::endpoints::Endpoint;
use crate::registry::Registry;
use std::alloc::{AllocError, Global};
use std::marker::Model;

/// Copies of the endpoints of a registry, in order of registration, and how many there may be. They
/// take less time to make than a registry, which finds each by its ID, its aliases and what it
/// serves; so they are made while others wait, and the registry after it. A contract sees it as
/// `RegistryParts`.
#[derive(Drop)]
pub struct EndpointList {
    pub(crate) endpoints: Vec<Endpoint>,
    pub(crate) most: u32,
}

impl Model for EndpointList {
    ghost use Rattle.registry.specs.Registration.{IsRegistry, RegistryParts};

    ghost Value = { RegistryParts };

    ghost view = { λ l. record { endpoints = l.endpoints.items; most = l.most } };

    ghost invariant = { λ l. IsRegistry (record { endpoints = l.endpoints.items; most = l.most }) };
}

impl EndpointList {
    /// The registry of these endpoints. `AllocError` comes only if memory runs out.
    pub fn registry(&self, alloc: Global) -> Result<Registry, AllocError>
        ensures { IfOk result (λ registry. registry ≡ self.now) }
    {
        Registry::of(alloc, &self.endpoints, self.most)
    }
}
