//! A registered endpoint in a place of its own.

ghost use Rattle.std.specs.Prelude.{◌≡◌, IfOk};
ghost use Rattle.std.specs.Option.{option_copied};

use crate::endpoints::Endpoint;
use gk_terms::Name;
use std::alloc::{AllocError, Global};
use std::marker::Model;

/// An endpoint in a place of its own, so that a map of endpoints is small enough to be searched in
/// the near caches, and moves an address and never an endpoint. A contract sees the endpoint.
#[derive(Drop)]
pub struct HeldEndpoint {
    endpoint: Box<Endpoint>,
}

impl Model for HeldEndpoint {
    ghost use Rattle.registry.specs.Endpoint.{EndpointParts};

    ghost Value = { EndpointParts };

    ghost view = { λ h. h.endpoint.value };
}

impl HeldEndpoint {
    /// A copy of the endpoint in this zone, in a place of its own. Its lists get the room that they
    /// need and no more, since a registered endpoint stays. `AllocError` comes only if memory runs
    /// out.
    pub fn copied(
        alloc: Global,
        endpoint: &Endpoint,
        zone: &Name,
    ) -> Result<HeldEndpoint, AllocError>
        ensures { IfOk result (λ held. held ≡ record endpoint.now { zone = zone.now }) }
    {
        let aliases = Vec::from_slice(alloc, &endpoint.aliases)?;
        let technologies = Vec::from_slice(alloc, &endpoint.technologies)?;
        Ok(HeldEndpoint {
            endpoint: Box::new(
                alloc,
                Endpoint {
                    kind: endpoint.kind,
                    address: endpoint.address,
                    aliases,
                    technologies,
                    zone: *zone,
                    id: endpoint.id,
                },
            )?,
        })
    }

    /// The endpoint.
    pub fn endpoint(&self) -> &Endpoint
        ensures { result.now ≡ self.now }
    {
        &self.endpoint
    }

    /// The endpoint in place of this.
    pub fn into_endpoint(self) -> Endpoint
        ensures { result ≡ self }
    {
        Box::into_inner(self.endpoint)
    }
}

/// The endpoint that is held, if one is.
pub fn endpoint_in(held: Option<&HeldEndpoint>) -> Option<&Endpoint>
    ensures { option_copied result ≡ option_copied held.entry }
{
    match held {
        Some(held) => Some(held.endpoint()),
        None => None,
    }
}
