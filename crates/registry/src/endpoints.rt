//! Endpoints as they register.

ghost use Rattle.std.specs.Prelude.{◌≡◌, ◌≤◌, [], true, bytes_eq, length, IfOk, IsOk};
ghost use Rattle.std.specs.List.{IsDistinct};
ghost use Rattle.gk_terms.specs.Outcome.{ChangesUnlessMemory};
ghost use Rattle.registry.specs.declared.faults.RegistryFault.TheVariants.{NoMemory};
ghost use Rattle.registry.specs.Endpoint.{has_alias, has_technology, with_alias, with_technology};

use crate::faults::RegistryFault;
use gk_terms::limits::{MOST_ALIASES, MOST_TECHNOLOGIES};
use gk_terms::{Address, Dialled, Name, TechPrefix};
use std::alloc::{AllocError, Global};
use std::marker::Model;

/// What an endpoint is, by its registration.
#[derive(Clone, Copy, Debug, PartialEq, Eq)]
pub enum EndpointKind {
    /// A gateway, `GW`.
    Gateway,
    /// A terminal, `TERM`.
    Terminal,
}

/// A registered endpoint: its kind, ID, zone, address, at most 16 different E.164 aliases and at
/// most 8 different technology prefixes. What a registration asks of the endpoint that it replaces
/// stands at the beginning, usually in one cache line: its address and where its lists are. What a
/// call asks of its caller, which is the zone, comes next. A contract sees it as `EndpointParts`.
#[derive(Drop)]
pub struct Endpoint {
    pub(crate) kind: EndpointKind,
    pub(crate) address: Address,
    pub(crate) aliases: Vec<Dialled>,
    pub(crate) technologies: Vec<TechPrefix>,
    pub(crate) zone: Name,
    pub(crate) id: Name,
}

impl Model for Endpoint {
    ghost use Rattle.registry.specs.Endpoint.{EndpointParts, KeepsCounts};

    ghost Value = { EndpointParts };

    ghost view = { λ e. record {
      kind = e.kind;
      id = e.id;
      zone = e.zone;
      address = e.address;
      aliases = e.aliases.items;
      technologies = e.technologies.items;
    } };

    ghost invariant = { λ e. KeepsCounts (record {
      kind = e.kind;
      id = e.id;
      zone = e.zone;
      address = e.address;
      aliases = e.aliases.items;
      technologies = e.technologies.items;
    }) };
}

impl Endpoint {
    /// An endpoint without aliases and technology prefixes. Takes no memory.
    pub fn new(
        alloc: Global,
        kind: EndpointKind,
        id: Name,
        zone: Name,
        address: Address,
    ) -> Endpoint
        ensures { result ≡ record {
          kind = kind;
          id = id;
          zone = zone;
          address = address;
          aliases = [];
          technologies = [];
        } }
    {
        Endpoint {
            kind,
            id,
            zone,
            address,
            aliases: Vec::new(alloc),
            technologies: Vec::new(alloc),
        }
    }

    /// An equal endpoint. `AllocError` comes only if memory runs out.
    pub fn copy(&self) -> Result<Endpoint, AllocError>
        ensures { IfOk result (λ copy. copy ≡ self.now) }
    {
        Ok(Endpoint {
            kind: self.kind,
            id: self.id,
            zone: self.zone,
            address: self.address,
            aliases: self.aliases.clone()?,
            technologies: self.technologies.clone()?,
        })
    }

    /// Adds an alias after the others. Nothing changes if the endpoint has it already; that takes
    /// no memory. A seventeenth is `TooMany`. If memory runs out it is `NoMemory`. After an error
    /// nothing has changed.
    pub fn add_alias(&mut self, alias: Dialled) -> Result<(), RegistryFault>
        ensures changes { ChangesUnlessMemory NoMemory self.old self.new
            (with_alias self.old alias) result }
        ensures again { has_alias self.old alias ≡ true → IsOk result }
    {
        if self.has_alias(&alias) {
            return Ok(());
        }
        if self.aliases.len() >= MOST_ALIASES {
            return Err(RegistryFault::TooMany);
        }
        // The first alias makes room for four: this is an endpoint that is being read, and its copy
        // among those that are registered takes no more room than it needs.
        match self.aliases.reserve(1) {
            Ok(()) => {
                self.aliases.push_reserved(alias);
                Ok(())
            }
            Err(_) => Err(RegistryFault::NoMemory),
        }
    }

    /// Adds a technology prefix after the others. Nothing changes if the endpoint has it already;
    /// that takes no memory. A ninth is `TooMany`. If memory runs out it is `NoMemory`. After an
    /// error nothing has changed.
    pub fn add_technology(&mut self, prefix: TechPrefix) -> Result<(), RegistryFault>
        ensures changes { ChangesUnlessMemory NoMemory self.old self.new
            (with_technology self.old prefix) result }
        ensures again { has_technology self.old prefix ≡ true → IsOk result }
    {
        if self.has_technology(&prefix) {
            return Ok(());
        }
        if self.technologies.len() >= MOST_TECHNOLOGIES {
            return Err(RegistryFault::TooMany);
        }
        match self.technologies.reserve(1) {
            Ok(()) => {
                self.technologies.push_reserved(prefix);
                Ok(())
            }
            Err(_) => Err(RegistryFault::NoMemory),
        }
    }

    /// Whether the alias is one of the endpoint's.
    pub fn has_alias(&self, alias: &Dialled) -> bool
        ensures { result ≡ has_alias self.now alias.now }
    {
        self.aliases.contains(alias)
    }

    /// Whether the technology prefix is one of the endpoint's.
    pub fn has_technology(&self, prefix: &TechPrefix) -> bool
        ensures { result ≡ has_technology self.now prefix.now }
    {
        self.technologies.contains(prefix)
    }

    /// What the endpoint is.
    pub fn kind(&self) -> EndpointKind
        ensures { result ≡ self.now.kind }
    {
        self.kind
    }

    /// Its ID.
    pub fn id(&self) -> &Name
        ensures { result.now ≡ self.now.id }
    {
        &self.id
    }

    /// The zone in which it registers.
    pub fn zone(&self) -> &Name
        ensures { result.now ≡ self.now.zone }
    {
        &self.zone
    }

    /// Its call signalling address.
    pub fn address(&self) -> Address
        ensures { result ≡ self.now.address }
    {
        self.address
    }

    /// Its E.164 aliases, at most 16 and none twice, in the order in which they were given.
    pub fn aliases(&self) -> &[Dialled]
        ensures value { result.now ≡ self.now.aliases }
        ensures within { length result.now ≤ MOST_ALIASES }
        ensures different { IsDistinct bytes_eq result.now }
    {
        &self.aliases
    }

    /// Its technology prefixes, at most 8 and none twice, in the order in which they were given.
    pub fn technologies(&self) -> &[TechPrefix]
        ensures value { result.now ≡ self.now.technologies }
        ensures within { length result.now ≤ MOST_TECHNOLOGIES }
        ensures different { IsDistinct bytes_eq result.now }
    {
        &self.technologies
    }
}
