//! The registered endpoints: who may register, and who is found.

ghost use Rattle.std.specs.Prelude.{◌≡◌, [], Some, false, length, slice_get, IfOk, IfSome, OnOk, OnErr};
ghost use Rattle.std.specs.Option.{option_copied};
ghost use Rattle.gk_terms.specs.Outcome.{Changes, ChangesUnlessMemory};
ghost use Rattle.registry.specs.declared.faults.RegistryFault.TheVariants.{NoMemory};
ghost use Rattle.registry.specs.Registration.{IsRegistry, endpoint_of, is_registered, by_alias, is_full_for, alias_is_taken, placement_of, with_endpoint, registered_in, unregistered_in, with_kept_zones};
ghost use Rattle.compiler.specs.Plan.{row_meant};
ghost use Rattle.compiler.specs.Technology.{longest_learned};
ghost use Rattle.registry.specs.Learned.{learned_prefixes};
ghost use Rattle.registry.specs.Gateway.{gateway_of};
ghost use Rattle.registry.specs.Registering.{placement_among};

use crate::endpoint_list::EndpointList;
use crate::endpoints::Endpoint;
use crate::faults::{Duplicate, PlacementFault, RegistryFault};
use crate::keeping;
use crate::registered::Endpoints;
use compiler::{RowNo, Tables};
use gk_terms::{Dialled, Name, TechPrefix};
use indexmap::IndexMap;
use std::alloc::{AllocError, Global};
use std::marker::Model;

/// The registered endpoints, in order of registration, and how many there may be. A contract sees
/// it as `RegistryParts`.
#[derive(Drop)]
pub struct Registry {
    endpoints: Endpoints,
    most: u32,
    alloc: Global,
}

impl Model for Registry {
    ghost use Rattle.std.specs.Prelude.{◌≤◌, length};
    ghost use Rattle.registry.specs.Registration.{RegistryParts};
    ghost use Rattle.registry.specs.NumberedEndpoints.{endpoints_of};

    ghost Value = { RegistryParts };

    ghost view = { λ r. record { endpoints = endpoints_of r.endpoints; most = r.most } };

    ghost invariant = { λ r. length (endpoints_of r.endpoints) ≤ r.most };
}

impl Registry {
    /// No endpoints, and how many there may be. Takes no memory.
    pub fn new(alloc: Global, most: u32) -> Registry
        ensures { result ≡ record { endpoints = []; most = most } }
    {
        Registry {
            endpoints: Endpoints::new(alloc),
            most,
            alloc,
        }
    }

    /// The number of endpoints.
    pub fn len(&self) -> usize
        ensures value { result ≡ length self.now.endpoints }
        ensures sound { IsRegistry self.now }
    {
        self.endpoints.len()
    }

    /// The endpoint at this place in the order of registration, from 0. Its time grows with the
    /// place.
    pub fn at(&self, place: usize) -> Option<&Endpoint>
        ensures { option_copied result ≡ slice_get self.now.endpoints place }
    {
        self.endpoints.at(place)
    }

    /// The endpoint with this ID.
    pub fn endpoint(&self, id: &Name) -> Option<&Endpoint>
        ensures { option_copied result ≡ endpoint_of self.now.endpoints id.now }
    {
        self.endpoints.endpoint(id)
    }

    /// Whether an endpoint has this ID.
    pub fn is_registered(&self, id: &Name) -> bool
        ensures { result ≡ is_registered self.now.endpoints id.now }
    {
        self.endpoints.is_registered(id)
    }

    /// The endpoint of that zone with that E.164 alias.
    pub fn by_alias(&self, zone: &Name, number: &Dialled) -> Option<&Endpoint>
        ensures { option_copied result ≡ by_alias self.now.endpoints zone.now number.now }
    {
        self.endpoints.by_alias(zone, number)
    }

    /// The gateway that serves the zone with the prefix, of the greatest priority for the row that
    /// was used, if one was: of equal priority the one that registered first, and none of priority
    /// 0. The row is to be one of these tables'; nothing is promised for another. The time grows
    /// with the number of the gateways that the lines of the row name, and not with that of the
    /// endpoints.
    pub fn gateway(
        &self,
        tables: &Tables,
        zone: &Name,
        prefix: &TechPrefix,
        row: Option<RowNo>,
    ) -> Option<&Endpoint>
        ensures { IfSome (row_meant tables.now.commands row) (λ used. option_copied result
            ≡ gateway_of tables.now.commands self.now.endpoints zone.now prefix.now used) }
    {
        match tables.gateways(row) {
            Some(named) => self.endpoints.chosen(zone, prefix, named),
            None => {
                let named = IndexMap::new(self.alloc);
                self.endpoints.chosen(zone, prefix, &named)
            }
        }
    }

    /// The longest technology prefix with which the digits begin, of those that have more than
    /// `longer_than` characters and that a registered gateway gave whose zone is a local one of
    /// these tables. Terminals' prefixes do not count. Takes no memory. The time does not grow with
    /// the number of the endpoints or of their prefixes: at most one text is looked up for each
    /// length that a prefix may have, and of the zones of a prefix those up to the first local one
    /// are asked. This project's profile.
    pub fn learned(
        &self,
        tables: &Tables,
        digits: &Dialled,
        longer_than: usize,
    ) -> Option<TechPrefix>
        ensures { result ≡ longest_learned
            (learned_prefixes tables.now.commands self.now.endpoints) digits.now longer_than }
    {
        self.endpoints
            .learned(tables, digits.as_bytes(), longer_than)
    }

    #[tactic(auto, using(crate::proofs::RegisteringLemmas::placement_of_local))]
    /// The local zone in which the endpoint may register, room aside. It is the zone that the
    /// endpoint means, or the first fault of `UnknownZone`, if that is not a local one,
    /// `DuplicateAlias(Id)`, if the ID is registered from another address, and
    /// `DuplicateAlias(E164)`, if an alias is another endpoint's, in whatever zone.
    pub fn placement(&self, endpoint: &Endpoint, tables: &Tables) -> Result<Name, PlacementFault>
        ensures { result ≡ placement_of tables.now.commands self.now.endpoints endpoint.now }
    {
        self.placement_in(endpoint, tables.local_zone(endpoint.zone()))
    }

    #[tactic(auto, using(crate::proofs::RegisteringLemmas::free_if_placed))]
    /// Registers the endpoint in the zone that it means: in the place of the one with its ID, or
    /// else after the others. It is refused as `placement` says, and then as `TooMany`, if it is a
    /// new one and there are as many as there may be. If memory runs out it is `NoMemory`; so it is
    /// if each of the 4,294,967,295 numbers is in use. After an error nothing has changed.
    pub fn register(&mut self, endpoint: Endpoint, tables: &Tables) -> Result<(), RegistryFault>
        ensures { ChangesUnlessMemory NoMemory self.old self.new
            (registered_in tables.now.commands self.old endpoint) result }
    {
        let zone = match self.placement(&endpoint, tables) {
            Ok(local) => local,
            Err(fault) => return Err(RegistryFault::from(fault)),
        };
        if self.is_full_for(&endpoint) {
            return Err(RegistryFault::TooMany);
        }
        match self.put(&endpoint, zone) {
            Ok(()) => Ok(()),
            Err(_) => Err(RegistryFault::NoMemory),
        }
    }

    /// Puts a copy of the endpoint into this zone: in the place of the one with its ID, or else
    /// after the others. No alias of it may be another's, and there has to be room for it; a caller
    /// that has asked for its `placement` knows the one, so that it is not looked up again. If
    /// memory runs out, or each of the 4,294,967,295 numbers is in use, nothing has changed.
    pub fn put(&mut self, endpoint: &Endpoint, zone: Name) -> Result<(), AllocError>
        requires free { alias_is_taken self.old.endpoints endpoint.now ≡ false }
        requires room { is_full_for self.old endpoint.now ≡ false }
        ensures ok { OnOk result (self.new ≡ record self.old {
          endpoints = with_endpoint self.old.endpoints (record endpoint.now { zone = zone });
        }) }
        ensures err { OnErr result (self.new ≡ self.old) }
    {
        match self.endpoints.put(endpoint, &zone, self.alloc) {
            Ok(()) => Ok(()),
            Err(error) => Err(error),
        }
    }

    /// Takes out the endpoint with this ID and gives it. Without one it is `NotRegistered`. Takes
    /// no memory.
    pub fn unregister(&mut self, id: &Name) -> Result<Endpoint, RegistryFault>
        ensures changes { Changes self.old self.new (unregistered_in self.old id.now) result }
        ensures given { IfOk result (λ e. endpoint_of self.old.endpoints id.now ≡ Some e) }
    {
        match self.endpoints.remove(id) {
            Some(held) => Ok(held.into_endpoint()),
            None => Err(RegistryFault::NotRegistered),
        }
    }

    /// Takes out each endpoint whose zone is not a local zone of these tables; the others stay in
    /// order. Takes no memory. The time grows with the number of the endpoints: each is looked at
    /// once, since any of them may be in a zone that has gone.
    pub fn keep_zones(&mut self, tables: &Tables)
        ensures { self.new ≡ with_kept_zones tables.now.commands self.old }
    {
        keeping::keep_zones(&mut self.endpoints, tables);
    }

    /// An equal registry. `AllocError` comes only if memory runs out.
    pub fn copy(&self) -> Result<Registry, AllocError>
        ensures { IfOk result (λ copy. copy ≡ self.now) }
    {
        let most = self.most;
        Ok(Registry {
            endpoints: self.endpoints.copy(self.alloc)?,
            most,
            alloc: self.alloc,
        })
    }

    /// Copies of its endpoints, from which an equal registry can be made. `AllocError` comes only if
    /// memory runs out.
    pub fn list(&self) -> Result<EndpointList, AllocError>
        ensures { IfOk result (λ list. list ≡ self.now) }
    {
        // So it is known that they are those of a registry.
        let _count = self.len();
        Ok(EndpointList {
            endpoints: self.endpoints.list(self.alloc)?,
            most: self.most,
        })
    }

    /// A registry of copies of these endpoints. `AllocError` comes only if memory runs out.
    pub(crate) fn of(
        alloc: Global,
        endpoints: &[Endpoint],
        most: u32,
    ) -> Result<Registry, AllocError>
        requires { IsRegistry (record { endpoints = endpoints.now; most = most }) }
        ensures { IfOk result (λ made. made ≡ record { endpoints = endpoints.now; most = most }) }
    {
        Ok(Registry {
            endpoints: Endpoints::of(alloc, endpoints)?,
            most,
            alloc,
        })
    }

    /// The zone that was looked up, if the endpoint may register in it, room aside.
    fn placement_in(&self, endpoint: &Endpoint, zone: Option<Name>) -> Result<Name, PlacementFault>
        ensures { result ≡ placement_among self.now.endpoints endpoint.now zone }
    {
        let Some(zone) = zone else {
            return Err(PlacementFault::UnknownZone);
        };
        if self.endpoints.id_is_taken(endpoint) {
            return Err(PlacementFault::DuplicateAlias(Duplicate::Id));
        }
        if self.endpoints.alias_is_taken(endpoint) {
            return Err(PlacementFault::DuplicateAlias(Duplicate::E164));
        }
        Ok(zone)
    }

    /// Whether the endpoint is a new one and there are as many as there may be.
    fn is_full_for(&self, endpoint: &Endpoint) -> bool
        ensures { result ≡ is_full_for self.now endpoint.now }
    {
        self.most as usize <= self.endpoints.len() && !self.endpoints.is_registered(endpoint.id())
    }
}
