//! Which endpoints stay when there are other zones.

ghost use Rattle.std.specs.Prelude.{◌≡◌};
ghost use Rattle.gk_commands.specs.Zones.{is_local};
ghost use Rattle.registry.specs.Registration.{kept_zones};
ghost use Rattle.registry.specs.NumberedEndpoints.{endpoints_of};

use crate::registered::Endpoints;
use compiler::Tables;
use gk_terms::Name;

/// Takes out each endpoint whose zone is not a local one. Takes no memory. Goes over all endpoints
/// once, by their numbers.
pub fn keep_zones(endpoints: &mut Endpoints, tables: &Tables)
    ensures { endpoints_of endpoints.new ≡ kept_zones tables.now.commands (endpoints_of
        endpoints.old) }
{
    let mut from = 0;
    while let Some((number, endpoint)) = endpoints.next_from(from) {
        from = number + 1;
        let id = *endpoint.id();
        if !is_local(tables, endpoint.zone()) {
            drop(endpoints.remove(&id));
        }
    }
}

/// Whether the zone of this very name is a local one; `-` is a name like any other here.
pub fn is_local(tables: &Tables, zone: &Name) -> bool
    ensures { result ≡ is_local tables.now.commands zone.now }
{
    match tables.zone_of(zone) {
        Some(zone) => zone.local,
        None => false,
    }
}
