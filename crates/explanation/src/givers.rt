//! The gateways from which a technology prefix is learned.

ghost use Rattle.std.specs.Prelude.{◌≡◌, ◌++◌, IfOk, OnOk, flat_map};
ghost use Rattle.gk_commands.specs.Zones.{is_local};
ghost use Rattle.explanation.specs.Steps.{gives, giver_in, givers_of};

use compiler::Tables;
use gk_terms::{Name, TechPrefix};
use registry::{Endpoint, EndpointKind, Registry};
use std::alloc::{AllocError, Global};

/// The IDs of the gateways from which the prefix is learned, in order of registration. The time
/// grows with the square of the number of the endpoints.
pub(crate) fn givers(
    alloc: Global,
    tables: &Tables,
    registry: &Registry,
    technology: &Option<TechPrefix>,
) -> Result<Vec<Name>, AllocError>
    ensures { IfOk result (λ givers. givers.items
        ≡ givers_of tables.now.commands registry.now.endpoints technology.now) }
{
    match technology {
        Some(prefix) => givers_with(alloc, tables, registry, prefix),
        None => Ok(Vec::new(alloc)),
    }
}

/// The same of a prefix.
fn givers_with(
    alloc: Global,
    tables: &Tables,
    registry: &Registry,
    prefix: &TechPrefix,
) -> Result<Vec<Name>, AllocError>
    ensures { IfOk result (λ givers. givers.items
        ≡ flat_map (giver_in tables.now.commands prefix.now) registry.now.endpoints) }
{
    let mut givers = Vec::new(alloc);
    for place in 0..registry.len() {
        let Some(endpoint) = registry.at(place) else {
            unreachable!()
        };
        add_giver(&mut givers, tables, endpoint, prefix)?;
    }
    Ok(givers)
}

/// Adds the ID of an endpoint, if the prefix is learned from it.
fn add_giver(
    givers: &mut Vec<Name>,
    tables: &Tables,
    endpoint: &Endpoint,
    prefix: &TechPrefix,
) -> Result<(), AllocError>
    ensures { OnOk result (givers.new.items
        ≡ givers.old.items ++ giver_in tables.now.commands prefix.now endpoint.now) }
{
    if gives(tables, endpoint, prefix) {
        givers.push(*endpoint.id())?;
    }
    Ok(())
}

/// Whether the prefix is learned from an endpoint: it is a gateway of a local zone that registered
/// with it.
fn gives(tables: &Tables, endpoint: &Endpoint, prefix: &TechPrefix) -> bool
    ensures { result ≡ gives tables.now.commands prefix.now endpoint.now }
{
    endpoint.kind() == EndpointKind::Gateway
        && is_local(tables, endpoint.zone())
        && endpoint.has_technology(prefix)
}

/// Whether a zone is a local one.
fn is_local(tables: &Tables, zone: &Name) -> bool
    ensures { result ≡ is_local tables.now.commands zone.now }
{
    match tables.zone_of(zone) {
        Some(view) => view.local,
        None => false,
    }
}
