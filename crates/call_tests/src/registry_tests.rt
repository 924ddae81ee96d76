//! A registry, and an endpoint in few bytes: each of their calls once.

use command_reader::read;
use compiler::Tables;
use gk_terms::{Address, Dialled, Name, TechPrefix};
use registry::endpoints::{Endpoint, EndpointKind};
use registry::faults::{Duplicate, RegistryFault};
use registry::registry::Registry;
use std::alloc::Global;
use std::process::Abort;
use std::sync::Arc;
use std::test::Fail;

/// A gateway and what finds it: its ID, its zone, its alias and its technology prefix.
#[derive(Clone, Copy)]
struct Sought {
    id: Name,
    zone: Name,
    alias: Dialled,
    prefix: TechPrefix,
}

/// The gateway, registering in the first local zone.
fn gateway(rt: &impl Abort, alloc: Global, sought: &Sought) -> Endpoint {
    let Ok(zone) = Name::read(b"-") else {
        panic!(rt; "no name");
    };
    let address = Address::new([10, 0, 1, 1], 1720);
    let mut endpoint = Endpoint::new(alloc, EndpointKind::Gateway, sought.id, zone, address);
    assert!(rt; takes_both(&mut endpoint, sought));
    endpoint
}

/// Whether the endpoint takes the alias and the technology prefix.
fn takes_both(endpoint: &mut Endpoint, sought: &Sought) -> bool {
    endpoint.add_alias(sought.alias).is_ok() && endpoint.add_technology(sought.prefix).is_ok()
}

/// Whether the gateway is found by its place, its ID, its alias and its prefix.
fn is_found(registry: &Registry, tables: &Tables, sought: &Sought) -> bool {
    let gateway = registry.gateway(tables, &sought.zone, &sought.prefix, None);
    registry.at(0).is_some()
        && registry.endpoint(&sought.id).is_some()
        && registry.is_registered(&sought.id)
        && registry.by_alias(&sought.zone, &sought.alias).is_some()
        && gateway.is_some()
}

/// Whether the gateway is found in a copy.
fn is_found_in_copy(registry: &Registry, tables: &Tables, sought: &Sought) -> bool {
    match registry.copy() {
        Ok(copy) => is_found(&copy, tables, sought),
        Err(_) => false,
    }
}

/// Whether the gateway is found in the registry that is made of a list of the endpoints.
fn is_found_in_list(registry: &Registry, tables: &Tables, sought: &Sought, alloc: Global) -> bool {
    match &registry.list() {
        Ok(list) => match &list.registry(alloc) {
            Ok(made) => is_found(made, tables, sought),
            Err(_) => false,
        },
        Err(_) => false,
    }
}

/// The tables of two local zones.
fn tables_of(alloc: Global) -> Result<Arc<Tables>, Fail> {
    let commands = read(alloc, b"zone local a d\nzone local b d\n")?;
    let tables = Tables::compile(alloc, commands)?;
    Ok(Arc::new(alloc, tables)?)
}

#[test]
fn registers_finds_and_unregisters(rt: HostRuntime) -> Result<(), Fail> {
    let sought = Sought {
        id: Name::read(b"ga")?,
        zone: Name::read(b"a")?,
        alias: Dialled::read(b"7")?,
        prefix: TechPrefix::read(b"1#")?,
    };
    let tables = tables_of(rt.alloc())?;
    let mut registry = Registry::new(rt.alloc(), 1);
    assert_calls(&rt, &mut registry, &tables, rt.alloc(), &sought)
}

/// Registers the gateway, finds it, and unregisters it; another one with its alias is refused.
fn assert_calls(
    rt: &impl Abort,
    registry: &mut Registry,
    tables: &Tables,
    alloc: Global,
    sought: &Sought,
) -> Result<(), Fail> {
    let second = Sought {
        id: Name::read(b"gb")?,
        ..*sought
    };
    let newcomer = gateway(rt, alloc, sought);
    assert!(rt; registry.placement(&newcomer, tables) == Ok(sought.zone));
    registry.register(newcomer, tables)?;
    let refused = registry.register(gateway(rt, alloc, &second), tables);
    assert!(rt; refused == Err(RegistryFault::DuplicateAlias(Duplicate::E164)));
    registry.keep_zones(tables);
    assert!(rt; is_found(registry, tables, sought));
    assert!(rt; is_found_in_copy(registry, tables, sought));
    assert!(rt; is_found_in_list(registry, tables, sought, alloc));
    let gone = registry.unregister(&sought.id)?;
    assert!(rt; gone.has_alias(&sought.alias) && registry.len() == 0);
    Ok(())
}
