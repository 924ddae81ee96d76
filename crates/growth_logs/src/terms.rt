//! What the events are asked with.

use crate::logs::Log;
use gk_terms::{Address, Dialled, Name, TechPrefix};
use registry::{Endpoint, EndpointKind};
use std::alloc::Global;

/// How many calls are opened, to be released.
pub const MOST_CALLS: u32 = 1000;

/// The ID of a gateway, its zone, the digits that it dials, which are its alias too, and its
/// technology prefix.
#[derive(Clone, Copy)]
pub struct Terms {
    pub id: Name,
    pub zone: Name,
    pub digits: Dialled,
    pub prefix: TechPrefix,
}

impl Terms {
    /// The gateway `ga` of the zone `gk-a`, with 9123 and 3#.
    pub fn new() -> Option<Terms> {
        Some(Terms {
            id: Name::read(b"ga").ok()?,
            zone: Name::read(b"gk-a").ok()?,
            digits: Dialled::read(b"9123").ok()?,
            prefix: TechPrefix::read(b"3#").ok()?,
        })
    }

    /// The gateway, with its alias and its technology prefix.
    pub fn endpoint(&self, alloc: Global, log: &mut Log) -> Endpoint {
        let address = Address::new([10, 0, 1, 1], 1720);
        let mut endpoint = Endpoint::new(alloc, EndpointKind::Gateway, self.id, self.zone, address);
        add_alias(&mut endpoint, self.digits, log);
        add_technology(&mut endpoint, self.prefix, log);
        endpoint
    }
}

/// Gives an endpoint its alias.
fn add_alias(endpoint: &mut Endpoint, alias: Dialled, log: &mut Log) {
    if endpoint.add_alias(alias).is_ok() {
        return;
    }
    log.lacked(b"add_alias");
    if !endpoint.aliases().is_empty() || endpoint.add_alias(alias).is_err() {
        log.fault(b"add_alias");
    }
}

/// Gives an endpoint its technology prefix.
fn add_technology(endpoint: &mut Endpoint, prefix: TechPrefix, log: &mut Log) {
    if endpoint.add_technology(prefix).is_ok() {
        return;
    }
    log.lacked(b"add_technology");
    if !endpoint.technologies().is_empty() || endpoint.add_technology(prefix).is_err() {
        log.fault(b"add_technology");
    }
}
