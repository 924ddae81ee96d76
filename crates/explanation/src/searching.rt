//! The target zone, and which endpoint of it is looked for.

ghost use Rattle.std.specs.Prelude.{◌≡◌, IfOk, IfSome, IsSome};
ghost use Rattle.compiler.specs.Plan.{row_meant, target_of};
ghost use Rattle.compiler.specs.Technology.{default_technology_of};
ghost use Rattle.explanation.specs.Steps.{gateways_by, gateways_in, reached_by, search_by, search_by_default, search_in, sought};

use crate::candidates;
use crate::steps::{Candidate, Reached, Search};
use compiler::{Plan, RowNo, Tables};
use gk_terms::{Dialled, Name, TechPrefix};
use registry::Registry;
use std::alloc::{AllocError, Global};

/// The zone to which a plan leads a caller of this zone.
pub(crate) fn reached(tables: &Tables, plan: &Plan, caller: &Name) -> Reached
    requires { IsSome (target_of tables.now.commands plan.now) }
    ensures { IfSome (target_of tables.now.commands plan.now)
        (λ target. result ≡ reached_by caller.now target) }
{
    match plan {
        Plan::Remote(zone) => Reached::Remote(*tables.zone_name(*zone)),
        Plan::Local { zone, .. } => Reached::Local(*tables.zone_name(*zone)),
        Plan::Caller { .. } => Reached::Local(*caller),
        Plan::UnknownPrefix => Reached::Nowhere,
    }
}

/// Which endpoint is looked for in the zone to which a plan leads.
pub(crate) fn search(
    tables: &Tables,
    registry: &Registry,
    plan: &Plan,
    caller: &Name,
    digits: &Dialled,
) -> Search
    requires { IsSome (target_of tables.now.commands plan.now) }
    ensures { IfSome (target_of tables.now.commands plan.now) (λ target. result ≡ search_by
        tables.now.commands registry.now.endpoints caller.now digits.now target) }
{
    match plan {
        Plan::Local {
            zone,
            technology,
            ..
        } => search_in(
            tables,
            registry,
            tables.zone_name(*zone),
            digits,
            technology,
        ),
        Plan::Caller { technology } => search_in(tables, registry, caller, digits, technology),
        Plan::Remote(_) | Plan::UnknownPrefix => Search::Nobody,
    }
}

/// The same in a local zone, by the technology prefix of the digits.
fn search_in(
    tables: &Tables,
    registry: &Registry,
    zone: &Name,
    digits: &Dialled,
    technology: &Option<TechPrefix>,
) -> Search
    ensures { result ≡ search_in tables.now.commands registry.now.endpoints digits.now zone.now
        technology.now }
{
    match technology {
        Some(prefix) => Search::Technology(*prefix),
        None => match registry.by_alias(zone, digits) {
            Some(endpoint) => Search::Alias(*endpoint.id()),
            None => search_by_default(tables),
        },
    }
}

/// The same if no endpoint has the digits as an alias.
fn search_by_default(tables: &Tables) -> Search
    ensures { result ≡ search_by_default (default_technology_of tables.now.commands) }
{
    match tables.default_technology() {
        Some(prefix) => Search::Default(prefix),
        None => Search::NoDefault,
    }
}

/// The technology prefix with which gateways are looked for.
pub(crate) fn sought(search: &Search) -> Option<TechPrefix>
    ensures { result ≡ sought search.now }
{
    match search {
        Search::Technology(prefix) | Search::Default(prefix) => Some(*prefix),
        Search::Nobody | Search::Alias(_) | Search::NoDefault => None,
    }
}

/// The gateways with the prefix, if there is one, in the zone to which a plan leads, the first
/// choice first.
pub(crate) fn gateways(
    alloc: Global,
    tables: &Tables,
    registry: &Registry,
    plan: &Plan,
    caller: &Name,
    prefix: &Option<TechPrefix>,
) -> Result<Vec<Candidate>, AllocError>
    requires { IsSome (target_of tables.now.commands plan.now) }
    ensures { IfOk result (λ list. IfSome (target_of tables.now.commands plan.now) (λ target.
        list.items ≡ gateways_by tables.now.commands registry.now.endpoints caller.now prefix.now
        target)) }
{
    match plan {
        Plan::Local { zone, row, .. } => gateways_in(
            alloc,
            tables,
            registry,
            tables.zone_name(*zone),
            *row,
            prefix,
        ),
        Plan::Caller { .. } => gateways_in(alloc, tables, registry, caller, None, prefix),
        Plan::Remote(_) | Plan::UnknownPrefix => Ok(Vec::new(alloc)),
    }
}

/// The same in a local zone.
fn gateways_in(
    alloc: Global,
    tables: &Tables,
    registry: &Registry,
    zone: &Name,
    row: Option<RowNo>,
    prefix: &Option<TechPrefix>,
) -> Result<Vec<Candidate>, AllocError>
    ensures { IfOk result (λ list. IfSome (row_meant tables.now.commands row) (λ used. list.items
        ≡ gateways_in tables.now.commands registry.now.endpoints zone.now used prefix.now)) }
{
    match prefix {
        Some(prefix) => candidates::gateways(alloc, tables, registry, zone, prefix, row),
        None => Ok(Vec::new(alloc)),
    }
}
