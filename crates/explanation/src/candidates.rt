//! The gateways among which one is chosen.

ghost use Rattle.std.specs.Prelude.{◌≡◌, ◌++◌, IfOk, IfSome, OnOk, Some};
ghost use Rattle.std.specs.Option.{option_to_list};
ghost use Rattle.compiler.specs.Plan.{row_meant};
ghost use Rattle.registry.specs.Gateway.{serves};
ghost use Rattle.explanation.specs.Steps.{candidate_in, candidates_of, of_priority, ranked};

use crate::steps::Candidate;
use compiler::{RowNo, Tables};
use gk_terms::{Name, TechPrefix};
use registry::{Endpoint, EndpointKind, Registry};
use std::alloc::{AllocError, Global};

/// One more than the greatest priority.
const PRIORITIES: u8 = 11;

/// The gateways of the zone with the prefix, the greatest priority for the row first, and of equal
/// priority the one that registered first. The row is to be one of these tables'. The time grows
/// with the square of the number of the endpoints.
pub(crate) fn gateways(
    alloc: Global,
    tables: &Tables,
    registry: &Registry,
    zone: &Name,
    prefix: &TechPrefix,
    row: Option<RowNo>,
) -> Result<Vec<Candidate>, AllocError>
    ensures { IfOk result (λ list. IfSome (row_meant tables.now.commands row) (λ used. list.items
        ≡ ranked (candidates_of tables.now.commands registry.now.endpoints zone.now prefix.now
        used))) }
{
    let found = candidates(alloc, tables, registry, zone, prefix, &row)?;
    rank(alloc, &found)
}

/// The same in order of registration.
fn candidates(
    alloc: Global,
    tables: &Tables,
    registry: &Registry,
    zone: &Name,
    prefix: &TechPrefix,
    row: &Option<RowNo>,
) -> Result<Vec<Candidate>, AllocError>
    ensures { IfOk result (λ list. IfSome (row_meant tables.now.commands row.now) (λ used.
        list.items ≡ candidates_of tables.now.commands registry.now.endpoints zone.now prefix.now
        used)) }
{
    let mut list = Vec::new(alloc);
    for place in 0..registry.len() {
        let Some(endpoint) = registry.at(place) else {
            unreachable!()
        };
        add_if_any(&mut list, candidate(tables, endpoint, zone, prefix, row))?;
    }
    Ok(list)
}

/// The endpoint as a candidate, if it is one.
fn candidate(
    tables: &Tables,
    endpoint: &Endpoint,
    zone: &Name,
    prefix: &TechPrefix,
    row: &Option<RowNo>,
) -> Option<Candidate>
    ensures { IfSome (row_meant tables.now.commands row.now) (λ used. option_to_list result
        ≡ candidate_in tables.now.commands zone.now prefix.now used endpoint.now) }
{
    if serves(endpoint, zone, prefix) {
        Some(Candidate {
            id: *endpoint.id(),
            priority: tables.priority(*row, endpoint.id()),
        })
    } else {
        None
    }
}

/// Whether an endpoint is a gateway of the zone that registered with the prefix.
fn serves(endpoint: &Endpoint, zone: &Name, prefix: &TechPrefix) -> bool
    ensures { result ≡ serves zone.now prefix.now endpoint.now }
{
    endpoint.kind() == EndpointKind::Gateway
        && *endpoint.zone() == *zone
        && endpoint.has_technology(prefix)
}

/// Adds a candidate, if there is one.
fn add_if_any(list: &mut Vec<Candidate>, candidate: Option<Candidate>) -> Result<(), AllocError>
    ensures { OnOk result (list.new.items ≡ list.old.items ++ option_to_list candidate) }
{
    if let Some(candidate) = candidate {
        list.push(candidate)?;
    }
    Ok(())
}

/// Candidates by priority, the greatest first.
fn rank(alloc: Global, candidates: &[Candidate]) -> Result<Vec<Candidate>, AllocError>
    ensures { IfOk result (λ list. list.items ≡ ranked candidates.now) }
{
    let mut list = Vec::new(alloc);
    let mut left = PRIORITIES;
    while left > 0 {
        left -= 1;
        add_of_priority(&mut list, candidates, left)?;
    }
    Ok(list)
}

/// Adds the candidates of a priority.
fn add_of_priority(
    list: &mut Vec<Candidate>,
    candidates: &[Candidate],
    priority: u8,
) -> Result<(), AllocError>
    ensures { OnOk result (list.new.items
        ≡ list.old.items ++ of_priority candidates.now priority) }
{
    for candidate in candidates {
        if candidate.priority == priority {
            list.push(*candidate)?;
        }
    }
    Ok(())
}
