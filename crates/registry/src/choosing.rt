//! Which gateway is chosen for a zone and a technology prefix.

ghost use Rattle.std.specs.Prelude.{◌≡◌, ℕ, [], ◌∷◌, List, Some, bytes_eq};
ghost use Rattle.std.specs.Option.{option_copied};
ghost use Rattle.std.specs.Ordering.{nat_cmp};
ghost use Rattle.std.specs.List.{IsDistinct};
ghost use Rattle.std.specs.List.Sorted.{IsStrictlySortedBy};
ghost use Rattle.std.specs.Map.{keys_of};
ghost use Rattle.compiler.specs.Priority.{named_priority};
ghost use Rattle.registry.specs.NumberedEndpoints.{endpoints_of};
ghost use Rattle.registry.specs.Gateway.{gateway_by, is_candidate};
ghost use Rattle.registry.specs.Chosen.{IsBestGateway, comes_first, first_of, is_first, is_greater, is_other_than};

use crate::endpoints::Endpoint;
use crate::registered::Endpoints;
use crate::served::serves;
use compiler::plans::DEFAULT_GATEWAY_PRIORITY;
use gk_terms::{Name, TechPrefix};
use indexmap::IndexMap;

/// The gateway that serves the zone with the prefix and has the greatest priority above 0, and of
/// these the one that registered first. Looks at each gateway that is named with a priority, and at
/// the first one that is not.
pub fn chosen<'a>(
    endpoints: &'a Endpoints,
    zone: &Name,
    prefix: &TechPrefix,
    named: &IndexMap<Name, u8>,
) -> Option<&'a Endpoint>
    ensures { option_copied result
        ≡ gateway_by (named_priority named.now.entries) (endpoints_of endpoints.now)
        zone.now prefix.now }
{
    if named.is_empty() {
        return first_serving(endpoints, zone, prefix);
    }
    let unnamed = first_unnamed(endpoints, zone, prefix, named);
    let (_, number) = best_named(endpoints, zone, prefix, named, unnamed)?;
    endpoints.at_number(number)
}

/// The same if none is named: the first gateway that serves the zone with the prefix.
fn first_serving<'a>(
    endpoints: &'a Endpoints,
    zone: &Name,
    prefix: &TechPrefix,
) -> Option<&'a Endpoint>
    ensures { option_copied result
        ≡ gateway_by (named_priority []) (endpoints_of endpoints.now) zone.now prefix.now }
{
    // So it is known that the numbers ascend.
    let _next = endpoints.next();
    let number = endpoints.next_serving(zone, prefix, 0)?;
    endpoints.at_number(number)
}

/// The first gateway that is not named, with the default priority.
fn first_unnamed(
    endpoints: &Endpoints,
    zone: &Name,
    prefix: &TechPrefix,
    named: &IndexMap<Name, u8>,
) -> Option<(u8, u32)>
    ensures best { IsBestGateway endpoints.now.entries named.now.entries
        (is_other_than named.now.entries zone.now prefix.now (keys_of named.now.entries)) result }
    ensures sorted { IsStrictlySortedBy nat_cmp (keys_of endpoints.now.entries) }
{
    let end = endpoints.next();
    let mut from = 0;
    while let Some(number) = endpoints.next_serving(zone, prefix, from) {
        let endpoint = endpoints.at_number(number)?;
        if !named.contains_key(endpoint.id()) {
            return Some((DEFAULT_GATEWAY_PRIORITY, number));
        }
        prove!(number < end);
        from = number + 1;
    }
    None
}

/// The best of those that are named and of the one that is given.
fn best_named(
    endpoints: &Endpoints,
    zone: &Name,
    prefix: &TechPrefix,
    named: &IndexMap<Name, u8>,
    unnamed: Option<(u8, u32)>,
) -> Option<(u8, u32)>
    requires unnamed { IsBestGateway endpoints.now.entries named.now.entries
        (is_other_than named.now.entries zone.now prefix.now (keys_of named.now.entries)) unnamed }
    ensures { IsBestGateway endpoints.now.entries named.now.entries
        (is_candidate (named_priority named.now.entries) zone.now prefix.now) result }
{
    let mut best = unnamed;
    for (id, priority) in named.iter() {
        best = with_named(endpoints, zone, prefix, named, id, *priority, best);
    }
    best
}

/// The better of the one that is given and of the gateway with this ID and this priority. `named`
/// is there for the contract.
fn with_named(
    endpoints: &Endpoints,
    zone: &Name,
    prefix: &TechPrefix,
    named: &IndexMap<Name, u8>,
    id: &Name,
    priority: u8,
    best: Option<(u8, u32)>,
) -> Option<(u8, u32)>
    requires { priority ≡ named_priority named.now.entries id.now }
    ensures { (rest : List (List ℕ)) → IsDistinct bytes_eq (id.now ∷ rest)
        → IsBestGateway endpoints.now.entries named.now.entries
        (is_other_than named.now.entries zone.now prefix.now (id.now ∷ rest)) best
        → IsBestGateway endpoints.now.entries named.now.entries
        (is_other_than named.now.entries zone.now prefix.now rest) result }
{
    if is_greater(best, priority) {
        return best;
    }
    let Some(number) = endpoints.number(id) else {
        return best;
    };
    if is_first(best, (priority, number)) {
        return best;
    }
    if serves(endpoints.at_number(number), zone, prefix) & (priority > 0) {
        Some(first_of(best, (priority, number)))
    } else {
        best
    }
}

/// Whether there is one already, of a greater priority.
fn is_greater(best: Option<(u8, u32)>, priority: u8) -> bool
    ensures { result ≡ is_greater best priority }
{
    match best {
        Some(best) => priority < best.0,
        None => false,
    }
}

/// Whether there is one already, and it comes before the other.
fn is_first(best: Option<(u8, u32)>, other: (u8, u32)) -> bool
    ensures { result ≡ is_first best other }
{
    match best {
        Some(best) => comes_first(best, other),
        None => false,
    }
}

/// The first of two by priority, and then by number.
fn first_of(best: Option<(u8, u32)>, other: (u8, u32)) -> (u8, u32)
    ensures { result ≡ first_of best other }
{
    match best {
        Some(best) if comes_first(best, other) => best,
        _ => other,
    }
}

/// Whether a priority and a number come before another: a greater priority, or the same and no
/// greater number.
fn comes_first(one: (u8, u32), other: (u8, u32)) -> bool
    ensures { result ≡ comes_first one other }
{
    other.0 < one.0 || (one.0 == other.0 && one.1 <= other.1)
}
