//! Explaining.

ghost use Rattle.std.specs.Prelude.{IfOk, is_some};
ghost use Rattle.std.specs.Option.{option_copied};
ghost use Rattle.explanation.specs.Steps.{Explains, endpoints_known};

use crate::found::technology;
use crate::givers::givers;
use crate::held_limits::held_limits;
use crate::searching::{gateways, reached, search, sought};
use crate::steps::Explanation;
use crate::ways::way;
use compiler::Tables;
use gk_terms::{Dialled, Name};
use registry::Registry;
use rulings::route;
use rulings::routing::plan_beside;
use std::alloc::{AllocError, Global};

/// Why the digits go where they go for a caller of this zone, each step by the calls that an
/// admission rests on. The endpoints are those that are registered; without them it is what the
/// configuration alone says, as if none were: a technology prefix that a gateway gives may lead
/// elsewhere. `AllocError` if memory runs out.
///
/// This is for an operator who asks at a terminal, and no request waits for it: its time grows with
/// the lines of the configuration and with the square of the number of the endpoints. That of its
/// text grows with the number of the zones times that of the lines.
pub fn explain(
    alloc: Global,
    tables: &Tables,
    endpoints: Option<&Registry>,
    caller: &Name,
    digits: &Dialled,
) -> Result<Explanation, AllocError>
    ensures { IfOk result (Explains tables.now.commands
        (endpoints_known (option_copied endpoints.entry)) (is_some endpoints.entry) caller.now
        digits.now) }
{
    match endpoints {
        Some(registry) => explain_with(alloc, tables, registry, true, caller, digits),
        None => {
            let none = Registry::new(alloc, 0);
            explain_with(alloc, tables, &none, false, caller, digits)
        }
    }
}

/// The same with a registry; whether it has the endpoints that are registered is given.
#[tactic(auto, using(crate::proofs::TechnologyLemmas::begins_if_found))]
fn explain_with(
    alloc: Global,
    tables: &Tables,
    registry: &Registry,
    known: bool,
    caller: &Name,
    digits: &Dialled,
) -> Result<Explanation, AllocError>
    ensures { IfOk result (Explains tables.now.commands registry.now.endpoints known caller.now
        digits.now) }
{
    let technology = technology(tables, registry, digits);
    let plan = plan_beside(tables, registry, &tables.plan(digits), digits);
    let reached = reached(tables, &plan, caller);
    let search = search(tables, registry, &plan, caller, digits);
    let givers = givers(alloc, tables, registry, &technology)?;
    let gateways = gateways(alloc, tables, registry, &plan, caller, &sought(&search))?;
    let limits = held_limits(alloc, tables, caller, &reached)?;
    Ok(Explanation {
        caller: *caller,
        digits: *digits,
        known,
        technology,
        givers,
        way: way(tables, digits, &technology),
        reached,
        search,
        gateways,
        route: route(tables, registry, caller, digits),
        limits,
    })
}
