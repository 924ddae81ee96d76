//! Where dialled digits lead: the plan of the tables, and then an endpoint of the target zone.

ghost use Rattle.std.specs.Prelude.{◌≡◌, ℕ, List, Some, None, IfSome, IsSome, nat_lt, length, option_and_then};
ghost use Rattle.std.specs.Option.{option_copied};
ghost use Rattle.gk_commands.specs.declared.commands.Command.{Command};
ghost use Rattle.compiler.specs.Plan as Plans;
ghost use Rattle.compiler.specs.Zones.{zone_at};
ghost use Rattle.compiler.specs.Technology.{default_technology_of, found_length};
ghost use Rattle.registry.specs.Registration.{by_alias};
ghost use Rattle.rulings.specs.Lent.{route_meant};
ghost use Rattle.rulings.specs.Routing as Spec;

use crate::lent_routes::{DestinationKind, Led, LentRoute};
use crate::routes::{Route, RouteRefusal};
use compiler::{Plan, RowNo, Tables, ZoneNo};
use gk_terms::{Dialled, Name, TechPrefix};
use registry::{Endpoint, Registry};

/// Where the digits lead a caller of this zone, by the configuration and the registered endpoints.
///
/// The technology prefix of the digits is the longest with which they begin, of those that are
/// declared and of those that gateways of local zones gave when they registered. One that is
/// declared with a hop-off zone leads to that zone, and any other is taken off the digits. The zone
/// of the longest pattern that matches is the target, else the caller's zone, unless the
/// configuration rejects such digits. A remote zone is the destination itself. In a local zone it
/// is a gateway for the technology prefix, if there was one; else the endpoint that has all of the
/// digits as an alias; else a gateway for the default technology, if one is set. This project's
/// profile, after Cisco's flow for an admission request.
pub fn route(tables: &Tables, registry: &Registry, caller: &Name, digits: &Dialled) -> Route
    ensures { result ≡ Spec.route_of
        tables.now.commands registry.now.endpoints caller.now digits.now }
{
    led(tables, registry, caller, digits).route.route()
}

/// Where the digits lead a caller of this zone, as `route` has it, with the zone of the
/// destination.
pub fn led<'a>(
    tables: &'a Tables,
    registry: &'a Registry,
    caller: &Name,
    digits: &Dialled,
) -> Led<'a>
    ensures route { route_meant result.route ≡ Spec.route_of
        tables.now.commands registry.now.endpoints caller.now digits.now }
    ensures zone { Spec.zone_named tables.now.commands caller.now result.zone
        ≡ Some (Spec.target_zone_of tables.now.commands registry.now.endpoints caller.now
        digits.now) }
{
    let plan = plan_beside(tables, registry, &tables.plan(digits), digits);
    Led {
        route: route_of_plan(tables, registry, &plan, caller, digits),
        zone: zone_of_plan(tables, &plan),
    }
}

/// What the configuration and the registered endpoints say of the digits, if this plan is what the
/// configuration alone says of them: they differ if the digits begin with a technology prefix that
/// a gateway gave, and that is longer than the declared one.
pub fn plan_beside(tables: &Tables, registry: &Registry, plan: &Plan, digits: &Dialled) -> Plan
    requires planned { Plans.target_of tables.now.commands plan.now
        ≡ Some (Plans.plan_of tables.now.commands digits.now) }
    ensures { Plans.target_of tables.now.commands result
        ≡ Some (Spec.target_for tables.now.commands registry.now.endpoints digits.now) }
{
    let Some(prefix) = registry.learned(tables, digits, 0) else {
        return *plan;
    };
    if !is_longer(&prefix, &tables.declared(digits)) {
        return *plan;
    }
    tables.plan_after(digits, &prefix)
}

/// Whether a prefix has more characters than the declared one, if one was found.
fn is_longer(prefix: &TechPrefix, declared: &Option<TechPrefix>) -> bool
    ensures { result ≡ nat_lt (found_length declared.now) (length prefix.now) }
{
    match declared {
        Some(declared) => declared.as_bytes().len() < prefix.as_bytes().len(),
        None => !prefix.as_bytes().is_empty(),
    }
}

/// The number of the zone to which a plan leads; none if it is the caller's own, or nowhere.
fn zone_of_plan(tables: &Tables, plan: &Plan) -> Option<ZoneNo>
    ensures { (caller : List ℕ) → IfSome (Plans.target_of tables.now.commands plan.now)
        (λ target. Spec.zone_named tables.now.commands caller result
        ≡ Some (Plans.zone_of_target caller target)) }
{
    match plan {
        Plan::Remote(zone) | Plan::Local { zone, .. } => Some(*zone),
        Plan::Caller { .. } | Plan::UnknownPrefix => None,
    }
}

#[tactic(auto, unfolding(crate::specs::Routing::route_of))]
/// Where digits that are dialled from this zone lead, by a plan that was made of them.
pub fn route_of_plan<'a>(
    tables: &'a Tables,
    registry: &'a Registry,
    plan: &Plan,
    caller: &Name,
    digits: &Dialled,
) -> LentRoute<'a>
    requires planned { Plans.target_of tables.now.commands plan.now
        ≡ Some (Spec.target_for tables.now.commands registry.now.endpoints digits.now) }
    ensures { route_meant result ≡ Spec.route_of
        tables.now.commands registry.now.endpoints caller.now digits.now }
{
    match plan {
        Plan::Remote(zone) => to_remote(tables, *zone),
        Plan::Local {
            zone,
            technology,
            row,
        } => {
            in_local_zone(
                tables,
                registry,
                tables.zone_name(*zone),
                *row,
                digits,
                technology,
            )
        }
        Plan::Caller { technology } => {
            in_local_zone(tables, registry, caller, None, digits, technology)
        }
        Plan::UnknownPrefix => LentRoute::Refused(RouteRefusal::UnknownPrefix),
    }
}

/// The zone to which a plan leads a caller of this zone.
pub fn target_zone<'a>(tables: &'a Tables, plan: &Plan, caller: &'a Name) -> &'a Name
    requires { IsSome (Plans.target_of tables.now.commands plan.now) }
    ensures { IfSome (Plans.target_of tables.now.commands plan.now)
        (λ target. result.now ≡ Plans.zone_of_target caller.now target) }
{
    match plan {
        Plan::Remote(zone) | Plan::Local { zone, .. } => tables.zone_name(*zone),
        Plan::Caller { .. } | Plan::UnknownPrefix => caller,
    }
}

/// Whether a plan leads to a zone of another gatekeeper.
pub fn is_remote(plan: &Plan) -> bool
    ensures { (commands : List Command) → IfSome (Plans.target_of commands plan.now)
        (λ target. result ≡ Plans.is_remote target) }
{
    matches!(plan, Plan::Remote(_))
}

/// To the gatekeeper of a remote zone.
fn to_remote(tables: &Tables, zone: ZoneNo) -> LentRoute<'_>
    requires { IsSome (option_and_then Plans.remote_target (zone_at tables.now.commands zone)) }
    ensures { IfSome (option_and_then Plans.remote_target (zone_at tables.now.commands zone))
        (λ target. Spec.remote_route target ≡ Some (route_meant result)) }
{
    match tables.zone(zone).address {
        Some(address) => LentRoute::To {
            kind: DestinationKind::Zone,
            name: tables.zone_name(zone),
            address,
        },
        None => unreachable!(),
    }
}

/// Where the digits lead in a local zone, by the technology prefix with which they begin.
fn in_local_zone<'a>(
    tables: &Tables,
    registry: &'a Registry,
    zone: &Name,
    row: Option<RowNo>,
    digits: &Dialled,
    technology: &Option<TechPrefix>,
) -> LentRoute<'a>
    ensures { IfSome (Plans.row_meant tables.now.commands row) (λ used. route_meant result
        ≡ Spec.in_local_zone tables.now.commands registry.now.endpoints zone.now used digits.now
        technology.now) }
{
    match technology {
        Some(prefix) => to_gateway(registry.gateway(tables, zone, prefix, row)),
        None => match registry.by_alias(zone, digits) {
            Some(endpoint) => LentRoute::to_endpoint(endpoint),
            None => by_default(tables, registry, zone, row),
        },
    }
}

/// To a gateway of the zone for the default technology, if one is set.
fn by_default<'a>(
    tables: &Tables,
    registry: &'a Registry,
    zone: &Name,
    row: Option<RowNo>,
) -> LentRoute<'a>
    ensures { IfSome (Plans.row_meant tables.now.commands row) (λ used. route_meant result
        ≡ Spec.by_default tables.now.commands registry.now.endpoints zone.now used
        (default_technology_of tables.now.commands)) }
{
    match tables.default_technology() {
        Some(prefix) => to_gateway(registry.gateway(tables, zone, &prefix, row)),
        None => LentRoute::Refused(RouteRefusal::NoDefault),
    }
}

/// To the gateway that was chosen, if there is one.
fn to_gateway(chosen: Option<&Endpoint>) -> LentRoute<'_>
    ensures { route_meant result ≡ Spec.to_gateway (option_copied chosen.entry) }
{
    match chosen {
        Some(gateway) => LentRoute::to_endpoint(gateway),
        None => LentRoute::Refused(RouteRefusal::NoGateway),
    }
}
