//! Whether an admission in few bytes led to a route.

ghost use Rattle.std.specs.Prelude.{◌≡◌, ◌↔◌, true, Some, option_map};
ghost use Rattle.rulings.specs.declared.routes.Route.TheVariants as routes;
ghost use Rattle.rulings.specs.Lent.{destination_meant, route_meant};
ghost use Rattle.call_rows.specs.KeptAdmission as Spec;

use crate::held::WholeAdmission;
use crate::kept_admission::KeptAdmission;
use crate::kept_reading::whole_at;
use gk_terms::Address;
use rulings::{DestinationKind, LentRoute, Route, RouteRefusal};
use short_texts::ShortName;

impl KeptAdmission {
    /// Whether its digits led to this route, beside the admissions that stand whole.
    pub fn has_route(&self, aside: &[WholeAdmission], route: &LentRoute<'_>) -> bool
        ensures { (result ≡ true)
            ↔ (option_map (λ a. a.asked.route) (Spec.admission_meant aside.now self.now)
            ≡ Some (route_meant route.now)) }
    {
        match self {
            KeptAdmission::Granted {
                kind,
                address,
                name,
                ..
            } => leads_to(route, *kind, name, address),
            KeptAdmission::OverLimit {
                kind,
                address,
                name,
                ..
            } => leads_to(route, *kind, name, address),
            KeptAdmission::Answered {
                kind,
                address,
                name,
                ..
            } => leads_to(route, *kind, name, address),
            KeptAdmission::Refused { refusal, .. } => is_refused(route, *refusal),
            KeptAdmission::Aside { place } => match whole_at(aside, *place as usize) {
                Some(held) => is_route(route, &held.admission().asked.route),
                None => false,
            },
        }
    }
}

/// Whether the route leads to the destination of this kind and name, at this address.
fn leads_to(
    route: &LentRoute<'_>,
    kind: DestinationKind,
    name: &ShortName,
    address: &Address,
) -> bool
    ensures { (result ≡ true)
        ↔ (routes.To (destination_meant kind name.now address.now) ≡ route_meant route.now) }
{
    match route {
        LentRoute::To {
            kind: led,
            name: to,
            address: at,
        } => is_kind(kind, *led) && name.is(to) && is_address(address, at),
        LentRoute::Refused(_) => false,
    }
}

/// Whether two kinds are the same.
fn is_kind(kind: DestinationKind, other: DestinationKind) -> bool
    ensures { (result ≡ true) ↔ (kind ≡ other) }
{
    match kind {
        DestinationKind::Gateway => matches!(other, DestinationKind::Gateway),
        DestinationKind::Terminal => matches!(other, DestinationKind::Terminal),
        DestinationKind::Zone => matches!(other, DestinationKind::Zone),
    }
}

/// Whether two addresses are the same.
fn is_address(address: &Address, other: &Address) -> bool
    ensures { (result ≡ true) ↔ (address.now ≡ other.now) }
{
    address == other
}

/// Whether the route leads nowhere, for this reason.
fn is_refused(route: &LentRoute<'_>, refusal: RouteRefusal) -> bool
    ensures { (result ≡ true) ↔ (routes.Refused refusal ≡ route_meant route.now) }
{
    match route {
        LentRoute::To { .. } => false,
        LentRoute::Refused(other) => is_refusal(refusal, *other),
    }
}

/// Whether two reasons are the same.
fn is_refusal(refusal: RouteRefusal, other: RouteRefusal) -> bool
    ensures { (result ≡ true) ↔ (refusal ≡ other) }
{
    refusal == other
}

/// Whether the route is this one.
fn is_route(route: &LentRoute<'_>, other: &Route) -> bool
    ensures { (result ≡ true) ↔ (other.now ≡ route_meant route.now) }
{
    same_route(other, &route.route())
}

/// Whether two routes are the same.
fn same_route(route: &Route, other: &Route) -> bool
    ensures { (result ≡ true) ↔ (route.now ≡ other.now) }
{
    route == other
}
