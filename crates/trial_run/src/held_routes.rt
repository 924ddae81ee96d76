//! Routes as a report keeps them.

ghost use Rattle.std.specs.Prelude.{◌≡◌, IfOk};
ghost use Rattle.rulings.specs.Lent.{destination_meant, route_meant};

use gk_terms::{Address, Name};
use rulings::{Destination, DestinationKind, LentRoute, Route, RouteRefusal};
use short_texts::KeptName;
use std::alloc::{AllocError, Global};
use std::marker::Model;

/// A route that is kept in few bytes: a name of at most 19 characters in place. A contract sees the
/// route.
#[derive(Drop)]
pub(crate) struct HeldRoute {
    held: Held,
}

/// Where it leads. The small fields come first, beside the tag.
#[derive(Drop)]
pub(crate) enum Held {
    To {
        kind: DestinationKind,
        address: Address,
        name: KeptName,
    },
    Refused(RouteRefusal),
}

impl Model for HeldRoute {
    ghost use Rattle.rulings.specs.declared.routes.Route.{Route};
    ghost use Rattle.trial_run.specs.HeldRoutes.{route_held};

    ghost Value = { Route };

    ghost view = { λ r. route_held r.held };
}

impl HeldRoute {
    /// This route. Takes memory only for a name of more than 19 characters.
    pub(crate) fn of(alloc: Global, route: &LentRoute) -> Result<HeldRoute, AllocError>
        ensures { IfOk result (λ held. held ≡ route_meant route.now) }
    {
        match route {
            LentRoute::To {
                kind,
                name,
                address,
            } => HeldRoute::to(alloc, *kind, name, *address),
            LentRoute::Refused(refusal) => Ok(HeldRoute {
                held: Held::Refused(*refusal),
            }),
        }
    }

    /// To this destination.
    fn to(
        alloc: Global,
        kind: DestinationKind,
        name: &Name,
        address: Address,
    ) -> Result<HeldRoute, AllocError>
        ensures { IfOk result (λ held. held ≡ Route.To (destination_meant kind name.now address)) }
    {
        let name = KeptName::of(alloc, name)?;
        Ok(HeldRoute {
            held: Held::To {
                kind,
                address,
                name,
            },
        })
    }

    /// The route.
    pub(crate) fn route(&self) -> Route
        ensures { result ≡ self.now }
    {
        match &self.held {
            Held::To {
                kind,
                address,
                name,
            } => Route::To(kind.destination(&name.name(), *address)),
            Held::Refused(refusal) => Route::Refused(*refusal),
        }
    }
}

/// The same route, with its name lent.
pub(crate) fn lent_of(route: &Route) -> LentRoute<'_>
    ensures { route_meant result ≡ route.now }
{
    match route {
        Route::To(destination) => lent_to(destination),
        Route::Refused(refusal) => LentRoute::Refused(*refusal),
    }
}

/// To this destination.
fn lent_to(destination: &Destination) -> LentRoute<'_>
    ensures { route_meant result ≡ Route.To destination.now }
{
    match destination {
        Destination::Gateway { id, address } => LentRoute::To {
            kind: DestinationKind::Gateway,
            name: id,
            address: *address,
        },
        Destination::Terminal { id, address } => LentRoute::To {
            kind: DestinationKind::Terminal,
            name: id,
            address: *address,
        },
        Destination::Zone { name, address } => LentRoute::To {
            kind: DestinationKind::Zone,
            name,
            address: *address,
        },
    }
}
