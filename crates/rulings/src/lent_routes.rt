//! Where dialled digits lead, with the name of the destination lent.

ghost use Rattle.std.specs.Prelude.{◌≡◌};
ghost use Rattle.rulings.specs.Lent as Spec;
ghost use Rattle.rulings.specs.Routing.{destination_of};

use crate::routes::{Destination, Route, RouteRefusal};
use compiler::ZoneNo;
use gk_terms::{Address, Name};
use registry::{Endpoint, EndpointKind};

/// What kind of destination it is.
#[derive(Clone, Copy)]
pub enum DestinationKind {
    /// A registered gateway.
    Gateway,
    /// A registered terminal.
    Terminal,
    /// A zone of another gatekeeper.
    Zone,
}

impl DestinationKind {
    /// The destination of this kind, of this name, at this address.
    pub fn destination(self, name: &Name, address: Address) -> Destination
        ensures { result ≡ Spec.destination_meant self name.now address }
    {
        match self {
            DestinationKind::Gateway => Destination::Gateway {
                id: name.copied(),
                address,
            },
            DestinationKind::Terminal => Destination::Terminal {
                id: name.copied(),
                address,
            },
            DestinationKind::Zone => Destination::Zone {
                name: name.copied(),
                address,
            },
        }
    }
}

/// Where dialled digits lead a caller. The name stands in the registry or in the tables.
#[derive(Clone, Copy)]
pub enum LentRoute<'a> {
    /// To this destination.
    To {
        kind: DestinationKind,
        name: &'a Name,
        address: Address,
    },
    /// Nowhere.
    Refused(RouteRefusal),
}

impl<'a> LentRoute<'a> {
    /// To an endpoint, by its registered kind.
    pub fn to_endpoint(endpoint: &'a Endpoint) -> LentRoute<'a>
        ensures { Spec.route_meant result
            ≡ Route.To (destination_of endpoint.now.kind endpoint.now) }
    {
        LentRoute::To {
            kind: match endpoint.kind() {
                EndpointKind::Gateway => DestinationKind::Gateway,
                EndpointKind::Terminal => DestinationKind::Terminal,
            },
            name: endpoint.id(),
            address: endpoint.address(),
        }
    }

    /// The route, with its name.
    pub fn route(&self) -> Route
        ensures { result ≡ Spec.route_meant self.now }
    {
        match self {
            LentRoute::To {
                kind,
                name,
                address,
            } => Route::To(kind.destination(name, *address)),
            LentRoute::Refused(refusal) => Route::Refused(*refusal),
        }
    }
}

/// Where digits lead a caller, and the zone of the destination.
#[derive(Clone, Copy)]
pub struct Led<'a> {
    /// Where they lead.
    pub route: LentRoute<'a>,
    /// The number of the zone of the destination; none if it is the caller's own zone, or if the
    /// digits lead nowhere.
    pub zone: Option<ZoneNo>,
}
