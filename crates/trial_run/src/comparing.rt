//! Whether two answers are the same.

ghost use Rattle.std.specs.Prelude.{◌≡◌, ◌↔◌, true, bytes_eq};
ghost use Rattle.rulings.specs.Lent.{destination_meant, route_meant};
ghost use Rattle.rulings.specs.Routes.{route_text};
ghost use Rattle.trial_run.specs.Spelled.{IsPlace, IsSpelled};

use gk_terms::{Address, Name};
use rulings::{Destination, DestinationKind, LentRoute, Route, RouteRefusal};

/// Whether digits that led somewhere lead there again: the answers have the same text, and then
/// they are the same.
pub(crate) fn is_led_to(recorded: &Route, led: &LentRoute) -> bool
    ensures text { result ≡ bytes_eq (route_text recorded.now) (route_text (route_meant led.now)) }
    ensures same { result ≡ true → route_meant led.now ≡ recorded.now }
{
    is_spelled(recorded);
    is_spelled_lent(led);
    is_equal(recorded, led)
}

/// Whether both are the same.
fn is_equal(recorded: &Route, led: &LentRoute) -> bool
    ensures { (result ≡ true) ↔ (recorded.now ≡ route_meant led.now) }
{
    match led {
        LentRoute::To {
            kind,
            name,
            address,
        } => match recorded {
            Route::To(destination) => is_destination(destination, *kind, name, address),
            Route::Refused(_) => false,
        },
        LentRoute::Refused(refusal) => match recorded {
            Route::To(_) => false,
            Route::Refused(recorded) => is_refusal(*recorded, *refusal),
        },
    }
}

/// Whether a destination is the one of this kind and name, at this address.
fn is_destination(
    recorded: &Destination,
    kind: DestinationKind,
    name: &Name,
    address: &Address,
) -> bool
    ensures { (result ≡ true)
        ↔ (recorded.now ≡ destination_meant kind name.now address.now) }
{
    match (recorded, kind) {
        (Destination::Gateway { id, address: at }, DestinationKind::Gateway)
        | (Destination::Terminal { id, address: at }, DestinationKind::Terminal)
        | (
            Destination::Zone {
                name: id,
                address: at,
            },
            DestinationKind::Zone,
        ) => { is_place(id, at, name, address) }
        _ => false,
    }
}

/// Whether both the names and the addresses are the same.
fn is_place(name: &Name, address: &Address, other: &Name, at: &Address) -> bool
    ensures { (result ≡ true) ↔ ((name.now ≡ other.now) × (address.now ≡ at.now)) }
{
    name.as_bytes() == other.as_bytes() && address == at
}

/// Whether both refusals are the same.
fn is_refusal(recorded: RouteRefusal, refusal: RouteRefusal) -> bool
    ensures { (result ≡ true) ↔ (recorded ≡ refusal) }
{
    recorded == refusal
}

/// So that it is known that a route is spelled in words.
fn is_spelled(route: &Route)
    ensures { IsSpelled route.now }
{
    match route {
        Route::To(Destination::Gateway { id, address })
        | Route::To(Destination::Terminal { id, address }) => is_spelled_place(id, address),
        Route::To(Destination::Zone { name, address }) => is_spelled_place(name, address),
        Route::Refused(_) => {}
    }
}

/// The same of one that lends its name.
fn is_spelled_lent(route: &LentRoute)
    ensures { IsSpelled (route_meant route.now) }
{
    if let LentRoute::To { name, address, .. } = route {
        is_spelled_place(name, address);
    }
}

/// The same of a name and an address.
fn is_spelled_place(name: &Name, address: &Address)
    ensures { IsPlace name.now address.now }
{
    let _name = name.as_bytes();
    let _ip = address.ip();
    let _port = address.port();
}
