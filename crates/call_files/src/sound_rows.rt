//! What the types of a row keep, said of the row's parts: a row that is written reads back because
//! of it. These calls change nothing and give nothing.

ghost use Rattle.call_rows.specs.declared.rows.CallEvent.TheVariants as events;
ghost use Rattle.gk_terms.specs.Name.{IsName};
ghost use Rattle.call_files.specs.ReadBack.{IsAddress, IsDestination, IsEvent, IsRoute, IsRow};

use call_rows::{AdmittedCall, AnsweredCall, CallEvent, CallRow};
use gk_terms::{Address, Name};
use rulings::{Destination, Route};

/// Each part of the row keeps what its type keeps.
pub(crate) fn row_is_sound(row: &CallRow)
    ensures { IsRow row.now }
{
    let _number = row.number();
    event_is_sound(row.event());
}

/// Each part of the event keeps what its type keeps.
fn event_is_sound(event: &CallEvent)
    ensures { IsEvent event.now }
{
    match event {
        CallEvent::Admitted(asked) => admission_is_sound(asked),
        CallEvent::Answered(asked) => answer_is_sound(asked),
        CallEvent::Changed { call, units } => {
            let (_call, _units) = (*call, units.value());
        }
        CallEvent::Released { call } => {
            let _call = *call;
        }
    }
}

/// The parts of an admission.
fn admission_is_sound(asked: &AdmittedCall)
    ensures { IsEvent (events.Admitted asked.now) }
{
    let (_call, _units) = (asked.call, asked.units.value());
    let _zone = asked.zone.as_bytes();
    let _digits = asked.digits.as_bytes();
    route_is_sound(&asked.route);
}

/// The parts of an answer.
fn answer_is_sound(asked: &AnsweredCall)
    ensures { IsEvent (events.Answered asked.now) }
{
    let (_call, _units) = (asked.call, asked.units.value());
    let _zone = asked.zone.as_bytes();
    route_is_sound(&asked.route);
}

/// A route, if it is a destination.
fn route_is_sound(route: &Route)
    ensures { IsRoute route.now }
{
    match route {
        Route::To(destination) => destination_is_sound(destination),
        Route::Refused(_) => {}
    }
}

/// The parts of a destination.
fn destination_is_sound(destination: &Destination)
    ensures { IsDestination destination.now }
{
    match destination {
        Destination::Gateway { id, address } => place_is_sound(id, address),
        Destination::Terminal { id, address } => place_is_sound(id, address),
        Destination::Zone { name, address } => place_is_sound(name, address),
    }
}

/// A name and an address.
fn place_is_sound(name: &Name, address: &Address)
    ensures { IsName name.now × IsAddress address.now }
{
    let _name = name.as_bytes();
    address_is_sound(address);
}

/// Four octets, and a port.
fn address_is_sound(address: &Address)
    ensures { IsAddress address.now }
{
    let _ip = address.ip();
    let _port = address.port();
}
