//! What the tests are given: a configuration, what a desk is made of, and what is asked on a seat.

ghost use Rattle.std.specs.Prelude.{◌≡◌};

use admission::{Destination, Event, Receipt, ReloadRefusal, Reply};
use command_reader::read;
use compiler::Tables;
use gk_commands::Commands;
use gk_terms::{Address, Dialled, Name, TechPrefix, Units, Version};
use live_desk::{Blank, Desk, House, Seat};
use registry::{Endpoint, EndpointKind};
use std::alloc::Global;
use std::sync::{Arc, Wait};

/// Two local zones and two remote ones, a hop-off, and limits.
pub(crate) const TEXT: &[u8] = b"gatekeeper\n zone local gk-a example.com 10.0.0.1\n \
zone local gk-b example.com\n zone remote gk-x example.com 10.9.0.1 1719 cost 50\n \
zone remote gk-y example.com 10.9.0.2 1719 cost 20\n zone prefix gk-a 408*\n \
zone prefix gk-b 4085......\n zone prefix gk-x 9*\n zone prefix gk-y 9*\n \
gw-type-prefix 1#* default-technology\n gw-type-prefix 2# hopoff gk-x\n \
bandwidth total zone gk-a 256\n bandwidth session default 128\n no shutdown\nend\n";

/// The same, but that numbers which begin with 408 go to the remote zone `gk-x`.
pub(crate) const OTHER: &[u8] = b"gatekeeper\n zone local gk-a example.com 10.0.0.1\n \
zone local gk-b example.com\n zone remote gk-x example.com 10.9.0.1 1719 cost 50\n \
zone remote gk-y example.com 10.9.0.2 1719 cost 20\n zone prefix gk-x 408*\n \
zone prefix gk-b 4085......\n zone prefix gk-x 9*\n zone prefix gk-y 9*\n \
gw-type-prefix 1#* default-technology\n gw-type-prefix 2# hopoff gk-x\n \
bandwidth total zone gk-a 256\n bandwidth session default 128\n no shutdown\nend\n";

/// What a desk of so many seats is made of.
pub(crate) fn blank_of(seats: u32) -> Blank
    ensures { result.ledger.parts ≡ seats }
{
    Blank {
        ledger: std::sync::ledger::Blank::new(seats as u64),
        publisher: publisher::Blank::new(),
    }
}

/// The commands of a text.
fn commands_of(alloc: Global, text: &[u8]) -> Option<Commands> {
    match read(alloc, text) {
        Ok(commands) => Some(commands),
        Err(_) => None,
    }
}

/// The tables of a text.
pub(crate) fn tables_of(alloc: Global, text: &[u8]) -> Option<Arc<Tables>> {
    let commands = commands_of(alloc, text)?;
    let Ok(tables) = Tables::compile(alloc, commands) else {
        return None;
    };
    Arc::new(alloc, tables).ok()
}

/// The registration of the terminal `ta` in the zone `gk-a`.
pub(crate) fn terminal(alloc: Global) -> Option<Event> {
    registration(alloc, EndpointKind::Terminal, b"ta", b"10.0.1.1", b"")
}

/// The registration of the gateway of this ID in the zone `gk-a`, which serves this technology
/// prefix.
pub(crate) fn gateway(alloc: Global, id: &[u8], served: &[u8]) -> Option<Event> {
    registration(alloc, EndpointKind::Gateway, id, b"10.0.1.2", served)
}

/// The registration of an endpoint in the zone `gk-a`. It serves what is given, if that is a
/// technology prefix.
pub(crate) fn registration(
    alloc: Global,
    kind: EndpointKind,
    id: &[u8],
    address: &[u8],
    served: &[u8],
) -> Option<Event> {
    let id = Name::read(id).ok()?;
    let zone = Name::read(b"gk-a").ok()?;
    let address = Address::read(address, 1720).ok()?;
    let mut endpoint = Endpoint::new(alloc, kind, id, zone, address);
    if let Ok(prefix) = TechPrefix::read(served) {
        let _added = endpoint.add_technology(prefix);
    }
    Some(Event::Register(endpoint))
}

/// An admission of this call by the terminal `ta`.
pub(crate) fn admission(call: u32, digits: &[u8]) -> Option<Event> {
    let id = Name::read(b"ta").ok()?;
    let digits = Dialled::read(digits).ok()?;
    let units = Units::new(640);
    Some(Event::Admit {
        id,
        call,
        digits,
        units,
    })
}

/// Asks an event, if there is one, and gives the reply to it, if it is recorded.
pub(crate) fn asked<J: House, R: Wait>(
    rt: &R,
    desk: &Desk<J>,
    seat: &mut Seat<J>,
    event: Option<Event>,
) -> Option<(Reply, Receipt)> {
    seat.ask(rt, desk, event?).ok()
}

/// Whether the call of the terminal `ta` to these digits is admitted to the gateway or zone of this
/// name.
pub(crate) fn leads_to<J: House, R: Wait>(
    rt: &R,
    desk: &Desk<J>,
    seat: &mut Seat<J>,
    call: u32,
    digits: &[u8],
    name: &[u8],
) -> bool {
    match asked(rt, desk, seat, admission(call, digits)) {
        Some((reply, _)) => is_led_to(&reply, name),
        None => false,
    }
}

/// Whether a reply admits a call to the gateway or zone of this name.
pub(crate) fn is_led_to(reply: &Reply, name: &[u8]) -> bool {
    match reply {
        Reply::Admitted { destination, .. } => is_named(destination, name),
        _ => false,
    }
}

/// Whether this is the gateway or the zone of this name.
fn is_named(destination: &Destination, wanted: &[u8]) -> bool {
    match destination {
        Destination::Gateway { id, .. } => id.as_bytes() == wanted,
        Destination::Terminal { .. } => false,
        Destination::Zone { name, .. } => name.as_bytes() == wanted,
    }
}

/// A reload to this text: the version that is put in force, and the receipt.
pub(crate) fn reloaded<J: House, R: Wait>(
    rt: &R,
    alloc: Global,
    desk: &Desk<J>,
    seat: &mut Seat<J>,
    text: &[u8],
) -> Result<(Version, Receipt), ReloadRefusal> {
    match commands_of(alloc, text) {
        Some(commands) => seat.reload(rt, alloc, desk, commands),
        None => Err(ReloadRefusal::NoMemory),
    }
}

/// Whether a reload to this text puts this version in force.
pub(crate) fn reloads_to<J: House, R: Wait>(
    rt: &R,
    alloc: Global,
    desk: &Desk<J>,
    seat: &mut Seat<J>,
    text: &[u8],
    wanted: u32,
) -> bool {
    match reloaded(rt, alloc, desk, seat, text) {
        Ok((version, _)) => version.value() == wanted,
        Err(_) => false,
    }
}

/// Whether a reload is refused for this.
pub(crate) fn is_refused<J: House, R: Wait>(
    rt: &R,
    alloc: Global,
    desk: &Desk<J>,
    seat: &mut Seat<J>,
    wanted: ReloadRefusal,
) -> bool {
    match reloaded(rt, alloc, desk, seat, TEXT) {
        Ok(_) => false,
        Err(refusal) => refusal == wanted,
    }
}

/// The version by which the seat routes.
pub(crate) fn version_seen<J: House>(seat: &mut Seat<J>, digits: &Dialled) -> Option<u32> {
    match seat.route(digits) {
        Ok(routed) => Some(routed.version.value()),
        Err(_) => None,
    }
}
