//! Whether a reply is that of an entry that was read, without making the entry's own.

ghost use Rattle.std.specs.Prelude.{◌≡◌, ◌↔◌, true};
ghost use Rattle.rulings.specs.Lent.{destination_meant};
ghost use Rattle.rulings.specs.declared.replies.AdmitRefusal.TheVariants as Refusal;
ghost use Rattle.rulings.specs.declared.replies.Reply.TheVariants as Reply;
ghost use Rattle.entry_bytes.specs.ReadEntry.{entry_read};

use crate::entry_reading::ReadEntry;
use crate::verdicts::Verdict;
use field_bytes::NameText;
use gk_terms::{Address, Units};
use rulings::{AdmitRefusal, Destination, DestinationKind, Reply, RouteRefusal};

impl ReadEntry<'_> {
    /// Whether this is what was replied.
    pub fn has_reply(&self, reply: &Reply) -> bool
        ensures { (result ≡ true) ↔ (reply.now ≡ (entry_read self.now).reply) }
    {
        let event = &self.event;
        match &self.verdict {
            Verdict::Answering { kind, address, .. } => is_admitted(
                reply,
                event.call(),
                *kind,
                &event.id(),
                *address,
                event.units(),
            ),
            Verdict::NoRoute { refusal, .. } => is_unrouted(reply, event.call(), *refusal),
            _ => *reply == self.reply(),
        }
    }
}

/// Whether it is replied that the call of this number leads there with this bandwidth.
pub fn is_admitted(
    reply: &Reply,
    call: u32,
    kind: DestinationKind,
    name: &NameText<'_>,
    address: Address,
    units: Units,
) -> bool
    ensures { (result ≡ true)
        ↔ (reply.now ≡ Reply.Admitted call (destination_meant kind name.now address) units) }
{
    match reply {
        Reply::Admitted {
            call: replied,
            destination,
            units: given,
        } => *replied == call && *given == units && is_at(destination, kind, name, address),
        _ => false,
    }
}

/// Whether this is a destination of this kind and name at this address.
fn is_at(
    destination: &Destination,
    kind: DestinationKind,
    name: &NameText<'_>,
    address: Address,
) -> bool
    ensures { (result ≡ true)
        ↔ (destination.now ≡ destination_meant kind name.now address) }
{
    match kind {
        DestinationKind::Gateway => is_gateway(destination, name, address),
        DestinationKind::Terminal => is_terminal(destination, name, address),
        DestinationKind::Zone => is_zone(destination, name, address),
    }
}

/// Whether it is the gateway of this ID at this address.
fn is_gateway(destination: &Destination, name: &NameText<'_>, address: Address) -> bool
    ensures { (result ≡ true)
        ↔ (destination.now ≡ destination_meant DestinationKind.Gateway name.now address) }
{
    match destination {
        Destination::Gateway { id, address: at } => *at == address && name.is(id),
        _ => false,
    }
}

/// Whether it is the terminal of this ID at this address.
fn is_terminal(destination: &Destination, name: &NameText<'_>, address: Address) -> bool
    ensures { (result ≡ true)
        ↔ (destination.now ≡ destination_meant DestinationKind.Terminal name.now address) }
{
    match destination {
        Destination::Terminal { id, address: at } => *at == address && name.is(id),
        _ => false,
    }
}

/// Whether it is the zone of this name at this address.
fn is_zone(destination: &Destination, name: &NameText<'_>, address: Address) -> bool
    ensures { (result ≡ true)
        ↔ (destination.now ≡ destination_meant DestinationKind.Zone name.now address) }
{
    match destination {
        Destination::Zone {
            name: zone,
            address: at,
        } => *at == address && name.is(zone),
        _ => false,
    }
}

/// Whether it is replied that the call of this number has this bandwidth.
pub fn is_changed(reply: &Reply, call: u32, units: Units) -> bool
    ensures { (result ≡ true) ↔ (reply.now ≡ Reply.Changed call units) }
{
    match reply {
        Reply::Changed {
            call: replied,
            units: given,
        } => *replied == call && *given == units,
        _ => false,
    }
}

/// Whether it is replied that the call of this number is closed.
pub fn is_released(reply: &Reply, call: u32) -> bool
    ensures { (result ≡ true) ↔ (reply.now ≡ Reply.Released call) }
{
    match reply {
        Reply::Released { call: replied } => *replied == call,
        _ => false,
    }
}

/// Whether it is replied that this endpoint is registered in this zone.
pub fn is_registered(reply: &Reply, id: &NameText<'_>, zone: &NameText<'_>) -> bool
    ensures { (result ≡ true) ↔ (reply.now ≡ Reply.Registered id.now zone.now) }
{
    match reply {
        Reply::Registered {
            id: replied,
            zone: place,
        } => id.is(replied) && zone.is(place),
        _ => false,
    }
}

/// Whether it is replied that the digits lead nowhere, for this reason.
fn is_unrouted(reply: &Reply, call: u32, refusal: RouteRefusal) -> bool
    ensures { (result ≡ true) ↔ (reply.now ≡ Reply.AdmitRefused call (Refusal.NoRoute refusal)) }
{
    match reply {
        Reply::AdmitRefused {
            call: replied,
            reason: AdmitRefusal::NoRoute(given),
        } => *replied == call && *given == refusal,
        _ => false,
    }
}
