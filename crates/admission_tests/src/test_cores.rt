//! What the tests over a core share.

use admission::{Core, Destination, Event, STATED_LIMITS};
use command_reader::read;
use compiler::Tables;
use gk_terms::{Address, Dialled, Name, Units};
use registry::{Endpoint, EndpointKind};
use std::alloc::Global;
use std::sync::Arc;
use std::test::Fail;

/// Two zones: `gk-a` here, and `gk-x` of another gatekeeper.
pub(crate) const ZONES: &[u8] = b"zone local gk-a example.com\n\
    zone remote gk-x example.com 10.9.0.1\n\
    zone prefix gk-a 408*\n\
    zone prefix gk-x 9*\n";

/// The tables of a configuration.
pub(crate) fn tables_of(alloc: Global, configuration: &[u8]) -> Result<Arc<Tables>, Fail> {
    let tables = Tables::compile(alloc, read(alloc, configuration)?)?;
    Ok(Arc::new(alloc, tables)?)
}

/// A core with the two zones.
pub(crate) fn core_of(alloc: Global) -> Result<Core, Fail> {
    core_under(alloc, ZONES)
}

/// A core with this configuration.
pub(crate) fn core_under(alloc: Global, configuration: &[u8]) -> Result<Core, Fail> {
    let tables = tables_of(alloc, configuration)?;
    Ok(Core::new(alloc, tables, STATED_LIMITS)?)
}

/// A terminal of this zone.
pub(crate) fn terminal_in(alloc: Global, id: Name, zone: Name) -> Endpoint {
    let address = Address::new([10, 0, 1, 1], 1720);
    Endpoint::new(alloc, EndpointKind::Terminal, id, zone, address)
}

/// A terminal of this zone at another address, with the aliases `4085551234` and `7`.
pub(crate) fn called_terminal(alloc: Global, id: Name, zone: Name) -> Result<Endpoint, Fail> {
    let address = Address::new([10, 0, 1, 9], 1721);
    let mut called = Endpoint::new(alloc, EndpointKind::Terminal, id, zone, address);
    called.add_alias(Dialled::read(b"4085551234")?)?;
    called.add_alias(Dialled::read(b"7")?)?;
    Ok(called)
}

/// The names and the digits of which the tests ask.
#[derive(Clone, Copy)]
pub(crate) struct Given {
    /// The endpoint with aliases.
    pub(crate) id: Name,
    /// A terminal without one.
    pub(crate) ta: Name,
    /// An ID that is not registered.
    pub(crate) tb: Name,
    /// The local zone.
    pub(crate) gk_a: Name,
    /// The remote zone.
    pub(crate) gk_x: Name,
    /// Digits that lead to the remote zone.
    pub(crate) away: Dialled,
    /// An alias of the endpoint.
    pub(crate) alias: Dialled,
    /// Digits that lead nowhere.
    pub(crate) nowhere: Dialled,
}

impl Given {
    /// With this ID for the endpoint with aliases.
    pub(crate) fn of(id: &[u8]) -> Result<Given, Fail> {
        Ok(Given {
            id: Name::read(id)?,
            ta: Name::read(b"ta")?,
            tb: Name::read(b"tb")?,
            gk_a: Name::read(b"gk-a")?,
            gk_x: Name::read(b"gk-x")?,
            away: Dialled::read(b"9123")?,
            alias: Dialled::read(b"4085551234")?,
            nowhere: Dialled::read(b"5551")?,
        })
    }

    /// Where a call to the remote zone leads.
    pub(crate) fn remote(&self) -> Destination {
        Destination::Zone {
            name: self.gk_x,
            address: Address::new([10, 9, 0, 1], 1719),
        }
    }

    /// Where a call to the endpoint with aliases leads.
    pub(crate) fn called(&self) -> Destination {
        Destination::Terminal {
            id: self.id,
            address: Address::new([10, 0, 1, 9], 1721),
        }
    }

    /// Whether the endpoint with aliases and the terminal without one register, as the first two
    /// entries.
    pub(crate) fn are_registered(&self, core: &mut Core, alloc: Global) -> Result<bool, Fail> {
        let called = called_terminal(alloc, self.id, self.gk_a)?;
        let terminal = terminal_in(alloc, self.ta, self.gk_a);
        Ok(
            is_recorded(core, Event::Register(called))
                && is_recorded(core, Event::Register(terminal)),
        )
    }
}

/// The admission of a call of so many units.
pub(crate) fn admission(id: Name, call: u32, digits: Dialled, units: u32) -> Event {
    Event::Admit {
        id,
        call,
        digits,
        units: Units::new(units),
    }
}

/// The answer to a call, of so many units.
pub(crate) fn answer(id: Name, call: u32, units: u32) -> Event {
    Event::Incoming {
        id,
        call,
        units: Units::new(units),
    }
}

/// The change of a call to so many units.
pub(crate) fn change(id: Name, call: u32, units: u32) -> Event {
    Event::Change {
        id,
        call,
        units: Units::new(units),
    }
}

/// Whether an event is recorded, with a receipt that has the reply and stands.
pub(crate) fn is_recorded(core: &mut Core, event: Event) -> bool {
    match core.answer(event) {
        Ok((reply, receipt)) => receipt.reply == reply && core.record().stands(&receipt),
        Err(_) => false,
    }
}
