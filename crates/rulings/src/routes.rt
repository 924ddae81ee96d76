//! Where dialled digits lead, and how that is printed.

use gk_terms::{Address, Name};
use std::fmt;

/// Where an admitted call leads.
#[derive(Clone, Copy, Debug, PartialEq, Eq)]
pub enum Destination {
    /// A registered gateway, at its call signalling address.
    Gateway { id: Name, address: Address },
    /// A registered terminal, at its call signalling address.
    Terminal { id: Name, address: Address },
    /// A zone of another gatekeeper, at that gatekeeper's RAS address.
    Zone { name: Name, address: Address },
}

/// Why dialled digits lead nowhere.
#[derive(Clone, Copy, Debug, PartialEq, Eq)]
pub enum RouteRefusal {
    /// No zone prefix matches, and the configuration rejects such digits.
    UnknownPrefix,
    /// The target zone has no gateway for the technology prefix of the digits, or for the default
    /// technology.
    NoGateway,
    /// No endpoint of the target zone has the digits as an alias, and no default technology is set.
    NoDefault,
}

/// Where dialled digits lead a caller.
#[derive(Clone, Copy, Debug, PartialEq, Eq)]
pub enum Route {
    /// To this destination.
    To(Destination),
    /// Nowhere.
    Refused(RouteRefusal),
}

impl fmt::Display for Destination {
    ghost use Rattle.std.specs.Prelude.{Some};
    ghost use Rattle.rulings.specs.Routes.{destination_text};

    ghost output = { λ destination. Some (destination_text destination) };

    fn fmt<W: fmt::Write>(&self, f: &mut fmt::Formatter<W>) -> fmt::Result {
        match self {
            Destination::Gateway { id, address } => write!(f, "GW {id} {address}"),
            Destination::Terminal { id, address } => write!(f, "TERM {id} {address}"),
            Destination::Zone { name, address } => write!(f, "ZONE {name} {address}"),
        }
    }
}

impl fmt::Display for RouteRefusal {
    ghost use Rattle.std.specs.Prelude.{Some};
    ghost use Rattle.rulings.specs.Routes.{route_refusal_word};

    ghost output = { λ refusal. Some (route_refusal_word refusal) };

    fn fmt<W: fmt::Write>(&self, f: &mut fmt::Formatter<W>) -> fmt::Result {
        match self {
            RouteRefusal::UnknownPrefix => f.write_str("unknown-prefix"),
            RouteRefusal::NoGateway => f.write_str("no-gateway"),
            RouteRefusal::NoDefault => f.write_str("no-default"),
        }
    }
}

impl fmt::Display for Route {
    ghost use Rattle.std.specs.Prelude.{Some};
    ghost use Rattle.rulings.specs.Routes.{route_text};

    ghost output = { λ route. Some (route_text route) };

    fn fmt<W: fmt::Write>(&self, f: &mut fmt::Formatter<W>) -> fmt::Result {
        match self {
            Route::To(destination) => write!(f, "{destination}"),
            Route::Refused(refusal) => write!(f, "{refusal}"),
        }
    }
}
