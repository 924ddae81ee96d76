//! Where dialled digits are sent, as far as the configuration says.

ghost use Rattle.std.specs.Prelude.{◌≡◌};

use gk_terms::{Dialled, TechPrefix, Version};
use std::marker::Model;

/// The priority of a gateway for a row whose `gw-priority` options do not name it.
pub const DEFAULT_GATEWAY_PRIORITY: u8 = 5;

/// The number of a zone: its place, from 0, among the zones that are declared, in line order. It is
/// used with the tables that gave it.
#[derive(Clone, Copy, Debug, PartialEq, Eq)]
pub struct ZoneNo(u32);

/// The number of a row, which is a pattern with the zone that is picked for it: the place of the
/// pattern, from 0, among the different patterns of the `zone prefix` lines, in the order of their
/// first lines. It is used with the tables that gave it.
#[derive(Clone, Copy, Debug, PartialEq, Eq)]
pub struct RowNo(u32);

impl Model for ZoneNo {
    ghost use Rattle.std.specs.Prelude.{ℕ};

    ghost Value = { ℕ };

    ghost view = { λ n. n.0 };

    ghost inverse = { λ n. record { 0 = n } };
}

impl Model for RowNo {
    ghost use Rattle.std.specs.Prelude.{ℕ};

    ghost Value = { ℕ };

    ghost view = { λ n. n.0 };

    ghost inverse = { λ n. record { 0 = n } };
}

impl ZoneNo {
    /// The zone of this place.
    pub fn new(place: u32) -> ZoneNo
        ensures { result ≡ place }
    {
        ZoneNo(place)
    }

    /// Its place.
    pub fn place(self) -> u32
        ensures { result ≡ self }
    {
        let ZoneNo(place) = self;
        place
    }
}

impl RowNo {
    /// The row of this place.
    pub fn new(place: u32) -> RowNo
        ensures { result ≡ place }
    {
        RowNo(place)
    }

    /// Its place.
    pub fn place(self) -> u32
        ensures { result ≡ self }
    {
        let RowNo(place) = self;
        place
    }
}

/// Where a call is to go, as far as the configuration says.
#[derive(Clone, Copy, Debug, PartialEq, Eq)]
pub enum Plan {
    /// To a zone of another gatekeeper.
    Remote(ZoneNo),
    /// To an endpoint of a local zone.
    Local {
        /// The zone.
        zone: ZoneNo,
        /// The technology prefix with which the digits begin, if they begin with one.
        technology: Option<TechPrefix>,
        /// The row that was used, if one was: none for a hop-off zone.
        row: Option<RowNo>,
    },
    /// To an endpoint of the caller's zone, since no zone prefix matches.
    Caller {
        /// The technology prefix with which the digits begin, if they begin with one.
        technology: Option<TechPrefix>,
    },
    /// Nowhere: no zone prefix matches, and the configuration rejects such digits.
    UnknownPrefix,
}

/// What one version of the configuration says of dialled digits.
#[derive(Clone, Copy, Debug, PartialEq, Eq)]
pub struct Routed {
    /// The number of that version.
    pub version: Version,
    /// What was dialled.
    pub dialled: Dialled,
    /// Where a call to these digits is to go.
    pub plan: Plan,
}
