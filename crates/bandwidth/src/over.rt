//! The sum that would be above its limit.

ghost use Rattle.std.specs.Prelude.{◌≡◌};

use gk_commands::LimitKind;
use gk_terms::Name;

/// The first sum that would be above its limit, if a call got the bandwidth that it asks for.
#[derive(Clone, Copy, Debug, PartialEq, Eq)]
pub enum Over {
    /// A sum of a local zone.
    Zone {
        /// Which of the zone's sums.
        kind: LimitKind,
        /// The name of the zone.
        zone: Name,
    },
    /// The sum of all calls to and from other gatekeepers.
    Remote,
}

impl Over {
    /// A sum of this kind, of this zone.
    pub(crate) fn of(kind: LimitKind, zone: &Name) -> Over
        ensures { result ≡ Over.Zone kind zone.now }
    {
        Over::Zone { kind, zone: *zone }
    }
}
