//! Bandwidth limits of a zone.

use gk_commands::LimitKind;

/// The limits of a zone, each in units of 100 bit/s for both directions together (H.225.0), or
/// nothing if there is none.
#[derive(Clone, Copy, Debug, PartialEq, Eq)]
pub struct ZoneLimits {
    /// Of one call: 10 to 50,000.
    pub session: Option<u64>,
    /// Of all calls that touch the zone together: 10 to 100,000,000.
    pub total: Option<u64>,
    /// Of those among them whose two zones differ: 10 to 100,000,000.
    pub interzone: Option<u64>,
}

/// The limits of a zone that has none.
pub(crate) const NO_LIMITS: ZoneLimits = ZoneLimits {
    session: None,
    total: None,
    interzone: None,
};

impl ZoneLimits {
    ghost use Rattle.std.specs.Prelude.{◌≡◌, Some};
    ghost use Rattle.compiler.specs.TablesIndex.{limits_by, limits_or, limit_if, limit_in};

    /// One limit alone.
    pub(crate) fn only(kind: LimitKind, limit: u64) -> ZoneLimits
        ensures { result ≡ limits_by (limit_if kind limit) }
    {
        match kind {
            LimitKind::Session => ZoneLimits {
                session: Some(limit),
                ..NO_LIMITS
            },
            LimitKind::Total => ZoneLimits {
                total: Some(limit),
                ..NO_LIMITS
            },
            LimitKind::Interzone => ZoneLimits {
                interzone: Some(limit),
                ..NO_LIMITS
            },
        }
    }

    /// Each limit, or that of others if there is none.
    pub(crate) fn or(self, others: ZoneLimits) -> ZoneLimits
        ensures { result ≡ limits_or self others }
    {
        ZoneLimits {
            session: self.session.or(others.session),
            total: self.total.or(others.total),
            interzone: self.interzone.or(others.interzone),
        }
    }

    /// The limit of this kind.
    pub(crate) fn of(self, kind: LimitKind) -> Option<u64>
        ensures { result ≡ limit_in self kind }
    {
        match kind {
            LimitKind::Session => self.session,
            LimitKind::Total => self.total,
            LimitKind::Interzone => self.interzone,
        }
    }
}
