//! The limits of a run.

use gk_terms::limits::{MOST_CALLS, MOST_ENDPOINTS, MOST_RECORDS, MOST_RELOADS};

/// How much a run may hold. Each is at least 1 and at most the stated limit of its kind.
#[derive(Clone, Copy, Debug, PartialEq, Eq)]
pub struct Limits {
    /// Endpoints registered at one time, 1 to 10,000.
    pub endpoints: u32,
    /// Calls open at one time, 1 to 50,000.
    pub calls: u32,
    /// Entries of the record, 1 to 1,000,000.
    pub records: u32,
    /// Reloads of the configuration, 1 to 4,096.
    pub reloads: u32,
}

/// The stated limits.
pub const STATED_LIMITS: Limits = Limits {
    endpoints: MOST_ENDPOINTS,
    calls: MOST_CALLS,
    records: MOST_RECORDS,
    reloads: MOST_RELOADS,
};

impl Limits {
    ghost use Rattle.std.specs.Prelude.{◌≡◌};
    ghost use Rattle.rulings.specs.Limits.{are_limits};

    /// Whether each limit is within its range.
    pub fn are_good(&self) -> bool
        ensures { result ≡ are_limits self.now }
    {
        1 <= self.endpoints
            && self.endpoints <= MOST_ENDPOINTS
            && 1 <= self.calls
            && self.calls <= MOST_CALLS
            && 1 <= self.records
            && self.records <= MOST_RECORDS
            && 1 <= self.reloads
            && self.reloads <= MOST_RELOADS
    }
}
