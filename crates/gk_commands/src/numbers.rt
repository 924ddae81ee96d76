//! The numbers that a command line leaves unsaid, and the greatest that it may say.

/// The port of a remote gatekeeper whose line gives none: that of H.225.0's RAS.
pub const DEFAULT_RAS_PORT: u16 = 1719;

/// The cost of a remote zone whose line gives none.
pub const DEFAULT_COST: u8 = 50;

/// The priority of a remote zone whose line gives none.
pub const DEFAULT_PRIORITY: u8 = 50;

/// The greatest size of a limit, in kbit/s.
pub const MOST_KBPS: u32 = 10_000_000;

/// The greatest size of one call, in kbit/s.
pub const MOST_SESSION_KBPS: u32 = 5_000;
