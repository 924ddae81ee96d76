//! The stated limits: the most that a configuration, a request or a core may have. Each is this
//! project's profile, except the sequence number, whose range is that of H.225.0's RequestSeqNum.

/// Bytes of a line, without its line feed and one carriage return just before that.
pub const MOST_LINE_BYTES: usize = 512;

/// Lines of a configuration.
pub const MOST_LINES: usize = 20_000;

/// Zones that a configuration declares, local and remote.
pub const MOST_ZONES: usize = 1_024;

/// Endpoints that are registered at one time.
pub const MOST_ENDPOINTS: u32 = 10_000;

/// Different E.164 aliases of one endpoint.
pub const MOST_ALIASES: usize = 16;

/// Different technology prefixes of one endpoint.
pub const MOST_TECHNOLOGIES: usize = 8;

/// Calls that are open at one time.
pub const MOST_CALLS: u32 = 50_000;

/// Entries of a record.
pub const MOST_RECORDS: u32 = 1_000_000;

/// Reloads of a configuration.
pub const MOST_RELOADS: u32 = 4_096;

/// Seats of a desk.
pub const MOST_SEATS: u32 = 32;

/// Workers of a trial.
pub const MOST_WORKERS: u32 = 64;

/// The greatest sequence number of a request.
pub const MOST_SEQUENCE: u32 = 65_535;

/// Bytes of a name.
pub const MOST_NAME_BYTES: usize = 128;

/// Characters of a dialled number, and of a pattern.
pub const MOST_DIALLED: usize = 32;

/// Characters of a technology prefix.
pub const MOST_TECHNOLOGY: usize = 11;
