//! What the calls are given.

/// The configuration. One name is so long that it takes a block of its own.
pub const ZONES: &[u8] = b"zone local gk-a example.com\n\
zone remote the-gatekeeper-of-the-north-site example.com 10.9.0.1\n\
zone prefix the-gatekeeper-of-the-north-site 9* gw-priority 10 ga\n\
gw-type-prefix 1# hopoff the-gatekeeper-of-the-north-site\n\
bandwidth total zone gk-a 256\n";

/// The configuration that comes after it, and is the candidate of trials: 9 leads to `gk-a`.
pub const OTHER_ZONES: &[u8] = b"zone local gk-a example.com\n\
zone local gk-b example.com\n\
zone prefix gk-a 9*\n";
