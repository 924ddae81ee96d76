//! Why a text is not a term.

use thiserror::Error;

/// Why a text could not be read as a term. The same text is refused each time, and nothing else
/// changes.
#[derive(Clone, Copy, Debug, PartialEq, Eq, Error)]
pub enum TermFault {
    /// Not a name: empty, longer than 128 bytes, or with a byte outside 0x21 to 0x7E.
    #[error("not a name")]
    BadName,
    /// Not dialled digits, or not a technology prefix: empty, too long, or with another character.
    #[error("not dialled digits")]
    BadDigits,
    /// Not a decimal number, one with a leading zero, or one outside the stated range.
    #[error("not a number in range")]
    BadNumber,
    /// Not an IPv4 address, or a port that is not one.
    #[error("not an address")]
    BadAddress,
}
