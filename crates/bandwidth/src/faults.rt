//! Why open calls refuse a change.

use thiserror::Error;

/// Why a call is not opened, changed or closed.
#[derive(Clone, Copy, Debug, PartialEq, Eq, Error)]
pub enum CallsFault {
    /// A call of the number is open.
    #[error("call open")]
    CallOpen,
    /// No call of the number is open.
    #[error("no call")]
    NoCall,
    /// The call belongs to another endpoint.
    #[error("not yours")]
    NotYours,
    /// As many calls are open as there may be.
    #[error("full")]
    Full,
    /// Memory ran out.
    #[error("no memory")]
    NoMemory,
}
