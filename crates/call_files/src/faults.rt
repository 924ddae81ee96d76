//! Why a call file is refused.

use call_rows::PushFault;
use thiserror::Error;

/// The kind of a fault of a call file.
#[derive(Clone, Copy, Debug, PartialEq, Eq, Error)]
pub enum CallsFaultKind {
    /// There is no first record, or it is not the header.
    #[error("BadHeader")]
    BadHeader,
    /// The record has not eight fields, or one that is not UTF-8.
    #[error("BadRow")]
    BadRow,
    /// A field is not what such a row has there, a granted admission has no destination, or an
    /// answer has neither a gateway nor a terminal as its route.
    #[error("BadField")]
    BadField,
    /// The number is not greater than that of the row before.
    #[error("OutOfOrder")]
    OutOfOrder,
    /// An admission, or an answer, was granted for a call that is open.
    #[error("CallOpen")]
    CallOpen,
    /// A call that is not open was changed or released.
    #[error("NoCall")]
    NoCall,
    /// The row is the 1,000,001st, or opens the 50,001st call.
    #[error("TooMany")]
    TooMany,
    /// Memory ran out while the row was read.
    #[error("NoMemory")]
    NoMemory,
}

impl From<PushFault> for CallsFaultKind {
    ghost use Rattle.std.specs.Prelude.{◌≡◌};
    ghost use Rattle.call_files.specs.Calls.{kind_of};

    ghost from_gives = { λ fault kind. kind ≡ kind_of fault };

    fn from(fault: PushFault) -> CallsFaultKind {
        match fault {
            PushFault::OutOfOrder => CallsFaultKind::OutOfOrder,
            PushFault::CallOpen => CallsFaultKind::CallOpen,
            PushFault::NoCall => CallsFaultKind::NoCall,
            PushFault::TooMany => CallsFaultKind::TooMany,
            PushFault::NoMemory => CallsFaultKind::NoMemory,
        }
    }
}

/// The first fault of a call file. Rows are counted from 1 after the header, which is row 0.
#[derive(Clone, Copy, Debug, PartialEq, Eq, Error)]
#[error("row {row}: {kind}")]
pub struct CallsFault {
    pub row: u32,
    pub kind: CallsFaultKind,
}
