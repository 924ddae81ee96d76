//! Why a session ends early.

use gk_lines::{ReadFault, WriteFault};
use thiserror::Error;

/// Why a session ended before the end of its input. The events that were answered stand.
#[derive(Clone, Copy, Debug, PartialEq, Eq, Error)]
pub enum SessionFault {
    /// The reader failed.
    #[error("the reader failed")]
    ReadFault,
    /// The writer failed, or took no byte. The last reply, or its end, may be lost.
    #[error("the writer failed")]
    WriteFault,
    /// Memory was refused for the session's buffers, before any byte was read. Since they stand on
    /// the stack, it does not come.
    #[error("no memory")]
    NoMemory,
    /// The reader was called as often as it may be.
    #[error("the turns are spent")]
    TurnsSpent,
}

impl From<ReadFault> for SessionFault {
    ghost use Rattle.std.specs.Prelude.{◌≡◌};
    ghost use Rattle.gk_protocol.specs.Session.{session_fault_of};

    ghost from_gives = { λ fault session. session ≡ session_fault_of fault };

    fn from(fault: ReadFault) -> SessionFault {
        match fault {
            ReadFault::Failed => SessionFault::ReadFault,
            ReadFault::TurnsSpent => SessionFault::TurnsSpent,
        }
    }
}

impl From<WriteFault> for SessionFault {
    ghost use Rattle.std.specs.Prelude.{◌≡◌};
    ghost use Rattle.gk_protocol.specs.declared.session_faults.SessionFault.TheVariants as session;

    ghost from_gives = { λ _ fault. fault ≡ session.WriteFault };

    fn from(_failed: WriteFault) -> SessionFault {
        SessionFault::WriteFault
    }
}
