//! Why a configuration is refused.

use gk_terms::fields::FieldFault;
use std::alloc::AllocError;
use thiserror::Error;

/// The kind of a fault of a configuration line.
#[derive(Clone, Copy, Debug, PartialEq, Eq, Error)]
pub enum FaultKind {
    /// The line is longer than 512 bytes, its ending aside.
    #[error("TooLong")]
    TooLong,
    /// The line begins with no known command word, or its command has no such second or third word.
    #[error("UnknownCommand")]
    UnknownCommand,
    /// The line is a command, or has an option, that this project leaves out.
    #[error("Unsupported")]
    Unsupported,
    /// A field is absent.
    #[error("Missing")]
    Missing,
    /// A word comes after the last field.
    #[error("Extra")]
    Extra,
    /// A field is not a name.
    #[error("BadName")]
    BadName,
    /// A field is not a pattern of digits, or not a technology prefix.
    #[error("BadPattern")]
    BadPattern,
    /// A field is not a number in its range.
    #[error("BadNumber")]
    BadNumber,
    /// A field is not an IPv4 address.
    #[error("BadAddress")]
    BadAddress,
    /// The line names a zone that no line declares.
    #[error("UnknownZone")]
    UnknownZone,
    /// An earlier line declared a zone of this name.
    #[error("DuplicateZone")]
    DuplicateZone,
    /// No line declares a local zone.
    #[error("NoLocalZone")]
    NoLocalZone,
    /// The line is the 20,001st, or declares the 1,025th zone.
    #[error("TooMany")]
    TooMany,
    /// Memory ran out while the line was read.
    #[error("NoMemory")]
    NoMemory,
}

impl FieldFault for FaultKind {
    ghost use Rattle.gk_commands.specs.declared.faults.FaultKind.TheVariants.{Missing, Extra};

    ghost missing = { Missing };

    ghost extra = { Extra };

    fn missing() -> FaultKind {
        FaultKind::Missing
    }

    fn extra() -> FaultKind {
        FaultKind::Extra
    }
}

impl From<AllocError> for FaultKind {
    ghost use Rattle.std.specs.Prelude.{◌≡◌};
    ghost use Rattle.gk_commands.specs.declared.faults.FaultKind.TheVariants.{NoMemory};

    ghost from_gives = { λ _ kind. kind ≡ NoMemory };

    fn from(_refused: AllocError) -> FaultKind {
        FaultKind::NoMemory
    }
}

/// The first fault of a configuration: the number of its line, from 1, and its kind.
#[derive(Clone, Copy, Debug, PartialEq, Eq, Error)]
#[error("line {line}: {kind}")]
pub struct LineFault {
    /// The number of the line, from 1. `NoLocalZone` is numbered one past the last line.
    pub line: u32,
    /// What is wrong there.
    pub kind: FaultKind,
}
