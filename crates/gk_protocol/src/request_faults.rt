//! Why a line is not a request.

ghost use Rattle.std.specs.Prelude.{◌≡◌};

use gk_terms::fields::FieldFault;
use thiserror::Error;

/// What is wrong with a line that is not a request: its first fault from the left. It is answered
/// by `ERR` and the fault's word, and changes nothing. The words are this project's profile.
#[derive(Clone, Copy, Debug, PartialEq, Eq, Error)]
pub enum RequestFault {
    /// The line is longer than 512 bytes, its ending aside.
    #[error("a line of more than 512 bytes")]
    LineTooLong,
    /// The first word is not a request's.
    #[error("an unknown request")]
    UnknownWord,
    /// The sequence number is not a number from 1 to 65535.
    #[error("not a sequence number")]
    BadSequence,
    /// A field is absent.
    #[error("an absent field")]
    Missing,
    /// A word stands after the last field.
    #[error("a word after the last field")]
    Extra,
    /// The kind of an endpoint is neither `GW` nor `TERM`; or a word is not an option; or an option
    /// stands once too often.
    #[error("an unknown option, or one too many")]
    BadOption,
    /// A field is not a name.
    #[error("not a name")]
    BadName,
    /// A field is neither `IP` nor `IP:PORT`.
    #[error("not an address")]
    BadAddress,
    /// A field or an alias is not dialled digits, or an option is not a technology prefix.
    #[error("not dialled digits")]
    BadDigits,
    /// A field is not a number in its range.
    #[error("not a number in range")]
    BadNumber,
    /// The input ends before the lines that belong to a request.
    #[error("cut short by the end of input")]
    CutShort,
}

impl RequestFault {
    ghost use Rattle.gk_protocol.specs.Answers.{fault_word};

    /// The word of the fault in a reply.
    pub fn word(self) -> &'static str
        ensures { result.now ≡ fault_word self }
    {
        match self {
            RequestFault::LineTooLong => "line",
            RequestFault::UnknownWord => "word",
            RequestFault::BadSequence => "seq",
            RequestFault::Missing => "missing",
            RequestFault::Extra => "extra",
            RequestFault::BadOption => "option",
            RequestFault::BadName => "name",
            RequestFault::BadAddress => "address",
            RequestFault::BadDigits => "digits",
            RequestFault::BadNumber => "number",
            RequestFault::CutShort => "cut",
        }
    }
}

impl FieldFault for RequestFault {
    ghost use Rattle.gk_protocol.specs.declared.request_faults.RequestFault.TheVariants as fault;

    ghost missing = { fault.Missing };

    ghost extra = { fault.Extra };

    fn missing() -> RequestFault {
        RequestFault::Missing
    }

    fn extra() -> RequestFault {
        RequestFault::Extra
    }
}
