//! Requests to which the next lines belong.

ghost use Rattle.std.specs.Prelude.{◌≡◌};
ghost use Rattle.gk_protocol.specs.LineOwners.{request_with, lines_without_memory};

use crate::answers::Answer;
use crate::owned_lines::OwnedLines;
use crate::reloads::reload_without_memory;
use crate::requests::Request;
use crate::trials::trial_without_memory;

/// What a line asks with the lines after it, until they are there.
#[derive(Clone, Copy, Debug, PartialEq, Eq)]
pub enum LineOwner {
    /// `CFG`: that the configuration in the lines be put in force.
    Reload {
        /// The sequence number, 1 to 65535, which the reply repeats.
        sequence: u32,
    },
    /// `TRY`: that the calls so far be tried under the configuration in the lines.
    Try {
        /// The sequence number, 1 to 65535, which the reply repeats.
        sequence: u32,
        /// How many workers are asked for, 0 to 65535.
        workers: u32,
    },
}

impl LineOwner {
    /// The request with its lines.
    pub(crate) fn request(self, lines: OwnedLines) -> Request
        ensures { result ≡ request_with self lines }
    {
        match self {
            LineOwner::Reload { sequence } => Request::Reload { sequence, lines },
            LineOwner::Try { sequence, workers } => Request::Try {
                sequence,
                workers,
                lines,
            },
        }
    }

    /// The answer if memory runs out for the lines.
    pub(crate) fn no_memory(self) -> Answer
        ensures { result ≡ lines_without_memory self }
    {
        match self {
            LineOwner::Reload { sequence } => reload_without_memory(sequence),
            LineOwner::Try { sequence, .. } => trial_without_memory(sequence),
        }
    }
}
