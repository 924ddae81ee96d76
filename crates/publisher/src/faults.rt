//! Why a publisher or a reader refuses.

use thiserror::Error;

/// Why a publisher isn't made. This project's profile.
#[derive(Clone, Copy, Debug, PartialEq, Eq, Error)]
pub enum NewFault {
    /// The number of places is 0 or above 32. It is looked at first.
    #[error("places are 1 to 32")]
    BadPlaces,
    /// Memory was refused.
    #[error("out of memory")]
    NoMemory,
}

/// Why a reader isn't made. This project's profile.
#[derive(Clone, Copy, Debug, PartialEq, Eq, Error)]
pub enum ReaderFault {
    /// No place was found: each is taken by a reader that wasn't let go, or the table of places
    /// gave none for a reason of its own.
    #[error("no place is left")]
    NoPlace,
    /// Memory was refused. Making a reader takes none, so this doesn't come.
    #[error("out of memory")]
    NoMemory,
}

/// Why the tables in force can't be handed out. This project's profile.
#[derive(Clone, Copy, Debug, PartialEq, Eq, Error)]
pub enum TablesFault {
    /// As `Lost`.
    #[error("the reader is lost")]
    Lost,
    /// The tables have as many owners as can be counted.
    #[error("the tables have too many owners")]
    TooManyOwners,
}

/// The reader was not let in: the publisher was closed, or what is shown doesn't have all that the
/// reader was told of, which a publisher never lets happen. This project's profile.
#[derive(Clone, Copy, Debug, PartialEq, Eq, Error)]
#[error("the reader is lost")]
pub struct Lost;

/// Memory was refused for a publication. This project's profile.
#[derive(Clone, Copy, Debug, PartialEq, Eq, Error)]
#[error("out of memory")]
pub struct NoMemory;
