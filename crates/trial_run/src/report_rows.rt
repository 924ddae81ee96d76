//! What a report of a trial says.

use gk_terms::{Dialled, Name};
use rulings::Route;

/// What the candidate answers to a recorded admission.
#[derive(Clone, Copy)]
pub enum CandidateAnswer {
    /// The digits lead there. An answer to a call is what was recorded.
    Led(Route),
    /// The recorded zone, of the caller or of the endpoint that answered, is not a local zone of
    /// the candidate.
    CallerNotRegistered,
}

/// Whether the candidate answers as was recorded.
#[derive(Clone, Copy, Debug, PartialEq, Eq)]
pub enum Verdict {
    /// Both answers have the same text.
    Same,
    /// They differ.
    Changed,
}

/// A recorded admission that was routed, or a recorded answer to a call, and what the candidate
/// answers to it.
#[derive(Clone, Copy)]
pub struct ReportRow {
    /// The number of its entry in the record.
    pub number: u32,
    /// What was dialled; none if it was the answer to a call, which dials nothing.
    pub digits: Option<Dialled>,
    /// Where the digits led; of an answer to a call the endpoint that gave it.
    pub recorded: Route,
    /// What the candidate answers.
    pub candidate: CandidateAnswer,
    /// Whether both are the same.
    pub verdict: Verdict,
}

/// A zone that the candidate declares, and the greatest sum of the bandwidth of the granted calls
/// that are open at one time and touch it under the candidate, in units of 100 bit/s.
#[derive(Clone, Copy)]
pub struct ZonePeak {
    /// The name of the zone.
    pub zone: Name,
    /// The greatest sum.
    pub units: u64,
}

/// How many rows a report has, and how many of each verdict.
#[derive(Clone, Copy, Debug, PartialEq, Eq)]
pub struct Counts {
    /// All rows.
    pub rows: usize,
    /// Those that are the same.
    pub same: usize,
    /// Those that are changed.
    pub changed: usize,
}
