//! Trials: what the calls of a record would be under another configuration.
#![tactic(auto)]

mod answers;
mod chunks;
mod comparing;
mod held_answers;
mod held_routes;
mod held_rows;
mod joining;
pub mod report;
pub mod report_rows;
mod routing;
mod sharing;
mod standings;
mod summaries;
mod summing;
mod touched;
pub mod trials;
mod tried_chunks;
mod tried_rows;
mod writing;
mod zone_names;

pub use report::Report;
pub use report_rows::{CandidateAnswer, Counts, ReportRow, Verdict, ZonePeak};
pub use trials::{TrialFault, trial};
pub use writing::write_report;
