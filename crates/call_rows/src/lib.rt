//! What a record says of calls, row by row: the admissions that were routed, the answers to calls
//! from the zones of other gatekeepers, the bandwidth changes that were granted, and the releases;
//! and a snapshot of them, from which a candidate configuration is tried.
#![tactic(auto)]

mod admission_list;
mod held;
mod kept_admission;
mod kept_reading;
mod kept_routes;
mod open_at;
mod pushing;
pub mod rows;
pub mod snapshots;
pub mod steps;
mod telling;

pub use rows::{AdmittedCall, AnsweredCall, AskedCall, CallEvent, CallRow, NumberedAdmission};
pub use snapshots::{PushFault, Snapshot};
pub use steps::Step;
