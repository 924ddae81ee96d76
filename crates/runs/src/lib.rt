//! A run: a configuration, and then requests; and the rows of its record, as a call file.
#![tactic(auto)]

mod recorded_rows;
mod run;

pub use recorded_rows::write_record;
pub use run::{Ended, RunFault, run_over, run_under};
