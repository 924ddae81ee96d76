//! What `gkd diff` says of two configurations, as an exact text.
#![tactic(auto)]

mod blocks;
pub mod count_words;
mod findings;
mod headings;
mod last_lines;
pub mod laws;
mod lengths;
mod numbers;
mod plan_words;
mod report;
mod rests;
mod row_fields;
mod row_text;
mod rows;
mod set_lines;
mod set_text;
mod shape;
mod shared_prefixes;
mod texts;
mod totals;
pub mod wanted;
pub mod writing;

pub use wanted::{Form, Listing};
pub use writing::{ReportFault, write_difference};
