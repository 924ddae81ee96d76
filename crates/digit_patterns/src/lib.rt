//! Patterns of dialled characters, and tables that find the longest pattern that matches.
#![tactic(auto)]

pub mod laws;
pub mod patterns;
pub mod tables;

pub use patterns::{BadPattern, Pattern};
pub use tables::{Hit, PlainTable, PrefixTable, TableFault};
