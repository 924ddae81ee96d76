//! Why dialled digits go where they go: each step of their routing, and what decided it.
#![tactic(auto)]

mod candidates;
mod canonical;
mod explaining;
mod found;
mod givers;
mod held_limits;
pub mod laws;
mod lists;
mod others;
mod searching;
pub mod steps;
mod telling;
mod text;
mod values;
mod ways;
pub mod writing;

pub use explaining::explain;
pub use steps::{Candidate, Explanation, HeldLimit, Reached, Search, Way};
pub use text::Text;
pub use writing::{ExplainFault, write_explanation};
