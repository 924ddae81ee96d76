//! Laws of the definitions of a run, each the contract of a function that does nothing.
#![tactic(auto)]

pub mod laws;
