//! A configuration from a reader of bytes: its commands or its first fault, and the check of a
//! configuration, which prints its canonical form.
#![tactic(auto)]

pub mod check;
pub mod configuration;
