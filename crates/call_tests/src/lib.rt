//! The tests of what a call goes through, over public calls: of the registry, open calls and their
//! bandwidth, entries as bytes, call files, trials, and requests and replies.
#![tactic(auto)]

#[cfg(test)]
mod endpoint_file_tests;
#[cfg(test)]
mod endpoint_tests;
#[cfg(test)]
mod fault_tests;
#[cfg(test)]
mod field_tests;
#[cfg(test)]
mod file_tests;
#[cfg(test)]
mod gate_tests;
pub mod laws;
#[cfg(test)]
mod open_call_tests;
#[cfg(test)]
mod registry_tests;
#[cfg(test)]
mod reply_tests;
#[cfg(test)]
mod session_tests;
#[cfg(test)]
mod test_trials;
#[cfg(test)]
mod trial_tests;
