//! The tests of the desk, and of sessions over TCP at one, over their public calls.
#![tactic(auto)]

#[cfg(test)]
mod client_tests;
#[cfg(test)]
mod desks;
#[cfg(test)]
mod given;
#[cfg(test)]
mod hold_tests;
#[cfg(test)]
mod learned_tests;
#[cfg(test)]
mod reload_tests;
#[cfg(test)]
mod seat_tests;
#[cfg(test)]
mod storm_tests;
#[cfg(test)]
mod thread_tests;
#[cfg(test)]
mod workers;
