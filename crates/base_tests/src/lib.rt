//! The tests of the crates below `publisher`, up to the compiler, over their public calls.
#![tactic(auto)]

#[cfg(test)]
mod check_tests;
#[cfg(test)]
mod command_tests;
#[cfg(test)]
mod fault_tests;
#[cfg(test)]
mod line_tests;
#[cfg(test)]
mod log_tests;
#[cfg(test)]
mod pattern_tests;
#[cfg(test)]
mod piece_tests;
#[cfg(test)]
mod short_text_tests;
#[cfg(test)]
mod stream_tests;
#[cfg(test)]
mod table_tests;
#[cfg(test)]
mod trie_tests;
