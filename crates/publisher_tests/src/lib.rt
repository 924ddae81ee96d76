//! The tests of the publisher, over the public calls of the crate `publisher`.
#![tactic(auto)]

#[cfg(test)]
mod reader_tests;
#[cfg(test)]
mod tests;
#[cfg(test)]
mod thread_tests;
