//! The tests of the core and its record, over the public calls of the crate `admission`.
#![tactic(auto)]

#[cfg(test)]
mod answer_tests;
#[cfg(test)]
mod core_tests;
#[cfg(test)]
mod laws_tests;
#[cfg(test)]
mod limit_tests;
#[cfg(test)]
mod reading_back_tests;
#[cfg(test)]
mod reload_tests;
#[cfg(test)]
mod test_cores;
#[cfg(test)]
mod wanted;
