//! How many dialled digits each set of a difference has.
#![tactic(auto)]

mod ahead;
mod branches;
mod characters;
mod counting;
mod counts;
mod gathering;
mod held_sets;
pub mod laws;
mod lengths;
mod notes;
mod places;
mod rests;
mod technologies;
mod texts;
mod walk;
mod ways;

pub use counting::count;
pub use counts::Counts;
