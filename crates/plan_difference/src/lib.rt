//! Which dialled digits two configurations plan otherwise.
#![tactic(auto)]

mod adding;
pub mod all_sets;
pub mod changes;
mod choosing;
mod classing;
mod common_fronts;
pub mod destinations;
pub mod differences;
mod gathering;
mod groups;
mod held_sets;
mod joint_heads;
mod joint_walk;
pub mod laws;
pub mod number_sets;
mod passing;
mod reach;
mod sameness;
pub mod sets;
mod texts;
mod walk;

pub use all_sets::classes;
pub use changes::changed_sets;
pub use classing::set_of;
pub use destinations::{Destination, destination_of};
pub use differences::difference;
pub use number_sets::{Group, NumberSet};
pub use sameness::is_same;
pub use sets::Sets;
