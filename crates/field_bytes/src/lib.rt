//! Fields as bytes: how they are added to a vector, and how they are read again.
#![tactic(auto)]

mod adding;
mod fields;
pub mod laws;
mod name_texts;
mod sizes;

pub use adding::{add_address, add_byte, add_dialled, add_name, add_number, add_text, add_units};
pub use fields::Fields;
pub use name_texts::NameText;
pub use sizes::{NUMBER_BYTES, size_of_address, size_of_dialled, size_of_name};
