//! The terms of the gatekeeper: names, dialled digits, technology prefixes, numbers and addresses,
//! each read from a word and held in place.
#![tactic(auto)]

pub mod addresses;
mod byte_kinds;
pub mod dialled_digits;
pub mod faults;
pub mod fields;
pub mod gates;
pub mod limits;
pub mod names;
pub mod numbers;
pub mod quantities;
pub mod reasons;
pub mod spelling;
pub mod technology;
pub mod text_lines;
pub mod words;

pub use addresses::Address;
pub use dialled_digits::Dialled;
pub use faults::TermFault;
pub use gates::{Gate, OpenGate};
pub use names::Name;
pub use numbers::read_number;
pub use quantities::{Kbps, Units, Version};
pub use reasons::Reason;
pub use technology::TechPrefix;
