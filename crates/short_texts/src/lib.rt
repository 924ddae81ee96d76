//! Texts in few bytes, for records and configurations that keep very many of them.
#![tactic(auto)]

pub mod kept_name;
pub mod packed_digits;
pub mod short_names;

pub use kept_name::KeptName;
pub use packed_digits::PackedDigits;
pub use short_names::ShortName;
