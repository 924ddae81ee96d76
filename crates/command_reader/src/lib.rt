//! The reader of configurations: Cisco IOS command lines as commands, or the first fault; and
//! their printer.
#![tactic(auto)]

mod bandwidth_lines;
mod canonical_lines;
pub mod draft;
mod fields;
mod first_words;
mod kept;
pub mod laws;
pub mod printing;
mod reading;
mod technology_lines;
mod zone_lines;

pub use draft::Draft;
pub use gk_lines::WriteFault;
pub use printing::print;
pub use reading::{read, read_again};
