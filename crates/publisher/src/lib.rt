//! Tables that are put in force by one publisher and read by up to 32 readers, which never wait.
#![tactic(auto)]

mod blanks;
mod entries;
mod faults;
mod fronts;
mod looks;
mod publications;
mod publishers;
mod readers;
mod showing;
mod tellings;

pub use blanks::{Blank, Imprint};
pub use faults::{Lost, NewFault, NoMemory, ReaderFault, TablesFault};
pub use publishers::{MOST_PLACES, Publisher};
pub use readers::Reader;
pub use tellings::Told;
