//! What the programs share that go through calls while one growth of memory after another, or each
//! of them, is refused: what they are asked for, how memory is used up, what is said of the calls,
//! and configurations.
#![tactic(auto)]

mod asked;
mod configurations;
mod hoards;
mod logs;
mod replies;
mod terms;
pub mod texts;

pub use asked::{Task, task_in};
pub use configurations::{commands_of, shared_tables};
pub use hoards::Hoard;
pub use logs::Log;
pub use replies::{lacks_memory, show_reply};
pub use terms::{MOST_CALLS, Terms};
