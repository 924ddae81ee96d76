//! The tasks of the program `gkd`: what the words of its command line ask for, and each task but
//! that of a server, with the files that it reads, what it prints and the status that it ends with.
//! A function that is to give an `ExitCode` fails only if standard error takes no more.
#![tactic(auto)]

mod checking;
mod command_line;
mod differing;
mod explaining;
mod files;
mod refusing;
mod run_files;
mod saying;
mod trial_files;

pub use checking::check_file;
pub use command_line::{BadNumber, BadWord, Task, task_of};
pub use differing::{diff_files, form_of, listing_of};
pub use explaining::{Question, explain_file};
pub use files::{Uncompiled, shared_tables};
pub use refusing::{refuse_command_line, refuse_number, refuse_word};
pub use run_files::{run_file, run_input};
pub use saying::{UNWRITTEN, fail, refuse_tables};
pub use trial_files::{TrialFiles, try_files};
