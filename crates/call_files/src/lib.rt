//! Call files: what a record says of calls, as comma-separated fields; and the rows of any such
//! text, on their way to a writer.
#![tactic(auto)]

pub mod faults;
mod fields;
pub mod laws;
mod reading;
mod record_reader;
pub mod route_texts;
pub mod row_source;
pub mod row_writer;
mod sound_rows;
mod writing;

pub use faults::{CallsFault, CallsFaultKind};
pub use reading::read_calls;
pub use row_source::RowSource;
pub use row_writer::{RowWriter, WriteRowsFault};
pub use writing::{write_calls, write_rows_of};
