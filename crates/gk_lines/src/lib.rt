//! Lines in and lines out: readers and writers that note their failures, the lines of an input that
//! is read in pieces, and a buffer of fixed size in which a line is read or made.
#![tactic(auto)]

pub mod fakes;
pub mod line_buffer;
pub mod line_reader;
pub mod streams;
pub mod writing;

pub use line_buffer::LineBuffer;
pub use line_reader::{LineReader, ReadFault};
pub use streams::{Noted, Sink, Source, StreamFailed};
pub use writing::{WriteFault, write_whole};
