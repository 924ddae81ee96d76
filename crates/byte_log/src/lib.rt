//! A log of texts of bytes, which lie one after another in large pieces of memory: for a record
//! that grows for as long as a program runs, and with which its snapshots share the pieces.
#![tactic(auto)]

pub mod log;
pub(crate) mod piece;
pub(crate) mod piece_list;
pub(crate) mod place_list;
pub(crate) mod places;

pub use log::{ByteLog, PIECE_BYTES, SHORT_BYTES, room_taken};
