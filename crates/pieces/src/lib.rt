//! A list that is held in pieces of a fixed size, so that it grows without moving what it holds:
//! for a record that grows for as long as a program runs, and for words that are let go piece by
//! piece as they are read.
#![tactic(auto)]

pub mod list;

pub use list::{PIECE_ITEMS, Pieces};
