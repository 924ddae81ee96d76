//! What workers make of the admissions.

use crate::held_rows::HeldRow;
use crate::touched::Touched;

/// The rows of a chunk of admissions, the zones that each touches, and how many rows are the same.
#[derive(Drop)]
pub(crate) struct TriedChunk {
    pub(crate) rows: Vec<HeldRow>,
    pub(crate) touched: Vec<Touched>,
    pub(crate) same: usize,
}

/// The same of all chunks in order. The rows stay in the pieces that the workers made.
#[derive(Drop)]
pub(crate) struct TriedRows {
    pub(crate) rows: Vec<Vec<HeldRow>>,
    pub(crate) touched: Vec<Touched>,
    pub(crate) same: usize,
}
