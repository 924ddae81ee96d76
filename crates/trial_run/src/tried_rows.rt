//! What is made of one admission.

use crate::held_rows::HeldRow;
use crate::touched::Touched;

/// The row of an admission, and the zones that its call then touches.
#[derive(Drop)]
pub(crate) struct TriedRow {
    pub(crate) row: HeldRow,
    pub(crate) touched: Touched,
}
