//! The zones that a call touches.

/// The zones that a call touches if it leads to a destination under the candidate, by their
/// numbers: the caller's, and that of the destination. They may be one.
#[derive(Clone, Copy)]
pub enum Touched {
    Neither,
    Zones { source: u32, target: u32 },
}
