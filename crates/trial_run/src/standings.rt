//! How much bandwidth the calls of a zone use, in units of 100 bit/s.

/// What a chunk of rows does to the use of one zone: what it adds, what it takes, and how far above
/// its beginning it goes.
#[derive(Clone, Copy)]
pub struct Summary {
    pub gained: u64,
    pub lost: u64,
    pub height: u64,
}

/// The use of one zone, and its greatest so far.
#[derive(Clone, Copy)]
pub struct Standing {
    pub level: u64,
    pub top: u64,
}
