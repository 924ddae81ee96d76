//! Where an item stands.

/// Where an item begins: in the piece of this number, at this place in it, both from 0.
#[derive(Clone, Copy)]
pub(crate) struct Place {
    pub(crate) piece: u16,
    pub(crate) start: u16,
}
