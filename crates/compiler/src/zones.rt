//! What the tables say of a zone.

use crate::plans::ZoneNo;
use gk_terms::{Address, Name};

/// A zone of the configuration.
#[derive(Clone, Copy, Debug, PartialEq, Eq)]
pub struct ZoneView {
    /// Its number.
    pub no: ZoneNo,
    /// Its name.
    pub name: Name,
    /// Whether it is controlled here.
    pub local: bool,
    /// The RAS address of its gatekeeper; none for a local zone.
    pub address: Option<Address>,
}
