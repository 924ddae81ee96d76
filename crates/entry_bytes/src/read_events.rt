//! Events as they are read.

use crate::endpoint_bytes::EndpointBytes;
use field_bytes::NameText;
use gk_terms::{Dialled, Units};

/// An event other than a reload, as it is read from an entry. The names, and the texts of an
/// endpoint, stand in the entry.
#[derive(Drop)]
pub enum ReadEvent<'a> {
    /// To be registered.
    Register(EndpointBytes<'a>),
    /// To be unregistered.
    Unregister {
        id: NameText<'a>,
    },
    /// To be admitted to a call.
    Admit {
        id: NameText<'a>,
        call: u32,
        digits: Dialled,
        units: Units,
    },
    /// To answer a call.
    Incoming {
        id: NameText<'a>,
        call: u32,
        units: Units,
    },
    /// Another bandwidth for an open call.
    Change {
        id: NameText<'a>,
        call: u32,
        units: Units,
    },
    /// To be released from an open call.
    Release {
        id: NameText<'a>,
        call: u32,
    },
}
