//! What an entry is to read back as.

use admission::{CallEvent, Entry, EventKind, ReadEntry, ReadEvent, Receipt, Record, Reply, Route};
use gk_terms::{Address, Dialled, Name, Units};
use registry::EndpointKind;

/// What was asked, beside the ID and the number of the call.
#[derive(Clone, Copy, Debug, PartialEq, Eq)]
pub(crate) enum Asked {
    /// To be registered.
    Endpoint {
        kind: EndpointKind,
        zone: Name,
        address: Address,
    },
    /// To be admitted to a call.
    Digits {
        digits: Dialled,
        units: Units,
    },
    /// A bandwidth alone.
    Bandwidth(Units),
    /// Nothing more.
    Nothing,
}

/// What an entry is to read back as: its receipt, what was asked and decided beside that, and what
/// its row says, if it has one.
#[derive(Clone, Copy)]
pub(crate) struct Wanted {
    pub(crate) receipt: Receipt,
    pub(crate) asked: Asked,
    pub(crate) zone: Option<Name>,
    pub(crate) route: Option<Route>,
    pub(crate) opened: bool,
    pub(crate) row: Option<CallEvent>,
}

/// The number of the first of these that the record does not have as it is wanted.
pub(crate) fn first_astray(wanted: &[Wanted], record: &Record) -> Option<u32> {
    for entry in wanted {
        if !entry.is_kept(record) {
            return Some(entry.receipt.number);
        }
    }
    None
}

impl Wanted {
    /// An entry about no call.
    pub(crate) fn callless(
        number: u32,
        kind: EventKind,
        id: Name,
        asked: Asked,
        reply: Reply,
    ) -> Wanted {
        Wanted::unrouted(number, kind, id, None, asked, reply)
    }

    /// An entry about a call that was not routed, without a row.
    pub(crate) fn about(
        number: u32,
        kind: EventKind,
        id: Name,
        call: u32,
        asked: Asked,
        reply: Reply,
    ) -> Wanted {
        Wanted::unrouted(number, kind, id, Some(call), asked, reply)
    }

    /// An entry that has neither a zone nor a route nor a row, and opened no call.
    fn unrouted(
        number: u32,
        kind: EventKind,
        id: Name,
        call: Option<u32>,
        asked: Asked,
        reply: Reply,
    ) -> Wanted {
        Wanted {
            receipt: Receipt {
                number,
                kind,
                id: Some(id),
                call,
                reply,
            },
            asked,
            zone: None,
            route: None,
            opened: false,
            row: None,
        }
    }

    /// Whether the entry of the number in the receipt is this one, and the receipt stands.
    pub(crate) fn is_kept(&self, record: &Record) -> bool {
        let number = self.receipt.number;
        match &record.get(number) {
            Some(Entry::Asked(read)) => {
                self.is_read(read)
                    && self.has_receipt(record)
                    && self.has_no_other(record)
                    && self.has_row(record)
            }
            _ => false,
        }
    }

    /// Whether this was read.
    fn is_read(&self, read: &ReadEntry<'_>) -> bool {
        asked_in(&read.event) == self.asked
            && read.reply() == self.receipt.reply
            && read.zone() == self.zone
            && read.route() == self.route
            && read.opened() == self.opened
    }

    /// Whether the entry has this reply and this receipt.
    fn has_receipt(&self, record: &Record) -> bool {
        let number = self.receipt.number;
        match &record.get(number) {
            Some(entry) => {
                entry.reply() == self.receipt.reply
                    && entry.receipt(number) == self.receipt
                    && record.stands(&self.receipt)
            }
            None => false,
        }
    }

    /// Whether no receipt stands that differs from this one in one part.
    fn has_no_other(&self, record: &Record) -> bool {
        let receipt = self.receipt;
        let others = [
            Receipt {
                number: 0,
                ..receipt
            },
            Receipt {
                kind: EventKind::Reload,
                ..receipt
            },
            Receipt {
                id: None,
                ..receipt
            },
            Receipt {
                call: Some(77),
                ..receipt
            },
            Receipt {
                reply: Reply::Released { call: 77 },
                ..receipt
            },
        ];
        others.iter().all(|other| !record.stands(other))
    }

    /// Whether the entry has this row.
    fn has_row(&self, record: &Record) -> bool {
        let number = self.receipt.number;
        match &record.row(number) {
            Some(row) => row.number() == number && self.row == Some(*row.event()),
            None => self.row.is_none(),
        }
    }
}

/// What an event asks, beside the ID and the number of the call.
fn asked_in(event: &ReadEvent<'_>) -> Asked {
    match event {
        ReadEvent::Register(endpoint) => Asked::Endpoint {
            kind: endpoint.kind(),
            zone: endpoint.zone().name(),
            address: endpoint.address(),
        },
        ReadEvent::Admit { digits, units, .. } => Asked::Digits {
            digits: *digits,
            units: *units,
        },
        ReadEvent::Incoming { units, .. } | ReadEvent::Change { units, .. } => {
            Asked::Bandwidth(*units)
        }
        ReadEvent::Unregister { .. } | ReadEvent::Release { .. } => Asked::Nothing,
    }
}
