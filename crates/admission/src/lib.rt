//! The core of a gatekeeper: events in, replies out, and a record of events with their receipts.
#![tactic(auto)]

mod answering;
pub mod cores;
pub mod laws;
mod refusing;
mod settling;
mod snapshots;
mod stepping;

pub use answering::{receipt_for, reply_in};
pub use call_rows::{
    AdmittedCall, AnsweredCall, AskedCall, CallEvent, CallRow, NumberedAdmission, PushFault,
    Snapshot,
};
pub use cores::{Core, OpeningFault};
pub use decision_record::{
    EndpointBytes, Entry, ReadEntry, ReadEvent, Receipt, Record, ReloadedCommands, Verdict,
};
pub use rulings::{
    AdmitRefusal, ChangeRefusal, Destination, DestinationKind, Duplicate, Event, EventKind,
    KeptReply, LentEvent, LentRuling, Limits, RegisterRefusal, ReleaseRefusal, ReloadRefusal,
    Reply, ReplyTaker, Route, RouteRefusal, STATED_LIMITS, UnregisterRefusal, route,
};
pub use snapshots::PastCore;
