//! Entries of the record as bytes: how they are added to a vector, and how they are read again.
#![tactic(auto)]

mod admitted_to;
mod brief_event;
mod codes;
mod endpoint_adding;
mod endpoint_bytes;
mod endpoint_reading;
mod endpoint_texts;
mod entry_reading;
mod entry_writing;
mod event_adding;
mod event_reading;
pub mod laws;
mod read_events;
mod refusal_reading;
mod refusals;
mod replies;
mod sizes;
mod told;
mod verdict_adding;
mod verdict_kinds;
mod verdict_reading;
mod verdict_sizes;
mod verdicts;

pub use admitted_to::AdmittedTo;
pub use brief_event::BriefEvent;
pub use endpoint_adding::{add_endpoint, size_of_endpoint};
pub use endpoint_bytes::EndpointBytes;
pub use entry_reading::{ReadEntry, read_entry};
pub use entry_writing::{add_entry, size_of_entry};
pub use read_events::ReadEvent;
pub use refusal_reading::read_change_refusal;
pub use refusals::add_change_refusal;
pub use replies::{is_admitted, is_changed, is_registered, is_released};
pub use sizes::size_of_change_refusal;
pub use verdict_kinds::{VerdictKind, verdict_kind_of};
pub use verdicts::Verdict;
