//! The record of decisions: what was asked, and what was replied.
#![tactic(auto)]

mod drafts;
mod entries;
mod known_lines;
mod past_record;
mod receipts;
mod record;
mod recording;
mod reloads;
mod rows;

pub use drafts::EntryDraft;
pub use entries::{Entry, Receipt, ReloadedCommands};
pub use entry_bytes::{EndpointBytes, ReadEntry, ReadEvent, Verdict};
pub use past_record::PastRecord;
pub use record::Record;
pub use recording::RELOAD_BYTES;
