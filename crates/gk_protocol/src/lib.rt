//! The protocol: lines in, requests out of them, and answers as lines.
#![tactic(auto)]

pub mod answer_lines;
pub mod answerer;
pub mod answers;
mod call_requests;
pub mod endpoint_files;
pub mod line_owners;
pub mod owned_lines;
pub mod owned_tables;
mod refusal_words;
mod registrations;
pub mod reloads;
pub mod reply_lines;
pub mod report_texts;
pub mod request_faults;
mod request_fields;
pub mod request_lines;
pub mod requests;
pub mod session_faults;
pub mod sessions;
mod text_writers;
pub mod trials;
pub mod trying_core;

pub use answerer::Answerer;
pub use answers::{Answer, TrialRefusal};
pub use endpoint_files::{EndpointsFault, EndpointsFaultKind, read_endpoints};
pub use line_owners::LineOwner;
pub use owned_lines::OwnedLines;
pub use owned_tables::{NoTables, tables_in, tables_of};
pub use reloads::reload_without_memory;
pub use reply_lines::ReplyLine;
pub use report_texts::ReportText;
pub use request_faults::RequestFault;
pub use request_lines::{Heard, hear};
pub use requests::Request;
pub use session_faults::SessionFault;
pub use sessions::{let_go, session, session_from};
pub use trials::{trial_answer, trial_tables, trial_without_memory};
pub use trying_core::TryingCore;
