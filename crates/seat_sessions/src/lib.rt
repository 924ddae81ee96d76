//! Sessions over seats of a desk, one thread and one seat each, and the connections that they come
//! from.
#![tactic(auto)]

mod peers;
mod serving;
mod sittings;

pub use serving::{ServeFault, Served, serve_sessions, serve_tables};
pub use sittings::Sitting;
