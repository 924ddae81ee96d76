//! The open calls and the bandwidth that they use: each call found by number, each sum kept as the
//! calls change, and the limits that a call has to fit.
#![tactic(auto)]

mod call_list;
pub mod faults;
pub mod fits;
mod held_call;
pub mod laws;
mod named;
pub mod open_call;
pub mod open_calls;
pub mod over;
mod owner_counts;
mod step;
mod sums;
mod tried_zones;
mod zone_uses;

pub use faults::CallsFault;
pub use open_call::OpenCall;
pub use open_calls::OpenCalls;
pub use over::Over;
