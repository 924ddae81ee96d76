//! The desk: a core under a lock, which seats in threads of their own ask one event after another.
#![tactic(auto)]

mod desk;
mod house;
mod laws;
mod live;
mod room;
mod seats;
mod turns;

pub use desk::{Blank, Desk, FinishFault, SeatFault};
pub use house::House;
pub use laws::receipts_account_for_all;
pub use live::{Live, OpenFault};
pub use room::{FinishKind, Room};
pub use seats::Seat;
