//! What is decided on an event, and the state that it changes.
#![tactic(auto)]

mod calling;
mod counts;
pub mod events;
pub mod lacks;
mod lent_routes;
mod lent_rulings;
pub mod limits;
mod machine;
mod registering;
pub mod replies;
mod reply_takers;
pub mod routes;
pub mod routing;
mod rulings;

pub use events::{Event, EventKind, LentEvent};
pub use lacks::Lack;
pub use lent_routes::{DestinationKind, Led, LentRoute};
pub use lent_rulings::LentRuling;
pub use limits::{Limits, STATED_LIMITS};
pub use machine::Machine;
pub use registry::Duplicate;
pub use replies::{
    AdmitRefusal, ChangeRefusal, RegisterRefusal, ReleaseRefusal, ReloadRefusal, Reply,
    UnregisterRefusal,
};
pub use reply_takers::{KeptReply, ReplyTaker};
pub use routes::{Destination, Route, RouteRefusal};
pub use routing::{led, route};
pub use rulings::Effect;
