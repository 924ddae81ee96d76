//! The compiler: a configuration made ready for look-ups, and where it sends dialled digits.
#![tactic(auto)]

pub mod laws;
mod limit_table;
pub mod limits;
mod parts;
mod picking;
pub mod plans;
mod priorities;
mod rows;
pub mod tables;
mod technologies;
mod technology_map;
mod zone_table;
pub mod zones;

pub use gk_commands::LimitKind;
pub use limits::ZoneLimits;
pub use plans::{Plan, Routed, RowNo, ZoneNo};
pub use tables::Tables;
pub use technologies::technology_bytes;
pub use zones::ZoneView;
