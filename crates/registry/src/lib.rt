//! The registered endpoints: in order of registration, found by ID, by alias and by technology
//! prefix.
#![tactic(auto)]

mod changes;
mod choosing;
pub mod endpoint_list;
mod endpoint_number;
pub mod endpoints;
pub mod faults;
mod gateway_numbers;
mod held_endpoint;
mod keeping;
pub mod laws;
mod numbered_endpoints;
mod registered;
pub mod registry;
mod served;
mod served_zones;

pub use endpoint_list::EndpointList;
pub use endpoints::{Endpoint, EndpointKind};
pub use faults::{Duplicate, PlacementFault, RegistryFault};
pub use registry::Registry;
