//! What a configuration is: the commands of its lines, and the faults that it may have.
#![tactic(auto)]

pub mod command_lines;
pub mod commands;
pub mod faults;
pub mod names;
pub mod numbers;
pub mod whole_lines;
pub mod zones;

pub use command_lines::CommandLines;
pub use commands::{Command, Commands, GatewayPriority, LimitKind, LocalAddress};
pub use faults::{FaultKind, LineFault};
pub use names::Names;
pub use short_texts::KeptName;
pub use whole_lines::WholeLines;
pub use zones::ZoneKind;
