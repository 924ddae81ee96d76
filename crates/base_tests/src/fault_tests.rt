//! The texts of the faults of a configuration that is read.

use configuration_reader::configuration::ConfigurationFault;
use gk_commands::{FaultKind, LineFault};
use gk_lines::ReadFault;
use std::alloc::Global;

/// Whether the fault is printed as this text.
fn is_printed(alloc: Global, fault: ConfigurationFault, text: &str) -> bool {
    match format!(in alloc; "{fault}") {
        Ok(printed) => printed.as_str() == text,
        Err(_) => false,
    }
}

#[test]
fn configuration_faults_are_printed(rt: HostRuntime) {
    let (line, kind) = (7, FaultKind::TooMany);
    let line = ConfigurationFault::Line(LineFault { line, kind });
    let read = ConfigurationFault::Read(ReadFault::Failed);
    for (fault, text) in [(line, "line 7: TooMany"), (read, "the reader failed")] {
        assert!(rt; is_printed(rt.alloc(), fault, text), "{text}");
    }
}
