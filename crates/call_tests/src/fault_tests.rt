//! The texts of the faults of a session.

use gk_protocol::SessionFault;
use std::alloc::Global;

/// Whether the fault is printed as this text.
fn is_printed(alloc: Global, fault: SessionFault, text: &str) -> bool {
    match format!(in alloc; "{fault}") {
        Ok(printed) => printed.as_str() == text,
        Err(_) => false,
    }
}

#[test]
fn session_faults_are_printed(rt: HostRuntime) {
    for (fault, text) in [
        (SessionFault::ReadFault, "the reader failed"),
        (SessionFault::WriteFault, "the writer failed"),
        (SessionFault::TurnsSpent, "the turns are spent"),
        (SessionFault::NoMemory, "no memory"),
    ] {
        assert!(rt; is_printed(rt.alloc(), fault, text), "{text}");
    }
}
