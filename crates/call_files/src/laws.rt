//! Laws of the definitions. Each is the contract of a function that does nothing.

ghost use Rattle.call_files.specs.ReadBack.{CallsReadBack};

/// The call file of rows that a snapshot may hold reads as the same rows: its first record is the
/// header, and those after it say the rows, without a fault.
pub fn calls_read_back()
    ensures { CallsReadBack }
{}
