//! A worked row, computed on the definitions alone.

ghost use Rattle.call_tests.specs.Rows.{LargeCalls};

/// Three calls of 4,294,967,295 units within one zone count 12,884,901,885 in its total and 0
/// between zones, and 0 once they are closed.
pub fn large_calls()
    ensures { LargeCalls }
{}
