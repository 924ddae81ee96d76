//! Where the rows of a call file come from.

ghost use Rattle.std.specs.Prelude.{◌≡◌, ◌++◌, ◌+◌, ◌<◌, ℕ, [], List};
ghost use Rattle.std.specs.List.{cons_option};
ghost use Rattle.call_rows.specs.Rows.{RowParts};

use call_rows::{CallRow, Snapshot};

/// Rows in order, each at a place of its own. Some places may have none.
pub trait RowSource {
    /// The rows.
    ghost rows: { Self → List RowParts };

    /// Those at the places before this one.
    ghost rows_before: { Self → ℕ → List RowParts };

    /// How many places there are.
    ghost count: { Self → ℕ };

    /// How many places there are. They are numbered from 0.
    fn places(&self) -> usize
        ensures count { result ≡ count self.now }
        ensures none { rows_before self.now 0 ≡ [] }
        ensures all { rows_before self.now result ≡ rows self.now };

    /// The row at this place, if it has one.
    fn row_at(&self, place: usize) -> Option<CallRow>
        requires { place < count self.now }
        ensures next { rows_before self.now (place + 1)
            ≡ rows_before self.now place ++ cons_option result [] }
        ensures rest { (rest : List RowParts)
            × (rows self.now ≡ rows_before self.now (place + 1) ++ rest) };
}

impl RowSource for Snapshot {
    ghost use Rattle.std.specs.Prelude.{length, take};

    ghost rows = { λ s. s.rows };

    ghost rows_before = { λ s place. take place s.rows };

    ghost count = { λ s. length s.rows };

    fn places(&self) -> usize {
        self.len()
    }

    #[tactic(auto, using(crate::proofs::ListLemmas::taken_next, crate::proofs::ListLemmas::begin_next))]
    fn row_at(&self, place: usize) -> Option<CallRow> {
        self.row(place)
    }
}
