//! Putting together what workers made.

ghost use Rattle.std.specs.Prelude.{◌≡◌, ◌≤◌, ◌++◌, ◌+◌, OnOk, vec_items};
ghost use Rattle.std.specs.List.{flat_map};

use crate::tried_chunks::{TriedChunk, TriedRows};
use std::alloc::AllocError;

impl TriedRows {
    /// Adds the rows of a further chunk.
    pub(crate) fn add(&mut self, chunk: TriedChunk) -> Result<(), AllocError>
        requires few { self.old.same + chunk.same ≤ 1000000 }
        ensures rows { OnOk result (flat_map vec_items self.new.rows.items
            ≡ flat_map vec_items self.old.rows.items ++ chunk.rows.items) }
        ensures touched { OnOk result (self.new.touched.items
            ≡ self.old.touched.items ++ chunk.touched.items) }
        ensures same { OnOk result (self.new.same ≡ self.old.same + chunk.same) }
    {
        let TriedChunk {
            rows,
            touched,
            same,
        } = chunk;
        self.touched.extend_from_slice(touched.as_slice())?;
        self.rows.push(rows)?;
        self.same += same;
        Ok(())
    }
}
