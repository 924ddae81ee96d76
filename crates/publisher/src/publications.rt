//! What is shown to readers.

ghost use Rattle.std.specs.Prelude.{◌≡◌, ◌+◌, ◌-◌, length, nat_le, Some, IfOk, IsTrue};
ghost use Rattle.std.specs.Arc.{arc_value};
ghost use mathlib.Core.List.{IsPrefix};
ghost use Rattle.publisher.specs.History.{draft_of, generations_in, last_of, shown_by};

use crate::blanks::Imprint;
use crate::entries::{Entry, Law};
use crate::fronts::{Front, Stem};
use compiler::Tables;
use gk_commands::Command;
use gk_terms::Version;
use left_right::Absorb;
use logbook::Seen;
use std::alloc::{AllocError, Global};
use std::sync::Arc;

/// Tables with their version, 1 to 4,294,967,295, and the history up to their draft.
#[derive(Drop)]
pub(crate) struct Publication {
    version: u32,
    pub(crate) tables: Arc<Tables, Global>,
    pub(crate) stem: Stem,
    ghost drafted: { last_of stem.seen.log ≡ Some (draft_of (arc_value tables).commands) },
    ghost numbered: { version ≡ length (generations_in stem.seen.log) + 1 },
}

impl Absorb<Publication> for Publication {
    type State = (Seen<Entry, u64, Law>, [Command; 0]);

    ghost state = { λ p. (p.stem.seen, (arc_value p.tables).commands) };

    ghost applied = { λ _ p. (p.stem.seen, (arc_value p.tables).commands) };

    fn absorb_first(
        &mut self,
        operation: &Publication,
        _other: &Publication,
    ) -> Result<(), AllocError> {
        *self = operation.again()?;
        Ok(())
    }

    fn absorb_second(
        &mut self,
        operation: Publication,
        _other: &Publication,
    ) -> Result<(), Publication> {
        *self = operation;
        Ok(())
    }
}

impl Publication {
    /// These tables as this version.
    pub(crate) fn new(version: u32, tables: Arc<Tables, Global>, stem: Stem) -> Publication
        requires drafted { last_of stem.seen.log ≡ Some (draft_of (arc_value tables).commands) }
        requires numbered { version ≡ length (generations_in stem.seen.log) + 1 }
        ensures seen { result.stem.seen ≡ stem.seen }
        ensures tables { arc_value result.tables ≡ arc_value tables }
    {
        Publication {
            version,
            tables,
            stem,
        }
    }

    /// A copy. `AllocError` if the tables have as many owners as can be counted.
    pub(crate) fn again(&self) -> Result<Publication, AllocError>
        ensures { IfOk result (λ p. (p.stem.seen ≡ self.now.stem.seen) ×
            (arc_value p.tables ≡ arc_value self.now.tables)) }
    {
        let tables = Arc::try_clone(&self.tables)?;
        Ok(Publication {
            version: self.version,
            tables,
            stem: self.stem.again(),
        })
    }

    /// The number of the version.
    pub(crate) fn version(&self) -> Version
        ensures { result ≡ length (generations_in self.now.stem.seen.log) + 1 }
    {
        Version::new(self.version)
    }

    /// Whether all that was told is in what this shows. It is if this has at most one entry fewer,
    /// which then says that this is in force.
    pub(crate) fn has<J: Imprint>(&self, told: &Front<J>) -> bool
        requires { self.now.stem.seen.book ≡ J.book }
        ensures told { IsTrue result → IsPrefix (generations_in told.now)
            (shown_by self.now.stem.seen.log (arc_value self.now.tables).commands) }
        ensures exact { result
            ≡ nat_le (length told.now - 1) (length self.now.stem.seen.log) }
    {
        told.meet(&self.stem);
        let shown = self.stem.len();
        if told.len().saturating_sub(1) <= shown {
            return true;
        }
        false
    }
}
