//! What the candidate answers to the admissions of a snapshot.

ghost use Rattle.std.specs.Prelude.{◌≡◌, ◌≤◌, ◌<◌, ◌+◌, ◌*◌, ◌++◌, ◌∷◌, [], ℕ, IfOk, OnOk, length, take, drop, slice_index_or};
ghost use Rattle.gk_commands.specs.Accepted.{IsAccepted};
ghost use Rattle.call_rows.specs.Rows.{admissions_of};
ghost use Rattle.trial_run.specs.Answers.{is_same};
ghost use Rattle.trial_run.specs.Chunks.{chunk_of};
ghost use Rattle.trial_run.specs.Report.{same_among};
ghost use Rattle.trial_run.specs.Tried.{AreJoined, AreTried, tried_rows, tried_touched};

use crate::answers::try_admission;
use crate::chunks::size_for;
use crate::held_rows::HeldRow;
use crate::sharing::{NotShared, Shares, share};
use crate::tried_chunks::{TriedChunk, TriedRows};
use crate::tried_rows::TriedRow;
use call_rows::Snapshot;
use compiler::Tables;
use gk_terms::Gate;
use registry::Registry;
use std::alloc::{AllocError, Global};
use std::sync::Wait;
use std::thread::Threads;

/// The work of finding what the candidate answers, in chunks.
#[derive(Drop)]
struct Routing<'a, G> {
    alloc: Global,
    snapshot: &'a Snapshot,
    tables: &'a Tables,
    registry: &'a Registry,
    size: usize,
    gate: &'a G,
}

impl<'a, G: Gate> Shares for Routing<'a, G> {
    type Piece = Result<TriedChunk, AllocError>;

    ghost may_do = { λ work number. (number < 64) × (work.size ≤ 1000000)
        × IsAccepted work.tables.now.commands };

    ghost gives = { λ work number piece. IfOk piece (λ chunk.
        AreTried work.tables.now.commands work.registry.now.endpoints
        (chunk_of work.size number (admissions_of work.snapshot.now.rows)) chunk) };

    fn piece(&self, number: u32) -> Result<TriedChunk, AllocError> {
        self.gate.begin(number + 1);
        let all = self.snapshot.admission_count();
        let from = (number as usize * self.size).min(all);
        let count = self.size.min(all - from);
        tried_chunk(
            self.alloc,
            self.snapshot,
            self.tables,
            self.registry,
            from,
            count,
        )
    }
}

/// What the candidate answers to so many admissions from this place on.
fn tried_chunk(
    alloc: Global,
    snapshot: &Snapshot,
    tables: &Tables,
    registry: &Registry,
    from: usize,
    count: usize,
) -> Result<TriedChunk, AllocError>
    requires within { from + count ≤ length (admissions_of snapshot.now.rows) }
    requires accepted { IsAccepted tables.now.commands }
    ensures { IfOk result (λ chunk. AreTried tables.now.commands registry.now.endpoints
        (take count (drop from (admissions_of snapshot.now.rows))) chunk) }
{
    // So it is known how many there are at most.
    let _all = snapshot.admission_count();
    let mut chunk = TriedChunk {
        rows: Vec::with_capacity(alloc, count)?,
        touched: Vec::with_capacity(alloc, count)?,
        same: 0,
    };
    for turn in 0..count {
        let Some(admission) = snapshot.admission(from + turn) else {
            unreachable!()
        };
        chunk.add(try_admission(alloc, tables, registry, &admission)?)?;
    }
    chunk.same = same_in(chunk.rows.as_slice());
    Ok(chunk)
}

impl TriedChunk {
    /// Adds what the candidate answers to an admission.
    fn add(&mut self, tried: TriedRow) -> Result<(), AllocError>
        ensures rows { OnOk result (self.new.rows.items ≡ self.old.rows.items ++ tried.row ∷ []) }
        ensures touched { OnOk result (self.new.touched.items
            ≡ self.old.touched.items ++ tried.touched ∷ []) }
    {
        let TriedRow { row, touched } = tried;
        self.rows.push(row)?;
        self.touched.push(touched)?;
        Ok(())
    }
}

/// How many of the rows are the same.
fn same_in(rows: &[HeldRow]) -> usize
    ensures { result ≡ same_among rows.now }
{
    rows.iter().filter(|row| row.is_same()).count()
}

impl<'a, G> Routing<'a, G> {
    /// The chunks put together, in order.
    fn joined(&self, pieces: Vec<Result<TriedChunk, AllocError>>) -> Result<TriedRows, AllocError>
        requires each { (k : ℕ) (d : _) → k < length pieces.items
            → IfOk (slice_index_or pieces.items k d) (λ chunk.
            AreTried self.now.tables.now.commands self.now.registry.now.endpoints
            (chunk_of self.now.size k (admissions_of self.now.snapshot.now.rows)) chunk) }
        ensures { IfOk result (λ tried.
            AreJoined self.now.tables.now.commands self.now.registry.now.endpoints
            (take (length pieces.items * self.now.size) (admissions_of self.now.snapshot.now.rows))
            tried) }
    {
        let mut tried = TriedRows {
            rows: Vec::with_capacity(self.alloc, pieces.len())?,
            touched: Vec::with_capacity(self.alloc, self.snapshot.admission_count())?,
            same: 0,
        };
        for piece in pieces {
            match piece {
                Ok(chunk) => tried.add(chunk)?,
                Err(_) => return Err(AllocError),
            }
        }
        Ok(tried)
    }
}

/// What the candidate answers to each admission, found by this many threads. The endpoints are
/// those of zones that are local in the candidate.
pub(crate) fn tried_by<R: Threads + Wait, G: Gate>(
    rt: &R,
    alloc: Global,
    snapshot: &Snapshot,
    tables: &Tables,
    registry: &Registry,
    workers: u32,
    gate: &G,
) -> Result<TriedRows, NotShared>
    requires some { 0 < workers }
    requires most { workers ≤ 64 }
    requires accepted { IsAccepted tables.now.commands }
    ensures { IfOk result (λ tried. AreJoined tables.now.commands registry.now.endpoints
        (admissions_of snapshot.now.rows) tried) }
{
    let work = Routing {
        alloc,
        snapshot,
        tables,
        registry,
        size: size_for(snapshot.admission_count(), workers),
        gate,
    };
    let pieces = share(rt, alloc, &work, workers)?;
    match work.joined(pieces) {
        Ok(tried) => Ok(tried),
        Err(_) => Err(NotShared::NoMemory),
    }
}
