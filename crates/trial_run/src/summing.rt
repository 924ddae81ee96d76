//! The greatest use of each zone, put together from chunks.

ghost use Rattle.std.specs.Prelude.{◌≡◌, ◌≤◌, ◌<◌, ◌+◌, ◌*◌, ◌^◌, ℕ, IfOk, OnOk, Some, map, length, take, slice_get, slice_index_or};
ghost use Rattle.call_rows.specs.Moves.{move_in};
ghost use Rattle.trial_run.specs.Chunks.{chunk_of};
ghost use Rattle.call_rows.specs.Moves.{IsSound};
ghost use Rattle.trial_run.specs.Levels.{AreNumbered, IsBelow, IsLow, chunk_most, ground, over_chunk, standing_from, summary_of};
ghost use Rattle.trial_run.specs.Touched.{touching};

use crate::chunks::{chunk_at, size_for};
use crate::sharing::{NotShared, Shares, share};
use crate::standings::{Standing, Summary};
use crate::summaries::summaries_of;
use crate::touched::Touched;
use call_rows::Step;
use std::alloc::{AllocError, Global};
use std::sync::Wait;
use std::thread::Threads;

/// The work of adding up what chunks of rows do.
#[derive(Drop)]
struct Summing<'a> {
    alloc: Global,
    steps: &'a [Step],
    touched: &'a [Touched],
    zones: usize,
    size: usize,
}

impl<'a> Shares for Summing<'a> {
    type Piece = Result<Vec<Summary>, AllocError>;

    ghost may_do = { λ work number. (number < 64) × (work.size ≤ 1000000) };

    ghost gives = { λ work number piece. IfOk piece (λ v.
        AreNumbered work.zones (λ zone. summary_of (touching work.touched.now zone)
        (chunk_of work.size number (map move_in work.steps.now))) v.items
        × IsBelow chunk_most v.items) };

    #[tactic(auto, using(crate::proofs::ChunkLemmas::chunk_of_map))]
    fn piece(&self, number: u32) -> Result<Vec<Summary>, AllocError> {
        summaries_of(
            self.alloc,
            self.zones,
            chunk_at(self.steps, self.size, number),
            self.touched,
        )
    }
}

/// The use of a zone after a chunk.
fn chunk_after(standing: &Standing, summary: &Summary) -> Standing
    requires level { standing.now.level + summary.now.gained < 2 ^ 64 }
    requires height { standing.now.level + summary.now.height < 2 ^ 64 }
    ensures { result ≡ over_chunk standing.now summary.now }
{
    Standing {
        level: (standing.level + summary.gained).saturating_sub(summary.lost),
        top: standing.top.max(standing.level + summary.height),
    }
}

/// The use of each zone after a chunk.
fn add_chunk(standings: &mut [Standing], summaries: &[Summary])
    requires len { length summaries.now ≡ length standings.old }
    requires low { IsLow 9000000000000000000 standings.old }
    requires below { IsBelow chunk_most summaries.now }
    ensures len { length standings.new ≡ length standings.old }
    ensures each { (place : ℕ) (s : Standing) (c : Summary)
        → slice_get standings.old place ≡ Some s → slice_get summaries.now place ≡ Some c
        → slice_get standings.new place ≡ Some (over_chunk s c) }
{
    for place in 0..standings.len() {
        let before = standings[place];
        standings[place] = chunk_after(&before, &summaries[place]);
    }
}

impl<'a> Summing<'a> {
    /// Adds all chunks, in order.
    fn add_chunks(
        &self,
        standings: &mut [Standing],
        pieces: &[Result<Vec<Summary>, AllocError>],
    ) -> Result<(), AllocError>
        requires each { (k : ℕ) (d : _) → k < length pieces.now
            → IfOk (slice_index_or pieces.now k d) (λ v.
            AreNumbered self.now.zones (λ zone. summary_of (touching self.now.touched.now zone)
            (chunk_of self.now.size k (map move_in self.now.steps.now))) v.items
            × IsBelow chunk_most v.items) }
        requires few { length pieces.now ≤ 64 }
        requires sound { (zone : ℕ)
            → IsSound (touching self.now.touched.now zone) 0 (map move_in self.now.steps.now) }
        requires flat { AreNumbered self.now.zones (λ zone. ground) standings.old }
        ensures { OnOk result (AreNumbered self.now.zones
            (λ zone. standing_from (touching self.now.touched.now zone) ground
            (take (length pieces.now * self.now.size) (map move_in self.now.steps.now)))
            standings.new) }
    {
        for piece in pieces {
            match piece {
                Ok(summaries) => add_chunk(standings, summaries.as_slice()),
                Err(_) => return Err(AllocError),
            }
        }
        Ok(())
    }
}

/// The greatest use of each.
fn tops(alloc: Global, standings: &[Standing]) -> Result<Vec<u64>, AllocError>
    ensures { IfOk result (λ v. v.items ≡ map (λ s. s.top) standings.now) }
{
    let mut tops = Vec::with_capacity(alloc, standings.len())?;
    for standing in standings {
        tops.push(standing.top)?;
    }
    Ok(tops)
}

impl<'a> Summing<'a> {
    /// The greatest use of each zone, from the chunks in order.
    fn peaks(&self, pieces: &[Result<Vec<Summary>, AllocError>]) -> Result<Vec<u64>, AllocError>
        requires each { (k : ℕ) (d : _) → k < length pieces.now
            → IfOk (slice_index_or pieces.now k d) (λ v.
            AreNumbered self.now.zones (λ zone. summary_of (touching self.now.touched.now zone)
            (chunk_of self.now.size k (map move_in self.now.steps.now))) v.items
            × IsBelow chunk_most v.items) }
        requires few { length pieces.now ≤ 64 }
        requires sound { (zone : ℕ)
            → IsSound (touching self.now.touched.now zone) 0 (map move_in self.now.steps.now) }
        requires all { length self.now.steps.now ≤ length pieces.now * self.now.size }
        ensures { IfOk result (λ v. AreNumbered self.now.zones
            (λ zone. (standing_from (touching self.now.touched.now zone) ground
            (map move_in self.now.steps.now)).top) v.items) }
    {
        let mut standings = vec![in self.alloc; Standing { level: 0, top: 0 }; self.zones]?;
        self.add_chunks(&mut standings, pieces)?;
        let tops = tops(self.alloc, standings.as_slice())?;
        Ok(tops)
    }
}

/// The greatest use of each zone, found by this many threads.
pub(crate) fn peaks<R: Threads + Wait>(
    rt: &R,
    alloc: Global,
    steps: &[Step],
    touched: &[Touched],
    zones: usize,
    workers: u32,
) -> Result<Vec<u64>, NotShared>
    requires some { 0 < workers }
    requires most { workers ≤ 64 }
    requires few { length steps.now ≤ 1000000 }
    requires sound { (zone : ℕ) → IsSound (touching touched.now zone) 0 (map move_in steps.now) }
    ensures { IfOk result (λ v. AreNumbered zones
        (λ zone. (standing_from (touching touched.now zone) ground (map move_in steps.now)).top)
        v.items) }
{
    let work = Summing {
        alloc,
        steps,
        touched,
        zones,
        size: size_for(steps.len(), workers),
    };
    let pieces = share(rt, alloc, &work, workers)?;
    match work.peaks(pieces.as_slice()) {
        Ok(peaks) => Ok(peaks),
        Err(_) => Err(NotShared::NoMemory),
    }
}
