//! Pieces of work, each made in a thread of its own.

ghost use Rattle.std.specs.Prelude.{◌≡◌, ◌<◌, ℕ, IfOk, IfSome, vec_len, slice_index_or};

use std::alloc::Global;
use std::snapshot::Snapshot;
use std::sync::Wait;
use std::thread;
use std::thread::{Promise, PromisedHandle, Scope, Threads};

/// Work that comes in pieces, which are numbered from 0.
pub trait Shares: Sync {
    /// What one thread makes.
    type Piece: Send + Drop;

    // what is asked of the work and of a piece's number
    ghost may_do: { Self → ℕ → Type 0 };

    // what is said of the work, of a piece's number and of the piece
    ghost gives: { Self → ℕ → Self.Piece → Type 0 };

    /// Makes the piece of this number.
    fn piece(&self, number: u32) -> Self::Piece
        requires { may_do self.now number }
        ensures { gives self.now number result };
}

/// Why pieces were not made.
#[derive(Clone, Copy)]
pub enum NotShared {
    /// The system started no further thread.
    NoThread,
    /// Memory ran out.
    NoMemory,
}

/// The promise of a thread that makes one piece.
#[derive(Drop)]
struct PieceOf<W> {
    work: Snapshot<W>,
    number: u32,
}

impl<W: Shares> Promise<W::Piece> for PieceOf<W> {
    ghost kept_by = { λ p piece. W.gives p.work.value p.number piece };
}

/// A thread that makes the piece of this number.
fn start<'s, 'e: 's, W: Shares>(
    scope: &Scope<'s, &'e ()>,
    work: &'e W,
    number: u32,
) -> Option<PromisedHandle<W::Piece, PieceOf<W>>>
    requires { W.may_do work.now number }
    ensures work { IfSome result (λ handle. handle.promise.work.value ≡ work.now) }
    ensures number { IfSome result (λ handle. handle.promise.number ≡ number) }
{
    let promise = PieceOf {
        work: Snapshot::of(work),
        number,
    };
    match scope.spawn_with(promise, move || work.piece(number)) {
        Ok(handle) => Some(handle),
        Err(_) => None,
    }
}

/// Waits for these threads and lets go what they made.
fn join_all<R: Threads, W: Shares>(rt: &R, started: Vec<PromisedHandle<W::Piece, PieceOf<W>>>) {
    for handle in started {
        drop(handle.join(rt));
    }
}

/// A thread for each piece; if one cannot be started, the ones before it are waited for.
fn start_all<'s, 'e: 's, R: Threads, W: Shares>(
    rt: &R,
    alloc: Global,
    scope: &Scope<'s, &'e ()>,
    work: &'e W,
    count: u32,
) -> Result<Vec<PromisedHandle<W::Piece, PieceOf<W>>>, NotShared>
    requires { (number : ℕ) → number < count → W.may_do work.now number }
    ensures len { IfOk result (λ v. vec_len v ≡ count) }
    ensures numbers { IfOk result (λ v. (k : ℕ) (d : _) → k < count
        → (slice_index_or v.items k d).promise.number ≡ k) }
    ensures work { IfOk result (λ v. (k : ℕ) (d : _) → k < count
        → (slice_index_or v.items k d).promise.work.value ≡ work.now) }
{
    let Ok(mut started) = Vec::with_capacity(alloc, count as usize) else {
        return Err(NotShared::NoMemory);
    };
    for number in 0..count {
        let Some(handle) = start(scope, work, number) else {
            join_all::<R, W>(rt, started);
            return Err(NotShared::NoThread);
        };
        let Ok(()) = started.push(handle) else {
            unreachable!()
        };
    }
    Ok(started)
}

/// The pieces in order, each made by a thread of its own.
fn share_in<'s, 'e: 's, R: Threads, W: Shares>(
    rt: &R,
    alloc: Global,
    scope: &Scope<'s, &'e ()>,
    work: &'e W,
    count: u32,
) -> Result<Vec<W::Piece>, NotShared>
    requires { (number : ℕ) → number < count → W.may_do work.now number }
    ensures len { IfOk result (λ v. vec_len v ≡ count) }
    ensures each { IfOk result (λ v. (k : ℕ) (d : _) → k < count
        → W.gives work.now k (slice_index_or v.items k d)) }
{
    let started = start_all(rt, alloc, scope, work, count)?;
    match thread::join_promised(rt, started) {
        Ok(pieces) => Ok(pieces),
        Err(failed) => {
            join_all::<R, W>(rt, failed.value);
            Err(NotShared::NoMemory)
        }
    }
}

/// The pieces in order, each made by a thread of its own. `NoThread` comes only if the system
/// started no further thread, and once those that it started have ended.
pub fn share<R: Threads + Wait, W: Shares>(
    rt: &R,
    alloc: Global,
    work: &W,
    count: u32,
) -> Result<Vec<W::Piece>, NotShared>
    requires { (number : ℕ) → number < count → W.may_do work.now number }
    ensures len { IfOk result (λ v. vec_len v ≡ count) }
    ensures each { IfOk result (λ v. (k : ℕ) (d : _) → k < count
        → W.gives work.now k (slice_index_or v.items k d)) }
{
    thread::scope(
        thread::scope_env(),
        rt,
        |scope| -> Result<Vec<W::Piece>, NotShared>
            requires { (number : ℕ) → number < count → W.may_do work.now number }
            ensures { IfOk result (λ v. (vec_len v ≡ count) × ((k : ℕ) (d : _) → k < count
                → W.gives work.entry.now k (slice_index_or v.items k d))) }
        { share_in(rt, alloc, scope, work, count) },
    )
}
