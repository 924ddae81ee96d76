//! A list of pieces, each of which is begun when what is put does not fit in the one before.

ghost use Rattle.std.specs.Prelude.{◌≡◌, ◌+◌, ◌<◌, ◌≤◌, [], length, max, slice_index_or, IfOk, OnOk, OnErr};
ghost use Rattle.byte_log.specs.Pieces.{IsBegun, IsPut, LastHasRoom, left_of, pieces_in};

use crate::piece::Piece;
use crate::places::Place;
use std::alloc::{AllocError, Global};
use std::marker::Model;

/// How many pieces a list has at most, with the spare ones: the number of each has two bytes.
const MOST_PIECES: usize = 65_536;

/// Items in pieces of one block of memory each. A contract sees the items of each piece, how many
/// empty pieces are kept ready, for how many items the next of these has room, and for how many
/// each piece has room at least.
///
/// What is put at once lies in one piece, and stays there.
#[derive(Drop)]
pub(crate) struct PieceList<T> {
    // All but the last are closed.
    pieces: Vec<Piece<T>>,
    // The last of them is the next to be begun.
    spare: Vec<Piece<T>>,
    size: usize,
}

impl<T> Model for PieceList<T> {
    ghost use Rattle.std.specs.Prelude.{length, vec_capacity};
    ghost use Rattle.byte_log.specs.Parts.{ListParts, list_code};
    ghost use Rattle.byte_log.specs.Pieces.{IsPieceList, last_room, pieces_in};

    ghost Value = { ListParts T };

    ghost coded = { list_code T.code };

    ghost view = { λ l. record {
      pieces = pieces_in l.pieces.items;
      spare = length l.spare.items;
      next = last_room l.spare.items;
      size = l.size;
    } };

    ghost invariant = { λ l. IsPieceList l.pieces.items (vec_capacity l.pieces) l.spare.items
        l.size };
}

impl<T: Copy> PieceList<T> {
    /// No pieces. Each is to have room for so many items. It takes no memory.
    pub(crate) fn new(alloc: Global, size: usize) -> PieceList<T>
        requires some { 0 < size }
        requires small { size ≤ 65536 }
        ensures { result ≡ record { pieces = []; spare = 0; next = 0; size = size } }
    {
        PieceList {
            pieces: Vec::new(alloc),
            spare: Vec::new(alloc),
            size,
        }
    }

    /// How many pieces there are, without the spare ones.
    #[tactic(auto, using(crate::proofs::PieceLemmas::pieces_counted))]
    pub(crate) fn len(&self) -> usize
        ensures value { result ≡ length self.now.pieces }
        ensures few { result + self.now.spare ≤ 65536 }
    {
        self.pieces.len()
    }

    /// How many empty pieces are kept ready.
    #[tactic(auto, using(crate::proofs::PieceLemmas::pieces_counted))]
    pub(crate) fn spare(&self) -> usize
        ensures value { result ≡ self.now.spare }
        ensures few { length self.now.pieces + result ≤ 65536 }
    {
        self.spare.len()
    }

    /// For how many items the next spare piece has room; 0 if there is none.
    #[tactic(auto, using(crate::proofs::PieceLemmas::room_none, crate::proofs::PieceLemmas::room_last))]
    pub(crate) fn next(&self) -> usize
        ensures { result ≡ self.now.next }
    {
        let count = self.spare.len();
        if count == 0 {
            return 0;
        }
        self.spare[count - 1].room()
    }

    /// The items of the piece of this number, from 0.
    #[tactic(auto, using(crate::proofs::PieceLemmas::piece_read, crate::proofs::PieceLemmas::pieces_counted))]
    pub(crate) fn piece(&self, number: usize) -> &[T]
        requires { number < length self.now.pieces }
        ensures { result.now ≡ slice_index_or self.now.pieces number [] }
    {
        self.pieces[number].items()
    }

    /// For how many items the last piece has room.
    #[tactic(auto, using(crate::proofs::PieceLemmas::left_zero, crate::proofs::PieceLemmas::left_read))]
    pub(crate) fn left(&self) -> usize
        ensures value { result ≡ left_of self.now.size self.now.pieces }
        ensures small { result ≤ self.now.size }
    {
        let count = self.pieces.len();
        if count == 0 {
            return 0;
        }
        let last = self.pieces[count - 1].items().len();
        self.size.saturating_sub(last)
    }

    /// Keeps one more empty piece ready, the next to be begun, with room for so many items.
    ///
    /// `AllocError` if memory runs out, or there are `MOST_PIECES`. Then nothing changes.
    pub(crate) fn add(&mut self, room: usize) -> Result<(), AllocError>
        requires { self.old.size ≤ room }
        ensures ok { OnOk result (self.new ≡ record self.old {
          spare = self.old.spare + 1;
          next = room;
        }) }
        ensures err { OnErr result (self.new ≡ self.old) }
    {
        let count = self.spare.len();
        if MOST_PIECES <= self.pieces.len() + count {
            return Err(AllocError);
        }
        self.pieces.reserve(count + 1)?;
        self.spare.reserve(1)?;
        let piece = Piece::with_room(*self.pieces.allocator(), room)?;
        self.spare.push_reserved(piece);
        Ok(())
    }

    /// Keeps so many more empty pieces ready, each with room for as many items as any has at least.
    ///
    /// `AllocError` if memory runs out, or there would be more than `MOST_PIECES`. Then some may
    /// have been added.
    #[tactic(auto, using(crate::proofs::PieceLemmas::pieces_counted))]
    pub(crate) fn grow(&mut self, count: usize) -> Result<(), AllocError>
        ensures pieces { self.new.pieces ≡ self.old.pieces }
        ensures size { self.new.size ≡ self.old.size }
        ensures spare { self.old.spare ≤ self.new.spare }
        ensures ok { OnOk result (self.new.spare ≡ self.old.spare + count) }
        ensures few { length self.new.pieces + self.new.spare ≤ 65536 }
    {
        if MOST_PIECES - self.pieces.len() - self.spare.len() < count {
            return Err(AllocError);
        }
        let added = self.add_each(count);
        let _spare = self.spare.len();
        added
    }

    /// The same, one by one.
    fn add_each(&mut self, count: usize) -> Result<(), AllocError>
        ensures pieces { self.new.pieces ≡ self.old.pieces }
        ensures size { self.new.size ≡ self.old.size }
        ensures spare { self.old.spare ≤ self.new.spare }
        ensures ok { OnOk result (self.new.spare ≡ self.old.spare + count) }
    {
        let size = self.size;
        for _added in 0..count {
            self.add(size)?;
        }
        Ok(())
    }

    /// The same pieces in a list of its own, and no spare ones. It shares all but the last, of
    /// which it has a copy. `AllocError` if memory runs out.
    pub(crate) fn share(&self) -> Result<PieceList<T>, AllocError>
        ensures { IfOk result (λ list. list ≡ record self.now { spare = 0; next = 0 }) }
    {
        let alloc = *self.pieces.allocator();
        let pieces = share_each(alloc, &self.pieces, self.size)?;
        Ok(PieceList {
            pieces,
            spare: Vec::new(alloc),
            size: self.size,
        })
    }

    /// Puts items into the last piece if they fit there, and else into the next, and tells where
    /// they begin. It takes no memory. No items take the room of one.
    pub(crate) fn push(&mut self, items: &[T]) -> Place
        requires spare { left_of self.old.size self.old.pieces < max 1 (length items.now)
            → 0 < self.old.spare }
        requires long { self.old.size < length items.now → length items.now ≤ self.old.next }
        ensures put { max 1 (length items.now) ≤ left_of self.old.size self.old.pieces
            → IsPut self.old self.new items.now result }
        ensures begun { left_of self.old.size self.old.pieces < max 1 (length items.now)
            → IsBegun self.old self.new items.now result }
    {
        let needed = if items.is_empty() { 1 } else { items.len() };
        if needed <= self.left() {
            self.put(items)
        } else {
            self.begin(items)
        }
    }

    /// Puts items into the last piece.
    fn put(&mut self, items: &[T]) -> Place
        requires some { 0 < left_of self.old.size self.old.pieces }
        requires fits { length items.now ≤ left_of self.old.size self.old.pieces }
        ensures { IsPut self.old self.new items.now result }
    {
        let last = self.pieces.len() - 1;
        let piece = &mut self.pieces[last];
        let start = piece.items().len();
        piece.put(items);
        Place {
            piece: last as u16,
            start: start as u16,
        }
    }

    /// Puts items into the next piece, and closes the one before.
    fn begin(&mut self, items: &[T]) -> Place
        requires spare { 0 < self.old.spare }
        requires long { self.old.size < length items.now → length items.now ≤ self.old.next }
        ensures { IsBegun self.old self.new items.now result }
    {
        let place = self.put_in_next(items);
        self.close_before_last();
        place
    }

    /// Puts items into the next piece.
    fn put_in_next(&mut self, items: &[T]) -> Place
        requires spare { 0 < self.old.spare }
        requires long { self.old.size < length items.now → length items.now ≤ self.old.next }
        ensures { IsBegun self.old self.new items.now result }
    {
        let number = self.pieces.len();
        let mut piece = self.spare.take_last();
        piece.put(items);
        self.pieces.push_reserved(piece);
        Place {
            piece: number as u16,
            start: 0,
        }
    }

    /// Closes the piece before the last.
    fn close_before_last(&mut self)
        ensures { self.new ≡ self.old }
    {
        let count = self.pieces.len();
        if count < 2 {
            return;
        }
        let piece = &mut self.pieces[count - 2];
        piece.close();
    }
}

/// The same pieces, of which those that are closed are shared.
fn share_each<T: Copy>(
    alloc: Global,
    pieces: &[Piece<T>],
    size: usize,
) -> Result<Vec<Piece<T>>, AllocError>
    ensures same { IfOk result (λ copies. pieces_in copies.items ≡ pieces_in pieces.now) }
    ensures room { IfOk result (λ copies. LastHasRoom size pieces.now
        → LastHasRoom size copies.items) }
{
    let mut copies = Vec::with_capacity(alloc, pieces.len())?;
    for piece in pieces {
        copies.push_reserved(piece.share(size)?);
    }
    Ok(copies)
}
