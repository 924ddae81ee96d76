//! The list and its pieces.

ghost use Rattle.std.specs.Prelude.{◌≡◌, ◌<◌, ◌≤◌, ◌+◌, ◌-◌, ◌%◌, ◌^◌, ◌++◌, ◌∷◌, [], length, replicate, slice_get, slice_set, vec_items, vec_len, vec_capacity, option_copied, OnOk, OnErr};
ghost use Rattle.std.specs.List.{flat_map};

use std::alloc::{AllocError, Global};
use std::marker::Model;

/// How many items one piece has room for.
pub const PIECE_ITEMS: usize = 1024;

/// How many pieces a list has at most: there is room for fewer than 2^63 items in them.
const MOST_PIECES: usize = usize::MAX / 2 / PIECE_ITEMS;

/// A list that grows by pieces of `PIECE_ITEMS` items. A contract sees the items in order, and for
/// how many further ones there is room without memory.
///
/// An item stays where it was put, and no call but the drop goes over the items. As the list grows,
/// only the list of its pieces is moved, which has one entry for 1,024 items. `into_pieces` gives
/// the pieces away, so that each can be let go as soon as its items were read.
#[derive(Drop)]
pub struct Pieces<T> {
    // Each full before there is an item in the next. The empty ones are room that was reserved.
    pieces: Vec<Vec<T>>,
    len: usize,
}

impl<T> Model for Pieces<T> {
    ghost use Rattle.std.specs.Prelude.{◌*◌, ◌-◌, length, vec_items};
    ghost use Rattle.std.specs.List.{flat_map};
    ghost use Rattle.pieces.specs.Pieces.{PiecesParts, pieces_code};

    ghost Value = { PiecesParts T };

    ghost coded = { pieces_code T.code };

    ghost use Rattle.pieces.specs.Filled.{IsFilled};

    ghost view = { λ p. record {
      items = flat_map vec_items p.pieces.items;
      room = 1024 * length p.pieces.items - p.len;
    } };

    ghost invariant = { λ p. IsFilled p.pieces.items p.len };
}

impl<T: Drop> Pieces<T> {
    /// No items, and no room. It takes no memory.
    pub fn new(alloc: Global) -> Pieces<T>
        ensures { result ≡ record { items = []; room = 0 } }
    {
        Pieces {
            pieces: Vec::new(alloc),
            len: 0,
        }
    }

    /// How many items there are. With those that there is room for they are fewer than 2^63.
    #[tactic(auto, using(crate::proofs::Filled::items_counted, crate::proofs::Filled::count_fits))]
    pub fn len(&self) -> usize
        ensures value { result ≡ length self.now.items }
        ensures bounded { result + self.now.room < 2 ^ 63 }
    {
        self.len
    }

    /// The item at this place, from 0, if there is one.
    pub fn get(&self, place: usize) -> Option<&T>
        ensures { option_copied result ≡ slice_get self.now.items place }
    {
        let piece = self.pieces.get(place / PIECE_ITEMS)?;
        piece.get(place % PIECE_ITEMS)
    }

    /// For how many further items there is room without memory.
    #[tactic(auto, using(crate::proofs::Filled::count_fits))]
    fn room(&self) -> usize
        ensures { result ≡ self.now.room }
    {
        self.pieces.len() * PIECE_ITEMS - self.len
    }

    /// Makes room for this many further items, by one new piece at most: it is asked for no more
    /// than `PIECE_ITEMS` beyond the room that there is.
    ///
    /// `AllocError` if there is less room than that, and memory runs out or the list would have
    /// room for 2^63 items. Then nothing changes.
    pub fn reserve(&mut self, places: usize) -> Result<(), AllocError>
        requires near { places ≤ self.old.room + PIECE_ITEMS }
        ensures items { self.new.items ≡ self.old.items }
        ensures ok { OnOk result ((places ≤ self.new.room) × (self.old.room ≤ self.new.room)) }
        ensures still { places ≤ self.old.room → self.new ≡ self.old }
        ensures most { OnOk result (self.new.room ≤ self.old.room + PIECE_ITEMS) }
        ensures err { OnErr result ((self.new ≡ self.old) × (self.old.room < places)) }
    {
        if places <= self.room() {
            return Ok(());
        }
        self.add_piece()
    }

    /// Adds an empty piece. `AllocError` if memory runs out, or there are `MOST_PIECES`; then
    /// nothing changes.
    fn add_piece(&mut self) -> Result<(), AllocError>
        ensures ok { OnOk result (self.new ≡ record self.old { room = self.old.room + 1024 }) }
        ensures err { OnErr result (self.new ≡ self.old) }
    {
        if self.pieces.len() >= MOST_PIECES {
            return Err(AllocError);
        }
        self.pieces.reserve(1)?;
        let piece = Vec::with_capacity(*self.pieces.allocator(), PIECE_ITEMS)?;
        self.pieces.push_reserved(piece);
        Ok(())
    }

    /// Puts an item at the end, in room that was reserved. It takes no memory.
    pub fn push(&mut self, item: T)
        requires { 1 ≤ self.old.room }
        ensures { self.new ≡ record {
          items = self.old.items ++ item ∷ [];
          room = self.old.room - 1;
        } }
    {
        let piece = &mut self.pieces[self.len / PIECE_ITEMS];
        piece.push_reserved(item);
        self.len += 1;
    }

    /// The pieces, which hold the items in order. Some may be empty.
    pub fn into_pieces(self) -> Vec<Vec<T>>
        ensures { flat_map vec_items result.items ≡ self.items }
    {
        self.pieces
    }
}

impl<T: Copy> Pieces<T> {
    /// Puts an item in the place of the one that is there. It takes no memory.
    pub fn set(&mut self, place: usize, item: T)
        requires { place < length self.old.items }
        ensures { self.new ≡ record self.old { items = slice_set self.old.items place item } }
    {
        let piece = &mut self.pieces[place / PIECE_ITEMS];
        piece[place % PIECE_ITEMS] = item;
    }

    /// Puts so many copies of an item at the end, in room that was reserved. It takes no memory.
    pub fn push_copies(&mut self, count: usize, item: T)
        requires { count ≤ self.old.room }
        ensures { self.new ≡ record {
          items = self.old.items ++ replicate count item;
          room = self.old.room - count;
        } }
    {
        if 0 < count && count <= PIECE_ITEMS - self.len % PIECE_ITEMS {
            self.push_in_piece(count, item)
        } else {
            self.push_each(count, item)
        }
    }

    /// The same, if all of them go in one piece.
    fn push_in_piece(&mut self, count: usize, item: T)
        requires room { count ≤ self.old.room }
        requires some { 0 < count }
        requires one { length self.old.items % 1024 + count ≤ 1024 }
        ensures { self.new ≡ record {
          items = self.old.items ++ replicate count item;
          room = self.old.room - count;
        } }
    {
        let piece = &mut self.pieces[self.len / PIECE_ITEMS];
        fill(piece, count, item);
        self.len += count;
    }

    /// The same, one by one.
    fn push_each(&mut self, count: usize, item: T)
        requires { count ≤ self.old.room }
        ensures { self.new ≡ record {
          items = self.old.items ++ replicate count item;
          room = self.old.room - count;
        } }
    {
        for _pushed in 0..count {
            self.push(item);
        }
    }
}

/// Puts so many copies of an item at the end of a piece that has room for them.
fn fill<T: Copy>(items: &mut Vec<T>, count: usize, item: T)
    requires { vec_len items.old + count ≤ vec_capacity items.old }
    ensures added { vec_items items.new ≡ vec_items items.old ++ replicate count item }
    ensures room { vec_capacity items.new ≡ vec_capacity items.old }
{
    for _pushed in 0..count {
        items.push_reserved(item);
    }
}
