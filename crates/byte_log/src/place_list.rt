//! The places of the items of a log, in pieces.

ghost use Rattle.std.specs.Prelude.{◌≡◌, ◌+◌, ◌-◌, ◌^◌, ◌<◌, ◌≤◌, ◌++◌, ◌∷◌, [], length, slice_get, option_copied, IfOk, IfSome, OnOk, OnErr};

use crate::piece_list::PieceList;
use crate::places::Place;
use std::alloc::{AllocError, Global};
use std::marker::Model;

/// How many places a piece has room for: it is as large as one of bytes.
const PIECE_PLACES: usize = 16_384;

/// A list of places. A contract sees them in order, and for how many further ones there is room
/// without memory.
#[derive(Drop)]
pub(crate) struct PlaceList {
    // Each full before there is a place in the next.
    pieces: PieceList<Place>,
}

impl Model for PlaceList {
    ghost use Rattle.byte_log.specs.Filled.{IsPlaceList, items_in, places_room};
    ghost use Rattle.byte_log.specs.Parts.{PieceParts};
    ghost use Rattle.byte_log.specs.declared.places.Place.{Place};

    ghost Value = { PieceParts Place };

    ghost view = { λ l. record {
      items = items_in l.pieces.pieces;
      room = places_room l.pieces;
    } };

    ghost invariant = { λ l. IsPlaceList l.pieces };
}

impl PlaceList {
    /// No places, and no room. It takes no memory.
    pub(crate) fn new(alloc: Global) -> PlaceList
        ensures { result ≡ record { items = []; room = 0 } }
    {
        PlaceList {
            pieces: PieceList::new(alloc, PIECE_PLACES),
        }
    }

    /// How many places there are.
    #[tactic(auto, using(crate::proofs::PlaceLemmas::places_counted))]
    pub(crate) fn len(&self) -> usize
        ensures value { result ≡ length self.now.items }
        ensures bounded { result + self.now.room < 2 ^ 63 }
    {
        let _spare = self.pieces.spare();
        self.pieces.len() * PIECE_PLACES - self.pieces.left()
    }

    /// The place of this number, from 0, if there is one.
    pub(crate) fn get(&self, number: usize) -> Option<&Place>
        ensures place { option_copied result ≡ slice_get self.now.items number }
        ensures bounded { IfSome result (λ _. number < 2 ^ 63) }
    {
        let piece = number / PIECE_PLACES;
        if self.pieces.len() <= piece {
            return None;
        }
        self.pieces.piece(piece).get(number % PIECE_PLACES)
    }

    /// For how many further places there is room.
    fn room(&self) -> usize
        ensures value { result ≡ self.now.room }
        ensures few { result < 2 ^ 63 }
    {
        self.pieces.left() + self.pieces.spare() * PIECE_PLACES
    }

    /// Makes room for this many further places.
    ///
    /// `AllocError` if there is less room than that, and memory runs out or the places would take
    /// more than 65,536 pieces. Then they stay, and the room does not shrink.
    pub(crate) fn reserve(&mut self, places: usize) -> Result<(), AllocError>
        ensures items { self.new.items ≡ self.old.items }
        ensures room { self.old.room ≤ self.new.room }
        ensures few { self.new.room < 2 ^ 63 }
        ensures ok { OnOk result (places ≤ self.new.room) }
        ensures err { OnErr result (self.old.room < places) }
    {
        let room = self.room();
        if places <= room {
            return Ok(());
        }
        self.pieces.grow((places - room) / PIECE_PLACES + 1)
    }

    /// Puts a place at the end, in room that was reserved. It takes no memory.
    pub(crate) fn push(&mut self, place: Place)
        requires { 1 ≤ self.old.room }
        ensures { self.new ≡ record {
          items = self.old.items ++ place ∷ [];
          room = self.old.room - 1;
        } }
    {
        let _at = self.pieces.push(&[place]);
    }

    /// The same places in a list of its own, of which it shares all pieces but the last. Of that a
    /// copy is taken. `AllocError` if memory runs out.
    pub(crate) fn share(&self) -> Result<PlaceList, AllocError>
        ensures { IfOk result (λ list. list.items ≡ self.now.items) }
    {
        let pieces = self.pieces.share()?;
        Ok(PlaceList { pieces })
    }
}
