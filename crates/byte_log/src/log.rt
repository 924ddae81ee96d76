//! The log.

ghost use Rattle.std.specs.Prelude.{◌≡◌, ◌⊎◌, ◌+◌, ◌-◌, ◌^◌, ◌<◌, ◌≤◌, ◌++◌, ◌∷◌, [], length, slice_get, option_copied, IfOk, OnOk, OnErr};
ghost use Rattle.byte_log.specs.Items.{end_of, item_from};
ghost use Rattle.byte_log.specs.Room.{bytes_room, places_taken};

use crate::piece_list::PieceList;
use crate::place_list::PlaceList;
use crate::places::Place;
use std::alloc::{AllocError, Global};
use std::marker::Model;

/// How many bytes a short item has at most.
pub const SHORT_BYTES: usize = 138;

/// How many bytes a piece has room for. One that is begun for a longer item has room for that.
pub const PIECE_BYTES: usize = 65_536;

/// For how many short items an empty piece has room.
const PIECE_ITEMS: usize = PIECE_BYTES / SHORT_BYTES;

/// Texts of bytes, the items, in the order in which they were put. A contract sees them; for how
/// many further short ones there is room without memory; and how many bytes the next one may have,
/// if it is longer than a piece.
///
/// Each item lies in one piece: one that does not fit in what is left of the last piece begins the
/// next. It stays where it was put, and its place takes four bytes.
#[derive(Drop)]
pub struct ByteLog {
    pieces: PieceList<u8>,
    places: PlaceList,
}

/// What threads may share and pass on, as the threads of a server share a record.
trait Shared: Send + Sync {}

impl Shared for ByteLog {}

impl Model for ByteLog {
    ghost use Rattle.byte_log.specs.Items.{IsLog, items_of};
    ghost use Rattle.byte_log.specs.Parts.{LogParts};
    ghost use Rattle.byte_log.specs.Room.{room_of};

    ghost Value = { LogParts };

    ghost view = { λ l. record {
      items = items_of l.pieces.pieces l.places.items;
      room = room_of l.pieces l.places.room;
      longest = l.pieces.next;
    } };

    ghost invariant = { λ l. IsLog l.pieces l.places.items };
}

impl ByteLog {
    /// No items, and no room. It takes no memory.
    pub fn new(alloc: Global) -> ByteLog
        ensures { result ≡ record { items = []; room = 0; longest = 0 } }
    {
        ByteLog {
            pieces: PieceList::new(alloc, PIECE_BYTES),
            places: PlaceList::new(alloc),
        }
    }

    /// How many items there are. With those that there is room for they are fewer than 2^63.
    pub fn len(&self) -> usize
        ensures value { result ≡ length self.now.items }
        ensures bounded { result + self.now.room < 2 ^ 63 }
    {
        self.places.len()
    }

    /// The item at this place, from 0, if there is one.
    pub fn get(&self, place: usize) -> Option<&[u8]>
        ensures { option_copied result ≡ slice_get self.now.items place }
    {
        let first = self.places.get(place)?;
        let next = self.places.get(place + 1);
        let piece = self.pieces.piece(first.piece as usize);
        Some(item_in(piece, first, next))
    }

    /// Makes room for one item of so many bytes, and after it for `places` short ones.
    ///
    /// `AllocError` if memory runs out, or the log would have more than 65,536 pieces. Then the
    /// items stay, and the room does not shrink. There is none if there was room already.
    pub fn reserve(&mut self, bytes: usize, places: usize) -> Result<(), AllocError>
        ensures items { self.new.items ≡ self.old.items }
        ensures room { self.old.room ≤ self.new.room }
        ensures ok { OnOk result (places_taken bytes + places ≤ self.new.room) }
        ensures longest { OnOk result (65536 < bytes → bytes ≤ self.new.longest) }
        ensures err { OnErr result ((self.old.room < places_taken bytes + places)
            ⊎ ((65536 < bytes) × (self.old.longest < bytes))) }
    {
        let needed = room_taken(bytes).saturating_add(places);
        self.places.reserve(needed)?;
        reserve_room(&mut self.pieces, needed)?;
        reserve_long(&mut self.pieces, bytes)
    }

    /// Puts an item at the end, in room that was reserved. It takes no memory.
    pub fn push(&mut self, item: &[u8])
        requires room { places_taken (length item.now) ≤ self.old.room }
        requires long { 65536 < length item.now → length item.now ≤ self.old.longest }
        ensures items { self.new.items ≡ self.old.items ++ item.now ∷ [] }
        ensures room { self.old.room ≤ self.new.room + places_taken (length item.now) }
    {
        let place = self.pieces.push(item);
        self.places.push(place);
    }

    /// A log with the same items. It shares all pieces with this one but the last, of which it has
    /// a copy, as of the last places. What is put into either later is not in the other.
    ///
    /// `AllocError` if memory runs out.
    pub fn share(&self) -> Result<ByteLog, AllocError>
        ensures { IfOk result (λ log. log.items ≡ self.now.items) }
    {
        let pieces = self.pieces.share()?;
        let places = self.places.share()?;
        Ok(ByteLog { pieces, places })
    }
}

/// The item that begins at this place of a piece, before the next one.
fn item_in<'a>(piece: &'a [u8], first: &Place, next: Option<&Place>) -> &'a [u8]
    requires order { first.now.start ≤ end_of piece.now first.now (option_copied next) }
    requires within { end_of piece.now first.now (option_copied next) ≤ length piece.now }
    ensures { result.now ≡ item_from piece.now first.now (option_copied next.entry) }
{
    let end = end_in(piece, first, next);
    &piece[first.start as usize..end]
}

/// Where an item ends that begins at this place of a piece.
fn end_in(piece: &[u8], first: &Place, next: Option<&Place>) -> usize
    ensures { result ≡ end_of piece.now first.now (option_copied next.entry) }
{
    match next {
        Some(next) if next.piece == first.piece => next.start as usize,
        _ => piece.len(),
    }
}

/// Of how many short items an item of so many bytes takes the room, at most.
pub fn room_taken(bytes: usize) -> usize
    ensures { result ≡ places_taken bytes }
{
    let bytes = bytes.min(PIECE_BYTES);
    2 * (bytes.saturating_sub(1) / SHORT_BYTES) + 1
}

/// For how many short items the pieces have room.
fn room_in(pieces: &PieceList<u8>) -> usize
    ensures { result ≡ bytes_room pieces.now }
{
    pieces.left() / SHORT_BYTES + pieces.spare() * PIECE_ITEMS
}

/// Keeps pieces ready until they have room for so many short items.
fn reserve_room(pieces: &mut PieceList<u8>, needed: usize) -> Result<(), AllocError>
    requires { pieces.old.size ≡ 65536 }
    ensures pieces { pieces.new.pieces ≡ pieces.old.pieces }
    ensures size { pieces.new.size ≡ pieces.old.size }
    ensures spare { pieces.old.spare ≤ pieces.new.spare }
    ensures ok { OnOk result (needed ≤ bytes_room pieces.new) }
    ensures still { needed ≤ bytes_room pieces.old → pieces.new ≡ pieces.old }
    ensures err { OnErr result (bytes_room pieces.old < needed) }
{
    let room = room_in(pieces);
    if needed <= room {
        return Ok(());
    }
    pieces.grow((needed - room) / PIECE_ITEMS + 1)
}

/// Keeps a piece ready for an item of so many bytes, if it is longer than a piece.
fn reserve_long(pieces: &mut PieceList<u8>, bytes: usize) -> Result<(), AllocError>
    requires { pieces.old.size ≡ 65536 }
    ensures pieces { pieces.new.pieces ≡ pieces.old.pieces }
    ensures size { pieces.new.size ≡ pieces.old.size }
    ensures spare { pieces.old.spare ≤ pieces.new.spare }
    ensures ok { OnOk result (65536 < bytes → bytes ≤ pieces.new.next) }
    ensures err { OnErr result ((65536 < bytes) × (pieces.old.next < bytes)) }
{
    if bytes <= PIECE_BYTES || bytes <= pieces.next() {
        return Ok(());
    }
    pieces.add(bytes)
}
