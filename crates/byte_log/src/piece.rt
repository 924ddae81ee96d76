//! A piece of a list: one block of memory, which its owner writes and then closes.

ghost use Rattle.std.specs.Prelude.{◌≡◌, ◌+◌, ◌<◌, ◌≤◌, ◌++◌, [], length, vec_items, vec_len, vec_capacity, IfOk};
ghost use Rattle.std.specs.Arc.{arc_value};

use std::alloc::{AllocError, Global};
use std::marker::Model;
use std::mem;
use std::sync::Arc;

/// Some items of a list, in one block of memory. A contract sees the items, and for how many
/// further ones there is room.
///
/// It is written until it is closed. Then it can be shared without a copy.
#[derive(Drop)]
pub(crate) struct Piece<T> {
    // The items, until the piece is closed.
    written: Vec<T>,
    // The items afterwards. It is made with the piece, since closing takes no memory.
    closed: Arc<Vec<T>>,
    is_closed: bool,
}

impl<T> Model for Piece<T> {
    ghost use Rattle.std.specs.Prelude.{◌-◌, vec_items, vec_len, vec_capacity};
    ghost use Rattle.std.specs.Arc.{arc_value};
    ghost use Rattle.byte_log.specs.Parts.{PieceParts, piece_code, piece_of};

    ghost Value = { PieceParts T };

    ghost coded = { piece_code T.code };

    ghost view = { λ p. piece_of p.is_closed (vec_items p.written)
        (vec_capacity p.written - vec_len p.written) (vec_items (arc_value p.closed)) };
}

impl<T: Copy> Piece<T> {
    /// No items, and room for so many.
    pub(crate) fn with_room(alloc: Global, room: usize) -> Result<Piece<T>, AllocError>
        ensures { IfOk result (λ piece. piece ≡ record { items = []; room = room }) }
    {
        let written = Vec::with_capacity(alloc, room)?;
        let closed = Arc::new(alloc, Vec::new(alloc))?;
        Ok(Piece {
            written,
            closed,
            is_closed: false,
        })
    }

    /// Its items.
    pub(crate) fn items(&self) -> &[T]
        ensures { result.now ≡ self.now.items }
    {
        if self.is_closed {
            self.closed.as_slice()
        } else {
            self.written.as_slice()
        }
    }

    /// For how many further items there is room.
    pub(crate) fn room(&self) -> usize
        ensures { result ≡ self.now.room }
    {
        if self.is_closed {
            0
        } else {
            self.written.capacity() - self.written.len()
        }
    }

    /// Puts items at the end. It takes no memory.
    pub(crate) fn put(&mut self, items: &[T])
        requires some { 0 < self.old.room }
        requires room { length items.now ≤ self.old.room }
        ensures items { self.new.items ≡ self.old.items ++ items.now }
        ensures room { self.old.room ≤ self.new.room + length items.now }
    {
        extend(&mut self.written, items);
    }

    /// The same items in a piece of its own. It shares them if this one is closed. Else it has a
    /// copy, and room for so many in all. `AllocError` if memory runs out.
    pub(crate) fn share(&self, room: usize) -> Result<Piece<T>, AllocError>
        ensures items { IfOk result (λ piece. piece.items ≡ self.now.items) }
        ensures room { IfOk result (λ piece. room ≤ length self.now.items + self.now.room
            → room ≤ length piece.items + piece.room) }
    {
        if self.is_closed {
            share_closed(&self.closed, *self.written.allocator())
        } else {
            copy_written(&self.written, room)
        }
    }

    /// Closes the piece. It takes no memory.
    pub(crate) fn close(&mut self)
        ensures { self.new.items ≡ self.old.items }
    {
        if self.is_closed {
            return;
        }
        if let Some(closed) = Arc::get_mut(&mut self.closed) {
            mem::swap(closed, &mut self.written);
            self.is_closed = true;
        }
    }
}

/// Puts items at the end, in room that there is.
fn extend<T: Copy>(items: &mut Vec<T>, more: &[T])
    requires { vec_len items.old + length more.now ≤ vec_capacity items.old }
    ensures items { vec_items items.new ≡ vec_items items.old ++ more.now }
    ensures room { vec_capacity items.old ≤ vec_capacity items.new }
{
    let added: Result<_, _> = items.extend_from_slice(more);
    let _ = added.unwrap();
}

/// A closed piece that shares these items.
fn share_closed<T: Copy>(closed: &Arc<Vec<T>>, alloc: Global) -> Result<Piece<T>, AllocError>
    ensures { IfOk result (λ piece. piece ≡ record {
      items = vec_items (arc_value closed.now);
      room = 0;
    }) }
{
    let closed = Arc::try_clone(closed)?;
    Ok(Piece {
        written: Vec::new(alloc),
        closed,
        is_closed: true,
    })
}

/// A piece with a copy of these items, and room for so many in all.
fn copy_written<T: Copy>(written: &Vec<T>, room: usize) -> Result<Piece<T>, AllocError>
    ensures items { IfOk result (λ piece. piece.items ≡ vec_items written.now) }
    ensures room { IfOk result (λ piece. room ≤ length piece.items + piece.room) }
{
    let count = written.len();
    let alloc = *written.allocator();
    let room = if count < room { room } else { count };
    let mut copy = Vec::with_capacity(alloc, room)?;
    extend(&mut copy, written);
    let closed = Arc::new(alloc, Vec::new(alloc))?;
    Ok(Piece {
        written: copy,
        closed,
        is_closed: false,
    })
}
