//! The block of a finished trie, with what it is freed by.

ghost use Rattle.std.specs.Prelude.{◌≡◌, ℕ, ◌+◌, ◌^◌, ◌<◌, ◌≤◌, ◌++◌, List, length, slice_index, IfOk};
ghost use Rattle.raw_trie.specs.Trie.{end_in};

use crate::memory::{Lease, Words};
use pieces::Pieces;
use std::alloc::{AllocError, Global};
use std::marker::Model;

/// A block that is full of words. It is never written after it was filled, and is freed once.
pub(crate) struct Block {
    words: Words,
    lease: Lease<Global>,
    alloc: Global,
    room: usize,
}

impl Model for Block {
    ghost use Rattle.std.specs.Prelude.{ℕ, List};

    ghost Value = { List ℕ };

    ghost use Rattle.raw_trie.specs.Block.{IsWholeBlock};

    ghost view = { λ b. b.words.words };

    ghost invariant = { IsWholeBlock };
}

impl Block {
    /// A block that holds these words. Each piece of them is let go as soon as it was copied.
    pub(crate) fn of(alloc: Global, words: Pieces<u32>) -> Result<Block, AllocError>
        requires { length words.items < 2 ^ 40 }
        ensures { IfOk result (λ block. block ≡ words.items) }
    {
        let room = words.len();
        let Some((mut block, lease)) = Words::reserve(&alloc, room) else {
            return Err(AllocError);
        };
        let mut written = 0;
        for piece in words.into_pieces() {
            written = copy(&mut block, written, &piece);
        }
        Ok(Block {
            words: block,
            lease,
            alloc,
            room,
        })
    }

    /// The word at a place.
    pub(crate) fn word(&self, place: usize) -> u32
        requires within { place < length self.now }
        requires small { place < 2 ^ 40 }
        ensures { result ≡ slice_index self.now place }
    {
        *self.words.word(place)
    }

    /// The end at a place: nothing if its first word is 0, and else its second.
    pub(crate) fn end(&self, place: usize) -> Option<u32>
        requires within { place + 1 < length self.now }
        requires small { place + 1 < 2 ^ 40 }
        ensures { result ≡ end_in self.now place }
    {
        if self.word(place) == 0 {
            None
        } else {
            Some(self.word(place + 1))
        }
    }
}

/// Writes these words after the `written` ones, and says how many there are then.
fn copy(block: &mut Words, written: usize, words: &[u32]) -> usize
    requires written { written ≡ length block.old.words }
    requires room { written + length words.now ≤ block.old.room }
    requires small { block.old.room < 2 ^ 40 }
    ensures written { result ≡ length block.new.words }
    ensures words { block.new.words ≡ block.old.words ++ words.now }
    ensures room { block.new.room ≡ block.old.room }
    ensures at { block.new.at ≡ block.old.at }
{
    for (place, word) in words.iter().enumerate() {
        block.push(written + place, *word);
    }
    written + words.len()
}

impl Drop for Block {
    fn drop(self) {
        let Block {
            words,
            lease,
            alloc,
            room,
        } = self;
        words.free(lease, &alloc, room)
    }
}
