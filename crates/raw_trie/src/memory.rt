//! The block of a trie: the only functions of this crate that have pointers. All others see a list
//! of words, or the list of rows.
//!
//! A block is one piece of memory behind one pointer. It holds words of 4 bytes and is aligned to
//! 4. A node is 15 of them, 60 bytes; the nodes lie one after another from the root, which is node
//! 0, so that node n is the words from 15 n on. The words of a node are:
//!
//! - 0 to 9: the links of the digits. A link is the number of the node it leads to. No node leads
//!   back to the root, so 0 is no link.
//! - 10: the link of the dot, likewise.
//! - 11 and 12: the end of the pattern that ends here without a star. Word 11 is 0 if there is
//!   none, and else 1 with the pattern's value in word 12.
//! - 13 and 14: the end of the pattern that ends here with a star, likewise.
//!
//! The node of a pattern is reached from the root by the links of its digits and then by its dots;
//! a star is no link.
//!
//! A block is reserved for a number of words, filled word by word to its last, then only read, and
//! freed once. `Words` is the right to its words and `Lease` is the right to give it back: neither
//! can be dropped or copied, and `free` takes both. As nothing is written after it is full, threads
//! may read it together.

ghost use Rattle.std.specs.Prelude.{◌≡◌, ℕ, ◌+◌, ◌^◌, ◌<◌, List, [], ◌∷◌, ◌++◌, length, slice_index, IfSome};
ghost use base.Fml.{ftrue};
ghost use denote.RawPtr.{Ptr};
ghost use Rattle.raw_trie.specs.Memory.{block_type, words_owned, words_lent};

use std::alloc::Allocator;
use std::marker::{Model, PhantomData};

/// Bytes of a word, and what a block of words is aligned to.
const WORD_BYTES: usize = 4;

/// The words of a block: those that were written, and how many there is room for.
pub(crate) struct Words {
    at: *mut u32,
    pub(crate) ghost words: { List ℕ },
    pub(crate) ghost room: { ℕ },
}

impl Model for Words {
    ghost also_owns = { λ w. words_owned w.at w.room w.words };

    ghost also_shares = { λ w _ κ. words_lent w.at w.words κ };
}

/// The right to give the block back.
pub(crate) struct Lease<A: Allocator> {
    by: PhantomData<*const A>,
    pub(crate) ghost alloc: { A },
    pub(crate) ghost at: { Ptr },
    pub(crate) ghost room: { ℕ },
}

impl<A: Allocator> Model for Lease<A> {
    ghost also_owns = { λ l. A.dealloc_token l.alloc (block_type l.room) l.at };

    ghost also_shares = { λ _ _ _. ftrue };
}

impl Words {
    /// Room for so many words, none of them written yet, if there is memory.
    pub(crate) fn reserve<A: Allocator>(alloc: &A, room: usize) -> Option<(Words, Lease<A>)>
        requires { room < 2 ^ 40 }
        ensures { IfSome result (λ b. (b.0.words ≡ []) × (b.0.room ≡ room) ×
            (b.1.alloc ≡ alloc.now) × (b.1.at ≡ b.0.at) × (b.1.room ≡ room)) }
    {
        match alloc.allocate(room * WORD_BYTES, WORD_BYTES) {
            Ok(block) => {
                let by = PhantomData;
                let at = block as *mut u32;
                Some((Words { at }, Lease { by }))
            }
            Err(_) => None,
        }
    }

    /// Writes the next word.
    pub(crate) fn push(&mut self, index: usize, word: u32)
        requires { (index ≡ length self.old.words) × (index < self.old.room) × (index < 2 ^ 40) }
        ensures { (self.new.words ≡ self.old.words ++ word ∷ []) × (self.new.room ≡ self.old.room) ×
            (self.new.at ≡ self.old.at) }
    {
        unsafe {
            let place = self.at.add(index);
            *place = word;
        }
    }

    /// The word at an index.
    pub(crate) fn word(&self, index: usize) -> &u32
        requires { (index < length self.now.words) × (index < 2 ^ 40) }
        ensures { result.now ≡ slice_index self.now.words index }
    {
        unsafe { &*self.at.add(index) }
    }

    /// Gives the block back.
    pub(crate) fn free<A: Allocator>(self, lease: Lease<A>, alloc: &A, room: usize)
        requires { (lease.alloc ≡ alloc.now) × (lease.at ≡ self.at) × (lease.room ≡ self.room) ×
            (room ≡ self.room) × (room < 2 ^ 40) × (length self.words < room + 1) }
    {
        let Words { at } = self;
        let Lease { by: _ } = lease;
        unsafe { alloc.deallocate(at as *mut u8, room * WORD_BYTES, WORD_BYTES) }
    }
}

unsafe impl Send for Words {}

unsafe impl Sync for Words {}

unsafe impl<A: Allocator + Send> Send for Lease<A> {}

unsafe impl<A: Allocator> Sync for Lease<A> {}
