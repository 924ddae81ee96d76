//! The trie: how it is built, and how it is read.

ghost use Rattle.std.specs.Prelude.{◌≡◌, ℕ, ◌+◌, ◌-◌, ◌*◌, ◌/◌, ◌<◌, ◌≤◌, List, [], length, drop, slice_index_or, IfOk, IsOk, IfSome, Some, None};
ghost use Rattle.digit_patterns.specs.PatternParts.{PatternParts};
ghost use Rattle.digit_patterns.specs.Duplicate.{duplicate_of};
ghost use Rattle.digit_patterns.specs.Table.{best_hit};
ghost use Rattle.raw_trie.specs.Looks.{looks_of};
ghost use Rattle.raw_trie.specs.Nodes.{node_count, patterns_of};

use crate::block::Block;
use crate::draft::{DOT, Draft, NODE_WORDS, PLAIN, STARRED};
use crate::meaning::Meaning;
use crate::walk::{Seen, longest};
use digit_patterns::{Hit, Pattern, PrefixTable};
use gk_terms::Dialled;
use std::alloc::{AllocError, Global};
use std::marker::Model;
use thiserror::Error;

/// Why a trie could not be built.
#[derive(Clone, Copy, Debug, PartialEq, Eq, Error)]
pub enum TrieFault {
    /// This row, counted from 0, is the first whose pattern an earlier row has.
    #[error("row {0} has the pattern of an earlier row")]
    Duplicate(usize),
    /// The patterns take more nodes than are allowed.
    #[error("too many nodes")]
    TooManyNodes,
    /// There is no memory for the trie.
    #[error("out of memory")]
    NoMemory,
}

impl From<AllocError> for TrieFault {
    ghost use Rattle.raw_trie.specs.declared.trie.TrieFault.TheVariants.{NoMemory};

    ghost from_gives = { λ _ fault. fault ≡ NoMemory };

    fn from(_error: AllocError) -> TrieFault {
        TrieFault::NoMemory
    }
}

/// A node that was looked at. `RawTrie::look_at` alone makes one, and counts it. A contract sees
/// the number of the node.
#[derive(Clone, Copy)]
pub(crate) struct LookedAt {
    node: u32,
}

impl Model for LookedAt {
    ghost use Rattle.std.specs.Prelude.{ℕ};

    ghost Value = { ℕ };

    ghost view = { λ l. l.node };

    ghost inverse = { λ node. record { node = node } };
}

/// A table of patterns as a trie. Its value is the list of its rows, in the order they were given
/// in.
///
/// A trie is one block of memory of exactly 60 bytes for each of its nodes, and of as many nodes as
/// its patterns have different beginnings. It is reserved and filled by `build`, freed when the
/// trie is dropped, and never written in between, so that threads may share it in an `Arc`. A
/// look-up takes no memory. Before the block is reserved its words grow in pieces, each of which is
/// let go as soon as its words are in the block.
///
/// A node has the numbers of the nodes that the ten digits and a dot lead to, and beside them the
/// values of the patterns that end at it without and with a star, all at known places, in one or
/// two cache lines. A look-up reads one link of each node on its way down and, until it has a hit,
/// the dot's link and the ends of each on its way back up. A node of 16 bytes, with the set of its
/// links and the number of the first of the nodes they lead to, which lie together, takes less
/// memory and is about as fast to read, but has to be built from sorted beginnings, which takes
/// many times as long.
#[derive(Drop)]
pub struct RawTrie {
    block: Block,
    meaning: Meaning,
}

impl Model for RawTrie {
    ghost use Rattle.std.specs.Prelude.{ℕ, List};
    ghost use Rattle.digit_patterns.specs.PatternParts.{PatternParts};

    ghost Value = { List (PatternParts × ℕ) };

    ghost use Rattle.raw_trie.specs.Walk.{Represents};

    ghost view = { λ t. t.meaning.rows };

    ghost invariant = { λ t. Represents t.meaning.rows t.block };
}

impl RawTrie {
    ghost use Rattle.raw_trie.specs.Trie.{paths_of};
    ghost use Rattle.raw_trie.specs.Walk.{HasTrie, LeadsOn, Shows};

    /// The trie of these rows. `alloc` is what its memory is taken from.
    ///
    /// `Duplicate` if a row has the pattern of an earlier one, and then it names the first such
    /// row, counted from 0. `TooManyNodes` if no pattern is there twice and the patterns, their
    /// stars left off, have more than `most` different beginnings, the empty one included; since a
    /// pattern has at most 32 characters, it never comes if `most` is more than 32 times the number
    /// of rows. `NoMemory` may come in place of any other answer. When it refuses, it has given
    /// back all memory it took.
    pub fn build(alloc: Global, rows: &[(Pattern, u32)], most: u32) -> Result<RawTrie, TrieFault>
        ensures built { IfOk result (λ trie. trie ≡ rows.now) }
        ensures distinct { IsOk result → duplicate_of rows.now ≡ None }
        ensures duplicate { (row : ℕ) → result ≡
            Err (TrieFault.Duplicate row) → duplicate_of rows.now ≡ Some row }
        ensures few { IsOk result → node_count (patterns_of rows.now) ≤ most }
        ensures too_many { result ≡ Err TrieFault.TooManyNodes →
            (duplicate_of rows.now ≡ None) × (most < node_count (patterns_of rows.now)) }
        ensures enough { result ≡ Err TrieFault.TooManyNodes → most ≤ 32 * length rows.now }
    {
        let mut draft = Draft::new(alloc)?;
        let mut meaning = Meaning::new();
        for (place, row) in rows.iter().enumerate() {
            if !draft.add(&row.0, row.1)? {
                return Err(TrieFault::Duplicate(place));
            }
            meaning = meaning.with(row);
        }
        if draft.nodes() > most as usize {
            return Err(TrieFault::TooManyNodes);
        }
        let block = Block::of(alloc, draft.words)?;
        Ok(RawTrie { block, meaning })
    }

    /// The row with the longest pattern that matches the dialled characters from the place `from`
    /// on, counted from 0, as `best` finds it, and how many nodes were looked at: those of the
    /// digits in front, and, after as many of these as the hit has literals, or more, those of
    /// dots. For n characters from there on they are at most (n + 1) (n + 2) / 2. It takes no
    /// memory.
    pub fn best_counted(&self, dialled: &Dialled, from: usize) -> (Option<Hit>, u32)
        requires { from ≤ length dialled.now }
        ensures hit { result.0 ≡ best_hit self.now (drop from dialled.now) }
        ensures counted { result.1 ≡ looks_of self.now (drop from dialled.now) }
        ensures nodes { let n = length dialled.now - from in result.1 ≤ (n + 1) * (n + 2) / 2 }
    {
        longest(self, &dialled.as_bytes()[from..])
    }

    /// Looks at a node, and counts that. Gives where the link of the digit leads, 0 if nowhere or
    /// if there is no digit, and the node as one that was looked at.
    pub(crate) fn look_at(&self, node: u32, digit: Option<u8>, looks: &mut u32) -> (u32, LookedAt)
        requires node { node < length (paths_of self.now) }
        requires digit { IfSome digit (λ d. d < 10) }
        requires few { looks.old < 2000 }
        ensures next { LeadsOn self.now (slice_index_or (paths_of self.now) node []) digit
            result.0 }
        ensures looked { result.1 ≡ node }
        ensures counted { looks.new ≡ looks.old + 1 }
        ensures trie { HasTrie self.now }
    {
        *looks += 1;
        let next = match digit {
            Some(digit) => self.block.word(NODE_WORDS * node as usize + digit as usize),
            None => 0,
        };
        (next, LookedAt { node })
    }

    /// What else a node tells that was looked at, and so counted: the dot's link and the ends. A
    /// walk asks for it on its way back up, so that of most nodes that it passes it reads one link
    /// alone. `look_at` and this are the only functions that read a node.
    pub(crate) fn seen_at(&self, looked: LookedAt) -> Seen
        requires { looked < length (paths_of self.now) }
        ensures { Shows self.now (slice_index_or (paths_of self.now) looked []) result }
    {
        let first = NODE_WORDS * looked.node as usize;
        Seen {
            dot: self.block.word(first + DOT),
            plain: self.block.end(first + PLAIN),
            starred: self.block.end(first + STARRED),
        }
    }
}

impl PrefixTable for RawTrie {
    ghost rows = { λ t. t };

    fn best(&self, dialled: &Dialled, from: usize) -> Option<Hit> {
        self.best_counted(dialled, from).0
    }
}
