//! A trie that grows row by row. Its words are those of the block that is made of it. They grow in
//! pieces, so that none is moved, and as the block is filled each piece is let go.

ghost use Rattle.std.specs.Prelude.{◌≡◌, ◌+◌, ◌*◌, ◌/◌, ◌<◌, ◌==◌, ◌++◌, length, replicate, slice_index, IfOk, if◌then◌else◌};
ghost use Rattle.digit_patterns.specs.PatternParts.{IsPattern};
ghost use Rattle.raw_trie.specs.Nodes.{path_of};
ghost use Rattle.raw_trie.specs.Trie.{IsSomeTrie, Links, GrowsTo, AddsRow, with_end};

use digit_patterns::Pattern;
use pieces::Pieces;
use std::alloc::{AllocError, Global};

/// Words of a node: 10 links for the digits, one for the dot, and two ends of two words each.
pub(crate) const NODE_WORDS: usize = 15;

/// The place of the dot's link in a node.
pub(crate) const DOT: usize = 10;

/// The place in a node of the end without a star: a word that is 0 if there is none, and the value.
pub(crate) const PLAIN: usize = 11;

/// The place in a node of the end with a star.
pub(crate) const STARRED: usize = 13;

/// The words of a trie that grows.
#[derive(Drop)]
pub(crate) struct Draft {
    pub(crate) words: Pieces<u32>,
}

impl Draft {
    /// The trie of no rows: the root alone.
    pub(crate) fn new(alloc: Global) -> Result<Draft, AllocError>
        ensures { IfOk result (λ draft. draft.words.items ≡ replicate 15 0) }
    {
        let mut draft = Draft {
            words: Pieces::new(alloc),
        };
        draft.add_node()?;
        Ok(draft)
    }

    /// Adds a row, or says false if there is a row with its pattern.
    pub(crate) fn add(&mut self, pattern: &Pattern, value: u32) -> Result<bool, AllocError>
        requires { IsSomeTrie self.old.words.items }
        ensures { IfOk result (λ added.
            AddsRow self.old.words.items self.new.words.items (pattern.now, value) added) }
    {
        let node = self.node_of(pattern)?;
        Ok(self.add_end(node, pattern.has_star(), value))
    }

    /// How many nodes there are.
    pub(crate) fn nodes(&self) -> usize
        ensures { result ≡ length self.now.words.items / 15 }
    {
        self.words.len() / NODE_WORDS
    }

    /// The node of a pattern, with those on the way to it that are not there yet.
    fn node_of(&mut self, pattern: &Pattern) -> Result<u32, AllocError>
        requires { IsSomeTrie self.old.words.items }
        ensures { IfOk result (λ node. IsPattern pattern.now ×
            GrowsTo self.old.words.items self.new.words.items node (path_of pattern.now)) }
    {
        let mut node = 0;
        for digit in pattern.literals() {
            node = self.child(node, (*digit - b'0') as usize)?;
        }
        for _dot in 0..pattern.dots() {
            node = self.child(node, DOT)?;
        }
        Ok(node)
    }

    /// The node that a link of a node leads to: a new one if there is no link yet.
    fn child(&mut self, node: u32, symbol: usize) -> Result<u32, AllocError>
        requires { 15 * node + symbol < length self.old.words.items }
        ensures { IfOk result (λ child.
            Links self.old.words.items (15 * node + symbol) self.new.words.items child) }
    {
        // So it is known that there are fewer than 2^63 words.
        let _words = self.words.len();
        let place = NODE_WORDS * node as usize + symbol;
        let link = self.word(place);
        if link != 0 {
            return Ok(link);
        }
        let added = self.add_node()?;
        self.words.set(place, added);
        Ok(added)
    }

    /// Adds a node with no link and no end.
    fn add_node(&mut self) -> Result<u32, AllocError>
        ensures number { IfOk result (λ node. node ≡ length self.old.words.items / 15) }
        ensures words { IfOk result (λ _.
            self.new.words.items ≡ self.old.words.items ++ replicate 15 0) }
    {
        let nodes = self.nodes();
        if nodes > u32::MAX as usize {
            return Err(AllocError);
        }
        self.words.reserve(NODE_WORDS)?;
        self.words.push_copies(NODE_WORDS, 0);
        Ok(nodes as u32)
    }

    /// Sets an end of a node, or says false if it has one.
    fn add_end(&mut self, node: u32, star: bool, value: u32) -> bool
        requires { 15 * node + 14 < length self.old.words.items }
        ensures added { result ≡
            (slice_index self.old.words.items (15 * node + (if star then 13 else 11)) == 0) }
        ensures words { self.new.words.items ≡
            with_end self.old.words.items (15 * node + (if star then 13 else 11)) value }
    {
        let place = NODE_WORDS * node as usize + if star { STARRED } else { PLAIN };
        if self.word(place) != 0 {
            return false;
        }
        self.words.set(place, 1);
        self.words.set(place + 1, value);
        true
    }

    /// The word at a place.
    fn word(&self, place: usize) -> u32
        requires { place < length self.now.words.items }
        ensures { result ≡ slice_index self.now.words.items place }
    {
        match self.words.get(place) {
            Some(word) => *word,
            None => unreachable!(),
        }
    }
}
