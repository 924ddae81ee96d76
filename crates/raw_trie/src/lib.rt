//! A digit trie in one block of memory: a table of patterns whose look-up looks at a bounded number
//! of nodes, whatever the number of patterns.
#![tactic(auto)]

mod block;
mod draft;
mod meaning;
mod memory;
pub mod trie;
mod walk;

pub use trie::{RawTrie, TrieFault};
