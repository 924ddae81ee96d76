//! What a trie means: a list of rows that proofs alone see.

ghost use Rattle.std.specs.Prelude.{◌≡◌, ℕ, List, [], ◌∷◌, ◌++◌};
ghost use Rattle.std.specs.Borrow.{ftrue};
ghost use Rattle.digit_patterns.specs.PatternParts.{PatternParts};

use digit_patterns::Pattern;
use std::marker::Model;

/// The rows of a trie, in their order. It takes no memory, and its methods do nothing.
#[derive(Drop)]
pub(crate) struct Meaning {
    ghost rows: { List (PatternParts × ℕ) },
}

impl Model for Meaning {
    ghost also_owns = { λ _. ftrue };
}

// A meaning owns nothing, so it may cross threads.
unsafe impl Send for Meaning {}

unsafe impl Sync for Meaning {}

impl Meaning {
    /// No row.
    pub(crate) fn new() -> Meaning
        ensures { result.rows ≡ [] }
    {
        Meaning {}
    }

    /// One row more.
    pub(crate) fn with(&self, _row: &(Pattern, u32)) -> Meaning
        ensures { result.rows ≡ self.now.rows ++ _row.now ∷ [] }
    {
        Meaning {}
    }
}
