//! Which history a publisher, its readers and what it tells them belong to.

ghost use Rattle.std.specs.Prelude.{◌≡◌, []};
ghost use Rattle.publisher.specs.Law.{head_of};

use crate::entries::{Entry, Law};
use crate::fronts::{Front, Head, Stem};
use logbook::{Seen, Start, Word};
use std::marker::{Brand, Model};

/// The name of a history. A `Told` is of its own publisher's history by its type, so no other
/// publisher's reader can learn it. A program makes a `Blank` and picks the name by it: it passes
/// `Brand` to a function that is generic in the name and takes the blank.
pub trait Imprint {
    ghost use Rattle.logbook.specs.Pages.{Book};

    ghost book: { Book };
}

impl Imprint for Brand {
    ghost book = { record { number = 0; log_name = 0; cells_name = 0 } };
}

/// An empty history, which no publisher has yet. A contract sees the book that it is kept in. It
/// takes no memory.
#[derive(Drop)]
pub struct Blank {
    word: Word<Entry, u64, Law>,
    seen: Seen<Entry, u64, Law>,
}

impl Model for Blank {
    ghost use Rattle.std.specs.Prelude.{◌≡◌, []};
    ghost use Rattle.logbook.specs.Pages.{Book, book_coded};
    ghost use Rattle.publisher.specs.Law.{head_of};

    ghost Value = { Book };

    ghost coded = { book_coded };

    ghost view = { λ b. b.seen.book };

    ghost invariant = { λ b. (b.seen.log ≡ []) × (b.word ≡ head_of b.seen.book) };
}

impl Blank {
    /// A new history.
    pub fn new() -> Blank {
        let (seen, mut first, _second) = Seen::open(Start::alone(), 0, 0);
        Blank {
            word: Word::tracked(0, &mut first),
            seen,
        }
    }

    /// The history's word under its name, and the beginning that has no entry.
    pub(crate) fn named<J: Imprint>(self) -> (Head<J>, Front<J>)
        requires { self ≡ J.book }
        ensures { result.1 ≡ [] }
    {
        let Blank { word, seen } = self;
        (Head::new(word), Front::new(Stem::new(0, seen)))
    }
}
