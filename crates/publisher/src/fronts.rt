//! Beginnings of a history.

ghost use Rattle.std.specs.Prelude.{◌≡◌, ◌+◌, ◌<◌, ◌≤◌, ◌^◌, [], ◌∷◌, ◌++◌, length, IfSome, MatchBool};
ghost use mathlib.Core.List.{IsPrefix};
ghost use Rattle.publisher.specs.History.{IsLegalLog, MayFollow, generations_in};
ghost use Rattle.publisher.specs.Law.{head_of};

use crate::blanks::Imprint;
use crate::entries::{Add, Entry, Law, Nothing};
use compiler::Tables;
use logbook::{Offer, Plain, Seen, Word};
use std::marker::{Model, PhantomData};
use std::snapshot::Snapshot;

/// The word of a history, its length.
#[derive(Drop)]
pub(crate) struct Head<J: Imprint> {
    word: Word<Entry, u64, Law>,
    of: PhantomData<J>,
    ghost head_is: { word ≡ head_of J.book },
}

impl<J: Imprint> Head<J> {
    /// The word under the history's name.
    pub(crate) fn new(word: Word<Entry, u64, Law>) -> Head<J>
        requires { word ≡ head_of J.book }
    {
        Head {
            word,
            of: PhantomData,
        }
    }
}

/// A beginning of some history: how many entries it has.
#[derive(Drop)]
pub(crate) struct Stem {
    entries: u64,
    pub(crate) seen: Seen<Entry, u64, Law>,
    ghost counted: { entries ≡ length seen.log },
}

impl Stem {
    /// The beginning that was seen, which has so many entries.
    pub(crate) fn new(entries: u64, seen: Seen<Entry, u64, Law>) -> Stem
        requires { entries ≡ length seen.log }
        ensures { result.seen ≡ seen }
    {
        Stem { entries, seen }
    }

    /// A copy.
    pub(crate) fn again(&self) -> Stem
        ensures { result.seen ≡ self.now.seen }
    {
        Stem {
            entries: self.entries,
            seen: self.seen.again(),
        }
    }

    /// How many entries it has.
    pub(crate) fn len(&self) -> u64
        ensures { result ≡ length self.now.seen.log }
    {
        self.entries
    }
}

/// A beginning of this history. A contract sees its entries.
#[derive(Drop)]
pub(crate) struct Front<J: Imprint> {
    stem: Stem,
    of: PhantomData<J>,
}

impl<J: Imprint> Model for Front<J> {
    ghost use Rattle.std.specs.Prelude.{◌≡◌, List};
    ghost use Rattle.publisher.specs.declared.entries.Entry.{Entry};

    ghost Value = { List Entry };

    ghost view = { λ f. f.stem.seen.log };

    ghost invariant = { λ f. f.stem.seen.book ≡ J.book };
}

impl<J: Imprint> Front<J> {
    /// The beginning, if it is one of this history.
    pub(crate) fn new(stem: Stem) -> Front<J>
        requires { stem.seen.book ≡ J.book }
        ensures { result ≡ stem.seen.log }
    {
        Front {
            stem,
            of: PhantomData,
        }
    }

    /// A copy.
    pub(crate) fn again(&self) -> Front<J>
        ensures { result ≡ self.now }
    {
        Front {
            stem: self.stem.again(),
            of: PhantomData,
        }
    }

    /// The same without the history's name.
    pub(crate) fn stem(&self) -> Stem
        ensures log { result.seen.log ≡ self.now }
        ensures book { result.seen.book ≡ J.book }
    {
        self.stem.again()
    }

    /// How many entries it has.
    pub(crate) fn len(&self) -> u64
        ensures { result ≡ length self.now }
    {
        self.stem.len()
    }

    /// Of two beginnings of one history the shorter is a beginning of the longer, and both are
    /// legal. It does nothing when it runs.
    pub(crate) fn meet(&self, other: &Stem)
        requires { other.now.seen.book ≡ J.book }
        ensures shorter { length self.now ≤ length other.now.seen.log →
            IsPrefix self.now other.now.seen.log }
        ensures longer { length other.now.seen.log ≤ length self.now →
            IsPrefix other.now.seen.log self.now }
        ensures legal { IsLegalLog self.now }
    {
        let mut both = self.stem.seen.again();
        both.learn(&other.seen);
    }

    /// Whether this is the shorter of two beginnings. The shorter one's generations are a beginning
    /// of the longer one's.
    pub(crate) fn is_shorter(&self, other: &Front<J>) -> bool
        ensures { MatchBool result
            (IsPrefix (generations_in self.now) (generations_in other.now))
            (IsPrefix (generations_in other.now) (generations_in self.now)) }
    {
        self.meet(&other.stem);
        let mine = self.len();
        let others = other.len();
        if mine < others {
            return true;
        }
        false
    }

    /// This beginning and one more entry, if there was no other in the history.
    pub(crate) fn add<M: Plain<Snapshot<Tables>, Entry, u64>>(
        &self,
        head: &Head<J>,
        tables: &Snapshot<Tables>,
    ) -> Option<Front<J>>
        requires room { length self.now < 2 ^ 62 }
        requires legal { MayFollow self.now (M.ask tables.now) }
        ensures { IfSome result (λ front. front ≡ self.now ++ M.ask tables.now ∷ []) }
    {
        let entries = self.stem.entries;
        let mut seen = self.stem.seen.again();
        let mut offer: Offer<Entry, u64, Law, Nothing> = seen.plain::<Nothing, Snapshot<Tables>, M>(
            tables,
        );
        let mut pen = seen.no_pen();
        let found = head
            .word
            .compare_exchange::<Add, Nothing>(
                entries,
                entries + 1,
                &mut seen,
                &mut offer,
                &mut pen,
            );
        if found != entries {
            return None;
        }
        Some(Front::new(Stem::new(entries + 1, seen)))
    }
}
