//! Lines of configurations that are kept once.

ghost use Rattle.std.specs.Prelude.{◌≡◌, ◌<◌, ◌≤◌, ◌+◌, [], true, length, slice_get, Some, IfSome, OnOk, OnErr};
ghost use Rattle.pieces.specs.declared.list.TheConstants.{PIECE_ITEMS};
ghost use Rattle.decision_record.specs.Reloads.{KeepsTexts};

use gk_commands::CommandLines;
use pieces::Pieces;
use std::alloc::{AllocError, Global};
use std::marker::Model;

/// How many of the last texts are looked at for the same one.
const LOOKED_AT: usize = 16;

/// Lines of a configuration, with a hash of them. A contract sees the commands that they say.
#[derive(Drop)]
struct KnownText {
    hash: u64,
    lines: CommandLines,
}

impl Model for KnownText {
    ghost use Rattle.std.specs.Prelude.{List};
    ghost use Rattle.gk_commands.specs.declared.commands.Command.{Command};

    ghost Value = { List Command };

    ghost view = { λ t. t.lines };
}

impl KnownText {
    /// That of these lines.
    fn of(lines: CommandLines) -> KnownText
        ensures { result ≡ lines }
    {
        let hash = lines.text_hash();
        KnownText { hash, lines }
    }

    /// The lines.
    fn lines(&self) -> &CommandLines
        ensures { result.now ≡ self.now }
    {
        &self.lines
    }

    /// Whether its lines are the same as those of the other one, byte by byte.
    fn is_same(&self, other: &KnownText) -> bool
        ensures { result ≡ true → self.now ≡ other.now }
    {
        self.hash == other.hash && self.lines.is_same_text(&other.lines)
    }
}

/// The lines of past configurations. Lines that come again are not kept again if the same text,
/// byte by byte, is among the 16 that were kept last. No contract says that any are shared, since
/// that only saves memory. A contract sees what the texts say, in order, and for how many further
/// ones there is room without memory.
#[derive(Drop)]
pub struct KnownLines {
    texts: Pieces<KnownText>,
}

impl Model for KnownLines {
    ghost use Rattle.std.specs.Prelude.{List};
    ghost use Rattle.gk_commands.specs.declared.commands.Command.{Command};
    ghost use Rattle.pieces.specs.Pieces.{PiecesParts};

    ghost Value = { PiecesParts (List Command) };

    ghost view = { λ k. k.texts };
}

impl KnownLines {
    /// No lines, and no room. It takes no memory.
    pub fn new(alloc: Global) -> KnownLines
        ensures { result ≡ record { items = []; room = 0 } }
    {
        KnownLines {
            texts: Pieces::new(alloc),
        }
    }

    /// The lines at this place.
    pub fn get(&self, place: usize) -> &CommandLines
        requires { place < length self.now.items }
        ensures { slice_get self.now.items place ≡ Some result.now }
    {
        match self.texts.get(place) {
            Some(text) => text.lines(),
            None => unreachable!(),
        }
    }

    /// Makes room for this many further texts. If memory runs out, nothing changes.
    pub fn reserve(&mut self, places: usize) -> Result<(), AllocError>
        requires near { places ≤ self.old.room + PIECE_ITEMS }
        ensures texts { self.new.items ≡ self.old.items }
        ensures room { self.old.room ≤ self.new.room }
        ensures ok { OnOk result (places ≤ self.new.room) }
        ensures still { places ≤ self.old.room → self.new ≡ self.old }
        ensures most { OnOk result (self.new.room ≤ self.old.room + PIECE_ITEMS) }
        ensures err { OnErr result ((self.new ≡ self.old) × (self.old.room < places)) }
    {
        self.texts.reserve(places)
    }

    /// The place of these lines: that of the same text, or else at the end, in room that was
    /// reserved. It takes no memory.
    pub fn put(&mut self, lines: CommandLines) -> usize
        requires { 1 ≤ self.old.room }
        ensures there { slice_get self.new.items result ≡ Some lines }
        ensures kept { KeepsTexts self.old self.new }
    {
        let text = KnownText::of(lines);
        match self.place_of(&text) {
            Some(place) => place,
            None => {
                let place = self.texts.len();
                self.texts.push(text);
                place
            }
        }
    }

    /// The place of the same text, if it is among the last ones.
    fn place_of(&self, text: &KnownText) -> Option<usize>
        ensures { IfSome result (λ place. slice_get self.now.items place ≡ Some text.now) }
    {
        let end = self.texts.len();
        for place in end.saturating_sub(LOOKED_AT)..end {
            if self.is_at(place, text) {
                return Some(place);
            }
        }
        None
    }

    /// Whether the same text stands at this place.
    fn is_at(&self, place: usize, text: &KnownText) -> bool
        ensures { result ≡ true → slice_get self.now.items place ≡ Some text.now }
    {
        match self.texts.get(place) {
            Some(known) => known.is_same(text),
            None => false,
        }
    }
}
