//! The history of publications. It exists in proofs alone: at run time it is one word, its length.

use compiler::Tables;
use gk_commands::Command;
use logbook::{Gain, Plain, Play, Rule};
use std::snapshot::Snapshot;

/// An entry is the draft of a publication that is about to be shown, or says that the draft just
/// before it was shown and is in force. No value of it is made.
pub(crate) struct Entry {
    pub(crate) in_force: bool,
    /// A clause reads an array as a list, of any length.
    pub(crate) commands: [Command; 0],
}

/// What holds of the history: its length is in the word, and each entry in force has its draft just
/// before it.
pub(crate) struct Law;

impl Rule<Entry, u64> for Law {
    ghost use Rattle.std.specs.Prelude.{[]};
    ghost use base.Fml.{ftrue};
    ghost use Rattle.publisher.specs.Law.{IsKept};

    ghost holds = { λ cells log. IsKept cells log };

    ghost first = { [] };

    ghost hinted = { λ n log. Unit {0} };

    ghost shows = { λ log. [] };

    ghost keeps = { λ names log. ftrue };

    ghost moves = { λ ask before after answer. Unit {0} };
}

/// A step trades nothing.
pub(crate) struct Nothing;

impl Gain<Entry, u64> for Nothing {
    ghost use base.Fml.{ftrue};

    ghost after = { λ names about answer. ftrue };
}

/// A step that adds an entry.
pub(crate) struct Add;

impl Play<Entry, u64> for Add {
    ghost use Rattle.publisher.specs.Law.{AddsEntry};

    ghost then = { AddsEntry };
}

/// The entry is the draft of these tables.
pub(crate) struct Drafts;

impl Plain<Snapshot<Tables>, Entry, u64> for Drafts {
    ghost use Rattle.std.specs.Prelude.{None};
    ghost use Rattle.publisher.specs.History.{draft_of};

    ghost ask = { λ tables. draft_of tables.value.commands };

    ghost state = { λ tables. None };
}

/// The entry says that these tables are in force.
pub(crate) struct Confirms;

impl Plain<Snapshot<Tables>, Entry, u64> for Confirms {
    ghost use Rattle.std.specs.Prelude.{None};
    ghost use Rattle.publisher.specs.History.{confirmation_of};

    ghost ask = { λ tables. confirmation_of tables.value.commands };

    ghost state = { λ tables. None };
}
