//! What a desk and its seats agree on.

use publisher::Imprint;
use std::marker::Brand;
use std::sync::ledger::Ledger;

/// What a desk and its seats agree on: the ledger of recorded events with all its parts, the
/// publisher's history, and what the core was opened with. A seat of one desk can't be used with
/// another one, since what the parameters of the two stand for differs.
pub trait House: Ledger + Imprint {
    ghost use Rattle.std.specs.Prelude.{ℕ, List};
    ghost use Rattle.gk_commands.specs.declared.commands.Command.{Command};
    ghost use Rattle.rulings.specs.declared.limits.Limits.{Limits};

    /// All parts of the ledger: one for each seat that there may be.
    ghost all: { ℕ };

    /// The commands that the core was opened with.
    ghost begun: { List Command };

    /// The limits of the core.
    ghost limits: { Limits };
}

// Whoever makes a desk picks what this stands for there.
impl House for Brand {
    ghost use Rattle.std.specs.Prelude.{[]};

    ghost all = { 0 };

    ghost begun = { [] };

    ghost limits = { record { endpoints = 0; calls = 0; records = 0; reloads = 0 } };
}
