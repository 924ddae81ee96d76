//! What a publisher tells its readers.

use crate::blanks::Imprint;
use crate::fronts::Front;
use std::marker::Model;

/// That the publications of a list were made. A reader of the same publisher learns it, and reads
/// the last of them or a later one from then on. It takes no memory. A contract sees the list of
/// generations.
#[derive(Drop)]
pub struct Told<J: Imprint> {
    front: Front<J>,
}

impl<J: Imprint> Model for Told<J> {
    ghost use Rattle.std.specs.Prelude.{◌≡◌, List, true};
    ghost use Rattle.gk_commands.specs.declared.commands.Command.{Command};
    ghost use Rattle.publisher.specs.History.{generations_in, is_in_force};

    ghost Value = { List (List Command) };

    ghost view = { λ t. generations_in t.front };

    ghost invariant = { λ t. is_in_force t.front ≡ true };
}

impl<J: Imprint> Told<J> {
    ghost use Rattle.std.specs.Prelude.{◌≡◌, true};
    ghost use Rattle.publisher.specs.History.{generations_in, is_in_force};

    /// Tells of the entries of this beginning, whose last draft is in force. Of a draft that was
    /// refused nothing is told: its reader would be lost.
    pub(crate) fn new(front: Front<J>) -> Told<J>
        requires { is_in_force front ≡ true }
        ensures { result ≡ generations_in front }
    {
        Told { front }
    }

    /// The beginning that it tells of.
    pub(crate) fn into_front(self) -> Front<J>
        ensures list { generations_in result ≡ self }
        ensures in_force { is_in_force result ≡ true }
    {
        let Told { front } = self;
        front
    }
}
