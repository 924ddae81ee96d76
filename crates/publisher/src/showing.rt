//! The rule over what is shown, and the two copies under it.

use crate::blanks::Imprint;
use crate::publications::Publication;
use crossbeam_utils::rule::{Outcome, Protocol};
use gk_commands::Command;
use left_right::reader::Reader;
use left_right::writer::Writer;
use std::marker::PhantomData;

/// A list of generations. No value of it is made; a clause reads an array as a list, of any length.
pub(crate) type Generations = [[Command; 0]; 0];

/// What is shown is of this history, and each list that was seen is a beginning of the list that is
/// shown. A look takes the list that is shown, which goes on from the list that was seen before.
pub(crate) struct Shown<J: Imprint> {
    of: PhantomData<J>,
}

impl<J: Imprint> Protocol<Publication, Generations> for Shown<J> {
    ghost use Rattle.std.specs.Prelude.{◌≡◌, []};
    ghost use Rattle.publisher.specs.Publications.{list_of};
    ghost use Rattle.publisher.specs.Showing.{AllBegin};

    ghost holds = { λ shown views.
        (shown.stem.seen.book ≡ J.book) × AllBegin (list_of shown) views };

    ghost first = { [] };
}

impl<J: Imprint> Outcome<Publication, Generations> for Shown<J> {
    ghost use Rattle.std.specs.Prelude.{◌≡◌};
    ghost use mathlib.Core.List.{IsPrefix};
    ghost use Rattle.publisher.specs.Publications.{list_of};

    ghost then = { λ before _ shown after.
        (shown.stem.seen.book ≡ J.book) × IsPrefix before after × (after ≡ list_of shown) };
}

/// A reader's place at the two copies.
pub(crate) type Place<J> = Reader<Publication, Generations, Shown<J>>;

/// The two copies, as the publisher holds them.
pub(crate) type Copies<J> = Writer<Publication, Publication, Generations, Shown<J>>;
