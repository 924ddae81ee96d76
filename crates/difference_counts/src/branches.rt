//! Where digits leave the ways to longer technology prefixes that begin with theirs.

ghost use Rattle.std.specs.Prelude.{◌≡◌, ◌<◌, ◌≤◌, IfOk, length};
ghost use Rattle.std.specs.List.{count_by, filter, list_any};
ghost use Rattle.difference_counts.specs.Branches.{branch_has_at, has_flag, has_room, leaves_at, rest_in, room_of};

use crate::characters::{CHARACTER_COUNT, has_at};
use gk_terms::Dialled;
use gk_terms::limits::MOST_DIALLED;
use std::alloc::{AllocError, Global};
use std::marker::Model;

/// A front of dialled characters, after a technology prefix that both configurations take off, or
/// after none, and the characters with which digits leave there the ways to longer prefixes. All
/// digits that do have their set by what is after the prefix alone.
#[derive(Clone, Copy)]
pub(crate) struct Branch {
    front: Dialled,
    /// How many characters the technology prefix has.
    taken: usize,
    /// Of each character, whether digits leave with it.
    leaving: [bool; CHARACTER_COUNT],
}

impl Model for Branch {
    ghost use Rattle.std.specs.Prelude.{◌≤◌, length};
    ghost use Rattle.difference_counts.specs.Branches.{Branching};

    ghost Value = { Branching };

    ghost view = { λ b. (b.front, (b.taken, b.leaving)) };

    ghost invariant = { λ b. b.taken ≤ length b.front };

    ghost inverse = { λ v. record { front = v.0; taken = v.1.0; leaving = v.1.1 } };
}

impl Branch {
    /// This front.
    pub(crate) fn new(front: &Dialled, taken: usize, leaving: &[bool; CHARACTER_COUNT]) -> Branch
        requires { taken ≤ length front.now }
        ensures front { result.0 ≡ front.now }
        ensures taken { result.1.0 ≡ taken }
        ensures leaving { result.1.1 ≡ leaving.now }
    {
        Branch {
            front: *front,
            taken,
            leaving: *leaving,
        }
    }

    /// What is after the technology prefix.
    fn rest(&self) -> &[u8]
        ensures { result.now ≡ rest_in self.now }
    {
        &self.front.as_bytes()[self.taken..]
    }

    /// Whether so many characters may follow the technology prefix.
    fn has_room(&self, room: usize) -> bool
        ensures { result ≡ has_room room self.now }
    {
        self.room() == room
    }

    /// How many characters may follow the technology prefix.
    fn room(&self) -> usize
        ensures { result ≡ room_of self.now }
    {
        MOST_DIALLED.saturating_sub(self.taken)
    }

    /// Whether so many characters are after the technology prefix, and digits leave with the
    /// character of this number.
    fn leaves_at(&self, place: usize, number: usize) -> bool
        requires { number < 12 }
        ensures { result ≡ leaves_at place number self.now }
    {
        self.rest().len() == place && self.leaves(number)
    }

    /// Whether digits leave with the character of this number.
    fn leaves(&self, number: usize) -> bool
        requires { number < 12 }
        ensures { result ≡ has_flag number self.now }
    {
        self.leaving[number]
    }

    /// Whether what is after the technology prefix has a character at a place.
    fn has_at(&self, place: usize, character: u8) -> bool
        ensures { result ≡ branch_has_at place character self.now }
    {
        has_at(self.rest(), place, character)
    }
}

/// Those of these branches where so many characters may follow the technology prefix.
pub(crate) fn branches_of(
    alloc: Global,
    branches: &[Branch],
    room: usize,
) -> Result<Vec<Branch>, AllocError>
    ensures { IfOk result (λ kept. kept.items ≡ filter (has_room room) branches.now) }
{
    let mut kept = Vec::new(alloc);
    for branch in branches {
        if branch.has_room(room) {
            kept.push(*branch)?;
        }
    }
    Ok(kept)
}

/// Those of these branches that have a character at a place after the technology prefix.
pub(crate) fn branches_with(
    alloc: Global,
    branches: &[Branch],
    place: usize,
    character: u8,
) -> Result<Vec<Branch>, AllocError>
    ensures { IfOk result (λ kept.
        kept.items ≡ filter (branch_has_at place character) branches.now) }
{
    let mut kept = Vec::new(alloc);
    for branch in branches {
        if branch.has_at(place, character) {
            kept.push(*branch)?;
        }
    }
    Ok(kept)
}

/// Whether one of these branches has a character at a place after the technology prefix.
pub(crate) fn any_branch(branches: &[Branch], place: usize, character: u8) -> bool
    ensures { result ≡ list_any (branch_has_at place character) branches.now }
{
    branches
        .iter()
        .any(|branch| branch.has_at(place, character))
}

/// At how many of these branches with so many characters after the technology prefix digits leave
/// with the character of this number.
pub(crate) fn leaving_at(branches: &[Branch], place: usize, number: usize) -> usize
    requires { number < 12 }
    ensures { result ≡ count_by (leaves_at place number) branches.now }
{
    branches
        .iter()
        .filter(|branch| branch.leaves_at(place, number))
        .count()
}
