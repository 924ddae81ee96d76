//! The dialled digits are gone through, and counted.

ghost use Rattle.std.specs.Prelude.{◌≡◌, ◌+◌, ◌*◌, ◌^◌, ◌<◌, ◌≤◌, [], OnOk, length, sum};
ghost use Rattle.compiler.specs.Technology.{found_length};
ghost use Rattle.plan_difference.specs.Sets.{is_joint};
ghost use Rattle.difference_counts.specs.Ahead.{AreAt, HasPatternsOn, IsAhead, IsWhole};
ghost use Rattle.difference_counts.specs.Branches.{GrewWith, weight};
ghost use Rattle.difference_counts.specs.Walk.{all_shorter, below, first_below, left_at, over_ends, place_by, place_of, rest_place};

use crate::ahead::Side;
use crate::branches::Branch;
use crate::characters::{CHARACTER_COUNT, CHARACTERS};
use crate::lengths::note_alike;
use crate::notes::note;
use crate::places::Places;
use crate::technologies::found_length;
use crate::texts::with_character;
use crate::ways::Ways;
use gk_terms::Dialled;
use std::alloc::{AllocError, Global};

/// What is asked while the digits are gone through.
#[derive(Clone, Copy)]
pub(crate) struct Walk<'a> {
    pub(crate) alloc: Global,
    pub(crate) old: Side<'a>,
    pub(crate) new: Side<'a>,
    pub(crate) places: &'a Places,
}

impl Walk<'_> {
    /// The place of the set to which the digits belong; or that of those which have them after a
    /// technology prefix that both configurations take off.
    pub(crate) fn place_by(&self, after_prefix: bool, digits: &Dialled) -> Option<usize>
        ensures { result ≡ place_by self.now.old.tables.now.commands
            self.now.new.tables.now.commands self.now.places.now after_prefix digits.now }
    {
        if after_prefix {
            self.places
                .rest_place(self.old.tables, self.new.tables, digits)
        } else {
            self.places
                .place_of(self.old.tables, self.new.tables, digits)
        }
    }
}

/// Counts all digits: those after each first character. What leaves the ways to longer technology
/// prefixes is put off.
pub(crate) fn visit_all(
    numbers: &mut [u128],
    branches: &mut Vec<Branch>,
    walk: &Walk,
    all: &Ways,
) -> Result<(), AllocError>
    requires room { sum numbers.old + weight branches.old.items + 12 * all_shorter 32 < 2 ^ 127 }
    requires old { IsWhole walk.now.old.tables.now.commands walk.now.old.patterns.now }
    requires new { IsWhole walk.now.new.tables.now.commands walk.now.new.patterns.now }
    requires old_all { IsAhead walk.now.old.tables.now.commands [] all.now.old.technology
        all.now.old.prefixes.items }
    requires new_all { IsAhead walk.now.new.tables.now.commands [] all.now.new.technology
        all.now.new.prefixes.items }
    requires old_patterns { HasPatternsOn walk.now.old.tables.now.commands []
        all.now.old.technology all.now.old.patterns.items }
    requires new_patterns { HasPatternsOn walk.now.new.tables.now.commands []
        all.now.new.technology all.now.new.patterns.items }
    ensures grew { OnOk result (GrewWith (rest_place walk.now.old.tables.now.commands
        walk.now.new.tables.now.commands walk.now.places.now) numbers.old branches.old.items
        numbers.new branches.new.items (first_below (place_of
        walk.now.old.tables.now.commands walk.now.new.tables.now.commands
        walk.now.places.now))) }
    ensures bounded { OnOk result (sum numbers.new + weight branches.new.items
        ≤ sum numbers.old + weight branches.old.items + 12 * all_shorter 32) }
{
    for character in CHARACTERS {
        let first = with_character(b"", character);
        let ways = all.next(walk, b"", character, &first)?;
        visit(numbers, branches, walk, &first, 31, &ways)?;
    }
    Ok(())
}

/// Counts the front, and all digits that go on from it with at most so many characters. What leaves
/// the ways to longer technology prefixes is put off.
pub(crate) fn visit(
    numbers: &mut [u128],
    branches: &mut Vec<Branch>,
    walk: &Walk,
    front: &Dialled,
    most: usize,
    ways: &Ways,
) -> Result<(), AllocError>
    requires length { length front.now + most ≡ 32 }
    requires room { sum numbers.old + weight branches.old.items + all_shorter (most + 1)
        < 2 ^ 127 }
    requires old { IsWhole walk.now.old.tables.now.commands walk.now.old.patterns.now }
    requires new { IsWhole walk.now.new.tables.now.commands walk.now.new.patterns.now }
    requires at { AreAt walk.now.old.tables.now.commands walk.now.new.tables.now.commands
        front.now ways.now.old.technology ways.now.old.prefixes.items
        ways.now.old.patterns.items ways.now.new.technology ways.now.new.prefixes.items
        ways.now.new.patterns.items }
    ensures grew { OnOk result (GrewWith (rest_place walk.now.old.tables.now.commands
        walk.now.new.tables.now.commands walk.now.places.now) numbers.old branches.old.items
        numbers.new branches.new.items (below (place_of walk.now.old.tables.now.commands
        walk.now.new.tables.now.commands walk.now.places.now) front.now most)) }
    ensures bounded { OnOk result (sum numbers.new + weight branches.new.items
        ≤ sum numbers.old + weight branches.old.items + all_shorter (most + 1)) }
{
    note(numbers, walk.place_by(false, front), 1);
    if most == 0 {
        return Ok(());
    }
    let text = front.as_bytes();
    let ends = ways.ends(text.len());
    for number in 0..CHARACTER_COUNT {
        if !ends[number] {
            let character = CHARACTERS[number];
            let longer = with_character(text, character);
            let next = ways.next(walk, text, character, &longer)?;
            visit(numbers, branches, walk, &longer, most - 1, &next)?;
        }
    }
    leave(numbers, branches, walk, front, most, ways, &ends)?;
    Ok(())
}

/// Counts the digits that go on from a front with at most so many characters, the first of which is
/// one with which nothing goes on; or puts them off, if both configurations have found the same
/// technology prefix for it, or none, and digits hop off in neither.
fn leave(
    numbers: &mut [u128],
    branches: &mut Vec<Branch>,
    walk: &Walk,
    front: &Dialled,
    most: usize,
    ways: &Ways,
    ends: &[bool; CHARACTER_COUNT],
) -> Result<(), AllocError>
    requires length { length front.now + most ≡ 32 }
    requires some { 1 ≤ most }
    requires within { found_length ways.now.old.technology ≤ length front.now }
    requires room { sum numbers.old + weight branches.old.items
        + over_ends ends.now (λ number. all_shorter most) < 2 ^ 127 }
    ensures grew { OnOk result (GrewWith (rest_place walk.now.old.tables.now.commands
        walk.now.new.tables.now.commands walk.now.places.now) numbers.old branches.old.items
        numbers.new branches.new.items (λ place. over_ends ends.now (λ number. left_at
        walk.now.old.tables.now.commands walk.now.new.tables.now.commands
        walk.now.places.now (is_joint walk.now.old.tables.now.commands
        walk.now.new.tables.now.commands ways.now.old.technology ways.now.new.technology)
        (found_length ways.now.old.technology) front.now most number place))) }
    ensures bounded { OnOk result (sum numbers.new + weight branches.new.items
        ≤ sum numbers.old + weight branches.old.items
        + over_ends ends.now (λ number. all_shorter most)) }
{
    if ways.is_joint(walk) {
        let taken = found_length(&ways.old.technology);
        // So it is known that its characters may be dialled.
        let _text = front.as_bytes();
        branches.push(Branch::new(front, taken, ends))?;
        return Ok(());
    }
    note_alike(numbers, walk, false, front, most, how_many(ends));
    Ok(())
}

/// For how many characters it is so.
fn how_many(ends: &[bool; CHARACTER_COUNT]) -> u128
    ensures { result ≡ over_ends ends.now (λ number. 1) }
{
    let mut count = 0;
    for number in 0..CHARACTER_COUNT {
        if ends[number] {
            count += 1;
        }
    }
    count
}
