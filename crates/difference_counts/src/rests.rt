//! What was put off is counted: digits after a technology prefix that both configurations take off,
//! by what is after the prefix, and all of them together that have a prefix of the same length.

ghost use Rattle.std.specs.Prelude.{◌≡◌, ◌+◌, ◌*◌, ◌^◌, ◌<◌, ◌≤◌, ◌++◌, ◌||◌, [], IfOk, OnOk, length, sum};
ghost use Rattle.std.specs.List.{list_any};
ghost use Rattle.difference_counts.specs.Ahead.{AreLiteral, IsWhole, pattern_has_at};
ghost use Rattle.difference_counts.specs.Branches.{AreOn, all_branched, branch_has_at, weight};
ghost use Rattle.difference_counts.specs.Walk.{GrewBy, all_shorter, below, rest_place};

use crate::ahead::{any_pattern, patterns_with};
use crate::branches::{Branch, any_branch, branches_of, branches_with, leaving_at};
use crate::characters::{CHARACTER_COUNT, CHARACTERS};
use crate::lengths::note_alike;
use crate::notes::note;
use crate::texts::with_character;
use crate::walk::Walk;
use digit_patterns::Pattern;
use gk_terms::Dialled;
use gk_terms::limits::MOST_DIALLED;
use std::alloc::{AllocError, Global};

/// Counts all that leaves at these branches.
pub(crate) fn count_branches(
    numbers: &mut [u128],
    walk: &Walk,
    branches: &[Branch],
) -> Result<(), AllocError>
    requires room { sum numbers.old + weight branches.now < 2 ^ 127 }
    requires old { IsWhole walk.now.old.tables.now.commands walk.now.old.patterns.now }
    requires new { IsWhole walk.now.new.tables.now.commands walk.now.new.patterns.now }
    ensures grew { OnOk result (GrewBy numbers.old numbers.new (all_branched (rest_place
        walk.now.old.tables.now.commands walk.now.new.tables.now.commands
        walk.now.places.now) branches.now)) }
    ensures bounded { OnOk result (sum numbers.new ≤ sum numbers.old + weight branches.now) }
{
    let patterns = joined(walk.alloc, walk.old.patterns, walk.new.patterns)?;
    for room in 0..MOST_DIALLED + 1 {
        let some = branches_of(walk.alloc, branches, room)?;
        visit_rests(numbers, walk, room, &patterns, &some)?;
    }
    Ok(())
}

/// The patterns of both.
fn joined(alloc: Global, old: &[Pattern], new: &[Pattern]) -> Result<Vec<Pattern>, AllocError>
    ensures { IfOk result (λ patterns. patterns.items ≡ old.now ++ new.now) }
{
    let mut patterns = Vec::from_slice(alloc, old)?;
    patterns.extend_from_slice(new)?;
    Ok(patterns)
}

/// Counts all that leaves at these branches, after whose technology prefixes so many characters may
/// follow: what follows, by its first character.
fn visit_rests(
    numbers: &mut [u128],
    walk: &Walk,
    room: usize,
    patterns: &[Pattern],
    branches: &[Branch],
) -> Result<(), AllocError>
    requires few { room ≤ 32 }
    requires room { sum numbers.old + weight branches.now < 2 ^ 127 }
    requires old { AreLiteral walk.now.old.tables.now.commands }
    requires new { AreLiteral walk.now.new.tables.now.commands }
    requires on { AreOn walk.now.old.tables.now.commands walk.now.new.tables.now.commands
        [] room patterns.now branches.now }
    ensures grew { OnOk result (GrewBy numbers.old numbers.new (all_branched (rest_place
        walk.now.old.tables.now.commands walk.now.new.tables.now.commands
        walk.now.places.now) branches.now)) }
    ensures bounded { OnOk result (sum numbers.new ≤ sum numbers.old + weight branches.now) }
{
    if branches.is_empty() {
        return Ok(());
    }
    if room == 0 {
        return Ok(());
    }
    for number in 0..CHARACTER_COUNT {
        let character = CHARACTERS[number];
        let times = leaving_at(branches, 0, number) as u128;
        let first = with_character(b"", character);
        let ahead = patterns_with(walk.alloc, patterns, 0, character)?;
        let on = branches_with(walk.alloc, branches, 0, character)?;
        visit_rest(numbers, walk, &first, room - 1, times, &ahead, &on)?;
    }
    Ok(())
}

/// Counts a rest, and all that go on from it with at most so many characters, as often as is said,
/// and what leaves at these branches.
fn visit_rest(
    numbers: &mut [u128],
    walk: &Walk,
    rest: &Dialled,
    most: usize,
    times: u128,
    patterns: &[Pattern],
    branches: &[Branch],
) -> Result<(), AllocError>
    requires length { length rest.now + most ≤ 32 }
    requires room { sum numbers.old + (times * all_shorter (most + 1) + weight branches.now)
        < 2 ^ 127 }
    requires old { AreLiteral walk.now.old.tables.now.commands }
    requires new { AreLiteral walk.now.new.tables.now.commands }
    requires on { AreOn walk.now.old.tables.now.commands walk.now.new.tables.now.commands
        rest.now most patterns.now branches.now }
    ensures grew { OnOk result (GrewBy numbers.old numbers.new (λ place. times * below
        (rest_place walk.now.old.tables.now.commands walk.now.new.tables.now.commands
        walk.now.places.now) rest.now most place + all_branched (rest_place
        walk.now.old.tables.now.commands walk.now.new.tables.now.commands
        walk.now.places.now) branches.now place)) }
    ensures bounded { OnOk result (sum numbers.new
        ≤ sum numbers.old + (times * all_shorter (most + 1) + weight branches.now)) }
{
    note(numbers, walk.place_by(true, rest), times);
    if most == 0 {
        return Ok(());
    }
    let text = rest.as_bytes();
    let mut alike = 0;
    for number in 0..CHARACTER_COUNT {
        let character = CHARACTERS[number];
        let here = times + leaving_at(branches, text.len(), number) as u128;
        if is_ahead(patterns, branches, text.len(), character) {
            let longer = with_character(text, character);
            let ahead = patterns_with(walk.alloc, patterns, text.len(), character)?;
            let on = branches_with(walk.alloc, branches, text.len(), character)?;
            visit_rest(numbers, walk, &longer, most - 1, here, &ahead, &on)?;
        } else {
            alike += here;
        }
    }
    note_alike(numbers, walk, true, rest, most, alike);
    Ok(())
}

/// Whether a pattern or a branch goes on with a character at a place.
fn is_ahead(patterns: &[Pattern], branches: &[Branch], place: usize, character: u8) -> bool
    ensures { result ≡ (list_any (pattern_has_at place character) patterns.now
        || list_any (branch_has_at place character) branches.now) }
{
    any_pattern(patterns, place, character) || any_branch(branches, place, character)
}
