//! How many dialled digits each set of a difference has.

ghost use Rattle.std.specs.Prelude.{◌≡◌, ◌+◌, ◌*◌, ◌^◌, ◌<◌, ◌≤◌, [], IfOk, OnOk, replicate, sum};
ghost use Rattle.difference_counts.specs.Ahead.{HasPatternsOn, IsAhead, IsWhole};
ghost use Rattle.difference_counts.specs.Counted.{numbers_in};
ghost use Rattle.difference_counts.specs.Walk.{GrewBy, all_shorter, first_below, place_of};

use crate::ahead::Side;
use crate::counts::Counts;
use crate::gathering::all_of;
use crate::places::Places;
use crate::rests::count_branches;
use crate::walk::{Walk, visit_all};
use crate::ways::Ways;
use compiler::Tables;
use plan_difference::Sets;
use std::alloc::{AllocError, Global};

/// How many dialled digits, of all texts of 1 to 32 of `0` to `9`, `#` and `*`, belong to each of
/// these sets of two configurations: a number for each place. `AllocError` if memory is refused.
///
/// The digits are gone through character by character, as long as a technology prefix or the
/// literals of a zone prefix of either configuration go on; where nothing goes on only the length
/// matters. What follows a technology prefix that both configurations take off, or no prefix, is
/// gone through once for all of these that have one length, so at most twelve times: that takes at
/// most 33 look-ups for each first character, and for each different beginning of the literals and
/// of what longer technology prefixes have after these; besides, one for each first character and
/// each different beginning of a technology prefix. After each other technology prefix all literals
/// are gone through anew, unless it hops off in both, with at most 33 look-ups for each beginning.
/// At each beginning the next character of all that go on from it is looked at for each of the
/// twelve. Without a set there is nothing to count.
pub fn count(alloc: Global, old: &Tables, new: &Tables, sets: &Sets) -> Result<Counts, AllocError>
    ensures { IfOk result (λ counts.
        counts ≡ numbers_in old.now.commands new.now.commands sets.now) }
{
    if sets.is_empty() {
        return Ok(no_counts(alloc));
    }
    count_all(alloc, old, new, sets)
}

/// No number.
fn no_counts(alloc: Global) -> Counts
    ensures { result ≡ [] }
{
    Counts::new(Vec::new(alloc))
}

/// The same, whether or not there is a set.
fn count_all(alloc: Global, old: &Tables, new: &Tables, sets: &Sets) -> Result<Counts, AllocError>
    ensures { IfOk result (λ counts.
        counts ≡ numbers_in old.now.commands new.now.commands sets.now) }
{
    let places = Places::of(alloc, sets)?;
    let all = Ways {
        old: all_of(alloc, old)?,
        new: all_of(alloc, new)?,
    };
    let walk = Walk {
        alloc,
        old: Side {
            tables: old,
            patterns: &all.old.patterns,
        },
        new: Side {
            tables: new,
            patterns: &all.new.patterns,
        },
        places: &places,
    };
    let mut numbers = zeros(alloc, sets.len())?;
    count_whole(&mut numbers, &walk, &all)?;
    Ok(Counts::new(numbers))
}

/// Counts all digits: first those on the ways to technology prefixes, and then what leaves them.
fn count_whole(numbers: &mut [u128], walk: &Walk, all: &Ways) -> Result<(), AllocError>
    requires room { sum numbers.old + 12 * all_shorter 32 < 2 ^ 127 }
    requires old { IsWhole walk.now.old.tables.now.commands walk.now.old.patterns.now }
    requires new { IsWhole walk.now.new.tables.now.commands walk.now.new.patterns.now }
    requires old_all { IsAhead walk.now.old.tables.now.commands [] all.now.old.technology
        all.now.old.prefixes.items }
    requires new_all { IsAhead walk.now.new.tables.now.commands [] all.now.new.technology
        all.now.new.prefixes.items }
    requires old_patterns { HasPatternsOn walk.now.old.tables.now.commands []
        all.now.old.technology all.now.old.patterns.items }
    requires new_patterns { HasPatternsOn walk.now.new.tables.now.commands []
        all.now.new.technology all.now.new.patterns.items }
    ensures grew { OnOk result (GrewBy numbers.old numbers.new (first_below (place_of
        walk.now.old.tables.now.commands walk.now.new.tables.now.commands
        walk.now.places.now))) }
    ensures bounded { OnOk result (sum numbers.new ≤ sum numbers.old + 12 * all_shorter 32) }
{
    let mut branches = Vec::new(walk.alloc);
    visit_all(numbers, &mut branches, walk, all)?;
    count_branches(numbers, walk, &branches)?;
    Ok(())
}

/// So many zeros.
fn zeros(alloc: Global, count: usize) -> Result<Vec<u128>, AllocError>
    ensures { IfOk result (λ zeros. zeros.items ≡ replicate count 0) }
{
    vec![in alloc; 0; count]
}
