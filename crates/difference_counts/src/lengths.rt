//! Digits of which only the length matters.

ghost use Rattle.std.specs.Prelude.{◌+◌, ◌*◌, ◌^◌, ◌<◌, ◌≤◌, length, sum};
ghost use Rattle.difference_counts.specs.Walk.{GrewBy, all_shorter, alike_below, place_by};

use crate::notes::note;
use crate::texts::starred;
use crate::walk::Walk;
use gk_terms::Dialled;

/// Counts the digits that go on from a front with at most so many characters, as often as is said,
/// if only their length matters.
pub(crate) fn note_alike(
    numbers: &mut [u128],
    walk: &Walk,
    after_prefix: bool,
    front: &Dialled,
    most: usize,
    times: u128,
)
    requires length { length front.now + most ≤ 32 }
    requires room { sum numbers.old + times * all_shorter most < 2 ^ 127 }
    ensures grew { GrewBy numbers.old numbers.new (λ place. times * alike_below
        (place_by walk.now.old.tables.now.commands walk.now.new.tables.now.commands
        walk.now.places.now after_prefix) front.now most place) }
    ensures bounded { sum numbers.new ≤ sum numbers.old + times * all_shorter most }
{
    let mut count: u128 = 1;
    for more in 0..most {
        note(
            numbers,
            walk.place_by(after_prefix, &starred(front, more + 1)),
            times * count,
        );
        count *= 12;
    }
}
