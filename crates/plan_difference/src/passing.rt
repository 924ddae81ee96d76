//! For one stem after another, a technology prefix is found such that digits of both begin with no
//! longer declared one. What is known of those that are passed over is kept as far as two stems have
//! their first characters in common, so that they are not looked up again.

ghost use Rattle.std.specs.Prelude.{◌≡◌, ◌+◌, ◌<◌, ◌≤◌, length, slice_get, slice_index_or, slice_set};
ghost use Rattle.std.specs.List.{SwappedAt};
ghost use Rattle.std.specs.List.Sorted.{IsPermutation};
ghost use Rattle.plan_difference.specs.Blocked.{ArePassed, AreKept, AreRaised, AreRising, IsFound, one_more};

use crate::reach::reach_at;
use compiler::Tables;
use gk_terms::TechPrefix;
use gk_terms::limits::MOST_DIALLED;

/// How many characters of a stem may be looked at, and one more for none.
pub(crate) const LEVELS: usize = MOST_DIALLED + 1;

/// One of these technology prefixes, of the same length, such that digits of it and this stem begin
/// with no longer declared one, or one that is too long with it. None if there is none.
///
/// Those that are passed over are put first. `firsts` has, for each number of characters, how many
/// are passed over for each stem that begins with so many of this one. One that a longer declared one
/// takes up to so many characters of the stem is passed over for so many and more, and stands in the
/// place of the first that was not.
pub(crate) fn find(
    old: &Tables,
    new: &Tables,
    heads: &mut [Option<TechPrefix>],
    firsts: &mut [usize; LEVELS],
    stem: &[u8],
) -> Option<Option<TechPrefix>>
    requires some { 0 < length stem.now }
    requires few { length stem.now ≤ 32 }
    requires passed { ArePassed old.now.commands new.now.commands heads.old firsts.old stem.now }
    requires rising { AreRising firsts.old }
    ensures passed { ArePassed old.now.commands new.now.commands heads.new firsts.new stem.now }
    ensures rising { AreRising firsts.new }
    ensures moved { IsPermutation heads.old heads.new }
    ensures found { IsFound old.now.commands new.now.commands heads.new stem.now result }
{
    let start = first_at(firsts, MOST_DIALLED);
    for place in start..heads.len() {
        match reach_at(old, new, heads, place, stem) {
            Some(level) => pass(heads, firsts, level, place, place + 1),
            None => return copied_at(heads, place),
        }
    }
    None
}

/// The technology prefix at a place.
fn copied_at(heads: &[Option<TechPrefix>], place: usize) -> Option<Option<TechPrefix>>
    ensures { result ≡ slice_get heads.now place }
{
    heads.get(place).copied()
}

/// How many are passed over for so many characters.
fn first_at(firsts: &[usize; LEVELS], level: usize) -> usize
    requires { level < 33 }
    ensures { result ≡ slice_index_or firsts.now level 0 }
{
    firsts[level]
}

/// Passes over the technology prefix at a place, the first that is not, for so many characters and
/// more.
fn pass(
    heads: &mut [Option<TechPrefix>],
    firsts: &mut [usize; LEVELS],
    least: usize,
    place: usize,
    next: usize,
)
    requires first { place ≡ slice_index_or firsts.old 32 0 }
    requires least { least ≤ 32 }
    requires within { place < length heads.old }
    requires next { next ≡ place + 1 }
    requires rising { AreRising firsts.old }
    ensures swapped { SwappedAt heads.old heads.new (slice_index_or firsts.old least 0) place }
    ensures moved { IsPermutation heads.old heads.new }
    ensures raised { AreRaised least place (slice_index_or firsts.old least 0)
        firsts.old firsts.new }
{
    let other = first_at(firsts, least);
    heads.swap(other, place);
    raise(firsts, least, place, other, next);
}

/// Of those that are passed over for so many characters and more, one more.
fn raise(firsts: &mut [usize; LEVELS], least: usize, place: usize, other: usize, next: usize)
    requires first { place ≡ slice_index_or firsts.old 32 0 }
    requires next { next ≡ place + 1 }
    requires rising { AreRising firsts.old }
    ensures { AreRaised least place other firsts.old firsts.new }
{
    for level in least..LEVELS {
        raise_at(firsts, level, place, other, next);
    }
}

/// The same for so many characters alone.
fn raise_at(firsts: &mut [usize; LEVELS], level: usize, place: usize, other: usize, next: usize)
    requires level { level < 33 }
    requires next { next ≡ place + 1 }
    requires within { slice_index_or firsts.old level 0 ≤ place }
    ensures known { length firsts.old ≡ 33 }
    ensures write { firsts.new ≡ slice_set firsts.old level
        (one_more place other (slice_index_or firsts.old level 0)) }
{
    let first = first_at(firsts, level);
    firsts[level] = one_more(first, place, other, next);
}

/// One more, if it is one of two places.
fn one_more(first: usize, place: usize, other: usize, next: usize) -> usize
    requires next { next ≡ place + 1 }
    requires within { first ≤ place }
    ensures { result ≡ one_more place other first }
{
    if first == place || first == other {
        first + 1
    } else {
        first
    }
}

/// Leaves what is known of a stem with so many characters in common.
pub(crate) fn keep(firsts: &mut [usize; LEVELS], common: usize)
    requires { common ≤ 32 }
    ensures { AreKept common firsts.old firsts.new }
{
    for level in common + 1..LEVELS {
        copy_at(firsts, common, level);
    }
}

/// Writes the number at one place over that at another.
fn copy_at(firsts: &mut [usize; LEVELS], from: usize, to: usize)
    requires from { from < 33 }
    requires to { to < 33 }
    ensures known { length firsts.old ≡ 33 }
    ensures write { firsts.new ≡ slice_set firsts.old to (slice_index_or firsts.old from 0) }
{
    firsts[to] = firsts[from];
}
