//! Whether digits of a technology prefix and a stem begin with a longer declared prefix.

ghost use Rattle.std.specs.Prelude.{◌≡◌, ◌-◌, ◌<◌, ◌≤◌, ◌++◌, None, Some, length, take, nat_lt, slice_get, IfSome, MatchOption, if◌then◌else◌};
ghost use Rattle.compiler.specs.Technology.{found_length};
ghost use Rattle.plan_difference.specs.Blocked.{Blocked, IsFreeOrLong};
ghost use Rattle.plan_difference.specs.Walk.{text_of};

use crate::classing::found_length;
use crate::sameness::is_same_technology;
use crate::texts::{fits, starred, text_of};
use crate::walk::longer_of;
use compiler::Tables;
use gk_terms::{Dialled, TechPrefix};

/// How many characters of the stem a longer declared prefix takes, with which digits of the
/// technology prefix at a place and the stem begin. None if there is no longer one, if they are too
/// long together, or if nothing is at the place.
pub(crate) fn reach_at(
    old: &Tables,
    new: &Tables,
    heads: &[Option<TechPrefix>],
    place: usize,
    stem: &[u8],
) -> Option<usize>
    requires some { 0 < length stem.now }
    ensures { MatchOption result
        (IfSome (slice_get heads.now place)
        (IsFreeOrLong old.now.commands new.now.commands stem.now))
        (λ level. (level ≤ length stem.now) × IfSome (slice_get heads.now place)
        (Blocked old.now.commands new.now.commands (take level stem.now))) }
{
    match head_at(heads, place) {
        Some(head) => reach(old, new, head, stem),
        None => None,
    }
}

/// The technology prefix at a place.
fn head_at(heads: &[Option<TechPrefix>], place: usize) -> Option<&Option<TechPrefix>>
    ensures { MatchOption result
        (slice_get heads.now place ≡ None)
        (λ head. slice_get heads.now place ≡ Some head.now) }
{
    heads.get(place)
}

/// The same of this technology prefix.
fn reach(old: &Tables, new: &Tables, head: &Option<TechPrefix>, stem: &[u8]) -> Option<usize>
    requires some { 0 < length stem.now }
    ensures { MatchOption result
        (IsFreeOrLong old.now.commands new.now.commands stem.now head.now)
        (λ level. (level ≤ length stem.now)
        × Blocked old.now.commands new.now.commands (take level stem.now) head.now) }
{
    if !fits(found_length(head), stem.len(), 0) {
        return None;
    }
    match starred(text_of(head), stem, 0) {
        Some(digits) => reach_in(old, new, head, stem, &digits),
        None => Some(stem.len()),
    }
}

/// The same, with the digits that both make together.
fn reach_in(
    old: &Tables,
    new: &Tables,
    head: &Option<TechPrefix>,
    stem: &[u8],
    digits: &Dialled,
) -> Option<usize>
    requires { digits.now ≡ text_of head.now ++ stem.now }
    ensures { MatchOption result
        (IsFreeOrLong old.now.commands new.now.commands stem.now head.now)
        (λ level. (level ≤ length stem.now)
        × Blocked old.now.commands new.now.commands (take level stem.now) head.now) }
{
    // So it is known that they are dialled digits.
    let _text = digits.as_bytes();
    let found = longer_of(&old.declared(digits), &new.declared(digits));
    if is_same_technology(&found, head) {
        return None;
    }
    Some(level_of(found_length(head), found_length(&found), stem.len()))
}

/// How many characters more another technology prefix has; all of the stem if it has no more.
fn level_of(head: usize, found: usize, stem: usize) -> usize
    ensures { result ≡ if nat_lt head found then found - head else stem }
{
    if head < found { found - head } else { stem }
}
