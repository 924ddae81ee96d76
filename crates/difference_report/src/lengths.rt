//! How long the digits of a set are.

ghost use Rattle.std.specs.Prelude.{◌≡◌, ◌++◌, IfOk, Some, length};
ghost use Rattle.std.specs.List.{list_any};
ghost use Rattle.plan_difference.specs.Entries.{same_set};
ghost use Rattle.plan_difference.specs.Sets.{set_of};
ghost use Rattle.plan_difference.specs.Walk.{starred};
ghost use Rattle.difference_report.specs.Lengths as Spec;
ghost use Rattle.difference_report.specs.Shape.{shape_of};

use crate::findings::Findings;
use crate::headings::is_own;
use crate::rests::{is_same_row, other_count};
use crate::shape::{add_literals, is_open};
use crate::shared_prefixes::is_same;
use crate::texts::{add_repeated, text_of};
use compiler::Tables;
use gk_terms::{Dialled, TechPrefix};
use plan_difference::{NumberSet, set_of};
use std::alloc::{AllocError, Global};

/// Numbers of stars below this one are tried.
pub(crate) const STARS: usize = 33;

#[tactic(auto, unfolding(crate::specs::Lengths::has_others))]
/// Whether digits of another length than these are of the set too, each after its technology
/// prefix.
pub(crate) fn has_others(
    found: &Findings,
    set: &NumberSet,
    digits: &Dialled,
) -> Result<bool, AllocError>
    ensures { IfOk result (λ others. others
        ≡ Spec.has_others found.now.old found.now.new (set.now, digits.now)) }
{
    if !is_open(set) {
        return Ok(false);
    }
    if is_own(&set.group()) {
        return has_others_after(found, set, digits, b"");
    }
    has_others_joint(found, set, digits)
}

/// Whether there are such digits, if the set is of the joint group. No technology prefix is looked
/// at unless what may follow one has another length, and then mostly that of these digits alone.
fn has_others_joint(found: &Findings, set: &NumberSet, digits: &Dialled) -> Result<bool, AllocError>
    ensures { IfOk result (λ others. others ≡ Spec.has_others_with found.now.old found.now.new
        (set.now, digits.now)
        (Spec.other_count found.now.old found.now.new (set.now, digits.now))) }
{
    match other_count(found, set, digits)? {
        Some(count) => has_others_with(found, set, digits, count),
        None => Ok(false),
    }
}

/// Whether there are such digits with so many stars: after the technology prefix of these digits,
/// none, or another one of the joint group.
fn has_others_with(
    found: &Findings,
    set: &NumberSet,
    digits: &Dialled,
    count: usize,
) -> Result<bool, AllocError>
    ensures { IfOk result (λ others. others ≡ Spec.has_others_with found.now.old found.now.new
        (set.now, digits.now) (Some count)) }
{
    let technology = found.old().declared(digits);
    if is_other_with(found, set, digits, text_of(&technology), count)? {
        return Ok(true);
    }
    if has_others_after(found, set, digits, b"")? {
        return Ok(true);
    }
    has_others_among(found, set, digits, found.shared(), count)
}

/// Whether there are such digits after one of these.
fn has_others_among(
    found: &Findings,
    set: &NumberSet,
    digits: &Dialled,
    fronts: &[TechPrefix],
    count: usize,
) -> Result<bool, AllocError>
    ensures { IfOk result (λ others. others ≡ list_any (λ front. Spec.is_other_with
        found.now.old found.now.new (set.now, digits.now) front count) fronts.now) }
{
    for front in fronts {
        if is_other_with(found, set, digits, front.as_bytes(), count)? {
            return Ok(true);
        }
    }
    Ok(false)
}

#[tactic(auto, unfolding(crate::specs::Lengths::has_others_after))]
/// Whether the literals of the set, after this front and with some number of stars after them, are
/// such digits.
fn has_others_after(
    found: &Findings,
    set: &NumberSet,
    digits: &Dialled,
    front: &[u8],
) -> Result<bool, AllocError>
    ensures { IfOk result (λ others. others ≡ Spec.has_others_after found.now.old
        found.now.new (set.now, digits.now) front.now) }
{
    has_others_below(found, set, digits, front, STARS)
}

/// The same with fewer stars than this number.
fn has_others_below(
    found: &Findings,
    set: &NumberSet,
    digits: &Dialled,
    front: &[u8],
    most: usize,
) -> Result<bool, AllocError>
    ensures { IfOk result (λ others. others ≡ Spec.any_below (Spec.is_other_with
        found.now.old found.now.new (set.now, digits.now) front.now) most) }
{
    for count in 0..most {
        if is_other_with(found, set, digits, front, count)? {
            return Ok(true);
        }
    }
    Ok(false)
}

/// The same with so many stars.
fn is_other_with(
    found: &Findings,
    set: &NumberSet,
    digits: &Dialled,
    front: &[u8],
    count: usize,
) -> Result<bool, AllocError>
    ensures { IfOk result (λ other. other ≡ Spec.is_other_with found.now.old
        found.now.new (set.now, digits.now) front.now count) }
{
    let text = starred(found.alloc(), set, front, count)?;
    Ok(is_other_text(found.old(), found.new(), set, digits, &text))
}

/// A front, the literals of the set, and so many stars.
pub(crate) fn starred(
    alloc: Global,
    set: &NumberSet,
    front: &[u8],
    count: usize,
) -> Result<Vec<u8>, AllocError>
    ensures { IfOk result (λ text. text.items
        ≡ starred (front.now ++ (shape_of set.now).literals) count) }
{
    let mut text = Vec::new(alloc);
    text.extend_from_slice(front)?;
    add_literals(&mut text, set)?;
    add_repeated(&mut text, b'*', count)?;
    Ok(text)
}

#[tactic(auto, unfolding(crate::specs::Lengths::is_other_text))]
/// Whether a text is digits of the set of another length.
fn is_other_text(old: &Tables, new: &Tables, set: &NumberSet, digits: &Dialled, text: &[u8]) -> bool
    ensures { result ≡ Spec.is_other_text old.now.commands new.now.commands
        (set.now, digits.now) text.now }
{
    match Dialled::read(text) {
        Ok(other) => is_other(old, new, set, digits, &other),
        Err(_) => false,
    }
}

/// Whether other digits are of the set too, and have another length.
fn is_other(old: &Tables, new: &Tables, set: &NumberSet, digits: &Dialled, other: &Dialled) -> bool
    ensures { result ≡ Spec.is_other old.now.commands new.now.commands
        (set.now, digits.now) other.now }
{
    is_set_of(old, new, set, other)
        && length_after(old, set, other) != length_after(old, set, digits)
}

/// How many of the digits come after the technology prefix of the joint group.
pub(crate) fn length_after(old: &Tables, set: &NumberSet, digits: &Dialled) -> usize
    ensures { result ≡ Spec.length_after old.now.commands (set.now, digits.now) }
{
    digits
        .as_bytes()
        .len()
        .saturating_sub(front_length(old, set, digits))
}

/// How many characters that prefix has.
fn front_length(old: &Tables, set: &NumberSet, digits: &Dialled) -> usize
    ensures { result ≡ length (Spec.front_of old.now.commands (set.now, digits.now)) }
{
    if is_own(&set.group()) {
        return 0;
    }
    let technology = old.declared(digits);
    text_of(&technology).len()
}

/// Whether digits are of a set.
fn is_set_of(old: &Tables, new: &Tables, set: &NumberSet, digits: &Dialled) -> bool
    ensures { result ≡ same_set (set_of old.now.commands new.now.commands digits.now) set.now }
{
    is_same_set(&set_of(old, new, digits), set)
}

/// Whether two sets are the same.
fn is_same_set(set: &NumberSet, other: &NumberSet) -> bool
    ensures { result ≡ same_set set.now other.now }
{
    is_same(&set.old_technology, &other.old_technology)
        && is_same(&set.new_technology, &other.new_technology)
        && is_same_row(&set.old_row, &other.old_row)
        && is_same_row(&set.new_row, &other.new_row)
}
