//! What may follow a technology prefix of the joint group in digits of a set.

ghost use Rattle.std.specs.Prelude.{◌≡◌, ◌≤◌, ◌&&◌, IfOk, drop, length};
ghost use Rattle.std.specs.Option.{option_eq};
ghost use Rattle.digit_patterns.specs.Pattern.{same_pattern};
ghost use Rattle.difference_report.specs.Lengths as Spec;

use crate::findings::Findings;
use crate::lengths::{STARS, length_after, starred};
use compiler::Tables;
use digit_patterns::Pattern;
use gk_terms::Dialled;
use plan_difference::NumberSet;
use std::alloc::AllocError;

#[tactic(auto, unfolding(crate::specs::Lengths::other_count))]
/// The least number of stars with which the literals of the set may follow a technology prefix in
/// digits of the set of another length.
pub(crate) fn other_count(
    found: &Findings,
    set: &NumberSet,
    digits: &Dialled,
) -> Result<Option<usize>, AllocError>
    ensures { IfOk result (λ count. count
        ≡ Spec.other_count found.now.old found.now.new (set.now, digits.now)) }
{
    let known = length_after(found.old(), set, digits);
    other_count_below(found, set, digits, known, STARS)
}

/// The same below this number, for another length than this after the technology prefix.
fn other_count_below(
    found: &Findings,
    set: &NumberSet,
    digits: &Dialled,
    known: usize,
    most: usize,
) -> Result<Option<usize>, AllocError>
    ensures { IfOk result (λ count. count ≡ Spec.least_below (Spec.may_follow
        found.now.old found.now.new set.now known) most) }
{
    for count in 0..most {
        if may_follow(found, set, digits, known, count)? {
            return Ok(Some(count));
        }
    }
    Ok(None)
}

#[tactic(auto, unfolding(crate::specs::Lengths::may_follow))]
/// Whether the literals of the set and so many stars may follow a technology prefix in digits of
/// the set of another length than this after it.
fn may_follow(
    found: &Findings,
    set: &NumberSet,
    digits: &Dialled,
    known: usize,
    count: usize,
) -> Result<bool, AllocError>
    ensures { IfOk result (λ follow. follow ≡ Spec.may_follow found.now.old found.now.new
        set.now known count) }
{
    let text = starred(found.alloc(), set, b"", count)?;
    Ok(text.len() != known && has_rest(found, set, digits, &text))
}

#[tactic(auto, using(crate::proofs::DialledLemmas::nothing_left))]
/// Whether a text may follow a technology prefix in digits of the set. Nothing is looked up as what
/// is left after all of these digits.
fn has_rest(found: &Findings, set: &NumberSet, digits: &Dialled, text: &[u8]) -> bool
    ensures { result ≡ (Spec.is_rest text.now
        && Spec.has_rows found.now.old found.now.new set.now text.now) }
{
    if text.is_empty() {
        return has_rows(found, set, digits, digits.as_bytes().len());
    }
    match Dialled::read(text) {
        Ok(rest) => has_rows(found, set, &rest, 0),
        Err(_) => false,
    }
}

/// Whether the zone prefixes of the set are those for the digits from the place `from` on.
fn has_rows(found: &Findings, set: &NumberSet, digits: &Dialled, from: usize) -> bool
    requires { from ≤ length digits.now }
    ensures { result ≡ Spec.has_rows found.now.old found.now.new set.now (drop from digits.now) }
{
    is_same_row(&row_from(found.old(), digits, from), &set.old_row)
        && is_same_row(&row_from(found.new(), digits, from), &set.new_row)
}

/// The zone prefix for the digits from the place `from` on.
fn row_from(tables: &Tables, digits: &Dialled, from: usize) -> Option<Pattern>
    requires { from ≤ length digits.now }
    ensures { result ≡ Spec.rest_row tables.now.commands (drop from digits.now) }
{
    let row = tables.row(digits, from)?;
    tables.pattern(row).copied()
}

/// Whether two zone prefixes, if there are any, are the same.
pub(crate) fn is_same_row(row: &Option<Pattern>, other: &Option<Pattern>) -> bool
    ensures { result ≡ option_eq same_pattern row.now other.now }
{
    *row == *other
}
