//! How a set is written.

ghost use Rattle.std.specs.Prelude.{◌≡◌, IfOk};
ghost use Rattle.digit_patterns.specs.Pattern.{pattern_text};
ghost use Rattle.difference_report.specs.SetText.{exact, or_nothing, set_text};
ghost use Rattle.difference_report.specs.Shape.{shape_of};

use crate::findings::Findings;
use crate::lengths::{has_others, length_after};
use crate::shape::{add_literals, add_shape, longest_count};
use crate::texts::add_repeated;
use gk_terms::Dialled;
use plan_difference::NumberSet;
use std::alloc::{AllocError, Global};

#[tactic(auto, unfolding(crate::specs::SetText::set_text))]
/// How a set is written, of which these are some digits: its pattern; if all its digits have one
/// length, that of just this length.
pub(crate) fn set_text(
    found: &Findings,
    set: &NumberSet,
    digits: &Dialled,
) -> Result<Vec<u8>, AllocError>
    ensures { IfOk result (λ text. text.items
        ≡ set_text found.now.old found.now.new (set.now, digits.now)) }
{
    if has_others(found, set, digits)? {
        return shape_text(found.alloc(), set);
    }
    let count = length_after(found.old(), set, digits);
    or_nothing(exact_text(found.alloc(), set, count)?)
}

/// The pattern of a set.
fn shape_text(alloc: Global, set: &NumberSet) -> Result<Vec<u8>, AllocError>
    ensures { IfOk result (λ text. text.items ≡ pattern_text (shape_of set.now)) }
{
    let mut text = Vec::new(alloc);
    add_shape(&mut text, set)?;
    Ok(text)
}

/// The same of just so many characters.
fn exact_text(alloc: Global, set: &NumberSet, count: usize) -> Result<Vec<u8>, AllocError>
    ensures { IfOk result (λ text. text.items
        ≡ pattern_text (exact (shape_of set.now) count)) }
{
    let mut text = Vec::new(alloc);
    add_literals(&mut text, set)?;
    add_repeated(&mut text, b'.', count.saturating_sub(longest_count(set)))?;
    Ok(text)
}

/// A text, or that it is empty.
fn or_nothing(mut text: Vec<u8>) -> Result<Vec<u8>, AllocError>
    ensures { IfOk result (λ said. said.items ≡ or_nothing text.items) }
{
    if text.is_empty() {
        text.extend_from_slice(b"(nothing)")?;
    }
    Ok(text)
}
