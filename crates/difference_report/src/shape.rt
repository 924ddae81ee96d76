//! The pattern of a set.

ghost use Rattle.std.specs.Prelude.{◌≡◌, ◌++◌, ◌∷◌, [], OnOk, IfOk, None, length, nat_lt, if◌then◌else◌};
ghost use Rattle.digit_patterns.specs.PatternParts.{least_count};
ghost use Rattle.digit_patterns.specs.Pattern.{pattern_text};
ghost use Rattle.difference_report.specs.Shape.{whole, greater, shape_of};

use crate::texts::{add_repeated, text_of};
use digit_patterns::Pattern;
use gk_terms::TechPrefix;
use plan_difference::NumberSet;
use std::alloc::{AllocError, Global};

/// Adds the pattern of a set.
pub(crate) fn add_shape(text: &mut Vec<u8>, set: &NumberSet) -> Result<(), AllocError>
    ensures { OnOk result
        (text.new.items ≡ text.old.items ++ pattern_text (shape_of set.now)) }
{
    add_literals(text, set)?;
    add_repeated(text, b'.', dots_of(set))?;
    add_star(text, is_open(set))
}

/// Whether further characters may follow.
pub(crate) fn is_open(set: &NumberSet) -> bool
    ensures { result ≡ (shape_of set.now).star }
{
    has_star(&set.old_row) && has_star(&set.new_row)
}

/// A zone prefix as a pattern of all the digits, after the technology prefix that is taken off
/// before it is looked for.
pub(crate) fn whole_text(
    alloc: Global,
    technology: &Option<TechPrefix>,
    row: &Option<Pattern>,
) -> Result<Vec<u8>, AllocError>
    ensures { IfOk result (λ text. text.items ≡ pattern_text (whole technology.now row.now)) }
{
    let mut text = Vec::new(alloc);
    add_whole_literals(&mut text, technology, row)?;
    add_repeated(&mut text, b'.', row_dots(row))?;
    add_star(&mut text, has_star(row))?;
    Ok(text)
}

/// Adds the literals of the set.
pub(crate) fn add_literals(text: &mut Vec<u8>, set: &NumberSet) -> Result<(), AllocError>
    ensures { OnOk result (text.new.items ≡ text.old.items ++ (shape_of set.now).literals) }
{
    if is_new_longer(set) {
        add_whole_literals(text, &set.new_technology, &set.new_row)
    } else {
        add_whole_literals(text, &set.old_technology, &set.old_row)
    }
}

/// Adds the literals of a technology prefix and a zone prefix.
fn add_whole_literals(
    text: &mut Vec<u8>,
    technology: &Option<TechPrefix>,
    row: &Option<Pattern>,
) -> Result<(), AllocError>
    ensures { OnOk result
        (text.new.items ≡ text.old.items ++ (whole technology.now row.now).literals) }
{
    text.extend_from_slice(text_of(technology))?;
    match row {
        Some(pattern) => text.extend_from_slice(pattern.literals()),
        None => Ok(()),
    }
}

/// Whether the new configuration has the longer literals.
fn is_new_longer(set: &NumberSet) -> bool
    ensures { result ≡ nat_lt (length (whole set.now.old_technology set.now.old_row).literals)
        (length (whole set.now.new_technology set.now.new_row).literals) }
{
    literal_count(&set.old_technology, &set.old_row)
        < literal_count(&set.new_technology, &set.new_row)
}

/// How many dots the set has.
fn dots_of(set: &NumberSet) -> usize
    ensures { result ≡ (shape_of set.now).dots }
{
    let least = greater(
        least_of(&set.old_technology, &set.old_row),
        least_of(&set.new_technology, &set.new_row),
    );
    least.saturating_sub(longest_count(set))
}

/// How many literals the set has.
pub(crate) fn longest_count(set: &NumberSet) -> usize
    ensures { result ≡ length (shape_of set.now).literals }
{
    if is_new_longer(set) {
        literal_count(&set.new_technology, &set.new_row)
    } else {
        literal_count(&set.old_technology, &set.old_row)
    }
}

/// How many literals a technology prefix and a zone prefix have.
fn literal_count(technology: &Option<TechPrefix>, row: &Option<Pattern>) -> usize
    ensures { result ≡ length (whole technology.now row.now).literals }
{
    match row {
        Some(pattern) => text_of(technology).len() + pattern.rank().0 as usize,
        None => text_of(technology).len(),
    }
}

/// How many characters digits have at least that a technology prefix and a zone prefix match.
fn least_of(technology: &Option<TechPrefix>, row: &Option<Pattern>) -> usize
    ensures { result ≡ least_count (whole technology.now row.now) }
{
    match row {
        Some(pattern) => {
            let (literals, dots, _) = pattern.rank();
            text_of(technology).len() + literals as usize + dots as usize
        }
        None => text_of(technology).len(),
    }
}

/// The greater of two numbers.
pub(crate) fn greater(number: usize, other: usize) -> usize
    ensures { result ≡ greater number other }
{
    if number < other { other } else { number }
}

/// How many dots a zone prefix has; none if there is no zone prefix.
fn row_dots(row: &Option<Pattern>) -> usize
    ensures { result ≡ (whole None row.now).dots }
{
    match row {
        Some(pattern) => pattern.dots() as usize,
        None => 0,
    }
}

/// Whether a zone prefix has a star, or there is none.
fn has_star(row: &Option<Pattern>) -> bool
    ensures { result ≡ (whole None row.now).star }
{
    match row {
        Some(pattern) => pattern.has_star(),
        None => true,
    }
}

/// Adds a star, if there is one.
fn add_star(text: &mut Vec<u8>, star: bool) -> Result<(), AllocError>
    ensures { OnOk result (text.new.items
        ≡ text.old.items ++ (if star then 42 ∷ [] else [])) }
{
    if star {
        text.extend_from_slice(b"*")?;
    }
    Ok(())
}
