//! Blocks of lines: the sets of one group.

ghost use Rattle.std.specs.Prelude.{◌≡◌, IfOk, IfSome, MatchOption, Some, length, slice_get};
ghost use Rattle.std.specs.Map.{keys_of};
ghost use Rattle.plan_difference.specs.Entries.{group_of};
ghost use Rattle.plan_difference.specs.Order.{AreGrouped};
ghost use Rattle.difference_report.specs.Blocks.{IsBlock, IsFirst, IsOf, IsOther, group_in};
ghost use Rattle.difference_report.specs.ReportText as Spec;
ghost use Rattle.difference_report.specs.SetText.{set_text};
ghost use Rattle.difference_report.specs.Shape.{greater};

use crate::findings::Findings;
use crate::set_text::set_text;
use crate::shape::greater;
use crate::shared_prefixes::is_same;
use plan_difference::{Group, Sets};
use std::alloc::AllocError;
use std::marker::Model;

/// A group of sets whose lines stand together, and how many characters its widest set has. A
/// contract sees both.
#[derive(Clone, Copy)]
pub(crate) struct Block {
    group: Group,
    width: usize,
}

impl Model for Block {
    ghost use Rattle.difference_report.specs.Blocks.{BlockParts};

    ghost Value = { BlockParts };

    ghost view = { λ b. record { group = b.group; width = b.width } };

    ghost inverse = { λ v. record { group = v.group; width = v.width } };
}

impl Block {
    ghost use Rattle.std.specs.Prelude.{◌≡◌};

    /// How many characters the widest set has.
    pub(crate) fn width(&self) -> usize
        ensures { result ≡ self.now.width }
    {
        self.width
    }
}

/// Whether a group goes on.
pub(crate) fn goes_on(before: &Option<Block>, group: &Group) -> bool
    ensures { result ≡ Spec.goes_on (group_in before.now) group.now }
{
    match before {
        Some(block) => is_same_group(&block.group, group),
        None => false,
    }
}

/// The block of the set at a place, of this group: the one before it, if that is of the same group.
pub(crate) fn next_block(
    found: &Findings,
    before: &Option<Block>,
    place: usize,
    group: &Group,
) -> Result<Block, AllocError>
    requires before { IsBlock found.now.old found.now.new found.now.listed place before.now }
    requires here { IsOf found.now.listed place group.now }
    ensures group { IfOk result (λ block. block.group ≡ group.now) }
    ensures width { IfOk result (λ block. block.width
        ≡ Spec.width_of found.now.old found.now.new found.now.listed group.now) }
{
    match same_block(before, group) {
        Some(block) => Ok(block),
        None => new_block(found, before, place, group),
    }
}

/// A block, if it is of this group.
fn same_block(block: &Option<Block>, group: &Group) -> Option<Block>
    ensures { MatchOption result
        (IsOther block.now group.now)
        (λ same. (block.now ≡ Some same) × (same.group ≡ group.now)) }
{
    match block {
        Some(block) => {
            if block.group.is(group) {
                return Some(*block);
            }
            None
        }
        None => None,
    }
}

/// The block of the set at a place, the first one of this group.
fn new_block(
    found: &Findings,
    _before: &Option<Block>,
    place: usize,
    group: &Group,
) -> Result<Block, AllocError>
    requires before { IsBlock found.now.old found.now.new found.now.listed place _before.now }
    requires other { IsOther _before.now group.now }
    requires here { IsOf found.now.listed place group.now }
    ensures group { IfOk result (λ block. block.group ≡ group.now) }
    ensures width { IfOk result (λ block. block.width
        ≡ Spec.width_of found.now.old found.now.new found.now.listed group.now) }
{
    let width = width_from(found, found.listed(), place, group)?;
    Ok(Block {
        group: *group,
        width,
    })
}

/// Whether two groups are the same.
fn is_same_group(group: &Group, other: &Group) -> bool
    ensures { result ≡ Spec.same_group group.now other.now }
{
    is_same(&group.old, &other.old) && is_same(&group.new, &other.new)
}

/// The width of the widest set of a group whose first set stands at a place.
fn width_from(
    found: &Findings,
    sets: &Sets,
    first: usize,
    group: &Group,
) -> Result<usize, AllocError>
    requires first { IsFirst sets.now first group.now }
    requires grouped { AreGrouped (keys_of sets.now) }
    ensures { IfOk result (λ width. width
        ≡ Spec.width_of found.now.old found.now.new sets.now group.now) }
{
    let mut width = 0;
    for place in first..sets.len() {
        if !is_of(sets, place, group) {
            return Ok(width);
        }
        width = wider(found, sets, width, place)?;
    }
    Ok(width)
}

/// Whether the set at a place is of a group.
fn is_of(sets: &Sets, place: usize, group: &Group) -> bool
    ensures { IfSome (slice_get sets.now place)
        (λ entry. result ≡ Spec.same_group (group_of entry.0) group.now) }
{
    match sets.get(place) {
        Some((set, _)) => is_same_group(&set.group(), group),
        None => false,
    }
}

/// A width, or that of the set at a place if it is greater.
fn wider(found: &Findings, sets: &Sets, width: usize, place: usize) -> Result<usize, AllocError>
    ensures { IfOk result (λ wide. IfSome (slice_get sets.now place) (λ entry. wide
        ≡ greater width (length (set_text found.now.old found.now.new entry)))) }
{
    let Some((set, digits)) = sets.get(place) else {
        return Ok(width);
    };
    let text = set_text(found, set, digits)?;
    Ok(greater(width, text.len()))
}
