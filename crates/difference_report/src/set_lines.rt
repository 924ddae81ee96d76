//! The lines of sets.

ghost use Rattle.std.specs.Prelude.{◌≡◌, ◌++◌, OnOk};
ghost use Rattle.compiler.specs.Plan.{plan_of};
ghost use Rattle.plan_difference.specs.Destination.{destination_of};
ghost use Rattle.difference_report.specs.PlanWords as Spec;

use crate::count_words::add_count;
use crate::findings::Findings;
use crate::headings::is_own;
use crate::plan_words::{add_gateways, add_plan, add_side};
use crate::set_text::set_text;
use crate::texts::add_repeated;
use compiler::Tables;
use gk_terms::Dialled;
use plan_difference::{Destination, NumberSet, destination_of};
use std::alloc::{AllocError, Global};

/// Adds the line of a set that has so many digits, with the plans of these digits of it. The sets of
/// its group are that wide.
pub(crate) fn add_set_line(
    text: &mut Vec<u8>,
    found: &Findings,
    width: usize,
    number: u128,
    set: &NumberSet,
    digits: &Dialled,
) -> Result<(), AllocError>
    ensures { OnOk result (text.new.items ≡ text.old.items
        ++ Spec.set_line found.now.old found.now.new found.now.changed width number
        (set.now, digits.now)) }
{
    let shown = set_text(found, set, digits)?;
    text.extend_from_slice(b"  ")?;
    add_filled(text, width, &shown)?;
    text.extend_from_slice(b"  ")?;
    add_said(
        text,
        found.alloc(),
        found.changed().has(set),
        set,
        &shown,
        &destination(found.old(), digits),
        &destination(found.new(), digits),
    )?;
    add_number_words(text, number)?;
    text.extend_from_slice(b"\n")
}

/// Adds how many digits a set has.
fn add_number_words(text: &mut Vec<u8>, number: u128) -> Result<(), AllocError>
    ensures { OnOk result (text.new.items ≡ text.old.items ++ Spec.number_words number) }
{
    text.extend_from_slice(b"  [")?;
    add_count(text, number)?;
    text.extend_from_slice(b"]")
}

/// Where digits are planned to.
pub(crate) fn destination(tables: &Tables, digits: &Dialled) -> Destination
    ensures { result ≡ destination_of (plan_of tables.now.commands digits.now) }
{
    destination_of(tables, &tables.plan(digits))
}

/// Adds a text, filled up with spaces.
fn add_filled(text: &mut Vec<u8>, width: usize, shown: &[u8]) -> Result<(), AllocError>
    ensures { OnOk result (text.new.items ≡ text.old.items ++ Spec.filled width shown.now) }
{
    text.extend_from_slice(shown)?;
    add_repeated(text, b' ', width.saturating_sub(shown.len()))
}

/// Adds what is said of a set, which is written as it is shown: both plans if it has changed, and
/// else the one.
fn add_said(
    text: &mut Vec<u8>,
    alloc: Global,
    has_changed: bool,
    set: &NumberSet,
    shown: &[u8],
    old: &Destination,
    new: &Destination,
) -> Result<(), AllocError>
    ensures { OnOk result (text.new.items ≡ text.old.items
        ++ Spec.said_words has_changed shown.now set.now old.now new.now) }
{
    if has_changed {
        return add_change(text, alloc, set, shown, old, new);
    }
    text.extend_from_slice(b"= ")?;
    add_plan(text, alloc, is_own(&set.group()), old)
}

/// Adds both plans of a set, which is written as it is shown.
fn add_change(
    text: &mut Vec<u8>,
    alloc: Global,
    set: &NumberSet,
    shown: &[u8],
    old: &Destination,
    new: &Destination,
) -> Result<(), AllocError>
    ensures { OnOk result (text.new.items
        ≡ text.old.items ++ Spec.change_words shown.now set.now old.now new.now) }
{
    let own = is_own(&set.group());
    add_side(
        text,
        alloc,
        own,
        shown,
        old,
        &set.old_technology,
        &set.old_row,
    )?;
    text.extend_from_slice(b" -> ")?;
    add_side(
        text,
        alloc,
        own,
        shown,
        new,
        &set.new_technology,
        &set.new_row,
    )?;
    add_gateways(text, alloc, own, old, new)
}
