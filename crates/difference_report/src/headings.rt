//! The headings of groups.

ghost use Rattle.std.specs.Prelude.{◌≡◌, ◌++◌, ◌||◌, OnOk, IfSome, slice_get};
ghost use Rattle.std.specs.List.{list_any};
ghost use Rattle.plan_difference.specs.Walk.{longer_of};
ghost use Rattle.difference_report.specs.Groups.{is_own};
ghost use Rattle.difference_report.specs.Headings as Spec;

use crate::findings::Findings;
use crate::shared_prefixes::{hops_off, prefixes_text};
use crate::texts::text_of;
use compiler::Tables;
use gk_terms::TechPrefix;
use plan_difference::{Group, Sets};
use std::alloc::AllocError;

/// Whether it is a group of its own, and not the joint one.
pub(crate) fn is_own(group: &Group) -> bool
    ensures { result ≡ is_own group.now }
{
    group.old.is_some() || group.new.is_some()
}

/// Adds the heading of a group.
pub(crate) fn add_heading(
    text: &mut Vec<u8>,
    found: &Findings,
    group: &Group,
) -> Result<(), AllocError>
    ensures { OnOk result (text.new.items ≡ text.old.items
        ++ Spec.heading found.now.old found.now.new found.now.listed group.now) }
{
    if is_own(group) {
        add_own_heading(text, found.old(), found.new(), group)
    } else {
        add_joint_heading(text, found)
    }
}

/// Adds the heading of a group of its own.
fn add_own_heading(
    text: &mut Vec<u8>,
    old: &Tables,
    new: &Tables,
    group: &Group,
) -> Result<(), AllocError>
    ensures { OnOk result (text.new.items ≡ text.old.items
        ++ Spec.own_heading old.now.commands new.now.commands group.now) }
{
    text.extend_from_slice(b"from ")?;
    text.extend_from_slice(text_of(longer_of(&group.old, &group.new)))?;
    text.extend_from_slice(b" (")?;
    add_found(text, old, &group.old)?;
    text.extend_from_slice(b" -> ")?;
    add_found(text, new, &group.new)?;
    text.extend_from_slice(b"):\n")
}

/// The longer of two technology prefixes, the first if they are as long; none if there is none.
pub(crate) fn longer_of<'a>(
    technology: &'a Option<TechPrefix>,
    other: &'a Option<TechPrefix>,
) -> &'a Option<TechPrefix>
    ensures { result.now ≡ longer_of technology.now other.now }
{
    match technology {
        None => other,
        Some(prefix) => match other {
            None => technology,
            Some(longer) => {
                if prefix.as_bytes().len() < longer.as_bytes().len() {
                    other
                } else {
                    technology
                }
            }
        },
    }
}

/// Adds a technology prefix that a configuration finds, and whether it hops off.
fn add_found(
    text: &mut Vec<u8>,
    tables: &Tables,
    technology: &Option<TechPrefix>,
) -> Result<(), AllocError>
    ensures { OnOk result (text.new.items ≡ text.old.items
        ++ Spec.found_text tables.now.commands technology.now) }
{
    match technology {
        Some(prefix) => {
            text.extend_from_slice(prefix.as_bytes())?;
            if hops_off(tables, prefix) {
                text.extend_from_slice(b" hop-off")?;
            }
            Ok(())
        }
        None => text.extend_from_slice(b"none"),
    }
}

/// Adds the heading of the joint group.
fn add_joint_heading(text: &mut Vec<u8>, found: &Findings) -> Result<(), AllocError>
    ensures { OnOk result (text.new.items ≡ text.old.items
        ++ Spec.joint_heading found.now.old found.now.new found.now.listed) }
{
    let list = prefixes_text(found.alloc(), found.shared())?;
    add_heading_with(text, &list, has_own(found.listed()))
}

/// Adds the heading with a list of prefixes; none if that is empty and no other group follows.
fn add_heading_with(text: &mut Vec<u8>, list: &[u8], follows: bool) -> Result<(), AllocError>
    ensures { OnOk result (text.new.items
        ≡ text.old.items ++ Spec.heading_with list.now follows) }
{
    if !list.is_empty() {
        text.extend_from_slice(b"no technology prefix, or after ")?;
        text.extend_from_slice(list)?;
        return text.extend_from_slice(b":\n");
    }
    if follows {
        text.extend_from_slice(b"no technology prefix:\n")?;
    }
    Ok(())
}

/// Whether there is a set in a group of its own.
fn has_own(sets: &Sets) -> bool
    ensures { result ≡ list_any Spec.is_own_entry sets.now }
{
    let mut found = false;
    for place in 0..sets.len() {
        found = has_own_by(sets, found, place);
    }
    found
}

/// Whether there was one, or the set at a place is one.
fn has_own_by(sets: &Sets, found: bool, place: usize) -> bool
    ensures { IfSome (slice_get sets.now place)
        (λ entry. result ≡ (found || Spec.is_own_entry entry)) }
{
    match sets.get(place) {
        Some((set, _)) => found || is_own(&set.group()),
        None => found,
    }
}
