//! The fields of a row.

ghost use Rattle.std.specs.Prelude.{◌≡◌, IfOk};
ghost use Rattle.plan_difference.specs.Entries.{group_of};
ghost use Rattle.plan_difference.specs.Walk.{text_of};
ghost use Rattle.difference_report.specs.Rows as Spec;

use crate::headings::{is_own, longer_of};
use crate::texts::text_of;
use digit_patterns::Pattern;
use gk_terms::{Address, TechPrefix};
use plan_difference::{Destination, Group, NumberSet};
use std::alloc::{AllocError, Global};

/// The fields of the row of a set that are made for it.
#[derive(Drop)]
pub(crate) struct SetTexts {
    /// The technology prefixes of its group.
    pub(crate) technologies: Vec<u8>,
    /// How it is written.
    pub(crate) shown: Vec<u8>,
    /// The zone prefix of the old configuration.
    pub(crate) old_row: Vec<u8>,
    /// The address of its target.
    pub(crate) old_address: Vec<u8>,
    /// The zone prefix of the new configuration.
    pub(crate) new_row: Vec<u8>,
    /// The address of its target.
    pub(crate) new_address: Vec<u8>,
}

/// Those of a set, which is written as it is shown, and whose digits go there.
pub(crate) fn set_texts(
    alloc: Global,
    joint: &[u8],
    shown: &[u8],
    set: &NumberSet,
    old: &Destination,
    new: &Destination,
) -> Result<SetTexts, AllocError>
    ensures technologies { IfOk result (λ texts.
        texts.technologies.items ≡ Spec.technologies_field joint.now (group_of set.now)) }
    ensures shown { IfOk result (λ texts. texts.shown.items ≡ shown.now) }
    ensures old_row { IfOk result (λ texts.
        texts.old_row.items ≡ Spec.row_field set.now.old_row) }
    ensures old_address { IfOk result (λ texts.
        texts.old_address.items ≡ Spec.address_field old.now.address) }
    ensures new_row { IfOk result (λ texts.
        texts.new_row.items ≡ Spec.row_field set.now.new_row) }
    ensures new_address { IfOk result (λ texts.
        texts.new_address.items ≡ Spec.address_field new.now.address) }
{
    Ok(SetTexts {
        technologies: technologies_text(alloc, joint, &set.group())?,
        shown: copied(alloc, shown)?,
        old_row: row_text(alloc, &set.old_row)?,
        old_address: address_text(alloc, &old.address)?,
        new_row: row_text(alloc, &set.new_row)?,
        new_address: address_text(alloc, &new.address)?,
    })
}

/// The technology prefixes of a group: these if it is the joint one, and else the one with which its
/// digits begin.
fn technologies_text(alloc: Global, joint: &[u8], group: &Group) -> Result<Vec<u8>, AllocError>
    ensures { IfOk result (λ text.
        text.items ≡ Spec.technologies_field joint.now group.now) }
{
    if is_own(group) {
        copied(alloc, text_of(longer_of(&group.old, &group.new)))
    } else {
        copied(alloc, joint)
    }
}

/// A text of one's own.
fn copied(alloc: Global, text: &[u8]) -> Result<Vec<u8>, AllocError>
    ensures { IfOk result (λ own. own.items ≡ text.now) }
{
    let mut own = Vec::new(alloc);
    own.extend_from_slice(text)?;
    Ok(own)
}

/// A zone prefix, if there is one.
fn row_text(alloc: Global, row: &Option<Pattern>) -> Result<Vec<u8>, AllocError>
    ensures { IfOk result (λ text. text.items ≡ Spec.row_field row.now) }
{
    let mut text = Vec::new(alloc);
    if let Some(pattern) = row {
        let shown = format!(in alloc; "{}", pattern)?;
        text.extend_from_slice(shown.as_bytes())?;
    }
    Ok(text)
}

/// An address, if there is one.
fn address_text(alloc: Global, address: &Option<Address>) -> Result<Vec<u8>, AllocError>
    ensures { IfOk result (λ text. text.items ≡ Spec.address_field address.now) }
{
    let mut text = Vec::new(alloc);
    if let Some(address) = address {
        let shown = format!(in alloc; "{}", address)?;
        text.extend_from_slice(shown.as_bytes())?;
    }
    Ok(text)
}

/// What kind of target it is.
pub(crate) fn kind_field(place: &Destination) -> &'static [u8]
    ensures { result.now
        ≡ Spec.kind_field place.now.zone place.now.address place.now.refused }
{
    match place.zone {
        Some(_) if place.address.is_some() => b"remote",
        Some(_) => b"local",
        None if place.refused => b"refused",
        None => b"caller",
    }
}

/// The target zone, if it has a name.
pub(crate) fn zone_field(place: &Destination) -> &[u8]
    ensures { result.now ≡ text_of place.now.zone }
{
    match &place.zone {
        Some(name) => name.as_bytes(),
        None => b"",
    }
}

/// The technology prefix, in a group of its own.
pub(crate) fn technology_field(own: bool, place: &Destination) -> &[u8]
    ensures { result.now ≡ Spec.technology_field own place.now.technology }
{
    if own { text_of(&place.technology) } else { b"" }
}

/// Whether a set has changed, in a word.
pub(crate) fn change_field(has_changed: bool) -> &'static [u8]
    ensures { result.now ≡ Spec.change_field has_changed }
{
    if has_changed { b"yes" } else { b"no" }
}

/// Whether the priorities of gateways alone have changed, in a word.
pub(crate) fn gateways_field(is_other: bool) -> &'static [u8]
    ensures { result.now ≡ Spec.gateways_field is_other }
{
    if is_other { b"other" } else { b"same" }
}
