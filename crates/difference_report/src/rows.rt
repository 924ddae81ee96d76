//! The rows of a report.

ghost use Rattle.std.specs.Prelude.{◌≡◌, ◌&&◌, ◌∷◌, ◌++◌, IfOk, IfSome, OnOk, fold, slice_get};
ghost use Rattle.csv.specs.Writing.{default_writer, row_text};
ghost use Rattle.difference_report.specs.PlanWords.{has_same_words};
ghost use Rattle.difference_report.specs.Rows as Spec;

use crate::findings::Findings;
use crate::headings::is_own;
use crate::plan_words::has_same_words;
use crate::row_fields::{
    change_field, gateways_field, kind_field, set_texts, technology_field, zone_field,
};
use crate::row_text::RowText;
use crate::set_lines::destination;
use crate::set_text::set_text;
use gk_terms::{Dialled, TechPrefix};
use itoa::Buffer;
use plan_difference::{Destination, NumberSet};
use std::alloc::{AllocError, Global};

/// The rows of these sets, of which some have changed.
pub(crate) fn rows_text(found: &Findings) -> Result<Vec<u8>, AllocError>
    ensures { IfOk result (λ text. text.items
        ≡ Spec.rows_text found.now.old found.now.new found.now.listed found.now.changed) }
{
    let joint = joint_technologies(found.alloc(), found.shared())?;
    let mut rows = RowText::new(found.alloc());
    add_header(&mut rows)?;
    add_rows(&mut rows, found, &joint)?;
    rows.into_text()
}

/// A dash for no technology prefix, and then these, each after a space.
fn joint_technologies(alloc: Global, prefixes: &[TechPrefix]) -> Result<Vec<u8>, AllocError>
    ensures { IfOk result (λ text. text.items ≡ Spec.joint_technologies prefixes.now) }
{
    let mut list = Vec::new(alloc);
    list.extend_from_slice(b"-")?;
    for prefix in prefixes {
        add_spaced(&mut list, prefix)?;
    }
    Ok(list)
}

/// Adds a technology prefix after a space.
fn add_spaced(list: &mut Vec<u8>, prefix: &TechPrefix) -> Result<(), AllocError>
    ensures { OnOk result (list.new.items ≡ list.old.items ++ 32 ∷ prefix.now) }
{
    list.extend_from_slice(b" ")?;
    list.extend_from_slice(prefix.as_bytes())
}

/// Adds the header.
fn add_header(rows: &mut RowText) -> Result<(), AllocError>
    ensures { OnOk result (rows.new ≡ rows.old ++ row_text default_writer Spec.header) }
{
    let fields: [&[u8]; 15] = [
        b"technologies",
        b"set",
        b"change",
        b"old_row",
        b"old_kind",
        b"old_zone",
        b"old_address",
        b"old_technology",
        b"new_row",
        b"new_kind",
        b"new_zone",
        b"new_address",
        b"new_technology",
        b"gateways",
        b"numbers",
    ];
    rows.add(&fields)
}

/// Adds the rows of the sets.
fn add_rows(rows: &mut RowText, found: &Findings, joint: &[u8]) -> Result<(), AllocError>
    ensures { OnOk result (rows.new ≡ fold (Spec.with_row found.now.old found.now.new
        joint.now found.now.changed) rows.old found.now.listed) }
{
    for place in 0..found.listed().len() {
        add_at(rows, found, joint, place)?;
    }
    Ok(())
}

/// Adds the row of the set at a place.
fn add_at(
    rows: &mut RowText,
    found: &Findings,
    joint: &[u8],
    place: usize,
) -> Result<(), AllocError>
    ensures { OnOk result (IfSome (slice_get found.now.listed place) (λ entry. rows.new
        ≡ Spec.with_row found.now.old found.now.new joint.now found.now.changed rows.old
        entry)) }
{
    match found.listed().get(place) {
        Some((set, digits)) => {
            let number = found.number_at(place);
            add_row(rows, found, joint, number, set, digits)
        }
        None => Ok(()),
    }
}

/// Adds the row of a set, with the plans of these digits of it.
fn add_row(
    rows: &mut RowText,
    found: &Findings,
    joint: &[u8],
    number: u128,
    set: &NumberSet,
    digits: &Dialled,
) -> Result<(), AllocError>
    ensures { OnOk result (rows.new ≡ rows.old ++ Spec.set_row found.now.old
        found.now.new joint.now found.now.changed number (set.now, digits.now)) }
{
    let shown = set_text(found, set, digits)?;
    let old_place = destination(found.old(), digits);
    let new_place = destination(found.new(), digits);
    add_set_fields(
        rows,
        found.alloc(),
        joint,
        &shown,
        found.changed().has(set),
        set,
        &old_place,
        &new_place,
        number,
    )
}

/// Adds the row of a set, which is written as it is shown, and whose digits go there.
fn add_set_fields(
    rows: &mut RowText,
    alloc: Global,
    joint: &[u8],
    shown: &[u8],
    has_changed: bool,
    set: &NumberSet,
    old: &Destination,
    new: &Destination,
    number: u128,
) -> Result<(), AllocError>
    ensures { OnOk result (rows.new ≡ rows.old ++ row_text default_writer
        (Spec.set_fields joint.now shown.now has_changed set.now old.now new.now number)) }
{
    let own = is_own(&set.group());
    let is_other = has_other_gateways(alloc, has_changed, own, old, new)?;
    let texts = set_texts(alloc, joint, shown, set, old, new)?;
    let (old_place, new_place) = (*old, *new);
    let mut number_text = Buffer::new();
    let fields: [&[u8]; 15] = [
        texts.technologies.as_slice(),
        texts.shown.as_slice(),
        change_field(has_changed),
        texts.old_row.as_slice(),
        kind_field(&old_place),
        zone_field(&old_place),
        texts.old_address.as_slice(),
        technology_field(own, &old_place),
        texts.new_row.as_slice(),
        kind_field(&new_place),
        zone_field(&new_place),
        texts.new_address.as_slice(),
        technology_field(own, &new_place),
        gateways_field(is_other),
        number_text.format(number).as_bytes(),
    ];
    rows.add(&fields)
}

/// Whether the plans of a set differ in the priorities of gateways alone.
fn has_other_gateways(
    alloc: Global,
    has_changed: bool,
    own: bool,
    old: &Destination,
    new: &Destination,
) -> Result<bool, AllocError>
    ensures { IfOk result (λ other.
        other ≡ (has_changed && has_same_words own old.now new.now)) }
{
    let same = has_same_words(alloc, own, old, new)?;
    Ok(has_changed && same)
}
