//! How the plans of a set are written.

ghost use Rattle.std.specs.Prelude.{◌≡◌, ◌++◌, OnOk, IfOk, bytes_eq, codes, [], None, if◌then◌else◌};
ghost use Rattle.std.specs.Option.{option_eq};
ghost use Rattle.digit_patterns.specs.Pattern.{pattern_text};
ghost use Rattle.difference_report.specs.PlanWords as Spec;

use crate::shape::whole_text;
use digit_patterns::Pattern;
use gk_terms::{Address, Name, TechPrefix};
use plan_difference::Destination;
use std::alloc::{AllocError, Global};

/// Adds a plan and the zone prefix that decides, if it is not the set itself, which is written as
/// it is shown.
pub(crate) fn add_side(
    text: &mut Vec<u8>,
    alloc: Global,
    own: bool,
    shown: &[u8],
    destination: &Destination,
    technology: &Option<TechPrefix>,
    row: &Option<Pattern>,
) -> Result<(), AllocError>
    ensures { OnOk result (text.new.items ≡ text.old.items
        ++ Spec.side_words own shown.now destination.now technology.now row.now) }
{
    add_plan(text, alloc, own, destination)?;
    add_row(text, alloc, shown, technology, row)
}

/// Adds that the plans differ in the priorities of gateways, if they have the same zone, address
/// and technology prefix.
pub(crate) fn add_gateways(
    text: &mut Vec<u8>,
    alloc: Global,
    own: bool,
    old: &Destination,
    new: &Destination,
) -> Result<(), AllocError>
    ensures { OnOk result (text.new.items
        ≡ text.old.items ++ Spec.gateway_words own old.now new.now) }
{
    if has_same_words(alloc, own, old, new)? {
        text.extend_from_slice(b", other gateway priorities")?;
    }
    Ok(())
}

/// Whether two plans have the same zone, address and technology prefix.
pub(crate) fn has_same_words(
    alloc: Global,
    own: bool,
    old: &Destination,
    new: &Destination,
) -> Result<bool, AllocError>
    ensures { IfOk result (λ same. same ≡ Spec.has_same_words own old.now new.now) }
{
    let words = plan_words(alloc, own, old)?;
    let other = plan_words(alloc, own, new)?;
    Ok(is_same_zone(&old.zone, &new.zone) && words.as_slice() == other.as_slice())
}

/// Whether two zones, if there are any, have the same name.
fn is_same_zone(zone: &Option<Name>, other: &Option<Name>) -> bool
    ensures { result ≡ option_eq bytes_eq zone.now other.now }
{
    *zone == *other
}

/// The words of a plan.
fn plan_words(alloc: Global, own: bool, destination: &Destination) -> Result<Vec<u8>, AllocError>
    ensures { IfOk result (λ words. words.items ≡ Spec.plan_words own destination.now) }
{
    let mut words = Vec::new(alloc);
    add_plan(&mut words, alloc, own, destination)?;
    Ok(words)
}

/// Adds a plan.
pub(crate) fn add_plan(
    text: &mut Vec<u8>,
    alloc: Global,
    own: bool,
    destination: &Destination,
) -> Result<(), AllocError>
    ensures { OnOk result (text.new.items
        ≡ text.old.items ++ Spec.plan_words own destination.now) }
{
    add_place(
        text,
        alloc,
        &destination.zone,
        &destination.address,
        destination.refused,
    )?;
    add_technology(text, own, &destination.technology)
}

/// Adds the zone; without one, the caller's, or that the digits are refused.
fn add_place(
    text: &mut Vec<u8>,
    alloc: Global,
    zone: &Option<Name>,
    address: &Option<Address>,
    refused: bool,
) -> Result<(), AllocError>
    ensures { OnOk result (text.new.items
        ≡ text.old.items ++ Spec.place_words zone.now address.now refused) }
{
    match zone {
        Some(name) => {
            text.extend_from_slice(name.as_bytes())?;
            add_address(text, alloc, address)
        }
        None => text.extend_from_slice(nowhere(refused)),
    }
}

/// What is said if no zone is named.
fn nowhere(refused: bool) -> &'static [u8]
    ensures { result.now ≡ Spec.place_words None None refused }
{
    if refused {
        b"refused"
    } else {
        b"caller's zone"
    }
}

/// Adds the address of another gatekeeper.
fn add_address(
    text: &mut Vec<u8>,
    alloc: Global,
    address: &Option<Address>,
) -> Result<(), AllocError>
    ensures { OnOk result (text.new.items ≡ text.old.items ++ Spec.address_words address.now) }
{
    match address {
        Some(address) => {
            let shown = format!(in alloc; "{}", address)?;
            text.extend_from_slice(b" ")?;
            text.extend_from_slice(shown.as_bytes())
        }
        None => Ok(()),
    }
}

/// Adds the technology prefix, in a group of its own.
fn add_technology(
    text: &mut Vec<u8>,
    own: bool,
    technology: &Option<TechPrefix>,
) -> Result<(), AllocError>
    ensures { OnOk result (text.new.items
        ≡ text.old.items ++ Spec.technology_words own technology.now) }
{
    if !own {
        return Ok(());
    }
    match technology {
        Some(prefix) => {
            text.extend_from_slice(b" technology ")?;
            text.extend_from_slice(prefix.as_bytes())
        }
        None => Ok(()),
    }
}

/// Adds the zone prefix that decides, if it is not the set itself.
fn add_row(
    text: &mut Vec<u8>,
    alloc: Global,
    shown: &[u8],
    technology: &Option<TechPrefix>,
    row: &Option<Pattern>,
) -> Result<(), AllocError>
    ensures { OnOk result (text.new.items
        ≡ text.old.items ++ Spec.row_words shown.now technology.now row.now) }
{
    match row {
        Some(pattern) => {
            let whole = whole_text(alloc, technology, row)?;
            add_pattern_unless(text, alloc, whole.as_slice() == shown, pattern)
        }
        None => Ok(()),
    }
}

/// Adds a zone prefix in brackets, unless it is known.
fn add_pattern_unless(
    text: &mut Vec<u8>,
    alloc: Global,
    known: bool,
    pattern: &Pattern,
) -> Result<(), AllocError>
    ensures { OnOk result (text.new.items ≡ text.old.items ++ (if known then []
        else (codes " (" ++ pattern_text pattern.now ++ codes ")"))) }
{
    if known {
        return Ok(());
    }
    let shown = format!(in alloc; "{}", pattern)?;
    text.extend_from_slice(b" (")?;
    text.extend_from_slice(shown.as_bytes())?;
    text.extend_from_slice(b")")
}
