//! The last lines of a report.

ghost use Rattle.std.specs.Prelude.{◌≡◌, ◌++◌, OnOk};
ghost use Rattle.difference_report.specs.ReportText as Spec;

use crate::count_words::add_numbers;
use crate::shared_prefixes::is_same;
use crate::texts::add_number;
use compiler::Tables;
use gk_terms::TechPrefix;
use std::alloc::AllocError;

/// Whether the default technologies are the same.
pub(crate) fn is_same_default(old: &Tables, new: &Tables) -> bool
    ensures { result ≡ Spec.same_default old.now.commands new.now.commands }
{
    is_same(&old.default_technology(), &new.default_technology())
}

/// Adds the default technologies, if they differ.
pub(crate) fn add_default_line(
    text: &mut Vec<u8>,
    old: &Tables,
    new: &Tables,
) -> Result<(), AllocError>
    ensures { OnOk result (text.new.items
        ≡ text.old.items ++ Spec.default_line old.now.commands new.now.commands) }
{
    if is_same_default(old, new) {
        return Ok(());
    }
    add_default_change(text, &old.default_technology(), &new.default_technology())
}

/// Adds that these are the default technologies.
fn add_default_change(
    text: &mut Vec<u8>,
    old: &Option<TechPrefix>,
    new: &Option<TechPrefix>,
) -> Result<(), AllocError>
    ensures { OnOk result
        (text.new.items ≡ text.old.items ++ Spec.default_change old.now new.now) }
{
    text.extend_from_slice(b"default technology: ")?;
    add_change(text, old, new)
}

/// Adds two technology prefixes, or that there is none.
fn add_change(
    text: &mut Vec<u8>,
    old: &Option<TechPrefix>,
    new: &Option<TechPrefix>,
) -> Result<(), AllocError>
    ensures { OnOk result
        (text.new.items ≡ text.old.items ++ Spec.technology_change old.now new.now) }
{
    add_technology(text, old)?;
    text.extend_from_slice(b" -> ")?;
    add_technology(text, new)?;
    text.extend_from_slice(b"\n")
}

/// Adds a technology prefix, or that there is none.
fn add_technology(text: &mut Vec<u8>, technology: &Option<TechPrefix>) -> Result<(), AllocError>
    ensures { OnOk result
        (text.new.items ≡ text.old.items ++ Spec.technology_text technology.now) }
{
    match technology {
        Some(prefix) => text.extend_from_slice(prefix.as_bytes()),
        None => text.extend_from_slice(b"none"),
    }
}

/// Adds how many sets there are, and how many digits they have together.
pub(crate) fn add_count_line(
    text: &mut Vec<u8>,
    count: usize,
    numbers: u128,
) -> Result<(), AllocError>
    ensures { OnOk result (text.new.items ≡ text.old.items ++ Spec.count_line count numbers) }
{
    add_number(text, count)?;
    if count == 1 {
        text.extend_from_slice(b" set, ")?;
    } else {
        text.extend_from_slice(b" sets, ")?;
    }
    add_numbers(text, numbers)?;
    text.extend_from_slice(b"\n")
}
