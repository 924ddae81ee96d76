//! The text of a report.

ghost use Rattle.std.specs.Prelude.{◌≡◌, ◌+◌, ◌++◌, IfOk, IfSome, OnOk, slice_get};
ghost use Rattle.plan_difference.specs.Entries.{group_of};
ghost use Rattle.difference_report.specs.Blocks.{IsBlock, IsOf, group_in};
ghost use Rattle.difference_report.specs.ReportText as Spec;
ghost use Rattle.difference_report.specs.Writing.{IsReport, text_in};
ghost use Rattle.difference_report.specs.declared.wanted.Listing.TheVariants as listings;

use crate::blocks::{Block, goes_on, next_block};
use crate::findings::Findings;
use crate::headings::add_heading;
use crate::last_lines::{add_count_line, add_default_line, is_same_default};
use crate::rows::rows_text;
use crate::set_lines::add_set_line;
use crate::shared_prefixes::shared_prefixes;
use crate::totals::total_of;
use crate::wanted::{Form, Listing};
use compiler::Tables;
use difference_counts::count;
use gk_terms::Dialled;
use plan_difference::{Group, NumberSet, changed_sets, classes, difference};
use std::alloc::{AllocError, Global};

/// A report.
#[derive(Drop)]
pub(crate) struct Report {
    /// Its text.
    pub(crate) text: Vec<u8>,
    /// Whether the configurations differ.
    pub(crate) differs: bool,
}

/// The report of two configurations.
pub(crate) fn report_on(
    alloc: Global,
    old: &Tables,
    new: &Tables,
    listing: Listing,
    form: Form,
) -> Result<Report, AllocError>
    ensures { IfOk result (λ report. IsReport old.now.commands new.now.commands listing form
        report.differs report.text.items) }
{
    match listing {
        Listing::Changed => changed_report(alloc, old, new, form),
        Listing::All => whole_report(alloc, old, new, form),
    }
}

/// The report of the sets that have changed.
fn changed_report(
    alloc: Global,
    old: &Tables,
    new: &Tables,
    form: Form,
) -> Result<Report, AllocError>
    ensures { IfOk result (λ report. IsReport old.now.commands new.now.commands listings.Changed
        form report.differs report.text.items) }
{
    let shared = shared_prefixes(alloc, old, new)?;
    let changed = difference(alloc, old, new)?;
    let counts = count(alloc, old, new, &changed)?;
    let found = Findings {
        alloc,
        old,
        new,
        shared: shared.as_slice(),
        listed: &changed,
        counts: &counts,
        changed: &changed,
        total: counts.total(),
    };
    report_of(&found, form)
}

/// The report of all sets.
fn whole_report(alloc: Global, old: &Tables, new: &Tables, form: Form) -> Result<Report, AllocError>
    ensures { IfOk result (λ report. IsReport old.now.commands new.now.commands listings.All form
        report.differs report.text.items) }
{
    let shared = shared_prefixes(alloc, old, new)?;
    let sets = classes(alloc, old, new)?;
    let changed = changed_sets(alloc, old, new, &sets)?;
    let counts = count(alloc, old, new, &sets)?;
    let total = total_of(old, new, &sets, &counts, &changed);
    let found = Findings {
        alloc,
        old,
        new,
        shared: shared.as_slice(),
        listed: &sets,
        counts: &counts,
        changed: &changed,
        total,
    };
    report_of(&found, form)
}

/// The report of what is found.
fn report_of(found: &Findings, form: Form) -> Result<Report, AllocError>
    ensures says { IfOk result (λ report. report.text.items
        ≡ text_in form found.now.old found.now.new found.now.listed found.now.changed) }
    ensures decides { IfOk result (λ report. report.differs
        ≡ Spec.is_different found.now.old found.now.new found.now.changed) }
{
    let text = text_in(found, form)?;
    let differs = !found.changed().is_empty() || !is_same_default(found.old(), found.new());
    Ok(Report { text, differs })
}

/// Its text.
fn text_in(found: &Findings, form: Form) -> Result<Vec<u8>, AllocError>
    ensures { IfOk result (λ text. text.items
        ≡ text_in form found.now.old found.now.new found.now.listed found.now.changed) }
{
    match form {
        Form::Lines => report_text(found),
        Form::Rows => rows_text(found),
    }
}

/// The lines of the sets, and the last lines.
fn report_text(found: &Findings) -> Result<Vec<u8>, AllocError>
    ensures { IfOk result (λ text. text.items ≡ Spec.report_text found.now.old found.now.new
        found.now.listed found.now.changed) }
{
    let mut text = sets_text(found)?;
    add_default_line(&mut text, found.old(), found.new())?;
    add_count_line(&mut text, found.changed().len(), found.total())?;
    Ok(text)
}

/// The lines of the sets.
fn sets_text(found: &Findings) -> Result<Vec<u8>, AllocError>
    ensures { IfOk result (λ text. text.items ≡ Spec.sets_text found.now.old found.now.new
        found.now.listed found.now.changed) }
{
    let mut text = Vec::new(found.alloc());
    let mut block = None;
    for place in 0..found.listed().len() {
        block = add_at(&mut text, found, &block, place)?;
    }
    Ok(text)
}

#[tactic(auto, using(crate::proofs::BlockLemmas::is_block))]
/// Adds the lines of the set at a place after such a block; its own block.
fn add_at(
    text: &mut Vec<u8>,
    found: &Findings,
    before: &Option<Block>,
    place: usize,
) -> Result<Option<Block>, AllocError>
    requires { IsBlock found.now.old found.now.new found.now.listed place before.now }
    ensures text { IfOk result (λ block. IfSome (slice_get found.now.listed place) (λ entry.
        (text.new.items, group_in block) ≡ Spec.with_entry found.now.old found.now.new
        found.now.listed found.now.changed (text.old.items, group_in before.now) entry)) }
    ensures block { IfOk result (λ block. IfSome (slice_get found.now.listed place) (λ entry.
        IsBlock found.now.old found.now.new found.now.listed (place + 1) block)) }
{
    let Some((set, digits)) = found.listed().get(place) else {
        return Ok(None);
    };
    let number = found.number_at(place);
    let block = add_entry(text, found, before, place, number, set, digits)?;
    Ok(Some(block))
}

/// Adds the lines of the set that stands at a place, after such a block; its own block.
fn add_entry(
    text: &mut Vec<u8>,
    found: &Findings,
    before: &Option<Block>,
    place: usize,
    number: u128,
    set: &NumberSet,
    digits: &Dialled,
) -> Result<Block, AllocError>
    requires before { IsBlock found.now.old found.now.new found.now.listed place before.now }
    requires here { IsOf found.now.listed place (group_of set.now) }
    ensures text { OnOk result (text.new.items ≡ text.old.items
        ++ Spec.entry_text found.now.old found.now.new found.now.listed found.now.changed
        (group_in before.now) number (set.now, digits.now)) }
    ensures group { IfOk result (λ block. block.group ≡ group_of set.now) }
    ensures width { IfOk result (λ block. block.width ≡ Spec.width_of found.now.old
        found.now.new found.now.listed (group_of set.now)) }
{
    let group = set.group();
    let block = next_block(found, before, place, &group)?;
    add_heading_if(text, found, before, &group)?;
    add_set_line(text, found, block.width(), number, set, digits)?;
    Ok(block)
}

/// Adds the heading, if another group begins.
fn add_heading_if(
    text: &mut Vec<u8>,
    found: &Findings,
    before: &Option<Block>,
    group: &Group,
) -> Result<(), AllocError>
    ensures { OnOk result (text.new.items ≡ text.old.items ++ Spec.heading_if found.now.old
        found.now.new found.now.listed (group_in before.now) group.now) }
{
    if goes_on(before, group) {
        return Ok(());
    }
    add_heading(text, found, group)
}
