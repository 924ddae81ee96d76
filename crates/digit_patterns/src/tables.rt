//! Tables of patterns, each with a value, and the longest pattern that matches.

ghost use Rattle.std.specs.Prelude.{◌≡◌, ℕ, ◌≤◌, List, length, drop, IfOk, IsOk, Some, None};
ghost use Rattle.gk_terms.specs.Choice.{better};
ghost use Rattle.digit_patterns.specs.PatternParts.{PatternParts};
ghost use Rattle.digit_patterns.specs.Duplicate.{duplicate_of};
ghost use Rattle.digit_patterns.specs.Table.{best_of, best_hit, hit_of, ranks_above};
ghost use Rattle.digit_patterns.specs.declared.tables.TableFault.TheVariants.{NoMemory};

use crate::patterns::Pattern;
use gk_terms::Dialled;
use std::alloc::{AllocError, Global};
use std::collections::HashSet;
use std::marker::Model;
use thiserror::Error;

/// What a table found: the value of the row, and how long the row's pattern is.
#[derive(Clone, Copy, Debug, PartialEq, Eq)]
pub struct Hit {
    /// The value of the row.
    pub value: u32,
    /// How many literals the pattern has: 0 to 32.
    pub literals: u8,
    /// How many dots follow them: 0 to 32.
    pub dots: u8,
    /// Whether a star ends the pattern.
    pub star: bool,
}

/// Why a table could not be built.
#[derive(Clone, Copy, Debug, PartialEq, Eq, Error)]
pub enum TableFault {
    /// This row, counted from 0, is the first whose pattern an earlier row has.
    #[error("row {0} has the pattern of an earlier row")]
    Duplicate(usize),
    /// There is no memory for the table.
    #[error("out of memory")]
    NoMemory,
}

impl From<AllocError> for TableFault {
    ghost from_gives = { λ _ fault. fault ≡ NoMemory };

    fn from(_error: AllocError) -> TableFault {
        TableFault::NoMemory
    }
}

/// A table of patterns, each with a value.
pub trait PrefixTable {
    /// The rows, in their order.
    ghost rows: { Self → List (PatternParts × ℕ) };

    /// The row with the longest pattern that matches the dialled characters from the place `from`
    /// on, counted from 0, or nothing if no row matches. The longest has the most literals, then
    /// the most dots, and then no star: this project's profile of the longest match of Cisco's
    /// `zone prefix` command.
    fn best(&self, dialled: &Dialled, from: usize) -> Option<Hit>
        requires { from ≤ length dialled.now }
        ensures { result ≡ best_hit (rows self.now) (drop from dialled.now) };
}

/// A table that looks at each of its rows.
#[derive(Drop)]
pub struct PlainTable {
    rows: Vec<(Pattern, u32)>,
}

impl Model for PlainTable {
    ghost use Rattle.std.specs.Prelude.{◌≡◌, ℕ, List, None};
    ghost use Rattle.digit_patterns.specs.PatternParts.{PatternParts};
    ghost use Rattle.digit_patterns.specs.Duplicate.{duplicate_of};

    ghost Value = { List (PatternParts × ℕ) };

    ghost view = { λ t. t.rows.items };

    ghost invariant = { λ t. duplicate_of t.rows.items ≡ None };
}

impl PlainTable {
    /// The table of these rows. `Duplicate` names the first row, counted from 0, whose pattern an
    /// earlier row has; `NoMemory` may come in place of any answer.
    pub fn build(alloc: Global, rows: &[(Pattern, u32)]) -> Result<PlainTable, TableFault>
        ensures built { IfOk result (λ table. table ≡ rows.now) }
        ensures distinct { IsOk result → duplicate_of rows.now ≡ None }
        ensures duplicate { (row : ℕ) → result ≡
            Err (TableFault.Duplicate row) → duplicate_of rows.now ≡ Some row }
    {
        if let Some(row) = duplicate_in(alloc, rows)? {
            return Err(TableFault::Duplicate(row));
        }
        Ok(PlainTable {
            rows: Vec::from_slice(alloc, rows)?,
        })
    }
}

impl PrefixTable for PlainTable {
    ghost rows = { λ t. t };

    fn best(&self, dialled: &Dialled, from: usize) -> Option<Hit> {
        best_row(&self.rows, dialled, from).map(|row| told_of(row))
    }
}

/// The first row with the longest pattern that matches.
fn best_row(rows: &[(Pattern, u32)], dialled: &Dialled, from: usize) -> Option<(Pattern, u32)>
    requires { from ≤ length dialled.now }
    ensures { result ≡ best_of rows.now (drop from dialled.now) }
{
    let mut best = None;
    for row in rows {
        if row.0.matches(dialled, from) {
            best = better(best, *row);
        }
    }
    best
}

/// The best row so far, with the next row that matches.
fn better(best: Option<(Pattern, u32)>, row: (Pattern, u32)) -> Option<(Pattern, u32)>
    ensures { result ≡ better ranks_above best row }
{
    match best {
        Some(other) if !row.0.outranks(&other.0) => Some(other),
        _ => Some(row),
    }
}

/// What a hit says of a row.
fn told_of(row: (Pattern, u32)) -> Hit
    ensures { result ≡ hit_of row }
{
    let (pattern, value) = row;
    let (literals, dots, _) = pattern.rank();
    Hit {
        value,
        literals,
        dots,
        star: pattern.has_star(),
    }
}

/// The first row, counted from 0, whose pattern an earlier row has.
fn duplicate_in(alloc: Global, rows: &[(Pattern, u32)]) -> Result<Option<usize>, AllocError>
    ensures { IfOk result (λ row. row ≡ duplicate_of rows.now) }
{
    let mut seen = HashSet::new(alloc);
    for (place, row) in rows.iter().enumerate() {
        if !seen.insert(row.0)? {
            return Ok(Some(place));
        }
    }
    Ok(None)
}
