//! What decides the zone to which digits are sent.

ghost use Rattle.std.specs.Prelude.{◌≡◌, true, IfSome, Some};
ghost use Rattle.compiler.specs.Plan.{row_meant};
ghost use Rattle.compiler.specs.Technology.{begins_with};
ghost use Rattle.explanation.specs.Steps.{way_by_row, way_of};

use crate::steps::Way;
use compiler::{RowNo, Tables};
use gk_terms::{Dialled, TechPrefix};

/// What decides the zone, by the technology prefix of the digits.
pub(crate) fn way(tables: &Tables, digits: &Dialled, technology: &Option<TechPrefix>) -> Way
    requires { IfSome technology.now (λ prefix. begins_with digits.now prefix ≡ true) }
    ensures { result ≡ way_of tables.now.commands digits.now technology.now }
{
    match technology {
        Some(prefix) => way_with(tables, digits, prefix),
        None => way_by_row(tables, tables.row(digits, 0)),
    }
}

/// The same with a technology prefix.
#[tactic(auto, using(compiler::proofs::TechnologyLemmas::begins_within))]
fn way_with(tables: &Tables, digits: &Dialled, prefix: &TechPrefix) -> Way
    requires { begins_with digits.now prefix.now ≡ true }
    ensures { result ≡ way_of tables.now.commands digits.now (Some prefix.now) }
{
    match tables.hopoff(prefix) {
        Some(_) => Way::HopOff,
        None => way_by_row(tables, tables.row(digits, prefix.as_bytes().len())),
    }
}

/// By the row that was found, which has to be one of these tables'.
fn way_by_row(tables: &Tables, row: Option<RowNo>) -> Way
    ensures { IfSome (row_meant tables.now.commands row) (λ used. result ≡ way_by_row used) }
{
    let Some(row) = row else {
        return Way::Unmatched;
    };
    match tables.pattern(row) {
        Some(pattern) => Way::Matched(*pattern),
        None => Way::Unmatched,
    }
}
