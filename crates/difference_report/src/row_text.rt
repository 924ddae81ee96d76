//! Rows of comma-separated fields, as a text.

ghost use Rattle.std.specs.Prelude.{◌≡◌, ◌++◌, [], map, IfOk, OnOk};
ghost use Rattle.csv.specs.Writing.{default_writer, row_text};
ghost use Rattle.difference_report.specs.RowText.{IsBetweenRows, written};

use csv::{Writer, WriterBuilder};
use std::alloc::{AllocError, Global};
use std::marker::Model;

/// A text of rows. A contract sees the text.
#[derive(Drop)]
pub(crate) struct RowText {
    rows: Writer<Vec<u8>>,
    alloc: Global,
}

impl Model for RowText {
    ghost use Rattle.std.specs.Prelude.{ℕ, List};
    ghost use Rattle.difference_report.specs.RowText.{IsBetweenRows, written};

    ghost Value = { List ℕ };

    ghost view = { λ r. written r.rows };

    ghost invariant = { λ r. IsBetweenRows r.rows };
}

impl RowText {
    /// No row.
    pub(crate) fn new(alloc: Global) -> RowText
        ensures { result ≡ [] }
    {
        RowText {
            rows: rows_over(Vec::new(alloc)),
            alloc,
        }
    }

    /// Adds a row: its fields as `csv` writes them by default, with commas between, in quotes only
    /// if they need them, and a line feed. If memory runs out no row is there any more.
    pub(crate) fn add(&mut self, fields: &[&[u8]]) -> Result<(), AllocError>
        ensures { OnOk result (self.new
            ≡ self.old ++ row_text default_writer (map (λ f. f.now) fields.now)) }
    {
        match self.rows.write_fields(fields) {
            Ok(()) => Ok(()),
            Err(_) => {
                self.rows = rows_over(Vec::new(self.alloc));
                Err(AllocError)
            }
        }
    }

    /// The text.
    pub(crate) fn into_text(self) -> Result<Vec<u8>, AllocError>
        ensures { IfOk result (λ text. text.items ≡ self) }
    {
        match self.rows.into_inner() {
            Ok(text) => Ok(text),
            Err(_) => Err(AllocError),
        }
    }
}

/// Rows over a buffer.
fn rows_over(text: Vec<u8>) -> Writer<Vec<u8>>
    ensures text { written result ≡ text.items }
    ensures between { IsBetweenRows result }
{
    WriterBuilder::new().from_writer(text)
}
