//! The text of a report.

ghost use Rattle.std.specs.Prelude.{◌≡◌};
ghost use Rattle.gk_protocol.specs.Answers.{report_lines};

use gk_terms::text_lines::RawLines;
use std::marker::Model;

/// The lines of a trial's report, one after another, each with its line feed. A contract sees their
/// bytes.
#[derive(Drop)]
pub struct ReportText {
    bytes: Vec<u8>,
}

impl Model for ReportText {
    ghost use Rattle.std.specs.Prelude.{ℕ, List};

    ghost Value = { List ℕ };

    ghost view = { λ r. r.bytes.items };
}

impl ReportText {
    /// A report of these bytes.
    pub fn of(bytes: Vec<u8>) -> ReportText
        ensures { result ≡ bytes.items }
    {
        ReportText { bytes }
    }

    /// The bytes of the report.
    pub fn as_bytes(&self) -> &[u8]
        ensures { result.now ≡ self.now }
    {
        &self.bytes
    }

    /// How many lines it has; 4,294,967,295 if there are more.
    pub fn line_count(&self) -> u32
        ensures { result ≡ report_lines self.now }
    {
        line_count(&self.bytes)
    }
}

/// How many lines a text has; 4,294,967,295 if there are more.
fn line_count(text: &[u8]) -> u32
    ensures { result ≡ report_lines text.now }
{
    let mut count = 0u32;
    for _line in RawLines::of(text) {
        count = count.saturating_add(1);
    }
    count
}
