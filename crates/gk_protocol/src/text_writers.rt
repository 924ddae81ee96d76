//! A writer into memory.

ghost use Rattle.std.specs.Prelude.{◌≡◌, [], Some};

use crate::report_texts::ReportText;
use gk_lines::{Sink, StreamFailed};
use std::alloc::Global;

/// A text that is being written. As a writer it fails exactly if memory runs out for a call.
#[derive(Drop)]
pub(crate) struct TextWriter {
    bytes: Vec<u8>,
    failures: u64,
}

impl TextWriter {
    /// With no byte yet.
    pub(crate) fn new(alloc: Global) -> TextWriter
        ensures { result.bytes.items ≡ [] }
    {
        TextWriter {
            bytes: Vec::new(alloc),
            failures: 0,
        }
    }

    /// The text as it was written.
    pub(crate) fn into_text(self) -> ReportText
        ensures { result ≡ self.bytes.items }
    {
        ReportText::of(self.bytes)
    }
}

impl Sink for TextWriter {
    ghost contents = { λ writer. Some writer.bytes.items };

    ghost failures = { λ writer. writer.failures };

    fn write(&mut self, bytes: &[u8]) -> Result<usize, StreamFailed> {
        match self.bytes.extend_from_slice(bytes) {
            Ok(()) => Ok(bytes.len()),
            Err(_) => {
                self.failures = self.failures.wrapping_add(1);
                Err(StreamFailed)
            }
        }
    }
}
