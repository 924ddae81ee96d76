//! Lines of a text, each with its line feed.

ghost use Rattle.std.specs.Prelude.{◌≡◌, ◌++◌, ◌∷◌, [], true, length, ◌-◌, ◌==◌, IfSome, OnOk, slice_index};
ghost use Rattle.gk_terms.specs.Text.{lines_of};
ghost use Rattle.gk_commands.specs.WholeLines.{ReadsAsLine};

use gk_terms::text_lines::bytes_before_feed;
use std::alloc::{AllocError, Global};
use std::hash::{FoldHasher, Hasher};
use std::marker::Model;

/// Lines one after another, each with its line feed. A contract sees what they say.
#[derive(Drop)]
pub struct WholeLines {
    bytes: Vec<u8>,
}

impl Model for WholeLines {
    ghost use Rattle.std.specs.Prelude.{ℕ, List};
    ghost use Rattle.gk_terms.specs.Text.{lines_of};
    ghost use Rattle.gk_commands.specs.WholeLines.{EndsALine};

    ghost Value = { List (List ℕ) };

    ghost view = { λ l. lines_of l.bytes.items };

    ghost invariant = { λ l. EndsALine l.bytes.items };
}

impl WholeLines {
    /// No lines. It takes no memory.
    pub fn new(alloc: Global) -> WholeLines
        ensures { result ≡ [] }
    {
        WholeLines {
            bytes: Vec::new(alloc),
        }
    }

    /// With one more line; nothing if it has a line feed or ends with a carriage return, because it
    /// would not be read back, or if memory runs out.
    pub fn with_line(mut self, line: &[u8]) -> Option<WholeLines>
        ensures { IfSome result (λ lines. lines ≡ self ++ line.now ∷ []) }
    {
        if !reads_as_line(line) {
            return None;
        }
        match put_line(&mut self.bytes, line) {
            Ok(()) => Some(self),
            Err(_) => None,
        }
    }

    /// The same without room for more, if the smaller block is given.
    pub fn shrunk(mut self) -> WholeLines
        ensures { result ≡ self }
    {
        self.bytes.shrink_to_fit();
        self
    }

    /// The text of the lines.
    pub fn as_bytes(&self) -> &[u8]
        ensures { lines_of result.now ≡ self.now }
    {
        &self.bytes
    }

    /// Whether these are the lines of the other text too, byte by byte.
    pub fn is_same_text(&self, other: &WholeLines) -> bool
        ensures { result ≡ true → self.now ≡ other.now }
    {
        self.bytes.as_slice() == other.bytes.as_slice()
    }

    /// A hash of the text.
    pub fn text_hash(&self) -> u64 {
        let mut hasher = FoldHasher::default();
        hasher.write(&self.bytes);
        hasher.finish()
    }
}

/// Puts a line and its line feed at the end. If memory runs out, the text has to be dropped.
fn put_line(bytes: &mut Vec<u8>, line: &[u8]) -> Result<(), AllocError>
    ensures { OnOk result (bytes.new.items ≡ (bytes.old.items ++ line.now) ++ 10 ∷ []) }
{
    bytes.reserve(line.len() + 1)?;
    bytes.extend_from_slice(line)?;
    bytes.push_reserved(b'\n');
    Ok(())
}

/// Whether a line is read back as it is if a line feed is put after it.
fn reads_as_line(line: &[u8]) -> bool
    ensures { result ≡ true → ReadsAsLine line.now }
{
    bytes_before_feed(line) == line.len() && !ends_with_return(line)
}

/// Whether the last byte is a carriage return.
fn ends_with_return(line: &[u8]) -> bool
    ensures { result ≡ (slice_index line.now (length line.now - 1) == 13) }
{
    match line.last() {
        Some(byte) => *byte == b'\r',
        None => false,
    }
}
