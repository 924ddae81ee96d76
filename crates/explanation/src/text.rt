//! A text that is made.

ghost use Rattle.std.specs.Prelude.{◌≡◌, [], ◌∷◌, ◌++◌, OnOk, IfOk, decimal};
ghost use Rattle.gk_terms.specs.Text.{is_empty};
ghost use Rattle.explanation.specs.Lists.{begun, listed};

use itoa::Buffer;
use std::alloc::{AllocError, Global};
use std::marker::Model;

/// A text that is made from its beginning on. A contract sees its bytes. After an `AllocError`
/// nothing is promised of it.
#[derive(Drop)]
pub struct Text {
    bytes: Vec<u8>,
}

impl Model for Text {
    ghost use Rattle.std.specs.Prelude.{ℕ, List};

    ghost Value = { List ℕ };

    ghost view = { λ t. t.bytes.items };
}

impl Text {
    /// Without a byte. Takes no memory.
    pub(crate) fn new(alloc: Global) -> Text
        ensures { result ≡ [] }
    {
        Text {
            bytes: Vec::new(alloc),
        }
    }

    /// Its bytes.
    pub fn as_bytes(&self) -> &[u8]
        ensures { result.now ≡ self.now }
    {
        &self.bytes
    }

    /// Where its memory comes from.
    pub(crate) fn allocator(&self) -> &Global {
        self.bytes.allocator()
    }

    /// Whether it has no byte.
    pub(crate) fn is_empty(&self) -> bool
        ensures { result ≡ is_empty self.now }
    {
        self.bytes.is_empty()
    }

    /// Drops all bytes.
    pub(crate) fn clear(&mut self)
        ensures { self.new ≡ [] }
    {
        self.bytes.clear();
    }

    /// Adds bytes at the end.
    pub(crate) fn add(&mut self, bytes: &[u8]) -> Result<(), AllocError>
        ensures { OnOk result (self.new ≡ self.old ++ bytes.now) }
    {
        self.bytes.extend_from_slice(bytes)
    }

    /// Adds a word, with a space before it.
    pub(crate) fn word(&mut self, word: &[u8]) -> Result<(), AllocError>
        ensures { OnOk result (self.new ≡ self.old ++ 32 ∷ word.now) }
    {
        self.add(b" ")?;
        self.add(word)
    }

    /// Adds a number.
    pub(crate) fn number(&mut self, number: u64) -> Result<(), AllocError>
        ensures { OnOk result (self.new ≡ self.old ++ decimal number) }
    {
        let mut digits = Buffer::new();
        self.add(digits.format(number).as_bytes())
    }

    /// Begins the next item of a list.
    pub(crate) fn begin_item(&mut self) -> Result<(), AllocError>
        ensures { OnOk result (self.new ≡ begun self.old) }
    {
        if self.is_empty() {
            return Ok(());
        }
        self.add(b"; ")
    }

    /// The list, or `none` if it is empty.
    pub(crate) fn or_none(mut self) -> Result<Text, AllocError>
        ensures { IfOk result (λ text. text ≡ listed self) }
    {
        if self.is_empty() {
            self.add(b"none")?;
        }
        Ok(self)
    }
}
