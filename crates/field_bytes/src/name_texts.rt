//! Names where they stand among the bytes of an entry.

ghost use Rattle.std.specs.Prelude.{◌≡◌, ◌↔◌, true};
ghost use Rattle.std.specs.List.{list_all};
ghost use Rattle.gk_terms.specs.Name.{IsName, is_name, name_of};
ghost use Rattle.gk_terms.specs.Spelling.{is_visible};

use gk_terms::Name;
use gk_terms::limits::MOST_NAME_BYTES;
use std::marker::Model;

/// A name where it stands among the bytes of an entry, so that nobody copies it who only compares
/// it. A contract sees the name.
#[derive(Drop)]
pub struct NameText<'a> {
    text: &'a [u8],
}

impl<'a> Model for NameText<'a> {
    ghost use Rattle.std.specs.Prelude.{ℕ, List};
    ghost use Rattle.std.specs.List.{list_all};
    ghost use Rattle.gk_terms.specs.Name.{IsName};

    ghost Value = { List ℕ };

    ghost view = { λ n. n.text.now };

    ghost invariant = { λ n. IsName n.text.now };
}

impl<'a> NameText<'a> {
    /// The name that the text spells, if it spells one.
    pub fn read(text: &'a [u8]) -> Option<NameText<'a>>
        ensures { result ≡ name_of text.now }
    {
        if is_name(text) {
            Some(NameText { text })
        } else {
            None
        }
    }

    /// The name that the text is, which is not tried again.
    pub fn known(text: &'a [u8]) -> NameText<'a>
        requires { IsName text.now }
        ensures { result ≡ text.now }
    {
        NameText { text }
    }

    /// The same name, lent once more.
    pub fn lent(&self) -> NameText<'a>
        ensures { result ≡ self.now }
    {
        NameText { text: self.text }
    }

    /// The name, copied.
    pub fn name(&self) -> Name
        ensures { result ≡ self.now }
    {
        match Name::read(self.text) {
            Ok(name) => name,
            Err(_) => unreachable!(),
        }
    }

    /// Whether it is this name.
    pub fn is(&self, name: &Name) -> bool
        ensures { (result ≡ true) ↔ (name.now ≡ self.now) }
    {
        *name.as_bytes() == *self.text
    }
}

/// Whether the text is a name.
fn is_name(text: &[u8]) -> bool
    ensures { result ≡ is_name text.now }
{
    1 <= text.len() && text.len() <= MOST_NAME_BYTES && are_visible(text)
}

/// Whether each byte is one of a name.
fn are_visible(text: &[u8]) -> bool
    ensures { result ≡ list_all is_visible text.now }
{
    text.iter().all(|byte| is_visible(*byte))
}

/// Whether the byte is one of a name.
fn is_visible(byte: u8) -> bool
    ensures { result ≡ is_visible byte }
{
    33 <= byte && byte <= 126
}
