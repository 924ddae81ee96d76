//! Names of zones, of endpoints and of domains.

ghost use Rattle.std.specs.Prelude.{◌≡◌, ℕ, List, Some};
ghost use Rattle.std.specs.Option.{ok_or};
ghost use Rattle.gk_terms.specs.Name.{IsName, is_name, name_of};

use crate::faults::TermFault;
use crate::limits::MOST_NAME_BYTES;
use crate::spelling::{Spelling, are_visible};
use std::fmt;
use std::marker::Model;

/// The name of a zone, of an endpoint or of a domain: 1 to 128 bytes from 0x21 to 0x7E.
/// Names compare byte by byte. It holds its bytes in place. This project's profile of the
/// names in Cisco's `zone local` and of H.225.0's endpoint identifiers.
#[derive(Clone, Copy, PartialEq, Eq, PartialOrd, Ord, Hash)]
pub struct Name {
    spelling: Spelling<MOST_NAME_BYTES>,
}

impl Model for Name {
    ghost use Rattle.std.specs.Prelude.{ℕ, List};
    ghost use Rattle.gk_terms.specs.Name.{IsName};

    ghost Value = { List ℕ };

    ghost view = { λ n. n.spelling };

    ghost invariant = { λ n. IsName n.spelling };

    ghost inverse = { λ text. record { spelling = text } };
}

impl Name {
    /// Reads a name. Any other text is `BadName`. Takes no memory.
    pub fn read(text: &[u8]) -> Result<Name, TermFault>
        ensures { result ≡ ok_or (name_of text.now) TermFault.BadName }
    {
        if is_name(text) {
            Ok(Name {
                spelling: Spelling::new(text),
            })
        } else {
            Err(TermFault::BadName)
        }
    }

    /// The same name, copied by reading only its length and characters. A plain copy reads all 129
    /// bytes, which lie in three cache lines: this is for a name that is not in a near cache.
    pub fn copied(&self) -> Name
        ensures { result ≡ self.now }
    {
        Name {
            spelling: Spelling::new(self.as_bytes()),
        }
    }

    /// The bytes of the name.
    pub fn as_bytes(&self) -> &[u8]
        ensures spells { result.now ≡ self.now }
        ensures name { IsName self.now }
    {
        self.spelling.as_bytes()
    }

    /// The bytes as they are held.
    pub fn spelling(&self) -> &Spelling<MOST_NAME_BYTES>
        ensures spells { result.now ≡ self.now }
        ensures name { IsName self.now }
    {
        &self.spelling
    }

    /// The name as text.
    pub fn as_str(&self) -> &str
        ensures { result.now ≡ self.now }
    {
        self.spelling.as_str()
    }
}

/// Whether the text is a name.
fn is_name(text: &[u8]) -> bool
    ensures { result ≡ is_name text.now }
{
    1 <= text.len() && text.len() <= MOST_NAME_BYTES && are_visible(text)
}

impl fmt::Display for Name {
    ghost output = { λ n. Some n };

    fn fmt<W: fmt::Write>(&self, f: &mut fmt::Formatter<W>) -> fmt::Result {
        f.write_str(self.as_str())
    }
}

impl fmt::Debug for Name {
    fn fmt<W: fmt::Write>(&self, f: &mut fmt::Formatter<W>) -> fmt::Result {
        fmt::Debug::fmt(self.as_str(), f)
    }
}
