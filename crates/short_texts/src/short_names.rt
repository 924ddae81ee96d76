//! Names of few characters.

ghost use Rattle.std.specs.Prelude.{◌≡◌, ◌↔◌, ◌<◌, true, length, None, IfSome};

use gk_terms::Name;
use gk_terms::spelling::Spelling;
use std::marker::Model;

/// How many characters a short name may have.
pub const SHORT_NAME: usize = 19;

/// A name of at most 19 characters, held in 20 bytes. A contract sees the name.
#[derive(Clone, Copy)]
pub struct ShortName {
    spelling: Spelling<SHORT_NAME>,
}

impl Model for ShortName {
    ghost use Rattle.std.specs.Prelude.{ℕ, List};
    ghost use Rattle.gk_terms.specs.Name.{IsName};

    ghost Value = { List ℕ };

    ghost view = { λ n. n.spelling };

    ghost invariant = { λ n. IsName n.spelling };

    ghost inverse = { λ text. record { spelling = text } };
}

impl ShortName {
    /// The same name, if it is short.
    pub fn of(name: &Name) -> Option<ShortName>
        ensures same { IfSome result (λ short. short ≡ name.now) }
        ensures long { (result ≡ None) ↔ (19 < length name.now) }
    {
        if name.as_bytes().len() > SHORT_NAME {
            return None;
        }
        Some(ShortName {
            spelling: name.spelling().with_room(),
        })
    }

    /// Whether it is this name.
    pub fn is(&self, name: &Name) -> bool
        ensures { (result ≡ true) ↔ (self.now ≡ name.now) }
    {
        self.spelling.as_str() == name.as_str()
    }

    /// The bytes of the name.
    pub fn as_bytes(&self) -> &[u8]
        ensures { result.now ≡ self.now }
    {
        self.spelling.as_bytes()
    }

    /// The name.
    pub fn name(&self) -> Name
        ensures { result ≡ self.now }
    {
        match Name::read(self.spelling.as_bytes()) {
            Ok(name) => name,
            Err(_) => unreachable!(),
        }
    }
}
