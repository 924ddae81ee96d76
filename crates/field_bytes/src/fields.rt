//! The fields of an entry, as they are read from its bytes.

ghost use Rattle.std.specs.Prelude.{◌≡◌, MatchOption, IsSome, Some, None};
ghost use Rattle.field_bytes.specs.Fields.{Gives, address_in, byte_in, dialled_in, name_in, number_in, text_in};

use crate::name_texts::NameText;
use gk_terms::{Address, Dialled, Units};
use std::marker::Model;

/// The bytes of an entry that are still to be read, from the left. Each call reads one field; it
/// gives nothing if the bytes are not those of such a field, and what is left is then not said. A
/// contract sees the bytes.
#[derive(Drop)]
pub struct Fields<'a> {
    rest: &'a [u8],
}

impl<'a> Model for Fields<'a> {
    ghost use Rattle.std.specs.Prelude.{ℕ, List};

    ghost Value = { List ℕ };

    ghost view = { λ f. f.rest.now };
}

impl<'a> Fields<'a> {
    /// The fields of these bytes.
    pub fn of(bytes: &'a [u8]) -> Fields<'a>
        ensures { result ≡ bytes.now }
    {
        Fields { rest: bytes }
    }

    /// The bytes that are left.
    pub fn rest(&self) -> &'a [u8]
        ensures { result.now ≡ self.now }
    {
        self.rest
    }

    /// A byte.
    pub fn byte(&mut self) -> Option<u8>
        ensures { Gives (byte_in self.old) result self.new }
    {
        match self.rest {
            [byte, rest @ ..] => {
                self.rest = rest;
                Some(*byte)
            }
            [] => None,
        }
    }

    /// A number.
    pub fn number(&mut self) -> Option<u32>
        ensures { Gives (number_in self.old) result self.new }
    {
        if self.rest.len() < 4 {
            return None;
        }
        let (front, rest) = self.rest.split_at(4);
        self.rest = rest;
        Some(u32::from_le_bytes([front[0], front[1], front[2], front[3]]))
    }

    /// A bandwidth, in units of 100 bit/s.
    pub fn units(&mut self) -> Option<Units>
        ensures { Gives (number_in self.old) result self.new }
    {
        Some(Units::new(self.number()?))
    }

    /// A text after its length, as it stands.
    fn text(&mut self) -> Option<&'a [u8]>
        ensures { MatchOption result (text_in self.old ≡ None)
            (λ text. text_in self.old ≡ Some (text.now, self.new)) }
    {
        let size = usize::from(self.byte()?);
        if self.rest.len() < size {
            return None;
        }
        let (text, rest) = self.rest.split_at(size);
        self.rest = rest;
        Some(text)
    }

    /// A name.
    pub fn name(&mut self) -> Option<NameText<'a>>
        ensures { Gives (name_in self.old) result self.new }
    {
        NameText::read(self.text()?)
    }

    #[tactic(auto, using(crate::proofs::KnownLemmas::text_there, crate::proofs::KnownLemmas::name_known))]
    /// A name, which is known to be there, so that its text is not tried.
    pub fn known_name(&mut self) -> NameText<'a>
        requires { IsSome (name_in self.old) }
        ensures { name_in self.old ≡ Some (result, self.new) }
    {
        match self.text() {
            Some(text) => NameText::known(text),
            None => unreachable!(),
        }
    }

    /// Dialled digits.
    pub fn dialled(&mut self) -> Option<Dialled>
        ensures { Gives (dialled_in self.old) result self.new }
    {
        Dialled::read(self.text()?).ok()
    }

    /// An address.
    pub fn address(&mut self) -> Option<Address>
        ensures { Gives (address_in self.old) result self.new }
    {
        if self.rest.len() < 6 {
            return None;
        }
        let (front, rest) = self.rest.split_at(6);
        self.rest = rest;
        let port = u16::from_le_bytes([front[4], front[5]]);
        if port == 0 {
            return None;
        }
        Some(Address::new([front[0], front[1], front[2], front[3]], port))
    }
}
