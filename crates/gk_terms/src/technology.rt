//! Technology prefixes.

ghost use Rattle.std.specs.Prelude.{◌≡◌, ℕ, List, Some};
ghost use Rattle.std.specs.Option.{ok_or};
ghost use Rattle.std.specs.List.{list_all};
ghost use Rattle.gk_terms.specs.TechPrefix.{IsTechPrefix, is_tech_prefix, is_technology_byte, tech_prefix_of, without_star};

use crate::faults::TermFault;
use crate::limits::MOST_TECHNOLOGY;
use crate::spelling::Spelling;
use std::fmt;
use std::marker::Model;

/// A technology prefix: 1 to 11 of `0` to `9` and `#`, held in place.
/// From Cisco's `gw-type-prefix`; the character set is this project's profile.
#[derive(Clone, Copy, PartialEq, Eq, PartialOrd, Ord, Hash)]
pub struct TechPrefix {
    spelling: Spelling<MOST_TECHNOLOGY>,
}

impl Model for TechPrefix {
    ghost use Rattle.std.specs.Prelude.{ℕ, List};
    ghost use Rattle.gk_terms.specs.TechPrefix.{IsTechPrefix};

    ghost Value = { List ℕ };

    ghost view = { λ p. p.spelling };

    ghost invariant = { λ p. IsTechPrefix p.spelling };

    ghost inverse = { λ text. record { spelling = text } };
}

impl TechPrefix {
    #[tactic(auto, using(crate::proofs::Visible::visible_from_tech_prefix))]
    /// Reads a technology prefix; one star at its end is dropped. Any other text is `BadDigits`.
    /// Takes no memory.
    pub fn read(text: &[u8]) -> Result<TechPrefix, TermFault>
        ensures { result ≡ ok_or (tech_prefix_of text.now) TermFault.BadDigits }
    {
        let prefix = without_star(text);
        if is_tech_prefix(prefix) {
            Ok(TechPrefix {
                spelling: Spelling::new(prefix),
            })
        } else {
            Err(TermFault::BadDigits)
        }
    }

    /// The characters of the prefix.
    pub fn as_bytes(&self) -> &[u8]
        ensures spells { result.now ≡ self.now }
        ensures prefix { IsTechPrefix self.now }
    {
        self.spelling.as_bytes()
    }

    /// The same as text.
    pub fn as_str(&self) -> &str
        ensures { result.now ≡ self.now }
    {
        self.spelling.as_str()
    }
}

/// The text without one star at its end.
fn without_star(text: &[u8]) -> &[u8]
    ensures { result.now ≡ without_star text.now }
{
    match text {
        [front @ .., b'*'] => front,
        _ => text,
    }
}

/// Whether a byte may be in a technology prefix.
fn is_technology_byte(byte: u8) -> bool
    ensures { result ≡ is_technology_byte byte }
{
    byte.is_ascii_digit() || byte == b'#'
}

/// Whether all bytes may.
fn are_technology(text: &[u8]) -> bool
    ensures { result ≡ list_all is_technology_byte text.now }
{
    text.iter().all(|byte| is_technology_byte(*byte))
}

/// Whether the text is a technology prefix.
fn is_tech_prefix(text: &[u8]) -> bool
    ensures { result ≡ is_tech_prefix text.now }
{
    1 <= text.len() && text.len() <= MOST_TECHNOLOGY && are_technology(text)
}

impl fmt::Display for TechPrefix {
    ghost output = { λ p. Some p };

    fn fmt<W: fmt::Write>(&self, f: &mut fmt::Formatter<W>) -> fmt::Result {
        f.write_str(self.as_str())
    }
}

impl fmt::Debug for TechPrefix {
    fn fmt<W: fmt::Write>(&self, f: &mut fmt::Formatter<W>) -> fmt::Result {
        fmt::Debug::fmt(self.as_str(), f)
    }
}
