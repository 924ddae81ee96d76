//! Dialled digits.

ghost use Rattle.std.specs.Prelude.{◌≡◌, ℕ, ◌≤◌, List, length, Some};
ghost use Rattle.std.specs.Option.{ok_or};
ghost use Rattle.std.specs.List.{list_all};
ghost use Rattle.gk_terms.specs.Dialled.{IsDialled, is_dialled, is_dialled_byte, dialled_of};

use crate::byte_kinds::{ByteKind, are_all};
use crate::faults::TermFault;
use crate::limits::MOST_DIALLED;
use crate::spelling::Spelling;
use std::fmt;
use std::marker::Model;
use std::simd::prelude::*;

/// Dialled digits: 1 to 32 of `0` to `9`, `#` and `*`, held in place.
/// The character set is that of H.225.0's dialedDigits without the comma.
#[derive(Clone, Copy, PartialEq, Eq, PartialOrd, Ord, Hash)]
pub struct Dialled {
    spelling: Spelling<MOST_DIALLED>,
}

impl Model for Dialled {
    ghost use Rattle.std.specs.Prelude.{ℕ, List};
    ghost use Rattle.gk_terms.specs.Dialled.{IsDialled};

    ghost Value = { List ℕ };

    ghost view = { λ d. d.spelling };

    ghost invariant = { λ d. IsDialled d.spelling };

    ghost inverse = { λ text. record { spelling = text } };
}

impl Dialled {
    #[tactic(auto, using(crate::proofs::Visible::visible_from_dialled))]
    /// Reads dialled digits. Any other text is `BadDigits`. Takes no memory.
    pub fn read(text: &[u8]) -> Result<Dialled, TermFault>
        ensures { result ≡ ok_or (dialled_of text.now) TermFault.BadDigits }
    {
        if is_dialled(text) {
            Ok(Dialled {
                spelling: Spelling::new(text),
            })
        } else {
            Err(TermFault::BadDigits)
        }
    }

    /// The characters that were dialled.
    pub fn as_bytes(&self) -> &[u8]
        ensures spells { result.now ≡ self.now }
        ensures dialled { IsDialled self.now }
        ensures within { length self.now ≤ MOST_DIALLED }
    {
        self.spelling.as_bytes()
    }

    /// The same as text.
    pub fn as_str(&self) -> &str
        ensures { result.now ≡ self.now }
    {
        self.spelling.as_str()
    }
}

/// Whether a byte may be among dialled digits.
fn is_dialled_byte(byte: u8) -> bool
    ensures { result ≡ is_dialled_byte byte }
{
    byte.is_ascii_digit() || byte == b'#' || byte == b'*'
}

/// The kind of the bytes that may be dialled.
struct DialledBytes;

impl ByteKind for DialledBytes {
    ghost is_of_kind = { is_dialled_byte };

    fn is_of_kind(byte: u8) -> bool {
        is_dialled_byte(byte)
    }

    fn are_first_eight_of_kind(text: &[u8]) -> bool {
        let bytes = u8x8::from_slice(text);
        let digit = bytes.simd_ge(u8x8::splat(b'0')) & bytes.simd_le(u8x8::splat(b'9'));
        let hash_sign = bytes.simd_eq(u8x8::splat(b'#'));
        let star = bytes.simd_eq(u8x8::splat(b'*'));
        (digit | hash_sign | star).all()
    }
}

/// Whether all bytes may.
fn are_dialled(text: &[u8]) -> bool
    ensures { result ≡ list_all is_dialled_byte text.now }
{
    are_all::<DialledBytes>(text)
}

/// Whether the text is dialled digits.
fn is_dialled(text: &[u8]) -> bool
    ensures { result ≡ is_dialled text.now }
{
    1 <= text.len() && text.len() <= MOST_DIALLED && are_dialled(text)
}

impl fmt::Display for Dialled {
    ghost output = { λ d. Some d };

    fn fmt<W: fmt::Write>(&self, f: &mut fmt::Formatter<W>) -> fmt::Result {
        f.write_str(self.as_str())
    }
}

impl fmt::Debug for Dialled {
    fn fmt<W: fmt::Write>(&self, f: &mut fmt::Formatter<W>) -> fmt::Result {
        fmt::Debug::fmt(self.as_str(), f)
    }
}
