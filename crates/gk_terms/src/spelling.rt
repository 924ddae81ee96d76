//! A short text that is held in place: what names, dialled digits and technology prefixes are made
//! of.

ghost use Rattle.std.specs.Prelude.{◌≡◌, ℕ, ◌-◌, ◌<◌, ◌≤◌, List, [], ◌∷◌, length, take, nat_eq, refl, Some};
ghost use Rattle.std.specs.List.{list_all};
ghost use Rattle.std.specs.Cmp.Lexicographic.{pointwise, slice_cmp};
ghost use Rattle.std.specs.Cmp.Rules.{comparing, hashing};
ghost use Rattle.std.specs.Cmp.{partial_order_from_own_ties};
ghost use Rattle.std.specs.Ordering.{nat_cmp, as_partial_cmp};
ghost use Rattle.std.specs.Hash.{same_Alike};
ghost use Rattle.std.proofs.Common.{rules};
ghost use Rattle.std.proofs.lemmas.Slice.Eq.{bytes_eq-Decides};
ghost use Rattle.gk_terms.specs.Spelling.{IsVisible, is_visible, padded};

use crate::byte_kinds::{ByteKind, are_all};
use std::cmp::Ordering;
use std::hash::{Hash, Hasher};
use std::marker::Model;
use std::simd::prelude::*;
use std::{fmt, str};

/// A text of at most `MOST` visible ASCII characters. The length comes before the characters, so
/// that a short text is in one or two cache lines. A contract sees the text alone.
#[derive(Clone, Copy)]
pub struct Spelling<const MOST: usize> {
    len: u8,
    bytes: [u8; MOST],
}

impl<const MOST: usize> Model for Spelling<MOST> {
    ghost use Rattle.std.specs.Prelude.{ℕ, List, length, take};
    ghost use Rattle.gk_terms.specs.Spelling.{Holds, padded, padded-take, length-take-held};

    ghost Value = { List ℕ };

    ghost view = { λ s. take s.len s.bytes };

    ghost invariant = { λ s. Holds MOST s.bytes s.len };

    ghost inverse = { λ text. record { len = length text; bytes = padded MOST text } };

    ghost inverse_ok = { λ s h i. record {
      len = length-take-held MOST s.bytes s.len h i;
      bytes = padded-take MOST s.bytes s.len h i;
    } };
}

impl<const MOST: usize> Spelling<MOST> {
    /// The text, held in place.
    pub fn new(text: &[u8]) -> Self
        requires fits { length text.now ≤ MOST }
        requires counted { MOST < 256 }
        requires visible { IsVisible text.now }
        ensures { result ≡ text.now }
    {
        Spelling {
            len: text.len() as u8,
            bytes: filled(text),
        }
    }

    /// The same text with room for fewer characters, which it is to fit.
    pub fn with_room<const ROOM: usize>(&self) -> Spelling<ROOM>
        requires less { ROOM ≤ MOST }
        requires fits { length self.now ≤ ROOM }
        ensures { result ≡ self.now }
    {
        Spelling {
            len: self.len,
            bytes: front(&self.bytes),
        }
    }

    /// The text as bytes.
    pub fn as_bytes(&self) -> &[u8]
        ensures spells { result.now ≡ self.now }
        ensures visible { IsVisible self.now }
    {
        &self.bytes[..self.len as usize]
    }

    /// The text as a string.
    pub fn as_str(&self) -> &str
        ensures { result.now ≡ self.now }
    {
        unsafe { str::from_utf8_unchecked(self.as_bytes()) }
    }
}

/// The first bytes.
fn front<const SIZE: usize>(bytes: &[u8]) -> [u8; SIZE]
    requires { SIZE ≤ length bytes.now }
    ensures { result ≡ take SIZE bytes.now }
{
    let mut front = [0; SIZE];
    front.copy_from_slice(&bytes[..SIZE]);
    front
}

/// Whether a byte is from `!` to `~`: neither a blank nor a control byte, and ASCII.
pub fn is_visible(byte: u8) -> bool
    ensures { result ≡ is_visible byte }
{
    0x21 <= byte && byte <= 0x7E
}

/// The kind of the visible bytes.
struct VisibleBytes;

impl ByteKind for VisibleBytes {
    ghost is_of_kind = { is_visible };

    fn is_of_kind(byte: u8) -> bool {
        is_visible(byte)
    }

    fn are_first_eight_of_kind(text: &[u8]) -> bool {
        let bytes = u8x8::from_slice(text);
        (bytes.simd_ge(u8x8::splat(0x21)) & bytes.simd_le(u8x8::splat(0x7E))).all()
    }
}

/// Whether each byte of the text is visible.
pub fn are_visible(text: &[u8]) -> bool
    ensures { result ≡ list_all is_visible text.now }
{
    are_all::<VisibleBytes>(text)
}

/// The text, and zeros after it.
fn filled<const SIZE: usize>(text: &[u8]) -> [u8; SIZE]
    requires { length text.now ≤ SIZE }
    ensures { result ≡ padded SIZE text.now }
{
    let mut bytes = [0; SIZE];
    bytes[..text.len()].copy_from_slice(text);
    bytes
}

/// Texts are compared as strings, in whole words. A slice is compared through the `==` of its
/// items.
impl<const MOST: usize> PartialEq for Spelling<MOST> {
    ghost eq = { pointwise nat_eq };

    ghost laws = { Prim.search (comparing, rules) };

    fn eq(&self, other: &Self) -> bool {
        self.as_str() == other.as_str()
    }
}

impl<const MOST: usize> Eq for Spelling<MOST> {
    ghost laws = { Prim.search (comparing, rules) };
}

impl<const MOST: usize> PartialOrd for Spelling<MOST> {
    ghost partial_cmp = { as_partial_cmp (slice_cmp nat_cmp) };

    ghost laws = { partial_order_from_own_ties (Prim.search (comparing, rules))
        (Prim.search (comparing, rules)) };

    fn partial_cmp(&self, other: &Self) -> Option<Ordering> {
        Some(self.cmp(other))
    }
}

impl<const MOST: usize> Ord for Spelling<MOST> {
    ghost cmp = { slice_cmp nat_cmp };

    ghost total = { Prim.search (comparing, rules) };

    ghost matches_partial_cmp = { λ x y. refl };

    ghost matches_eq = { Prim.search (comparing, rules) };

    fn cmp(&self, other: &Self) -> Ordering {
        self.as_str().cmp(other.as_str())
    }
}

/// The text is fed to a hasher as a whole. A slice is fed byte by byte, a step of the hasher for
/// each.
impl<const MOST: usize> Hash for Spelling<MOST> {
    ghost hash_input = { λ text. text ∷ [] };

    ghost respects_eq = { (same_Alike (λ text. text ∷ []) bytes_eq-Decides).fed };

    fn hash<H: Hasher>(&self, state: &mut H) {
        state.write(self.as_bytes());
    }
}

impl<const MOST: usize> fmt::Display for Spelling<MOST> {
    ghost output = { λ s. Some s };

    fn fmt<W: fmt::Write>(&self, f: &mut fmt::Formatter<W>) -> fmt::Result {
        f.write_str(self.as_str())
    }
}

impl<const MOST: usize> fmt::Debug for Spelling<MOST> {
    fn fmt<W: fmt::Write>(&self, f: &mut fmt::Formatter<W>) -> fmt::Result {
        fmt::Debug::fmt(self.as_str(), f)
    }
}
