//! The words of a line.

ghost use Rattle.std.specs.Prelude.{◌≡◌, ℕ, ◌<◌, ◌≤◌, List, [], ◌∷◌, length, take, map};
ghost use Rattle.std.specs.List.{prefix_len, position_or_len};
ghost use Rattle.std.specs.Simd.Lanes.{mask_l};
ghost use Rattle.std.specs.Iterator.{YieldsFirstBy, item_count};
ghost use Rattle.gk_terms.specs.Text.{is_blank, words_of};

use std::marker::Model;
use std::simd::prelude::*;

/// The words of a line, from the left: its parts between spaces and tabs. A contract sees the bytes
/// that are left.
#[derive(Drop)]
pub struct Words<'a> {
    rest: &'a [u8],
}

impl<'a> Model for Words<'a> {
    ghost use Rattle.std.specs.Prelude.{ℕ, List};

    ghost Value = { List ℕ };

    ghost view = { λ w. w.rest.now };
}

impl<'a> Words<'a> {
    /// The words of a line.
    pub fn of(line: &'a [u8]) -> Words<'a>
        ensures { result ≡ line.now }
    {
        Words { rest: line }
    }
}

impl<'a> Iterator for Words<'a> {
    type Item = &'a [u8];

    ghost next_gives = { YieldsFirstBy (λ w. w.now) words_of };

    ghost remaining = { item_count words_of };

    fn next(&mut self) -> Option<&'a [u8]> {
        let (word, rest) = first_word(self.rest);
        if word.is_empty() {
            self.rest = &[];
            return None;
        }
        self.rest = rest;
        Some(word)
    }
}

/// Whether a byte is a space or a tab.
fn is_blank(byte: u8) -> bool
    ensures { result ≡ is_blank byte }
{
    byte == b' ' || byte == b'\t'
}

/// The first word of the line, empty if there is none, and what comes after it.
fn first_word(line: &[u8]) -> (&[u8], &[u8])
    ensures word { 0 < length result.0.now → words_of line.now ≡
        result.0.now ∷ words_of result.1.now }
    ensures none { length result.0.now ≡ 0 → words_of line.now ≡ [] }
{
    let (_, rest) = line.split_at(blanks_in_front(line));
    rest.split_at(length_of_word(rest))
}

/// How many blanks the line begins with.
fn blanks_in_front(line: &[u8]) -> usize
    ensures { result ≡ prefix_len is_blank line.now }
{
    line.iter().take_while(|byte| is_blank(**byte)).count()
}

/// How many bytes come before the first blank. Sixteen are looked at together while so many are
/// left, and the rest one by one: that takes some nine instructions for each, and the processor
/// cannot foresee where such a loop ends.
fn length_of_word(line: &[u8]) -> usize
    ensures { result ≡ position_or_len is_blank line.now }
{
    let mut at = 0;
    while line.len() - at >= 16 {
        let blanks = blanks_in_sixteen(&line[at..]);
        if blanks != 0 {
            return at + blanks.trailing_zeros() as usize;
        }
        at += 16;
    }
    at + bytes_before_blank(&line[at..])
}

/// Which of the first 16 bytes are blanks: bit k stands for byte k.
fn blanks_in_sixteen(line: &[u8]) -> u64
    requires { 16 ≤ length line.now }
    ensures { result ≡ mask_l (map is_blank (take 16 line.now)) }
{
    let bytes = u8x16::from_slice(line);
    (bytes.simd_eq(u8x16::splat(b' ')) | bytes.simd_eq(u8x16::splat(b'\t'))).to_bitmask()
}

/// How many bytes come before the first blank, looked at one by one.
fn bytes_before_blank(line: &[u8]) -> usize
    ensures { result ≡ position_or_len is_blank line.now }
{
    line.iter().take_while(|byte| !is_blank(**byte)).count()
}
