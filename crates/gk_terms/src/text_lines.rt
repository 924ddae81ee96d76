//! The lines of a text.

ghost use Rattle.std.specs.Prelude.{◌≡◌, ℕ, ◌<◌, ◌≤◌, ◌==◌, List, [], ◌∷◌, length};
ghost use Rattle.std.specs.List.{position_or_len};
ghost use Rattle.std.specs.Iterator.{YieldsFirstBy, item_count};
ghost use Rattle.gk_terms.specs.Text.{raw_lines_of, content_of};

use memchr::memchr;
use std::marker::Model;

/// The lines of a text, from the first, each with its line feed; the last may have none.
/// A contract sees the bytes that are left.
#[derive(Drop)]
pub struct RawLines<'a> {
    rest: &'a [u8],
}

impl<'a> Model for RawLines<'a> {
    ghost use Rattle.std.specs.Prelude.{ℕ, List};

    ghost Value = { List ℕ };

    ghost view = { λ l. l.rest.now };
}

impl<'a> RawLines<'a> {
    /// The lines of a text.
    pub fn of(text: &'a [u8]) -> RawLines<'a>
        ensures { result ≡ text.now }
    {
        RawLines { rest: text }
    }
}

impl<'a> Iterator for RawLines<'a> {
    type Item = &'a [u8];

    ghost next_gives = { YieldsFirstBy (λ line. line.now) raw_lines_of };

    ghost remaining = { item_count raw_lines_of };

    fn next(&mut self) -> Option<&'a [u8]> {
        if self.rest.is_empty() {
            return None;
        }
        let (line, rest) = first_line(self.rest);
        self.rest = rest;
        Some(line)
    }
}

/// The first line of a text, with its line feed, and what comes after it.
fn first_line(text: &[u8]) -> (&[u8], &[u8])
    requires { 0 < length text.now }
    ensures { raw_lines_of text.now ≡ result.0.now ∷ raw_lines_of result.1.now }
{
    let end = bytes_before_feed(text);
    if end < text.len() {
        text.split_at(end + 1)
    } else {
        (text, &[])
    }
}

/// How many bytes come before the first line feed; all of them if there is none.
pub fn bytes_before_feed(text: &[u8]) -> usize
    ensures value { result ≡ position_or_len (λ b. b == 10) text.now }
    ensures within { result ≤ length text.now }
{
    match memchr(b'\n', text) {
        Some(place) => place,
        None => text.len(),
    }
}

/// What a line says: without its line feed and one carriage return just before that. A last line
/// without a line feed keeps its carriage return.
pub fn content(line: &[u8]) -> &[u8]
    ensures { result.now ≡ content_of line.now }
{
    match line {
        [content @ .., b'\r', b'\n'] | [content @ .., b'\n'] => content,
        _ => line,
    }
}
