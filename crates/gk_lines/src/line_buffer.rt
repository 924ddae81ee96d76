//! A line in a buffer of fixed size.

ghost use Rattle.std.specs.Prelude.{◌≡◌, ◌+◌, ◌*◌, ◌≤◌, [], ◌∷◌, ◌++◌, length, take, drop, decimal};
ghost use Rattle.gk_terms.specs.Text.{content_of};
ghost use Rattle.gk_terms.specs.Address.{ip_text, address_text};
ghost use Rattle.gk_terms.specs.declared.limits.TheConstants.{MOST_NAME_BYTES};
ghost use Rattle.gk_lines.specs.LineBuffer.{MOST_DIGITS, extended, with_words};

use gk_terms::limits::MOST_LINE_BYTES;
use gk_terms::text_lines::content;
use gk_terms::{Address, Name};
use itoa::write_digits;
use short_texts::KeptName;
use std::marker::Model;

/// How many bytes of a line are kept: those of the longest line that is read, its carriage return
/// and its line feed. A line that fills them without a line feed is too long, whatever follows.
pub const ROOM: usize = MOST_LINE_BYTES + 2;

/// How many digits the longest number of 32 bits has.
pub const NUMBER_ROOM: usize = 10;

/// One line, as it is read or made: its first bytes, `len` of them, are in the array. What has no
/// room is left out. Takes no memory. A contract sees the line's bytes.
#[derive(Drop)]
pub struct LineBuffer {
    bytes: [u8; ROOM],
    len: usize,
}

impl Model for LineBuffer {
    ghost use Rattle.std.specs.Prelude.{ℕ, ◌≡◌, ◌≤◌, List, length, take};
    ghost use Rattle.gk_lines.specs.LineBuffer.{ROOM_BYTES};

    ghost Value = { List ℕ };

    ghost view = { λ l. take l.len l.bytes };

    ghost invariant = { λ l. (l.len ≤ ROOM_BYTES) × (length l.bytes ≡ ROOM_BYTES) };
}

impl LineBuffer {
    /// A line without a byte.
    pub fn new() -> LineBuffer
        ensures { result ≡ [] }
    {
        LineBuffer {
            bytes: [0; ROOM],
            len: 0,
        }
    }

    /// The bytes of the line.
    pub fn as_bytes(&self) -> &[u8]
        ensures { result.now ≡ self.now }
    {
        &self.bytes[..self.len]
    }

    /// What the line says, without its line feed and one carriage return just before that.
    pub fn content(&self) -> &[u8]
        ensures { result.now ≡ content_of self.now }
    {
        content(self.as_bytes())
    }

    /// Drops all bytes.
    pub fn clear(&mut self)
        ensures { self.new ≡ [] }
    {
        self.len = 0;
    }

    /// Makes it a line of one word.
    pub fn begin(&mut self, word: &[u8])
        ensures { self.new ≡ extended [] word.now }
    {
        self.clear();
        self.push(word);
    }

    /// Makes it a line of one number.
    pub fn begin_number(&mut self, number: u32)
        ensures number { self.new ≡ extended [] (decimal number) }
        ensures short { length (decimal number) ≤ MOST_DIGITS }
    {
        self.clear();
        self.digits(number);
    }

    /// Adds bytes at the end, as far as they have room.
    pub fn push(&mut self, bytes: &[u8])
        ensures { self.new ≡ extended self.old bytes.now }
    {
        let count = bytes.len().min(ROOM - self.len);
        write_at(&mut self.bytes, self.len, &bytes[..count]);
        self.len += count;
    }

    /// Adds one byte at the end, if it has room. This is cheaper than `push` of a text of one byte,
    /// which copies it by a call.
    pub fn push_byte(&mut self, byte: u8)
        ensures { self.new ≡ extended self.old (byte ∷ []) }
    {
        if self.len < ROOM {
            self.bytes[self.len] = byte;
            self.len += 1;
        }
    }

    /// Adds a word, with a space before it.
    pub fn word(&mut self, word: &[u8])
        ensures { self.new ≡ extended self.old (32 ∷ word.now) }
    {
        self.push_byte(b' ');
        self.push(word);
    }

    /// Adds a name as a word.
    pub fn name(&mut self, name: &Name)
        ensures name { self.new ≡ extended self.old (32 ∷ name.now) }
        ensures short { length name.now ≤ MOST_NAME_BYTES }
    {
        self.word(name.as_bytes());
    }

    /// Adds each name as a word.
    pub fn names(&mut self, names: &[KeptName])
        ensures { self.new ≡ with_words self.old names.now }
    {
        for name in names {
            self.word(name.as_bytes());
        }
    }

    /// Adds a number as a word.
    pub fn number(&mut self, number: u32)
        ensures number { self.new ≡ extended self.old (32 ∷ decimal number) }
        ensures short { length (decimal number) ≤ MOST_DIGITS }
    {
        self.push_byte(b' ');
        self.digits(number);
    }

    /// Adds the digits of a number, written where they are to stand if all have room.
    fn digits(&mut self, number: u32)
        ensures digits { self.new ≡ extended self.old (decimal number) }
        ensures short { length (decimal number) ≤ MOST_DIGITS }
    {
        let count = digit_count(number);
        if ROOM - self.len < count {
            self.cut_digits(number);
            return;
        }
        let end = self.len + count;
        let _ = write_digits(u64::from(number), &mut self.bytes, end);
        self.len = end;
    }

    /// Adds the digits of a number, as far as they have room.
    fn cut_digits(&mut self, number: u32)
        ensures { self.new ≡ extended self.old (decimal number) }
    {
        let mut digits = [0; NUMBER_ROOM];
        let start = write_digits(u64::from(number), &mut digits, NUMBER_ROOM);
        self.push(&digits[start..]);
    }

    /// Adds an IPv4 address as a word.
    pub fn ip(&mut self, ip: [u8; 4])
        ensures ip { self.new ≡ extended self.old (32 ∷ ip_text ip) }
        ensures short { length (ip_text ip) ≤ 4 * MOST_DIGITS + 3 }
    {
        let [first, second, third, fourth] = ip;
        self.number(u32::from(first));
        self.octet(second);
        self.octet(third);
        self.octet(fourth);
    }

    /// Adds a further part of an IPv4 address.
    fn octet(&mut self, octet: u8)
        ensures octet { self.new ≡ extended self.old (46 ∷ decimal octet) }
        ensures short { length (decimal octet) ≤ MOST_DIGITS }
    {
        self.push_byte(b'.');
        self.digits(u32::from(octet));
    }

    /// Adds an address as a word, always with its port.
    pub fn address(&mut self, address: &Address)
        ensures address { self.new ≡ extended self.old (32 ∷ address_text address.now) }
        ensures short { length (address_text address.now) ≤ 5 * MOST_DIGITS + 4 }
    {
        self.ip(address.ip());
        self.push_byte(b':');
        self.digits(u32::from(address.port()));
    }
}

#[tactic(auto, using(crate::proofs::DigitLemmas::digit_counts))]
/// How many digits a number has.
fn digit_count(number: u32) -> usize
    ensures value { result ≡ length (decimal number) }
    ensures short { result ≤ MOST_DIGITS }
{
    match number {
        0..=9 => 1,
        10..=99 => 2,
        100..=999 => 3,
        1_000..=9_999 => 4,
        10_000..=99_999 => 5,
        100_000..=999_999 => 6,
        1_000_000..=9_999_999 => 7,
        10_000_000..=99_999_999 => 8,
        100_000_000..=999_999_999 => 9,
        _ => 10,
    }
}

/// Writes bytes over those from a place on.
fn write_at(target: &mut [u8], place: usize, bytes: &[u8])
    requires { place + length bytes.now ≤ length target.old }
    ensures { target.new ≡ take place target.old ++ bytes.now
        ++ drop (place + length bytes.now) target.old }
{
    target[place..place + bytes.len()].copy_from_slice(bytes);
}
