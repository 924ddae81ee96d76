//! Patterns of dialled characters.

ghost use Rattle.std.specs.Prelude.{◌≡◌, ◌≤◌, length, drop, replicate, Some};
ghost use Rattle.std.specs.Result.{result_ok};
ghost use Rattle.std.specs.List.{prefix_len};
ghost use Rattle.std.specs.Char.{is_ascii_digit};
ghost use Rattle.digit_patterns.specs.PatternParts.{IsPattern};
ghost use Rattle.digit_patterns.specs.Pattern.{is_dot, star_of, pattern_text, pattern_of, matches, rank_of, outranks};

use gk_terms::Dialled;
use gk_terms::limits::MOST_DIALLED;
use gk_terms::spelling::Spelling;
use std::fmt;
use std::marker::Model;
use thiserror::Error;

/// A pattern of dialled characters: literals (`0` to `9`), then dots, then a star or none, 1 to 32
/// characters in all. A dot stands for any one dialled character, the star for any number of them.
/// It holds its characters in place. The form is that of Cisco's `zone prefix` command; what may be
/// empty and the limit are this project's profile.
#[derive(Clone, Copy, PartialEq, Eq, PartialOrd, Ord, Hash)]
pub struct Pattern {
    literals: Spelling<MOST_DIALLED>,
    dots: u8,
    star: bool,
}

impl Model for Pattern {
    ghost use Rattle.digit_patterns.specs.PatternParts.{PatternParts, IsPattern};

    ghost Value = { PatternParts };

    ghost view = { λ p. record { literals = p.literals; dots = p.dots; star = p.star } };

    ghost invariant = { λ p. IsPattern
        (record { literals = p.literals; dots = p.dots; star = p.star }) };

    ghost inverse = { λ v. record { literals = v.literals; dots = v.dots; star = v.star } };
}

/// The text is not a pattern: it is empty, longer than 32 characters,
/// or not literals, then dots, then a star or none.
#[derive(Clone, Copy, Debug, PartialEq, Eq, Error)]
#[error("not a pattern")]
pub struct BadPattern;

impl Pattern {
    /// Reads a pattern. Any other text is `BadPattern`. Takes no memory.
    pub fn parse(text: &[u8]) -> Result<Pattern, BadPattern>
        ensures { result_ok result ≡ pattern_of text.now }
    {
        let (literals, others) = text.split_at(digits_in_front(text));
        let (dots, ending) = others.split_at(dots_in_front(others));
        let Some(star) = star_in(ending) else {
            return Err(BadPattern);
        };
        if text.is_empty() || text.len() > MOST_DIALLED {
            return Err(BadPattern);
        }
        Ok(Pattern {
            literals: Spelling::new(literals),
            dots: dots.len() as u8,
            star,
        })
    }

    /// Whether the pattern matches the dialled characters from the place `from` on, counted from 0:
    /// they begin with the literals, and have as many characters as literals and dots together, or
    /// at least as many if the pattern has a star.
    pub fn matches(&self, dialled: &Dialled, from: usize) -> bool
        requires { from ≤ length dialled.now }
        ensures { result ≡ matches self.now (drop from dialled.now) }
    {
        let text = &dialled.as_bytes()[from..];
        let least = self.literals().len() + self.dots as usize;
        text.starts_with(self.literals())
            && if self.star {
                least <= text.len()
            } else {
                text.len() == least
            }
    }

    /// The rank: how many literals, how many dots, and 1 if no star follows them or 0 if one does.
    /// Of two patterns that match one text, that with the greater rank, compared in this order, is
    /// the longer.
    pub fn rank(&self) -> (u8, u8, u8)
        ensures { result ≡ rank_of self.now }
    {
        (self.literals().len() as u8, self.dots, u8::from(!self.star))
    }

    /// Whether this pattern has the greater rank: more literals, then more dots, then no star
    /// before a star.
    pub fn outranks(&self, other: &Pattern) -> bool
        ensures { result ≡ outranks self.now other.now }
    {
        self.rank() > other.rank()
    }

    /// The literals, each from `0` to `9`.
    pub fn literals(&self) -> &[u8]
        ensures literals { result.now ≡ self.now.literals }
        ensures pattern { IsPattern self.now }
    {
        self.literals.as_bytes()
    }

    /// How many dots follow the literals: 0 to 32.
    pub fn dots(&self) -> u8
        ensures { result ≡ self.now.dots }
    {
        self.dots
    }

    /// Whether the pattern ends with a star.
    pub fn has_star(&self) -> bool
        ensures { result ≡ self.now.star }
    {
        self.star
    }
}

/// How many digits the text begins with.
fn digits_in_front(text: &[u8]) -> usize
    ensures counted { result ≡ prefix_len is_ascii_digit text.now }
    ensures within { result ≤ length text.now }
{
    text.iter().take_while(|byte| byte.is_ascii_digit()).count()
}

/// How many dots the text begins with.
fn dots_in_front(text: &[u8]) -> usize
    ensures counted { result ≡ prefix_len is_dot text.now }
    ensures within { result ≤ length text.now }
{
    text.iter().take_while(|byte| **byte == b'.').count()
}

/// Whether a star follows the dots, or nothing if anything else does.
fn star_in(ending: &[u8]) -> Option<bool>
    ensures { result ≡ star_of ending.now }
{
    match ending {
        [] => Some(false),
        [b'*'] => Some(true),
        _ => None,
    }
}

/// So many dots.
#[derive(Clone, Copy)]
struct Dots(u8);

impl fmt::Display for Dots {
    ghost output = { λ d. Some (replicate d.0 46) };

    fn fmt<W: fmt::Write>(&self, f: &mut fmt::Formatter<W>) -> fmt::Result {
        for _i in 0..self.0 {
            f.write_str(".")?;
        }
        Ok(())
    }
}

impl fmt::Display for Pattern {
    ghost output = { λ p. Some (pattern_text p) };

    fn fmt<W: fmt::Write>(&self, f: &mut fmt::Formatter<W>) -> fmt::Result {
        let star = if self.star { "*" } else { "" };
        write!(f, "{}{}{}", self.literals, Dots(self.dots), star)
    }
}

impl fmt::Debug for Pattern {
    fn fmt<W: fmt::Write>(&self, f: &mut fmt::Formatter<W>) -> fmt::Result {
        write!(f, "Pattern({self})")
    }
}
