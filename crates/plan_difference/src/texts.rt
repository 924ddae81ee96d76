//! The digits that are tried.

ghost use Rattle.std.specs.Prelude.{◌≡◌, ◌≤◌, ◌+◌, ◌-◌, ◌++◌, length, take, drop, replicate, nat_le};
ghost use Rattle.gk_terms.specs.Dialled.{dialled_of};
ghost use Rattle.gk_terms.specs.declared.limits.TheConstants.{MOST_DIALLED};
ghost use Rattle.plan_difference.specs.Walk.{starred, text_of};

use gk_terms::limits::MOST_DIALLED;
use gk_terms::{Dialled, TechPrefix};

/// The text of a technology prefix; empty if there is none.
pub(crate) fn text_of(prefix: &Option<TechPrefix>) -> &[u8]
    ensures { result.now ≡ text_of prefix.now }
{
    match prefix {
        Some(prefix) => prefix.as_bytes(),
        None => b"",
    }
}

#[tactic(auto, using(crate::proofs::TextLemmas::too_long, crate::proofs::TextLemmas::front_is))]
/// The head, the stem, and so many stars after them, as dialled digits. None if that is empty, is
/// longer than 32 characters or has other characters.
pub(crate) fn starred(head: &[u8], stem: &[u8], stars: usize) -> Option<Dialled>
    ensures { result ≡ dialled_of (starred (head.now ++ stem.now) stars) }
{
    if !fits(head.len(), stem.len(), stars) {
        return None;
    }
    let text = spelled(head, stem);
    Dialled::read(&text[..head.len() + stem.len() + stars]).ok()
}

/// Whether three lengths are together that of dialled digits at most.
pub(crate) fn fits(head: usize, stem: usize, stars: usize) -> bool
    ensures { result ≡ nat_le (head + stem + stars) 32 }
{
    head <= MOST_DIALLED && stem <= MOST_DIALLED - head && stars <= MOST_DIALLED - head - stem
}

#[tactic(auto, using(crate::proofs::TextLemmas::spelled_is))]
/// The head, the stem, and stars up to 32 characters.
fn spelled(head: &[u8], stem: &[u8]) -> [u8; MOST_DIALLED]
    requires { length head.now + length stem.now ≤ 32 }
    ensures { result ≡ (head.now ++ stem.now)
        ++ replicate (32 - length head.now - length stem.now) 42 }
{
    let mut text = [b'*'; MOST_DIALLED];
    write_at(&mut text, 0, head);
    write_at(&mut text, head.len(), stem);
    text
}

/// Writes bytes over those from a place on.
fn write_at(target: &mut [u8], place: usize, bytes: &[u8])
    requires { place + length bytes.now ≤ length target.old }
    ensures { target.new ≡ take place target.old ++ bytes.now
        ++ drop (place + length bytes.now) target.old }
{
    target[place..place + bytes.len()].copy_from_slice(bytes);
}
