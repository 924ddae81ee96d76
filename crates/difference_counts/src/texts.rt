//! Dialled digits that go on from a front.

ghost use Rattle.std.specs.Prelude.{◌≡◌, ◌+◌, ◌<◌, ◌≤◌, ◌∷◌, ◌++◌, [], length, drop, true};
ghost use Rattle.std.specs.List.{list_all};
ghost use Rattle.gk_terms.specs.Dialled.{IsDialled, is_dialled_byte};
ghost use Rattle.plan_difference.specs.Walk.{starred};

use gk_terms::Dialled;
use gk_terms::limits::MOST_DIALLED;

/// The front with so many stars after it.
pub(crate) fn starred(front: &Dialled, stars: usize) -> Dialled
    requires { length front.now + stars ≤ 32 }
    ensures { result ≡ starred front.now stars }
{
    let mut text = [b'*'; MOST_DIALLED];
    let front = front.as_bytes();
    write_front(&mut text, front);
    read(&text[..front.len() + stars])
}

/// The front with a character after it.
pub(crate) fn with_character(front: &[u8], character: u8) -> Dialled
    requires room { length front.now < 32 }
    requires front { list_all is_dialled_byte front.now ≡ true }
    requires character { is_dialled_byte character ≡ true }
    ensures { result ≡ front.now ++ character ∷ [] }
{
    let mut text = [b'*'; MOST_DIALLED];
    write_front(&mut text, front);
    text[front.len()] = character;
    read(&text[..front.len() + 1])
}

#[tactic(auto, using(crate::proofs::FrontLemmas::read_is))]
/// A text that is known to be dialled digits, as such.
fn read(text: &[u8]) -> Dialled
    requires { IsDialled text.now }
    ensures { result ≡ text.now }
{
    match Dialled::read(text) {
        Ok(digits) => digits,
        Err(_) => unreachable!(),
    }
}

/// Writes bytes over the first ones.
fn write_front(target: &mut [u8], bytes: &[u8])
    requires { length bytes.now ≤ length target.old }
    ensures { target.new ≡ bytes.now ++ drop (length bytes.now) target.old }
{
    target[..bytes.len()].copy_from_slice(bytes);
}
