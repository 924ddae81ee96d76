//! The walk through a trie: down along the digits of the text, then, from the deepest node up, down
//! the dots of each.

ghost use Rattle.std.specs.Prelude.{◌≡◌, ◌+◌, ◌-◌, ◌*◌, ◌<◌, ◌≤◌, length, slice_get, take, true, None, IfSome};
ghost use Rattle.std.specs.Char.{is_ascii_digit};
ghost use Rattle.std.specs.List.{list_all};
ghost use Rattle.std.specs.Option.{option_and_then};
ghost use Rattle.digit_patterns.specs.Table.{best_hit};
ghost use Rattle.raw_trie.specs.Found.{IsFound, IsTop, with_hit};
ghost use Rattle.raw_trie.specs.Looks.{dot_nodes, dot_nodes_between, least_literals, looks_of};
ghost use Rattle.raw_trie.specs.Walk.{AreNodes, LinkAt, Shows, digit_of, most_looks};

use crate::trie::{LookedAt, RawTrie};
use digit_patterns::Hit;

/// What a node tells, the links of its digits aside.
#[derive(Clone, Copy)]
pub(crate) struct Seen {
    /// Where the dot's link leads, or 0.
    pub(crate) dot: u32,
    /// The value of the pattern that ends here without a star.
    pub(crate) plain: Option<u32>,
    /// The value of the pattern that ends here with a star.
    pub(crate) starred: Option<u32>,
}

/// The most nodes that the digits of a text lead to: the root, and one for each character.
const MOST_NODES: usize = 33;

/// The longest pattern that matches the text, and how many nodes were looked at.
pub(crate) fn longest(trie: &RawTrie, text: &[u8]) -> (Option<Hit>, u32)
    requires { length text.now ≤ 32 }
    ensures hit { result.0 ≡ best_hit trie.now text.now }
    ensures looks { result.1 ≡ looks_of trie.now text.now }
    ensures few { result.1 ≤ most_looks (length text.now) }
{
    let mut looks = 0;
    let (next, root) = trie.look_at(0, digit_at(text, 0), &mut looks);
    let mut nodes = [root; MOST_NODES];
    let deepest = walk_down(trie, text, next, &mut nodes, &mut looks);
    let best = walk_up(trie, text, &nodes, deepest, &mut looks);
    (best, looks)
}

/// Goes down along the digits of the text; `next` is where the first of them leads from the root.
/// Keeps each node at the place of its depth, beside the root, and gives the depth of the last.
fn walk_down(
    trie: &RawTrie,
    text: &[u8],
    next: u32,
    nodes: &mut [LookedAt; MOST_NODES],
    looks: &mut u32,
) -> usize
    requires short { length text.now ≤ 32 }
    requires root { AreNodes trie.now text.now nodes.old 0 }
    requires next { LinkAt trie.now text.now 0 next }
    requires few { looks.old < 1000 }
    ensures within { result ≤ length text.now }
    ensures digits { list_all is_ascii_digit (take result text.now) ≡ true }
    ensures nodes { AreNodes trie.now text.now nodes.new result }
    ensures last { LinkAt trie.now text.now result 0 }
    ensures looks { looks.new ≡ looks.old + result }
{
    let mut next = next;
    let mut depth = 0;
    while next != 0 {
        depth += 1;
        let (link, looked) = trie.look_at(next, digit_at(text, depth), looks);
        nodes[depth] = looked;
        next = link;
    }
    depth
}

/// Goes back up from the deepest node, and gives the first hit. It is the best, since patterns with
/// more literals come first.
fn walk_up(
    trie: &RawTrie,
    text: &[u8],
    nodes: &[LookedAt; MOST_NODES],
    deepest: usize,
    looks: &mut u32,
) -> Option<Hit>
    requires short { length text.now ≤ 32 }
    requires within { deepest ≤ length text.now }
    requires digits { list_all is_ascii_digit (take deepest text.now) ≡ true }
    requires nodes { AreNodes trie.now text.now nodes.now deepest }
    requires above { IsTop trie.now text.now (66 * (deepest + 1)) None }
    requires looks { looks.old ≡ deepest + 1 }
    ensures top { IsTop trie.now text.now 0 result }
    ensures looks { looks.new ≡ deepest + 1
        + dot_nodes_between trie.now text.now (least_literals result) (deepest + 1) }
{
    let mut depth = deepest + 1;
    while depth > 0 {
        depth -= 1;
        let seen = trie.seen_at(nodes[depth]);
        let best = longest_dots(trie, seen, text, depth, looks);
        if best.is_some() {
            return best;
        }
    }
    None
}

/// The digit at a place of the text, if there is one.
fn digit_at(text: &[u8], place: usize) -> Option<u8>
    ensures { result ≡ option_and_then digit_of (slice_get text.now place) }
{
    match text.get(place) {
        Some(byte) if byte.is_ascii_digit() => Some(*byte - b'0'),
        _ => None,
    }
}

/// The best of the patterns with so many literals.
fn longest_dots(
    trie: &RawTrie,
    seen: Seen,
    text: &[u8],
    literals: usize,
    looks: &mut u32,
) -> Option<Hit>
    requires within { literals ≤ length text.now }
    requires short { length text.now ≤ 32 }
    requires digits { list_all is_ascii_digit (take literals text.now) ≡ true }
    requires few { looks.old < 1000 }
    requires shown { Shows trie.now (take literals text.now) seen }
    ensures found { IsFound trie.now text.now (66 * literals) (66 * (literals + 1)) result }
    ensures literals { IfSome result (λ hit. hit.literals ≡ literals) }
    ensures looks { looks.new ≡ looks.old + dot_nodes trie.now text.now literals }
    ensures few { looks.new ≤ looks.old + (length text.now - literals) }
{
    let left = text.len() - literals;
    let mut best = None;
    let mut seen = seen;
    let mut dots = 0;
    while dots < left {
        best = with_hit(seen.starred, literals, dots, true, best);
        if seen.dot == 0 {
            return best;
        }
        let (_, looked) = trie.look_at(seen.dot, None, looks);
        seen = trie.seen_at(looked);
        dots += 1;
    }
    best = with_hit(seen.starred, literals, dots, true, best);
    with_hit(seen.plain, literals, dots, false, best)
}

/// The hit of an end, or else the best so far.
fn with_hit(
    end: Option<u32>,
    literals: usize,
    dots: usize,
    star: bool,
    best: Option<Hit>,
) -> Option<Hit>
    requires literals { literals ≤ 32 }
    requires dots { dots ≤ 32 }
    ensures { result ≡ with_hit end literals dots star best }
{
    match end {
        Some(value) => Some(Hit {
            value,
            literals: literals as u8,
            dots: dots as u8,
            star,
        }),
        None => best,
    }
}
