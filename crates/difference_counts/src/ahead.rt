//! What of a configuration goes on from a front of dialled characters.

ghost use Rattle.std.specs.Prelude.{◌≡◌, ◌≤◌, ◌-◌, ◌∷◌, ◌++◌, ◌||◌, ◌==◌, [], IfOk, None, drop, length, true};
ghost use Rattle.std.specs.List.{filter, list_any, starts_with};
ghost use Rattle.compiler.specs.Technology.{found_length, technology_of};
ghost use Rattle.difference_counts.specs.Ahead.{HasPatternsOn, IsAhead, IsAt, has_next, pattern_has_at};
ghost use Rattle.difference_counts.specs.Places.{has_at};

use crate::characters::has_at;
use crate::technologies::{found_length, hops_off, is_same_technology};
use compiler::Tables;
use digit_patterns::Pattern;
use gk_terms::{Dialled, TechPrefix};
use std::alloc::{AllocError, Global};

/// A configuration with all its patterns.
#[derive(Clone, Copy)]
pub(crate) struct Side<'a> {
    pub(crate) tables: &'a Tables,
    pub(crate) patterns: &'a [Pattern],
}

/// What of a configuration is ahead of a front of dialled characters.
#[derive(Drop)]
pub(crate) struct Ahead {
    /// The technology prefix that is found for the front.
    pub(crate) technology: Option<TechPrefix>,
    /// The technology prefixes that begin with the front.
    pub(crate) prefixes: Vec<TechPrefix>,
    /// The patterns whose literals begin with what of the front is after its technology prefix, if
    /// they are wanted. None if that hops off.
    pub(crate) patterns: Vec<Pattern>,
}

impl Ahead {
    /// Whether anything of it goes on with a character, after a front of so many.
    pub(crate) fn has_next(&self, count: usize, character: u8) -> bool
        requires { found_length self.now.technology ≤ count }
        ensures { result ≡ has_next self.now.technology self.now.prefixes.items
            self.now.patterns.items count character }
    {
        let taken = found_length(&self.technology);
        any_prefix(&self.prefixes, count, character)
            || any_pattern(&self.patterns, count - taken, character)
    }

    /// What is ahead of the front with a character after it, for which this technology prefix is
    /// found: with patterns, if they are wanted. Those ahead of the front are there if they were.
    pub(crate) fn next(
        &self,
        alloc: Global,
        side: &Side,
        front: &[u8],
        character: u8,
        longer: &Dialled,
        technology: Option<TechPrefix>,
        wanted_before: bool,
        wanted: bool,
    ) -> Result<Ahead, AllocError>
        requires longer { longer.now ≡ front.now ++ character ∷ [] }
        requires found { technology ≡ technology_of side.now.tables.now.commands longer.now }
        requires ahead { IsAhead side.now.tables.now.commands front.now self.now.technology
            self.now.prefixes.items }
        requires patterns { wanted_before ≡ true → HasPatternsOn side.now.tables.now.commands
            front.now self.now.technology self.now.patterns.items }
        requires whole { HasPatternsOn side.now.tables.now.commands [] None
            side.now.patterns.now }
        ensures at { IfOk result (λ next. IsAt side.now.tables.now.commands longer.now
            next.technology next.prefixes.items) }
        ensures technology { IfOk result (λ next. next.technology ≡ technology) }
        ensures patterns { IfOk result (λ next. wanted ≡ true
            → HasPatternsOn side.now.tables.now.commands longer.now technology
            next.patterns.items) }
    {
        let prefixes = prefixes_with(alloc, &self.prefixes, front.len(), character)?;
        let patterns = if wanted {
            self.patterns_next(
                alloc,
                side,
                front,
                character,
                longer,
                &technology,
                wanted_before,
            )?
        } else {
            Vec::new(alloc)
        };
        Ok(Ahead {
            technology,
            prefixes,
            patterns,
        })
    }

    /// The patterns of it, if this technology prefix is found for the front with a character after
    /// it.
    fn patterns_next(
        &self,
        alloc: Global,
        side: &Side,
        front: &[u8],
        character: u8,
        longer: &Dialled,
        technology: &Option<TechPrefix>,
        wanted_before: bool,
    ) -> Result<Vec<Pattern>, AllocError>
        requires longer { longer.now ≡ front.now ++ character ∷ [] }
        requires found { technology.now ≡ technology_of side.now.tables.now.commands longer.now }
        requires within { found_length self.now.technology ≤ length front.now }
        requires patterns { wanted_before ≡ true → HasPatternsOn side.now.tables.now.commands
            front.now self.now.technology self.now.patterns.items }
        requires whole { HasPatternsOn side.now.tables.now.commands [] None
            side.now.patterns.now }
        ensures { IfOk result (λ patterns. HasPatternsOn side.now.tables.now.commands
            longer.now technology.now patterns.items) }
    {
        if hops_off(side.tables, technology) {
            return Ok(Vec::new(alloc));
        }
        if wanted_before {
            if is_same_technology(technology, &self.technology) {
                let taken = found_length(&self.technology);
                return patterns_with(alloc, &self.patterns, front.len() - taken, character);
            }
        }
        patterns_after(alloc, side.patterns, longer, technology)
    }
}

#[tactic(auto, using(crate::proofs::AheadLemmas::found_next))]
/// Those of these patterns whose literals begin with what of the digits is after the technology
/// prefix that is found for them.
fn patterns_after(
    alloc: Global,
    patterns: &[Pattern],
    digits: &Dialled,
    technology: &Option<TechPrefix>,
) -> Result<Vec<Pattern>, AllocError>
    requires { found_length technology.now ≤ length digits.now }
    ensures { IfOk result (λ kept. kept.items ≡ filter
        (λ pattern. starts_with ◌==◌ pattern.literals
        (drop (found_length technology.now) digits.now)) patterns.now) }
{
    let text = digits.as_bytes();
    patterns_from(alloc, patterns, &text[found_length(technology)..])
}

/// Those of these patterns whose literals begin with a text.
fn patterns_from(
    alloc: Global,
    patterns: &[Pattern],
    text: &[u8],
) -> Result<Vec<Pattern>, AllocError>
    ensures { IfOk result (λ kept. kept.items
        ≡ filter (λ pattern. starts_with ◌==◌ pattern.literals text.now) patterns.now) }
{
    let mut kept = Vec::new(alloc);
    for pattern in patterns {
        if begins_with(pattern, text) {
            kept.push(*pattern)?;
        }
    }
    Ok(kept)
}

/// Whether the literals of a pattern begin with a text.
fn begins_with(pattern: &Pattern, text: &[u8]) -> bool
    ensures { result ≡ starts_with ◌==◌ pattern.now.literals text.now }
{
    pattern.literals().starts_with(text)
}

/// Whether one of these prefixes has a character at a place.
fn any_prefix(prefixes: &[TechPrefix], place: usize, character: u8) -> bool
    ensures { result ≡ list_any (has_at place character) prefixes.now }
{
    prefixes
        .iter()
        .any(|prefix| prefix_has_at(prefix, place, character))
}

/// Whether the literals of one of these patterns have a character at a place.
pub(crate) fn any_pattern(patterns: &[Pattern], place: usize, character: u8) -> bool
    ensures { result ≡ list_any (pattern_has_at place character) patterns.now }
{
    patterns
        .iter()
        .any(|pattern| pattern_has_at(pattern, place, character))
}

/// Those of these prefixes that have a character at a place.
fn prefixes_with(
    alloc: Global,
    prefixes: &[TechPrefix],
    place: usize,
    character: u8,
) -> Result<Vec<TechPrefix>, AllocError>
    ensures { IfOk result (λ kept. kept.items ≡ filter (has_at place character) prefixes.now) }
{
    let mut kept = Vec::new(alloc);
    for prefix in prefixes {
        if prefix_has_at(prefix, place, character) {
            kept.push(*prefix)?;
        }
    }
    Ok(kept)
}

/// Those of these patterns whose literals have a character at a place.
pub(crate) fn patterns_with(
    alloc: Global,
    patterns: &[Pattern],
    place: usize,
    character: u8,
) -> Result<Vec<Pattern>, AllocError>
    ensures { IfOk result (λ kept.
        kept.items ≡ filter (pattern_has_at place character) patterns.now) }
{
    let mut kept = Vec::new(alloc);
    for pattern in patterns {
        if pattern_has_at(pattern, place, character) {
            kept.push(*pattern)?;
        }
    }
    Ok(kept)
}

/// Whether a prefix has a character at a place.
fn prefix_has_at(prefix: &TechPrefix, place: usize, character: u8) -> bool
    ensures { result ≡ has_at place character prefix.now }
{
    has_at(prefix.as_bytes(), place, character)
}

/// Whether the literals of a pattern have a character at a place.
fn pattern_has_at(pattern: &Pattern, place: usize, character: u8) -> bool
    ensures { result ≡ pattern_has_at place character pattern.now }
{
    has_at(pattern.literals(), place, character)
}
