//! For each zone prefix, the technology prefix of the joint group that stands before it in the
//! digits that are tried.

ghost use Rattle.std.specs.Prelude.{◌≡◌, ◌≢◌, ◌<◌, ◌≤◌, ℕ, IfOk, None, OnOk, is_some, length, replicate, slice_index_or, slice_set, true};
ghost use Rattle.std.specs.List.{filter};
ghost use Rattle.std.specs.List.Sorted.{IsPermutation};
ghost use Rattle.plan_difference.specs.Blocked.{AreChosen, ArePassed, AreRising, IsTried, has_length, literals_at};
ghost use Rattle.plan_difference.specs.Gathered.{has_no_star};

use crate::classing::found_length;
use crate::common_fronts::common_length;
use crate::passing::{LEVELS, find, keep};
use compiler::Tables;
use digit_patterns::Pattern;
use gk_terms::TechPrefix;
use std::alloc::{AllocError, Global};

/// For each of these patterns, which are in the order of their characters, the shortest of these
/// technology prefixes such that digits of it and the pattern's literals begin with no longer
/// declared one; or one that is too long with them. None if there is none, and for a pattern without
/// literals. `AllocError` if memory is refused.
pub(crate) fn choose(
    alloc: Global,
    old: &Tables,
    new: &Tables,
    heads: &[Option<TechPrefix>],
    patterns: &[Pattern],
) -> Result<Vec<Option<Option<TechPrefix>>>, AllocError>
    ensures size { IfOk result (λ chosen. length chosen.items ≡ length patterns.now) }
    ensures chosen { IfOk result (λ chosen. AreChosen old.now.commands new.now.commands heads.now
        patterns.now 33 chosen.items) }
{
    let mut chosen = nones(alloc, patterns.len())?;
    choose_all(&mut chosen, alloc, old, new, heads, patterns)?;
    Ok(chosen)
}

/// So many times none.
fn nones(alloc: Global, count: usize) -> Result<Vec<Option<Option<TechPrefix>>>, AllocError>
    ensures { IfOk result (λ nones. nones.items ≡ replicate count None) }
{
    vec![in alloc; None; count]
}

/// Chooses where none is chosen, the shortest first.
fn choose_all(
    chosen: &mut [Option<Option<TechPrefix>>],
    alloc: Global,
    old: &Tables,
    new: &Tables,
    heads: &[Option<TechPrefix>],
    patterns: &[Pattern],
) -> Result<(), AllocError>
    requires size { length chosen.old ≡ length patterns.now }
    requires start { chosen.old ≡ replicate (length patterns.now) None }
    ensures { OnOk result (AreChosen old.now.commands new.now.commands heads.now
        patterns.now 33 chosen.new) }
{
    for size in 0..LEVELS {
        let mut those = of_length(alloc, heads, size)?;
        choose_by(chosen, old, new, &mut those, patterns);
    }
    Ok(())
}

/// Those of these technology prefixes that have so many characters; none has 0.
fn of_length(
    alloc: Global,
    heads: &[Option<TechPrefix>],
    size: usize,
) -> Result<Vec<Option<TechPrefix>>, AllocError>
    ensures { IfOk result (λ those. those.items ≡ filter (has_length size) heads.now) }
{
    let mut those = Vec::new(alloc);
    for head in heads {
        if found_length(head) == size {
            those.push(*head)?;
        }
    }
    Ok(those)
}

/// Chooses among these technology prefixes, of the same length, where none is chosen. If there are
/// none, that takes no step.
fn choose_by(
    chosen: &mut [Option<Option<TechPrefix>>],
    old: &Tables,
    new: &Tables,
    heads: &mut [Option<TechPrefix>],
    patterns: &[Pattern],
)
    requires { length chosen.old ≡ length patterns.now }
    ensures { (place : ℕ) → 0 < length (literals_at patterns.now place)
        → place < length patterns.now
        → IsTried old.now.commands new.now.commands heads.old (literals_at patterns.now place)
        (slice_index_or chosen.old place None) (slice_index_or chosen.new place None) }
{
    if heads.is_empty() {
        return;
    }
    let mut firsts = [0; LEVELS];
    let mut before = 0;
    for place in 0..patterns.len() {
        let stem = literals_at(patterns, place);
        keep(
            &mut firsts,
            common_length(literals_at(patterns, before), stem),
        );
        choose_at(chosen, place, old, new, heads, &mut firsts, stem);
        before = place;
    }
}

#[tactic(auto, using(crate::proofs::GatherLemmas::pattern_is_literal, crate::proofs::ChoosingLemmas::pattern_is_short))]
/// The literals of the pattern at a place; none if there is no pattern.
pub(crate) fn literals_at(patterns: &[Pattern], place: usize) -> &[u8]
    ensures is { result.now ≡ literals_at patterns.now place }
    ensures literal { has_no_star result.now ≡ true }
    ensures short { length result.now ≤ 32 }
{
    match patterns.get(place) {
        Some(pattern) => pattern.literals(),
        None => b"",
    }
}

/// Chooses for the pattern at a place, of these literals, unless it has none or one is chosen.
fn choose_at(
    chosen: &mut [Option<Option<TechPrefix>>],
    place: usize,
    old: &Tables,
    new: &Tables,
    heads: &mut [Option<TechPrefix>],
    firsts: &mut [usize; LEVELS],
    stem: &[u8],
)
    requires within { place < length chosen.old }
    requires few { length stem.now ≤ 32 }
    requires passed { ArePassed old.now.commands new.now.commands heads.old firsts.old stem.now }
    requires rising { AreRising firsts.old }
    ensures passed { ArePassed old.now.commands new.now.commands heads.new firsts.new stem.now }
    ensures rising { AreRising firsts.new }
    ensures moved { IsPermutation heads.old heads.new }
    ensures tried { 0 < length stem.now
        → IsTried old.now.commands new.now.commands heads.new stem.now
        (slice_index_or chosen.old place None) (slice_index_or chosen.new place None) }
    ensures others { (other : ℕ) → other ≢ place
        → slice_index_or chosen.new other None ≡ slice_index_or chosen.old other None }
{
    if stem.is_empty() {
        return;
    }
    if chosen_at(chosen, place).is_some() {
        return;
    }
    let found = find(old, new, heads, firsts, stem);
    put(chosen, place, found);
}

/// What is chosen for the pattern at a place.
pub(crate) fn chosen_at(
    chosen: &[Option<Option<TechPrefix>>],
    place: usize,
) -> Option<Option<TechPrefix>>
    requires { place < length chosen.now }
    ensures { result ≡ slice_index_or chosen.now place None }
{
    chosen[place]
}

/// Writes what is found for the pattern at a place.
fn put(chosen: &mut [Option<Option<TechPrefix>>], place: usize, found: Option<Option<TechPrefix>>)
    requires { place < length chosen.old }
    ensures { chosen.new ≡ slice_set chosen.old place found }
{
    chosen[place] = found;
}
