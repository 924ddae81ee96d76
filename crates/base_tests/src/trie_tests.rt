//! Tries on given rows.

use crate::pattern_tests::{add_rows, told};
use digit_patterns::{Pattern, PrefixTable};
use gk_terms::Dialled;
use raw_trie::{RawTrie, TrieFault};
use std::alloc::Global;
use std::sync::Arc;
use std::test::Fail;

/// The fault of a trie of these rows, if it has one.
fn fault_of(alloc: Global, rows: &[(Pattern, u32)], most: u32) -> Option<TrieFault> {
    RawTrie::build(alloc, rows, most).err()
}

#[test]
fn counts_its_nodes(rt: HostRuntime) -> Result<(), Fail> {
    let mut rows = Vec::new(rt.alloc());
    add_rows(&mut rows, &[b"12", b"13"])?;
    // Of one for each of the beginnings: nothing, 1, 12 and 13.
    for (most, want) in [(3, Some(TrieFault::TooManyNodes)), (4, None)] {
        assert_eq!(rt; fault_of(rt.alloc(), &rows, most), want);
    }
    Ok(())
}

/// What two owners of a trie of these rows find.
fn found_by_two(
    alloc: Global,
    rows: &[(Pattern, u32)],
    digits: &[Dialled; 2],
) -> Result<[Option<(u32, u8, u8, bool)>; 2], Fail> {
    let trie = Arc::new(alloc, RawTrie::build(alloc, rows, 100)?)?;
    let other = trie.clone()?;
    let (hit, _) = other.best_counted(&digits[1], 0);
    Ok([told(trie.best(&digits[0], 0)), told(hit)])
}

#[test]
fn is_shared(rt: HostRuntime) -> Result<(), Fail> {
    let mut rows = Vec::new(rt.alloc());
    add_rows(&mut rows, &[b"408*", b"4085......", b"9*"])?;
    let digits = [Dialled::read(b"4085551234")?, Dialled::read(b"4181")?];
    let found = found_by_two(rt.alloc(), &rows, &digits)?;
    assert_eq!(rt; found, [Some((1, 4, 6, false)), None]);
    Ok(())
}

/// Adds a row for each pattern of one, two or three digits.
fn add_digits(rows: &mut Vec<(Pattern, u32)>) -> Result<(), Fail> {
    for first in b"0123456789" {
        add_rows(rows, &[&[*first]])?;
        for second in b"0123456789" {
            add_rows(rows, &[&[*first, *second]])?;
            for third in b"0123456789" {
                add_rows(rows, &[&[*first, *second, *third]])?;
            }
        }
    }
    Ok(())
}

/// What a trie of these rows finds, and how many nodes it looks at.
fn looked_up(
    alloc: Global,
    rows: &[(Pattern, u32)],
    text: &[u8],
) -> Result<(Option<(u32, u8, u8, bool)>, u32), Fail> {
    let dialled = Dialled::read(text)?;
    let trie = RawTrie::build(alloc, rows, 2_000)?;
    let (hit, looks) = trie.best_counted(&dialled, 0);
    Ok((told(hit), looks))
}

#[test]
fn counts_its_looks(rt: HostRuntime) -> Result<(), Fail> {
    let mut rows = Vec::new(rt.alloc());
    add_digits(&mut rows)?;
    // The nodes of nothing, 9, 99 and 999, whose pattern it is: no character is left for a dot.
    let all_digits = (Some((0, 3, 0, false)), 4);
    assert_eq!(rt; looked_up(rt.alloc(), &rows, b"999")?, all_digits);
    let mut rows = Vec::new(rt.alloc());
    add_rows(&mut rows, &[b"408*", b"4085......"])?;
    // Those of nothing, 4, 40, 408 and 4085; of the six dots after 4085, which are one too few; and
    // none after 408, which has a hit and no dot.
    let one_too_many = (Some((0, 3, 0, true)), 11);
    assert_eq!(rt; looked_up(rt.alloc(), &rows, b"40855512345")?, one_too_many);
    Ok(())
}
