//! How patterns are printed, and a table that looks at each of its rows.

use digit_patterns::{Hit, Pattern, PlainTable, PrefixTable, TableFault};
use gk_terms::Dialled;
use std::alloc::Global;
use std::test::Fail;

/// Adds a row with this pattern.
fn add_row(rows: &mut Vec<(Pattern, u32)>, text: &[u8], value: u32) -> Result<(), Fail> {
    let pattern = Pattern::parse(text)?;
    rows.push((pattern, value))?;
    Ok(())
}

/// Adds a row for each of these patterns, with its place as its value.
pub(crate) fn add_rows(rows: &mut Vec<(Pattern, u32)>, texts: &[&[u8]]) -> Result<(), Fail> {
    let mut value = 0_u32;
    for text in texts {
        add_row(rows, text, value)?;
        value = value.saturating_add(1);
    }
    Ok(())
}

/// What a hit says: the value, the literals, the dots and whether a star ends the pattern.
pub(crate) fn told(hit: Option<Hit>) -> Option<(u32, u8, u8, bool)> {
    hit.map(|hit| (hit.value, hit.literals, hit.dots, hit.star))
}

#[test]
fn prints_patterns(rt: HostRuntime) -> Result<(), Fail> {
    for (text, want) in [
        (b"4085......".as_slice(), "4085...... Pattern(4085......)"),
        (b"408.*", "408.* Pattern(408.*)"),
        (b"*", "* Pattern(*)"),
    ] {
        let pattern = Pattern::parse(text)?;
        let printed = format!(in rt.alloc(); "{pattern} {pattern:?}")?;
        assert_eq!(rt; printed.as_str(), want);
    }
    Ok(())
}

/// What a table of these rows finds, or which row is a duplicate.
fn found_first(
    alloc: Global,
    rows: &[(Pattern, u32)],
    dialled: &Dialled,
) -> Result<Option<(u32, u8, u8, bool)>, TableFault> {
    let table = PlainTable::build(alloc, rows)?;
    Ok(told(table.best(dialled, 0)))
}

#[test]
fn a_plain_table_finds_the_longest_and_refuses_a_duplicate(rt: HostRuntime) -> Result<(), Fail> {
    let dialled = Dialled::read(b"4085#*#*#*")?;
    let mut rows = Vec::new(rt.alloc());
    add_rows(&mut rows, &[b"408*", b"4085......", b"9*", b"*"])?;
    let longest = Ok(Some((1, 4, 6, false)));
    assert_eq!(rt; found_first(rt.alloc(), &rows, &dialled), longest);
    add_rows(&mut rows, &[b"7", b"9*"])?;
    let duplicate = Err(TableFault::Duplicate(5));
    assert_eq!(rt; found_first(rt.alloc(), &rows, &dialled), duplicate);
    Ok(())
}
