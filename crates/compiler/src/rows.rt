//! The patterns of the `zone prefix` commands, each with the zone that is picked for it.

ghost use Rattle.std.specs.Prelude.{◌≡◌, ◌≤◌, ◌+◌, length, IfOk, OnOk, Some, None, MatchOption, if◌then◌else◌};
ghost use Rattle.std.specs.List.{IsDistinct};
ghost use Rattle.std.specs.Map.{keys_of};
ghost use Rattle.gk_terms.specs.declared.limits.TheConstants.{MOST_LINES, MOST_ZONES};
ghost use Rattle.digit_patterns.specs.PatternParts.{PatternParts};
ghost use Rattle.digit_patterns.specs.Pattern.{same_pattern};
ghost use Rattle.digit_patterns.specs.Duplicate.{duplicate_of};
ghost use Rattle.compiler.specs.Rows.{row_of};
ghost use Rattle.compiler.specs.Zones.{number_in};
ghost use Rattle.compiler.specs.TablesIndex.{AreRows, zone_at_pattern, better_in, with_pattern, places_of};

use crate::picking::better;
use crate::plans::ZoneNo;
use crate::zone_table::number_of;
use digit_patterns::Pattern;
use gk_commands::{Command, KeptName, ZoneKind};
use gk_terms::Name;
use gk_terms::limits::MOST_LINES;
use indexmap::IndexMap;
use raw_trie::{RawTrie, TrieFault};
use std::alloc::{AllocError, Global};

/// How many nodes the trie of the patterns may have. It is enough: at most 20,000 patterns of at
/// most 32 characters have at most 640,001 different beginnings, the empty one included.
const MOST_NODES: u32 = 1_048_576;

/// The different patterns, in the order of their first lines, each with the number of the zone that
/// is picked for it from those of all its lines.
pub(crate) fn rows_in(
    alloc: Global,
    commands: &[Command],
    zones: &IndexMap<Name, ZoneKind>,
) -> Result<IndexMap<Pattern, ZoneNo>, AllocError>
    requires { length zones.now.entries ≤ MOST_ZONES }
    ensures rows { IfOk result (λ rows. AreRows zones.now.entries commands.now rows.entries) }
    ensures few { IfOk result (λ rows. length rows.entries ≤ length commands.now) }
    ensures distinct { IfOk result (λ rows. IsDistinct same_pattern (keys_of rows.entries)) }
{
    let mut rows = IndexMap::new(alloc);
    for command in commands {
        if let Some((pattern, zone)) = row_of(command) {
            add_row(&mut rows, zones, pattern, zone)?;
        }
    }
    Ok(rows)
}

/// The pattern of a command, and the zone that it is declared for, if it is a `zone prefix`.
pub(crate) fn row_of(command: &Command) -> Option<(&Pattern, &KeptName)>
    ensures { MatchOption result
        (row_of command.now ≡ None)
        (λ row. row_of command.now ≡ Some (row.0.now, row.1.now)) }
{
    match command {
        Command::ZonePrefix { zone, pattern, .. } => Some((pattern, zone)),
        _ => None,
    }
}

/// Adds a pattern, if it is new, and one more zone that it is declared for.
fn add_row(
    rows: &mut IndexMap<Pattern, ZoneNo>,
    zones: &IndexMap<Name, ZoneKind>,
    pattern: &Pattern,
    zone: &KeptName,
) -> Result<(), AllocError>
    requires { length zones.now.entries ≤ MOST_ZONES }
    ensures picked { OnOk result ((other : PatternParts)
        → zone_at_pattern rows.new.entries other ≡ (if same_pattern pattern.now other
        then better_in zones.now.entries (zone_at_pattern rows.old.entries pattern.now)
        (number_in zones.now.entries zone.now)
        else zone_at_pattern rows.old.entries other)) }
    ensures patterns { OnOk result
        (keys_of rows.new.entries ≡ with_pattern (keys_of rows.old.entries) pattern.now) }
    ensures few { OnOk result (length rows.new.entries ≤ length rows.old.entries + 1) }
    ensures distinct { OnOk result (IsDistinct same_pattern (keys_of rows.new.entries)) }
{
    let best = better(zones, rows.get(pattern).copied(), number_of(zones, zone));
    rows.insert(*pattern, best)?;
    Ok(())
}

/// The trie of the patterns, each with the place of its row.
pub(crate) fn prefixes_in(
    alloc: Global,
    rows: &IndexMap<Pattern, ZoneNo>,
) -> Result<RawTrie, AllocError>
    requires few { length rows.now.entries ≤ MOST_LINES }
    requires distinct { duplicate_of rows.now.entries ≡ None }
    ensures { IfOk result (λ prefixes. prefixes ≡ places_of rows.now.entries) }
{
    let places = places_of(alloc, rows)?;
    match RawTrie::build(alloc, &places, MOST_NODES) {
        Ok(prefixes) => Ok(prefixes),
        Err(TrieFault::Duplicate(_)) => unreachable!(),
        Err(TrieFault::TooManyNodes) => unreachable!(),
        Err(TrieFault::NoMemory) => Err(AllocError),
    }
}

/// Each pattern, with the place of its row.
fn places_of(
    alloc: Global,
    rows: &IndexMap<Pattern, ZoneNo>,
) -> Result<Vec<(Pattern, u32)>, AllocError>
    requires { length rows.now.entries ≤ MOST_LINES }
    ensures { IfOk result (λ places. places.items ≡ places_of rows.now.entries) }
{
    let mut places = Vec::new(alloc);
    for place in 0..rows.len() {
        if let Some((pattern, _)) = rows.get_index(place) {
            places.push((*pattern, place as u32))?;
        }
    }
    Ok(places)
}
