//! The gateways that `zone prefix` commands name, each with its priority for a row.

ghost use Rattle.std.specs.Prelude.{◌≡◌, ◌≤◌, ◌==◌, ℕ, List, length, slice_get, IfOk, OnOk, Some, None, bytes_eq, if◌then◌else◌};
ghost use Rattle.std.specs.Option.{option_or, option_copied};
ghost use Rattle.std.specs.List.{list_any};
ghost use Rattle.std.specs.Map.{lookup};
ghost use Rattle.gk_terms.specs.declared.limits.TheConstants.{MOST_LINES, MOST_ZONES};
ghost use Rattle.compiler.specs.Priority.{priority_among};
ghost use Rattle.compiler.specs.Rows.{row_of};
ghost use Rattle.compiler.specs.TablesIndex.{NumberedRow, gateways_named, is_about, is_place, numbered_priority_in, kept_priority, ArePriorities};

use crate::plans::ZoneNo;
use crate::rows::row_of;
use crate::zone_table::number_of;
use digit_patterns::Pattern;
use gk_commands::{Command, GatewayPriority, KeptName, ZoneKind};
use gk_terms::Name;
use indexmap::IndexMap;
use std::alloc::{AllocError, Global};

/// For each row for which gateways are named, by its number, those gateways, each with the priority
/// that the last command gives it, of those that name it for the row's zone and pattern.
pub(crate) fn priorities_in(
    alloc: Global,
    commands: &[Command],
    zones: &IndexMap<Name, ZoneKind>,
    rows: &IndexMap<Pattern, ZoneNo>,
) -> Result<IndexMap<u32, IndexMap<Name, u8>>, AllocError>
    requires few_zones { length zones.now.entries ≤ MOST_ZONES }
    requires few_rows { length rows.now.entries ≤ MOST_LINES }
    ensures { IfOk result (λ priorities. ArePriorities
        zones.now.entries commands.now rows.now.entries priorities.entries) }
{
    let mut priorities = IndexMap::new(alloc);
    for command in commands {
        add_command(alloc, &mut priorities, zones, rows, command)?;
    }
    Ok(priorities)
}

/// Adds what one more command says of gateways.
fn add_command(
    alloc: Global,
    priorities: &mut IndexMap<u32, IndexMap<Name, u8>>,
    zones: &IndexMap<Name, ZoneKind>,
    rows: &IndexMap<Pattern, ZoneNo>,
    command: &Command,
) -> Result<(), AllocError>
    requires few_zones { length zones.now.entries ≤ MOST_ZONES }
    requires few_rows { length rows.now.entries ≤ MOST_LINES }
    ensures { OnOk result ((place : ℕ) (row : NumberedRow)
        → slice_get rows.now.entries place ≡ Some row → (gateway : List ℕ)
        → kept_priority priorities.new.entries place gateway
        ≡ option_or (numbered_priority_in zones.now.entries row gateway command.now)
        (kept_priority priorities.old.entries place gateway)) }
{
    let Some(named) = gateways_named(command) else {
        return Ok(());
    };
    let Some(row) = place_of(zones, rows, command) else {
        return Ok(());
    };
    add_gateways(alloc, priorities, row, named)
}

/// The gateways that a command names, with their priority.
fn gateways_named(command: &Command) -> Option<&GatewayPriority>
    ensures { option_copied result ≡ gateways_named command.now }
{
    match command {
        Command::ZonePrefix { gateways, .. } => gateways.as_ref(),
        _ => None,
    }
}

/// The number of the row that a command is about: that of its pattern, if its zone is the one that
/// is picked for the pattern.
fn place_of(
    zones: &IndexMap<Name, ZoneKind>,
    rows: &IndexMap<Pattern, ZoneNo>,
    command: &Command,
) -> Option<u32>
    requires few_zones { length zones.now.entries ≤ MOST_ZONES }
    requires few_rows { length rows.now.entries ≤ MOST_LINES }
    ensures { (place : ℕ) (row : NumberedRow) → slice_get rows.now.entries place ≡ Some row
        → is_about zones.now.entries row (row_of command.now) ≡ is_place result place }
{
    let row = row_of(command)?;
    let place = rows.get_index_of(row.0)?;
    let (_, picked) = rows.get_index(place)?;
    if number_of(zones, row.1) == *picked {
        Some(place as u32)
    } else {
        None
    }
}

/// Gives gateways their priority for a row.
fn add_gateways(
    alloc: Global,
    priorities: &mut IndexMap<u32, IndexMap<Name, u8>>,
    row: u32,
    named: &GatewayPriority,
) -> Result<(), AllocError>
    ensures { OnOk result ((place : ℕ) (gateway : List ℕ)
        → kept_priority priorities.new.entries place gateway
        ≡ (if row == place then option_or (priority_among gateway (Some named.now))
        (kept_priority priorities.old.entries place gateway)
        else kept_priority priorities.old.entries place gateway)) }
{
    let gateways = priorities.entry(row)?.or_insert(IndexMap::new(alloc));
    set_priorities(gateways, named.gateways.as_slice(), named.priority)
}

/// Gives each of some gateways this priority.
fn set_priorities(
    gateways: &mut IndexMap<Name, u8>,
    names: &[KeptName],
    priority: u8,
) -> Result<(), AllocError>
    ensures { OnOk result ((gateway : List ℕ)
        → lookup (bytes_eq gateway) gateways.new.entries ≡ (if list_any (bytes_eq gateway) names.now
        then Some priority else lookup (bytes_eq gateway) gateways.old.entries)) }
{
    for name in names {
        let gateway = name.name();
        gateways.insert(gateway, priority)?;
    }
    Ok(())
}
