//! The limits that a call is held against.

ghost use Rattle.std.specs.Prelude.{◌≡◌, ◌++◌, IfOk, OnOk};
ghost use Rattle.std.specs.Option.{option_to_list};
ghost use Rattle.explanation.specs.Steps.{held_between, held_by};
ghost use Rattle.explanation.specs.HeldLimits.{between, held, of_kind, remotely};

use crate::steps::{HeldLimit, Reached};
use bandwidth::Over;
use compiler::Tables;
use gk_commands::LimitKind;
use gk_terms::Name;
use std::alloc::{AllocError, Global};

/// The limits that a call of a caller of this zone to the target zone is held against, in the order
/// in which they are tried.
pub(crate) fn held_limits(
    alloc: Global,
    tables: &Tables,
    caller: &Name,
    reached: &Reached,
) -> Result<Vec<HeldLimit>, AllocError>
    ensures { IfOk result (λ list. list.items
        ≡ held_by tables.now.commands caller.now reached.now) }
{
    match reached {
        Reached::Nowhere => Ok(Vec::new(alloc)),
        Reached::Remote(zone) => held_between(alloc, tables, caller, zone, true),
        Reached::Local(zone) => held_between(alloc, tables, caller, zone, false),
    }
}

/// The same of two zones; whether the second is a remote one is given.
fn held_between(
    alloc: Global,
    tables: &Tables,
    caller: &Name,
    zone: &Name,
    is_remote: bool,
) -> Result<Vec<HeldLimit>, AllocError>
    ensures { IfOk result (λ list. list.items
        ≡ held_between tables.now.commands caller.now zone.now is_remote) }
{
    let mut list = Vec::new(alloc);
    add_of_kind(&mut list, tables, LimitKind::Session, caller, zone)?;
    add_of_kind(&mut list, tables, LimitKind::Total, caller, zone)?;
    add_interzone(&mut list, tables, caller, zone)?;
    add_remote(&mut list, tables, is_remote)?;
    Ok(list)
}

/// Adds the interzone limits, if the zones are different.
fn add_interzone(
    list: &mut Vec<HeldLimit>,
    tables: &Tables,
    caller: &Name,
    zone: &Name,
) -> Result<(), AllocError>
    ensures { OnOk result (list.new.items ≡ list.old.items
        ++ between tables.now.commands caller.now zone.now) }
{
    if *caller != *zone {
        add_of_kind(list, tables, LimitKind::Interzone, caller, zone)?;
    }
    Ok(())
}

/// Adds the limit of all calls to and from other gatekeepers together, if the call is one of them.
fn add_remote(list: &mut Vec<HeldLimit>, tables: &Tables, is_remote: bool) -> Result<(), AllocError>
    ensures { OnOk result (list.new.items ≡ list.old.items
        ++ remotely tables.now.commands is_remote) }
{
    if is_remote {
        add_if_any(list, Over::Remote, tables.remote_limit())?;
    }
    Ok(())
}

/// Adds the limits of a kind: that of the caller's zone, and that of the target zone if it is
/// another one.
fn add_of_kind(
    list: &mut Vec<HeldLimit>,
    tables: &Tables,
    kind: LimitKind,
    caller: &Name,
    zone: &Name,
) -> Result<(), AllocError>
    ensures { OnOk result (list.new.items ≡ list.old.items
        ++ of_kind tables.now.commands kind caller.now zone.now) }
{
    let over = Over::Zone {
        kind,
        zone: *caller,
    };
    add_if_any(list, over, tables.limit(kind, caller))?;
    if *caller != *zone {
        let over = Over::Zone { kind, zone: *zone };
        add_if_any(list, over, tables.limit(kind, zone))?;
    }
    Ok(())
}

/// Adds a limit, if there is one.
fn add_if_any(list: &mut Vec<HeldLimit>, over: Over, limit: Option<u64>) -> Result<(), AllocError>
    ensures { OnOk result (list.new.items ≡ list.old.items ++ option_to_list (held over limit)) }
{
    if let Some(units) = limit {
        list.push(HeldLimit { over, units })?;
    }
    Ok(())
}
