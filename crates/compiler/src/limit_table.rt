//! The bandwidth limits of zones, read from the `bandwidth` commands.

ghost use Rattle.std.specs.Prelude.{◌≡◌, ◌≤◌, ℕ, List, length, slice_get, IfOk, option_map, unwrap_or};
ghost use Rattle.gk_terms.specs.declared.limits.TheConstants.{MOST_ZONES};
ghost use Rattle.compiler.specs.Limit.{units_of_kbps, remote_size, remote_limit_of};
ghost use Rattle.compiler.specs.TablesIndex.{default_limits_of, defaults_said, named_limits, no_limits, limits_or, limits_said, limits_if_local, limits_with, kept_limits, AreOwnLimits, AreLimits};

use crate::limits::{NO_LIMITS, ZoneLimits};
use crate::zone_table::number_of_name;
use gk_commands::{Command, ZoneKind};
use gk_terms::{Kbps, Name};
use indexmap::IndexMap;
use std::alloc::{AllocError, Global};

/// The limits of each zone, at the place that is its number.
pub(crate) fn limits_in(
    alloc: Global,
    commands: &[Command],
    zones: &IndexMap<Name, ZoneKind>,
) -> Result<Vec<ZoneLimits>, AllocError>
    requires { length zones.now.entries ≤ MOST_ZONES }
    ensures { IfOk result (λ limits. AreLimits zones.now.entries commands.now limits.items) }
{
    let mut limits = own_limits_in(alloc, commands, zones)?;
    add_defaults(&mut limits, zones, default_limits_of(commands));
    Ok(limits)
}

/// The limits that commands give each zone itself: of each kind, its last command counts.
fn own_limits_in(
    alloc: Global,
    commands: &[Command],
    zones: &IndexMap<Name, ZoneKind>,
) -> Result<Vec<ZoneLimits>, AllocError>
    requires { length zones.now.entries ≤ MOST_ZONES }
    ensures own { IfOk result (λ limits.
        AreOwnLimits zones.now.entries commands.now limits.items) }
    ensures each { IfOk result (λ limits. length limits.items ≡ length zones.now.entries) }
{
    let mut limits = vec![in alloc; NO_LIMITS; zones.len()]?;
    for command in commands {
        add_limits(&mut limits, zones, command);
    }
    Ok(limits)
}

/// Adds what one more command says of a zone, if that is declared.
fn add_limits(limits: &mut [ZoneLimits], zones: &IndexMap<Name, ZoneKind>, command: &Command)
    requires few { length zones.now.entries ≤ MOST_ZONES }
    requires each { length limits.now ≡ length zones.now.entries }
    ensures kept { (name : List ℕ) → kept_limits zones.now.entries limits.new name
        ≡ option_map (limits_or (limits_said name command.now))
        (kept_limits zones.now.entries limits.old name) }
    ensures each { length limits.new ≡ length limits.old }
{
    let Some((zone, said)) = named_limits(command) else {
        return;
    };
    let place = number_of_name(zones, &zone).place() as usize;
    if place < limits.len() {
        limits[place] = said.or(limits[place]);
    }
}

/// The zone that a command gives limits, with those limits.
fn named_limits(command: &Command) -> Option<(Name, ZoneLimits)>
    ensures { result ≡ named_limits command.now }
{
    match command {
        Command::BandwidthZone { kind, zone, size } => {
            Some((zone.name(), ZoneLimits::only(*kind, units_of(*size))))
        }
        _ => None,
    }
}

/// Gives each local zone the default of each kind of which it has no limit of its own, and each
/// remote zone none.
fn add_defaults(limits: &mut [ZoneLimits], zones: &IndexMap<Name, ZoneKind>, defaults: ZoneLimits)
    requires { length limits.now ≡ length zones.now.entries }
    ensures kept { (place : ℕ) → slice_get limits.new place
        ≡ limits_with zones.now.entries defaults limits.old place }
    ensures each { length limits.new ≡ length limits.old }
{
    for place in 0..limits.len() {
        if let Some((_, kind)) = zones.get_index(place) {
            limits[place] = limits_if_local(*kind, limits[place].or(defaults));
        }
    }
}

/// These limits, if a zone of this kind may have any.
fn limits_if_local(kind: ZoneKind, limits: ZoneLimits) -> ZoneLimits
    ensures { result ≡ limits_if_local kind limits }
{
    if kind.is_local() { limits } else { NO_LIMITS }
}

/// The limits of each local zone that has none of its own: of each kind, the last default counts.
fn default_limits_of(commands: &[Command]) -> ZoneLimits
    ensures { result ≡ default_limits_of commands.now }
{
    let mut defaults = NO_LIMITS;
    for command in commands {
        defaults = defaults_said(command).or(defaults);
    }
    defaults
}

/// The limits that a command gives each local zone.
fn defaults_said(command: &Command) -> ZoneLimits
    ensures { result ≡ defaults_said command.now }
{
    match command {
        Command::BandwidthDefault { kind, size } => ZoneLimits::only(*kind, units_of(*size)),
        _ => NO_LIMITS,
    }
}

/// The limits of the zone of a name, out of those of all zones; none if it is not declared.
pub(crate) fn limits_at(
    zones: &IndexMap<Name, ZoneKind>,
    limits: &[ZoneLimits],
    name: &Name,
) -> ZoneLimits
    requires { length zones.now.entries ≤ MOST_ZONES }
    ensures { result ≡ unwrap_or (kept_limits zones.now.entries limits.now name.now) no_limits }
{
    let number = number_of_name(zones, name);
    limits
        .get(number.place() as usize)
        .copied()
        .unwrap_or(NO_LIMITS)
}

/// The limit of all calls to and from other gatekeepers together: the last command counts.
pub(crate) fn remote_limit_in(commands: &[Command]) -> Option<u64>
    ensures { result ≡ remote_limit_of commands.now }
{
    let mut limit = None;
    for command in commands {
        if let Some(size) = remote_size(command) {
            limit = Some(units_of(size));
        }
    }
    limit
}

/// The size that a command gives all calls to and from other gatekeepers together.
fn remote_size(command: &Command) -> Option<Kbps>
    ensures { result ≡ remote_size command.now }
{
    match command {
        Command::BandwidthRemote { size } => Some(*size),
        _ => None,
    }
}

/// A size in units of 100 bit/s.
fn units_of(size: Kbps) -> u64
    ensures { result ≡ units_of_kbps size }
{
    10 * u64::from(size.value())
}
