//! The zones of a configuration, by name and by number.

ghost use Rattle.std.specs.Prelude.{◌≡◌, ◌≤◌, length, IfOk, find, option_map, option_and_then, bytes_eq};
ghost use Rattle.std.specs.List.{IsDistinct};
ghost use Rattle.std.specs.Option.{option_copied};
ghost use Rattle.std.specs.Map.{keys_of};
ghost use Rattle.gk_terms.specs.declared.limits.TheConstants.{MOST_ZONES};
ghost use Rattle.gk_commands.specs.Zones.{zones_of, declared_by, first_local_of, is_local_command};
ghost use Rattle.compiler.specs.Zones.{view_of, address_of_kind, number_in};
ghost use Rattle.compiler.specs.TablesIndex.{kind_at};

use crate::plans::ZoneNo;
use crate::zones::ZoneView;
use gk_commands::{Command, KeptName, ZoneKind};
use gk_terms::{Address, Name};
use indexmap::IndexMap;
use std::alloc::{AllocError, Global};

/// The zones that commands declare, in line order. Their names have to differ.
pub(crate) fn zones_in(
    alloc: Global,
    commands: &[Command],
) -> Result<IndexMap<Name, ZoneKind>, AllocError>
    requires { IsDistinct bytes_eq (keys_of (zones_of commands.now)) }
    ensures { IfOk result (λ zones. zones.entries ≡ zones_of commands.now) }
{
    let mut zones = IndexMap::new(alloc);
    for command in commands {
        if let Some(zone) = command.zone() {
            zones.insert(zone.0, zone.1)?;
        }
    }
    Ok(zones)
}

#[tactic(auto, using(crate::proofs::ZoneLemmas::first_local_by_commands))]
/// The first local zone that commands declare.
pub(crate) fn first_local_in(commands: &[Command]) -> Option<Name>
    ensures { result ≡ first_local_of commands.now }
{
    name_declared(first_local_command(commands))
}

/// The name of the zone that a command declares, if there is a command and it declares one.
fn name_declared(command: Option<&Command>) -> Option<Name>
    ensures { result ≡ option_map (λ zone. zone.0)
        (option_and_then declared_by (option_copied command.entry)) }
{
    let (name, _) = command?.zone()?;
    Some(name)
}

/// The first command that declares a local zone.
fn first_local_command(commands: &[Command]) -> Option<&Command>
    ensures { option_copied result ≡ find is_local_command commands.now }
{
    commands.iter().find(|command| command.is_local_zone())
}

/// The number of the zone of a kept name; the count of all zones if there is none.
pub(crate) fn number_of(zones: &IndexMap<Name, ZoneKind>, name: &KeptName) -> ZoneNo
    requires { length zones.now.entries ≤ MOST_ZONES }
    ensures { result ≡ number_in zones.now.entries name.now }
{
    number_of_name(zones, &name.name())
}

#[tactic(auto, using(crate::proofs::ZoneLemmas::number_by_position))]
/// The number of the zone of a name; the count of all zones if there is none.
pub(crate) fn number_of_name(zones: &IndexMap<Name, ZoneKind>, name: &Name) -> ZoneNo
    requires { length zones.now.entries ≤ MOST_ZONES }
    ensures { result ≡ number_in zones.now.entries name.now }
{
    let place = zones.get_index_of(name).unwrap_or(zones.len());
    ZoneNo::new(place as u32)
}

/// The kind of the zone of a number.
pub(crate) fn kind_at(zones: &IndexMap<Name, ZoneKind>, number: ZoneNo) -> Option<ZoneKind>
    ensures { result ≡ kind_at zones.now.entries number }
{
    zones
        .get_index(number.place() as usize)
        .map(|(_, kind)| *kind)
}

/// What the tables say of the zone of a number.
pub(crate) fn view_of(number: ZoneNo, name: &Name, kind: &ZoneKind) -> ZoneView
    ensures { result ≡ view_of number (name.now, kind.now) }
{
    ZoneView {
        no: number,
        name: *name,
        local: kind.is_local(),
        address: address_of(kind),
    }
}

/// Where the gatekeeper of a zone is; none if the zone is controlled here.
fn address_of(kind: &ZoneKind) -> Option<Address>
    ensures { result ≡ address_of_kind kind.now }
{
    match kind {
        ZoneKind::Local => None,
        ZoneKind::Remote { address, .. } => Some(*address),
    }
}
