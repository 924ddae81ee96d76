//! What a configuration is compiled into that takes memory.

ghost use Rattle.std.specs.Prelude.{◌≡◌, ◌≤◌, length, IfOk};
ghost use Rattle.gk_terms.specs.declared.limits.TheConstants.{MOST_LINES, MOST_ZONES};
ghost use Rattle.gk_commands.specs.Accepted.{IsAccepted};
ghost use Rattle.gk_commands.specs.Zones.{zones_of};
ghost use Rattle.compiler.specs.TablesIndex.{AreLimits, AreRoutes, AreTechnologies};

use crate::limit_table::limits_in;
use crate::limits::ZoneLimits;
use crate::plans::ZoneNo;
use crate::priorities::priorities_in;
use crate::rows::{prefixes_in, rows_in};
use crate::technologies::technologies_in;
use crate::technology_map::TechnologyMap;
use crate::zone_table::zones_in;
use digit_patterns::Pattern;
use gk_commands::{Command, ZoneKind};
use gk_terms::Name;
use indexmap::IndexMap;
use raw_trie::RawTrie;
use std::alloc::{AllocError, Global};

/// The different patterns of the `zone prefix` lines, each with the number of its zone; their trie;
/// and by the number of a row, the gateways that are named for it.
#[derive(Drop)]
pub(crate) struct Routes {
    pub(crate) rows: IndexMap<Pattern, ZoneNo>,
    pub(crate) prefixes: RawTrie,
    pub(crate) priorities: IndexMap<u32, IndexMap<Name, u8>>,
}

/// All that is made of the commands and takes memory.
#[derive(Drop)]
pub(crate) struct Parts {
    pub(crate) zones: IndexMap<Name, ZoneKind>,
    pub(crate) routes: Routes,
    pub(crate) technologies: TechnologyMap,
    pub(crate) limits: Vec<ZoneLimits>,
}

/// What is made of the `zone prefix` lines.
pub(crate) fn routes_in(
    alloc: Global,
    commands: &[Command],
    zones: &IndexMap<Name, ZoneKind>,
) -> Result<Routes, AllocError>
    requires zones { length zones.now.entries ≤ MOST_ZONES }
    requires lines { length commands.now ≤ MOST_LINES }
    ensures { IfOk result (λ routes. AreRoutes zones.now.entries commands.now
        routes.rows.entries routes.prefixes routes.priorities.entries) }
{
    let rows = rows_in(alloc, commands, zones)?;
    let prefixes = prefixes_in(alloc, &rows)?;
    let priorities = priorities_in(alloc, commands, zones, &rows)?;
    Ok(Routes {
        rows,
        prefixes,
        priorities,
    })
}

/// What is made of the commands of a configuration. It stands in a function of its own, so that few
/// of these values are let go at each way out.
pub(crate) fn parts_in(alloc: Global, commands: &[Command]) -> Result<Parts, AllocError>
    requires accepted { IsAccepted commands.now }
    requires lines { length commands.now ≤ MOST_LINES }
    ensures zones { IfOk result (λ parts. parts.zones.entries ≡ zones_of commands.now) }
    ensures few_zones { IfOk result (λ parts. length parts.zones.entries ≤ MOST_ZONES) }
    ensures routes { IfOk result (λ parts. AreRoutes parts.zones.entries commands.now
        parts.routes.rows.entries parts.routes.prefixes parts.routes.priorities.entries) }
    ensures technologies { IfOk result (λ parts.
        AreTechnologies parts.zones.entries commands.now parts.technologies) }
    ensures limits { IfOk result (λ parts.
        AreLimits parts.zones.entries commands.now parts.limits.items) }
{
    let zones = zones_in(alloc, commands)?;
    let limits = limits_in(alloc, commands, &zones)?;
    let technologies = technologies_in(alloc, commands, &zones)?;
    let routes = routes_in(alloc, commands, &zones)?;
    Ok(Parts {
        zones,
        routes,
        technologies,
        limits,
    })
}
