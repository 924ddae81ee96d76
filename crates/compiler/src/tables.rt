//! The configuration in force, made ready for look-ups.

ghost use Rattle.std.specs.Prelude.{◌≡◌, ◌<◌, ◌≤◌, true, length, drop, IfOk, IfSome, Some, None, option_map, unwrap_or};
ghost use Rattle.std.specs.Option.{option_copied};
ghost use Rattle.gk_commands.specs.Zones.{zones_of, first_local_of, is_local_option};
ghost use Rattle.compiler.specs.Limit.{limits_of, limit_of, remote_limit_of};
ghost use Rattle.compiler.specs.Pick.{picked};
ghost use Rattle.compiler.specs.Plan.{plan_of, plan_after, target_of, row_at, row_meant, rejects_unknown, is_reject, by_row};
ghost use Rattle.compiler.specs.Priority.{priority_of, AreNamedFor, entries_of};
ghost use Rattle.compiler.specs.Rows.{row_for};
ghost use Rattle.compiler.specs.Technology.{technology_of, begins_with, hopoffs_of, default_technology_of};
ghost use Rattle.compiler.specs.Zones.{zone_meant, local_zone, view_at, view_of_name, zone_at, number_in};
ghost use Rattle.compiler.specs.TablesIndex as Index;

use crate::limit_table::{limits_at, remote_limit_in};
use crate::limits::ZoneLimits;
use crate::parts::{Parts, Routes, parts_in};
use crate::plans::{DEFAULT_GATEWAY_PRIORITY, Plan, Routed, RowNo, ZoneNo};
use crate::technologies::{default_technology_in, technology_of};
use crate::technology_map::TechnologyMap;
use crate::zone_table::{first_local_in, kind_at, view_of};
use crate::zones::ZoneView;
use digit_patterns::{Pattern, PrefixTable};
use gk_commands::{Command, Commands, LimitKind, ZoneKind};
use gk_terms::{Dialled, Name, TechPrefix, Version};
use indexmap::IndexMap;
use raw_trie::RawTrie;
use std::alloc::{AllocError, Global};
use std::marker::Model;

/// A configuration made ready for look-ups. `zones` has the declared zones in line order, so that
/// the number of a zone is its place. `rows` has the different patterns of the `zone prefix` lines
/// in the order of their first lines, each with the number of the zone that is picked for it, so
/// that the number of a row is its place; `prefixes` is a trie of the same patterns, each with that
/// number, so that a look-up reads a bounded number of its nodes, however many patterns there are.
/// `priorities` has, by the number of a row, the gateways that are named for it; a row for which
/// none is named is not there. `technologies` has each declared technology prefix with the number
/// of its picked hop-off zone. `limits` has the limits of each zone, at the place that is its
/// number; a remote zone has none. A contract sees the configuration that they were compiled from.
#[derive(Drop)]
pub struct Tables {
    commands: Commands,
    zones: IndexMap<Name, ZoneKind>,
    first_local: Name,
    rows: IndexMap<Pattern, ZoneNo>,
    prefixes: RawTrie,
    priorities: IndexMap<u32, IndexMap<Name, u8>>,
    technologies: TechnologyMap,
    default_technology: Option<TechPrefix>,
    rejects_unknown: bool,
    limits: Vec<ZoneLimits>,
    remote_limit: Option<u64>,
}

impl Model for Tables {
    ghost use Rattle.gk_commands.specs.Configuration.{Configuration};
    ghost use Rattle.compiler.specs.TablesIndex.{IsIndex};

    ghost Value = { Configuration };

    ghost view = { λ t. t.commands };

    ghost invariant = { λ t. IsIndex t.commands.commands t.zones.entries t.first_local
        t.rows.entries t.prefixes t.priorities.entries t.technologies
        t.default_technology t.rejects_unknown t.limits.items t.remote_limit };
}

impl Tables {
    /// The tables of a configuration. `AllocError` if memory is refused for them.
    pub fn compile(alloc: Global, commands: Commands) -> Result<Tables, AllocError>
        ensures { IfOk result (λ tables. tables ≡ commands) }
    {
        let lines = commands.as_slice();
        // So it is known how many there are at most.
        let _count = commands.len();
        let parts = parts_in(alloc, lines)?;
        let Parts {
            zones,
            routes,
            technologies,
            limits,
        } = parts;
        let Routes {
            rows,
            prefixes,
            priorities,
        } = routes;
        let Some(first_local) = first_local_in(lines) else {
            unreachable!()
        };
        let default_technology = default_technology_in(lines);
        let rejects_unknown = rejects_unknown(lines);
        let remote_limit = remote_limit_in(lines);
        Ok(Tables {
            commands,
            zones,
            first_local,
            rows,
            prefixes,
            priorities,
            technologies,
            default_technology,
            rejects_unknown,
            limits,
            remote_limit,
        })
    }

    /// The configuration that the tables were compiled from.
    pub fn commands(&self) -> &Commands
        ensures { result.now ≡ self.now }
    {
        &self.commands
    }

    /// The same in place of the tables, whose memory is let go. Takes none.
    pub fn into_commands(self) -> Commands
        ensures { result ≡ self }
    {
        self.commands
    }

    /// Where a call to these digits is to go. If they begin with a declared technology prefix, the
    /// longest such: to its hop-off zone, and without one by the digits after it; else by all
    /// digits. By digits a call goes to the zone of the longest zone prefix that matches them; if
    /// none matches, nowhere under `arq reject-unknown-prefix`, and else to the caller's zone.
    pub fn plan(&self, digits: &Dialled) -> Plan
        ensures { target_of self.now.commands result ≡ Some (plan_of self.now.commands digits.now) }
    {
        match technology_of(&self.technologies, digits.as_bytes()) {
            None => self.plan_by_row(digits, 0, None),
            Some(found) => self.plan_by_technology(digits, found.0, found.1),
        }
    }

    /// The longest technology prefix with which the digits begin, of those that the configuration
    /// declares by `gw-type-prefix` (Cisco). Takes no memory.
    pub fn declared(&self, digits: &Dialled) -> Option<TechPrefix>
        ensures { result ≡ technology_of self.now.commands digits.now }
    {
        match technology_of(&self.technologies, digits.as_bytes()) {
            None => None,
            Some(found) => Some(found.0),
        }
    }

    #[tactic(auto, using(crate::proofs::TechnologyLemmas::begins_within))]
    /// Where a call goes if this is the technology prefix of its digits, and has no hop-off zone: the
    /// prefix is taken off the digits, and the zone of the longest pattern that matches the rest is
    /// the target. Takes no memory. This project's profile.
    pub fn plan_after(&self, digits: &Dialled, prefix: &TechPrefix) -> Plan
        requires { begins_with digits.now prefix.now ≡ true }
        ensures { target_of self.now.commands result
            ≡ Some (plan_after self.now.commands digits.now prefix.now) }
    {
        self.plan_by_row(digits, prefix.as_bytes().len(), Some(*prefix))
    }

    /// Where a call goes if its digits begin with this technology prefix, whose hop-off zone is
    /// given if it has one.
    fn plan_by_technology(
        &self,
        digits: &Dialled,
        prefix: TechPrefix,
        hopoff: Option<ZoneNo>,
    ) -> Plan
        requires found { technology_of self.now.commands digits.now ≡ Some prefix }
        requires within { length prefix ≤ length digits.now }
        requires hopoff { hopoff ≡ Index.best_number (zones_of self.now.commands)
            (hopoffs_of self.now.commands prefix) }
        ensures { target_of self.now.commands result ≡ Some (plan_of self.now.commands digits.now) }
    {
        match hopoff {
            Some(zone) => self.plan_to(zone, Some(prefix), None),
            None => self.plan_by_row(digits, prefix.as_bytes().len(), Some(prefix)),
        }
    }

    /// Where a call goes by the digits from the place `from` on.
    fn plan_by_row(&self, digits: &Dialled, from: usize, technology: Option<TechPrefix>) -> Plan
        requires { from ≤ length digits.now }
        ensures { target_of self.now.commands result ≡ Some (by_row self.now.commands technology
            (row_for self.now.commands (drop from digits.now))) }
    {
        self.plan_of_row(technology, self.row(digits, from))
    }

    /// The row by which the digits from the place `from` on are sent: that of the longest pattern
    /// of the `zone prefix` lines (Cisco) that matches them; none if no pattern does. Takes no
    /// memory.
    pub fn row(&self, digits: &Dialled, from: usize) -> Option<RowNo>
        requires { from ≤ length digits.now }
        ensures { row_meant self.now.commands result
            ≡ Some (row_for self.now.commands (drop from digits.now)) }
    {
        match self.prefixes.best(digits, from) {
            Some(hit) => Some(RowNo::new(hit.value)),
            None => None,
        }
    }

    /// The pattern of a row; nothing if the number is not one of these tables'.
    pub fn pattern(&self, row: RowNo) -> Option<&Pattern>
        ensures { option_copied result ≡ option_map (λ used. used.0) (row_at self.now.commands row) }
    {
        let (pattern, _) = self.rows.get_index(row.place() as usize)?;
        Some(pattern)
    }

    /// Where a call goes by this row, or if no row was found, with this technology prefix taken off
    /// its digits: to the row's zone; without a row nowhere under `arq reject-unknown-prefix`, and
    /// else to the caller's zone. The number has to be one of these tables'; nothing is promised
    /// for another. Takes no memory. This project's profile.
    pub fn plan_of_row(&self, technology: Option<TechPrefix>, row: Option<RowNo>) -> Plan
        ensures { IfSome (row_meant self.now.commands row) (λ used.
            target_of self.now.commands result ≡ Some (by_row self.now.commands technology used)) }
    {
        let Some(number) = row else {
            return self.plan_without_row(technology);
        };
        match self.rows.get_index(number.place() as usize) {
            Some((_, zone)) => self.plan_to(*zone, technology, row),
            None => self.plan_without_row(technology),
        }
    }

    /// The number of the hop-off zone of a technology prefix, of those that its `gw-type-prefix`
    /// lines (Cisco) name: the first local one, else the remote one of least cost, of these the one
    /// of greatest priority, and of these the first. None if it has no hop-off zone, or is not
    /// declared. Takes no memory.
    pub fn hopoff(&self, prefix: &TechPrefix) -> Option<ZoneNo>
        ensures { result ≡ option_map (number_in (zones_of self.now.commands))
            (picked self.now.commands (hopoffs_of self.now.commands prefix.now)) }
    {
        self.technologies.get(prefix).flatten()
    }

    /// Where a call goes if no zone prefix matches.
    fn plan_without_row(&self, technology: Option<TechPrefix>) -> Plan
        ensures { target_of self.now.commands result ≡
            Some (by_row self.now.commands technology None) }
    {
        if self.rejects_unknown {
            Plan::UnknownPrefix
        } else {
            Plan::Caller { technology }
        }
    }

    /// The plan for calls to the zone of a number.
    fn plan_to(&self, zone: ZoneNo, technology: Option<TechPrefix>, row: Option<RowNo>) -> Plan
        ensures { result ≡ Index.plan_to (Index.kind_at (zones_of self.now.commands) zone)
            zone technology row }
    {
        match kind_at(&self.zones, zone) {
            Some(ZoneKind::Local) => Plan::Local {
                zone,
                technology,
                row,
            },
            Some(ZoneKind::Remote { .. }) => Plan::Remote(zone),
            None => Plan::UnknownPrefix,
        }
    }

    /// The plan for these digits, with the number of the version that these tables are.
    pub fn routed(&self, version: Version, digits: &Dialled) -> Routed
        ensures version { result.version ≡ version }
        ensures dialled { result.dialled ≡ digits.now }
        ensures plan { target_of self.now.commands result.plan ≡
            Some (plan_of self.now.commands digits.now) }
    {
        Routed {
            version,
            dialled: *digits,
            plan: self.plan(digits),
        }
    }

    /// The priority of a gateway for a row, 0 to 10: what the last `gw-priority` for the row's zone
    /// and pattern that names the gateway says, and 5 if none does or no row was used. The number
    /// has to be one of these tables'; nothing is promised for another.
    pub fn priority(&self, row: Option<RowNo>, gateway: &Name) -> u8
        ensures { IfSome (row_meant self.now.commands row) (λ used.
            result ≡ priority_of self.now.commands used gateway.now) }
    {
        match self.gateways(row) {
            Some(gateways) => gateways
                .get(gateway)
                .copied()
                .unwrap_or(DEFAULT_GATEWAY_PRIORITY),
            None => DEFAULT_GATEWAY_PRIORITY,
        }
    }

    /// The gateways that `gw-priority` names for the row's zone and pattern, each with what the
    /// last such line says. A gateway that is not in the map has 5, and so has each if there is no
    /// map or no row was used. The number has to be one of these tables'.
    pub fn gateways(&self, row: Option<RowNo>) -> Option<&IndexMap<Name, u8>>
        ensures { IfSome (row_meant self.now.commands row) (λ used.
            AreNamedFor self.now.commands used (entries_of (option_copied result))) }
    {
        let row = row?;
        self.priorities.get(&row.place())
    }

    /// The default technology: that of the last `gw-type-prefix` line that sets one.
    pub fn default_technology(&self) -> Option<TechPrefix>
        ensures { result ≡ default_technology_of self.now.commands }
    {
        self.default_technology
    }

    /// What the tables say of the zone of a name, if it is declared.
    pub fn zone_of(&self, name: &Name) -> Option<ZoneView>
        ensures { result ≡ view_of_name self.now.commands name.now }
    {
        let place = self.zones.get_index_of(name)?;
        Some(self.zone(ZoneNo::new(place as u32)))
    }

    /// What the tables say of the zone of a number, which has to be one of these tables'.
    pub fn zone(&self, number: ZoneNo) -> ZoneView
        requires { number < length (zones_of self.now.commands) }
        ensures { Some result ≡ view_at self.now.commands number }
    {
        match self.zones.get_index(number.place() as usize) {
            Some((name, kind)) => view_of(number, name, kind),
            None => unreachable!(),
        }
    }

    /// The name of the zone of a number, which has to be one of these tables'.
    pub fn zone_name(&self, number: ZoneNo) -> &Name
        requires { number < length (zones_of self.now.commands) }
        ensures { option_map (λ zone. zone.0) (zone_at self.now.commands number)
            ≡ Some result.now }
    {
        match self.zones.get_index(number.place() as usize) {
            Some((name, _)) => name,
            None => unreachable!(),
        }
    }

    /// The first local zone in line order.
    pub fn first_local(&self) -> Name
        ensures { Some result ≡ first_local_of self.now.commands }
    {
        self.first_local
    }

    /// The zone that a registration names: `-` is the first local zone of the configuration.
    /// Nothing if it is not a local zone.
    pub fn local_zone(&self, name: &Name) -> Option<Name>
        ensures { result ≡ local_zone self.now.commands name.now }
    {
        let zone = self.zone_meant(name);
        if is_local_option(self.zones.get(zone)) {
            Some(*zone)
        } else {
            None
        }
    }

    /// The bandwidth limits of the zone of a name. The last `bandwidth KIND zone` line for the zone
    /// counts, else the last `bandwidth KIND default` line; a remote zone, and one that is not
    /// declared, has none. From Cisco's `bandwidth`.
    pub fn limits(&self, zone: &Name) -> ZoneLimits
        ensures { result ≡ limits_of self.now.commands zone.now }
    {
        limits_at(&self.zones, &self.limits, zone)
    }

    /// One of these limits, in units of 100 bit/s: 10 to 50,000 of one call, and else 10 to
    /// 100,000,000; nothing if there is none.
    pub fn limit(&self, kind: LimitKind, zone: &Name) -> Option<u64>
        ensures { result ≡ limit_of self.now.commands kind zone.now }
    {
        self.limits(zone).of(kind)
    }

    /// The limit of all calls to and from other gatekeepers together, 10 to 100,000,000 units of
    /// 100 bit/s: what the last `bandwidth remote` line says. From Cisco's `bandwidth`.
    pub fn remote_limit(&self) -> Option<u64>
        ensures { result ≡ remote_limit_of self.now.commands }
    {
        self.remote_limit
    }

    /// The zone that a registration means, by its name.
    fn zone_meant<'a>(&'a self, name: &'a Name) -> &'a Name
        ensures { result.now ≡ zone_meant self.now.commands name.now }
    {
        match name.as_bytes() {
            b"-" => &self.first_local,
            _ => name,
        }
    }
}

/// Whether a zone was found, and it is a local one.
fn is_local_option(kind: Option<&ZoneKind>) -> bool
    ensures { result ≡ is_local_option (option_copied kind.entry) }
{
    match kind {
        Some(kind) => kind.is_local(),
        None => false,
    }
}

/// Whether digits that no zone prefix matches are rejected.
fn rejects_unknown(commands: &[Command]) -> bool
    ensures { result ≡ rejects_unknown commands.now }
{
    commands.iter().any(|command| is_reject(command))
}

/// Whether a command is `arq reject-unknown-prefix`.
fn is_reject(command: &Command) -> bool
    ensures { result ≡ is_reject command.now }
{
    matches!(command, Command::RejectUnknownPrefix)
}
