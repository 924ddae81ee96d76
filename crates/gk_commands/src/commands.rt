//! The commands of a configuration.

ghost use Rattle.std.specs.Prelude.{◌≡◌, ◌==◌, ◌≤◌, length, slice_get, IfSome, MatchResult};
ghost use Rattle.std.specs.Option.{option_copied};
ghost use Rattle.gk_commands.specs.Accepted.{IsAccepted, LinesSay};

use crate::command_lines::CommandLines;
use crate::names::Names;
use crate::whole_lines::WholeLines;
use crate::zones::ZoneKind;
use digit_patterns::Pattern;
use gk_terms::limits::MOST_LINES;
use gk_terms::{Address, Kbps, Name, TechPrefix};
use short_texts::KeptName;
use std::marker::Model;
use std::mem::size_of;
use std::slice;

/// One kept line of a configuration.
#[derive(Debug, PartialEq, Eq, Drop)]
pub enum Command {
    /// `zone local NAME DOMAIN [IP [PORT]]`: a zone that is controlled here. The address has no
    /// effect on routing.
    ZoneLocal {
        name: KeptName,
        domain: KeptName,
        address: Option<LocalAddress>,
    },
    /// `zone remote NAME DOMAIN IP [PORT] [cost C [priority P]]`: a zone of another gatekeeper, at
    /// port 1719 if none is given. Cost and priority are 1 to 100, and 50 if they are not given.
    ZoneRemote {
        name: KeptName,
        domain: KeptName,
        address: Address,
        cost: u8,
        priority: u8,
    },
    /// `zone prefix NAME PATTERN [seq|blast] [gw-priority N GW [GW ...]]`: matching numbers belong
    /// to the zone.
    ZonePrefix {
        zone: KeptName,
        pattern: Pattern,
        gateways: Option<GatewayPriority>,
    },
    /// `gw-type-prefix PREFIX [hopoff NAME ...] [seq|blast] [default-technology]`: a technology
    /// prefix, the zones to which calls with it hop off, and whether gateways of it take the calls
    /// that nothing else takes.
    GwTypePrefix {
        prefix: TechPrefix,
        hopoffs: Names,
        is_default: bool,
    },
    /// `arq reject-unknown-prefix`: an admission to digits that no zone prefix matches is refused.
    RejectUnknownPrefix,
    /// `bandwidth total|interzone|session default SIZE`: the limit of each local zone that has none
    /// of its own.
    BandwidthDefault {
        kind: LimitKind,
        size: Kbps,
    },
    /// `bandwidth total|interzone|session zone NAME SIZE`: the limit of one zone.
    BandwidthZone {
        kind: LimitKind,
        zone: KeptName,
        size: Kbps,
    },
    /// `bandwidth remote SIZE`: the limit of all calls to and from other gatekeepers together.
    BandwidthRemote {
        size: Kbps,
    },
}

// Its names stand in it in few bytes, since at a reload two times up to 20,000 commands are in
// memory.
const _: () = prove!(size_of::<Command>() == 112);

impl Command {
    ghost use Rattle.std.specs.Prelude.{◌≡◌};
    ghost use Rattle.gk_commands.specs.Zones.{declared_by, named_by, is_local_command};

    /// The zone that the command declares, with its name.
    pub fn zone(&self) -> Option<(Name, ZoneKind)>
        ensures { result ≡ declared_by self.now }
    {
        match self {
            Command::ZoneLocal { name, .. } => Some((name.name(), ZoneKind::Local)),
            Command::ZoneRemote {
                name,
                address,
                cost,
                priority,
                ..
            } => {
                let kind = ZoneKind::Remote {
                    address: *address,
                    cost: *cost,
                    priority: *priority,
                };
                Some((name.name(), kind))
            }
            _ => None,
        }
    }

    /// The names of the zones that the command names and other lines must declare.
    pub fn names(&self) -> &[KeptName]
        ensures { result.now ≡ named_by self.now }
    {
        match self {
            Command::ZonePrefix { zone, .. } | Command::BandwidthZone { zone, .. } => {
                slice::from_ref(zone)
            }
            Command::GwTypePrefix { hopoffs, .. } => hopoffs.as_slice(),
            _ => &[],
        }
    }

    /// Whether the command declares a local zone.
    pub fn is_local_zone(&self) -> bool
        ensures { result ≡ is_local_command self.now }
    {
        matches!(self, Command::ZoneLocal { .. })
    }
}

/// What a bandwidth limit bounds.
#[derive(Clone, Copy, Debug, PartialEq, Eq)]
pub enum LimitKind {
    /// One call: 1 to 5,000 kbit/s.
    Session,
    /// All calls of a zone together: 1 to 10,000,000 kbit/s.
    Total,
    /// All calls between a zone and another together: 1 to 10,000,000 kbit/s.
    Interzone,
}

/// The gateways of a `zone prefix` line, and their priority for its numbers.
#[derive(Debug, PartialEq, Eq, Drop)]
pub struct GatewayPriority {
    /// 0 to 10: 10 is the highest, and 0 keeps a gateway from being used.
    pub priority: u8,
    /// One or more, as they were written.
    pub gateways: Names,
}

/// The address in a `zone local` line, as it was given.
#[derive(Clone, Copy, Debug, PartialEq, Eq)]
pub struct LocalAddress {
    /// The IPv4 address.
    pub ip: [u8; 4],
    /// The port, 1 to 65535, if one was given.
    pub port: Option<u16>,
}

/// The commands of an accepted configuration, in line order, and how many of its lines were passed
/// over. A contract sees both as a `Configuration`.
///
/// `lines` are the lines that said the commands, if they were kept.
#[derive(Drop)]
pub struct Commands {
    commands: Vec<Command>,
    passed_over: u32,
    lines: Option<WholeLines>,
}

impl Model for Commands {
    ghost use Rattle.std.specs.Prelude.{◌≤◌, length, IfSome};
    ghost use Rattle.gk_terms.specs.declared.limits.TheConstants.{MOST_LINES};
    ghost use Rattle.gk_commands.specs.Accepted.{IsAccepted, LinesSay};
    ghost use Rattle.gk_commands.specs.Configuration.{Configuration};

    ghost Value = { Configuration };

    ghost view = { λ c. record { commands = c.commands.items; passed = c.passed_over } };

    ghost invariant = { λ c. (length c.commands.items ≤ MOST_LINES)
        × IsAccepted c.commands.items
        × IfSome c.lines (λ lines. LinesSay lines c.commands.items) };
}

impl Commands {
    /// Commands that were accepted, and the lines that said them, if they were kept. Room for more
    /// of either is freed, if the smaller block is given.
    pub fn new(mut commands: Vec<Command>, passed_over: u32, lines: Option<WholeLines>) -> Commands
        requires within { length commands.items ≤ MOST_LINES }
        requires accepted { IsAccepted commands.items }
        requires said { IfSome lines (λ lines. LinesSay lines commands.items) }
        ensures commands { result.commands ≡ commands.items }
        ensures passed { result.passed ≡ passed_over }
    {
        commands.shrink_to_fit();
        Commands {
            commands,
            passed_over,
            lines: lines.map(|lines| lines.shrunk()),
        }
    }

    /// The lines of the commands in place of the commands, which are read again from them when they
    /// are asked for. A line takes some 35 bytes, and at most 513, and a command 112. If the lines
    /// were not kept, the commands are handed back. It takes no memory.
    pub fn into_lines(self) -> Result<CommandLines, Commands>
        ensures { MatchResult result
            (λ lines. lines ≡ self.commands)
            (λ commands. commands ≡ self) }
    {
        let Commands {
            commands,
            passed_over,
            lines,
        } = self;
        match lines {
            Some(lines) => Ok(CommandLines::new(lines)),
            None => Err(Commands {
                commands,
                passed_over,
                lines: None,
            }),
        }
    }

    /// The commands as a slice.
    pub fn as_slice(&self) -> &[Command]
        ensures commands { result.now ≡ self.now.commands }
        ensures accepted { IsAccepted self.now.commands }
    {
        &self.commands
    }

    /// How many commands were kept: at most 20,000.
    pub fn len(&self) -> usize
        ensures count { result ≡ length self.now.commands }
        ensures within { result ≤ MOST_LINES }
        ensures accepted { IsAccepted self.now.commands }
    {
        self.commands.len()
    }

    /// Whether none was kept.
    pub fn is_empty(&self) -> bool
        ensures { result ≡ (length self.now.commands == 0) }
    {
        self.commands.is_empty()
    }

    /// The command at a place, counted from 0.
    pub fn get(&self, place: usize) -> Option<&Command>
        ensures { option_copied result ≡ slice_get self.now.commands place }
    {
        self.commands.get(place)
    }

    /// How many lines were passed over.
    pub fn passed(&self) -> u32
        ensures { result ≡ self.now.passed }
    {
        self.passed_over
    }
}
