//! What a line that begins with `zone` says.

ghost use Rattle.std.specs.Prelude.{◌≡◌, ◌≤◌, [], ◌∷◌, codes, MatchOption, MatchResult, Ok, Err};
ghost use Rattle.std.specs.Option.{option_copied};
ghost use Rattle.gk_terms.specs.Text.{words_of};
ghost use Rattle.gk_terms.specs.Fields.{Gives};
ghost use Rattle.gk_commands.specs.Fields.{is_one_of, field_but, nothing_more_but, with_next};
ghost use Rattle.command_reader.specs.Memory.{UnlessMemory, Any};
ghost use Rattle.gk_commands.specs.Line.{kept_command_of};
ghost use Rattle.command_reader.specs.Kept.{MayAdd, MayMake};
ghost use Rattle.gk_commands.specs.ZoneLine.{left_out_of_local, left_out_of_remote, left_out_of_zone, hunt_words, cost_of, local_port_at, local_address_at, zone_local_at, remote_port_at, remote_priority_at, remote_cost_at, zone_remote_at, after_hunt_word, gateways_at, zone_prefix_at, zone_line_at};

use crate::fields::{gateway_priority_field, ip_field, kept_name, pattern_field, some_names};
use crate::kept::Kept;
use gk_commands::numbers::{DEFAULT_COST, DEFAULT_PRIORITY, DEFAULT_RAS_PORT};
use gk_commands::{Command, FaultKind, GatewayPriority, LocalAddress};
use gk_terms::addresses::{read_ip, read_port};
use gk_terms::fields::name_field;
use gk_terms::words::Words;
use gk_terms::{Address, Name, read_number};
use std::alloc::Global;

/// The fields of a `zone local` line.
#[derive(Clone, Copy)]
struct LocalZone {
    name: Name,
    domain: Name,
    address: Option<LocalAddress>,
}

/// The fields of a `zone remote` line.
#[derive(Clone, Copy)]
struct RemoteZone {
    name: Name,
    domain: Name,
    address: Address,
    cost: u8,
    priority: u8,
}

/// Adds the command of `zone` and what follows it.
pub fn add_zone(kept: &mut Kept, alloc: Global, words: &mut Words<'_>) -> Result<(), FaultKind>
    ensures { MayAdd kept.old (kept_command_of (zone_line_at (words_of words.old)))
        kept.new result }
{
    match words.next() {
        None => Err(FaultKind::Missing),
        Some(word) if word == b"local".as_slice() => add_zone_local(kept, alloc, words),
        Some(word) if word == b"remote".as_slice() => add_zone_remote(kept, alloc, words),
        Some(word) if word == b"prefix".as_slice() => add_zone_prefix(kept, alloc, words),
        Some(word) if is_left_out_of_zone(word) => Err(FaultKind::Unsupported),
        Some(_) => Err(FaultKind::UnknownCommand),
    }
}

/// Adds `zone local NAME DOMAIN [IP [PORT]]`.
fn add_zone_local(kept: &mut Kept, alloc: Global, words: &mut Words<'_>) -> Result<(), FaultKind>
    ensures { MayAdd kept.old (kept_command_of (zone_local_at (words_of words.old))) kept.new
        result }
{
    kept.add(zone_local(kept, alloc, words)?)
}

/// Adds `zone remote NAME DOMAIN IP [PORT] [cost C [priority P]]`.
fn add_zone_remote(kept: &mut Kept, alloc: Global, words: &mut Words<'_>) -> Result<(), FaultKind>
    ensures { MayAdd kept.old (kept_command_of (zone_remote_at (words_of words.old))) kept.new
        result }
{
    kept.add(zone_remote(kept, alloc, words)?)
}

/// `zone local NAME DOMAIN [IP [PORT]]`. The line is read to its end, and its name looked up,
/// before memory is taken for its names.
fn zone_local(kept: &Kept, alloc: Global, words: &mut Words<'_>) -> Result<Command, FaultKind>
    ensures { MayMake kept.now (kept_command_of (zone_local_at (words_of words.old))) result }
{
    let zone = local_zone(words)?;
    let (name, domain) = kept.zone_names(alloc, &zone.name, &zone.domain)?;
    Ok(Command::ZoneLocal {
        name,
        domain,
        address: zone.address,
    })
}

/// The fields of `zone local`.
fn local_zone(words: &mut Words<'_>) -> Result<LocalZone, FaultKind>
    ensures { MatchResult result
        (λ zone. zone_local_at (words_of words.old)
        ≡ Ok (Command.ZoneLocal zone.name zone.domain zone.address))
        (λ kind. zone_local_at (words_of words.old) ≡ Err kind) }
{
    let name = name_field(words, FaultKind::BadName)?;
    let domain = name_field(words, FaultKind::BadName)?;
    let address = local_address(words)?;
    Ok(LocalZone {
        name,
        domain,
        address,
    })
}

/// The address of a `zone local` line, if it has one.
fn local_address(words: &mut Words<'_>) -> Result<Option<LocalAddress>, FaultKind>
    ensures { result ≡ local_address_at (words_of words.old) }
{
    let Some(word) = words.next() else {
        return Ok(None);
    };
    if is_left_out_of_local(word) {
        return Err(FaultKind::Unsupported);
    }
    let ip = read_ip(word).ok_or(FaultKind::BadAddress)?;
    local_port(ip, words)
}

/// The port after it, if there is one, and the end of the line.
fn local_port(ip: [u8; 4], words: &mut Words<'_>) -> Result<Option<LocalAddress>, FaultKind>
    ensures { result ≡ local_port_at ip (words_of words.old) }
{
    let Some(word) = words.next() else {
        return Ok(Some(LocalAddress { ip, port: None }));
    };
    if is_left_out_of_local(word) {
        return Err(FaultKind::Unsupported);
    }
    let port = read_port(word).ok_or(FaultKind::BadNumber)?;
    match words.next() {
        None => Ok(Some(LocalAddress {
            ip,
            port: Some(port),
        })),
        Some(word) if is_left_out_of_local(word) => Err(FaultKind::Unsupported),
        Some(_) => Err(FaultKind::Extra),
    }
}

/// `zone remote NAME DOMAIN IP [PORT] [cost C [priority P]]`. Memory is taken for its names as for
/// those of `zone local`.
fn zone_remote(kept: &Kept, alloc: Global, words: &mut Words<'_>) -> Result<Command, FaultKind>
    ensures { MayMake kept.now (kept_command_of (zone_remote_at (words_of words.old))) result }
{
    let zone = remote_zone(words)?;
    let (name, domain) = kept.zone_names(alloc, &zone.name, &zone.domain)?;
    Ok(Command::ZoneRemote {
        name,
        domain,
        address: zone.address,
        cost: zone.cost,
        priority: zone.priority,
    })
}

/// The fields of `zone remote`.
fn remote_zone(words: &mut Words<'_>) -> Result<RemoteZone, FaultKind>
    ensures { MatchResult result
        (λ zone. zone_remote_at (words_of words.old)
        ≡ Ok (Command.ZoneRemote zone.name zone.domain zone.address zone.cost zone.priority))
        (λ kind. zone_remote_at (words_of words.old) ≡ Err kind) }
{
    let name = name_field(words, FaultKind::BadName)?;
    let domain = name_field(words, FaultKind::BadName)?;
    let ip = ip_field(words)?;
    let (port, next) = remote_port(words)?;
    let (cost, priority) = remote_cost(next, words)?;
    Ok(RemoteZone {
        name,
        domain,
        address: Address::new(ip, port),
        cost,
        priority,
    })
}

/// The port of a `zone remote` line, unless `cost` is the next word, and the word after it.
fn remote_port<'a>(words: &mut Words<'a>) -> Result<(u16, Option<&'a [u8]>), FaultKind>
    ensures value { MatchResult result
        (λ read. remote_port_at (words_of words.old)
        ≡ Ok (read.0, with_next (option_copied read.1) (words_of words.new)))
        (λ kind. remote_port_at (words_of words.old) ≡ Err kind) }
    ensures least { MatchResult result (λ read. 1 ≤ read.0) (λ _. Unit {0}) }
{
    let Some(word) = words.next() else {
        return Ok((DEFAULT_RAS_PORT, None));
    };
    if word == b"cost".as_slice() {
        return Ok((DEFAULT_RAS_PORT, Some(word)));
    }
    if is_left_out_of_remote(word) {
        return Err(FaultKind::Unsupported);
    }
    let port = read_port(word).ok_or(FaultKind::BadNumber)?;
    Ok((port, words.next()))
}

/// The cost and the priority of a `zone remote` line, from this word on, and the end of the line.
fn remote_cost(next: Option<&[u8]>, words: &mut Words<'_>) -> Result<(u8, u8), FaultKind>
    ensures { result ≡ remote_cost_at (with_next (option_copied next.entry) (words_of words.old)) }
{
    match next {
        Some(word) if word == b"cost".as_slice() => cost_and_priority(words),
        next => remote_end((DEFAULT_COST, DEFAULT_PRIORITY), next),
    }
}

/// What comes after `cost`.
fn cost_and_priority(words: &mut Words<'_>) -> Result<(u8, u8), FaultKind>
    ensures { result ≡ remote_cost_at (codes "cost" ∷ words_of words.old) }
{
    let cost = cost_field(words)?;
    let priority = remote_priority(words)?;
    Ok((cost, priority))
}

/// The priority after the cost, if there is one, and the end of the line.
fn remote_priority(words: &mut Words<'_>) -> Result<u8, FaultKind>
    ensures { result ≡ remote_priority_at (words_of words.old) }
{
    match words.next() {
        Some(word) if word == b"priority".as_slice() => last_priority(words),
        next => remote_end(DEFAULT_PRIORITY, next),
    }
}

/// What comes after `priority`.
fn last_priority(words: &mut Words<'_>) -> Result<u8, FaultKind>
    ensures { result ≡ remote_priority_at (codes "priority" ∷ words_of words.old) }
{
    let priority = cost_field(words)?;
    remote_end(priority, words.next())
}

/// The value, if no word comes after the last field of a `zone remote` line.
fn remote_end<T: Drop>(value: T, next: Option<&[u8]>) -> Result<T, FaultKind>
    ensures { result ≡ nothing_more_but left_out_of_remote value
        (with_next (option_copied next.entry) []) }
{
    match next {
        None => Ok(value),
        Some(word) if is_left_out_of_remote(word) => Err(FaultKind::Unsupported),
        Some(_) => Err(FaultKind::Extra),
    }
}

/// The next word as a cost or a priority, 1 to 100.
fn cost_field(words: &mut Words<'_>) -> Result<u8, FaultKind>
    ensures { Gives (field_but left_out_of_remote cost_of FaultKind.BadNumber (words_of words.old))
        result (words_of words.new) }
{
    let word = words.next().ok_or(FaultKind::Missing)?;
    if is_left_out_of_remote(word) {
        return Err(FaultKind::Unsupported);
    }
    let cost = read_number(word, 1, 100).map_err(|_| FaultKind::BadNumber)?;
    Ok(cost as u8)
}

/// Adds `zone prefix NAME PATTERN [seq|blast] [gw-priority N GW [GW ...]]`. Most lines of a large
/// configuration are of this kind, so the command is made where it is added.
fn add_zone_prefix(kept: &mut Kept, alloc: Global, words: &mut Words<'_>) -> Result<(), FaultKind>
    ensures { MayAdd kept.old (kept_command_of (zone_prefix_at (words_of words.old))) kept.new
        result }
{
    let zone = name_field(words, FaultKind::BadName)?;
    let pattern = pattern_field(words)?;
    let gateways = gateways(alloc, words)?;
    let zone = kept_name(alloc, &zone)?;
    kept.add(Command::ZonePrefix {
        zone,
        pattern,
        gateways,
    })
}

/// The gateways of a `zone prefix` line with their priority, if it has them, and the end of the
/// line.
fn gateways(alloc: Global, words: &mut Words<'_>) -> Result<Option<GatewayPriority>, FaultKind>
    ensures { UnlessMemory Any (gateways_at (after_hunt_word (words_of words.old))) result }
{
    match next_after_hunt_word(words) {
        None => Ok(None),
        Some(word) if word == b"gw-priority".as_slice() => gateway_priority(alloc, words),
        Some(_) => Err(FaultKind::Extra),
    }
}

/// The next word, or the one after it if that is `seq` or `blast`.
fn next_after_hunt_word<'a>(words: &mut Words<'a>) -> Option<&'a [u8]>
    ensures { MatchOption result
        (after_hunt_word (words_of words.old) ≡ [])
        (λ word. after_hunt_word (words_of words.old) ≡ word.now ∷ words_of words.new) }
{
    match words.next() {
        Some(word) if is_hunt_word(word) => words.next(),
        next => next,
    }
}

/// What comes after `gw-priority`.
fn gateway_priority(
    alloc: Global,
    words: &mut Words<'_>,
) -> Result<Option<GatewayPriority>, FaultKind>
    ensures { UnlessMemory Any (gateways_at (codes "gw-priority" ∷ words_of words.old)) result }
{
    let priority = gateway_priority_field(words)?;
    let gateways = some_names(alloc, words)?;
    Ok(Some(GatewayPriority { priority, gateways }))
}

/// Whether a word is an option of `zone local` that is left out.
fn is_left_out_of_local(word: &[u8]) -> bool
    ensures { result ≡ is_one_of left_out_of_local word.now }
{
    word == b"invia".as_slice()
        || word == b"outvia".as_slice()
        || word == b"enable-intrazone".as_slice()
}

/// Whether a word is an option of `zone remote` that is left out.
fn is_left_out_of_remote(word: &[u8]) -> bool
    ensures { result ≡ is_one_of left_out_of_remote word.now }
{
    word == b"foreign-domain".as_slice()
        || word == b"invia".as_slice()
        || word == b"outvia".as_slice()
}

/// Whether a word after `zone` begins a command that is left out.
fn is_left_out_of_zone(word: &[u8]) -> bool
    ensures { result ≡ is_one_of left_out_of_zone word.now }
{
    word == b"subnet".as_slice()
        || word == b"circuit-id".as_slice()
        || word == b"cluster".as_slice()
}

/// Whether a word says how several gatekeepers are asked: that has no effect here.
pub fn is_hunt_word(word: &[u8]) -> bool
    ensures { result ≡ is_one_of hunt_words word.now }
{
    word == b"seq".as_slice() || word == b"blast".as_slice()
}
