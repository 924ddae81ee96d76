//! Commands as canonical lines.

ghost use Rattle.std.specs.Prelude.{◌≡◌, ◌≤◌, cond, [], ◌∷◌, ◌++◌, codes, decimal, flat_map, replicate};
ghost use Rattle.gk_terms.specs.declared.limits.TheConstants.{MOST_DIALLED};
ghost use Rattle.gk_terms.specs.Text.{line_text};
ghost use Rattle.digit_patterns.specs.Pattern.{pattern_text};
ghost use Rattle.gk_commands.specs.Accepted.{PrintsBack};
ghost use Rattle.gk_commands.specs.TechnologyLine.{is_option_word};
ghost use Rattle.gk_lines.specs.LineBuffer.{extended, with_words, line_of_words};
ghost use Rattle.gk_commands.specs.Printing.{command_words, local_words, port_words, remote_words, gateway_words, further_words, hopoff_words, default_words, limit_word};

use crate::zone_lines::is_hunt_word;
use digit_patterns::Pattern;
use gk_commands::{Command, GatewayPriority, LimitKind, LocalAddress, Names};
use gk_lines::LineBuffer;
use gk_terms::limits::MOST_DIALLED;
use gk_terms::{Address, Kbps, TechPrefix};
use short_texts::KeptName;

/// The dots of the pattern with the most dots.
static DOTS: [u8; MOST_DIALLED] = [b'.'; MOST_DIALLED];

/// Makes it the canonical line of a command, with its line feed.
pub fn make_line(line: &mut LineBuffer, command: &Command)
    requires { PrintsBack command.now }
    ensures { line.new ≡ line_text (command_words command.now) }
{
    make_words(line, command);
    line.push_byte(b'\n');
}

/// Makes it the line of the command's words.
fn make_words(line: &mut LineBuffer, command: &Command)
    ensures { line.new ≡ line_of_words (command_words command.now) }
{
    match command {
        Command::ZoneLocal {
            name,
            domain,
            address,
        } => zone_local(line, name, domain, address),
        Command::ZoneRemote {
            name,
            domain,
            address,
            cost,
            priority,
        } => zone_remote(line, name, domain, address, *cost, *priority),
        Command::ZonePrefix {
            zone,
            pattern,
            gateways,
        } => zone_prefix(line, zone, pattern, gateways),
        Command::GwTypePrefix {
            prefix,
            hopoffs,
            is_default,
        } => gw_type_prefix(line, prefix, hopoffs, *is_default),
        Command::RejectUnknownPrefix => reject_unknown_prefix(line),
        Command::BandwidthDefault { kind, size } => default_limit(line, *kind, *size),
        Command::BandwidthZone { kind, zone, size } => zone_limit(line, *kind, zone, *size),
        Command::BandwidthRemote { size } => remote_limit(line, *size),
    }
}

/// Makes it the line of a zone that is controlled here.
fn zone_local(
    line: &mut LineBuffer,
    name: &KeptName,
    domain: &KeptName,
    address: &Option<LocalAddress>,
)
    ensures { line.new ≡ line_of_words
        (codes "zone" ∷ codes "local" ∷ name.now ∷ domain.now ∷ local_words address.now) }
{
    line.begin(b"zone");
    line.word(b"local");
    add_two_names(line, name, domain);
    add_local_address(line, address);
}

/// Makes it the line of a zone of another gatekeeper.
fn zone_remote(
    line: &mut LineBuffer,
    name: &KeptName,
    domain: &KeptName,
    address: &Address,
    cost: u8,
    priority: u8,
)
    ensures { line.new ≡ line_of_words
        (codes "zone" ∷ codes "remote" ∷ name.now ∷ domain.now
        ∷ remote_words address.now cost priority) }
{
    line.begin(b"zone");
    line.word(b"remote");
    add_two_names(line, name, domain);
    add_remote(line, address, cost, priority);
}

/// Makes it the line of a zone's pattern.
fn zone_prefix(
    line: &mut LineBuffer,
    zone: &KeptName,
    pattern: &Pattern,
    gateways: &Option<GatewayPriority>,
)
    ensures { line.new ≡ line_of_words
        (codes "zone" ∷ codes "prefix" ∷ zone.now ∷ pattern_text pattern.now
        ∷ gateway_words gateways.now) }
{
    line.begin(b"zone");
    line.word(b"prefix");
    line.word(zone.as_bytes());
    add_pattern(line, pattern);
    add_gateways(line, gateways);
}

/// Makes it the line of a technology prefix.
fn gw_type_prefix(line: &mut LineBuffer, prefix: &TechPrefix, hopoffs: &Names, is_default: bool)
    ensures { line.new ≡ line_of_words
        (codes "gw-type-prefix" ∷ prefix.now
        ∷ hopoff_words hopoffs.now ++ default_words is_default) }
{
    line.begin(b"gw-type-prefix");
    line.word(prefix.as_bytes());
    add_technology(line, hopoffs.as_slice(), is_default);
}

/// Makes it the line by which an admission to digits that no zone prefix matches is refused.
fn reject_unknown_prefix(line: &mut LineBuffer)
    ensures { line.new ≡ line_of_words (codes "arq" ∷ codes "reject-unknown-prefix" ∷ []) }
{
    line.begin(b"arq");
    line.word(b"reject-unknown-prefix");
}

/// Makes it the line of the limit of each local zone that has none of its own.
fn default_limit(line: &mut LineBuffer, kind: LimitKind, size: Kbps)
    ensures { line.new ≡
        line_of_words (codes "bandwidth" ∷ limit_word kind ∷ codes "default" ∷ decimal size ∷ []) }
{
    line.begin(b"bandwidth");
    line.word(limit_word(kind));
    line.word(b"default");
    line.number(size.value());
}

/// Makes it the line of the limit of one zone.
fn zone_limit(line: &mut LineBuffer, kind: LimitKind, zone: &KeptName, size: Kbps)
    ensures { line.new ≡ line_of_words
        (codes "bandwidth" ∷ limit_word kind ∷ codes "zone" ∷ zone.now ∷ decimal size ∷ []) }
{
    line.begin(b"bandwidth");
    line.word(limit_word(kind));
    line.word(b"zone");
    line.word(zone.as_bytes());
    line.number(size.value());
}

/// Makes it the line of the limit of all calls to and from other gatekeepers together.
fn remote_limit(line: &mut LineBuffer, size: Kbps)
    ensures { line.new ≡ line_of_words (codes "bandwidth" ∷ codes "remote" ∷ decimal size ∷ []) }
{
    line.begin(b"bandwidth");
    line.word(b"remote");
    line.number(size.value());
}

/// Adds the name and the domain of a zone.
fn add_two_names(line: &mut LineBuffer, name: &KeptName, domain: &KeptName)
    ensures { line.new ≡ with_words line.old (name.now ∷ domain.now ∷ []) }
{
    line.word(name.as_bytes());
    line.word(domain.as_bytes());
}

/// Adds the address of a local zone, if one was given.
fn add_local_address(line: &mut LineBuffer, address: &Option<LocalAddress>)
    ensures { line.new ≡ with_words line.old (local_words address.now) }
{
    match address {
        None => {}
        Some(address) => {
            let ip = address.ip;
            line.ip(ip);
            add_port(line, address.port);
        }
    }
}

/// Adds the port of a local zone, if one was given.
fn add_port(line: &mut LineBuffer, port: Option<u16>)
    ensures { line.new ≡ with_words line.old (port_words port) }
{
    match port {
        None => {}
        Some(port) => line.number(u32::from(port)),
    }
}

/// Adds the address, the cost and the priority of a remote zone.
fn add_remote(line: &mut LineBuffer, address: &Address, cost: u8, priority: u8)
    ensures { line.new ≡ with_words line.old (remote_words address.now cost priority) }
{
    line.ip(address.ip());
    line.number(u32::from(address.port()));
    line.word(b"cost");
    line.number(u32::from(cost));
    line.word(b"priority");
    line.number(u32::from(priority));
}

/// Adds gateways with their priority, if they were given.
fn add_gateways(line: &mut LineBuffer, gateways: &Option<GatewayPriority>)
    ensures { line.new ≡ with_words line.old (gateway_words gateways.now) }
{
    match gateways {
        None => {}
        Some(GatewayPriority { priority, gateways }) => {
            line.word(b"gw-priority");
            line.number(u32::from(*priority));
            line.names(gateways.as_slice());
        }
    }
}

/// Adds what is said of a technology prefix.
fn add_technology(line: &mut LineBuffer, hopoffs: &[KeptName], is_default: bool)
    ensures { line.new ≡
        with_words line.old (hopoff_words hopoffs.now ++ default_words is_default) }
{
    add_hopoffs(line, hopoffs);
    add_default_technology(line, is_default);
}

/// Adds the names of all hopoffs, if there are some.
fn add_hopoffs(line: &mut LineBuffer, names: &[KeptName])
    ensures { line.new ≡ with_words line.old (hopoff_words names.now) }
{
    match names {
        [] => {}
        [first, others @ ..] => {
            line.word(b"hopoff");
            line.word(first.as_bytes());
            add_further_hopoffs(line, others);
        }
    }
}

/// Adds further names of a hopoff.
fn add_further_hopoffs(line: &mut LineBuffer, names: &[KeptName])
    ensures { line.new ≡ with_words line.old (flat_map further_words names.now) }
{
    for name in names {
        add_further_hopoff(line, name);
    }
}

/// Adds a further name of a hopoff. One that would be read as an option comes after the word
/// `hopoff` again.
fn add_further_hopoff(line: &mut LineBuffer, name: &KeptName)
    ensures { line.new ≡ with_words line.old (further_words name.now) }
{
    if is_option_word(name.as_bytes()) {
        line.word(b"hopoff");
    }
    line.word(name.as_bytes());
}

/// Adds the word for the default technology, if it is one.
fn add_default_technology(line: &mut LineBuffer, is_default: bool)
    ensures { line.new ≡ with_words line.old (default_words is_default) }
{
    if is_default {
        line.word(b"default-technology");
    }
}

/// Adds a pattern as a word.
fn add_pattern(line: &mut LineBuffer, pattern: &Pattern)
    ensures { line.new ≡ extended line.old (32 ∷ pattern_text pattern.now) }
{
    line.word(pattern.literals());
    line.push(dots(pattern.dots()));
    line.push(star(pattern.has_star()));
}

/// So many dots, up to 32.
fn dots(count: u8) -> &'static [u8]
    requires { count ≤ MOST_DIALLED }
    ensures { result.now ≡ replicate count 46 }
{
    &DOTS[..count as usize]
}

/// A star, or nothing.
fn star(has_star: bool) -> &'static [u8]
    ensures { result.now ≡ cond has_star (42 ∷ []) [] }
{
    if has_star { b"*" } else { b"" }
}

/// Whether the word would be read as an option after the name of a hopoff.
fn is_option_word(word: &[u8]) -> bool
    ensures { result ≡ is_option_word word.now }
{
    word == b"hopoff".as_slice()
        || is_hunt_word(word)
        || word == b"default-technology".as_slice()
        || word == b"gw".as_slice()
}

/// The word of a limit's kind.
fn limit_word(kind: LimitKind) -> &'static [u8]
    ensures { result.now ≡ limit_word kind }
{
    match kind {
        LimitKind::Session => b"session",
        LimitKind::Total => b"total",
        LimitKind::Interzone => b"interzone",
    }
}
