//! What a line that begins with `bandwidth` says.

ghost use Rattle.std.specs.Prelude.{◌≡◌, Ok};
ghost use Rattle.gk_terms.specs.Text.{words_of};
ghost use Rattle.gk_commands.specs.BandwidthLine.{most_of, default_limit_at, zone_limit_at, limit_at, remote_limit_at, bandwidth_at};
ghost use Rattle.command_reader.specs.Memory.{UnlessMemory, DeclaresNone};

use crate::fields::{kept_name, size_field};
use gk_commands::numbers::{MOST_KBPS, MOST_SESSION_KBPS};
use gk_commands::{Command, FaultKind, LimitKind};
use gk_terms::fields::{name_field, nothing_more};
use gk_terms::words::Words;
use gk_terms::{Kbps, Name};
use std::alloc::Global;

/// `bandwidth` and what follows it.
pub fn bandwidth(alloc: Global, words: &mut Words<'_>) -> Result<Command, FaultKind>
    ensures { UnlessMemory DeclaresNone (bandwidth_at (words_of words.old)) result }
{
    match words.next() {
        None => Err(FaultKind::Missing),
        Some(word) if word == b"total".as_slice() => limit(alloc, LimitKind::Total, words),
        Some(word) if word == b"interzone".as_slice() => limit(alloc, LimitKind::Interzone, words),
        Some(word) if word == b"session".as_slice() => limit(alloc, LimitKind::Session, words),
        Some(word) if word == b"remote".as_slice() => remote_limit(words),
        Some(word) if word == b"check-destination".as_slice() => Err(FaultKind::Unsupported),
        Some(_) => Err(FaultKind::UnknownCommand),
    }
}

/// `default SIZE` or `zone NAME SIZE`.
fn limit(alloc: Global, kind: LimitKind, words: &mut Words<'_>) -> Result<Command, FaultKind>
    ensures { UnlessMemory DeclaresNone (limit_at kind (words_of words.old)) result }
{
    match words.next() {
        None => Err(FaultKind::Missing),
        Some(word) if word == b"default".as_slice() => default_limit(kind, words),
        Some(word) if word == b"zone".as_slice() => zone_limit(alloc, kind, words),
        Some(_) => Err(FaultKind::UnknownCommand),
    }
}

/// `SIZE`, the limit of each local zone that has none of its own.
fn default_limit(kind: LimitKind, words: &mut Words<'_>) -> Result<Command, FaultKind>
    ensures { result ≡ default_limit_at kind (words_of words.old) }
{
    let size = size_field(words, most_size(kind))?;
    nothing_more(Command::BandwidthDefault { kind, size }, words)
}

/// `NAME SIZE`, the limit of one zone.
fn zone_limit(alloc: Global, kind: LimitKind, words: &mut Words<'_>) -> Result<Command, FaultKind>
    ensures { UnlessMemory DeclaresNone (zone_limit_at kind (words_of words.old)) result }
{
    let zone = name_field(words, FaultKind::BadName)?;
    let size = size_field(words, most_size(kind))?;
    match words.next() {
        None => limit_of_zone(alloc, kind, &zone, size),
        Some(_) => Err(FaultKind::Extra),
    }
}

/// The limit of one zone, once its line was read to the end.
fn limit_of_zone(
    alloc: Global,
    kind: LimitKind,
    zone: &Name,
    size: Kbps,
) -> Result<Command, FaultKind>
    ensures { UnlessMemory DeclaresNone (Ok (Command.BandwidthZone kind zone.now size)) result }
{
    let zone = kept_name(alloc, zone)?;
    Ok(Command::BandwidthZone { kind, zone, size })
}

/// `SIZE`, the limit of all calls to and from other gatekeepers together.
fn remote_limit(words: &mut Words<'_>) -> Result<Command, FaultKind>
    ensures { result ≡ remote_limit_at (words_of words.old) }
{
    let size = size_field(words, MOST_KBPS)?;
    nothing_more(Command::BandwidthRemote { size }, words)
}

/// The greatest size of a limit of this kind, in kbit/s.
fn most_size(kind: LimitKind) -> u32
    ensures { result ≡ most_of kind }
{
    match kind {
        LimitKind::Session => MOST_SESSION_KBPS,
        LimitKind::Total | LimitKind::Interzone => MOST_KBPS,
    }
}
