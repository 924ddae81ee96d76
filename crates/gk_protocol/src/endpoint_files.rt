//! Files of endpoints: those that are registered when a trial begins.

ghost use Rattle.std.specs.Prelude.{◌≡◌, IsSome};
ghost use Rattle.gk_terms.specs.Text.{lines_of, words_of};
ghost use Rattle.gk_protocol.specs.Registrations.{registration_at, registering_at, registering_by_word, registering_of};
ghost use Rattle.gk_protocol.specs.EndpointFiles as Spec;

use crate::registrations::{NoRequest, registration};
use compiler::Tables;
use gk_terms::limits::{MOST_ENDPOINTS, MOST_LINE_BYTES};
use gk_terms::text_lines::{RawLines, content};
use gk_terms::words::Words;
use registry::{Endpoint, Registry, RegistryFault};
use std::alloc::Global;
use thiserror::Error;

/// What is wrong with a file of endpoints.
#[derive(Clone, Copy, Debug, PartialEq, Eq, Error)]
pub enum EndpointsFaultKind {
    /// The line is not a registration request, or it is longer than 512 bytes.
    #[error("BadLine")]
    BadLine,
    /// The ID of the line is registered from another address, or an alias of it is another
    /// endpoint's.
    #[error("DuplicateAlias")]
    DuplicateAlias,
    /// The line registers the 10,001st endpoint.
    #[error("TooMany")]
    TooMany,
    /// Memory ran out.
    #[error("NoMemory")]
    NoMemory,
}

/// The first fault of a file of endpoints.
#[derive(Clone, Copy, Debug, PartialEq, Eq, Error)]
#[error("line {line}: {kind}")]
pub struct EndpointsFault {
    /// The number of the line, from 1. Each line after the 4,294,967,295th has that number.
    pub line: u32,
    /// What is wrong with it.
    pub kind: EndpointsFaultKind,
}

/// Reads a file of endpoints: lines `RRQ`, as a session takes them, which register in order under
/// these tables. Zone `-` is the first local zone. A blank line is passed over, and so are a line
/// whose first word begins with `!` and an endpoint whose zone is not local there.
///
/// A line of more than 512 bytes is `BadLine`, whatever it says, and so is one that is not a
/// well-formed `RRQ`. `DuplicateAlias` comes before `TooMany`. `NoMemory` is answered only after
/// lines without a fault, at a line that registers an endpoint and has no fault, or at one whose
/// first option could be read.
pub fn read_endpoints(
    alloc: Global,
    text: &[u8],
    tables: &Tables,
) -> Result<Registry, EndpointsFault>
    ensures { Spec.ReadsEndpoints tables.now.commands (lines_of text.now) result }
{
    let mut registry = Registry::new(alloc, MOST_ENDPOINTS);
    let mut line = 0u32;
    for raw in RawLines::of(text) {
        line = line.saturating_add(1);
        add_at_line(alloc, line, content(raw), tables, &mut registry)?;
    }
    Ok(registry)
}

/// Does what `add_line` does, and gives its fault with the number of the line.
fn add_at_line(
    alloc: Global,
    number: u32,
    line: &[u8],
    tables: &Tables,
    registry: &mut Registry,
) -> Result<(), EndpointsFault>
    ensures { Spec.AddsAtLine number
        (Spec.MayLackMemory tables.now.commands registry.old line.now)
        (Spec.line_added tables.now.commands registry.old line.now) registry.new result }
{
    match add_line(alloc, line, tables, registry) {
        Ok(()) => Ok(()),
        Err(kind) => Err(EndpointsFault { line: number, kind }),
    }
}

/// Registers the endpoint of a line, unless the line or the endpoint is passed over. After an `Err`
/// nothing is promised of the registry.
fn add_line(
    alloc: Global,
    line: &[u8],
    tables: &Tables,
    registry: &mut Registry,
) -> Result<(), EndpointsFaultKind>
    ensures { Spec.AddsUnlessMemory (Spec.MayLackMemory tables.now.commands registry.old line.now)
        (Spec.line_added tables.now.commands registry.old line.now) registry.new result }
{
    match endpoint_in(alloc, line)? {
        Some(endpoint) => add_endpoint(registry, endpoint, tables),
        None => Ok(()),
    }
}

#[tactic(auto, unfolding(crate::specs::EndpointFiles::endpoint_in, crate::specs::Registrations::registering_of))]
/// The endpoint that a line registers; nothing if the line is passed over.
fn endpoint_in(alloc: Global, line: &[u8]) -> Result<Option<Endpoint>, EndpointsFaultKind>
    ensures { Spec.GivesUnlessMemory (IsSome (registering_of line.now)) (Spec.endpoint_in line.now)
        result }
{
    if line.len() > MOST_LINE_BYTES {
        return Err(EndpointsFaultKind::BadLine);
    }
    endpoint_in_words(alloc, &mut Words::of(line))
}

/// The same, by the words of the line.
fn endpoint_in_words(
    alloc: Global,
    words: &mut Words<'_>,
) -> Result<Option<Endpoint>, EndpointsFaultKind>
    ensures { Spec.GivesUnlessMemory (IsSome (registering_by_word (words_of words.old)))
        (Spec.endpoint_in_words (words_of words.old)) result }
{
    match words.next() {
        None => Ok(None),
        Some([b'!', ..]) => Ok(None),
        Some(word) if word == b"RRQ".as_slice() => endpoint_at(alloc, words),
        Some(_) => Err(EndpointsFaultKind::BadLine),
    }
}

/// The same, by the words after `RRQ`.
fn endpoint_at(alloc: Global, words: &mut Words<'_>) -> Result<Option<Endpoint>, EndpointsFaultKind>
    ensures { Spec.GivesUnlessMemory (IsSome (registering_at (words_of words.old)))
        (Spec.endpoint_read (registration_at (words_of words.old))) result }
{
    match registration(alloc, words) {
        Ok((_, endpoint)) => Ok(Some(endpoint)),
        Err(none) => Err(kind_of(none)),
    }
}

/// Why the words after `RRQ` register no endpoint.
fn kind_of(none: NoRequest) -> EndpointsFaultKind
    ensures { result ≡ Spec.kind_without_request none }
{
    match none {
        NoRequest::Fault(_) => EndpointsFaultKind::BadLine,
        NoRequest::NoMemory { .. } => EndpointsFaultKind::NoMemory,
    }
}

/// Registers an endpoint, or passes it over if its zone is not local.
fn add_endpoint(
    registry: &mut Registry,
    endpoint: Endpoint,
    tables: &Tables,
) -> Result<(), EndpointsFaultKind>
    ensures { Spec.AddsUnlessMemory
        (Spec.MayRegister tables.now.commands registry.old endpoint)
        (Spec.endpoint_added tables.now.commands registry.old endpoint) registry.new result }
{
    match registry.register(endpoint, tables) {
        Ok(()) => Ok(()),
        Err(fault) => passed_unless(fault),
    }
}

/// Whether a refused registration is passed over, or what it is to a file.
fn passed_unless(fault: RegistryFault) -> Result<(), EndpointsFaultKind>
    ensures { Spec.PassesUnless (Spec.kind_of_refusal fault) result }
{
    match fault {
        RegistryFault::UnknownZone => Ok(()),
        RegistryFault::DuplicateAlias(_) => Err(EndpointsFaultKind::DuplicateAlias),
        RegistryFault::TooMany => Err(EndpointsFaultKind::TooMany),
        RegistryFault::NoMemory => Err(EndpointsFaultKind::NoMemory),
        RegistryFault::NotRegistered => Ok(()),
    }
}
