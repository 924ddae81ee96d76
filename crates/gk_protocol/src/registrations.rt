//! Requests about registrations: `RRQ`, with its options, and `URQ`.

ghost use Rattle.std.specs.Prelude.{◌≡◌, None, Ok, MatchResult, OnErr, option_map};
ghost use Rattle.gk_terms.specs.Dialled.{dialled_of};
ghost use Rattle.gk_terms.specs.TechPrefix.{tech_prefix_of};
ghost use Rattle.gk_terms.specs.Outcome.{ChangesUnlessMemory};
ghost use Rattle.gk_terms.specs.Text.{words_of};
ghost use Rattle.gk_protocol.specs.RequestFields.{Reads};
ghost use Rattle.gk_protocol.specs.Hearing.{HearsRequest, LacksOptions};
ghost use Rattle.gk_protocol.specs.Requests.{unregister_at};
ghost use Rattle.gk_protocol.specs.Registrations as Spec;
ghost use Rattle.gk_protocol.specs.RegistrationOptions.{IsBare, HasRoomFor, with_registration_option, HasFrontOf, AreNoOptionsAt, IsNoRegistrationAt};

use crate::answerer::Answerer;
use crate::answers::Answer;
use crate::reply_lines::ReplyLine;
use crate::request_faults::RequestFault;
use crate::request_fields::{SIGNALLING_PORT, kind_field, nothing_after, sequence_field};
use crate::request_lines::Heard;
use crate::requests::Request;
use admission::{RegisterRefusal, Reply};
use gk_terms::fields::{address_field, name_field};
use gk_terms::limits::{MOST_ALIASES, MOST_TECHNOLOGIES};
use gk_terms::words::Words;
use gk_terms::{Dialled, Name, TechPrefix};
use registry::{Endpoint, RegistryFault};
use std::alloc::Global;

/// An option of a registration.
#[derive(Clone, Copy)]
pub(crate) enum RegistrationOption {
    /// `e164=D`: an E.164 alias.
    Alias(Dialled),
    /// `tech=P`: a technology prefix.
    Technology(TechPrefix),
}

/// How many options of each kind may still stand, counted as written.
#[derive(Clone, Copy)]
pub(crate) struct OptionsLeft {
    /// 0 to 16.
    pub aliases: usize,
    /// 0 to 8.
    pub technologies: usize,
}

/// Why a registration could not be read.
#[derive(Clone, Copy)]
pub(crate) enum NoRequest {
    /// The first fault of the line.
    Fault(RequestFault),
    /// Memory ran out. All fields up to and including the first option could be read; what stands
    /// after that may be wrong.
    NoMemory {
        /// The sequence number of the registration, 1 to 65535.
        sequence: u32,
        /// The ID that asked to be registered.
        id: Name,
    },
}

impl From<RequestFault> for NoRequest {
    ghost use Rattle.std.specs.Prelude.{◌≡◌};
    ghost use Rattle.gk_protocol.specs.declared.registrations.NoRequest.TheVariants.{Fault};

    ghost from_gives = { λ fault none. none ≡ Fault fault };

    fn from(fault: RequestFault) -> NoRequest {
        NoRequest::Fault(fault)
    }
}

/// Reads `RRQ seq KIND id zone addr [e164=D] [tech=P] ..`, after its first word: the sequence number
/// and the endpoint. If memory runs out for an option, what stands after it is not looked at.
pub(crate) fn registration(
    alloc: Global,
    words: &mut Words<'_>,
) -> Result<(u32, Endpoint), NoRequest>
    ensures { MatchResult result (λ read. Spec.registration_at (words_of words.old) ≡ Ok read)
        (IsNoRegistrationAt (words_of words.old)) }
{
    let sequence = sequence_field(words)?;
    let kind = kind_field(words)?;
    let id = name_field(words, RequestFault::BadName)?;
    let zone = name_field(words, RequestFault::BadName)?;
    let address = address_field(words, SIGNALLING_PORT, RequestFault::BadAddress)?;
    let mut endpoint = Endpoint::new(alloc, kind, id, zone, address);
    add_options(sequence, &mut endpoint, words)?;
    Ok((sequence, endpoint))
}

/// Answers `RRQ`, after its first word, or gives back its first fault.
pub(crate) fn register<A: Answerer>(
    alloc: Global,
    words: &mut Words<'_>,
    answerer: &mut A,
    reply: &mut ReplyLine,
) -> Result<Heard, RequestFault>
    ensures { HearsRequest A.may_answer answerer.old (Spec.register_at (words_of words.old))
        (Spec.no_memory_at (words_of words.old)) result reply.new.text answerer.new }
{
    match registration(alloc, words) {
        Ok((sequence, endpoint)) => {
            let request = Request::Register { sequence, endpoint };
            answerer.answer_into(alloc, request, reply);
            Ok(Heard::Answered)
        }
        Err(none) => lack_options(none, reply),
    }
}

/// Answers a registration that lacks the memory for its options, or gives back the first fault of
/// the line.
fn lack_options(none: NoRequest, reply: &mut ReplyLine) -> Result<Heard, RequestFault>
    ensures { LacksOptions none result reply.new.text }
{
    match none {
        NoRequest::Fault(fault) => Err(fault),
        NoRequest::NoMemory { sequence, id } => {
            reply.show(no_memory(sequence, id));
            Ok(Heard::Answered)
        }
    }
}

/// The answer to a registration for whose options memory ran out.
fn no_memory(sequence: u32, id: Name) -> Answer
    ensures { result ≡ Spec.no_memory_to (sequence, id) }
{
    let reason = RegisterRefusal::NoMemory;
    let reply = Reply::RegisterRefused { id, reason };
    Answer::Reply { sequence, reply }
}

/// Reads `URQ seq id`, after its first word: its fields, or its first fault.
fn unregistration(words: &mut Words<'_>) -> Result<(u32, Name), RequestFault>
    ensures { Reads (unregister_at (words_of words.old)) (λ u. Request.Unregister u.0 u.1) result }
{
    let sequence = sequence_field(words)?;
    let id = name_field(words, RequestFault::BadName)?;
    nothing_after((), words)?;
    Ok((sequence, id))
}

/// Answers `URQ`, after its first word, or gives back its first fault.
pub(crate) fn unregister<A: Answerer>(
    alloc: Global,
    words: &mut Words<'_>,
    answerer: &mut A,
    reply: &mut ReplyLine,
) -> Result<Heard, RequestFault>
    ensures { HearsRequest A.may_answer answerer.old (unregister_at (words_of words.old)) None
        result reply.new.text answerer.new }
{
    let (sequence, id) = unregistration(words)?;
    let request = Request::Unregister { sequence, id };
    answerer.answer_into(alloc, request, reply);
    Ok(Heard::Answered)
}

/// Adds the aliases and technology prefixes of the options of a registration with this sequence
/// number. After an `Err` the endpoint has those of the words before the one at which reading
/// stopped; its caller lets it go.
fn add_options(
    sequence: u32,
    endpoint: &mut Endpoint,
    words: &mut Words<'_>,
) -> Result<(), NoRequest>
    requires { IsBare endpoint.old }
    ensures read { MatchResult result
        (λ _. Spec.with_options_at endpoint.old (words_of words.old) ≡ Ok endpoint.new)
        (AreNoOptionsAt sequence endpoint.old (words_of words.old)) }
    ensures stopped { OnErr result
        (HasFrontOf endpoint.old (words_of words.old) endpoint.new) }
{
    let mut left = OptionsLeft {
        aliases: MOST_ALIASES,
        technologies: MOST_TECHNOLOGIES,
    };
    for word in words {
        let option = option_of(&left, word)?;
        add_option(endpoint, &option, sequence)?;
        left = left_after(&left, &option);
    }
    Ok(())
}

/// The option that a word is, if one more of its kind may stand.
fn option_of(left: &OptionsLeft, word: &[u8]) -> Result<RegistrationOption, RequestFault>
    ensures { result ≡ Spec.registration_option_of left.now word.now }
{
    if let Some(text) = word.strip_prefix(b"e164=") {
        return alias_option(left.aliases, text);
    }
    match word.strip_prefix(b"tech=") {
        Some(text) => technology_option(left.technologies, text),
        None => Err(RequestFault::BadOption),
    }
}

/// The alias after `e164=`, if one more may stand.
fn alias_option(left: usize, text: &[u8]) -> Result<RegistrationOption, RequestFault>
    ensures { result ≡ Spec.option_if_left left
        (option_map RegistrationOption.Alias (dialled_of text.now)) }
{
    if left == 0 {
        return Err(RequestFault::BadOption);
    }
    match Dialled::read(text) {
        Ok(digits) => Ok(RegistrationOption::Alias(digits)),
        Err(_) => Err(RequestFault::BadDigits),
    }
}

/// The technology prefix after `tech=`, if one more may stand. One star at its end is dropped.
fn technology_option(left: usize, text: &[u8]) -> Result<RegistrationOption, RequestFault>
    ensures { result ≡ Spec.option_if_left left
        (option_map RegistrationOption.Technology (tech_prefix_of text.now)) }
{
    if left == 0 {
        return Err(RequestFault::BadOption);
    }
    match TechPrefix::read(text) {
        Ok(prefix) => Ok(RegistrationOption::Technology(prefix)),
        Err(_) => Err(RequestFault::BadDigits),
    }
}

/// How many may stand after one more.
fn left_after(left: &OptionsLeft, option: &RegistrationOption) -> OptionsLeft
    ensures { result ≡ Spec.left_after left.now option.now }
{
    match option {
        RegistrationOption::Alias(_) => OptionsLeft {
            aliases: left.aliases.saturating_sub(1),
            technologies: left.technologies,
        },
        RegistrationOption::Technology(_) => OptionsLeft {
            aliases: left.aliases,
            technologies: left.technologies.saturating_sub(1),
        },
    }
}

/// Adds an option of a registration with this sequence number, or says that memory ran out, and
/// changes nothing. There is room for it, since options are counted as written.
fn add_option(
    endpoint: &mut Endpoint,
    option: &RegistrationOption,
    sequence: u32,
) -> Result<(), NoRequest>
    requires { HasRoomFor endpoint.old option.now }
    ensures { MatchResult result
        (λ _. endpoint.new ≡ with_registration_option endpoint.old option.now)
        (λ none. (none ≡ NoRequest.NoMemory sequence endpoint.old.id)
        × (endpoint.new ≡ endpoint.old)) }
{
    match add(endpoint, option) {
        Ok(()) => Ok(()),
        Err(RegistryFault::NoMemory) => Err(NoRequest::NoMemory {
            sequence,
            id: *endpoint.id(),
        }),
        Err(_) => unreachable!(),
    }
}

/// Adds an alias or a technology prefix, unless the endpoint has it.
fn add(endpoint: &mut Endpoint, option: &RegistrationOption) -> Result<(), RegistryFault>
    requires { HasRoomFor endpoint.old option.now }
    ensures { ChangesUnlessMemory RegistryFault.NoMemory endpoint.old endpoint.new
        (Ok (with_registration_option endpoint.old option.now)) result }
{
    match option {
        RegistrationOption::Alias(digits) => endpoint.add_alias(*digits),
        RegistrationOption::Technology(prefix) => endpoint.add_technology(*prefix),
    }
}
