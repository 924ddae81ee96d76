//! What the lines of an explanation say after their names.

ghost use Rattle.std.specs.Prelude.{◌≡◌, ◌++◌, IfOk, OnOk, codes, drop};
ghost use Rattle.std.specs.List.{list_any};
ghost use Rattle.compiler.specs.Plan.{is_reject, rejects_unknown};
ghost use Rattle.explanation.specs.Lists.{commands_that, declares, names_text};
ghost use Rattle.explanation.specs.Telling as Spec;

use crate::lists;
use crate::steps::{Explanation, Reached};
use crate::text::Text;
use gk_commands::Command;
use gk_terms::{Name, TechPrefix};
use rulings::Route;
use std::alloc::{AllocError, Global};

impl Text {
    /// Adds words, if the endpoints are not known.
    fn add_or_learned(&mut self, known: bool, words: &[u8]) -> Result<(), AllocError>
        ensures { OnOk result (self.new ≡ self.old ++ Spec.or_learned known words.now) }
    {
        if known { Ok(()) } else { self.add(words) }
    }

    /// Adds that an endpoint is looked for, if the zone is a local one, before what comes of it if
    /// there is none.
    fn add_endpoint_asked(&mut self, reached: &Reached) -> Result<(), AllocError>
        ensures { OnOk result (self.new ≡ self.old ++ Spec.endpoint_asked reached.now) }
    {
        match reached {
            Reached::Nowhere | Reached::Remote(_) => Ok(()),
            Reached::Local(zone) => self.add_endpoint_of(zone),
        }
    }

    /// Adds that an endpoint of this zone is looked for.
    fn add_endpoint_of(&mut self, zone: &Name) -> Result<(), AllocError>
        ensures { OnOk result (self.new
            ≡ self.old ++ codes "an endpoint of " ++ zone.now ++ codes ", else ") }
    {
        self.add(b"an endpoint of ")?;
        self.add(zone.as_bytes())?;
        self.add(b", else ")
    }
}

/// What is said of the technology prefix.
pub fn technology_value(
    alloc: Global,
    commands: &[Command],
    said: &Explanation,
) -> Result<Text, AllocError>
    ensures { IfOk result (λ value. value ≡ Spec.technology_value commands.now said.now.known
        said.now.givers.items said.now.technology) }
{
    let mut value = Text::new(alloc);
    match &said.technology {
        None => {
            value.add(b"none")?;
            value.add_or_learned(said.known, b" declared (a gateway may give one)")?;
            Ok(value)
        }
        Some(prefix) => {
            value.add(prefix.as_bytes())?;
            let source = source(alloc, commands, said.givers.as_slice(), prefix)?;
            value.add(source.as_bytes())?;
            value.add_or_learned(said.known, b" (a gateway may give a longer one)")?;
            Ok(value)
        }
    }
}

/// From where a technology prefix is known.
fn source(
    alloc: Global,
    commands: &[Command],
    givers: &[Name],
    prefix: &TechPrefix,
) -> Result<Text, AllocError>
    ensures { IfOk result (λ source. source
        ≡ Spec.source_of commands.now givers.now prefix.now) }
{
    if is_declared(commands, prefix) {
        declared_by(alloc, commands, prefix)
    } else {
        learned_from(alloc, givers)
    }
}

/// Which commands declare a technology prefix.
fn declared_by(alloc: Global, commands: &[Command], prefix: &TechPrefix) -> Result<Text, AllocError>
    ensures { IfOk result (λ text. text
        ≡ codes ", declared by " ++ commands_that (declares prefix.now) commands.now) }
{
    let lines = lists::declaring(alloc, commands, prefix)?;
    let mut text = text_of(alloc, b", declared by ")?;
    text.add(lines.as_bytes())?;
    Ok(text)
}

/// From which gateways a technology prefix is learned.
fn learned_from(alloc: Global, givers: &[Name]) -> Result<Text, AllocError>
    ensures { IfOk result (λ text. text
        ≡ codes ", learned from " ++ names_text givers.now) }
{
    let names = lists::names(alloc, givers)?;
    let mut text = text_of(alloc, b", learned from ")?;
    text.add(names.as_bytes())?;
    Ok(text)
}

/// Bytes, as a text.
fn text_of(alloc: Global, bytes: &[u8]) -> Result<Text, AllocError>
    ensures { IfOk result (λ text. text ≡ bytes.now) }
{
    let mut text = Text::new(alloc);
    text.add(bytes)?;
    Ok(text)
}

/// Which endpoints of a zone are looked for, by what.
fn looked_for(
    alloc: Global,
    who: &[u8],
    zone: &[u8],
    by: &[u8],
    what: &[u8],
    end: &[u8],
) -> Result<Text, AllocError>
    ensures { IfOk result (λ text. text ≡ who.now ++ zone.now ++ by.now ++ what.now ++ end.now) }
{
    let mut text = Text::new(alloc);
    text.add(who)?;
    text.add(zone)?;
    text.add(by)?;
    text.add(what)?;
    text.add(end)?;
    Ok(text)
}

/// That no endpoint has the digits as an alias; or, if none is known, which one is looked for.
pub fn no_alias_value(alloc: Global, said: &Explanation) -> Result<Text, AllocError>
    ensures { IfOk result (λ value. value ≡ Spec.no_alias_value said.now) }
{
    if said.known {
        text_of(alloc, b"no endpoint")
    } else {
        looked_for(
            alloc,
            b"not known, an endpoint of ",
            name_of(&said.reached),
            b" with the alias ",
            said.digits.as_bytes(),
            b" is looked for",
        )
    }
}

/// The gateways among which one is chosen; or, if no endpoint is known, which ones are looked for.
pub fn gateways_value(
    alloc: Global,
    said: &Explanation,
    prefix: &TechPrefix,
) -> Result<Text, AllocError>
    ensures { IfOk result (λ value. value ≡ Spec.gateways_value said.now prefix.now) }
{
    if said.known {
        lists::candidates(alloc, said.gateways.as_slice())?.or_none()
    } else {
        looked_for(
            alloc,
            b"not known, those of ",
            name_of(&said.reached),
            b" with the technology prefix ",
            prefix.as_bytes(),
            b" are looked for",
        )
    }
}

/// The route; or, if no endpoint is known, what it is by the configuration alone.
pub fn route_value(alloc: Global, said: &Explanation) -> Result<Text, AllocError>
    ensures { IfOk result (λ value. value ≡ Spec.route_value said.now) }
{
    let shown = format!(in alloc; "{}", said.route)?;
    if said.known {
        text_of(alloc, shown.as_bytes())
    } else {
        route_alone(alloc, &said.reached, shown.as_bytes())
    }
}

/// What a route is by the configuration alone.
fn route_alone(alloc: Global, reached: &Reached, route: &[u8]) -> Result<Text, AllocError>
    ensures { IfOk result (λ value. value ≡ codes "by the configuration alone, "
        ++ Spec.endpoint_asked reached.now ++ route.now) }
{
    let mut value = text_of(alloc, b"by the configuration alone, ")?;
    value.add_endpoint_asked(reached)?;
    value.add(route)?;
    Ok(value)
}

/// Whether a command declares the prefix.
fn is_declared(commands: &[Command], prefix: &TechPrefix) -> bool
    ensures { result ≡ list_any (declares prefix.now) commands.now }
{
    commands.iter().any(|command| declares(command, prefix))
}

/// Whether a command declares the prefix.
fn declares(command: &Command, prefix: &TechPrefix) -> bool
    ensures { result ≡ declares prefix.now command.now }
{
    match command {
        Command::GwTypePrefix {
            prefix: declared,
            ..
        } => *declared == *prefix,
        _ => false,
    }
}

/// Whether digits that no pattern matches are rejected.
pub fn rejects_unknown(commands: &[Command]) -> bool
    ensures { result ≡ rejects_unknown commands.now }
{
    commands.iter().any(|command| is_reject(command))
}

/// Whether a command is `arq reject-unknown-prefix`.
fn is_reject(command: &Command) -> bool
    ensures { result ≡ is_reject command.now }
{
    matches!(command, Command::RejectUnknownPrefix)
}

/// What is said if no pattern matches.
pub fn unmatched_value(rejects: bool) -> &'static [u8]
    ensures { result.now ≡ Spec.unmatched_value rejects }
{
    if rejects {
        b"none, rejected by arq reject-unknown-prefix"
    } else {
        b"none, so the zone is the caller's"
    }
}

/// The characters from a place on; none if there are fewer.
pub fn after(digits: &[u8], place: usize) -> &[u8]
    ensures { result.now ≡ drop place digits.now }
{
    if place <= digits.len() {
        &digits[place..]
    } else {
        &[]
    }
}

/// The name of the target zone; empty if there is none.
pub fn name_of(reached: &Reached) -> &[u8]
    ensures { result.now ≡ Spec.name_of reached.now }
{
    match reached {
        Reached::Nowhere => b"",
        Reached::Remote(zone) | Reached::Local(zone) => zone.as_bytes(),
    }
}

/// Whether it is for an endpoint that is not known to decide, by the configuration alone.
pub fn is_open(known: bool, reached: &Reached) -> bool
    ensures { result ≡ Spec.is_open known reached.now }
{
    match reached {
        Reached::Nowhere | Reached::Remote(_) => false,
        Reached::Local(_) => !known,
    }
}

/// Whether there is a destination, or an endpoint that is not known may be one.
pub fn may_be_held(is_open: bool, route: &Route) -> bool
    ensures { result ≡ Spec.may_be_held is_open route.now }
{
    match route {
        Route::To(_) => true,
        Route::Refused(_) => is_open,
    }
}
