//! How the lists of an endpoint are read from its texts.

ghost use Rattle.std.specs.Prelude.{◌≡◌, ◌<◌, ◌≤◌, ◌++◌, ◌∷◌, [], true, false, bytes_eq, length, OnOk};
ghost use Rattle.std.specs.List.{IsDistinct, list_all};
ghost use Rattle.gk_terms.specs.Dialled.{IsDialled, is_dialled};
ghost use Rattle.gk_terms.specs.TechPrefix.{IsTechPrefix, is_tech_prefix};
ghost use Rattle.gk_terms.specs.declared.limits.TheConstants.{MOST_ALIASES, MOST_TECHNOLOGIES};
ghost use Rattle.registry.specs.Endpoint.{has_alias, has_technology};
ghost use Rattle.entry_bytes.specs.EndpointTexts as Spec;

use crate::endpoint_texts::cut_text;
use gk_terms::{Dialled, TechPrefix};
use registry::{Endpoint, RegistryFault};
use std::alloc::AllocError;

/// Gives the aliases at the beginning of the bytes, which come after their count, to an endpoint
/// that has none. `AllocError` comes only if memory runs out.
pub(crate) fn give_aliases(endpoint: &mut Endpoint, bytes: &[u8]) -> Result<(), AllocError>
    requires none { endpoint.old.aliases ≡ [] }
    requires right { list_all is_dialled (Spec.counted_texts bytes.now) ≡ true }
    requires few { length (Spec.counted_texts bytes.now) ≤ MOST_ALIASES }
    requires different { IsDistinct bytes_eq (Spec.counted_texts bytes.now) }
    ensures { OnOk result (endpoint.new
        ≡ record endpoint.old { aliases = Spec.counted_texts bytes.now }) }
{
    match bytes {
        [count, rest @ ..] => give_first_aliases(endpoint, *count, rest),
        [] => Ok(()),
    }
}

/// Gives the technology prefixes at the beginning of the bytes, which come after their count, to
/// an endpoint that has none. `AllocError` comes only if memory runs out.
pub(crate) fn give_technologies(endpoint: &mut Endpoint, bytes: &[u8]) -> Result<(), AllocError>
    requires none { endpoint.old.technologies ≡ [] }
    requires right { list_all is_tech_prefix (Spec.counted_texts bytes.now) ≡ true }
    requires few { length (Spec.counted_texts bytes.now) ≤ MOST_TECHNOLOGIES }
    requires different { IsDistinct bytes_eq (Spec.counted_texts bytes.now) }
    ensures { OnOk result (endpoint.new
        ≡ record endpoint.old { technologies = Spec.counted_texts bytes.now }) }
{
    match bytes {
        [count, rest @ ..] => give_first_technologies(endpoint, *count, rest),
        [] => Ok(()),
    }
}

/// Gives so many aliases.
fn give_first_aliases(endpoint: &mut Endpoint, count: u8, bytes: &[u8]) -> Result<(), AllocError>
    requires none { endpoint.old.aliases ≡ [] }
    requires right { list_all is_dialled (Spec.first_texts count bytes.now) ≡ true }
    requires few { length (Spec.first_texts count bytes.now) ≤ MOST_ALIASES }
    requires different { IsDistinct bytes_eq (Spec.first_texts count bytes.now) }
    ensures { OnOk result (endpoint.new
        ≡ record endpoint.old { aliases = Spec.first_texts count bytes.now }) }
{
    let mut rest = bytes;
    for _place in 0..count {
        let (alias, others) = cut_text(rest);
        give_alias(endpoint, dialled(alias))?;
        rest = others;
    }
    Ok(())
}

/// Gives so many technology prefixes.
fn give_first_technologies(
    endpoint: &mut Endpoint,
    count: u8,
    bytes: &[u8],
) -> Result<(), AllocError>
    requires none { endpoint.old.technologies ≡ [] }
    requires right { list_all is_tech_prefix (Spec.first_texts count bytes.now) ≡ true }
    requires few { length (Spec.first_texts count bytes.now) ≤ MOST_TECHNOLOGIES }
    requires different { IsDistinct bytes_eq (Spec.first_texts count bytes.now) }
    ensures { OnOk result (endpoint.new
        ≡ record endpoint.old { technologies = Spec.first_texts count bytes.now }) }
{
    let mut rest = bytes;
    for _place in 0..count {
        let (prefix, others) = cut_text(rest);
        give_technology(endpoint, tech_prefix(prefix))?;
        rest = others;
    }
    Ok(())
}

#[tactic(auto, using(crate::proofs::GivenLemmas::alias_given))]
/// Gives an alias that the endpoint has not, and for which there is room.
fn give_alias(endpoint: &mut Endpoint, alias: Dialled) -> Result<(), AllocError>
    requires free { has_alias endpoint.old alias ≡ false }
    requires room { length endpoint.old.aliases < MOST_ALIASES }
    ensures { OnOk result (endpoint.new
        ≡ record endpoint.old { aliases = endpoint.old.aliases ++ alias ∷ [] }) }
{
    match endpoint.add_alias(alias) {
        Ok(()) => Ok(()),
        Err(RegistryFault::NoMemory) => Err(AllocError),
        Err(_) => unreachable!(),
    }
}

#[tactic(auto, using(crate::proofs::GivenLemmas::technology_given))]
/// Gives a technology prefix that the endpoint has not, and for which there is room.
fn give_technology(endpoint: &mut Endpoint, prefix: TechPrefix) -> Result<(), AllocError>
    requires free { has_technology endpoint.old prefix ≡ false }
    requires room { length endpoint.old.technologies < MOST_TECHNOLOGIES }
    ensures { OnOk result (endpoint.new
        ≡ record endpoint.old { technologies = endpoint.old.technologies ++ prefix ∷ [] }) }
{
    match endpoint.add_technology(prefix) {
        Ok(()) => Ok(()),
        Err(RegistryFault::NoMemory) => Err(AllocError),
        Err(_) => unreachable!(),
    }
}

/// The dialled digits that the text is.
fn dialled(text: &[u8]) -> Dialled
    requires { IsDialled text.now }
    ensures { result ≡ text.now }
{
    match Dialled::read(text) {
        Ok(digits) => digits,
        Err(_) => unreachable!(),
    }
}

/// The technology prefix that the text is.
fn tech_prefix(text: &[u8]) -> TechPrefix
    requires { IsTechPrefix text.now }
    ensures { result ≡ text.now }
{
    match TechPrefix::read(text) {
        Ok(prefix) => prefix,
        Err(_) => unreachable!(),
    }
}
