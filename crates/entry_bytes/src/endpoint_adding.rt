//! How an endpoint is added to a vector of bytes, in room that it has. It takes no memory.

ghost use Rattle.std.specs.Prelude.{◌≡◌, ◌≤◌, ◌+◌, ◌*◌, ◌∷◌, true, length};
ghost use Rattle.std.specs.List.{list_all};
ghost use Rattle.gk_terms.specs.Dialled.{is_dialled};
ghost use Rattle.gk_terms.specs.TechPrefix.{is_tech_prefix};
ghost use Rattle.gk_terms.specs.declared.limits.TheConstants.{MOST_ALIASES, MOST_DIALLED, MOST_TECHNOLOGIES, MOST_TECHNOLOGY};
ghost use Rattle.entry_bytes.specs.EndpointTexts.{IsWhole, counted, texts_of};
ghost use Rattle.field_bytes.specs.Adding.{Adds, HasRoom};
ghost use Rattle.entry_bytes.specs.EndpointBytes.{endpoint_bytes};
ghost use Rattle.field_bytes.specs.Fields.{IsAddress};

use crate::codes::endpoint_kind_code;
use field_bytes::{add_address, add_byte, add_name, add_text, size_of_address, size_of_name};
use gk_terms::{Dialled, TechPrefix};
use registry::Endpoint;

/// How many bytes an endpoint takes.
pub fn size_of_endpoint(endpoint: &Endpoint) -> usize
    ensures value { result ≡ length (endpoint_bytes endpoint.now) }
    ensures most { result ≤ 891 }
{
    1 + size_of_address(endpoint.address())
        + size_of_name(endpoint.id())
        + size_of_name(endpoint.zone())
        + size_of_aliases(endpoint.aliases())
        + size_of_technologies(endpoint.technologies())
}

/// How many bytes aliases take.
fn size_of_aliases(aliases: &[Dialled]) -> usize
    requires { length aliases.now ≤ MOST_ALIASES }
    ensures value { result ≡ length (counted aliases.now) }
    ensures short { result ≤ 1 + length aliases.now * (1 + MOST_DIALLED) }
{
    let mut size = 1;
    for alias in aliases {
        size += 1 + alias.as_bytes().len();
    }
    size
}

/// How many bytes technology prefixes take.
fn size_of_technologies(prefixes: &[TechPrefix]) -> usize
    requires { length prefixes.now ≤ MOST_TECHNOLOGIES }
    ensures value { result ≡ length (counted prefixes.now) }
    ensures short { result ≤ 1 + length prefixes.now * (1 + MOST_TECHNOLOGY) }
{
    let mut size = 1;
    for prefix in prefixes {
        size += 1 + prefix.as_bytes().len();
    }
    size
}

/// Adds an endpoint: its kind, its address, and then its texts, each after its length, and each
/// list after its count.
pub fn add_endpoint(bytes: &mut Vec<u8>, endpoint: &Endpoint)
    requires { HasRoom bytes.old (endpoint_bytes endpoint.now) }
    ensures added { Adds bytes.old (endpoint_bytes endpoint.now) bytes.new }
    ensures address { IsAddress endpoint.now.address }
    ensures whole { IsWhole endpoint.now }
{
    add_byte(bytes, endpoint_kind_code(endpoint.kind()));
    add_address(bytes, endpoint.address());
    add_texts(bytes, endpoint);
}

/// Adds its texts.
fn add_texts(bytes: &mut Vec<u8>, endpoint: &Endpoint)
    requires { HasRoom bytes.old (texts_of endpoint.now) }
    ensures added { Adds bytes.old (texts_of endpoint.now) bytes.new }
    ensures whole { IsWhole endpoint.now }
{
    add_name(bytes, endpoint.id());
    add_name(bytes, endpoint.zone());
    add_aliases(bytes, endpoint.aliases());
    add_technologies(bytes, endpoint.technologies());
}

/// Adds aliases after their count.
fn add_aliases(bytes: &mut Vec<u8>, aliases: &[Dialled])
    requires few { length aliases.now ≤ MOST_ALIASES }
    requires room { HasRoom bytes.old (counted aliases.now) }
    ensures added { Adds bytes.old (counted aliases.now) bytes.new }
    ensures dialled { list_all is_dialled aliases.now ≡ true }
{
    add_byte(bytes, aliases.len() as u8);
    for alias in aliases {
        add_text(bytes, alias.as_bytes());
    }
}

/// Adds technology prefixes after their count.
fn add_technologies(bytes: &mut Vec<u8>, prefixes: &[TechPrefix])
    requires few { length prefixes.now ≤ MOST_TECHNOLOGIES }
    requires room { HasRoom bytes.old (counted prefixes.now) }
    ensures added { Adds bytes.old (counted prefixes.now) bytes.new }
    ensures prefixes { list_all is_tech_prefix prefixes.now ≡ true }
{
    add_byte(bytes, prefixes.len() as u8);
    for prefix in prefixes {
        add_text(bytes, prefix.as_bytes());
    }
}
