//! IPv4 addresses with a port.

ghost use Rattle.std.specs.Prelude.{◌≡◌, ◌==◌, ◌<◌, ◌≤◌, [], ◌∷◌, Some, IfSome, MatchOption};
ghost use Rattle.std.specs.Option.{ok_or};
ghost use Rattle.std.specs.List.{slice_split, position_or_len};
ghost use Rattle.gk_terms.specs.Address.{AddressParts, octet_of, port_of, port_of_last, ip_of, address_of, address_text};

use crate::faults::TermFault;
use crate::numbers::read_number;
use std::fmt;
use std::marker::Model;

/// An IPv4 address with a port from 1 to 65535, as call signalling and RAS addresses are given.
#[derive(Clone, Copy, Debug, PartialEq, Eq, PartialOrd, Ord, Hash)]
pub struct Address {
    ip: [u8; 4],
    port: u16,
}

impl Model for Address {
    ghost use Rattle.std.specs.Prelude.{◌≡◌, ◌≤◌};
    ghost use Rattle.gk_terms.specs.Address.{AddressParts};

    ghost Value = { AddressParts };

    ghost view = { λ a. record { ip = a.ip; port = a.port } };

    ghost invariant = { λ a. 1 ≤ a.port };

    ghost inverse = { λ a. record { ip = a.ip; port = a.port } };
}

impl Address {
    /// Reads `IP` or `IP:PORT`, `IP` being four numbers from 0 to 255 with single dots between.
    /// Without a port it has the default one, from 1 to 65535. Any other text is `BadAddress`.
    /// Takes no memory.
    pub fn read(text: &[u8], default_port: u16) -> Result<Address, TermFault>
        requires { 1 ≤ default_port }
        ensures { result ≡ ok_or (address_of default_port text.now) TermFault.BadAddress }
    {
        address_in(text, default_port).ok_or(TermFault::BadAddress)
    }

    /// The address of this IP and port.
    pub fn new(ip: [u8; 4], port: u16) -> Address
        requires { 1 ≤ port }
        ensures ip { result.ip ≡ ip }
        ensures port { result.port ≡ port }
    {
        Address { ip, port }
    }

    /// The four octets of the IP address.
    pub fn ip(&self) -> [u8; 4]
        ensures { result ≡ self.now.ip }
    {
        self.ip
    }

    /// The port, from 1 to 65535.
    pub fn port(&self) -> u16
        ensures value { result ≡ self.now.port }
        ensures least { 1 ≤ result }
    {
        self.port
    }
}

#[tactic(auto, using(crate::proofs::PartsLemmas::address_with_port))]
/// The address that the text spells.
fn address_in(text: &[u8], default_port: u16) -> Option<Address>
    requires { 1 ≤ default_port }
    ensures { result ≡ address_of default_port text.now }
{
    let (ip, rest) = cut(text, b':');
    let port = match rest {
        None => default_port,
        Some(rest) => last_port(rest)?,
    };
    Some(Address::new(read_ip(ip)?, port))
}

#[tactic(auto, using(crate::proofs::PartsLemmas::no_port_before_part))]
/// The port that the text spells, if no further part follows it.
fn last_port(text: &[u8]) -> Option<u16>
    ensures value { result ≡ port_of_last (slice_split (λ b. b == 58) text.now) }
    ensures least { IfSome result (λ port. 1 ≤ port) }
{
    match cut(text, b':') {
        (port, None) => read_port(port),
        (_, Some(_)) => None,
    }
}

#[tactic(auto, using(crate::proofs::PartsLemmas::no_ip_of_five))]
/// Reads an IPv4 address: four numbers from 0 to 255 with single dots between. Takes no memory.
pub fn read_ip(text: &[u8]) -> Option<[u8; 4]>
    ensures { result ≡ ip_of text.now }
{
    let (first, rest) = cut(text, b'.');
    let (second, rest) = cut(rest?, b'.');
    let (third, rest) = cut(rest?, b'.');
    let (fourth, rest) = cut(rest?, b'.');
    match rest {
        Some(_) => None,
        None => Some([octet(first)?, octet(second)?, octet(third)?, octet(fourth)?]),
    }
}

/// Reads a port, from 1 to 65535. Takes no memory.
pub fn read_port(text: &[u8]) -> Option<u16>
    ensures value { result ≡ port_of text.now }
    ensures least { IfSome result (λ port. 1 ≤ port) }
{
    let port = read_number(text, 1, 65_535).ok()?;
    Some(port as u16)
}

/// Reads one number of an IPv4 address.
fn octet(text: &[u8]) -> Option<u8>
    ensures { result ≡ octet_of text.now }
{
    let octet = read_number(text, 0, 255).ok()?;
    Some(octet as u8)
}

/// The text before the first separator, and the text after that separator if there is one.
fn cut(text: &[u8], separator: u8) -> (&[u8], Option<&[u8]>)
    ensures { MatchOption result.1
        (slice_split (λ b. b == separator) text.now ≡ result.0.now ∷ [])
        (λ rest. slice_split (λ b. b == separator) text.now
        ≡ result.0.now ∷ slice_split (λ b. b == separator) rest.now) }
{
    let end = length_before(text, separator);
    if end < text.len() {
        (&text[..end], Some(&text[end + 1..]))
    } else {
        (text, None)
    }
}

/// How many bytes come before the first separator.
fn length_before(text: &[u8], separator: u8) -> usize
    ensures { result ≡ position_or_len (λ b. b == separator) text.now }
{
    text.iter().take_while(|byte| **byte != separator).count()
}

impl fmt::Display for Address {
    ghost output = { λ a. Some (address_text a) };

    fn fmt<W: fmt::Write>(&self, f: &mut fmt::Formatter<W>) -> fmt::Result {
        let [a, b, c, d] = self.ip();
        let port = self.port();
        write!(f, "{a}.{b}.{c}.{d}:{port}")
    }
}
