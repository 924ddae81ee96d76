//! An endpoint, as it is read from its bytes.

ghost use Rattle.std.specs.Prelude.{◌≡◌, IfOk, IfSome};
ghost use Rattle.entry_bytes.specs.EndpointTexts.{IsWhole};
ghost use Rattle.entry_bytes.specs.EndpointBytes.{endpoint_in};

use crate::codes::endpoint_kind_of;
use crate::endpoint_reading::{give_aliases, give_technologies};
use crate::endpoint_texts::{after_counted, after_text, first_name};
use field_bytes::{Fields, NameText};
use gk_terms::Address;
use registry::{Endpoint, EndpointKind};
use std::alloc::{AllocError, Global};
use std::marker::Model;

/// An endpoint of an entry, whose texts stand in the entry. A contract sees the endpoint.
#[derive(Drop)]
pub struct EndpointBytes<'a> {
    kind: EndpointKind,
    address: Address,
    texts: &'a [u8],
}

impl<'a> Model for EndpointBytes<'a> {
    ghost use Rattle.registry.specs.Endpoint.{EndpointParts};
    ghost use Rattle.entry_bytes.specs.EndpointTexts.{IsWhole, endpoint_read};

    ghost Value = { EndpointParts };

    ghost view = { λ e. endpoint_read e.kind e.address e.texts.now };

    ghost invariant = { λ e. IsWhole (endpoint_read e.kind e.address e.texts.now) };
}

impl<'a> EndpointBytes<'a> {
    /// The endpoint that all of these bytes are, if they begin with a kind and an address. The
    /// texts after that are those of an endpoint.
    pub fn read(bytes: &'a [u8]) -> Option<EndpointBytes<'a>>
        requires { IfSome (endpoint_in bytes.now) IsWhole }
        ensures { result ≡ endpoint_in bytes.now }
    {
        let mut fields = Fields::of(bytes);
        let kind = endpoint_kind_of(fields.byte()?)?;
        let address = fields.address()?;
        Some(EndpointBytes {
            kind,
            address,
            texts: fields.rest(),
        })
    }

    /// The endpoint, with its aliases and its technology prefixes. `AllocError` comes only if
    /// memory for these runs out.
    pub fn endpoint(&self, alloc: Global) -> Result<Endpoint, AllocError>
        ensures { IfOk result (λ endpoint. endpoint ≡ self.now) }
    {
        let aliases = after_text(after_text(self.texts));
        let technologies = after_counted(aliases);
        let mut endpoint = Endpoint::new(
            alloc,
            self.kind,
            self.id().name(),
            self.zone().name(),
            self.address,
        );
        give_aliases(&mut endpoint, aliases)?;
        give_technologies(&mut endpoint, technologies)?;
        Ok(endpoint)
    }

    /// What the endpoint is.
    pub fn kind(&self) -> EndpointKind
        ensures { result ≡ self.now.kind }
    {
        self.kind
    }

    /// Its ID.
    pub fn id(&self) -> NameText<'a>
        ensures { result ≡ self.now.id }
    {
        first_name(self.texts)
    }

    /// The zone in which it registers.
    pub fn zone(&self) -> NameText<'a>
        ensures { result ≡ self.now.zone }
    {
        first_name(after_text(self.texts))
    }

    /// Its call signalling address.
    pub fn address(&self) -> Address
        ensures { result ≡ self.now.address }
    {
        self.address
    }
}
