//! An endpoint of an entry: the bytes that it takes, and that they are those of a registration.

use entry_bytes::{add_endpoint, size_of_endpoint};
use gk_terms::{Address, Dialled, Name, TechPrefix};
use registry::{Endpoint, EndpointKind};
use std::alloc::{AllocError, Global};
use std::test::Fail;

/// The bytes of an endpoint.
fn registered(alloc: Global, endpoint: &Endpoint) -> Result<Vec<u8>, AllocError> {
    let mut bytes = Vec::with_capacity(alloc, size_of_endpoint(endpoint))?;
    add_endpoint(&mut bytes, endpoint);
    Ok(bytes)
}

#[test]
fn an_endpoint_has_its_texts_last(rt: HostRuntime) -> Result<(), Fail> {
    let id = Name::read(b"ga")?;
    let zone = Name::read(b"gk-a")?;
    let address = Address::new([10, 0, 1, 2], 1720);
    let mut endpoint = Endpoint::new(rt.alloc(), EndpointKind::Terminal, id, zone, address);
    endpoint.add_alias(Dialled::read(b"4085551000")?)?;
    endpoint.add_alias(Dialled::read(b"7")?)?;
    endpoint.add_technology(TechPrefix::read(b"1#")?)?;
    let bytes = registered(rt.alloc(), &endpoint)?;
    let expected = b"\x01\x0A\x00\x01\x02\xB8\x06\x02ga\x04gk-a\x02\x0A4085551000\x017\x01\x021#";
    assert!(rt; bytes.as_slice() == expected.as_slice());
    Ok(())
}
