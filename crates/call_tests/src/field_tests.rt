//! Fields of an entry: the bytes that each takes, and what is read of these and of others.

use bandwidth::Over;
use entry_bytes::{add_change_refusal, read_change_refusal, size_of_change_refusal};
use field_bytes::{
    Fields, NUMBER_BYTES, add_address, add_dialled, add_name, add_number, size_of_address,
    size_of_dialled, size_of_name,
};
use gk_commands::LimitKind;
use gk_terms::{Address, Dialled, Name, Units};
use rulings::ChangeRefusal;
use std::alloc::{AllocError, Global};
use std::test::Fail;

/// The bytes of a name.
fn named(alloc: Global, name: &Name) -> Result<Vec<u8>, AllocError> {
    let mut bytes = Vec::with_capacity(alloc, size_of_name(name))?;
    add_name(&mut bytes, name);
    Ok(bytes)
}

#[test]
fn a_name_comes_after_its_length(rt: HostRuntime) -> Result<(), Fail> {
    let name = Name::read(b"gk-a")?;
    let bytes = named(rt.alloc(), &name)?;
    assert!(rt; bytes.as_slice() == b"\x04gk-a".as_slice());
    assert!(rt; Fields::of(&bytes).name().map(|read| read.name()) == Some(name));
    assert!(rt; Fields::of(&bytes[..4]).name().is_none());
    assert!(rt; Fields::of(b"\x04g\nk ").name().is_none());
    let longest = Name::read(&[b'a'; 128])?;
    assert!(rt;
        Fields::of(&named(rt.alloc(), &longest)?)
            .name()
            .map(|read| read.name())
            == Some(longest)
    );
    Ok(())
}

#[test]
fn the_low_byte_of_a_number_comes_first(rt: HostRuntime) -> Result<(), Fail> {
    let mut bytes = Vec::with_capacity(rt.alloc(), NUMBER_BYTES)?;
    add_number(&mut bytes, 1001);
    assert!(rt; bytes.as_slice() == b"\xE9\x03\x00\x00".as_slice());
    assert!(rt; Fields::of(&bytes).number() == Some(1001));
    assert!(rt; Fields::of(&bytes).units() == Some(Units::new(1001)));
    assert!(rt; Fields::of(&bytes[1..]).number().is_none());
    Ok(())
}

#[test]
fn dialled_digits_are_read_again(rt: HostRuntime) -> Result<(), Fail> {
    let digits = Dialled::read(b"*1#4085551000")?;
    let mut bytes = Vec::with_capacity(rt.alloc(), size_of_dialled(&digits))?;
    add_dialled(&mut bytes, &digits);
    assert!(rt; bytes.as_slice() == b"\x0D*1#4085551000".as_slice());
    assert!(rt; Fields::of(&bytes).dialled() == Some(digits));
    assert!(rt; Fields::of(b"\x03a12").dialled().is_none());
    Ok(())
}

#[test]
fn an_address_takes_six_bytes(rt: HostRuntime) -> Result<(), Fail> {
    let address = Address::new([10, 0, 1, 2], 1720);
    let mut bytes = Vec::with_capacity(rt.alloc(), size_of_address(address))?;
    add_address(&mut bytes, address);
    assert!(rt; bytes.as_slice() == b"\x0A\x00\x01\x02\xB8\x06".as_slice());
    assert!(rt; Fields::of(&bytes).address() == Some(address));
    assert!(rt; Fields::of(&bytes[..5]).address().is_none());
    assert!(rt; Fields::of(b"\x0A\x00\x01\x02\x00\x00").address().is_none());
    Ok(())
}

#[test]
fn refusals_are_read_again(rt: HostRuntime) -> Result<(), Fail> {
    let over = Over::Zone {
        kind: LimitKind::Interzone,
        zone: Name::read(b"gk-x")?,
    };
    let zone = ChangeRefusal::OverLimit(over);
    let mut bytes = Vec::with_capacity(rt.alloc(), size_of_change_refusal(&zone))?;
    add_change_refusal(&mut bytes, &zone);
    assert!(rt; bytes.as_slice() == b"\x04\x03\x04gk-x".as_slice());
    assert!(rt; read_change_refusal(&mut Fields::of(&bytes)) == Some(zone));
    let remote = Some(ChangeRefusal::OverLimit(Over::Remote));
    assert!(rt; read_change_refusal(&mut Fields::of(b"\x04\x00")) == remote);
    assert!(rt; read_change_refusal(&mut Fields::of(b"\x04\x04\x04gk-x")).is_none());
    assert!(rt; read_change_refusal(&mut Fields::of(b"\x05")).is_none());
    Ok(())
}
