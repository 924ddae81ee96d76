//! Short names, and digits that are packed and read back.

use gk_terms::{Dialled, Name};
use short_texts::{KeptName, PackedDigits, ShortName};
use std::alloc::Global;
use std::test::Fail;

/// Whether the name is short, reads back, and differs from the other one.
fn is_kept_beside(name: &Name, other: &Name) -> bool {
    match ShortName::of(name) {
        Some(short) => short.name() == *name && short.is(name) && !short.is(other),
        None => false,
    }
}

#[test]
fn keeps_names_of_at_most_19_characters(rt: HostRuntime) -> Result<(), Fail> {
    let longest = Name::read(b"terminal-0123456789")?;
    let longer = Name::read(b"terminal-0123456789a")?;
    assert!(rt; is_kept_beside(&longest, &longer));
    assert!(rt; ShortName::of(&longer).is_none());
    Ok(())
}

/// Whether the name is kept, reads back, and differs from the other one.
fn is_kept_whole(alloc: Global, name: &Name, other: &Name) -> Result<bool, Fail> {
    let kept = KeptName::of(alloc, name)?;
    let same = kept.name() == *name && kept.as_bytes() == name.as_bytes();
    Ok(same && kept != KeptName::of(alloc, other)?)
}

#[test]
fn keeps_names_of_any_length(rt: HostRuntime) -> Result<(), Fail> {
    let shorter = Name::read(b"terminal-0123456789")?;
    let longer = Name::read(b"terminal-0123456789a")?;
    let longest = Name::read(&[b'a'; 128])?;
    assert!(rt; is_kept_whole(rt.alloc(), &shorter, &longer)?);
    assert!(rt; is_kept_whole(rt.alloc(), &longer, &shorter)?);
    assert!(rt; is_kept_whole(rt.alloc(), &longest, &longer)?);
    Ok(())
}

#[test]
fn reads_packed_digits_back(rt: HostRuntime) -> Result<(), Fail> {
    for text in [
        b"0".as_slice(),
        b"#*",
        b"1#408",
        b"0123456789#*",
        b"912345678901234",
        b"9123456789012345",
        b"**************#################",
        b"00000000000000000000000000000009",
    ] {
        let digits = Dialled::read(text)?;
        assert_eq!(rt; PackedDigits::of(&digits).digits(), digits);
    }
    Ok(())
}
