//! A log of bytes: items at the end of a piece, longer than a piece, and in great number; and what
//! is shared of one.

use byte_log::{ByteLog, PIECE_BYTES};
use std::alloc::{AllocError, Global};
use std::test::Fail;

/// A text of so many bytes, which begins with its mark.
fn text(alloc: Global, mark: u8, length: usize) -> Result<Vec<u8>, AllocError> {
    let mut bytes = Vec::new(alloc);
    bytes.resize(length, b'.')?;
    if let Some(first) = bytes.first_mut() {
        *first = mark;
    }
    Ok(bytes)
}

/// Puts a text at the end.
fn add(log: &mut ByteLog, text: &[u8]) -> Result<(), AllocError> {
    log.reserve(text.len(), 0)?;
    log.push(text);
    Ok(())
}

/// Whether the item at this place is that text.
fn is_there(log: &ByteLog, place: usize, text: &[u8]) -> bool {
    match log.get(place) {
        Some(item) => item == text,
        None => false,
    }
}

/// Puts texts of these lengths, and tells whether each is there at the end.
fn keeps(alloc: Global, lengths: &[usize]) -> Result<bool, AllocError> {
    let mut log = ByteLog::new(alloc);
    let mut mark: u8 = 0;
    for length in lengths {
        mark = mark.wrapping_add(1);
        add(&mut log, &text(alloc, mark, *length)?)?;
    }
    let mut place: usize = 0;
    mark = 0;
    for length in lengths {
        mark = mark.wrapping_add(1);
        if !is_there(&log, place, &text(alloc, mark, *length)?) {
            return Ok(false);
        }
        place = place.wrapping_add(1);
    }
    Ok(log.len() == lengths.len() && log.get(lengths.len()).is_none())
}

#[test]
fn keeps_items_at_the_end_of_a_piece(rt: HostRuntime) -> Result<(), Fail> {
    for lengths in [
        [PIECE_BYTES - 1, 1, 1, 0, 0],
        [PIECE_BYTES - 1, 2, 1, 0, 3],
        [PIECE_BYTES, 0, 0, 1, PIECE_BYTES],
        [0, PIECE_BYTES, 0, 138, 139],
    ] {
        assert!(rt; keeps(rt.alloc(), &lengths)?);
    }
    Ok(())
}

#[test]
fn keeps_an_item_longer_than_a_piece(rt: HostRuntime) -> Result<(), Fail> {
    let lengths = [
        10,
        PIECE_BYTES + 1,
        0,
        10,
        3 * PIECE_BYTES,
        2 * PIECE_BYTES,
        5,
    ];
    assert!(rt; keeps(rt.alloc(), &lengths)?);
    Ok(())
}

/// The text of this number.
fn numbered(number: usize) -> [u8; 57] {
    let mut bytes = [b'.'; 57];
    bytes[0] = (number % 251) as u8;
    bytes[56] = (number / 251 % 251) as u8;
    bytes
}

/// Whether 70,000 items of 1 to 57 bytes, which take more than one piece of places, are there.
fn keeps_many(log: &mut ByteLog) -> Result<bool, AllocError> {
    for number in 0..70_000 {
        let bytes = numbered(number);
        add(log, &bytes[number % 57..])?;
    }
    for number in 0..70_000 {
        let bytes = numbered(number);
        if !is_there(log, number, &bytes[number % 57..]) {
            return Ok(false);
        }
    }
    Ok(log.len() == 70_000)
}

#[test]
fn keeps_70_000_items(rt: HostRuntime) -> Result<(), Fail> {
    assert!(rt; keeps_many(&mut ByteLog::new(rt.alloc()))?);
    Ok(())
}

/// Whether too much room is refused, and what is there stays.
fn refuses_too_much(log: &mut ByteLog) -> Result<bool, AllocError> {
    log.reserve(5, 1_000)?;
    log.push(b"first");
    let refused = log.reserve(usize::MAX, 0).is_err() && log.reserve(0, usize::MAX).is_err();
    Ok(refused && log.reserve(138, 998).is_ok() && is_there(log, 0, b"first"))
}

#[test]
fn refuses_more_room_than_there_is_memory(rt: HostRuntime) -> Result<(), Fail> {
    assert!(rt; refuses_too_much(&mut ByteLog::new(rt.alloc()))?);
    Ok(())
}

/// Whether a log has the first 3,000 texts, which take three pieces, and no more.
fn has_3_000(log: &ByteLog) -> bool {
    for place in 0..3_000 {
        if !is_there(log, place, &numbered(place)) {
            return false;
        }
    }
    log.len() == 3_000
}

/// Puts the first 3,000 texts.
fn fill(log: &mut ByteLog) -> Result<(), AllocError> {
    for number in 0..3_000 {
        add(log, &numbered(number))?;
    }
    Ok(())
}

/// Whether a log and another that shares its pieces go on apart. The other is let go.
fn part(log: &mut ByteLog, shared: &ByteLog) -> Result<bool, AllocError> {
    let mut other = shared.share()?;
    add(log, b"one")?;
    add(&mut other, b"another")?;
    Ok(is_there(log, 3_000, b"one") && is_there(&other, 3_000, b"another"))
}

/// Whether a shared log stays as it was while two others go on, and when they are let go.
fn stays(mut log: ByteLog) -> Result<bool, AllocError> {
    fill(&mut log)?;
    let shared = log.share()?;
    let parted = part(&mut log, &shared)?;
    drop(log);
    Ok(parted && has_3_000(&shared))
}

#[test]
fn a_shared_log_stays_as_it_was(rt: HostRuntime) -> Result<(), Fail> {
    assert!(rt; stays(ByteLog::new(rt.alloc()))?);
    Ok(())
}

#[test]
fn shares_a_log_without_items(rt: HostRuntime) -> Result<(), Fail> {
    let shared = ByteLog::new(rt.alloc()).share()?;
    assert!(rt; shared.len() == 0 && shared.get(0).is_none());
    Ok(())
}
