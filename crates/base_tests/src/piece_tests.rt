//! A list of what owns memory, which takes two pieces.

use pieces::Pieces;
use std::alloc::{AllocError, Global};
use std::test::Fail;

/// A line of text, which owns memory.
#[derive(Drop)]
struct Line {
    text: Vec<u8>,
}

/// Puts a line of this text at the end.
fn add(lines: &mut Pieces<Line>, alloc: Global, text: &[u8]) -> Result<(), AllocError> {
    let line = Line {
        text: Vec::from_slice(alloc, text)?,
    };
    lines.reserve(1)?;
    lines.push(line);
    Ok(())
}

/// Puts 1,024 lines at the end, as many as a piece holds, and then another one.
fn fill(lines: &mut Pieces<Line>, alloc: Global) -> Result<(), AllocError> {
    for _ in 0..1_024 {
        add(lines, alloc, b"first piece")?;
    }
    add(lines, alloc, b"second piece")
}

#[test]
fn holds_what_owns_memory(rt: HostRuntime) -> Result<(), Fail> {
    let mut lines = Pieces::new(rt.alloc());
    fill(&mut lines, rt.alloc())?;
    let last = lines.get(1_024).map(|line| line.text.as_slice());
    assert_eq!(rt; last, Some(b"second piece".as_slice()));
    Ok(())
}
