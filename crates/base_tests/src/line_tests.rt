//! How often a reader of lines calls for bytes.

ghost use Rattle.gk_lines.specs.LineReader.{AtEndIfEnded};

use gk_lines::{LineBuffer, LineReader, Noted, ReadFault, Source};
use std::test::Fail;

/// How many lines are left.
fn count_of_lines<R: Source>(lines: &mut LineReader, reader: &mut R) -> Result<u32, ReadFault>
    requires { AtEndIfEnded lines.old (R.remaining reader.old) }
{
    let mut line = LineBuffer::new();
    for count in 0..2_000 {
        if !lines.next_line(reader, &mut line)? {
            return Ok(count);
        }
    }
    Ok(2_000)
}

#[test]
fn asks_for_whole_pieces(rt: HostRuntime) -> Result<(), Fail> {
    let mut text = Vec::new(rt.alloc());
    for _ in 0..1_000 {
        text.extend_from_slice(b"abcdefghi\n")?;
    }
    let mut reader = Noted::new(text.as_slice());
    let mut lines = LineReader::new(4);
    assert_eq!(rt; count_of_lines(&mut lines, &mut reader), Ok(1_000));
    assert_eq!(rt; reader.calls(), 4);
    Ok(())
}
