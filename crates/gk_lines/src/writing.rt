//! Bytes that are written to the last one.

ghost use Rattle.std.specs.Prelude.{OnOk, OnErr};
ghost use Rattle.std.specs.Io.KnownBytes.{Appends};
ghost use Rattle.gk_lines.specs.Streams.{Notes, AppendsFront};

use crate::streams::{Sink, StreamFailed};
use thiserror::Error;

/// The writer failed, or took no byte.
#[derive(Clone, Copy, Debug, PartialEq, Eq, Error)]
#[error("the writer failed")]
pub struct WriteFault;

impl From<StreamFailed> for WriteFault {
    ghost use Rattle.std.specs.Prelude.{⊤};

    ghost from_gives = { λ _ _. ⊤ };

    fn from(_failed: StreamFailed) -> WriteFault {
        WriteFault
    }
}

/// Writes all the bytes, in one call of the writer if it takes them all. `WriteFault` comes exactly
/// if the writer fails in this call; what it took of the bytes stays.
pub fn write_whole<W: Sink>(sink: &mut W, bytes: &[u8]) -> Result<(), WriteFault>
    ensures whole { OnOk result (Appends (W.contents sink.old) (W.contents sink.new) bytes.now) }
    ensures front { OnErr result
        (AppendsFront (W.contents sink.old) (W.contents sink.new) bytes.now) }
    ensures noted { Notes (W.failures sink.old) (W.failures sink.new) result }
{
    let mut rest = bytes;
    while !rest.is_empty() {
        let count = sink.write(rest)?;
        (_, rest) = rest.split_at(count);
    }
    Ok(())
}
