//! Commands, printed as canonical lines.

ghost use Rattle.std.specs.Prelude.{◌≡◌, Ok, OnOk, OnErr};
ghost use Rattle.std.specs.List.{All};
ghost use Rattle.std.specs.Io.KnownBytes.{Appends};
ghost use Rattle.gk_lines.specs.Streams.{Notes, AppendsFront};
ghost use Rattle.gk_commands.specs.Accepted.{PrintsBack};
ghost use Rattle.gk_commands.specs.Printing.{text_of};
ghost use Rattle.gk_commands.specs.Reading.{reading_of};

use crate::canonical_lines::make_line;
use gk_commands::{Command, Commands};
use gk_lines::{LineBuffer, Sink, WriteFault, write_whole};

/// Prints commands as their canonical lines, in order: the words of each with one space between,
/// and a line feed. A default is written out, as the port of a remote zone. The text is a
/// configuration of its own: `read` gives the same commands for it, and no line of it is passed
/// over.
///
/// `WriteFault` comes exactly if the writer fails in this call, and it then holds a front of the
/// text. Takes no memory.
pub fn print<W: Sink>(commands: &Commands, writer: &mut W) -> Result<(), WriteFault>
    ensures whole { OnOk result (Appends (W.contents writer.old) (W.contents writer.new)
        (text_of commands.now.commands)) }
    ensures front { OnErr result (AppendsFront (W.contents writer.old) (W.contents writer.new)
        (text_of commands.now.commands)) }
    ensures noted { Notes (W.failures writer.old) (W.failures writer.new) result }
    ensures reads_back { reading_of (text_of commands.now.commands)
        ≡ Ok (record { commands = commands.now.commands; passed = 0 }) }
{
    print_lines(commands.as_slice(), writer)
}

/// Prints commands that print back.
fn print_lines<W: Sink>(commands: &[Command], writer: &mut W) -> Result<(), WriteFault>
    requires { All PrintsBack commands.now }
    ensures whole { OnOk result (Appends (W.contents writer.old) (W.contents writer.new)
        (text_of commands.now)) }
    ensures front { OnErr result (AppendsFront (W.contents writer.old) (W.contents writer.new)
        (text_of commands.now)) }
    ensures noted { Notes (W.failures writer.old) (W.failures writer.new) result }
{
    let mut line = LineBuffer::new();
    for command in commands {
        make_line(&mut line, command);
        write_whole(writer, line.as_bytes())?;
    }
    Ok(())
}
