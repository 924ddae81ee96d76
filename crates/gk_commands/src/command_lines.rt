//! The lines of accepted commands.

ghost use Rattle.std.specs.Prelude.{◌≡◌, true, Ok};
ghost use Rattle.gk_terms.specs.Text.{lines_of};
ghost use Rattle.gk_commands.specs.Reading.{reading_in};
ghost use Rattle.gk_commands.specs.WholeLines.{commands_said};

use crate::whole_lines::WholeLines;
use std::marker::Model;

/// The lines of accepted commands as they were given, without those that were passed over. They are
/// made by `Commands::into_lines`. A contract sees the commands.
#[derive(Drop)]
pub struct CommandLines {
    lines: WholeLines,
}

impl Model for CommandLines {
    ghost use Rattle.std.specs.Prelude.{◌≡◌, List, Ok};
    ghost use Rattle.gk_commands.specs.declared.commands.Command.{Command};
    ghost use Rattle.gk_commands.specs.Reading.{reading_in};
    ghost use Rattle.gk_commands.specs.WholeLines.{commands_said};

    ghost Value = { List Command };

    ghost view = { λ l. commands_said l.lines };

    ghost invariant = { λ l. reading_in l.lines
        ≡ Ok (record { commands = commands_said l.lines; passed = 0 }) };
}

impl CommandLines {
    /// Lines that say commands.
    pub(crate) fn new(lines: WholeLines) -> CommandLines
        requires { reading_in lines ≡ Ok (record { commands = commands_said lines; passed = 0 }) }
        ensures { result ≡ commands_said lines }
    {
        CommandLines { lines }
    }

    /// Whether these lines are the same as the other ones, byte by byte, and so say the same. Lines
    /// that say the same in other words are not the same.
    pub fn is_same_text(&self, other: &CommandLines) -> bool
        ensures { result ≡ true → self.now ≡ other.now }
    {
        self.lines.is_same_text(&other.lines)
    }

    /// A hash of the lines as they stand, by which lines that may be the same are found. The time
    /// grows with their number of bytes.
    pub fn text_hash(&self) -> u64 {
        self.lines.text_hash()
    }

    /// The text of the lines.
    pub fn as_bytes(&self) -> &[u8]
        ensures { reading_in (lines_of result.now)
            ≡ Ok (record { commands = self.now; passed = 0 }) }
    {
        self.lines.as_bytes()
    }
}
