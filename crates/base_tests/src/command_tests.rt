//! The lines that are kept of commands, and the one fault that no script brings about.

use command_reader::{Draft, read, read_again};
use gk_commands::{CommandLines, Commands, FaultKind, LineFault};
use std::alloc::Global;
use std::test::Fail;

/// Lines of every kind, with remarks, empty lines, blanks and both line endings between and around
/// them: 12 commands, and 5 lines that are passed over.
const TEXT: &[u8] = b"! sites\r\nzone local a d\r\n  zone\tlocal  b d 10.0.0.1 1720 \n\n\
    zone remote c d 10.0.0.2\nend\nzone remote e d 10.0.0.3 1721 cost 5 priority 7\n\
    zone prefix a 9*\r\nzone prefix c 8.. seq\n \t\nzone prefix b 7* gw-priority 10 g h\n\
    gw-type-prefix 1#* hopoff a default-technology\narq reject-unknown-prefix\r\n\
    bandwidth total default 100\nbandwidth session zone a 64\n!\nbandwidth remote 500";

/// The lines of these commands, which were kept.
fn lines_of(commands: Commands) -> Result<CommandLines, Fail> {
    match commands.into_lines() {
        Ok(lines) => Ok(lines),
        Err(_) => Err(Fail::new("no lines were kept")),
    }
}

/// The commands of that text, as its lines say them that were kept.
fn said_again(alloc: Global) -> Result<Commands, Fail> {
    let lines = lines_of(read(alloc, TEXT)?)?;
    Ok(read_again(alloc, &lines)?)
}

/// Whether these are 12 commands beside 5 lines that were passed over, and those the same beside
/// none.
fn are_the_twelve(given: &Commands, again: &Commands) -> bool {
    let (passed, passed_again) = (given.passed(), again.passed());
    given.len() == 12 && (passed, passed_again) == (5, 0) && given.as_slice() == again.as_slice()
}

#[test]
fn reads_kept_lines_again(rt: HostRuntime) -> Result<(), Fail> {
    let given = read(rt.alloc(), TEXT)?;
    assert!(rt; are_the_twelve(&given, &said_again(rt.alloc())?));
    Ok(())
}

/// Whether this draft keeps its line.
fn keeps_its_line(draft: Draft) -> Result<bool, Fail> {
    let draft = draft.with_line(b"zone local a d")?;
    Ok(draft.finish()?.into_lines().is_ok())
}

#[test]
fn keeps_lines_if_asked(rt: HostRuntime) -> Result<(), Fail> {
    assert!(rt; keeps_its_line(Draft::keeping_lines(rt.alloc(), 1))?);
    assert!(rt; !keeps_its_line(Draft::new(rt.alloc()))?);
    Ok(())
}

#[test]
fn prints_that_memory_ran_out(rt: HostRuntime) -> Result<(), Fail> {
    let (line, kind) = (7, FaultKind::NoMemory);
    let printed = format!(in rt.alloc(); "{}", LineFault { line, kind })?;
    assert_eq!(rt; printed.as_str(), "line 7: NoMemory");
    Ok(())
}
