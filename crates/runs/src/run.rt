//! A run: a configuration, and then requests.

ghost use Rattle.std.specs.Prelude.{◌≡◌, ◌≢◌, ◌+◌, ◌^◌, ◌<◌, ◌≤◌, ◌↔◌, ℕ, List, true, false, Err, IfOk, IfErr, OnOk, OnErr, IsErrOf};
ghost use Rattle.std.specs.Io.KnownBytes.{Appends, IsAtEnd};
ghost use Rattle.gk_lines.specs.Streams.{NotesIf, KnownStep};
ghost use Rattle.rulings.specs.Limits.{are_limits};
ghost use Rattle.gk_protocol.specs.CoreAnswers.{MayAnswer};
ghost use Rattle.gk_protocol.specs.Session.{is_read_fault, is_write_fault};
ghost use Rattle.runs.specs.Run as Spec;

use admission::{Core, Limits, OpeningFault};
use compiler::Tables;
use configuration_reader::configuration::{
    ConfigurationFault, MOST_TURNS, Until, read_configuration,
};
use gk_commands::{Commands, LineFault};
use gk_lines::{LineReader, Sink, Source};
use gk_protocol::{SessionFault, TryingCore, let_go, session, session_from};
use std::alloc::{AllocError, AllocFailed, Global};
use std::sync::{Arc, Wait};
use std::thread::Threads;
use thiserror::Error;

/// Why a run ended before the end of its input.
#[derive(Clone, Copy, Debug, PartialEq, Eq, Error)]
pub enum RunFault {
    /// A limit is 0 or above the stated one. The reader was not touched.
    #[error("bad limits")]
    BadLimits,
    /// The configuration is refused. Nothing was written.
    #[error("{0}")]
    Config(LineFault),
    /// The session ended at a fault.
    #[error("{0}")]
    Session(SessionFault),
    /// Memory ran out between the configuration and the requests. Nothing was written.
    #[error("no memory")]
    NoMemory,
}

impl From<SessionFault> for RunFault {
    ghost use Rattle.std.specs.Prelude.{◌≡◌};
    ghost use Rattle.runs.specs.declared.run.RunFault.TheVariants.{Session};

    ghost from_gives = { λ fault run. run ≡ Session fault };

    fn from(fault: SessionFault) -> RunFault {
        RunFault::Session(fault)
    }
}

impl From<ConfigurationFault> for RunFault {
    ghost use Rattle.std.specs.Prelude.{◌≡◌};
    ghost use Rattle.runs.specs.Run.{run_fault_of};

    ghost from_gives = { λ fault run. run ≡ run_fault_of fault };

    fn from(fault: ConfigurationFault) -> RunFault {
        match fault {
            ConfigurationFault::Line(fault) => RunFault::Config(fault),
            ConfigurationFault::Read(fault) => RunFault::Session(SessionFault::from(fault)),
        }
    }
}

impl From<OpeningFault> for RunFault {
    ghost use Rattle.std.specs.Prelude.{◌≡◌};
    ghost use Rattle.runs.specs.Run.{opening_run_fault_of};

    ghost from_gives = { λ fault run. run ≡ opening_run_fault_of fault };

    fn from(fault: OpeningFault) -> RunFault {
        match fault {
            OpeningFault::BadLimits => RunFault::BadLimits,
            OpeningFault::NoMemory => RunFault::NoMemory,
        }
    }
}

impl From<AllocError> for RunFault {
    ghost use Rattle.std.specs.Prelude.{◌≡◌};
    ghost use Rattle.runs.specs.declared.run.RunFault.TheVariants.{NoMemory};

    ghost from_gives = { λ _ run. run ≡ NoMemory };

    fn from(_refused: AllocError) -> RunFault {
        RunFault::NoMemory
    }
}

impl<T: Drop> From<AllocFailed<T>> for RunFault {
    ghost use Rattle.std.specs.Prelude.{◌≡◌};
    ghost use Rattle.runs.specs.declared.run.RunFault.TheVariants.{NoMemory};

    ghost from_gives = { λ _ run. run ≡ NoMemory };

    fn from(_refused: AllocFailed<T>) -> RunFault {
        RunFault::NoMemory
    }
}

/// Reads a configuration, and then answers the requests after it to the end of the input. The
/// configuration ends with the first line of at most 512 bytes whose only word is `end`, or with
/// the input. `Ok` gives the number of replies that were written. The reader is called at most
/// 4,294,967,295 times, for the configuration and the requests together. A trial takes its threads
/// from `rt`.
///
/// `BadLimits` comes before the reader is touched. `Config` comes once the configuration was read
/// to its end; a fault of reading before that is `Session`. At `BadLimits`, `Config` and `NoMemory`
/// nothing was written.
pub fn run_over<T: Threads + Wait, R: Source, W: Sink>(
    rt: &T,
    alloc: Global,
    limits: Limits,
    reader: &mut R,
    writer: &mut W,
) -> Result<u64, RunFault>
    // If the reader tells its bytes: what was written, by how the run ended (`RunEnds` has one case
    // for each result), however the reader cut the bytes into pieces. A writer that tells its bytes
    // holds just this more than before.
    ensures written { KnownStep (R.remaining reader.old) (R.remaining reader.new) (λ bytes rest.
        (text : List ℕ)
        × Spec.RunEnds MayAnswer (Spec.OpensWithin limits) bytes rest text result
        × Appends (W.contents writer.old) (W.contents writer.new) text) }

    // At `Ok` the reader is at its end. No run ends at a session's `NoMemory`. At a fault that
    // always comes before the requests, nothing was written.
    ensures end { OnOk result (IsAtEnd (R.remaining reader.new)) }
    ensures buffered { result ≢ Err (RunFault.Session SessionFault.NoMemory) }
    ensures unwritten { (fault : _) → result ≡ Err fault → Spec.is_before_requests fault ≡ true
        → writer.new ≡ writer.old }

    // ReadFault comes exactly if the reader failed in this run, and WriteFault exactly if the writer
    // did.
    ensures reader_noted { NotesIf Spec.is_run_read_fault (R.failures reader.old)
        (R.failures reader.new) result }
    ensures writer_noted { NotesIf Spec.is_run_write_fault (W.failures writer.old)
        (W.failures writer.new) result }

    // `BadLimits` comes exactly for limits outside their ranges, and then the reader and the writer
    // are as they were.
    ensures limits { IsErrOf result RunFault.BadLimits ↔ (are_limits limits ≡ false) }
    ensures untouched { are_limits limits ≡ false → (reader.new ≡ reader.old)
        × (writer.new ≡ writer.old) }

    // One turn is one call of the reader.
    ensures turns { R.calls reader.old + 4294967295 < 2 ^ 64
        → R.calls reader.new ≤ R.calls reader.old + 4294967295 }
    ensures turns_spent { result ≡ Err (RunFault.Session SessionFault.TurnsSpent)
        → R.calls reader.old + 4294967295 < 2 ^ 64 → R.calls reader.new
        ≡ R.calls reader.old + 4294967295 }
{
    if !limits.are_good() {
        return Err(RunFault::BadLimits);
    }
    let mut lines = LineReader::new(MOST_TURNS);
    let commands = read_configuration(alloc, &mut lines, reader, Until::EndLine)?;
    let core = opened(alloc, commands, limits)?;
    let mut core = TryingCore::new(core, rt);
    let result = session_from(alloc, &mut lines, reader, writer, &mut core);
    let_go(lines);
    // By a call: else each exit has all parts of the core among the facts of its proof.
    drop(core);
    let replies = result?;
    Ok(replies)
}

/// A session that has ended, and the core that it left.
#[derive(Drop)]
pub struct Ended {
    /// The core, whose record has each request of the session that was recorded.
    pub core: Core,
    /// How many replies were written, or the fault at which the session ended.
    pub replies: Result<u64, SessionFault>,
}

/// Answers the requests that the reader gives to its end, under a configuration that was read
/// before, and gives back the core, also after a fault of the session. A trial takes its threads
/// from `rt`. `BadLimits` and `NoMemory`
/// come before the reader is touched; there is no other fault.
pub fn run_under<T: Threads + Wait, R: Source, W: Sink>(
    rt: &T,
    alloc: Global,
    limits: Limits,
    commands: Commands,
    reader: &mut R,
    writer: &mut W,
) -> Result<Ended, RunFault>
    ensures written { KnownStep (R.remaining reader.old) (R.remaining reader.new) (λ bytes rest.
        (text : List ℕ)
        × Spec.ServesUnder MayAnswer (Spec.opened commands limits) bytes rest text
        (Spec.how_ended result)
        × Appends (W.contents writer.old) (W.contents writer.new) text) }
    ensures end { IfOk result (λ ended. OnOk ended.replies (IsAtEnd (R.remaining reader.new))) }
    ensures buffered { IfOk result (λ ended. ended.replies ≢ Err SessionFault.NoMemory) }
    ensures untouched { OnErr result ((reader.new ≡ reader.old) × (writer.new ≡ writer.old)) }
    ensures reader_noted { IfOk result (λ ended. NotesIf is_read_fault (R.failures reader.old)
        (R.failures reader.new) ended.replies) }
    ensures writer_noted { IfOk result (λ ended. NotesIf is_write_fault (W.failures writer.old)
        (W.failures writer.new) ended.replies) }
    ensures limits { IsErrOf result RunFault.BadLimits ↔ (are_limits limits ≡ false) }
    ensures memory { are_limits limits ≡ true → IfErr result
        (λ fault. fault ≡ RunFault.NoMemory) }
    ensures turns { R.calls reader.old + 4294967295 < 2 ^ 64
        → R.calls reader.new ≤ R.calls reader.old + 4294967295 }
    ensures turns_spent { IfOk result (λ ended. ended.replies ≡ Err SessionFault.TurnsSpent
        → R.calls reader.old + 4294967295 < 2 ^ 64 → R.calls reader.new
        ≡ R.calls reader.old + 4294967295) }
{
    if !limits.are_good() {
        return Err(RunFault::BadLimits);
    }
    let core = opened(alloc, commands, limits)?;
    let mut core = TryingCore::new(core, rt);
    let replies = session(alloc, reader, writer, &mut core, MOST_TURNS);
    Ok(Ended {
        core: core.into_core(),
        replies,
    })
}

/// A core in its opening state under a configuration.
fn opened(alloc: Global, commands: Commands, limits: Limits) -> Result<Core, RunFault>
    requires { are_limits limits ≡ true }
    ensures opened { IfOk result (λ core. core ≡ Spec.opened commands limits) }
    ensures fault { IfErr result (λ fault. fault ≡ RunFault.NoMemory) }
{
    let tables = Tables::compile(alloc, commands)?;
    let shared = Arc::new(alloc, tables)?;
    let core = Core::new(alloc, shared, limits)?;
    Ok(core)
}
