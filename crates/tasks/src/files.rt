//! Files that the program reads.

use call_files::{CallsFault, read_calls};
use call_rows::Snapshot;
use compiler::Tables;
use configuration_reader::check;
use configuration_reader::configuration::ConfigurationFault;
use gk_commands::Commands;
use gk_lines::{Noted, ReadFault};
use gk_protocol::{EndpointsFault, read_endpoints};
use registry::Registry;
use std::alloc::{AllocGlobal, Global};
use std::io::Read;
use std::rt::Runtime;
use std::sync::Arc;
use std::{fs, io};

/// How often a file is read from.
const MOST_READS: u32 = u32::MAX;

/// Why a file was not read.
#[derive(Clone, Copy, Debug, PartialEq, Eq)]
pub enum Unread {
    /// It cannot be opened, or a read failed.
    Failed,
    /// Memory ran out for it.
    NoMemory,
}

/// The configuration in a file.
pub fn configuration_in<R: Runtime + AllocGlobal>(
    rt: &R,
    file: &str,
) -> Result<Commands, ConfigurationFault> {
    let Ok(opened) = fs::open(rt, file) else {
        return Err(ConfigurationFault::Read(ReadFault::Failed));
    };
    let mut reader = Noted::new(opened);
    check::configuration_of(rt.alloc(), &mut reader)
}

/// Why a file gives no tables.
#[derive(Clone, Copy, Debug, PartialEq, Eq)]
pub enum Uncompiled {
    /// Its configuration is refused, or cannot be read.
    Config(ConfigurationFault),
    /// Memory ran out for them.
    NoMemory,
}

/// The tables of the configuration in a file.
pub fn tables_in<R: Runtime + AllocGlobal>(rt: &R, file: &str) -> Result<Tables, Uncompiled> {
    match configuration_in(rt, file) {
        Ok(commands) => match Tables::compile(rt.alloc(), commands) {
            Ok(tables) => Ok(tables),
            Err(_) => Err(Uncompiled::NoMemory),
        },
        Err(fault) => Err(Uncompiled::Config(fault)),
    }
}

/// The tables of the configuration in a file, as a server shares them; or why there are none.
pub fn shared_tables<R: Runtime + AllocGlobal>(
    rt: &R,
    file: &str,
) -> Result<Arc<Tables>, Uncompiled> {
    match tables_in(rt, file) {
        Ok(tables) => Arc::new(rt.alloc(), tables).map_err(|_| Uncompiled::NoMemory),
        Err(why) => Err(why),
    }
}

/// Why it is not known what a file says.
#[derive(Clone, Copy, Debug, PartialEq, Eq)]
pub enum Unknown<F> {
    /// It was not read.
    Unread(Unread),
    /// It has this fault.
    Faulty(F),
}

/// The endpoints in a file, under these tables. Its text is let go.
pub fn endpoints_in<R: Runtime + AllocGlobal>(
    rt: &R,
    file: &str,
    tables: &Tables,
) -> Result<Registry, Unknown<EndpointsFault>> {
    match text_of(rt, file) {
        Ok(text) => match read_endpoints(rt.alloc(), text.as_slice(), tables) {
            Ok(endpoints) => Ok(endpoints),
            Err(fault) => Err(Unknown::Faulty(fault)),
        },
        Err(why) => Err(Unknown::Unread(why)),
    }
}

/// The calls in a file. Its text, which may be as large as they are, is let go before they are
/// tried.
pub fn calls_in<R: Runtime + AllocGlobal>(
    rt: &R,
    file: &str,
) -> Result<Snapshot, Unknown<CallsFault>> {
    match text_of(rt, file) {
        Ok(text) => match read_calls(rt.alloc(), text.as_slice()) {
            Ok(calls) => Ok(calls),
            Err(fault) => Err(Unknown::Faulty(fault)),
        },
        Err(why) => Err(Unknown::Unread(why)),
    }
}

/// The whole text of a file, if it ends within 4,294,967,295 reads.
fn text_of<R: Runtime + AllocGlobal>(rt: &R, file: &str) -> Result<Vec<u8>, Unread> {
    let Ok(opened) = fs::open(rt, file) else {
        return Err(Unread::Failed);
    };
    let mut text = Vec::new(rt.alloc());
    match read_whole(opened, &mut text) {
        Ok(()) => Ok(text),
        Err(why) => Err(why),
    }
}

/// Adds to the text what the reader gives to its end.
fn read_whole<F: Read + Drop>(reader: F, text: &mut Vec<u8>) -> Result<(), Unread> {
    let mut limited = Limited {
        reader,
        left: MOST_READS,
    };
    match limited.read_to_end(text) {
        Ok(_) => Ok(()),
        Err(error) => Err(unread_for(&error)),
    }
}

/// Why a file was not read, by the fault of a read.
fn unread_for(error: &io::Error) -> Unread {
    if error.kind() == io::ErrorKind::OutOfMemory {
        Unread::NoMemory
    } else {
        Unread::Failed
    }
}

/// A reader that fails once it was called as often as it may be.
#[derive(Drop)]
struct Limited<F> {
    reader: F,
    left: u32,
}

impl<F: Read> Read for Limited<F> {
    fn read(&mut self, buf: &mut [u8]) -> io::Result<usize> {
        if self.left == 0 {
            return Err(io::Error::from(io::ErrorKind::Other));
        }
        self.left -= 1;
        self.reader.read(buf)
    }
}
