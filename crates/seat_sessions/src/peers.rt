//! A connection whose replies are held until more is to be read.

ghost use Rattle.std.specs.Prelude.{◌≤◌, length, IfOk};

use std::cell::RefCell;
use std::io;
use std::io::{ErrorKind, Read, Write};
use std::net::{Shutdown, TcpStream};

/// How many bytes of replies are held.
const ROOM: usize = 16_384;

/// A connection, with the replies that were not sent yet. They are sent before more is read, so a
/// peer that waits for its reply has it, and one that sends on gets many in one packet.
#[derive(Drop)]
pub(crate) struct Peer {
    stream: TcpStream,
    held: RefCell<Held>,
}

impl Peer {
    /// A connection, for which nothing is held.
    pub(crate) fn new(stream: TcpStream) -> Peer {
        Peer {
            stream,
            held: RefCell::new(Held {
                bytes: [0; ROOM],
                len: 0,
            }),
        }
    }

    /// Sends what is held.
    pub(crate) fn send(&self) -> io::Result<()> {
        let Ok(mut held) = self.held.try_borrow_mut() else {
            return Err(io::Error::from(ErrorKind::Other));
        };
        let len = held.len;
        held.len = 0;
        (&self.stream).write_all(&held.bytes[..len])
    }

    /// Says to the peer that no more is sent.
    pub(crate) fn shut_down(&self) -> io::Result<()> {
        self.stream.shutdown(Shutdown::Write)
    }

    /// Holds a front of the bytes, and says how many of them. What was held is sent first if there
    /// is no room for all of these.
    fn hold(&self, bytes: &[u8]) -> io::Result<usize>
        ensures { IfOk result (λ count. count ≤ length bytes.now) }
    {
        let Ok(held) = self.held.try_borrow() else {
            return Err(io::Error::from(ErrorKind::Other));
        };
        let free = ROOM - held.len;
        drop(held);
        if free < bytes.len() {
            self.send()?;
        }
        let Ok(mut held) = self.held.try_borrow_mut() else {
            return Err(io::Error::from(ErrorKind::Other));
        };
        Ok(held.push(bytes))
    }
}

/// Replies that were not sent yet: the first `len` bytes.
#[derive(Drop)]
struct Held {
    bytes: [u8; ROOM],
    len: usize,
    ghost fits: { len ≤ 16384 },
}

impl Held {
    /// Adds a front of the bytes, as many as there is room for, and says how many.
    fn push(&mut self, bytes: &[u8]) -> usize
        ensures { result ≤ length bytes.now }
    {
        let free = ROOM - self.len;
        let count = if bytes.len() < free {
            bytes.len()
        } else {
            free
        };
        self.bytes[self.len..self.len + count].copy_from_slice(&bytes[..count]);
        self.len += count;
        count
    }
}

/// The reader of a connection: it sends what is held before it reads.
#[derive(Drop)]
pub(crate) struct PeerReader<'a> {
    peer: &'a Peer,
}

impl<'a> PeerReader<'a> {
    pub(crate) fn of(peer: &'a Peer) -> PeerReader<'a> {
        PeerReader { peer }
    }
}

impl Read for PeerReader<'_> {
    fn read(&mut self, buf: &mut [u8]) -> io::Result<usize> {
        self.peer.send()?;
        (&self.peer.stream).read(buf)
    }
}

/// The writer of a connection: it holds what it is given.
#[derive(Drop)]
pub(crate) struct PeerWriter<'a> {
    peer: &'a Peer,
}

impl<'a> PeerWriter<'a> {
    pub(crate) fn of(peer: &'a Peer) -> PeerWriter<'a> {
        PeerWriter { peer }
    }
}

impl Write for PeerWriter<'_> {
    fn write(&mut self, buf: &[u8]) -> io::Result<usize> {
        self.peer.hold(buf)
    }

    fn flush(&mut self) -> io::Result<()> {
        self.peer.send()
    }
}
