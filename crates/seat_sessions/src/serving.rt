//! A server: a desk, and as many sessions as it has seats.

ghost use Rattle.std.specs.Prelude.{◌≡◌, ◌+◌, ◌^◌, ◌<◌, ◌≤◌, List, length, true, Err, IfOk, IfErr};
ghost use Rattle.std.specs.Arc.{arc_value};
ghost use Rattle.rulings.specs.State.{opening_of};
ghost use Rattle.rulings.specs.Limits.{are_limits};
ghost use Rattle.entry_bytes.specs.Entry.{PlainEntry};
ghost use Rattle.live_desk.specs.Seats.{IsBadCount, IsTheirs};
ghost use Rattle.seat_sessions.specs.Served.{IsServed, stated_limits};

use crate::peers::{Peer, PeerReader, PeerWriter};
use crate::sittings::Sitting;
use admission::{Limits, STATED_LIMITS};
use compiler::Tables;
use gk_lines::{Noted, Sink, Source};
use gk_protocol::{Answerer, SessionFault, session};
use live_desk::{Blank, Desk, FinishFault, House, OpenFault, Seat};
use std::alloc::Global;
use std::marker::Brand;
use std::net::{Ipv4Addr, Net, SocketAddr, TcpListener, TcpStream};
use std::sync::{Arc, Wait};
use std::thread;
use std::thread::Threads;
use thiserror::Error;

/// How often the reader of a session may be called.
const MOST_TURNS: u32 = u32::MAX;

/// What came of a server whose sessions have all ended.
#[derive(Clone, Copy, Debug, PartialEq, Eq)]
pub struct Served {
    /// How many sessions there were.
    pub sessions: u32,
    /// How many events were recorded.
    pub records: usize,
}

/// Why a server served nobody, or gives no record.
#[derive(Clone, Copy, Debug, PartialEq, Eq, Error)]
pub enum ServeFault {
    /// Memory ran out.
    #[error("no memory")]
    NoMemory,
    /// A seat could not be given out, or the number of seats or a limit is out of range.
    #[error("no seat")]
    NoSeat,
    /// The port could not be listened on.
    #[error("network fault")]
    Network,
    /// A seat was astray at the end: its last event was not found in the record.
    #[error("session fault")]
    Session,
}

/// Serves so many sessions, 1 to 32, each with a seat of its own, on a port of 127.0.0.1, 1 to
/// 65,535, under these tables; for another number of seats it serves nobody and answers `NoSeat`. Of
/// port 0 the system picks one, and nobody is told which. Each session has a thread of its own, as
/// far as threads can be started; else some begin after others have ended. A session that ends, for
/// whatever reason, leaves its calls open; an accept that fails counts as a session that ended. The
/// faults of memory and seats come before that of the port.
pub fn serve_tables<R: Net<Listener = TcpListener, Stream = TcpStream> + Threads + Wait + Sync>(
    rt: &R,
    alloc: Global,
    tables: Arc<Tables>,
    port: u16,
    seats: u32,
) -> Result<Served, ServeFault>
    ensures served { IfOk result
        (IsServed (opening_of (arc_value tables).commands stated_limits) seats) }
    ensures seats { IsBadCount seats → result ≡ Err ServeFault.NoSeat }
{
    let blank = Blank {
        ledger: std::sync::ledger::Blank::new(seats as u64),
        publisher: publisher::Blank::new(),
    };
    serve::<Brand, R>(rt, alloc, blank, tables, STATED_LIMITS, port, seats)
}

/// The same for a house and limits that the caller picked.
fn serve<
    J: House + Send + Sync,
    R: Net<Listener = TcpListener, Stream = TcpStream> + Threads + Wait + Sync,
>(
    rt: &R,
    alloc: Global,
    blank: Blank,
    tables: Arc<Tables>,
    limits: Limits,
    port: u16,
    seats: u32,
) -> Result<Served, ServeFault>
    requires ledger { (blank.ledger.name ≡ J.name) × (blank.ledger.parts ≡ J.parts) }
    requires parts { (J.all ≡ J.parts) × (seats ≡ J.all) }
    requires publisher { blank.publisher ≡ J.book }
    requires opening { (J.begun ≡ (arc_value tables).commands) × (J.limits ≡ limits) }
    ensures served { IfOk result (IsServed (opening_of J.begun J.limits) seats) }
    ensures seats { are_limits limits ≡ true → IsBadCount seats → result ≡ Err ServeFault.NoSeat }
{
    let desk = match Desk::<J>::open(alloc, blank, tables, limits, seats) {
        Ok(desk) => desk,
        Err(OpenFault::NoMemory) => return Err(ServeFault::NoMemory),
        Err(_) => return Err(ServeFault::NoSeat),
    };
    match serve_seats(rt, alloc, &desk, port, seats) {
        Ok(given) => finish(rt, desk, given, seats),
        Err(fault) => {
            desk.close(rt);
            Err(fault)
        }
    }
}

/// Gives out all seats, and serves a session on each.
fn serve_seats<
    J: House + Send + Sync,
    R: Net<Listener = TcpListener, Stream = TcpStream> + Threads + Wait + Sync,
>(
    rt: &R,
    alloc: Global,
    desk: &Desk<J>,
    port: u16,
    count: u32,
) -> Result<Vec<Seat<J>>, ServeFault> {
    let mut sittings = sittings_at(rt, alloc, desk, count)?;
    // The room for what is handed back, so that nothing can be lacking at the end.
    let mut seats = Vec::new(alloc);
    if seats.reserve(sittings.len()).is_err() {
        return Err(ServeFault::NoMemory);
    }
    let Ok(listener) = TcpListener::bind(rt, SocketAddr::from((Ipv4Addr::LOCALHOST, port))) else {
        return Err(ServeFault::Network);
    };
    serve_sessions(rt, alloc, &listener, sittings.as_mut_slice());
    for sitting in sittings {
        if seats.push(sitting.into_seat()).is_err() {
            return Err(ServeFault::NoMemory);
        }
    }
    Ok(seats)
}

/// So many seats of the desk.
fn sittings_at<'d, J: House, R: Wait>(
    rt: &'d R,
    alloc: Global,
    desk: &'d Desk<J>,
    count: u32,
) -> Result<Vec<Sitting<'d, J, R>>, ServeFault> {
    let mut sittings = Vec::new(alloc);
    for _ in 0..count {
        let Ok(seat) = desk.seat(rt) else {
            return Err(ServeFault::NoSeat);
        };
        if sittings.push(Sitting::new(seat, desk, rt)).is_err() {
            return Err(ServeFault::NoMemory);
        }
    }
    Ok(sittings)
}

/// Serves a session on each of these seats, each in a thread of its own as far as threads can be
/// started.
pub fn serve_sessions<J: House + Send + Sync, R: Threads + Wait + Sync>(
    rt: &R,
    alloc: Global,
    listener: &TcpListener,
    sittings: &mut [Sitting<'_, J, R>],
) {
    if sittings.is_empty() {
        return;
    }
    let count = sittings.len();
    thread::for_each_mut(
        rt,
        sittings,
        count,
        &|_, sitting| serve_next(alloc, listener, sitting),
    );
}

/// Serves the next connection. An accept that fails counts as a session that ended.
fn serve_next<J: House, R: Threads + Wait>(
    alloc: Global,
    listener: &TcpListener,
    sitting: &mut Sitting<'_, J, R>,
) {
    match listener.accept() {
        Ok((stream, _)) => serve_peer(alloc, stream, sitting),
        Err(_) => {}
    }
}

/// Serves one connection to its end. A fault ends this session alone.
fn serve_peer<J: House, R: Threads + Wait>(
    alloc: Global,
    stream: TcpStream,
    sitting: &mut Sitting<'_, J, R>,
) {
    // The last reply of what was read is not kept back.
    let _ = stream.set_nodelay(true);
    let peer = Peer::new(stream);
    let mut reader = Noted::new(PeerReader::of(&peer));
    let mut writer = Noted::new(PeerWriter::of(&peer));
    let _ = whole_session(alloc, &mut reader, &mut writer, sitting);
    let _ = peer.send();
    let _ = peer.shut_down();
}

/// A session whose reader may be called `MOST_TURNS` times: by itself, so that a contract says so.
fn whole_session<R: Source, W: Sink, A: Answerer>(
    alloc: Global,
    reader: &mut R,
    writer: &mut W,
    answerer: &mut A,
) -> Result<u64, SessionFault>
    ensures turns { R.calls reader.old + 4294967295 < 2 ^ 64
        → R.calls reader.new ≤ R.calls reader.old + 4294967295 }
    ensures turns_spent { IfErr result (λ fault. fault ≡ SessionFault.TurnsSpent
        → R.calls reader.old + 4294967295 < 2 ^ 64
        → R.calls reader.new ≡ R.calls reader.old + 4294967295) }
{
    session(alloc, reader, writer, answerer, MOST_TURNS)
}

/// Takes all seats back, and counts the record. If the desk gives none, that is a fault.
fn finish<J: House, R: Wait>(
    rt: &R,
    desk: Desk<J>,
    given: Vec<Seat<J>>,
    sessions: u32,
) -> Result<Served, ServeFault>
    requires { J.all ≡ J.parts }
    ensures served { IfOk result (IsServed (opening_of J.begun J.limits) sessions) }
    ensures theirs { IfOk result (λ served. (history : List PlainEntry)
        × IsTheirs (opening_of J.begun J.limits) given.items history
        × (length history ≡ served.records)) }
{
    match desk.finish(rt, given) {
        Ok(record) => Ok(Served {
            sessions,
            records: record.len(),
        }),
        Err(
            FinishFault {
                kind: _,
                desk,
                seats: _,
            },
        ) => {
            desk.close(rt);
            Err(ServeFault::Session)
        }
    }
}
