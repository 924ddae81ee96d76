//! Two clients of one desk.

use crate::desks::{Steps, opened};
use admission::STATED_LIMITS;
use live_desk::{Desk, House};
use seat_sessions::{Sitting, serve_sessions};
use std::alloc::Global;
use std::io::{Read, Write};
use std::net::{Net, Shutdown, TcpListener, TcpStream};
use std::sync::Wait;
use std::thread::{Threads, join};

const TEXT: &[u8] = b"zone local gk-a d\nzone remote gk-x d 10.9.0.1\nzone prefix gk-x 9*\n";

/// What the first client asks, and what it is to get.
const FIRST: &[u8] = b"RRQ 1 TERM ta gk-a 10.0.1.1:1720\nARQ 2 ta 1001 9123 640\n";

const FIRST_REPLIES: &[u8] = b"RCF 1 ta gk-a\nACF 2 1001 ZONE gk-x 10.9.0.1:1719 640\n";

/// What the second one asks once the first has gone, and what it is to get: the call is open still.
const SECOND: &[u8] = b"ARQ 1 ta 1001 9123 640\nDRQ 2 ta 1001\n";

const SECOND_REPLIES: &[u8] = b"ARJ 1 1001 undefinedReason call-open\nDCF 2 1001\n";

#[test]
fn two_clients_ask_one_desk(rt: HostRuntime) {
    assert!(&rt; opened(&rt, rt.alloc(), TEXT, STATED_LIMITS, 2, Steps::Clients) == Some(Ok(true)));
}

/// Whether two clients get their replies on two seats of this desk, while they ask in another
/// thread.
pub(crate) fn both_are_replied<
    J: House + Send + Sync,
    R: Net<Listener = TcpListener, Stream = TcpStream> + Threads + Wait + Sync,
>(rt: &R, alloc: Global, desk: &Desk<J>) -> bool {
    let mut sittings = sittings_at(rt, alloc, desk);
    sittings.len() == 2 && are_served(rt, alloc, sittings.as_mut_slice())
}

/// Two sittings at the desk, if it has the seats.
fn sittings_at<'d, J: House, R: Wait>(
    rt: &'d R,
    alloc: Global,
    desk: &'d Desk<J>,
) -> Vec<Sitting<'d, J, R>> {
    let mut sittings = Vec::new(alloc);
    for _ in 0..2 {
        if let Ok(seat) = desk.seat(rt) {
            let _kept = sittings.push(Sitting::new(seat, desk, rt));
        }
    }
    sittings
}

/// Whether both clients get their replies from these sittings.
fn are_served<
    J: House + Send + Sync,
    R: Net<Listener = TcpListener, Stream = TcpStream> + Threads + Wait + Sync,
>(rt: &R, alloc: Global, sittings: &mut [Sitting<'_, J, R>]) -> bool {
    let Ok(listener) = TcpListener::bind(rt, "127.0.0.1:0") else {
        return false;
    };
    let Ok(address) = listener.local_addr() else {
        return false;
    };
    let port = address.port();
    let ((), replied) = join(
        rt,
        || serve_sessions(rt, alloc, &listener, sittings),
        || ask_both(rt, alloc, port),
    );
    replied == Some((true, true))
}

/// Both clients connect; then the first one asks and goes, and then the second one asks. Whether
/// each of them got its replies.
fn ask_both<R: Net<Stream = TcpStream>>(rt: &R, alloc: Global, port: u16) -> Option<(bool, bool)> {
    let first = TcpStream::connect(rt, ("127.0.0.1", port)).ok()?;
    let second = TcpStream::connect(rt, ("127.0.0.1", port)).ok()?;
    let first = is_replied(alloc, &first, FIRST, FIRST_REPLIES)?;
    let second = is_replied(alloc, &second, SECOND, SECOND_REPLIES)?;
    Some((first, second))
}

/// Whether a client that sends this, and then no more, gets just these replies.
fn is_replied(alloc: Global, stream: &TcpStream, asked: &[u8], replies: &[u8]) -> Option<bool> {
    let mut stream = stream;
    stream.write_all(asked).ok()?;
    stream.shutdown(Shutdown::Write).ok()?;
    let mut got = Vec::new(alloc);
    let _count = stream.read_to_end(&mut got).ok()?;
    Some(got.as_slice() == replies)
}
