//! Sessions of one request each. After a request that lacks memory the state has to be as before,
//! and then it is made again.

use crate::states::State;
use crate::trials::room;
use admission::Core;
use gk_lines::Noted;
use gk_protocol::{TryingCore, session};
use growth_logs::Log;
use std::alloc::Global;
use std::sync::Wait;
use std::thread::Threads;

/// A request, and what it is answered if memory runs out.
#[derive(Clone, Copy)]
pub struct Request {
    name: &'static [u8],
    text: &'static [u8],
    without_memory: &'static [u8],
}

/// The requests, one after another.
const REQUESTS: [Request; 6] = [
    Request {
        name: b"session:RRQ",
        text: b"RRQ 1 GW ga gk-a 10.0.1.1:1720 e164=9123 tech=3#\n",
        without_memory: b"RRJ 1 ga undefinedReason no-memory\n",
    },
    Request {
        name: b"session:ARQ",
        text: b"ARQ 2 ga 1001 9123 640\n",
        without_memory: b"ARJ 2 1001 resourceUnavailable no-memory\n",
    },
    Request {
        name: b"session:ANS",
        text: b"ANS 3 ga 1002 64\n",
        without_memory: b"ARJ 3 1002 resourceUnavailable no-memory\n",
    },
    Request {
        name: b"session:BRQ",
        text: b"BRQ 4 ga 1001 320\n",
        without_memory: b"BRJ 4 1001 undefinedReason no-memory\n",
    },
    Request {
        name: b"session:TRY",
        text: b"TRY 5 1 2\nzone local gk-a example.com\nzone prefix gk-a 9*\n",
        without_memory: b"TRJ 5 0 no-memory\n",
    },
    Request {
        name: b"session:CFG",
        text: b"CFG 6 2\nzone local gk-a example.com\nzone prefix gk-a 9*\n",
        without_memory: b"CRJ 6 0 no-memory\n",
    },
];

/// Requests of which each is the first one of its core, since the first entry of a record makes
/// room for more.
pub const FIRST_REQUESTS: [Request; 2] = [
    Request {
        name: b"session:BRQ",
        text: b"BRQ 7 ga 1001 320\n",
        without_memory: b"BRJ 7 1001 undefinedReason no-memory\n",
    },
    Request {
        name: b"session:URQ",
        text: b"URQ 8 ga\n",
        without_memory: b"URJ 8 ga undefinedReason no-memory\n",
    },
];

/// Makes the requests of a core, each in a session of its own.
pub fn hold_exchanges<R: Threads + Wait>(rt: &R, alloc: Global, core: Core, log: &mut Log) {
    let mut core = core;
    for request in &REQUESTS {
        core = exchange(rt, alloc, core, request, log);
    }
    drop(core);
}

/// Makes one request, says its reply, and gives back the core. If memory is lacking, the state has
/// to be as before, and the request is made again.
pub fn exchange<R: Threads + Wait>(
    rt: &R,
    alloc: Global,
    core: Core,
    request: &Request,
    log: &mut Log,
) -> Core {
    let Some(mut reply) = room(alloc, log) else {
        log.fault(b"room");
        return core;
    };
    let before = State::of(&core);
    let mut core = session_with(rt, alloc, core, request, &mut reply, log);
    if let Some(lacking) = lacking_in(reply.as_slice(), request) {
        log.lacked(lacking);
        if State::of(&core) != before {
            log.fault(request.name);
        }
        core = session_with(rt, alloc, core, request, &mut reply, log);
    }
    log.text(reply.as_slice());
    core
}

/// What a reply says that memory was lacking for: the request, or the thread of a trial, which the
/// system starts, and for which it takes memory too.
fn lacking_in(reply: &[u8], request: &Request) -> Option<&'static [u8]> {
    if reply == request.without_memory {
        return Some(request.name);
    }
    if reply == b"TRJ 5 0 no-thread\n".as_slice() {
        return Some(b"session:thread");
    }
    None
}

/// Holds a session of one request, puts its reply in place of what there was, and gives back the
/// core.
fn session_with<R: Threads + Wait>(
    rt: &R,
    alloc: Global,
    core: Core,
    request: &Request,
    reply: &mut Vec<u8>,
    log: &mut Log,
) -> Core {
    reply.clear();
    let mut core = TryingCore::new(core, rt);
    let mut reader = Noted::new(request.text);
    let ended = session(alloc, &mut reader, &mut Noted::new(reply), &mut core, 9);
    if ended != Ok(1) {
        log.fault(request.name);
    }
    core.into_core()
}
