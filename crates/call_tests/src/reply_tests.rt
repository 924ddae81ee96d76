//! The replies that say that memory ran out, which no script brings about for each request.

use admission::{
    AdmitRefusal, ChangeRefusal, RegisterRefusal, ReloadRefusal, Reply, UnregisterRefusal,
};
use gk_lines::LineBuffer;
use gk_protocol::answer_lines::show;
use gk_protocol::answers::Answer;
use gk_terms::Name;
use std::test::Fail;

/// Whether the line of this reply to the request 5 is just this, whatever stood in its place.
fn is_shown(reply: Reply, want: &[u8]) -> bool {
    let mut line = LineBuffer::new();
    line.push(b"ERR line\n");
    show(&mut line, &Answer::Reply { sequence: 5, reply });
    line.as_bytes() == want
}

#[test]
fn replies_say_that_memory_ran_out(rt: HostRuntime) -> Result<(), Fail> {
    let (id, call) = (Name::read(b"ta")?, 1001);
    let reason = RegisterRefusal::NoMemory;
    let reply = Reply::RegisterRefused { id, reason };
    assert!(rt; is_shown(reply, b"RRJ 5 ta undefinedReason no-memory\n"));
    let reason = UnregisterRefusal::NoMemory;
    let reply = Reply::UnregisterRefused { id, reason };
    assert!(rt; is_shown(reply, b"URJ 5 ta undefinedReason no-memory\n"));
    let reason = AdmitRefusal::NoMemory;
    let reply = Reply::AdmitRefused { call, reason };
    assert!(rt; is_shown(reply, b"ARJ 5 1001 resourceUnavailable no-memory\n"));
    let reason = ChangeRefusal::NoMemory;
    let reply = Reply::ChangeRefused { call, reason };
    assert!(rt; is_shown(reply, b"BRJ 5 1001 undefinedReason no-memory\n"));
    let reason = ReloadRefusal::NoMemory;
    let reply = Reply::ReloadRefused { reason };
    assert!(rt; is_shown(reply, b"CRJ 5 0 no-memory\n"));
    Ok(())
}
