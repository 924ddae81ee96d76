//! Replies of a core.

use admission::{
    AdmitRefusal, ChangeRefusal, RegisterRefusal, ReloadRefusal, Reply, UnregisterRefusal,
};
use gk_lines::LineBuffer;
use gk_protocol::Answer;
use gk_protocol::answer_lines::show;

/// Whether a reply says that memory ran out.
pub fn lacks_memory(reply: &Reply) -> bool {
    match reply {
        Reply::RegisterRefused { reason, .. } => *reason == RegisterRefusal::NoMemory,
        Reply::UnregisterRefused { reason, .. } => *reason == UnregisterRefusal::NoMemory,
        Reply::AdmitRefused { reason, .. } => *reason == AdmitRefusal::NoMemory,
        Reply::ChangeRefused { reason, .. } => *reason == ChangeRefusal::NoMemory,
        Reply::ReloadRefused { reason } => *reason == ReloadRefusal::NoMemory,
        _ => false,
    }
}

/// Makes it the line of a reply of this number, without a line feed.
pub fn show_reply(line: &mut LineBuffer, number: u32, reply: Reply) {
    let mut shown = LineBuffer::new();
    let sequence = number;
    show(&mut shown, &Answer::Reply { sequence, reply });
    line.begin(shown.content());
}
