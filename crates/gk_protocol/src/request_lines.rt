//! What one line asks, and the answer to it.

ghost use Rattle.std.specs.Prelude.{◌≡◌};
ghost use Rattle.gk_terms.specs.Text.{words_of};
ghost use Rattle.gk_protocol.specs.RequestFields.{Reads};
ghost use Rattle.gk_protocol.specs.Hearing.{Hears, owner_heard};
ghost use Rattle.gk_protocol.specs.LineOwners.{asking_with};
ghost use Rattle.gk_protocol.specs.Requests as Spec;

use crate::answerer::Answerer;
use crate::call_requests::{admit, change, incoming, release};
use crate::line_owners::LineOwner;
use crate::registrations::{register, unregister};
use crate::reply_lines::ReplyLine;
use crate::request_faults::RequestFault;
use crate::request_fields::{count_field, nothing_after, sequence_field, workers_field};
use gk_terms::limits::MOST_LINE_BYTES;
use gk_terms::words::Words;
use std::alloc::Global;

/// What comes of a line by itself.
#[derive(Clone, Copy, Debug, PartialEq, Eq)]
pub enum Heard {
    /// The line is blank, and gets no answer.
    Blank,
    /// The reply is the line of its answer: also if memory ran out for the options of a
    /// registration.
    Answered,
    /// The next lines belong to what is asked. It is not answered yet.
    Owns {
        /// What is asked with these lines.
        owner: LineOwner,
        /// How many of the next lines belong to it, 0 to 20,000.
        count: u32,
    },
}

#[tactic(auto, unfolding(crate::specs::Requests::asking_of))]
/// Hears a line, whose ending is taken off, and answers the request that stands whole in it. A
/// fault is given back, and leaves the answerer as it was. The reply counts only after `Answered`.
///
/// A line of more than 512 bytes is `LineTooLong`, and an unknown first word `UnknownWord`. Then
/// the fields are read from the left: an absent one is `Missing`, one that cannot be read is its
/// own fault, and a word after the last is `Extra`. A registration may have 16 options `e164=D` and
/// 8 options `tech=P` in any order, counted as written; one more is `BadOption` before its value is
/// looked at, and so is any other word. Memory is taken only for these options, and by the
/// answerer; if there is none for the options, the reply says so, and the answerer is left as it
/// was.
pub fn hear<A: Answerer>(
    alloc: Global,
    line: &[u8],
    answerer: &mut A,
    reply: &mut ReplyLine,
) -> Result<Heard, RequestFault>
    ensures { Hears A.may_answer answerer.old line.now result reply.new.text answerer.new }
{
    if line.len() > MOST_LINE_BYTES {
        return Err(RequestFault::LineTooLong);
    }
    let words = &mut Words::of(line);
    let Some(word) = words.next() else {
        return Ok(Heard::Blank);
    };
    match word {
        b"RRQ" => register(alloc, words, answerer, reply),
        b"CFG" => owns(reload(words)),
        b"TRY" => owns(trial(words)),
        b"URQ" => unregister(alloc, words, answerer, reply),
        b"ARQ" => admit(alloc, words, answerer, reply),
        b"ANS" => incoming(alloc, words, answerer, reply),
        b"BRQ" => change(alloc, words, answerer, reply),
        b"DRQ" => release(alloc, words, answerer, reply),
        _ => Err(RequestFault::UnknownWord),
    }
}

/// What comes of a line to which the next lines belong.
fn owns(read: Result<(LineOwner, u32), RequestFault>) -> Result<Heard, RequestFault>
    ensures { result ≡ owner_heard read }
{
    let (owner, count) = read?;
    Ok(Heard::Owns { owner, count })
}

/// Reads `CFG seq n`, after its first word: what it asks with the next n lines, and n; or its first
/// fault.
fn reload(words: &mut Words<'_>) -> Result<(LineOwner, u32), RequestFault>
    ensures { Reads (Spec.reload_at (words_of words.old)) (λ o. asking_with o.0 o.1) result }
{
    let sequence = sequence_field(words)?;
    let count = nothing_after(count_field(words)?, words)?;
    Ok((LineOwner::Reload { sequence }, count))
}

/// Reads `TRY seq workers n`, after its first word, likewise.
fn trial(words: &mut Words<'_>) -> Result<(LineOwner, u32), RequestFault>
    ensures { Reads (Spec.try_at (words_of words.old)) (λ o. asking_with o.0 o.1) result }
{
    let sequence = sequence_field(words)?;
    let workers = workers_field(words)?;
    let count = nothing_after(count_field(words)?, words)?;
    Ok((LineOwner::Try { sequence, workers }, count))
}
