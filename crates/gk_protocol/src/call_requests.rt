//! Requests about calls: admissions, `ARQ`, answers, `ANS`, bandwidth changes, `BRQ`, and releases,
//! `DRQ`.

ghost use Rattle.std.specs.Prelude.{None};
ghost use Rattle.gk_terms.specs.Text.{words_of};
ghost use Rattle.gk_protocol.specs.RequestFields.{Reads};
ghost use Rattle.gk_protocol.specs.Hearing.{HearsRequest};
ghost use Rattle.gk_protocol.specs.Requests as Spec;

use crate::answerer::Answerer;
use crate::reply_lines::ReplyLine;
use crate::request_faults::RequestFault;
use crate::request_fields::{call_field, nothing_after, sequence_field, units_field};
use crate::request_lines::Heard;
use crate::requests::Request;
use gk_terms::fields::{dialled_field, name_field};
use gk_terms::words::Words;
use gk_terms::{Dialled, Name, Units};
use std::alloc::Global;

/// Reads `ARQ seq id call digits units`, after its first word: its fields, or its first fault.
fn admission(words: &mut Words<'_>) -> Result<(u32, Name, u32, Dialled, Units), RequestFault>
    ensures { Reads (Spec.admit_at (words_of words.old))
        (λ a. Request.Admit a.0 a.1 a.2 a.3 a.4) result }
{
    let sequence = sequence_field(words)?;
    let id = name_field(words, RequestFault::BadName)?;
    let call = call_field(words)?;
    let digits = dialled_field(words, RequestFault::BadDigits)?;
    let units = nothing_after(units_field(words)?, words)?;
    Ok((sequence, id, call, digits, units))
}

/// Reads `ANS seq id call units` or `BRQ seq id call units`, after its first word: its fields, or its
/// first fault.
fn bandwidth_of_call(words: &mut Words<'_>) -> Result<(u32, Name, u32, Units), RequestFault>
    ensures incoming { Reads (Spec.incoming_at (words_of words.old))
        (λ c. Request.Incoming c.0 c.1 c.2 c.3) result }
    ensures change { Reads (Spec.change_at (words_of words.old))
        (λ c. Request.Change c.0 c.1 c.2 c.3) result }
{
    let sequence = sequence_field(words)?;
    let id = name_field(words, RequestFault::BadName)?;
    let call = call_field(words)?;
    let units = units_field(words)?;
    nothing_after((), words)?;
    Ok((sequence, id, call, units))
}

/// Reads `DRQ seq id call`, after its first word: its fields, or its first fault.
fn release_of_call(words: &mut Words<'_>) -> Result<(u32, Name, u32), RequestFault>
    ensures { Reads (Spec.release_at (words_of words.old)) (λ r. Request.Release r.0 r.1 r.2)
        result }
{
    let sequence = sequence_field(words)?;
    let id = name_field(words, RequestFault::BadName)?;
    let call = nothing_after(call_field(words)?, words)?;
    Ok((sequence, id, call))
}

/// Answers `ARQ`, after its first word, or gives back its first fault.
pub(crate) fn admit<A: Answerer>(
    alloc: Global,
    words: &mut Words<'_>,
    answerer: &mut A,
    reply: &mut ReplyLine,
) -> Result<Heard, RequestFault>
    ensures { HearsRequest A.may_answer answerer.old (Spec.admit_at (words_of words.old)) None
        result reply.new.text answerer.new }
{
    let (sequence, id, call, digits, units) = admission(words)?;
    let request = Request::Admit {
        sequence,
        id,
        call,
        digits,
        units,
    };
    answerer.answer_into(alloc, request, reply);
    Ok(Heard::Answered)
}

/// Answers `ANS`, after its first word, or gives back its first fault.
pub(crate) fn incoming<A: Answerer>(
    alloc: Global,
    words: &mut Words<'_>,
    answerer: &mut A,
    reply: &mut ReplyLine,
) -> Result<Heard, RequestFault>
    ensures { HearsRequest A.may_answer answerer.old (Spec.incoming_at (words_of words.old)) None
        result reply.new.text answerer.new }
{
    let (sequence, id, call, units) = bandwidth_of_call(words)?;
    let request = Request::Incoming {
        sequence,
        id,
        call,
        units,
    };
    answerer.answer_into(alloc, request, reply);
    Ok(Heard::Answered)
}

/// Answers `BRQ`, after its first word, or gives back its first fault.
pub(crate) fn change<A: Answerer>(
    alloc: Global,
    words: &mut Words<'_>,
    answerer: &mut A,
    reply: &mut ReplyLine,
) -> Result<Heard, RequestFault>
    ensures { HearsRequest A.may_answer answerer.old (Spec.change_at (words_of words.old)) None
        result reply.new.text answerer.new }
{
    let (sequence, id, call, units) = bandwidth_of_call(words)?;
    let request = Request::Change {
        sequence,
        id,
        call,
        units,
    };
    answerer.answer_into(alloc, request, reply);
    Ok(Heard::Answered)
}

/// Answers `DRQ`, after its first word, or gives back its first fault.
pub(crate) fn release<A: Answerer>(
    alloc: Global,
    words: &mut Words<'_>,
    answerer: &mut A,
    reply: &mut ReplyLine,
) -> Result<Heard, RequestFault>
    ensures { HearsRequest A.may_answer answerer.old (Spec.release_at (words_of words.old)) None
        result reply.new.text answerer.new }
{
    let (sequence, id, call) = release_of_call(words)?;
    let request = Request::Release { sequence, id, call };
    answerer.answer_into(alloc, request, reply);
    Ok(Heard::Answered)
}
