//! The line of an answer, and the lines after it, as a session writes them.

ghost use Rattle.std.specs.Prelude.{◌≡◌, ◌<◌, ◌++◌, []};
ghost use Rattle.gk_terms.specs.Text.{line_text};
ghost use Rattle.gk_lines.specs.LineBuffer.{ROOM_BYTES, line_of_words, room_of};
ghost use Rattle.rulings.specs.Lent.{ruling_meant};
ghost use Rattle.gk_protocol.specs.ReplyText.{body_bytes};
ghost use Rattle.gk_protocol.specs.Answers as Spec;

use crate::answer_lines::{
    admit_refused, admitted, change_refused, changed, register_refused, registered,
    release_refused, released, reloaded, show, show_reply, unregister_refused, unregistered,
};
use crate::answers::Answer;
use crate::report_texts::ReportText;
use admission::{AdmitRefusal, LentRuling, Reply, ReplyTaker};
use gk_lines::LineBuffer;
use std::marker::Model;

/// The answer to one request after another, as it is written: its first line, and the lines after
/// it, if there are any. A core makes its reply straight into the line, while what the reply names
/// is lent: an answer as a value is large, and is copied each time that it is handed on. A contract
/// sees its bytes, and the sequence number that the next reply repeats, as `ReplyParts`.
#[derive(Drop)]
pub struct ReplyLine {
    line: LineBuffer,
    body: Option<ReportText>,
    sequence: u32,
}

impl Model for ReplyLine {
    ghost use Rattle.std.specs.Prelude.{◌++◌};
    ghost use Rattle.gk_protocol.specs.ReplyText.{ReplyParts, body_bytes};

    ghost Value = { ReplyParts };

    ghost view = { λ r. record { text = r.line ++ body_bytes r.body; sequence = r.sequence } };
}

impl ReplyLine {
    /// A reply without a byte.
    pub fn new() -> ReplyLine
        ensures { result ≡ record { text = []; sequence = 0 } }
    {
        ReplyLine {
            line: LineBuffer::new(),
            body: None,
            sequence: 0,
        }
    }

    /// The bytes of the first line, and those of the lines after it.
    pub fn parts(&self) -> (&[u8], &[u8])
        ensures { result.0.now ++ result.1.now ≡ self.now.text }
    {
        (self.line.as_bytes(), bytes_of(&self.body))
    }

    /// The next reply repeats this sequence number.
    pub fn repeat(&mut self, sequence: u32)
        ensures { self.new ≡ record self.old { sequence = sequence } }
    {
        self.sequence = sequence;
    }

    /// Makes it an answer.
    pub fn show(&mut self, answer: Answer)
        ensures { self.new ≡ record self.old { text = Spec.answer_text_of answer } }
    {
        show(&mut self.line, &answer);
        self.body = body_of(answer);
    }
}

/// The bytes of the lines after the first.
fn bytes_of(body: &Option<ReportText>) -> &[u8]
    ensures { result.now ≡ body_bytes body.now }
{
    match body {
        Some(report) => report.as_bytes(),
        None => &[],
    }
}

/// The lines of an answer after its first.
fn body_of(answer: Answer) -> Option<ReportText>
    ensures { body_bytes result ≡ Spec.answer_body_of answer }
{
    match answer {
        Answer::Tried { report, .. } => Some(report),
        Answer::Reply { .. } => None,
        Answer::Misconfigured { .. } => None,
        Answer::TryRefused { .. } => None,
        Answer::Malformed(_) => None,
    }
}

impl ReplyTaker for ReplyLine {
    ghost use Rattle.std.specs.Prelude.{◌≡◌};
    ghost use Rattle.gk_protocol.specs.declared.answers.Answer.TheVariants as answer;
    ghost use Rattle.gk_protocol.specs.Answers.{answer_text_of};

    ghost has = { λ to reply. to.text ≡ answer_text_of (answer.Reply to.sequence reply) };

    ghost sequence = { λ to. to.sequence };

    fn take_verdict(&mut self, ruling: &LentRuling<'_>) {
        self.body = None;
        show_verdict_line(&mut self.line, self.sequence, ruling);
    }

    fn take_reply(&mut self, reply: &Reply) {
        self.body = None;
        show_reply_line(&mut self.line, self.sequence, reply);
    }
}

#[tactic(auto, using(gk_lines::proofs::LineBufferLemmas::line_in_room))]
/// Makes it the line of a core's reply, with its line feed.
fn show_reply_line(line: &mut LineBuffer, sequence: u32, reply: &Reply)
    ensures { line.new ≡ line_text (Spec.reply_words sequence reply.now) }
{
    show_reply(line, sequence, reply);
    line.push_byte(b'\n');
}

#[tactic(auto, using(gk_lines::proofs::LineBufferLemmas::line_in_room))]
/// Makes it the line of the verdict of a ruling, with its line feed.
fn show_verdict_line(line: &mut LineBuffer, sequence: u32, ruling: &LentRuling<'_>)
    ensures { line.new
        ≡ line_text (Spec.reply_words sequence (ruling_meant ruling.now).verdict) }
{
    show_verdict(line, sequence, ruling);
    line.push_byte(b'\n');
}

/// Makes it the words of the verdict of a ruling.
fn show_verdict(line: &mut LineBuffer, sequence: u32, ruling: &LentRuling<'_>)
    ensures words { line.new
        ≡ line_of_words (Spec.reply_words sequence (ruling_meant ruling.now).verdict) }
    ensures room { room_of (Spec.reply_words sequence (ruling_meant ruling.now).verdict)
        < ROOM_BYTES }
{
    match ruling {
        LentRuling::Registered { id, zone } => registered(line, sequence, id, zone),
        LentRuling::RegisterRefused { id, reason } => {
            register_refused(line, sequence, id, *reason);
        }
        LentRuling::Unregistered { id } => unregistered(line, sequence, id),
        LentRuling::UnregisterRefused { id, reason } => {
            unregister_refused(line, sequence, id, *reason);
        }
        LentRuling::Admitted {
            call,
            units,
            kind,
            name,
            address,
            ..
        } => admitted(line, sequence, *call, *kind, name, address, *units),
        LentRuling::Answering {
            call,
            owner,
            units,
            kind,
            address,
            ..
        } => admitted(line, sequence, *call, *kind, owner, address, *units),
        LentRuling::Repeated {
            call,
            units,
            kind,
            name,
            address,
            ..
        } => admitted(line, sequence, *call, *kind, name, address, *units),
        LentRuling::CallerNotRegistered { call } => {
            admit_refused(line, sequence, *call, &AdmitRefusal::CallerNotRegistered);
        }
        LentRuling::CallOpen { call, .. } => {
            admit_refused(line, sequence, *call, &AdmitRefusal::CallOpen);
        }
        LentRuling::NoRoute { call, refusal, .. } => {
            admit_refused(line, sequence, *call, &AdmitRefusal::NoRoute(*refusal));
        }
        LentRuling::OverLimit { call, over, .. } => {
            admit_refused(line, sequence, *call, &AdmitRefusal::OverLimit(*over));
        }
        LentRuling::Changed { call, units, .. } => changed(line, sequence, *call, *units),
        LentRuling::ChangeRefused { call, reason } => {
            change_refused(line, sequence, *call, reason);
        }
        LentRuling::Released { call, .. } => released(line, sequence, *call),
        LentRuling::ReleaseRefused { call, reason } => {
            release_refused(line, sequence, *call, *reason);
        }
        LentRuling::Reloaded { version } => reloaded(line, sequence, *version),
    }
}
