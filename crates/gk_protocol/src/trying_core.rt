//! A core with the threads to try other configurations with.

ghost use Rattle.std.specs.Prelude.{◌≡◌, None};
ghost use Rattle.gk_protocol.specs.Demands.{asked_event};
ghost use Rattle.gk_protocol.specs.CoreAnswers.{MayAnswer};

use crate::answerer::Answerer;
use crate::answers::Answer;
use crate::reloads::reload;
use crate::reply_lines::ReplyLine;
use crate::requests::Request;
use crate::trials::tried;
use admission::Core;
use std::alloc::Global;
use std::marker::Model;
use std::sync::Wait;
use std::thread::Threads;

/// A core, and the threads by which it tries other configurations. A contract sees the core.
#[derive(Drop)]
pub struct TryingCore<'r, R> {
    core: Core,
    rt: &'r R,
}

impl<'r, R> Model for TryingCore<'r, R> {
    ghost use Rattle.decision_record.specs.History.{CoreParts};

    ghost Value = { CoreParts };

    ghost view = { λ t. t.core };
}

impl<'r, R> TryingCore<'r, R> {
    /// This core, with the threads of this handle.
    pub fn new(core: Core, rt: &'r R) -> TryingCore<'r, R>
        ensures { result ≡ core }
    {
        TryingCore { core, rt }
    }

    /// The core by itself.
    pub fn into_core(self) -> Core
        ensures { result ≡ self.entry }
    {
        self.core
    }
}

impl<R: Threads + Wait> TryingCore<'_, R> {
    /// Answers a request whose lines say what it asks for.
    fn answer_lines(&mut self, alloc: Global, request: &mut Request) -> Answer
        requires { asked_event request.old ≡ None }
        ensures { MayAnswer self.old request.old result self.new }
    {
        match request {
            Request::Reload { sequence, lines } => {
                reload(&mut self.core, alloc, *sequence, lines)
            }
            Request::Try {
                sequence,
                workers,
                lines,
            } => tried(self.rt, alloc, &self.core, *sequence, *workers, lines),
            _ => unreachable!(),
        }
    }
}

impl<R: Threads + Wait> Answerer for TryingCore<'_, R> {
    ghost may_answer = { MayAnswer };

    fn answer_into(&mut self, alloc: Global, mut request: Request, reply: &mut ReplyLine) {
        if let Some(event) = &request.event() {
            reply.repeat(request.sequence());
            let _number = self.core.step(None, event, reply);
            return;
        }
        reply.show(self.answer_lines(alloc, &mut request));
    }
}
