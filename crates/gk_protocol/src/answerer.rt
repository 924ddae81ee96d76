//! Who answers requests.

ghost use Rattle.gk_protocol.specs.Hearing.{AnswersInto};

use crate::reply_lines::ReplyLine;
use crate::requests::Request;
use std::alloc::Global;

/// Who answers the requests of a session, as a core does.
pub trait Answerer {
    ghost use Rattle.gk_protocol.specs.declared.requests.Request.{Request};
    ghost use Rattle.gk_protocol.specs.declared.answers.Answer.{Answer};

    /// In the old state the request may get this answer, and the new state is the one after it.
    ghost may_answer: { Self → Request → Answer → Self → Type 0 };

    /// Answers a request, and makes the reply the answer as it is written; an answerer may do that
    /// without making the answer. Memory is taken for a reload's configuration and for a trial; if
    /// there is none, the answer says so.
    fn answer_into(&mut self, alloc: Global, request: Request, reply: &mut ReplyLine)
        ensures { AnswersInto may_answer self.old request reply.new.text self.new };
}
