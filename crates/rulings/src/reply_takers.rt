//! Who takes a reply.

ghost use Rattle.std.specs.Prelude.{◌≡◌, IsSome, Some, None};
ghost use Rattle.rulings.specs.Lent.{ruling_meant};

use crate::lent_rulings::LentRuling;
use crate::replies::Reply;

/// Takes the reply to an event, in the form in which it is wanted: as a value, or as a line. A
/// reply is large, so a ruling is handed over while what it names is lent, and no reply is made
/// that nobody keeps.
pub trait ReplyTaker {
    ghost use Rattle.std.specs.Prelude.{ℕ};
    ghost use Rattle.rulings.specs.declared.replies.Reply.{Reply};

    /// What it has is this reply, in the sense of who takes it. Of a taker that could have several
    /// at once, a contract says no more than that one of them is a reply that may be given.
    ghost has: { Self → Reply → Type 0 };

    /// The sequence number of the request that is replied to. It stays.
    ghost sequence: { Self → ℕ };

    /// Takes the verdict of a ruling, in place of what it had.
    fn take_verdict(&mut self, ruling: &LentRuling<'_>)
        ensures taken { has self.new (ruling_meant ruling.now).verdict }
        ensures same { sequence self.new ≡ sequence self.old };

    /// Takes a reply, in place of what it had.
    fn take_reply(&mut self, reply: &Reply)
        ensures taken { has self.new reply.now }
        ensures same { sequence self.new ≡ sequence self.old };
}

/// Keeps the reply as a value, if it was given one.
#[derive(Clone, Copy)]
pub struct KeptReply {
    kept: Option<Reply>,
}

impl KeptReply {
    /// No reply.
    pub fn none() -> KeptReply
        ensures { result.kept ≡ None }
    {
        KeptReply { kept: None }
    }

    /// The reply that it was given.
    pub fn reply(&self) -> Reply
        requires { IsSome self.now.kept }
        ensures { self.now.kept ≡ Some result }
    {
        match &self.kept {
            Some(reply) => *reply,
            None => unreachable!(),
        }
    }
}

impl ReplyTaker for KeptReply {
    ghost has = { λ taker reply. taker.kept ≡ Some reply };

    ghost sequence = { λ _. 0 };

    fn take_verdict(&mut self, ruling: &LentRuling<'_>) {
        self.kept = Some(ruling.verdict());
    }

    fn take_reply(&mut self, reply: &Reply) {
        self.kept = Some(*reply);
    }
}
