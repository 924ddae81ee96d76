//! What is replied to an event that lacks something.

ghost use Rattle.std.specs.Prelude.{◌≡◌, IsSome};
ghost use Rattle.rulings.specs.Events.{event_meant};
ghost use Rattle.rulings.specs.Lacks.{reply_without, reload_reason};
ghost use Rattle.admission.specs.Stepping.{HasRefusal};

use rulings::{Lack, LentEvent, Reply, ReplyTaker};

/// Gives the taker the reply to an event that lacks this.
pub(crate) fn refuse<S: ReplyTaker>(event: &LentEvent<'_>, lack: Lack, taker: &mut S)
    requires { IsSome (reply_without (event_meant event.now) lack) }
    ensures reply { HasRefusal S.has (event_meant event.now) lack taker.new }
    ensures same { S.sequence taker.new ≡ S.sequence taker.old }
{
    match &event.reply_without(lack) {
        Some(refusal) => taker.take_reply(refusal),
        None => unreachable!(),
    }
}

/// The reply to a reload that lacks this.
pub(crate) fn reload_refused(lack: Lack) -> Reply
    ensures { result ≡ Reply.ReloadRefused (reload_reason lack) }
{
    Reply::ReloadRefused {
        reason: lack.of_reload(),
    }
}
