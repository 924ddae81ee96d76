//! How a core answers an event with a receipt.

ghost use Rattle.std.specs.Prelude.{◌≡◌, None, IfSome};
ghost use Rattle.std.specs.Option.{option_copied};
ghost use Rattle.rulings.specs.Events.{event_meant, put_in_force};
ghost use Rattle.rulings.specs.declared.events.EventKind.TheVariants as EventKind;
ghost use Rattle.decision_record.specs.History.{state_of, Steps};
ghost use Rattle.admission.specs.Answering as Spec;
ghost use Rattle.admission.specs.Answering.{IsRoutedFor};

use crate::cores::Core;
use compiler::Routed;
use decision_record::Receipt;
use rulings::{EventKind, KeptReply, LentEvent, Reply};

impl Core {
    #[tactic(auto, using(crate::proofs::AnsweringLemmas::answered_as))]
    /// Answers an event that is lent, and is not a reload, as `answer` does. An admission is planned
    /// as by `step`.
    pub(crate) fn answer_lent(
        &mut self,
        routed: Option<&Routed>,
        event: &LentEvent<'_>,
    ) -> Result<(Reply, Receipt), Reply>
        requires planned { IfSome (option_copied routed)
            (IsRoutedFor (state_of self.old) (event_meant event.now)) }
        requires other { put_in_force (event_meant event.now) ≡ None }
        ensures { Steps self.old (event_meant event.now) result self.new }
    {
        let mut kept = KeptReply::none();
        let number = self.step(routed, event, &mut kept);
        let reply = kept.reply();
        match number {
            Some(number) => Ok((reply, receipt_for(event, &reply, number))),
            None => Err(reply),
        }
    }
}

/// The receipt of an event that is lent, with this reply, if its entry has this number.
pub fn receipt_for(event: &LentEvent<'_>, reply: &Reply, number: u32) -> Receipt
    ensures { result ≡ Spec.receipt_for (event_meant event.now) reply.now number }
{
    match event {
        LentEvent::Register(endpoint) => Receipt {
            number,
            kind: EventKind::Registration,
            id: Some(*endpoint.id()),
            call: None,
            reply: *reply,
        },
        LentEvent::Unregister { id } => Receipt {
            number,
            kind: EventKind::Unregistration,
            id: Some(**id),
            call: None,
            reply: *reply,
        },
        LentEvent::Admit { id, call, .. } => Receipt {
            number,
            kind: EventKind::Admission,
            id: Some(**id),
            call: Some(*call),
            reply: *reply,
        },
        LentEvent::Incoming { id, call, .. } => Receipt {
            number,
            kind: EventKind::Incoming,
            id: Some(**id),
            call: Some(*call),
            reply: *reply,
        },
        LentEvent::Change { id, call, .. } => Receipt {
            number,
            kind: EventKind::BandwidthChange,
            id: Some(**id),
            call: Some(*call),
            reply: *reply,
        },
        LentEvent::Release { id, call } => Receipt {
            number,
            kind: EventKind::Release,
            id: Some(**id),
            call: Some(*call),
            reply: *reply,
        },
        LentEvent::Reload(_) => reload_receipt(reply, number),
    }
}

/// The reply in what a core answered, whether or not the event was recorded.
pub fn reply_in(answer: &Result<(Reply, Receipt), Reply>) -> Reply
    ensures { result ≡ Spec.reply_in answer.now }
{
    match answer {
        Ok((reply, _)) => *reply,
        Err(reply) => *reply,
    }
}

/// The receipt of a reload with this reply, if its entry has this number.
pub(crate) fn reload_receipt(reply: &Reply, number: u32) -> Receipt
    ensures { result ≡ record {
      number = number;
      kind = EventKind.Reload;
      id = None;
      call = None;
      reply = reply.now;
    } }
{
    Receipt {
        number,
        kind: EventKind::Reload,
        id: None,
        call: None,
        reply: *reply,
    }
}
