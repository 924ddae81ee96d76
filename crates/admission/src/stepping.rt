//! One step of a core: the ruling on an event, and then its entry and its effect.

ghost use Rattle.std.specs.Prelude.{◌≡◌, true, false, None, IfSome, IfNone, IsSome};
ghost use Rattle.std.specs.Arc.{arc_value};
ghost use Rattle.std.specs.Option.{option_copied};
ghost use Rattle.rulings.specs.Events.{event_meant, put_in_force, Reloading};
ghost use Rattle.rulings.specs.Lent.{IsPlanOf};
ghost use Rattle.rulings.specs.Ruling.{ruling_of};
ghost use Rattle.rulings.specs.Step.{step};
ghost use Rattle.decision_record.specs.History.{state_of};
ghost use Rattle.admission.specs.Answering.{IsRoutedFor};
ghost use Rattle.admission.specs.Stepping.{StepsInto};

use crate::cores::Core;
use crate::refusing::{refuse, reload_refused};
use crate::settling::{places_reserved, prepare, settle};
use compiler::{Plan, Routed, Tables};
use decision_record::RELOAD_BYTES;
use rulings::{Effect, Lack, LentEvent, Reply, ReplyTaker};
use std::sync::Arc;

impl Core {
    /// Answers an event that is lent, and is not a reload, as `answer` does, for whoever answers
    /// many: the reply goes into a taker, and the number of the event's entry is given back if it
    /// was recorded, from which its receipt can be made. Of a ruling that is recorded no reply is
    /// made but what the taker makes of it. An admission is planned by the tables in force, unless
    /// its digits were routed under their version, and by the technology prefixes that gateways
    /// gave.
    ///
    /// The entry is written before the effect is carried out, since the ruling is lent from what
    /// that changes.
    pub fn step<S: ReplyTaker>(
        &mut self,
        routed: Option<&Routed>,
        event: &LentEvent<'_>,
        taker: &mut S,
    ) -> Option<u32>
        requires planned { IfSome (option_copied routed)
            (IsRoutedFor (state_of self.old) (event_meant event.now)) }
        requires other { put_in_force (event_meant event.now) ≡ None }
        ensures step { StepsInto S.has self.old (event_meant event.now) taker.new result
            self.new }
        ensures same { S.sequence taker.new ≡ S.sequence taker.old }
    {
        let planned = self.plan_in_force(routed, event);
        let ruling = &self.machine.ruling(self.history.tables(), planned, event);
        if let Some(lack) = self.machine.lack(event, ruling) {
            refuse(event, lack, taker);
            return None;
        }
        taker.take_verdict(ruling);
        if !ruling.is_recorded() {
            return None;
        }
        let effect = &ruling.effect();
        let written = self.draft.write(event, ruling);
        let reserved = places_reserved(self.reserved);
        match settle(
            &mut self.history,
            &mut self.machine,
            &self.draft,
            written,
            event,
            effect,
            reserved,
        ) {
            Ok(()) => {
                self.reserved = false;
                Some(self.machine.records())
            }
            Err(_) => {
                refuse(event, Lack::Memory, taker);
                None
            }
        }
    }

    #[tactic(auto, using(crate::proofs::SteppingLemmas::planned_for))]
    /// The plan that was made of an admission's digits, if that was under the version in force.
    fn plan_in_force<'r>(
        &self,
        routed: Option<&'r Routed>,
        event: &LentEvent<'_>,
    ) -> Option<&'r Plan>
        requires { IfSome (option_copied routed)
            (IsRoutedFor (state_of self.now) (event_meant event.now)) }
        ensures { IfSome (option_copied result)
            (IsPlanOf (state_of self.now).commands (event_meant event.now)) }
    {
        // Only the contract speaks of the event.
        let _ = event;
        match routed {
            Some(routed) if routed.version == self.version() => Some(&routed.plan),
            _ => None,
        }
    }

    /// Steps by a reload to these tables: the reply goes into a taker. If it was recorded, the
    /// record has the tables, and the number of the entry is given back.
    pub(crate) fn step_reload<S: ReplyTaker>(
        &mut self,
        tables: Arc<Tables>,
        taker: &mut S,
    ) -> Option<u32>
        ensures step { StepsInto S.has self.old (Reloading (arc_value tables).commands) taker.new
            result self.new }
        ensures reserved { self.old.reserved ≡ true → IfNone result
            ((step (state_of self.old) (Reloading (arc_value tables).commands)).recorded ≡ false) }
    {
        let ruling = &self.machine.reload();
        if let Some(lack) = self.machine.reload_lack(ruling) {
            taker.take_reply(&reload_refused(lack));
            return None;
        }
        let effect = &ruling.effect();
        let reply = &ruling.verdict();
        self.enter_reload(tables, effect, reply, taker)
    }

    /// Records a reload that lacks neither a limit nor a place, and puts its tables in force. If
    /// memory runs out, the reply says so in place of the verdict.
    fn enter_reload<S: ReplyTaker>(
        &mut self,
        tables: Arc<Tables>,
        effect: &Effect,
        reply: &Reply,
        taker: &mut S,
    ) -> Option<u32>
        requires verdict { reply.now ≡ (ruling_of (state_of self.old)
            (Reloading (arc_value tables).commands)).verdict }
        requires effect { effect.now ≡ (ruling_of (state_of self.old)
            (Reloading (arc_value tables).commands)).effect }
        requires recorded { (step (state_of self.old)
            (Reloading (arc_value tables).commands)).recorded ≡ true }
        ensures step { StepsInto S.has self.old (Reloading (arc_value tables).commands) taker.new
            result self.new }
        ensures reserved { self.old.reserved ≡ true → IsSome result }
    {
        let event = &LentEvent::Reload(&tables);
        event.is_of_an_accepted_configuration();
        let reserved = places_reserved(self.reserved);
        match prepare(
            &mut self.history,
            &mut self.machine,
            event,
            effect,
            reserved,
            RELOAD_BYTES,
        ) {
            Ok(()) => {
                self.reserved = false;
                let number = self.machine.records();
                self.history.push_reload(tables, self.machine.version());
                taker.take_reply(reply);
                Some(number)
            }
            Err(_) => {
                taker.take_reply(&reload_refused(Lack::Memory));
                None
            }
        }
    }
}
