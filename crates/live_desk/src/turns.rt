//! What is done under the lock for one event: what a reader learns, whether a plan that was made
//! outside is used, and the answer.

ghost use Rattle.std.specs.Prelude.{◌≡◌, ◌+◌, ◌↔◌, true, length, Some, None, IfSome, IfOk, IsSome};
ghost use Rattle.std.specs.Arc.{arc_value};
ghost use Rattle.std.specs.Option.{option_copied};
ghost use mathlib.Core.List.{IsPrefix};
ghost use Rattle.rulings.specs.Events.{event_meant, put_in_force, Reloading};
ghost use Rattle.decision_record.specs.History.{generations, Steps};
ghost use Rattle.admission.specs.Answering.{answered, reply_kept};
ghost use Rattle.live_desk.specs.Seats.{IsPlanFor, IsPut, IsReceiptOf, LastStands};

use crate::live::Live;
use admission::{KeptReply, LentEvent, Receipt, Record, Reply};
use compiler::{Routed, Tables};
use publisher::{Imprint, Reader};
use std::sync::{Arc, Wait};

/// Whether the receipt, if there is one, stands at its number.
pub(crate) fn last_stands(log: &Record, last: &Option<Receipt>) -> bool
    ensures { (result ≡ true) ↔ LastStands log.now.entries last.now }
{
    match last {
        None => true,
        Some(receipt) => log.stands(receipt),
    }
}

#[tactic(auto, using(crate::proofs::Fronts::met))]
/// Tells the reader of all generations, and says whether it sees just those.
pub(crate) fn meet<J: Imprint>(live: &mut Live<J>, reader: &mut Reader<J>) -> bool
    ensures same { live.new ≡ live.old }
    ensures seen { IsPrefix reader.old.list reader.new.list }
    ensures met { result ≡ true → reader.new.list ≡ generations live.old }
{
    let told = live.tell();
    reader.learn(told);
    match reader.version() {
        Ok(version) => version == live.version(),
        Err(_) => false,
    }
}

#[tactic(auto, using(crate::proofs::Fronts::met_behind, crate::proofs::Grows::numbered_by))]
/// Answers an event that is lent, and is not a reload, and says whether the reader sees just the
/// generations in force. A plan that was made outside is used only if it does.
pub(crate) fn turn<J: Imprint>(
    live: &mut Live<J>,
    reader: &mut Reader<J>,
    routed: Option<&Routed>,
    event: &LentEvent<'_>,
    kept: &mut KeptReply,
) -> (Option<u32>, bool)
    requires planned { IfSome (option_copied routed)
        (IsPlanFor (event_meant event.now) reader.old.list) }
    requires other { put_in_force (event_meant event.now) ≡ None }
    ensures kept { IsSome kept.new.kept }
    ensures step { Steps live.old (event_meant event.now)
        (answered (event_meant event.now) (reply_kept kept.new.kept) result.0) live.new }
    ensures seen { IsPrefix reader.old.list reader.new.list }
    ensures met { result.1 ≡ true → reader.new.list ≡ generations live.new }
    ensures number { IfSome result.0 (λ number. number ≡ length live.old.entries + 1) }
{
    let met = meet(live, reader);
    let usable = if met { routed } else { None };
    let number = live.step(usable, event, kept);
    (number, met)
}

#[tactic(auto, using(crate::proofs::Grows::named, crate::proofs::Grows::numbered))]
/// Puts these tables in force, and says whether the reader sees just the generations in force then.
pub(crate) fn reload_turn<J: Imprint, R: Wait>(
    rt: &R,
    live: &mut Live<J>,
    reader: &mut Reader<J>,
    tables: Arc<Tables>,
) -> (Result<(Reply, Receipt), Reply>, bool)
    ensures step { Steps live.old (Reloading (arc_value tables).commands) result.0 live.new }
    ensures seen { IsPrefix reader.old.list reader.new.list }
    ensures met { result.1 ≡ true → reader.new.list ≡ generations live.new }
    ensures put { IsPut (Reloading (arc_value tables).commands) result.0 (generations live.new) }
    ensures names { IfOk result.0
        (λ a. IsReceiptOf (Reloading (arc_value tables).commands) a.0 a.1) }
    ensures number { IfOk result.0 (λ a. a.1.number ≡ length live.old.entries + 1) }
{
    let answer = live.reload(rt, tables);
    let met = meet(live, reader);
    (answer, met)
}
