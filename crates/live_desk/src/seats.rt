//! Seats: who asks the events of a desk, one after another.

ghost use Rattle.std.specs.Prelude.{◌≡◌, ◌<◌, ◌≤◌, ◌+◌, ◌-◌, ◌↔◌, ℕ, slice_get, true, false, vec_len, Some, None, IfSome, IfNone, IfOk, IsSome, MatchResult, All};
ghost use Rattle.std.specs.Arc.{arc_value};
ghost use mathlib.Core.List.{IsPrefix};
ghost use Rattle.rulings.specs.Events.{event_meant, plain, put_in_force, Reloading};
ghost use Rattle.rulings.specs.State.{opening_of};
ghost use Rattle.admission.specs.Answering.{answered, receipt_for, reply_kept};
ghost use Rattle.live_desk.specs.Seats.{all_shares, Asked, IsAstrayIn, IsFound, IsPlanFor, IsPut, IsReceiptOf, IsReloadAnswer, IsReloadOf, IsRouted, IsSnapshotFor, Looks};

use crate::desk::Desk;
use crate::house::House;
use crate::turns::last_stands;
use admission::{
    Event, EventKind, KeptReply, LentEvent, Receipt, Record, ReloadRefusal, Reply, Snapshot,
    receipt_for,
};
use compiler::{Routed, Tables};
use gk_commands::Commands;
use gk_terms::{Dialled, Version};
use publisher::{Lost, Reader};
use std::alloc::{AllocError, Global};
use std::marker::Model;
use std::sync::ledger::{Book, Share};
use std::sync::{Arc, MutexGuard, Wait};

/// One of a desk's seats, which asks events from whichever thread it is in. It keeps its share of
/// the count of recorded events, its last receipt, and its reader of what is published. A contract
/// sees the generations that the reader has seen.
#[derive(Drop)]
pub struct Seat<J: House> {
    pub(crate) share: Share<J>,
    pub(crate) last: Option<Receipt>,
    pub(crate) astray: bool,
    pub(crate) reader: Reader<J>,
    pub(crate) lost: bool,
}

impl<J: House> Model for Seat<J> {
    ghost use Rattle.std.specs.Prelude.{◌≡◌};
    ghost use Rattle.live_desk.specs.Seats.{SeatParts};

    ghost Value = { SeatParts };

    ghost view = { λ s. record {
      share = s.share.amount;
      last = s.last;
      astray = s.astray;
      seen = s.reader.list;
      lost = s.lost;
    } };

    ghost invariant = { λ s. s.share.parts ≡ 1 };
}

impl<J: House> Seat<J> {
    /// What the tables that its reader sees say of the digits, with their version. It waits for
    /// nobody and takes no memory. `Lost` exactly if the seat is lost then: it was before, or its
    /// reader is now.
    pub fn route(&mut self, digits: &Dialled) -> Result<Routed, Lost>
        ensures same { (self.new.share ≡ self.old.share) × (self.new.last ≡ self.old.last)
            × (self.new.astray ≡ self.old.astray) }
        ensures seen { IsPrefix self.old.seen self.new.seen }
        ensures routed { MatchResult result
            (λ r. IsRouted self.new.seen r × (r.dialled ≡ digits.now) × (self.new.lost ≡ false))
            (λ _. self.new.lost ≡ true) }
        ensures lost { self.old.lost ≡ true → self.new.lost ≡ true }
    {
        if self.lost {
            return Err(Lost);
        }
        match self.reader.route(digits) {
            Ok(routed) => Ok(routed),
            Err(Lost) => {
                self.lost = true;
                Err(Lost)
            }
        }
    }

    /// Whether its reader was once not let in, or under the lock gave another version than the one
    /// in force. Then it stays so: `route` is `Lost`, and admissions are planned under the lock.
    pub fn lost(&self) -> bool
        ensures { result ≡ self.now.lost }
    {
        self.lost
    }

    /// Whether its last receipt was once not found in the record under the lock. Then it stays so;
    /// events are answered as before, and snapshots made.
    pub fn astray(&self) -> bool
        ensures { result ≡ self.now.astray }
    {
        self.astray
    }

    /// Looks for its last receipt in the record. If it does not stand there, the seat is astray.
    pub(crate) fn confirm_last(&mut self, log: &Record)
        ensures astray { self.new.astray ≡ false ↔ IsFound log.now.entries self.old }
        ensures same { self.new ≡ record self.old { astray = self.new.astray } }
    {
        if !last_stands(log, &self.last) {
            self.astray = true;
        }
    }

    /// After an event: it is lost if it does not see just what is in force.
    pub(crate) fn see(&mut self, met: bool)
        ensures same { self.new ≡ record self.old { lost = self.new.lost } }
        ensures stays { self.old.lost ≡ true → self.new.lost ≡ true }
        ensures met { self.new.lost ≡ false → met ≡ true }
    {
        self.lost = self.lost || !met;
    }

    /// Enters its recorded event in the ledger.
    pub(crate) fn enter(&mut self, book: &mut Book<J>)
        ensures book { book.new.total ≡ book.old.total + 1 }
        ensures entered { self.new ≡ record self.old { share = self.old.share + 1 } }
    {
        book.add(&mut self.share, 1);
    }

    /// Keeps the receipt of its recorded event. Nobody else sees it, so this is done after the lock
    /// was let go.
    fn keep(&mut self, receipt: Receipt)
        ensures { self.new ≡ record self.old { last = Some receipt } }
    {
        self.last = Some(receipt);
    }

    /// The plan of an admission, made before the lock is taken.
    fn plan(&mut self, event: &LentEvent<'_>) -> Option<Routed>
        ensures same { (self.new.share ≡ self.old.share) × (self.new.last ≡ self.old.last)
            × (self.new.astray ≡ self.old.astray) }
        ensures seen { IsPrefix self.old.seen self.new.seen }
        ensures routed { IfSome result (IsPlanFor (event_meant event.now) self.new.seen) }
        ensures lost { self.old.lost ≡ true → self.new.lost ≡ true }
    {
        match event {
            LentEvent::Admit { digits, .. } => match self.route(digits) {
                Ok(routed) => Some(routed),
                Err(_) => None,
            },
            _ => None,
        }
    }

    /// Answers one event under the desk's lock. Ok and Err are as of `Core::answer`: an event that
    /// was recorded has a receipt, whose number is its place in the record of all seats; any other
    /// leaves the seat's share and last receipt.
    ///
    /// An admission is planned before the lock is taken. Under the lock the last receipt is looked
    /// for in the record, and the seat learns what is published, before the event (in a reload
    /// after it); a plan of another version than the one in force is made anew, and technology
    /// prefixes that gateways gave are added to any plan.
    pub fn ask<R: Wait>(
        &mut self,
        rt: &R,
        desk: &Desk<J>,
        event: Event,
    ) -> Result<(Reply, Receipt), Reply>
        ensures book { MatchResult result
            (λ a. (self.new.share ≡ self.old.share + 1) × (self.new.last ≡ Some a.1))
            (λ _. (self.new.share ≡ self.old.share) × (self.new.last ≡ self.old.last)) }
        ensures names { IfOk result (λ a. IsReceiptOf (plain event) a.0 a.1) }
        ensures astray { self.old.astray ≡ true → self.new.astray ≡ true }
        ensures lost { self.old.lost ≡ true → self.new.lost ≡ true }
        ensures seen { IsPrefix self.old.seen self.new.seen }
        ensures rises { self.new.astray ≡ false
            → IfOk result (λ a. IfSome self.old.last (λ last. last.number < a.1.number)) }
        ensures asked { Asked (opening_of J.begun J.limits) self.old (plain event) result
            self.new }
        ensures put { self.new.lost ≡ false → IsPut (plain event) result self.new.seen }
    {
        match event {
            Event::Reload(tables) => self.put_in_force(rt, desk, tables),
            event => self.answer(rt, desk, &event.lent()),
        }
    }

    /// Answers one event that is lent, and is not a reload, as `ask` does: the reply is kept in
    /// place, and the number of the event's entry is given back if it was recorded. For whoever
    /// answers many events: no event is made, and the reply is copied for the receipt alone.
    pub fn ask_lent<R: Wait>(
        &mut self,
        rt: &R,
        desk: &Desk<J>,
        event: &LentEvent<'_>,
        kept: &mut KeptReply,
    ) -> Option<u32>
        requires { put_in_force (event_meant event.now) ≡ None }
        ensures kept { IsSome kept.new.kept }
        ensures some { IfSome result (λ number. (self.new.share ≡ self.old.share + 1)
            × (self.new.last ≡ Some (receipt_for (event_meant event.now)
            (reply_kept kept.new.kept) number))) }
        ensures none { IfNone result
            ((self.new.share ≡ self.old.share) × (self.new.last ≡ self.old.last)) }
        ensures astray { self.old.astray ≡ true → self.new.astray ≡ true }
        ensures lost { self.old.lost ≡ true → self.new.lost ≡ true }
        ensures seen { IsPrefix self.old.seen self.new.seen }
        ensures rises { self.new.astray ≡ false
            → IfSome result (λ number. IfSome self.old.last (λ last. last.number < number)) }
        ensures asked { Asked (opening_of J.begun J.limits) self.old (event_meant event.now)
            (answered (event_meant event.now) (reply_kept kept.new.kept) result) self.new }
    {
        let routed = self.plan(event);
        let mut room = desk.room.lock(rt);
        let number = room.ask(self, routed.as_ref(), event, kept);
        let _room = MutexGuard::unlock(room);
        if let Some(number) = number {
            self.keep(receipt_for(event, &kept.reply(), number));
        }
        number
    }

    #[tactic(auto, using(crate::proofs::Grows::answered_as))]
    /// The same, with the reply and the receipt as values.
    fn answer<R: Wait>(
        &mut self,
        rt: &R,
        desk: &Desk<J>,
        event: &LentEvent<'_>,
    ) -> Result<(Reply, Receipt), Reply>
        requires { put_in_force (event_meant event.now) ≡ None }
        ensures book { MatchResult result
            (λ a. (self.new.share ≡ self.old.share + 1) × (self.new.last ≡ Some a.1))
            (λ _. (self.new.share ≡ self.old.share) × (self.new.last ≡ self.old.last)) }
        ensures names { IfOk result (λ a. IsReceiptOf (event_meant event.now) a.0 a.1) }
        ensures astray { self.old.astray ≡ true → self.new.astray ≡ true }
        ensures lost { self.old.lost ≡ true → self.new.lost ≡ true }
        ensures seen { IsPrefix self.old.seen self.new.seen }
        ensures rises { self.new.astray ≡ false
            → IfOk result (λ a. IfSome self.old.last (λ last. last.number < a.1.number)) }
        ensures asked { Asked (opening_of J.begun J.limits) self.old (event_meant event.now)
            result self.new }
    {
        let mut kept = KeptReply::none();
        let number = self.ask_lent(rt, desk, event, &mut kept);
        let reply = kept.reply();
        match number {
            Some(number) => Ok((reply, receipt_for(event, &reply, number))),
            None => Err(reply),
        }
    }

    #[tactic(auto, using(crate::proofs::Grows::as_reload))]
    /// Puts these tables in force, whole, as the next version: the event of a reload.
    pub fn put_in_force<R: Wait>(
        &mut self,
        rt: &R,
        desk: &Desk<J>,
        tables: Arc<Tables>,
    ) -> Result<(Reply, Receipt), Reply>
        ensures book { MatchResult result
            (λ a. (self.new.share ≡ self.old.share + 1) × (self.new.last ≡ Some a.1))
            (λ _. (self.new.share ≡ self.old.share) × (self.new.last ≡ self.old.last)) }
        ensures names { IfOk result
            (λ a. IsReceiptOf (Reloading (arc_value tables).commands) a.0 a.1) }
        ensures astray { self.old.astray ≡ true → self.new.astray ≡ true }
        ensures lost { self.old.lost ≡ true → self.new.lost ≡ true }
        ensures seen { IsPrefix self.old.seen self.new.seen }
        ensures rises { self.new.astray ≡ false
            → IfOk result (λ a. IfSome self.old.last (λ last. last.number < a.1.number)) }
        ensures asked { Asked (opening_of J.begun J.limits) self.old
            (Reloading (arc_value tables).commands) result self.new }
        ensures put { self.new.lost ≡ false
            → IsPut (Reloading (arc_value tables).commands) result self.new.seen }
        ensures above { IfOk result (λ a. self.old.share < a.1.number) }
        ensures replied { IsReloadAnswer result }
    {
        let mut room = desk.room.lock(rt);
        let answer = room.reload(rt, self, tables);
        let _room = MutexGuard::unlock(room);
        if let Ok((_, receipt)) = &answer {
            self.keep(*receipt);
        }
        answer
    }

    #[tactic(auto, using(crate::proofs::Grows::told_as, crate::proofs::Grows::refused_as))]
    /// Puts these commands in force, whole, as the next version. They are compiled before the lock
    /// is taken. The refusals are those of `Core::reload`; `NoMemory` also if memory runs out for
    /// the tables, and then nothing was asked under the lock, or for their publication.
    pub fn reload<R: Wait>(
        &mut self,
        rt: &R,
        alloc: Global,
        desk: &Desk<J>,
        commands: Commands,
    ) -> Result<(Version, Receipt), ReloadRefusal>
        ensures book { MatchResult result
            (λ a. (self.new.share ≡ self.old.share + 1) × (self.new.last ≡ Some a.1))
            (λ _. (self.new.share ≡ self.old.share) × (self.new.last ≡ self.old.last)) }
        ensures names { IfOk result (λ a. (a.1.kind ≡ EventKind.Reload) × (a.1.id ≡ None)
            × (a.1.call ≡ None) × (a.1.reply ≡ Reply.Reloaded a.0)) }
        ensures astray { self.old.astray ≡ true → self.new.astray ≡ true }
        ensures lost { self.old.lost ≡ true → self.new.lost ≡ true }
        ensures seen { IsPrefix self.old.seen self.new.seen }
        ensures rises { self.new.astray ≡ false
            → IfOk result (λ a. IfSome self.old.last (λ last. last.number < a.1.number)) }
        ensures above { IfOk result (λ a. self.old.share < a.1.number) }
        ensures asked { IsReloadOf (opening_of J.begun J.limits) self.old commands.commands result
            self.new }
        ensures put { self.new.lost ≡ false → IfOk result (λ a. (0 < a.0)
            × (slice_get self.new.seen (a.0 - 1) ≡ Some commands.commands)) }
    {
        let Ok(tables) = Tables::compile(alloc, commands) else {
            return Err(ReloadRefusal::NoMemory);
        };
        let Ok(tables) = Arc::new(alloc, tables) else {
            return Err(ReloadRefusal::NoMemory);
        };
        match self.put_in_force(rt, desk, tables) {
            Ok((reply, receipt)) => Ok((version_in(&reply), receipt)),
            Err(reply) => Err(refusal_in(&reply)),
        }
    }

    /// The rows and endpoints of what was recorded so far, by whichever seat. Under the lock the
    /// last receipt is looked for in the record, as for an event, so the seat may be astray
    /// afterwards; then the endpoints are copied and the entries shared. The rows and the registry
    /// are made once the lock is let go. `AllocError` if memory runs out.
    pub fn snapshot<R: Wait>(
        &mut self,
        rt: &R,
        alloc: Global,
        desk: &Desk<J>,
    ) -> Result<Snapshot, AllocError>
        ensures shown { IfOk result (IsSnapshotFor (opening_of J.begun J.limits) self.old
            self.new) }
        ensures looks { Looks (opening_of J.begun J.limits) self.old self.new }
    {
        let mut room = desk.room.lock(rt);
        let past = room.past(self);
        let _room = MutexGuard::unlock(room);
        match past {
            Ok(past) => past.snapshot(alloc),
            Err(error) => Err(error),
        }
    }
}

/// The version in the reply to a reload that was recorded.
fn version_in(reply: &Reply) -> Version
    requires { (version : ℕ) × (reply.now ≡ Reply.Reloaded version) }
    ensures { reply.now ≡ Reply.Reloaded result }
{
    match reply {
        Reply::Reloaded { version } => *version,
        _ => unreachable!(),
    }
}

/// Why a reload was refused.
fn refusal_in(reply: &Reply) -> ReloadRefusal
    requires { (reason : ReloadRefusal) × (reply.now ≡ Reply.ReloadRefused reason) }
    ensures { reply.now ≡ Reply.ReloadRefused result }
{
    match reply {
        Reply::ReloadRefused { reason } => *reason,
        _ => unreachable!(),
    }
}

/// Whether the seat is not astray, and its last receipt stands.
fn is_found<J: House>(log: &Record, seat: &Seat<J>) -> bool
    ensures { (result ≡ true) ↔ IsFound log.now.entries seat.now }
{
    !seat.astray && last_stands(log, &seat.last)
}

/// Whether no seat is astray, and the last receipt of each stands.
pub(crate) fn all_found<J: House>(log: &Record, seats: &Vec<Seat<J>>) -> bool
    ensures yes { result ≡ true → All (IsFound log.now.entries) seats.now.items }
    ensures no { result ≡ false → IsAstrayIn log.now.entries seats.now.items }
{
    for seat in seats {
        if !is_found(log, seat) {
            return false;
        }
    }
    true
}

/// Takes back the shares.
pub(crate) fn merge_all<J: House>(rest: &mut Share<J>, seats: Vec<Seat<J>>)
    ensures parts { rest.new.parts ≡ rest.old.parts + vec_len seats }
    ensures amount { rest.new.amount ≡ rest.old.amount + all_shares seats.items }
    ensures apart { 0 < vec_len seats → rest.new.parts ≤ J.parts }
{
    for seat in seats {
        let Seat {
            share,
            last: _,
            astray: _,
            reader: _,
            lost: _,
        } = seat;
        rest.merge(share);
    }
}
