//! What lies under a desk's lock.

ghost use Rattle.std.specs.Prelude.{◌≡◌, ◌<◌, ◌≤◌, ◌+◌, ◌↔◌, [], true, false, length, vec_len, Some, None, IfSome, IfNone, IfOk, IfErr, IsSome, MatchResult, All};
ghost use Rattle.std.specs.Arc.{arc_value};
ghost use Rattle.std.specs.Option.{option_copied};
ghost use mathlib.Core.List.{IsPrefix};
ghost use Rattle.rulings.specs.Events.{event_meant, put_in_force, Reloading};
ghost use Rattle.rulings.specs.State.{opening_of};
ghost use Rattle.decision_record.specs.History.{generations, Steps};
ghost use Rattle.admission.specs.Answering.{answered, reply_kept};
ghost use Rattle.live_desk.specs.Seats.{Asked, held, IsAstrayIn, IsFound, IsLawful, IsPlanFor, IsPut, IsReceiptOf, IsTheirs, unreserved};

use crate::house::House;
use crate::live::Live;
use crate::seats::{Seat, all_found, merge_all};
use crate::turns::{reload_turn, turn};
use admission::{KeptReply, LentEvent, PastCore, Receipt, Record, Reply};
use compiler::{Routed, Tables};
use gk_terms::Version;
use publisher::Told;
use std::alloc::AllocError;
use std::marker::Model;
use std::sync::ledger::{Blank, Book, Share};
use std::sync::{Arc, Wait};
use thiserror::Error;

/// Why a desk gives no record. They are tried in this order.
#[derive(Clone, Copy, Debug, PartialEq, Eq, Error)]
pub enum FinishKind {
    /// The seats handed in are not as many as were given out.
    #[error("seats missing")]
    SeatsMissing,
    /// A seat is astray, or its last receipt does not stand in the record.
    #[error("a seat is astray")]
    Astray,
}

/// A core that publishes, the book of its recorded events, and how many seats were given out of how
/// many. `rest` is the ledger's share of the seats that were not given out yet.
pub struct Room<J: House> {
    live: Live<J>,
    book: Book<J>,
    rest: Share<J>,
    given: u32,
    most: u32,
}

impl<J: House> Model for Room<J> {
    ghost use Rattle.std.specs.Prelude.{◌≡◌, ◌+◌, false, length};
    ghost use Rattle.rulings.specs.State.{opening_of};
    ghost use Rattle.live_desk.specs.Seats.{RoomParts};

    ghost Value = { RoomParts };

    ghost view = { λ r. record {
      entries = r.live.entries;
      booked = r.book.total;
      given = r.given;
      most = r.most;
    } };

    ghost invariant = { λ r. (r.live.opening ≡ opening_of J.begun J.limits)
        × (r.live.reserved ≡ false)
        × (r.book.total ≡ length r.live.entries) × (r.rest.amount ≡ 0)
        × (r.rest.parts + r.given ≡ J.all) × (r.most ≡ J.all) };
}

impl<J: House> Room<J> {
    /// A core that nothing was asked of yet, with so many seats to give out.
    pub fn new(live: Live<J>, blank: Blank, seats: u32) -> Room<J>
        requires name { blank.name ≡ J.name }
        requires parts { (blank.parts ≡ J.parts) × (J.all ≡ J.parts) }
        requires seats { seats ≡ J.all }
        requires live { live ≡ held (opening_of J.begun J.limits) [] }
        ensures { result ≡ record { entries = []; booked = 0; given = 0; most = seats } }
    {
        let (book, rest) = blank.open::<J>();
        Room {
            live,
            book,
            rest,
            given: 0,
            most: seats,
        }
    }

    /// What holds whenever the lock is taken.
    pub fn look(&self) -> (&Record, Version)
        ensures entries { result.0.now.entries ≡ self.now.entries }
        ensures lawful { IsLawful (opening_of J.begun J.limits) self.now.entries }
        ensures booked { self.now.booked ≡ length self.now.entries }
        ensures version { result.1
            ≡ length (generations (held (opening_of J.begun J.limits) self.now.entries)) }
        ensures given { self.now.given ≤ self.now.most }
    {
        // So it is known that no more seats were given out than there are.
        let _rest = &self.rest;
        (self.live.record(), self.live.version())
    }

    /// The core as it is now, from which a snapshot for a seat is made once the lock is let go. The
    /// seat's last receipt is looked for first, as before an event, so the seat may be astray
    /// afterwards, also if memory runs out. `AllocError` if it does.
    pub fn past(&mut self, seat: &mut Seat<J>) -> Result<PastCore, AllocError>
        ensures past { IfOk result (λ past. unreserved past
            ≡ held (opening_of J.begun J.limits) self.old.entries) }
        ensures lawful { IsLawful (opening_of J.begun J.limits) self.old.entries }
        ensures long { seat.old.share ≤ length self.old.entries }
        ensures astray { seat.new.astray ≡ false ↔ IsFound self.old.entries seat.old }
        ensures seat { seat.new ≡ record seat.old { astray = seat.new.astray } }
        ensures same { self.new ≡ self.old }
    {
        self.begin(seat);
        self.live.past()
    }

    /// What a reader is told: the generations of the record.
    pub fn tell(&mut self) -> Told<J>
        ensures told { result
            ≡ generations (held (opening_of J.begun J.limits) self.old.entries) }
        ensures same { self.new ≡ self.old }
    {
        self.live.tell()
    }

    /// Gives out a seat, unless all were given out or the publisher finds no place.
    pub fn seat(&mut self) -> Option<Seat<J>>
        ensures some { IfSome result (λ seat. (seat.share ≡ 0) × (seat.last ≡ None)
            × (seat.astray ≡ false) × (seat.lost ≡ false)
            × (self.new ≡ record self.old { given = self.old.given + 1 })) }
        ensures none { IfNone result (self.new ≡ self.old) }
    {
        if self.given == self.most {
            return None;
        }
        let reader = self.live.reader()?;
        let share = self.rest.split_off(1, 0);
        self.given += 1;
        Some(Seat {
            share,
            last: None,
            astray: false,
            reader,
            lost: false,
        })
    }

    /// Looks for the last receipt of a seat in the record, before one of its events or a snapshot.
    fn begin(&mut self, seat: &mut Seat<J>)
        ensures same { self.new ≡ self.old }
        ensures astray { seat.new.astray ≡ false ↔ IsFound self.old.entries seat.old }
        ensures seat { seat.new ≡ record seat.old { astray = seat.new.astray } }
        ensures long { seat.old.share ≤ length self.old.entries }
        ensures lawful { IsLawful (opening_of J.begun J.limits) self.old.entries }
    {
        seat.confirm_last(self.live.record());
        self.audit(seat);
    }

    /// So it is known that the share of a seat is no more than the entries. It changes nothing.
    fn audit(&mut self, seat: &mut Seat<J>)
        ensures same { (self.new ≡ self.old) × (seat.new ≡ seat.old) }
        ensures long { seat.old.share ≤ length self.old.entries }
    {
        self.book.audit(&mut seat.share);
    }

    #[tactic(auto, using(crate::proofs::Grows::rising_by))]
    /// Answers one event for a seat; the event is lent, and is not a reload. If it was recorded, it
    /// is entered in the ledger, and the number of its entry is given back: the seat keeps its
    /// receipt after the lock was let go. The history of which the clauses speak is the one under
    /// the lock.
    pub fn ask(
        &mut self,
        seat: &mut Seat<J>,
        routed: Option<&Routed>,
        event: &LentEvent<'_>,
        kept: &mut KeptReply,
    ) -> Option<u32>
        requires planned { IfSome (option_copied routed)
            (IsPlanFor (event_meant event.now) seat.old.seen) }
        requires other { put_in_force (event_meant event.now) ≡ None }
        ensures kept { IsSome kept.new.kept }
        ensures step { Steps (held (opening_of J.begun J.limits) self.old.entries)
            (event_meant event.now)
            (answered (event_meant event.now) (reply_kept kept.new.kept) result)
            (held (opening_of J.begun J.limits) self.new.entries) }
        ensures given { (self.new.given ≡ self.old.given) × (self.new.most ≡ self.old.most) }
        ensures some { IfSome result (λ _. seat.new.share ≡ seat.old.share + 1) }
        ensures none { IfNone result (seat.new.share ≡ seat.old.share) }
        ensures last { seat.new.last ≡ seat.old.last }
        ensures astray { seat.new.astray ≡ false ↔ IsFound self.old.entries seat.old }
        ensures lost { seat.old.lost ≡ true → seat.new.lost ≡ true }
        ensures seen { IsPrefix seat.old.seen seat.new.seen }
        ensures rises { seat.new.astray ≡ false
            → IfSome result (λ number. IfSome seat.old.last (λ last. last.number < number)) }
        ensures asked { Asked (opening_of J.begun J.limits) seat.old (event_meant event.now)
            (answered (event_meant event.now) (reply_kept kept.new.kept) result) seat.new }
    {
        self.begin(seat);
        let (number, met) = turn(&mut self.live, &mut seat.reader, routed, event, kept);
        seat.see(met);
        if let Some(_) = number {
            seat.enter(&mut self.book);
        }
        number
    }

    #[tactic(auto, using(crate::proofs::Grows::rising))]
    /// Puts these tables in force for a seat, and enters that in the ledger if it was recorded. The
    /// history of which the clauses speak is the one under the lock.
    pub fn reload<R: Wait>(
        &mut self,
        rt: &R,
        seat: &mut Seat<J>,
        tables: Arc<Tables>,
    ) -> Result<(Reply, Receipt), Reply>
        ensures step { Steps (held (opening_of J.begun J.limits) self.old.entries)
            (Reloading (arc_value tables).commands) result
            (held (opening_of J.begun J.limits) self.new.entries) }
        ensures given { (self.new.given ≡ self.old.given) × (self.new.most ≡ self.old.most) }
        ensures book { MatchResult result (λ _. seat.new.share ≡ seat.old.share + 1)
            (λ _. seat.new.share ≡ seat.old.share) }
        ensures last { seat.new.last ≡ seat.old.last }
        ensures names { IfOk result
            (λ a. IsReceiptOf (Reloading (arc_value tables).commands) a.0 a.1) }
        ensures astray { seat.new.astray ≡ false ↔ IsFound self.old.entries seat.old }
        ensures lost { seat.old.lost ≡ true → seat.new.lost ≡ true }
        ensures seen { IsPrefix seat.old.seen seat.new.seen }
        ensures rises { seat.new.astray ≡ false
            → IfOk result (λ a. IfSome seat.old.last (λ last. last.number < a.1.number)) }
        ensures asked { Asked (opening_of J.begun J.limits) seat.old
            (Reloading (arc_value tables).commands) result seat.new }
        ensures put { IsPut (Reloading (arc_value tables).commands) result
            (generations (held (opening_of J.begun J.limits) self.new.entries)) }
        ensures put_seen { seat.new.lost ≡ false
            → IsPut (Reloading (arc_value tables).commands) result seat.new.seen }
    {
        self.begin(seat);
        let (answer, met) = reload_turn(rt, &mut self.live, &mut seat.reader, tables);
        seat.see(met);
        if let Ok(_) = &answer {
            seat.enter(&mut self.book);
        }
        answer
    }

    /// What stands in the way of the record.
    fn fault_in(&self, seats: &Vec<Seat<J>>) -> Option<FinishKind>
        ensures none { IfNone result ((self.now.given ≤ vec_len seats.now)
            × All (IsFound self.now.entries) seats.now.items) }
        ensures missing { result ≡ Some FinishKind.SeatsMissing
            ↔ vec_len seats.now < self.now.given }
        ensures astray { result ≡ Some FinishKind.Astray
            → IsAstrayIn self.now.entries seats.now.items }
    {
        if seats.len() < self.given as usize {
            return Some(FinishKind::SeatsMissing);
        }
        if !all_found(self.live.record(), seats) {
            return Some(FinishKind::Astray);
        }
        None
    }

    /// Takes all seats back, and gives the record. `SeatsMissing` exactly if they are fewer than
    /// were given out (more there can't be); else `Astray` exactly if one of them is astray, or its
    /// last receipt does not stand in the record. Then all is handed back.
    pub fn finish<R: Wait>(
        self,
        rt: &R,
        seats: Vec<Seat<J>>,
    ) -> Result<Record, (FinishKind, Room<J>, Vec<Seat<J>>)>
        requires { J.all ≡ J.parts }
        ensures ok { IfOk result (λ ended. (ended.entries ≡ self.entries)
            × (vec_len seats ≡ self.given)
            × IsTheirs (opening_of J.begun J.limits) seats.items ended.entries) }
        ensures begun { IfOk result (λ ended. ended.opening ≡ J.begun) }
        ensures missing { IfErr result (λ f.
            f.0 ≡ FinishKind.SeatsMissing ↔ vec_len seats < self.given) }
        ensures astray { IfErr result (λ f.
            f.0 ≡ FinishKind.Astray → IsAstrayIn self.entries seats.items) }
        ensures lawful { IsLawful (opening_of J.begun J.limits) self.entries }
        ensures back { IfErr result (λ f. (f.1 ≡ self) × (f.2.items ≡ seats.items)) }
    {
        // So it is known that the record is a lawful history.
        let _log = self.live.record();
        if let Some(kind) = self.fault_in(&seats) {
            return Err((kind, self, seats));
        }
        let Room {
            live,
            mut book,
            mut rest,
            given: _,
            most: _,
        } = self;
        merge_all(&mut rest, seats);
        book.audit(&mut rest);
        Ok(live.into_record(rt))
    }

    /// Ends it without its record.
    pub fn close<R: Wait>(self, rt: &R) {
        let Room {
            live,
            book: _,
            rest: _,
            given: _,
            most: _,
        } = self;
        live.close(rt);
    }
}
