//! The desk: a core under a lock, its seats, and its record at the end.

ghost use Rattle.std.specs.Prelude.{◌≡◌, ◌<◌, ◌↔◌, true, false, vec_len, None, IfOk, IfErr, OnOk};
ghost use Rattle.std.specs.Arc.{arc_value};
ghost use Rattle.rulings.specs.State.{opening_of};
ghost use Rattle.rulings.specs.Limits.{are_limits};
ghost use Rattle.live_desk.specs.Seats.{IsBadCount, IsTheirs, SomeAstray};

use crate::house::House;
use crate::live::{Live, OpenFault};
use crate::room::{FinishKind, Room};
use crate::seats::Seat;
use admission::{Limits, Record};
use compiler::Tables;
use gk_terms::Gate;
use std::alloc::Global;
use std::sync::{Arc, Mutex, MutexGuard, Wait};
use thiserror::Error;

/// What a desk is made of before a type stands for it: the ledger with a part for each seat, and
/// the publisher's history.
#[derive(Drop)]
pub struct Blank {
    pub ledger: std::sync::ledger::Blank,
    pub publisher: publisher::Blank,
}

/// A core under a lock. Whenever the lock is taken, the record replays to the core's state,
/// publisher and core name the same generations, and the book of the ledger is the length of the
/// record: the type of what is locked keeps it (`Room`). It can't be let go: it ends by `finish` or
/// `close`.
pub struct Desk<J: House> {
    pub(crate) room: Mutex<Room<J>>,
}

/// Why a seat is not given out. This project's profile.
#[derive(Clone, Copy, Debug, PartialEq, Eq, Error)]
pub enum SeatFault {
    /// Each seat was given out, or the publisher's table of places found none for a reason of its
    /// own.
    #[error("no seat")]
    NoSeat,
    /// Memory ran out. Making a seat takes none, so this doesn't come.
    #[error("no memory")]
    NoMemory,
}

/// Why a desk gives no record, with all that was handed in.
pub struct FinishFault<J: House> {
    pub kind: FinishKind,
    pub desk: Desk<J>,
    pub seats: Vec<Seat<J>>,
}

impl<J: House> Desk<J> {
    /// A desk whose core has these tables as version 1, with so many seats to give out, 1 to 32.
    /// `BadLimits` comes exactly if a limit is 0 or above the stated one; else `BadSeats` exactly
    /// for other numbers of seats; and `NoMemory` if memory runs out. This project's profile.
    pub fn open(
        alloc: Global,
        blank: Blank,
        tables: Arc<Tables>,
        limits: Limits,
        seats: u32,
    ) -> Result<Desk<J>, OpenFault>
        requires ledger { (blank.ledger.name ≡ J.name) × (blank.ledger.parts ≡ J.parts) }
        requires parts { (J.all ≡ J.parts) × (seats ≡ J.all) }
        requires publisher { blank.publisher ≡ J.book }
        requires opening { (J.begun ≡ (arc_value tables).commands) × (J.limits ≡ limits) }
        ensures good { OnOk result ((are_limits limits ≡ true) × (IsBadCount seats → ⊥)) }
        ensures limits { IfErr result (λ fault.
            fault ≡ OpenFault.BadLimits ↔ (are_limits limits ≡ false)) }
        ensures seats { IfErr result (λ fault.
            fault ≡ OpenFault.BadSeats ↔ (are_limits limits ≡ true) × IsBadCount seats) }
    {
        let Blank { ledger, publisher } = blank;
        let live = Live::<J>::new(alloc, publisher, tables, limits, seats)?;
        Ok(Desk {
            room: Mutex::new(Room::new(live, ledger, seats)),
        })
    }

    /// A new seat, which has asked nothing. `NoSeat` if each was given out, or for the second cause
    /// of that fault.
    pub fn seat<R: Wait>(&self, rt: &R) -> Result<Seat<J>, SeatFault>
        ensures seat { IfOk result (λ seat. (seat.share ≡ 0) × (seat.last ≡ None)
            × (seat.astray ≡ false) × (seat.lost ≡ false)) }
        ensures fault { IfErr result (λ fault. fault ≡ SeatFault.NoSeat) }
    {
        let mut room = self.room.lock(rt);
        let seat = room.seat();
        let _room = MutexGuard::unlock(room);
        match seat {
            Some(seat) => Ok(seat),
            None => Err(SeatFault::NoSeat),
        }
    }

    /// Takes the lock, calls `begin(0)` of the gate, and lets the lock go.
    pub fn hold<R: Wait>(&self, rt: &R, gate: &impl Gate) {
        let held = self.room.lock(rt);
        gate.begin(0);
        let _room = MutexGuard::unlock(held);
    }

    /// Takes all seats back, and gives the record; or hands all back. What the record is, and how
    /// many seats were given out, has no name while it is under the lock. So `Room::finish` says
    /// exactly when each fault comes, and this call what can be said without those names.
    pub fn finish<R: Wait>(self, rt: &R, seats: Vec<Seat<J>>) -> Result<Record, FinishFault<J>>
        requires { J.all ≡ J.parts }
        ensures ok { IfOk result (λ ended.
            IsTheirs (opening_of J.begun J.limits) seats.items ended.entries) }
        ensures begun { IfOk result (λ ended. ended.opening ≡ J.begun) }
        ensures missing { IfErr result (λ f.
            f.kind ≡ FinishKind.SeatsMissing → vec_len seats < J.all) }
        ensures astray { IfErr result (λ f.
            f.kind ≡ FinishKind.Astray → SomeAstray (opening_of J.begun J.limits) seats.items) }
        ensures back { IfErr result (λ f. f.seats.items ≡ seats.items) }
    {
        let Desk { room } = self;
        match room.into_inner().finish(rt, seats) {
            Ok(record) => Ok(record),
            Err((kind, room, seats)) => Err(FinishFault {
                kind,
                desk: Desk {
                    room: Mutex::new(room),
                },
                seats,
            }),
        }
    }

    /// Ends it without its record, also one that `finish` handed back.
    pub fn close<R: Wait>(self, rt: &R) {
        let Desk { room } = self;
        room.into_inner().close(rt);
    }
}
