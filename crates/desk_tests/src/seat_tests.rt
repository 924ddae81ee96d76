//! How a desk is opened and ends.

ghost use Rattle.std.specs.Prelude.{◌≡◌};

use crate::desks::{Steps, goes_right, is_not_opened};
use crate::given::{TEXT, asked, leads_to, reloaded, tables_of, terminal};
use admission::{Event, Limits, Receipt, STATED_LIMITS};
use gk_terms::{Gate, Name, Units};
use live_desk::{Desk, FinishFault, FinishKind, House, OpenFault, Seat, SeatFault};
use std::alloc::Global;
use std::sync::Wait;

#[test]
fn no_seats_are_too_few(rt: HostRuntime) {
    assert!(&rt; is_not_opened(&rt, rt.alloc(), STATED_LIMITS, 0, OpenFault::BadSeats));
}

#[test]
fn seats_are_at_most_32(rt: HostRuntime) {
    assert!(&rt; is_not_opened(&rt, rt.alloc(), STATED_LIMITS, 33, OpenFault::BadSeats));
}

#[test]
fn a_limit_is_not_0(rt: HostRuntime) {
    let limits = Limits {
        calls: 0,
        ..STATED_LIMITS
    };
    assert!(&rt; is_not_opened(&rt, rt.alloc(), limits, 33, OpenFault::BadLimits));
}

#[test]
fn a_desk_of_32_seats_is_opened(rt: HostRuntime) {
    assert!(&rt; goes_right(&rt, rt.alloc(), STATED_LIMITS, 32, Steps::Nothing));
}

/// A desk of two seats gives no third one. If one of them comes back, they are missing, and if both
/// do, the record has no entry.
#[test]
fn two_seats_are_given_out_and_come_back(rt: HostRuntime) {
    assert!(&rt; goes_right(&rt, rt.alloc(), STATED_LIMITS, 2, Steps::EndWithTwo));
}

/// Whether a desk of two seats says what it should to a third seat, to one seat that comes back,
/// and to both.
pub(crate) fn ends_with_two<J: House, R: Wait>(rt: &R, alloc: Global, desk: Desk<J>) -> bool
    requires { J.all ≡ J.parts }
{
    let mut seats = seats_of(rt, alloc, &desk, 2);
    let no_third = gives_none(rt, &desk);
    let second = seats.pop();
    match desk.finish(rt, seats) {
        Ok(_) => false,
        Err(FinishFault { kind, desk, seats }) => {
            let both = with_seat(seats, second);
            let ended = ended(rt, desk, both, &[]);
            no_third && kind == FinishKind::SeatsMissing && ended == Some((0, true))
        }
    }
}

/// So many seats of the desk, if it has them.
fn seats_of<J: House, R: Wait>(rt: &R, alloc: Global, desk: &Desk<J>, count: u32) -> Vec<Seat<J>> {
    let mut seats = Vec::new(alloc);
    for _ in 0..count {
        if let Ok(seat) = desk.seat(rt) {
            let _kept = seats.push(seat);
        }
    }
    seats
}

/// These seats, and this one.
fn with_seat<J: House>(seats: Vec<Seat<J>>, seat: Option<Seat<J>>) -> Vec<Seat<J>> {
    let mut seats = seats;
    if let Some(seat) = seat {
        let _kept = seats.push(seat);
    }
    seats
}

/// Whether each seat of the desk was given out.
fn gives_none<J: House, R: Wait>(rt: &R, desk: &Desk<J>) -> bool {
    match desk.seat(rt) {
        Ok(_) => false,
        Err(fault) => fault == SeatFault::NoSeat,
    }
}

/// Takes the seats back. How long the record is, and whether each of these receipts stands in it.
/// None if the desk gives no record; then it is closed.
pub(crate) fn ended<J: House, R: Wait>(
    rt: &R,
    desk: Desk<J>,
    seats: Vec<Seat<J>>,
    receipts: &[Receipt],
) -> Option<(usize, bool)>
    requires { J.all ≡ J.parts }
{
    match desk.finish(rt, seats) {
        Ok(record) => Some((record.len(), record.confirm(receipts).is_ok())),
        Err(
            FinishFault {
                kind: _,
                desk,
                seats: _,
            },
        ) => {
            desk.close(rt);
            None
        }
    }
}

/// A desk of two seats, of which one was given out and comes back, gives its record, which has no
/// entry.
#[test]
fn a_seat_that_was_not_given_out_is_not_missing(rt: HostRuntime) {
    assert!(&rt; goes_right(&rt, rt.alloc(), STATED_LIMITS, 2, Steps::EndWithOne));
}

/// Whether a desk gives a record with no entry, once one seat was given out and came back.
pub(crate) fn ends_with_one<J: House, R: Wait>(rt: &R, alloc: Global, desk: Desk<J>) -> bool
    requires { J.all ≡ J.parts }
{
    let seats = seats_of(rt, alloc, &desk, 1);
    ended(rt, desk, seats, &[]) == Some((0, true))
}

/// No call of a seat or of its desk gives out another seat: after each of them there is a second
/// seat, and no third one.
#[test]
fn calls_give_out_no_seat(rt: HostRuntime) {
    assert!(&rt; goes_right(&rt, rt.alloc(), STATED_LIMITS, 2, Steps::Calls));
}

/// Whether the desk gives a second seat after calls of the first one, and then no third.
pub(crate) fn gives_out_no_seat<J: House, R: Wait>(
    rt: &R,
    alloc: Global,
    desk: &Desk<J>,
    seat: &mut Seat<J>,
) -> bool {
    let of_calls = ask_of_calls(rt, alloc, desk, seat);
    let _reloaded = reloaded(rt, alloc, desk, seat, TEXT);
    let put = is_put_in_force(rt, alloc, desk, seat);
    let taken = seat.snapshot(rt, alloc, desk).is_ok();
    desk.hold(rt, &OpenGate);
    let second = !gives_none(rt, desk);
    let third = !gives_none(rt, desk);
    (of_calls, put, taken, second, third) == (true, true, true, true, false)
}

/// Asks an event of an endpoint that is not there, registers a terminal, and asks each kind of
/// event of a call. Whether the first two are recorded.
fn ask_of_calls<J: House, R: Wait>(
    rt: &R,
    alloc: Global,
    desk: &Desk<J>,
    seat: &mut Seat<J>,
) -> bool {
    let (Ok(nobody), Ok(id)) = (Name::read(b"nobody"), Name::read(b"ta")) else {
        return false;
    };
    let units = Units::new(640);
    let left = asked(rt, desk, seat, Some(Event::Unregister { id: nobody }));
    let registered = asked(rt, desk, seat, terminal(alloc));
    let _led = leads_to(rt, desk, seat, 1, b"40855512345", b"");
    let _changed = asked(rt, desk, seat, Some(Event::Change { id, call: 1, units }));
    let _released = asked(rt, desk, seat, Some(Event::Release { id, call: 1 }));
    let _answered = asked(rt, desk, seat, Some(Event::Incoming { id, call: 2, units }));
    left.is_some() && registered.is_some()
}

/// Whether tables are put in force that were made elsewhere.
fn is_put_in_force<J: House, R: Wait>(
    rt: &R,
    alloc: Global,
    desk: &Desk<J>,
    seat: &mut Seat<J>,
) -> bool {
    match tables_of(alloc, TEXT) {
        Some(others) => seat.put_in_force(rt, desk, others).is_ok(),
        None => false,
    }
}

/// A gate that lets everybody through.
struct OpenGate;

impl Gate for OpenGate {
    fn begin(&self, _worker: u32) {}
}
