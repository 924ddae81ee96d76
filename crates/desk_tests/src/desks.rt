//! One desk for each test: it is opened, a test's steps are gone through at it, and it ends. Few
//! functions own a desk or a seat, and the steps borrow them: what is let go at each way out of a
//! function is proved at each.

ghost use Rattle.std.specs.Prelude.{◌≡◌};
ghost use Rattle.std.specs.Arc.{arc_value};

use crate::client_tests::both_are_replied;
use crate::given::{TEXT, blank_of, tables_of};
use crate::hold_tests::waits_for_the_lock;
use crate::learned_tests::is_learned;
use crate::reload_tests::{is_seen_by_another, second_is_refused};
use crate::seat_tests::{ends_with_one, ends_with_two, gives_out_no_seat};
use crate::workers::{Task, works_right};
use admission::{Limits, ReloadRefusal};
use compiler::Tables;
use live_desk::{Blank, Desk, House, OpenFault, Seat};
use std::alloc::Global;
use std::marker::Brand;
use std::net::{Net, TcpListener, TcpStream};
use std::sync::{Arc, Wait};
use std::thread::Threads;

/// What is done at a desk that was opened.
#[derive(Clone, Copy)]
pub(crate) enum Steps {
    /// Nothing.
    Nothing,
    /// Two clients ask.
    Clients,
    /// The lock is held.
    Hold,
    /// One seat asks each kind of call.
    Calls,
    /// One seat reloads twice, and the second reload is refused for this.
    ReloadTwice(ReloadRefusal),
    /// One seat registers a gateway, and another one calls.
    Learn,
    /// One seat reloads, and another one calls.
    ReloadBeside,
    /// All seats work in threads of their own.
    Work(Task),
    /// Of two seats one comes back, and then both.
    EndWithTwo,
    /// The one seat that was given out comes back.
    EndWithOne,
}

/// Whether a desk of so many seats is opened with the tables of `TEXT`, and all of the steps goes
/// as it should.
pub(crate) fn goes_right<
    R: Net<Listener = TcpListener, Stream = TcpStream> + Threads + Wait + Sync,
>(rt: &R, alloc: Global, limits: Limits, seats: u32, steps: Steps) -> bool {
    opened(rt, alloc, TEXT, limits, seats, steps) == Some(Ok(true))
}

/// Whether a desk of so many seats is not opened, for this.
pub(crate) fn is_not_opened<
    R: Net<Listener = TcpListener, Stream = TcpStream> + Threads + Wait + Sync,
>(rt: &R, alloc: Global, limits: Limits, seats: u32, wanted: OpenFault) -> bool {
    opened(rt, alloc, TEXT, limits, seats, Steps::Nothing) == Some(Err(wanted))
}

/// Whether all of the steps went as it should at a desk of so many seats, opened with the tables of
/// this text; or why it is not opened. None if there are no tables.
pub(crate) fn opened<R: Net<Listener = TcpListener, Stream = TcpStream> + Threads + Wait + Sync>(
    rt: &R,
    alloc: Global,
    text: &[u8],
    limits: Limits,
    seats: u32,
    steps: Steps,
) -> Option<Result<bool, OpenFault>> {
    let tables = tables_of(alloc, text)?;
    Some(at_desk::<Brand, _>(rt, alloc, blank_of(seats), tables, limits, seats, steps))
}

/// Opens the desk, and goes through the steps.
fn at_desk<
    J: House + Send + Sync,
    R: Net<Listener = TcpListener, Stream = TcpStream> + Threads + Wait + Sync,
>(
    rt: &R,
    alloc: Global,
    blank: Blank,
    tables: Arc<Tables>,
    limits: Limits,
    seats: u32,
    steps: Steps,
) -> Result<bool, OpenFault>
    requires ledger { (blank.ledger.name ≡ J.name) × (blank.ledger.parts ≡ J.parts) }
    requires parts { (J.all ≡ J.parts) × (seats ≡ J.all) }
    requires publisher { blank.publisher ≡ J.book }
    requires opening { (J.begun ≡ (arc_value tables).commands) × (J.limits ≡ limits) }
{
    match Desk::<J>::open(alloc, blank, tables, limits, seats) {
        Ok(desk) => Ok(gone_through(rt, alloc, desk, seats, steps)),
        Err(fault) => Err(fault),
    }
}

/// Goes through the steps, and ends the desk. Whether all went as it should.
fn gone_through<
    J: House + Send + Sync,
    R: Net<Listener = TcpListener, Stream = TcpStream> + Threads + Wait + Sync,
>(rt: &R, alloc: Global, desk: Desk<J>, seats: u32, steps: Steps) -> bool
    requires { J.all ≡ J.parts }
{
    match steps {
        Steps::Work(task) => works_right(rt, alloc, desk, seats, task),
        Steps::EndWithTwo => ends_with_two(rt, alloc, desk),
        Steps::EndWithOne => ends_with_one(rt, alloc, desk),
        _ => {
            let right = at_lent_desk(rt, alloc, &desk, steps);
            desk.close(rt);
            right
        }
    }
}

/// Goes through the steps that end no desk.
fn at_lent_desk<
    J: House + Send + Sync,
    R: Net<Listener = TcpListener, Stream = TcpStream> + Threads + Wait + Sync,
>(rt: &R, alloc: Global, desk: &Desk<J>, steps: Steps) -> bool {
    match steps {
        Steps::Nothing => true,
        Steps::Clients => both_are_replied(rt, alloc, desk),
        _ => on_a_seat(rt, alloc, desk, steps),
    }
}

/// Goes through the steps on a seat of the desk.
fn on_a_seat<J: House + Send + Sync, R: Threads + Wait + Sync>(
    rt: &R,
    alloc: Global,
    desk: &Desk<J>,
    steps: Steps,
) -> bool {
    match desk.seat(rt) {
        Ok(mut seat) => on_lent_seat(rt, alloc, desk, &mut seat, steps),
        Err(_) => false,
    }
}

/// Goes through the steps on this seat, or on this one and another one.
fn on_lent_seat<J: House + Send + Sync, R: Threads + Wait + Sync>(
    rt: &R,
    alloc: Global,
    desk: &Desk<J>,
    seat: &mut Seat<J>,
    steps: Steps,
) -> bool {
    match steps {
        Steps::Hold => waits_for_the_lock(rt, desk, seat),
        Steps::Calls => gives_out_no_seat(rt, alloc, desk, seat),
        Steps::ReloadTwice(refusal) => second_is_refused(rt, alloc, desk, seat, refusal),
        Steps::Learn => beside(rt, alloc, desk, seat, true),
        Steps::ReloadBeside => beside(rt, alloc, desk, seat, false),
        _ => false,
    }
}

/// Goes through the steps in which another seat calls: this one registers a gateway, or reloads.
fn beside<J: House, R: Wait>(
    rt: &R,
    alloc: Global,
    desk: &Desk<J>,
    first: &mut Seat<J>,
    learns: bool,
) -> bool {
    match desk.seat(rt) {
        Ok(mut second) => {
            if learns {
                is_learned(rt, alloc, desk, first, &mut second)
            } else {
                is_seen_by_another(rt, alloc, desk, first, &mut second)
            }
        }
        Err(_) => false,
    }
}
