//! Technology prefixes that a gateway gives on one seat, and the calls of another.

use crate::desks::{Steps, goes_right};
use crate::given::{asked, gateway, leads_to, terminal};
use admission::{Event, STATED_LIMITS};
use gk_terms::{Dialled, Name};
use live_desk::{Desk, House, Seat};
use std::alloc::Global;
use std::sync::Wait;

/// Calls of one seat to 9123 go to the remote zone before another seat's gateway gives 91, to that
/// gateway afterwards, and to the zone again once it has left; and a plan is made before each of
/// them without the lock.
#[test]
fn a_gateway_on_one_seat_routes_the_calls_of_another(rt: HostRuntime) {
    assert!(&rt; goes_right(&rt, rt.alloc(), STATED_LIMITS, 2, Steps::Learn));
}

/// The second seat routes and asks before the first one registers the gateway, after it, and after
/// it has left. Whether each call went where it should, and each plan was made.
pub(crate) fn is_learned<J: House, R: Wait>(
    rt: &R,
    alloc: Global,
    desk: &Desk<J>,
    first: &mut Seat<J>,
    second: &mut Seat<J>,
) -> bool {
    let (Ok(id), Ok(digits)) = (Name::read(b"gc"), Dialled::read(b"9123")) else {
        return false;
    };
    let _terminal = asked(rt, desk, first, terminal(alloc));
    let before = second.route(&digits).is_ok();
    let to_zone = leads_to(rt, desk, second, 1001, b"9123", b"gk-y");
    let _gateway = asked(rt, desk, first, gateway(alloc, b"gc", b"91"));
    let there = second.route(&digits).is_ok();
    let to_gateway = leads_to(rt, desk, second, 1002, b"9123", b"gc");
    let _left = asked(rt, desk, first, Some(Event::Unregister { id }));
    let after = second.route(&digits).is_ok();
    let to_zone_again = leads_to(rt, desk, second, 1003, b"9123", b"gk-y");
    to_zone && to_gateway && to_zone_again && before && there && after
}
