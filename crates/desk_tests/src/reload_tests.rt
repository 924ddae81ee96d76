//! Reloads: how they are refused, and what another seat sees of them.

use crate::desks::{Steps, goes_right};
use crate::given::{OTHER, TEXT, asked, gateway, is_refused, leads_to, reloads_to, terminal};
use admission::{Limits, ReloadRefusal, STATED_LIMITS};
use live_desk::{Desk, House, Seat};
use std::alloc::Global;
use std::sync::Wait;

#[test]
fn a_reload_finds_the_record_full(rt: HostRuntime) {
    let limits = Limits {
        endpoints: 1,
        calls: 1,
        records: 1,
        reloads: 5,
    };
    let steps = Steps::ReloadTwice(ReloadRefusal::RecordFull);
    assert!(&rt; goes_right(&rt, rt.alloc(), limits, 1, steps));
}

#[test]
fn reloads_are_spent(rt: HostRuntime) {
    let limits = Limits {
        endpoints: 1,
        calls: 1,
        records: 5,
        reloads: 1,
    };
    let steps = Steps::ReloadTwice(ReloadRefusal::ReloadsSpent);
    assert!(&rt; goes_right(&rt, rt.alloc(), limits, 1, steps));
}

/// Whether a first reload puts version 2 in force, and a second one is refused for this.
pub(crate) fn second_is_refused<J: House, R: Wait>(
    rt: &R,
    alloc: Global,
    desk: &Desk<J>,
    seat: &mut Seat<J>,
    refusal: ReloadRefusal,
) -> bool {
    let first = reloads_to(rt, alloc, desk, seat, TEXT, 2);
    let second = is_refused(rt, alloc, desk, seat, refusal);
    first && second
}

/// A call goes to the gateway before another seat's reload, which puts version 2 in force, and to
/// the remote zone after it; and no seat is lost or astray.
#[test]
fn a_reload_on_one_seat_routes_the_calls_of_another(rt: HostRuntime) {
    assert!(&rt; goes_right(&rt, rt.alloc(), STATED_LIMITS, 2, Steps::ReloadBeside));
}

/// The second seat asks before and after the first one's reload. Whether each call went where it
/// should, version 2 was put in force, and no seat is lost or astray.
pub(crate) fn is_seen_by_another<J: House, R: Wait>(
    rt: &R,
    alloc: Global,
    desk: &Desk<J>,
    first: &mut Seat<J>,
    second: &mut Seat<J>,
) -> bool {
    let _terminal = asked(rt, desk, first, terminal(alloc));
    let _gateway = asked(rt, desk, first, gateway(alloc, b"ga", b"1#"));
    let to_gateway = leads_to(rt, desk, second, 1001, b"40855512345", b"ga");
    let reloads = reloads_to(rt, alloc, desk, first, OTHER, 2);
    let to_zone = leads_to(rt, desk, second, 1002, b"40855512345", b"gk-x");
    let lost = first.lost() || second.lost();
    let astray = first.astray() || second.astray();
    (to_gateway, reloads, to_zone, lost, astray) == (true, true, true, false, false)
}
