//! What entries of refusals for a limit read back as.

use crate::test_cores::{Given, admission, answer, change, core_under, is_recorded};
use crate::wanted::{Asked, Wanted, first_astray};
use admission::{
    AdmitRefusal, AdmittedCall, AnsweredCall, CallEvent, ChangeRefusal, Core, EventKind, Reply,
    Route,
};
use bandwidth::Over;
use gk_commands::LimitKind;
use gk_terms::Units;
use std::alloc::Global;
use std::process::Abort;
use std::test::Fail;

/// Two zones, and a limit of each kind: 640, 1,000, 900 and 850 units.
const LIMITED_ZONES: &[u8] = b"zone local gk-a example.com\n\
    zone remote gk-x example.com 10.9.0.1\n\
    zone prefix gk-a 408*\n\
    zone prefix gk-x 9*\n\
    bandwidth session zone gk-a 64\n\
    bandwidth total zone gk-a 100\n\
    bandwidth interzone zone gk-a 90\n\
    bandwidth remote 85\n";

#[test]
fn refusals_for_a_limit_read_back(rt: HostRuntime) -> Result<(), Fail> {
    assert_refusals(&rt, rt.alloc(), b"terminal-0123456789")?;
    assert_refusals(&rt, rt.alloc(), b"terminal-01234567890")?;
    assert_refusals(&rt, rt.alloc(), &[b't'; 128])
}

/// Asserts what six refusals for a limit read back as.
fn assert_refusals(rt: &impl Abort, alloc: Global, id: &[u8]) -> Result<(), Fail> {
    let given = Given::of(id)?;
    let mut core = core_under(alloc, LIMITED_ZONES)?;
    let registered = given.are_registered(&mut core, alloc);
    let recorded = are_refusals_recorded(&mut core, &given);
    let astray = first_astray(&refusals(&given), core.record());
    let open = core.calls().len();
    drop(core);
    assert!(rt; registered? && recorded);
    assert_eq!(rt; astray, None);
    assert_eq!(rt; open, 1);
    Ok(())
}

/// Whether these are recorded, with a call of 640 units to the remote zone after the first: four
/// admissions to that zone, of which each is refused for another limit; an answer, and a change of
/// the call, that are refused for the limit of one call.
fn are_refusals_recorded(core: &mut Core, given: &Given) -> bool {
    let Given { id, ta, away, .. } = *given;
    is_recorded(core, admission(ta, 1001, away, 641))
        && is_recorded(core, admission(ta, 1002, away, 640))
        && is_recorded(core, admission(ta, 1003, away, 361))
        && is_recorded(core, admission(ta, 1004, away, 360))
        && is_recorded(core, admission(ta, 1005, away, 260))
        && is_recorded(core, answer(id, 2001, 641))
        && is_recorded(core, change(ta, 1002, 641))
}

/// What they read back as, but for the one that is granted.
fn refusals(given: &Given) -> [Wanted; 6] {
    [
        not_admitted(3, given, 1001, 641, of_gk_a(given, LimitKind::Session)),
        not_admitted(5, given, 1003, 361, of_gk_a(given, LimitKind::Total)),
        not_admitted(6, given, 1004, 360, of_gk_a(given, LimitKind::Interzone)),
        not_admitted(7, given, 1005, 260, Over::Remote),
        not_answered(given),
        not_changed(given),
    ]
}

/// A limit of the local zone.
fn of_gk_a(given: &Given, kind: LimitKind) -> Over {
    Over::Zone {
        kind,
        zone: given.gk_a,
    }
}

/// The entry of an admission of so many units that was refused for this limit.
fn not_admitted(number: u32, given: &Given, call: u32, units: u32, over: Over) -> Wanted {
    let units = Units::new(units);
    let route = &Route::To(given.remote());
    let reply = Reply::AdmitRefused {
        call,
        reason: AdmitRefusal::OverLimit(over),
    };
    let asked = Asked::Digits {
        digits: given.away,
        units,
    };
    Wanted {
        zone: Some(given.gk_a),
        route: Some(*route),
        row: Some(CallEvent::Admitted(AdmittedCall {
            call,
            zone: given.gk_a,
            digits: given.away,
            units,
            granted: false,
            route: *route,
        })),
        ..Wanted::about(number, EventKind::Admission, given.ta, call, asked, reply)
    }
}

/// That of the answer.
fn not_answered(given: &Given) -> Wanted {
    let (call, units) = (2001, Units::new(641));
    let route = &Route::To(given.called());
    let reply = Reply::AdmitRefused {
        call,
        reason: AdmitRefusal::OverLimit(of_gk_a(given, LimitKind::Session)),
    };
    let asked = Asked::Bandwidth(units);
    Wanted {
        zone: Some(given.gk_a),
        route: Some(*route),
        row: Some(CallEvent::Answered(AnsweredCall {
            call,
            zone: given.gk_a,
            units,
            granted: false,
            route: *route,
        })),
        ..Wanted::about(8, EventKind::Incoming, given.id, call, asked, reply)
    }
}

/// That of the change.
fn not_changed(given: &Given) -> Wanted {
    let call = 1002;
    let reply = Reply::ChangeRefused {
        call,
        reason: ChangeRefusal::OverLimit(of_gk_a(given, LimitKind::Session)),
    };
    let asked = Asked::Bandwidth(Units::new(641));
    Wanted::about(9, EventKind::BandwidthChange, given.ta, call, asked, reply)
}
