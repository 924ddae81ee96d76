//! Answers to calls, and what their entries read back as.

use crate::test_cores::{Given, admission, answer, core_of, is_recorded};
use crate::wanted::{Asked, Wanted, first_astray};
use admission::{AdmitRefusal, AnsweredCall, CallEvent, Core, EventKind, Reply, Route};
use gk_terms::{Name, Units};
use std::alloc::Global;
use std::process::Abort;
use std::test::Fail;

#[test]
fn answers_read_back(rt: HostRuntime) -> Result<(), Fail> {
    assert_answers(&rt, rt.alloc(), b"terminal-0123456789")?;
    assert_answers(&rt, rt.alloc(), b"terminal-01234567890")?;
    assert_answers(&rt, rt.alloc(), &[b't'; 128])
}

/// Asserts what comes of an answer to a call from another gatekeeper, of one to a call that was
/// admitted to the endpoint of this ID, and of two that are refused; what the entries read back as;
/// and that the call from another gatekeeper is open beside the one that was admitted.
fn assert_answers(rt: &impl Abort, alloc: Global, id: &[u8]) -> Result<(), Fail> {
    let given = Given::of(id)?;
    let mut core = core_of(alloc)?;
    let registered = given.are_registered(&mut core, alloc);
    let recorded = are_answers_recorded(&mut core, &given);
    let astray = first_astray(&answers(&given), core.record());
    let open = core.calls().len();
    let rows = rows_of(&core, alloc);
    drop(core);
    assert!(rt; registered? && recorded);
    assert_eq!(rt; astray, None);
    assert_eq!(rt; (open, rows), (2, Some(2)));
    Ok(())
}

/// How many rows a snapshot has, if there is one.
fn rows_of(core: &Core, alloc: Global) -> Option<usize> {
    match core.snapshot(alloc) {
        Ok(snapshot) => Some(snapshot.len()),
        Err(_) => None,
    }
}

/// Whether these are recorded after an admission to the endpoint: its answer to a call of another
/// number; its answer to the call that was admitted to it; the answer of another endpoint to the
/// first; and that of one that is not registered.
fn are_answers_recorded(core: &mut Core, given: &Given) -> bool {
    let Given {
        id,
        ta,
        tb,
        alias,
        ..
    } = *given;
    is_recorded(core, admission(ta, 1001, alias, 640))
        && is_recorded(core, answer(id, 2001, 1280))
        && is_recorded(core, answer(id, 1001, 5000))
        && is_recorded(core, answer(ta, 2001, 64))
        && is_recorded(core, answer(tb, 2002, 65))
}

/// What they read back as.
fn answers(given: &Given) -> [Wanted; 4] {
    let Given {
        id,
        ta,
        tb,
        gk_a,
        ..
    } = *given;
    let route = Route::To(given.called());
    [
        Wanted {
            opened: true,
            row: Some(CallEvent::Answered(AnsweredCall {
                call: 2001,
                zone: gk_a,
                units: Units::new(1280),
                granted: true,
                route,
            })),
            ..granted(4, given, 2001, 1280, 1280)
        },
        granted(5, given, 1001, 5000, 640),
        Wanted {
            zone: Some(gk_a),
            ..answered(6, ta, 2001, 64, refused(2001, AdmitRefusal::CallOpen))
        },
        answered(
            7,
            tb,
            2002,
            65,
            refused(2002, AdmitRefusal::CallerNotRegistered),
        ),
    ]
}

/// The entry of a granted answer with so many units, which opened no call.
fn granted(number: u32, given: &Given, call: u32, asked: u32, units: u32) -> Wanted {
    let destination = &given.called();
    let reply = Reply::Admitted {
        call,
        destination: *destination,
        units: Units::new(units),
    };
    Wanted {
        zone: Some(given.gk_a),
        route: Some(Route::To(*destination)),
        ..answered(number, given.id, call, asked, reply)
    }
}

/// The entry of an answer that was not routed.
fn answered(number: u32, id: Name, call: u32, units: u32, reply: Reply) -> Wanted {
    let asked = Asked::Bandwidth(Units::new(units));
    Wanted::about(number, EventKind::Incoming, id, call, asked, reply)
}

/// That an answer is refused.
fn refused(call: u32, reason: AdmitRefusal) -> Reply {
    Reply::AdmitRefused { call, reason }
}
