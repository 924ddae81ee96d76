//! What the entries of a record read back as: registrations, admissions, changes and releases.

use crate::test_cores::{
    Given, admission, called_terminal, change, core_of, is_recorded, terminal_in,
};
use crate::wanted::{Asked, Wanted, first_astray};
use admission::{
    AdmitRefusal, AdmittedCall, CallEvent, ChangeRefusal, Core, Duplicate, Entry, Event, EventKind,
    ReadEvent, Record, RegisterRefusal, Reply, Route, RouteRefusal, UnregisterRefusal,
};
use gk_terms::{Address, Dialled, Name, Units};
use registry::{Endpoint, EndpointKind};
use std::alloc::Global;
use std::process::Abort;
use std::test::Fail;

#[test]
fn registrations_read_back(rt: HostRuntime) -> Result<(), Fail> {
    assert_registrations(&rt, rt.alloc(), b"terminal-0123456789")?;
    assert_registrations(&rt, rt.alloc(), b"terminal-01234567890")?;
    assert_registrations(&rt, rt.alloc(), &[b't'; 128])
}

#[test]
fn admissions_read_back(rt: HostRuntime) -> Result<(), Fail> {
    assert_admissions(&rt, rt.alloc(), b"terminal-0123456789")?;
    assert_admissions(&rt, rt.alloc(), b"terminal-01234567890")?;
    assert_admissions(&rt, rt.alloc(), &[b't'; 128])
}

#[test]
fn changes_and_releases_read_back(rt: HostRuntime) -> Result<(), Fail> {
    assert_changes(&rt, rt.alloc(), b"terminal-0123456789")?;
    assert_changes(&rt, rt.alloc(), b"terminal-01234567890")?;
    assert_changes(&rt, rt.alloc(), &[b't'; 128])
}

// ---- registrations

/// Asserts what eight registrations and unregistrations read back as.
fn assert_registrations(rt: &impl Abort, alloc: Global, id: &[u8]) -> Result<(), Fail> {
    let given = Given::of(id)?;
    let first_local = Name::read(b"-")?;
    let alias = Dialled::read(b"7")?;
    let mut core = core_of(alloc)?;
    let recorded = are_registrations_recorded(&mut core, alloc, &given);
    let is_read = is_alias_read(core.record(), alloc, &alias);
    let astray = first_astray(&registrations(&given, first_local), core.record());
    drop(core);
    assert!(rt; recorded? && is_read);
    assert_eq!(rt; astray, None);
    Ok(())
}

/// Whether these are recorded: a registration with aliases, one in the first local zone, one in a
/// remote zone, one with an alias that the first has, one of the same ID from another address; and
/// the unregistrations of an ID that is not registered, of the one with aliases, and of that again.
fn are_registrations_recorded(core: &mut Core, alloc: Global, given: &Given) -> Result<bool, Fail> {
    let Given {
        id,
        ta,
        tb,
        gk_a,
        gk_x,
        ..
    } = *given;
    let called = called_terminal(alloc, id, gk_a)?;
    let gateway = gateway_with_alias(alloc, tb, gk_a)?;
    let first_local = Name::read(b"-")?;
    Ok(
        is_recorded(core, Event::Register(called))
            && is_recorded(core, Event::Register(terminal_in(alloc, ta, first_local)))
            && is_recorded(core, Event::Register(terminal_in(alloc, tb, gk_x)))
            && is_recorded(core, Event::Register(gateway))
            && is_recorded(core, Event::Register(terminal_in(alloc, id, gk_a)))
            && is_recorded(core, Event::Unregister { id: tb })
            && is_recorded(core, Event::Unregister { id })
            && is_recorded(core, Event::Unregister { id }),
    )
}

/// Whether the alias is read again of the first and the fourth entry, and of the second it is not.
fn is_alias_read(record: &Record, alloc: Global, alias: &Dialled) -> bool {
    has_alias(record, 1, alloc, alias)
        && has_alias(record, 4, alloc, alias)
        && !has_alias(record, 2, alloc, alias)
}

/// Whether the entry of the number is a registration with the alias.
fn has_alias(record: &Record, number: u32, alloc: Global, alias: &Dialled) -> bool {
    match &record.get(number) {
        Some(Entry::Asked(read)) => is_with_alias(&read.event, alloc, alias),
        _ => false,
    }
}

/// Whether the event is a registration with the alias.
fn is_with_alias(event: &ReadEvent<'_>, alloc: Global, alias: &Dialled) -> bool {
    match event {
        ReadEvent::Register(read) => match read.endpoint(alloc) {
            Ok(endpoint) => endpoint.has_alias(alias),
            Err(_) => false,
        },
        _ => false,
    }
}

/// A gateway with the alias `7`.
fn gateway_with_alias(alloc: Global, id: Name, zone: Name) -> Result<Endpoint, Fail> {
    let address = Address::new([10, 0, 2, 1], 1722);
    let mut gateway = Endpoint::new(alloc, EndpointKind::Gateway, id, zone, address);
    gateway.add_alias(Dialled::read(b"7")?)?;
    Ok(gateway)
}

/// What they read back as.
fn registrations(given: &Given, first_local: Name) -> [Wanted; 8] {
    let Given {
        id,
        ta,
        tb,
        gk_a,
        gk_x,
        ..
    } = *given;
    [
        registration(1, id, called_in(gk_a), Reply::Registered { id, zone: gk_a }),
        registration(
            2,
            ta,
            terminal(first_local),
            Reply::Registered { id: ta, zone: gk_a },
        ),
        registration(
            3,
            tb,
            terminal(gk_x),
            refused(tb, RegisterRefusal::UnknownZone),
        ),
        registration(
            4,
            tb,
            Asked::Endpoint {
                kind: EndpointKind::Gateway,
                zone: gk_a,
                address: Address::new([10, 0, 2, 1], 1722),
            },
            refused(tb, RegisterRefusal::DuplicateAlias(Duplicate::E164)),
        ),
        registration(
            5,
            id,
            terminal(gk_a),
            refused(id, RegisterRefusal::DuplicateAlias(Duplicate::Id)),
        ),
        unregistration(6, tb, not_registered(tb)),
        unregistration(7, id, Reply::Unregistered { id }),
        unregistration(8, id, not_registered(id)),
    ]
}

/// The entry of a registration.
fn registration(number: u32, id: Name, asked: Asked, reply: Reply) -> Wanted {
    Wanted::callless(number, EventKind::Registration, id, asked, reply)
}

/// The entry of an unregistration.
fn unregistration(number: u32, id: Name, reply: Reply) -> Wanted {
    Wanted::callless(number, EventKind::Unregistration, id, Asked::Nothing, reply)
}

/// That the endpoint with aliases registers in this zone.
fn called_in(zone: Name) -> Asked {
    Asked::Endpoint {
        kind: EndpointKind::Terminal,
        zone,
        address: Address::new([10, 0, 1, 9], 1721),
    }
}

/// That a terminal without aliases registers in this zone.
fn terminal(zone: Name) -> Asked {
    Asked::Endpoint {
        kind: EndpointKind::Terminal,
        zone,
        address: Address::new([10, 0, 1, 1], 1720),
    }
}

/// That a registration is refused.
fn refused(id: Name, reason: RegisterRefusal) -> Reply {
    Reply::RegisterRefused { id, reason }
}

/// That an endpoint may not leave, since it is not registered.
fn not_registered(id: Name) -> Reply {
    Reply::UnregisterRefused {
        id,
        reason: UnregisterRefusal::NotRegistered,
    }
}

// ---- admissions

/// Asserts what five admissions read back as, and a refused unregistration.
fn assert_admissions(rt: &impl Abort, alloc: Global, id: &[u8]) -> Result<(), Fail> {
    let given = Given::of(id)?;
    let mut core = core_of(alloc)?;
    let registered = given.are_registered(&mut core, alloc);
    let recorded = are_admissions_recorded(&mut core, &given);
    let astray = first_astray(&admissions(&given), core.record());
    drop(core);
    assert!(rt; registered? && recorded);
    assert_eq!(rt; astray, None);
    Ok(())
}

/// Whether these are recorded: an admission to a remote zone, the same again, one to the endpoint
/// with aliases, one of digits that lead nowhere, one of a caller that is not registered, and the
/// unregistration of the owner of a call.
fn are_admissions_recorded(core: &mut Core, given: &Given) -> bool {
    let Given { id, ta, tb, .. } = *given;
    is_recorded(core, admission(id, 1001, given.away, 640))
        && is_recorded(core, admission(id, 1001, given.away, 640))
        && is_recorded(core, admission(ta, 1002, given.alias, 641))
        && is_recorded(core, admission(id, 1003, given.nowhere, 642))
        && is_recorded(
            core,
            admission(tb, 4_294_967_295, given.away, 4_294_967_295),
        )
        && is_recorded(core, Event::Unregister { id })
}

/// What they read back as.
fn admissions(given: &Given) -> [Wanted; 6] {
    let Given { id, tb, .. } = *given;
    [
        granted_away(given),
        Wanted {
            zone: Some(given.gk_a),
            ..asked(4, id, 1001, given.away, 640, AdmitRefusal::CallOpen)
        },
        granted_here(given),
        without_route(given),
        asked(
            7,
            tb,
            4_294_967_295,
            given.away,
            4_294_967_295,
            AdmitRefusal::CallerNotRegistered,
        ),
        Wanted::callless(
            8,
            EventKind::Unregistration,
            id,
            Asked::Nothing,
            Reply::UnregisterRefused {
                id,
                reason: UnregisterRefusal::CallInProgress,
            },
        ),
    ]
}

/// The entry of an admission that was refused before it was routed.
fn asked(
    number: u32,
    id: Name,
    call: u32,
    digits: Dialled,
    units: u32,
    reason: AdmitRefusal,
) -> Wanted {
    let asked = Asked::Digits {
        digits,
        units: Units::new(units),
    };
    let reply = Reply::AdmitRefused { call, reason };
    Wanted::about(number, EventKind::Admission, id, call, asked, reply)
}

/// That of the admission to the remote zone.
fn granted_away(given: &Given) -> Wanted {
    let (call, units) = (1001, Units::new(640));
    let destination = &given.remote();
    let reply = Reply::Admitted {
        call,
        destination: *destination,
        units,
    };
    let asked = Asked::Digits {
        digits: given.away,
        units,
    };
    Wanted {
        zone: Some(given.gk_a),
        route: Some(Route::To(*destination)),
        opened: true,
        row: Some(CallEvent::Admitted(AdmittedCall {
            call,
            zone: given.gk_a,
            digits: given.away,
            units,
            granted: true,
            route: Route::To(*destination),
        })),
        ..Wanted::about(3, EventKind::Admission, given.id, call, asked, reply)
    }
}

/// That of the admission to the endpoint with aliases.
fn granted_here(given: &Given) -> Wanted {
    let (call, units) = (1002, Units::new(641));
    let destination = &given.called();
    let reply = Reply::Admitted {
        call,
        destination: *destination,
        units,
    };
    let asked = Asked::Digits {
        digits: given.alias,
        units,
    };
    Wanted {
        zone: Some(given.gk_a),
        route: Some(Route::To(*destination)),
        opened: true,
        row: Some(CallEvent::Admitted(AdmittedCall {
            call,
            zone: given.gk_a,
            digits: given.alias,
            units,
            granted: true,
            route: Route::To(*destination),
        })),
        ..Wanted::about(5, EventKind::Admission, given.ta, call, asked, reply)
    }
}

/// That of the admission of digits that lead nowhere.
fn without_route(given: &Given) -> Wanted {
    let (call, digits) = (1003, given.nowhere);
    let reason = AdmitRefusal::NoRoute(RouteRefusal::NoDefault);
    Wanted {
        zone: Some(given.gk_a),
        route: Some(Route::Refused(RouteRefusal::NoDefault)),
        row: Some(CallEvent::Admitted(AdmittedCall {
            call,
            zone: given.gk_a,
            digits,
            units: Units::new(642),
            granted: false,
            route: Route::Refused(RouteRefusal::NoDefault),
        })),
        ..asked(6, given.id, call, digits, 642, reason)
    }
}

// ---- changes and releases

/// Asserts what three changes of a call read back as, and its release.
fn assert_changes(rt: &impl Abort, alloc: Global, id: &[u8]) -> Result<(), Fail> {
    let given = Given::of(id)?;
    let mut core = core_of(alloc)?;
    let registered = given.are_registered(&mut core, alloc);
    let recorded = are_changes_recorded(&mut core, &given);
    let astray = first_astray(&changes(&given), core.record());
    let open = core.calls().len();
    drop(core);
    assert!(rt; registered? && recorded);
    assert_eq!(rt; astray, None);
    assert_eq!(rt; open, 0);
    Ok(())
}

/// Whether these are recorded: a change of a call, one of a call of another endpoint, one of no
/// call, and the release of the call.
fn are_changes_recorded(core: &mut Core, given: &Given) -> bool {
    let Given { id, ta, away, .. } = *given;
    is_recorded(core, admission(id, 1001, away, 640))
        && is_recorded(core, change(id, 1001, 320))
        && is_recorded(core, change(ta, 1001, 321))
        && is_recorded(core, change(id, 1009, 322))
        && is_recorded(core, Event::Release { id, call: 1001 })
}

/// What they read back as.
fn changes(given: &Given) -> [Wanted; 4] {
    let Given { id, ta, .. } = *given;
    let (call, units) = (1001, Units::new(320));
    [
        Wanted {
            row: Some(CallEvent::Changed { call, units }),
            ..changed(4, id, call, 320, Reply::Changed { call, units })
        },
        changed(5, ta, call, 321, unchanged(call, ChangeRefusal::NotYours)),
        changed(6, id, 1009, 322, unchanged(1009, ChangeRefusal::NoCall)),
        Wanted {
            row: Some(CallEvent::Released { call }),
            ..Wanted::about(
                7,
                EventKind::Release,
                id,
                call,
                Asked::Nothing,
                Reply::Released { call },
            )
        },
    ]
}

/// The entry of a change to so many units.
fn changed(number: u32, id: Name, call: u32, units: u32, reply: Reply) -> Wanted {
    let asked = Asked::Bandwidth(Units::new(units));
    Wanted::about(number, EventKind::BandwidthChange, id, call, asked, reply)
}

/// That a call keeps its bandwidth.
fn unchanged(call: u32, reason: ChangeRefusal) -> Reply {
    Reply::ChangeRefused { call, reason }
}
