//! Open calls and their sums: each of their calls once.

use bandwidth::{CallsFault, OpenCall, OpenCalls};
use gk_terms::{Name, Units};
use std::process::Abort;
use std::test::Fail;

#[test]
fn calls_are_opened_changed_and_closed(rt: HostRuntime) -> Result<(), Fail> {
    let zone = Name::read(b"a")?;
    let outgoing = OpenCall {
        number: 1,
        owner: Name::read(b"ta")?,
        source: Some(zone),
        target: Name::read(b"x")?,
        remote: true,
        units: Units::new(600),
        answerer: None,
    };
    let incoming = OpenCall {
        source: None,
        target: zone,
        ..outgoing
    };
    let mut calls = OpenCalls::new(rt.alloc(), 1);
    assert_steps(&rt, &mut calls, &outgoing, &zone)?;
    assert_steps(&rt, &mut calls, &incoming, &zone)
}

/// The call is opened, counts in the zone as much as it is changed to, as a call between two zones
/// and to or from another gatekeeper, and no more once it is closed. Another one is one too many.
fn assert_steps(
    rt: &impl Abort,
    calls: &mut OpenCalls,
    call: &OpenCall,
    zone: &Name,
) -> Result<(), Fail> {
    let owner = call.owner;
    let another = OpenCall { number: 2, ..*call };
    calls.open(*call)?;
    assert!(rt; calls.open(another) == Err(CallsFault::Full));
    assert!(rt; calls.is_open(1) && calls.owns(&owner));
    calls.change(1, &owner, Units::new(700))?;
    let sums = (calls.total(zone), calls.interzone(zone), calls.remote());
    assert!(rt; sums == (700, 700, 700));
    let closed = calls.close(1, &owner)?;
    assert!(rt; closed.units == Units::new(700));
    assert!(rt; calls.len() == 0 && calls.total(zone) == 0);
    assert!(rt; calls.close(1, &owner) == Err(CallsFault::NoCall));
    Ok(())
}
