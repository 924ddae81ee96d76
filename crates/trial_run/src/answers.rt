//! What the candidate answers to an admission.

ghost use Rattle.std.specs.Prelude.{◌≡◌, Some, None, IfOk, option_and_then, unwrap_or};
ghost use Rattle.gk_commands.specs.Accepted.{IsAccepted};
ghost use Rattle.rulings.specs.Lent.{route_meant};
ghost use Rattle.trial_run.specs.Numbers.{local_number, number_if_local, touched_by};
ghost use Rattle.trial_run.specs.TriedRow.{IsTried};

use crate::held_routes::lent_of;
use crate::held_rows::HeldRow;
use crate::touched::Touched;
use crate::tried_rows::TriedRow;
use call_rows::NumberedAdmission;
use compiler::{Tables, ZoneNo, ZoneView};
use gk_terms::{Dialled, Name};
use registry::Registry;
use rulings::{LentRoute, led};
use std::alloc::{AllocError, Global};

/// What the candidate answers to an admission of the recorded zone, and the zones that its call
/// then touches. The endpoints are those of zones that are local there.
pub(crate) fn try_admission(
    alloc: Global,
    tables: &Tables,
    registry: &Registry,
    admission: &NumberedAdmission,
) -> Result<TriedRow, AllocError>
    requires { IsAccepted tables.now.commands }
    ensures { IfOk result (λ tried.
        IsTried tables.now.commands registry.now.endpoints admission.now tried) }
{
    match number_of_local(tables, &admission.asked.zone) {
        Some(source) => try_local(alloc, tables, registry, admission, source),
        None => try_unregistered(alloc, tables, registry, admission),
    }
}

/// The same, if the zone is local; this is its number.
fn try_local(
    alloc: Global,
    tables: &Tables,
    registry: &Registry,
    admission: &NumberedAdmission,
    source: u32,
) -> Result<TriedRow, AllocError>
    requires accepted { IsAccepted tables.now.commands }
    requires local { local_number tables.now.commands admission.now.asked.zone ≡ Some source }
    ensures { IfOk result (λ tried.
        IsTried tables.now.commands registry.now.endpoints admission.now tried) }
{
    match &admission.asked.digits {
        Some(digits) => try_dialled(alloc, tables, registry, admission, digits, source),
        None => try_answer(alloc, tables, registry, admission, source),
    }
}

/// The same of an admission for which this was dialled.
fn try_dialled(
    alloc: Global,
    tables: &Tables,
    registry: &Registry,
    admission: &NumberedAdmission,
    digits: &Dialled,
    source: u32,
) -> Result<TriedRow, AllocError>
    requires accepted { IsAccepted tables.now.commands }
    requires local { local_number tables.now.commands admission.now.asked.zone ≡ Some source }
    requires dialled { admission.now.asked.digits ≡ Some digits.now }
    ensures { IfOk result (λ tried.
        IsTried tables.now.commands registry.now.endpoints admission.now tried) }
{
    let led = led(tables, registry, &admission.asked.zone, digits);
    let touched = touched_of(&led.route, source, led.zone);
    let row = HeldRow::led(alloc, admission, &led.route)?;
    Ok(TriedRow { row, touched })
}

/// The same of the answer to a call, which is given as was recorded.
fn try_answer(
    alloc: Global,
    tables: &Tables,
    registry: &Registry,
    admission: &NumberedAdmission,
    source: u32,
) -> Result<TriedRow, AllocError>
    requires local { local_number tables.now.commands admission.now.asked.zone ≡ Some source }
    requires answer { admission.now.asked.digits ≡ None }
    ensures { IfOk result (λ tried.
        IsTried tables.now.commands registry.now.endpoints admission.now tried) }
{
    let route = lent_of(&admission.asked.route);
    let touched = touched_of(&route, source, None);
    let row = HeldRow::led(alloc, admission, &route)?;
    Ok(TriedRow { row, touched })
}

/// The same, if the zone is not local.
#[tactic(auto, using(crate::proofs::NumberLemmas::unregistered_row))]
fn try_unregistered(
    alloc: Global,
    tables: &Tables,
    registry: &Registry,
    admission: &NumberedAdmission,
) -> Result<TriedRow, AllocError>
    requires { local_number tables.now.commands admission.now.asked.zone ≡ None }
    ensures { IfOk result (λ tried.
        IsTried tables.now.commands registry.now.endpoints admission.now tried) }
{
    let row = HeldRow::unregistered(alloc, admission)?;
    Ok(TriedRow {
        row,
        touched: Touched::Neither,
    })
}

/// The zones that a call along this route touches: that of the endpoint that asked, and that of the
/// destination, which is the same one if there is no number.
fn touched_of(route: &LentRoute, source: u32, target: Option<ZoneNo>) -> Touched
    ensures { result ≡ touched_by (route_meant route.now) source (unwrap_or target source) }
{
    match route {
        LentRoute::To { .. } => Touched::Zones {
            source,
            target: number_or(target, source),
        },
        LentRoute::Refused(_) => Touched::Neither,
    }
}

/// The number, or this one if there is none.
fn number_or(number: Option<ZoneNo>, other: u32) -> u32
    ensures { result ≡ unwrap_or number other }
{
    match number {
        Some(number) => number.place(),
        None => other,
    }
}

/// The number of a zone of the candidate, if it is a local one.
#[tactic(auto, using(crate::proofs::NumberLemmas::number_of_view))]
fn number_of_local(tables: &Tables, zone: &Name) -> Option<u32>
    ensures { result ≡ local_number tables.now.commands zone.now }
{
    number_in_view(&tables.zone_of(zone))
}

/// The number of a zone that was found, if it is a local one.
fn number_in_view(found: &Option<ZoneView>) -> Option<u32>
    ensures { result ≡ option_and_then number_if_local found.now }
{
    match found {
        Some(view) => number_if_local(view),
        None => None,
    }
}

/// The number of a zone, if it is a local one.
fn number_if_local(view: &ZoneView) -> Option<u32>
    ensures { result ≡ number_if_local view.now }
{
    if view.local {
        Some(view.no.place())
    } else {
        None
    }
}
