//! Looks at what is shown. Each enters, tests whether what is shown has all that was told, and
//! leaves.

ghost use Rattle.std.specs.Prelude.{◌≡◌, ◌-◌, length, Some, IfOk, slice_get};
ghost use Rattle.std.specs.Arc.{arc_value};
ghost use mathlib.Core.List.{IsPrefix};
ghost use Rattle.left_right.specs.Sides.{view};
ghost use Rattle.compiler.specs.Plan.{plan_of, target_of};
ghost use Rattle.publisher.specs.Generations.{commands_of};
ghost use Rattle.publisher.specs.History.{generations_in};
ghost use Rattle.publisher.specs.Publications.{list_of};

use crate::blanks::Imprint;
use crate::faults::{Lost, TablesFault};
use crate::fronts::Front;
use crate::publications::Publication;
use crate::showing::{Place, Shown};
use compiler::{Routed, Tables};
use gk_terms::{Dialled, Version};
use std::alloc::Global;
use std::sync::Arc;

/// The version that is shown.
pub(crate) fn version_of<J: Imprint>(
    place: Place<J>,
    told: &Front<J>,
) -> (Place<J>, Result<Version, Lost>)
    ensures grows { IsPrefix (view place.place) (view result.0.place) }
    ensures told { IfOk result.1 (λ _. IsPrefix (generations_in told.now) (view result.0.place)) }
    ensures version { IfOk result.1 (λ version. version ≡ length (view result.0.place)) }
{
    let reading = match place.enter_as::<Shown<J>>() {
        Ok(reading) => reading,
        Err(place) => return (place, Err(Lost)),
    };
    let answer = version_in(reading.get(), told);
    (reading.leave(), answer)
}

/// The tables that are shown, with their version.
pub(crate) fn tables_of<J: Imprint>(
    place: Place<J>,
    told: &Front<J>,
) -> (
    Place<J>,
    Result<(Version, Arc<Tables, Global>), TablesFault>,
)
    ensures grows { IsPrefix (view place.place) (view result.0.place) }
    ensures told { IfOk result.1 (λ _. IsPrefix (generations_in told.now) (view result.0.place)) }
    ensures version { IfOk result.1 (λ read. read.0 ≡ length (view result.0.place)) }
    ensures tables { IfOk result.1 (λ read.
        slice_get (view result.0.place) (read.0 - 1) ≡ Some (arc_value read.1).commands) }
{
    let reading = match place.enter_as::<Shown<J>>() {
        Ok(reading) => reading,
        Err(place) => return (place, Err(TablesFault::Lost)),
    };
    let answer = tables_in(reading.get(), told);
    (reading.leave(), answer)
}

/// Where a call to these digits is to go by the tables that are shown.
pub(crate) fn route_of<J: Imprint>(
    place: Place<J>,
    asked: (&Front<J>, &Dialled),
) -> (Place<J>, Result<Routed, Lost>)
    ensures grows { IsPrefix (view place.place) (view result.0.place) }
    ensures told { IfOk result.1 (λ _. IsPrefix (generations_in asked.entry.0.now)
        (view result.0.place)) }
    ensures version { IfOk result.1 (λ routed. routed.version ≡ length (view result.0.place)) }
    ensures dialled { IfOk result.1 (λ routed. routed.dialled ≡ asked.entry.1.now) }
    ensures plan { IfOk result.1 (λ routed.
        let commands = commands_of (view result.0.place) routed.version in
        target_of commands routed.plan ≡ Some (plan_of commands asked.entry.1.now)) }
{
    let reading = match place.enter_as::<Shown<J>>() {
        Ok(reading) => reading,
        Err(place) => return (place, Err(Lost)),
    };
    let (told, digits) = asked;
    let answer = route_in(reading.get(), told, digits);
    (reading.leave(), answer)
}

/// The version of a publication that has all that was told.
fn version_in<J: Imprint>(shown: &Publication, told: &Front<J>) -> Result<Version, Lost>
    requires { shown.now.stem.seen.book ≡ J.book }
    ensures told { IfOk result (λ _. IsPrefix (generations_in told.now) (list_of shown.now)) }
    ensures version { IfOk result (λ version. version ≡ length (list_of shown.now)) }
{
    if !shown.has(told) {
        return Err(Lost);
    }
    Ok(shown.version())
}

/// The tables of a publication that has all that was told.
fn tables_in<J: Imprint>(
    shown: &Publication,
    told: &Front<J>,
) -> Result<(Version, Arc<Tables, Global>), TablesFault>
    requires { shown.now.stem.seen.book ≡ J.book }
    ensures told { IfOk result (λ _. IsPrefix (generations_in told.now) (list_of shown.now)) }
    ensures version { IfOk result (λ read. read.0 ≡ length (list_of shown.now)) }
    ensures tables { IfOk result (λ read.
        slice_get (list_of shown.now) (read.0 - 1) ≡ Some (arc_value read.1).commands) }
{
    if !shown.has(told) {
        return Err(TablesFault::Lost);
    }
    match Arc::try_clone(&shown.tables) {
        Ok(tables) => Ok((shown.version(), tables)),
        Err(_) => Err(TablesFault::TooManyOwners),
    }
}

/// Where a call is to go by a publication that has all that was told.
fn route_in<J: Imprint>(
    shown: &Publication,
    told: &Front<J>,
    digits: &Dialled,
) -> Result<Routed, Lost>
    requires { shown.now.stem.seen.book ≡ J.book }
    ensures told { IfOk result (λ _. IsPrefix (generations_in told.now) (list_of shown.now)) }
    ensures version { IfOk result (λ routed. routed.version ≡ length (list_of shown.now)) }
    ensures dialled { IfOk result (λ routed. routed.dialled ≡ digits.now) }
    ensures plan { IfOk result (λ routed.
        let commands = commands_of (list_of shown.now) routed.version in
        target_of commands routed.plan ≡ Some (plan_of commands digits.now)) }
{
    if !shown.has(told) {
        return Err(Lost);
    }
    Ok(shown.tables.routed(shown.version(), digits))
}
