//! What a registration and an unregistration change in the endpoints by number, and in the places
//! that gateways serve.

ghost use Rattle.std.specs.Prelude.{◌≡◌, ℕ, ◌<◌, ◌≤◌, ◌+◌, ◌^◌, Some, None, false, OnOk, OnErr, IfOk, IsOk, IsSome};
ghost use Rattle.registry.specs.Gateway.{is_gateway};
ghost use Rattle.registry.specs.NumberedEndpoints.{IsChangedAt, IsNumberFor, IsPut, IsSetAt, IsTakenOut, by_id, kept_endpoint_of};
ghost use Rattle.registry.specs.RegistryIndex.{AreServed};

use crate::held_endpoint::HeldEndpoint;
use crate::numbered_endpoints::NumberedEndpoints;
use crate::served::Served;
use gk_terms::Name;
use std::alloc::AllocError;

/// Puts the endpoint in the place of the one with its ID, or else at the end. Gives its number, and
/// the endpoint that it replaces, if there was one. If memory runs out the endpoints are as before;
/// it never does for a terminal whose ID is there.
pub fn insert(
    by_number: &mut NumberedEndpoints,
    serving: &mut Served,
    held: HeldEndpoint,
    id: &Name,
) -> Result<(u32, Option<HeldEndpoint>), AllocError>
    requires served { AreServed serving.old by_number.old.entries }
    requires room { by_number.old.next + 1 < 2 ^ 32 }
    requires own { id.now ≡ held.id }
    ensures served { AreServed serving.new by_number.new.entries }
    ensures ok { OnOk result
        (IsPut (by_id by_number.old.entries) (by_id by_number.new.entries) held) }
    ensures changed { IfOk result (λ put.
        IsChangedAt by_number.old by_number.new.entries held.id put.0 put.1 (Some held)) }
    ensures next { by_number.new.next ≤ by_number.old.next + 1 }
    ensures err { OnErr result (by_number.new ≡ by_number.old) }
    ensures again { is_gateway held.kind ≡ false
        → IsSome (kept_endpoint_of (by_id by_number.old.entries) held.id) → IsOk result }
{
    let number = by_number.number_for(id);
    if serving.enter(number, &held).is_err() {
        serving.leave(number, Some(&held), by_number);
        return Err(AllocError);
    }
    match by_number.insert(number, held, id) {
        Ok(replaced) => {
            serving.leave(number, replaced.as_ref(), by_number);
            Ok((number, replaced))
        }
        Err(held) => {
            serving.leave(number, Some(&held), by_number);
            Err(AllocError)
        }
    }
}

/// Takes out the endpoint with this ID, if there is one. Takes no memory.
pub fn remove(
    by_number: &mut NumberedEndpoints,
    serving: &mut Served,
    id: &Name,
) -> Option<HeldEndpoint>
    requires served { AreServed serving.old by_number.old.entries }
    ensures served { AreServed serving.new by_number.new.entries }
    ensures removed { result ≡ kept_endpoint_of (by_id by_number.old.entries) id.now }
    ensures entries { IsTakenOut (by_id by_number.old.entries)
        (by_id by_number.new.entries) id.now }
    ensures numbered { (number : _) → IsNumberFor by_number.old id.now number
        → IsSetAt by_number.old.entries by_number.new.entries number None }
    ensures changed { (number : ℕ)
        × IsChangedAt by_number.old by_number.new.entries id.now number result None }
    ensures next { by_number.new.next ≡ by_number.old.next }
{
    let number = by_number.number_for(id);
    let removed = by_number.remove(id);
    serving.leave(number, removed.as_ref(), by_number);
    removed
}
