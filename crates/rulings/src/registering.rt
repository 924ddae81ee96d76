//! Registrations, as a machine asks a registry for them.

ghost use Rattle.std.specs.Prelude.{◌≡◌, true};
ghost use Rattle.registry.specs.Registration.{is_registered, without_endpoint};
ghost use Rattle.rulings.specs.Refusals as Refusals;

use crate::replies::RegisterRefusal;
use gk_terms::Name;
use registry::{PlacementFault, Registry};

/// The refusal of a registration, in the words of a reply.
pub fn refusal_of(fault: PlacementFault) -> RegisterRefusal
    ensures { result ≡ Refusals.refusal_of fault }
{
    match fault {
        PlacementFault::UnknownZone => RegisterRefusal::UnknownZone,
        PlacementFault::DuplicateAlias(duplicate) => RegisterRefusal::DuplicateAlias(duplicate),
    }
}

#[tactic(auto, using(crate::proofs::RegisteringLemmas::unregisters))]
/// Takes out an endpoint that is registered.
pub fn remove_from(registry: &mut Registry, id: &Name)
    requires { is_registered registry.old.endpoints id.now ≡ true }
    ensures { registry.new ≡ record registry.old {
      endpoints = without_endpoint registry.old.endpoints id.now;
    } }
{
    let _ = registry.unregister(id);
}
