//! Laws of the definitions.

ghost use Rattle.registry.specs.GatewayLaws.{ComputedIsChosen, ChosenIsComputed, NoneWithoutCandidate};

/// The gateway that the definitions compute is exactly the one that the relation names, and none is
/// computed exactly if no endpoint is a candidate.
pub fn gateway_is_chosen()
    ensures chosen { ComputedIsChosen }
    ensures computed { ChosenIsComputed }
    ensures none { NoneWithoutCandidate }
{}
