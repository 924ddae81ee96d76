//! Laws of the definitions.

ghost use Rattle.explanation.specs.Laws.{ChosenStandsFirst, StepsLeadToRoute};

/// Of the gateways among which one is chosen, the one that is chosen stands first; and if none is
/// chosen, each of them has priority 0. This is of the commands of an accepted configuration, which
/// give no priority above 10.
pub fn the_chosen_gateway_stands_first()
    ensures { ChosenStandsFirst }
{}

/// The steps lead to the route: digits that are sent to a zone of another gatekeeper lead to that
/// zone, and those that are sent nowhere are refused as an unknown prefix; in a local zone they
/// lead to the endpoint of the ID that was found by alias, or else to the first of the gateways,
/// unless there is none or its priority is 0, for which the refusal is that there is no gateway;
/// and without a default technology the refusal is that. This is of the commands of an accepted
/// configuration.
pub fn the_steps_lead_to_the_route()
    ensures { StepsLeadToRoute }
{}
