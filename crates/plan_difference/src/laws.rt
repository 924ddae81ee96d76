//! A law of the definitions.

ghost use Rattle.plan_difference.specs.Laws.{SetsHavePlans};

/// The digits of a set are planned by the zone prefixes that it names, and by the technology
/// prefixes that are found for them.
pub fn sets_have_plans()
    ensures { SetsHavePlans }
{}
