//! Laws of the definitions.

ghost use Rattle.compiler.specs.Plan.{LearnsNothing, LearnedIsNoLonger, LearnedIsLonger};

/// What learned technology prefixes make of a plan: nothing if there are none, or if none with which
/// the digits begin is longer than the declared one; else the plan after the longest.
pub fn learned_prefixes_win_if_longer()
    ensures nothing { LearnsNothing }
    ensures no_longer { LearnedIsNoLonger }
    ensures longer { LearnedIsLonger }
{}
