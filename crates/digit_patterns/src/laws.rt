//! Theorems on all patterns and all tables. Each is the contract of a function that does nothing.

ghost use Rattle.digit_patterns.specs.Laws.{RankDecides, RankOrders, RankIsTotal, BestIsLongest, ReadsBack};

#[tactic(auto, using(crate::proofs::RankLaws::same_rank))]
/// Two patterns of one rank that match one text are the same pattern.
pub fn rank_decides()
    ensures { RankDecides }
{}

#[tactic(auto, using(crate::proofs::RankLaws::rank_orders))]
/// No pattern outranks itself, and what outranks one that outranks a third outranks the third.
pub fn rank_orders()
    ensures { RankOrders }
{}

#[tactic(auto, using(crate::proofs::RankLaws::rank_is_total))]
/// Of two different patterns that match one text, one outranks the other.
pub fn rank_is_total()
    ensures { RankIsTotal }
{}

#[tactic(auto, using(crate::proofs::RankLaws::best_is_longest))]
/// The row that a table finds has the longest pattern that matches; it finds none only if no row
/// matches.
pub fn best_is_longest()
    ensures { BestIsLongest }
{}

#[tactic(auto, using(crate::proofs::ReadBack::reads_back))]
/// The text of a pattern spells that pattern.
pub fn reads_back()
    ensures { ReadsBack }
{}
