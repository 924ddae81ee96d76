//! A law of the definitions.

ghost use Rattle.difference_counts.specs.Laws.{ThereAreSoMany};

#[tactic(auto, using(crate::proofs::NumberLemmas::there_are_so_many))]
/// There are 37,289,660,931,454,747,757,856,918,508,500,060 texts of 1 to 32 of the twelve
/// characters that may be dialled.
pub fn there_are_so_many()
    ensures { ThereAreSoMany }
{}
