//! Laws of the definitions: what they compute to, that this is a run, the only one if memory lasts
//! and threads are started, and with which figures.

ghost use Rattle.std.specs.Prelude.{◌≡◌};
ghost use Rattle.run_laws.specs.Figures.{AreStated};
ghost use Rattle.run_laws.specs.Output.{OutputIsRun, OutputIsRunInMemory, OutputIsOnlyRun};
ghost use Rattle.run_laws.specs.Rows as Rows;

use admission::STATED_LIMITS;

/// What the definitions compute as the output of a run is what a run may write: `run_over` may
/// answer so.
pub fn output_is_run()
    ensures { OutputIsRun }
{}

/// If memory runs out for no request, and each thread of a trial is started, that is still a run,
/// and no other output is.
pub fn output_is_only_run()
    ensures run { OutputIsRunInMemory }
    ensures only { OutputIsOnlyRun }
{}

/// The figures of the definitions are those that the documents state; a definition takes each from
/// the code, so that a wrong one there would be a wrong one here.
pub fn figures_are_stated()
    ensures { AreStated }
{}

/// Worked rows, computed on the definitions alone, from the bytes of configuration and requests to
/// those of the replies, within the stated limits, or smaller ones that a row names.
pub fn worked_rows()
    ensures limits { Rows.stated ≡ STATED_LIMITS }
    ensures first_run { Rows.FirstRun }
    ensures open_call { Rows.OpenCall }
    ensures full_record { Rows.FullRecord }
    ensures stranger { Rows.Stranger }
    ensures faults { Rows.Faults }
    ensures by_pattern { Rows.ByPatternCostAndHopoff }
    ensures prefix_alone { Rows.PrefixAlone }
    ensures greatest { Rows.GreatestPriority }
    ensures priority_zero { Rows.PriorityZero }
    ensures unknown_prefix { Rows.UnknownPrefix }
    ensures alias_or_default { Rows.AliasOrDefault }
    ensures no_default { Rows.NoDefault }
    ensures other_aliases { Rows.OtherAliases }
    ensures long_digits { Rows.LongDigits }
    ensures learned_until_it_leaves { Rows.LearnedUntilItLeaves }
    ensures learned_before_hopoff { Rows.LearnedBeforeHopoff }
    ensures none_learned_from_terminals { Rows.NoneLearnedFromTerminals }
    ensures learned_undeclared { Rows.LearnedUndeclared }
    ensures full_total { Rows.FullTotal }
    ensures session_before_total { Rows.SessionBeforeTotal }
    ensures between_zones { Rows.BetweenZones }
    ensures to_remote_zones { Rows.ToRemoteZones }
    ensures raised_and_lowered { Rows.RaisedAndLowered }
    ensures counted_in_target_zone { Rows.CountedInTargetZone }
    ensures by_owner_alone { Rows.ByOwnerAlone }
    ensures answered_calls { Rows.AnsweredCalls }
    ensures answer_above_remote { Rows.AnswerAboveRemote }
    ensures answer_between_zones { Rows.AnswerBetweenZones }
    ensures answered_elsewhere { Rows.AnsweredElsewhere }
    ensures answers_with_full_counts { Rows.AnswersWithFullCounts }
    ensures answer_keeps_place { Rows.AnswerKeepsPlace }
    ensures routed_by_new_lines { Rows.RoutedByNewLines }
    ensures limited_by_new_lines { Rows.LimitedByNewLines }
    ensures answered_above_new_lines { Rows.AnsweredAboveNewLines }
    ensures without_second_zone { Rows.WithoutSecondZone }
    ensures faulty_reloads { Rows.FaultyReloads }
    ensures smallest_limits { Rows.SmallestLimits }
    ensures tried_on_calls { Rows.TriedOnCalls }
    ensures tried_on_answers { Rows.TriedOnAnswers }
    ensures tried_by_none { Rows.TriedByNone }
{}
