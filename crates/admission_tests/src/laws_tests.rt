//! The laws do nothing; that they can be called shows that none of them rests on a premise.

use admission::laws;

#[test]
fn laws_can_be_called(_rt: HostRuntime) {
    laws::admissions_are_routed();
    laws::refusals_are_unrouted();
    laws::strangers_are_refused();
    laws::open_numbers_are_refused();
    laws::recorded_admissions_are_routed();
    laws::recorded_refusals_are_unrouted();
    laws::answers_lead_to_the_endpoint();
    laws::answers_of_strangers_are_refused();
    laws::answers_to_others_calls_are_refused();
    laws::recorded_answers_lead_to_the_endpoint();
    laws::recorded_answers_open_their_calls();
    laws::recorded_repeats_change_nothing();
    laws::recorded_grants_are_within();
    laws::recorded_raises_were_within();
    laws::recorded_limits_are_above();
    laws::endpoints_are_local();
    laws::records_are_sound();
    laws::rows_are_never_refused();
}
