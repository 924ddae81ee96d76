//! Theorems on how calls are routed, and on what every record keeps and says. Each is the contract
//! of a function that does nothing.

ghost use Rattle.admission.specs.AnswerLaws.{AnswersLeadToTheEndpoint, AnswersOfStrangersAreRefused, AnswersToOthersCallsAreRefused, RecordedAnswersLeadToTheEndpoint, RecordedAnswersOpenTheirCalls, RecordedRepeatsChangeNothing};
ghost use Rattle.admission.specs.HistoryLaws.{RecordedAdmissionsAreRouted, RecordedRefusalsAreUnrouted, RecordedGrantsAreWithin, RecordedRaisesWereWithin, RecordedLimitsAreAbove, EndpointsAreLocal, RecordsAreSound};
ghost use Rattle.admission.specs.RouteLaws.{AdmissionsAreRouted, RefusalsAreUnrouted, StrangersAreRefused, OpenNumbersAreRefused};
ghost use Rattle.admission.specs.RowLaws.{RowsAreNeverRefused};

/// Under an accepted configuration, in any state: if the verdict on an admission is a remote zone
/// or an endpoint, the digits lead there, in one of the ways of the routing flow.
pub fn admissions_are_routed()
    ensures { AdmissionsAreRouted }
{}

/// Under an accepted configuration, in any state: if the verdict on an admission is unknown-prefix,
/// no-gateway or no-default, the digits lead nowhere, for this reason.
pub fn refusals_are_unrouted()
    ensures { RefusalsAreUnrouted }
{}

/// The verdict on an admission is callerNotRegistered exactly if its caller is not registered. A
/// full record, or that memory ran out, may be replied in its place.
pub fn strangers_are_refused()
    ensures { StrangersAreRefused }
{}

/// The verdict on an admission is call-open exactly if its caller is registered and a call of its
/// number is open. A full record, or that memory ran out, may be replied in its place.
pub fn open_numbers_are_refused()
    ensures { OpenNumbersAreRefused }
{}

/// In every legal history under accepted configurations, the opening one and each that a reload put
/// in force, as the record of a core is one: each granted admission went where its digits led, by
/// the configuration that was in force and the endpoints that were registered when it was asked.
pub fn recorded_admissions_are_routed()
    ensures { RecordedAdmissionsAreRouted }
{}

/// In every legal history under accepted configurations: each admission that was refused for its
/// route had digits that led nowhere, by the configuration then in force and the endpoints then
/// registered, for this reason.
pub fn recorded_refusals_are_unrouted()
    ensures { RecordedRefusalsAreUnrouted }
{}

/// In any state: if the verdict on an endpoint's answer to a call is a grant, the endpoint of that
/// ID is registered, and the destination is that endpoint. The call was not open, and has the
/// bandwidth that was asked; or it had been admitted to that ID, and keeps its own.
pub fn answers_lead_to_the_endpoint()
    ensures { AnswersLeadToTheEndpoint }
{}

/// The verdict on an endpoint's answer to a call is callerNotRegistered exactly if the endpoint of
/// that ID is not registered. A full record, or that memory ran out, may be replied in its place.
pub fn answers_of_strangers_are_refused()
    ensures { AnswersOfStrangersAreRefused }
{}

/// The verdict on an endpoint's answer to a call is call-open exactly if the endpoint of that ID is
/// registered, and a call of the number is open that was not admitted to that ID. A full record, or
/// that memory ran out, may be replied in its place.
pub fn answers_to_others_calls_are_refused()
    ensures { AnswersToOthersCallsAreRefused }
{}

/// In every legal history: each granted answer to a call led to the endpoint of that ID which was
/// registered when it was asked.
pub fn recorded_answers_lead_to_the_endpoint()
    ensures { RecordedAnswersLeadToTheEndpoint }
{}

/// In every legal history: after each granted answer to a call whose number was not open, the call
/// is open. It belongs to the endpoint of that ID which was registered when it was asked, leads
/// from another gatekeeper, of which no zone is known, to that endpoint's zone, and has the
/// bandwidth that was asked.
pub fn recorded_answers_open_their_calls()
    ensures { RecordedAnswersOpenTheirCalls }
{}

/// In every legal history: a call whose number was open was granted only as an answer of the ID to
/// which that call had been admitted, and as it was, with its own bandwidth, and left the endpoints
/// and the open calls as they were. So an admission was granted only if no call of its number was
/// open.
pub fn recorded_repeats_change_nothing()
    ensures { RecordedRepeatsChangeNothing }
{}

/// In every legal history: after each grant, a call that is opened or a raise, the call is open
/// with the bandwidth that was granted, and no sum of it is above its limit in force.
pub fn recorded_grants_are_within()
    ensures { RecordedGrantsAreWithin }
{}

/// In every legal history: no raise was granted while a sum of its call stood above its limit in
/// force.
pub fn recorded_raises_were_within()
    ensures { RecordedRaisesWereWithin }
{}

/// In every legal history: each refusal for a limit, of an admission, of an answer to a call or of
/// a bandwidth change, names a sum in which the call that asks counts, and that would be above its
/// limit in force with it. No call of the number of such an admission or answer was open.
pub fn recorded_limits_are_above()
    ensures { RecordedLimitsAreAbove }
{}

/// In every legal history: each registered endpoint is in a local zone of the configuration then in
/// force, so the technology prefixes of each registered gateway count.
pub fn endpoints_are_local()
    ensures { EndpointsAreLocal }
{}

/// Every legal history has the commands in force that were put in force last, as its version says,
/// keeps its limits, counts its entries, and leaves no more endpoints, calls, reloads or entries
/// than its limits allow, with room for the entry of the release of each open call.
pub fn records_are_sound()
    ensures { RecordsAreSound }
{}

/// In every legal history under limits in their ranges: the row of each entry, if it has one, may
/// be put into a snapshot after the rows of the entries before it, so that only memory is lacking
/// if a snapshot is refused.
pub fn rows_are_never_refused()
    ensures { RowsAreNeverRefused }
{}
