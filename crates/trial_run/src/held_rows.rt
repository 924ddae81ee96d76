//! The rows of a report as it keeps them.

ghost use Rattle.std.specs.Prelude.{◌≡◌, IfOk};
ghost use Rattle.rulings.specs.Lent.{route_meant};
ghost use Rattle.trial_run.specs.Answers.{is_same, row_with, verdict_of};
ghost use Rattle.trial_run.specs.HeldAnswers.{answer_held, verdict_held};
ghost use Rattle.trial_run.specs.declared.report_rows.CandidateAnswer.TheVariants as answers;

use crate::comparing::is_led_to;
use crate::held_answers::HeldAnswer;
use crate::held_routes::{HeldRoute, lent_of};
use crate::report_rows::{CandidateAnswer, ReportRow, Verdict};
use call_rows::NumberedAdmission;
use gk_terms::Dialled;
use rulings::{LentRoute, Route};
use short_texts::PackedDigits;
use std::alloc::{AllocError, Global};
use std::marker::Model;
use std::mem::size_of;

// Each admission takes so many bytes in a report, and a block for each long name.
const _: () = prove!(size_of::<HeldRow>() == 96);

/// A row in few bytes: names of at most 19 characters in place, and the candidate's answer only if
/// it differs from the recorded one. A contract sees the row.
#[derive(Drop)]
pub(crate) struct HeldRow {
    number: u32,
    digits: Option<PackedDigits>,
    recorded: HeldRoute,
    answer: HeldAnswer,
}

impl Model for HeldRow {
    ghost use Rattle.trial_run.specs.declared.report_rows.ReportRow.{ReportRow};
    ghost use Rattle.trial_run.specs.HeldAnswers.{answer_held, verdict_held};

    ghost Value = { ReportRow };

    ghost view = { λ r. record {
      number = r.number;
      digits = r.digits;
      recorded = r.recorded;
      candidate = answer_held r.recorded r.answer;
      verdict = verdict_held r.answer;
    } };
}

impl HeldRow {
    /// The row of an admission to which the candidate answers this route. Takes memory only for
    /// names of more than 19 characters.
    pub(crate) fn led(
        alloc: Global,
        admission: &NumberedAdmission,
        route: &LentRoute,
    ) -> Result<HeldRow, AllocError>
        ensures { IfOk result (λ row.
            row ≡ row_with admission.now (answers.Led (route_meant route.now))) }
    {
        let answer = held_answer(alloc, &admission.asked.route, route)?;
        HeldRow::of(alloc, admission, answer)
    }

    /// The row of an admission whose zone is not local in the candidate. Takes memory
    /// only for a name of more than 19 characters.
    #[tactic(auto, using(crate::proofs::SpelledLemmas::never_unregistered))]
    pub(crate) fn unregistered(
        alloc: Global,
        admission: &NumberedAdmission,
    ) -> Result<HeldRow, AllocError>
        ensures { IfOk result (λ row. row ≡ row_with admission.now answers.CallerNotRegistered) }
    {
        HeldRow::of(alloc, admission, HeldAnswer::CallerNotRegistered)
    }

    /// The row of an admission with this answer.
    fn of(
        alloc: Global,
        admission: &NumberedAdmission,
        answer: HeldAnswer,
    ) -> Result<HeldRow, AllocError>
        ensures { IfOk result (λ row. row ≡ record (row_with admission.now
            (answer_held admission.now.asked.route answer)) { verdict = verdict_held answer }) }
    {
        let asked = &admission.asked;
        Ok(HeldRow {
            number: admission.number,
            digits: packed(&asked.digits),
            recorded: HeldRoute::of(alloc, &lent_of(&asked.route))?,
            answer,
        })
    }

    /// Whether the candidate answers as was recorded.
    pub(crate) fn is_same(&self) -> bool
        ensures { result ≡ is_same self.now.verdict }
    {
        matches!(self.answer, HeldAnswer::AsRecorded)
    }

    /// The row.
    pub(crate) fn row(&self) -> ReportRow
        ensures { result ≡ self.now }
    {
        let recorded = self.recorded.route();
        ReportRow {
            number: self.number,
            digits: unpacked(&self.digits),
            recorded,
            candidate: answer_of(&recorded, &self.answer),
            verdict: verdict_in(&self.answer),
        }
    }
}

/// Digits in few bytes, if there are any.
fn packed(digits: &Option<Dialled>) -> Option<PackedDigits>
    ensures { result ≡ digits.now }
{
    match digits {
        Some(digits) => Some(PackedDigits::of(digits)),
        None => None,
    }
}

/// The digits, if there are any.
fn unpacked(digits: &Option<PackedDigits>) -> Option<Dialled>
    ensures { result ≡ digits.now }
{
    match digits {
        Some(digits) => Some(digits.digits()),
        None => None,
    }
}

/// That the candidate leads there, beside the route that was recorded.
fn held_answer(alloc: Global, recorded: &Route, route: &LentRoute) -> Result<HeldAnswer, AllocError>
    ensures answer { IfOk result (λ held.
        answer_held recorded.now held ≡ answers.Led (route_meant route.now)) }
    ensures verdict { IfOk result (λ held.
        verdict_held held ≡ verdict_of recorded.now (answers.Led (route_meant route.now))) }
{
    if is_led_to(recorded, route) {
        Ok(HeldAnswer::AsRecorded)
    } else {
        Ok(HeldAnswer::Led(HeldRoute::of(alloc, route)?))
    }
}

/// The answer that is kept beside this route.
fn answer_of(recorded: &Route, answer: &HeldAnswer) -> CandidateAnswer
    ensures { result ≡ answer_held recorded.now answer.now }
{
    match answer {
        HeldAnswer::AsRecorded => CandidateAnswer::Led(*recorded),
        HeldAnswer::Led(route) => CandidateAnswer::Led(route.route()),
        HeldAnswer::CallerNotRegistered => CandidateAnswer::CallerNotRegistered,
    }
}

/// Whether an answer is as was recorded.
fn verdict_in(answer: &HeldAnswer) -> Verdict
    ensures { result ≡ verdict_held answer.now }
{
    match answer {
        HeldAnswer::AsRecorded => Verdict::Same,
        HeldAnswer::Led(_) | HeldAnswer::CallerNotRegistered => Verdict::Changed,
    }
}
