//! The row that a step tells, beside the admissions.

ghost use Rattle.std.specs.Prelude.{◌≡◌, option_and_then};
ghost use Rattle.call_rows.specs.declared.steps.StepKind.TheVariants as kinds;
ghost use Rattle.call_rows.specs.SnapshotIndex.{if_row, row_told};

use crate::admission_list::AdmissionList;
use crate::rows::{CallEvent, CallRow};
use crate::steps::{Step, StepKind};
use gk_terms::Units;

/// The row of a step.
pub fn row_of(admissions: &AdmissionList, step: &Step) -> Option<CallRow>
    ensures { result ≡ option_and_then if_row (row_told admissions.now.items step.now) }
{
    match step.kind() {
        StepKind::Admitted => admitted(admissions, step),
        StepKind::Changed => changed(admissions, step),
        StepKind::Released => released(admissions, step),
    }
}

/// That of an admission.
fn admitted(admissions: &AdmissionList, step: &Step) -> Option<CallRow>
    requires { step.now.kind ≡ kinds.Admitted }
    ensures { result ≡ option_and_then if_row (row_told admissions.now.items step.now) }
{
    match &admissions.get(step.admission() as usize) {
        Some(found) => CallRow::new(step.number(), found.asked.event()),
        None => None,
    }
}

/// That of a change.
fn changed(admissions: &AdmissionList, step: &Step) -> Option<CallRow>
    requires { step.now.kind ≡ kinds.Changed }
    ensures { result ≡ option_and_then if_row (row_told admissions.now.items step.now) }
{
    match admissions.call(step.admission() as usize) {
        Some(call) => CallRow::new(
            step.number(),
            CallEvent::Changed {
                call,
                units: Units::new(step.gained()),
            },
        ),
        None => None,
    }
}

/// That of a release.
fn released(admissions: &AdmissionList, step: &Step) -> Option<CallRow>
    requires { step.now.kind ≡ kinds.Released }
    ensures { result ≡ option_and_then if_row (row_told admissions.now.items step.now) }
{
    match admissions.call(step.admission() as usize) {
        Some(call) => CallRow::new(step.number(), CallEvent::Released { call }),
        None => None,
    }
}
