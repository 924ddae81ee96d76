//! What admissions in few bytes say.

ghost use Rattle.std.specs.Prelude.{◌≡◌, slice_get, option_map, option_and_then};
ghost use Rattle.std.specs.Option.{option_copied};
ghost use Rattle.call_rows.specs.KeptAdmission as Spec;

use crate::held::WholeAdmission;
use crate::kept_admission::{KeptAdmission, ShortAnswer, ShortAsked};
use crate::rows::{AskedCall, NumberedAdmission};
use gk_terms::{Dialled, Name};
use rulings::Route;

impl KeptAdmission {
    /// The admission, beside those that stand whole; none if it is none of theirs.
    pub fn admission(&self, aside: &[WholeAdmission]) -> Option<NumberedAdmission>
        ensures { result ≡ Spec.admission_meant aside.now self.now }
    {
        match self {
            KeptAdmission::Granted {
                kind,
                address,
                asked,
                name,
            } => {
                let route = Route::To(kind.destination(&name.name(), *address));
                Some(asked.admission(true, &route))
            }
            KeptAdmission::OverLimit {
                kind,
                address,
                asked,
                name,
            } => {
                let route = Route::To(kind.destination(&name.name(), *address));
                Some(asked.admission(false, &route))
            }
            KeptAdmission::Refused { refusal, asked } => {
                Some(asked.admission(false, &Route::Refused(*refusal)))
            }
            KeptAdmission::Answered {
                granted,
                kind,
                address,
                asked,
                name,
            } => {
                let route = Route::To(kind.destination(&name.name(), *address));
                Some(asked.admission(*granted, &route))
            }
            KeptAdmission::Aside { place } => whole(aside, *place),
        }
    }

    /// The number of its call, likewise.
    pub fn call(&self, aside: &[WholeAdmission]) -> Option<u32>
        ensures { result
            ≡ option_map (λ a. a.asked.call) (Spec.admission_meant aside.now self.now) }
    {
        match self {
            KeptAdmission::Granted { asked, .. } | KeptAdmission::OverLimit { asked, .. } => {
                Some(asked.call)
            }
            KeptAdmission::Refused { asked, .. } => Some(asked.call),
            KeptAdmission::Answered { asked, .. } => Some(asked.call),
            KeptAdmission::Aside { place } => match whole_at(aside, *place as usize) {
                Some(held) => Some(held.admission().asked.call),
                None => None,
            },
        }
    }
}

impl KeptAdmission {
    /// The zone of the endpoint that asked, likewise.
    pub fn zone(&self, aside: &[WholeAdmission]) -> Option<Name>
        ensures { result
            ≡ option_map (λ a. a.asked.zone) (Spec.admission_meant aside.now self.now) }
    {
        match self {
            KeptAdmission::Granted { asked, .. } | KeptAdmission::OverLimit { asked, .. } => {
                Some(asked.zone.name())
            }
            KeptAdmission::Refused { asked, .. } => Some(asked.zone.name()),
            KeptAdmission::Answered { asked, .. } => Some(asked.zone.name()),
            KeptAdmission::Aside { place } => match whole_at(aside, *place as usize) {
                Some(held) => Some(held.admission().asked.zone),
                None => None,
            },
        }
    }

    /// What was dialled, likewise; none if it is an answer.
    pub fn digits(&self, aside: &[WholeAdmission]) -> Option<Dialled>
        ensures { result
            ≡ option_and_then (λ a. a.asked.digits) (Spec.admission_meant aside.now self.now) }
    {
        match self {
            KeptAdmission::Granted { asked, .. } | KeptAdmission::OverLimit { asked, .. } => {
                Some(asked.digits.digits())
            }
            KeptAdmission::Refused { asked, .. } => Some(asked.digits.digits()),
            KeptAdmission::Answered { .. } => None,
            KeptAdmission::Aside { place } => match whole_at(aside, *place as usize) {
                Some(held) => held.admission().asked.digits,
                None => None,
            },
        }
    }
}

impl ShortAsked {
    /// The admission that asked this, by what came of it.
    pub fn admission(&self, granted: bool, route: &Route) -> NumberedAdmission
        ensures { result ≡ Spec.asked_meant self.now granted route.now }
    {
        NumberedAdmission {
            number: self.number,
            asked: AskedCall {
                call: self.call,
                zone: self.zone.name(),
                digits: Some(self.digits.digits()),
                units: self.units,
                granted,
                route: *route,
            },
        }
    }
}

impl ShortAnswer {
    /// The answer that asked this, by what came of it.
    pub fn admission(&self, granted: bool, route: &Route) -> NumberedAdmission
        ensures { result ≡ Spec.answer_meant self.now granted route.now }
    {
        NumberedAdmission {
            number: self.number,
            asked: AskedCall {
                call: self.call,
                zone: self.zone.name(),
                digits: None,
                units: self.units,
                granted,
                route: *route,
            },
        }
    }
}

/// The admission at this place.
fn whole(aside: &[WholeAdmission], place: u32) -> Option<NumberedAdmission>
    ensures { result ≡ slice_get aside.now place }
{
    match whole_at(aside, place as usize) {
        Some(held) => Some(*held.admission()),
        None => None,
    }
}

/// The same, as it is held.
pub fn whole_at(aside: &[WholeAdmission], place: usize) -> Option<&WholeAdmission>
    ensures { option_copied result ≡ slice_get aside.now place }
{
    aside.get(place)
}
