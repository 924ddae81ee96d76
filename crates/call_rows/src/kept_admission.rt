//! Admissions in few bytes.

ghost use Rattle.std.specs.Prelude.{◌≡◌, [], Some, None, IfSome, is_some, length, nat_le, not};
ghost use Rattle.rulings.specs.Lent.{destination_meant};
ghost use Rattle.call_rows.specs.KeptAdmission as Spec;

use crate::rows::NumberedAdmission;
use gk_terms::{Address, Dialled, Name, Units};
use rulings::{Destination, DestinationKind, Route, RouteRefusal};
use short_texts::{PackedDigits, ShortName};
use std::mem::size_of;

// With the step of its row an admission takes 96 bytes.
const _: () = prove!(size_of::<KeptAdmission>() == 76);

/// What an admission asked, with the number of its entry.
#[derive(Clone, Copy)]
pub struct ShortAsked {
    pub number: u32,
    pub call: u32,
    pub units: Units,
    /// The zone of the caller.
    pub zone: ShortName,
    pub digits: PackedDigits,
}

/// The same of an answer, which dials nothing.
#[derive(Clone, Copy)]
pub struct ShortAnswer {
    pub number: u32,
    pub call: u32,
    pub units: Units,
    /// The zone of the endpoint that answers.
    pub zone: ShortName,
}

/// An admission in few bytes, if the names in it are short; or the place of any other.
#[derive(Clone, Copy)]
pub enum KeptAdmission {
    /// It was granted.
    Granted {
        kind: DestinationKind,
        address: Address,
        asked: ShortAsked,
        name: ShortName,
    },
    /// It leads to a destination, and was refused for a limit.
    OverLimit {
        kind: DestinationKind,
        address: Address,
        asked: ShortAsked,
        name: ShortName,
    },
    /// It leads nowhere.
    Refused {
        refusal: RouteRefusal,
        asked: ShortAsked,
    },
    /// It is an answer of this endpoint.
    Answered {
        granted: bool,
        kind: DestinationKind,
        address: Address,
        asked: ShortAnswer,
        name: ShortName,
    },
    /// It stands at this place, from 0, in the list of whole admissions.
    Aside {
        place: u32,
    },
}

impl KeptAdmission {
    /// This admission in few bytes. Nothing if the zone of the caller or the name of the
    /// destination has more than 19 characters; or of a granted one, or an answer, without a
    /// destination.
    pub fn of(admission: &NumberedAdmission) -> Option<KeptAdmission>
        ensures meant { IfSome result (λ kept. Spec.admission_meant [] kept
            ≡ Some admission.now) }
        ensures short { is_some result ≡ Spec.is_short admission.now }
    {
        let zone = short_name(&admission.asked.zone)?;
        match &admission.asked.digits {
            Some(digits) => dialled(admission, zone, digits),
            None => answered(admission, zone),
        }
    }
}

/// An admission of a call that was dialled.
fn dialled(
    admission: &NumberedAdmission,
    zone: ShortName,
    digits: &Dialled,
) -> Option<KeptAdmission>
    requires zone { zone ≡ admission.now.asked.zone }
    requires digits { admission.now.asked.digits ≡ Some digits.now }
    ensures meant { IfSome result (λ kept. Spec.admission_meant [] kept ≡ Some admission.now) }
    ensures short { is_some result
        ≡ Spec.is_short_route admission.now.asked.granted admission.now.asked.route }
{
    let asked = ShortAsked {
        number: admission.number,
        call: admission.asked.call,
        units: admission.asked.units,
        zone,
        digits: PackedDigits::of(digits),
    };
    match &admission.asked.route {
        Route::To(destination) => leading(&asked, admission.asked.granted, destination),
        Route::Refused(refusal) => refused(&asked, admission.asked.granted, *refusal),
    }
}

/// An answer.
fn answered(admission: &NumberedAdmission, zone: ShortName) -> Option<KeptAdmission>
    requires zone { zone ≡ admission.now.asked.zone }
    requires digits { admission.now.asked.digits ≡ None }
    ensures meant { IfSome result (λ kept. Spec.admission_meant [] kept ≡ Some admission.now) }
    ensures short { is_some result ≡ Spec.is_short_answer admission.now.asked.route }
{
    let asked = ShortAnswer {
        number: admission.number,
        call: admission.asked.call,
        units: admission.asked.units,
        zone,
    };
    match &admission.asked.route {
        Route::To(destination) => answering(&asked, admission.asked.granted, destination),
        Route::Refused(_) => None,
    }
}

/// A name, if it has at most 19 characters.
fn short_name(name: &Name) -> Option<ShortName>
    ensures same { IfSome result (λ short. short ≡ name.now) }
    ensures short { is_some result ≡ nat_le (length name.now) 19 }
{
    ShortName::of(name)
}

/// An admission that leads to a destination.
fn leading(asked: &ShortAsked, granted: bool, destination: &Destination) -> Option<KeptAdmission>
    ensures meant { IfSome result (λ kept. Spec.admission_meant [] kept
        ≡ Some (Spec.asked_meant asked.now granted (Route.To destination.now))) }
    ensures short { is_some result
        ≡ nat_le (length (Spec.destination_name destination.now)) 19 }
{
    match destination {
        Destination::Gateway { id, address } => {
            led_to(asked, granted, DestinationKind::Gateway, id, *address)
        }
        Destination::Terminal { id, address } => {
            led_to(asked, granted, DestinationKind::Terminal, id, *address)
        }
        Destination::Zone { name, address } => {
            led_to(asked, granted, DestinationKind::Zone, name, *address)
        }
    }
}

/// An admission that leads to the destination of this kind and name, at this address.
fn led_to(
    asked: &ShortAsked,
    granted: bool,
    kind: DestinationKind,
    name: &Name,
    address: Address,
) -> Option<KeptAdmission>
    ensures meant { IfSome result (λ kept. Spec.admission_meant [] kept
        ≡ Some (Spec.asked_meant asked.now granted
        (Route.To (destination_meant kind name.now address)))) }
    ensures short { is_some result ≡ nat_le (length name.now) 19 }
{
    let name = short_name(name)?;
    let asked = *asked;
    if granted {
        Some(KeptAdmission::Granted {
            kind,
            address,
            asked,
            name,
        })
    } else {
        Some(KeptAdmission::OverLimit {
            kind,
            address,
            asked,
            name,
        })
    }
}

/// An answer that leads to a destination.
fn answering(asked: &ShortAnswer, granted: bool, destination: &Destination) -> Option<KeptAdmission>
    ensures meant { IfSome result (λ kept. Spec.admission_meant [] kept
        ≡ Some (Spec.answer_meant asked.now granted (Route.To destination.now))) }
    ensures short { is_some result
        ≡ nat_le (length (Spec.destination_name destination.now)) 19 }
{
    match destination {
        Destination::Gateway { id, address } => {
            answered_by(asked, granted, DestinationKind::Gateway, id, *address)
        }
        Destination::Terminal { id, address } => {
            answered_by(asked, granted, DestinationKind::Terminal, id, *address)
        }
        Destination::Zone { name, address } => {
            answered_by(asked, granted, DestinationKind::Zone, name, *address)
        }
    }
}

/// An answer that leads to the destination of this kind and name, at this address.
fn answered_by(
    asked: &ShortAnswer,
    granted: bool,
    kind: DestinationKind,
    name: &Name,
    address: Address,
) -> Option<KeptAdmission>
    ensures meant { IfSome result (λ kept. Spec.admission_meant [] kept
        ≡ Some (Spec.answer_meant asked.now granted
        (Route.To (destination_meant kind name.now address)))) }
    ensures short { is_some result ≡ nat_le (length name.now) 19 }
{
    let name = short_name(name)?;
    Some(KeptAdmission::Answered {
        granted,
        kind,
        address,
        asked: *asked,
        name,
    })
}

/// An admission that leads nowhere.
fn refused(asked: &ShortAsked, granted: bool, refusal: RouteRefusal) -> Option<KeptAdmission>
    ensures meant { IfSome result (λ kept. Spec.admission_meant [] kept
        ≡ Some (Spec.asked_meant asked.now granted (Route.Refused refusal))) }
    ensures short { is_some result ≡ not granted }
{
    if granted {
        return None;
    }
    Some(KeptAdmission::Refused {
        refusal,
        asked: *asked,
    })
}
