//! The event of an entry in brief, as it is read without its texts being tried: what is known to be
//! an entry has texts that are right. Of an endpoint only the ID is read.

ghost use Rattle.std.specs.Prelude.{◌≡◌, IsSome, Some};
ghost use Rattle.std.specs.Option.{option_and_then};
ghost use Rattle.rulings.specs.declared.events.EventKind.TheVariants.{Admission, Registration, Release, Unregistration};
ghost use Rattle.entry_bytes.specs.Brief.{MeansEvent, admission_of, brief_of, number_of, with_units_in};
ghost use Rattle.entry_bytes.specs.EventBytes as Spec;

use crate::endpoint_bytes::EndpointBytes;
use field_bytes::{Fields, NameText};
use gk_terms::Units;
use rulings::EventKind;

/// An event in brief: what it asks. The ID stands in the entry.
#[derive(Drop)]
pub struct BriefEvent<'a> {
    /// What kind of event it is.
    pub kind: EventKind,
    /// The ID of the endpoint that asks.
    pub id: NameText<'a>,
    /// The number of the call that it is about, if it is about one.
    pub call: Option<u32>,
    /// The bandwidth that it asks for, in units of 100 bit/s; 0 if it asks for none.
    pub units: Units,
}

impl<'a> BriefEvent<'a> {
    #[tactic(auto, unfolding(crate::specs::EventBytes::event_in))]
    /// That of the event that these bytes are. Of an admission the digits are left to be read.
    pub fn read(fields: &mut Fields<'a>) -> BriefEvent<'a>
        requires { MeansEvent (Spec.event_in fields.old) }
        ensures asked { option_and_then brief_of (Spec.event_in fields.old) ≡ Some result }
        ensures digits { result.kind ≡ Admission
            → Spec.event_in fields.old ≡ admission_of result fields.new }
    {
        let Some(code) = fields.byte() else {
            unreachable!();
        };
        brief_of_code(fields, code)
    }

    /// The number of the call that it is about; 0 if it is about none.
    pub fn number(&self) -> u32
        ensures { result ≡ number_of self.now }
    {
        match self.call {
            Some(call) => call,
            None => 0,
        }
    }
}

#[tactic(auto, unfolding(crate::specs::EventBytes::event_at), using(crate::proofs::BriefLemmas::admission_there, crate::proofs::BriefLemmas::admission_is, crate::proofs::BriefLemmas::admission_digits, crate::proofs::BriefLemmas::answer_there, crate::proofs::BriefLemmas::answer_is, crate::proofs::BriefLemmas::change_there, crate::proofs::BriefLemmas::change_is))]
/// The same by the code of its kind.
fn brief_of_code<'a>(fields: &mut Fields<'a>, code: u8) -> BriefEvent<'a>
    requires { MeansEvent (Spec.event_at code fields.old) }
    ensures asked { option_and_then brief_of (Spec.event_at code fields.old) ≡ Some result }
    ensures digits { result.kind ≡ Admission
        → Spec.event_at code fields.old ≡ admission_of result fields.new }
{
    match code {
        0 => of_registration(fields),
        1 => of_unregistration(fields),
        2 => with_units(fields, EventKind::Admission),
        3 => with_units(fields, EventKind::Incoming),
        4 => with_units(fields, EventKind::BandwidthChange),
        5 => of_release(fields),
        _ => unreachable!(),
    }
}

#[tactic(auto, using(crate::proofs::BriefLemmas::endpoint_there, crate::proofs::BriefLemmas::endpoint_is_whole))]
/// The same of a registration.
fn of_registration<'a>(fields: &mut Fields<'a>) -> BriefEvent<'a>
    requires { MeansEvent (Spec.registering_in fields.old) }
    ensures asked { option_and_then brief_of (Spec.registering_in fields.old) ≡ Some result }
    ensures kind { result.kind ≡ Registration }
{
    let id = match &EndpointBytes::read(fields.rest()) {
        Some(endpoint) => endpoint.id(),
        None => unreachable!(),
    };
    BriefEvent {
        kind: EventKind::Registration,
        id,
        call: None,
        units: Units::new(0),
    }
}

#[tactic(auto, using(crate::proofs::BriefLemmas::unregistering_id))]
/// The same of an unregistration.
fn of_unregistration<'a>(fields: &mut Fields<'a>) -> BriefEvent<'a>
    requires { MeansEvent (Spec.unregistering_in fields.old) }
    ensures asked { option_and_then brief_of (Spec.unregistering_in fields.old) ≡ Some result }
    ensures kind { result.kind ≡ Unregistration }
{
    let id = fields.known_name();
    BriefEvent {
        kind: EventKind::Unregistration,
        id,
        call: None,
        units: Units::new(0),
    }
}

#[tactic(auto, using(crate::proofs::BriefLemmas::call_there, crate::proofs::BriefLemmas::units_there, crate::proofs::BriefLemmas::id_there))]
/// The same of an event of this kind, which names a bandwidth.
fn with_units<'a>(fields: &mut Fields<'a>, kind: EventKind) -> BriefEvent<'a>
    requires { IsSome (with_units_in kind fields.old) }
    ensures asked { with_units_in kind fields.old ≡ Some (result, fields.new) }
    ensures kind { result.kind ≡ kind }
{
    let Some(call) = fields.number() else {
        unreachable!();
    };
    let Some(units) = fields.units() else {
        unreachable!();
    };
    let id = fields.known_name();
    BriefEvent {
        kind,
        id,
        call: Some(call),
        units,
    }
}

#[tactic(auto, using(crate::proofs::BriefLemmas::released_call, crate::proofs::BriefLemmas::releasing_id))]
/// The same of a release.
fn of_release<'a>(fields: &mut Fields<'a>) -> BriefEvent<'a>
    requires { MeansEvent (Spec.releasing_in fields.old) }
    ensures asked { option_and_then brief_of (Spec.releasing_in fields.old) ≡ Some result }
    ensures kind { result.kind ≡ Release }
{
    let Some(call) = fields.number() else {
        unreachable!();
    };
    let id = fields.known_name();
    BriefEvent {
        kind: EventKind::Release,
        id,
        call: Some(call),
        units: Units::new(0),
    }
}
