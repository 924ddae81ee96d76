//! How an event is read.

ghost use Rattle.std.specs.Prelude.{◌≡◌, IfSome, option_map};
ghost use Rattle.entry_bytes.specs.EventBytes as Spec;
ghost use Rattle.entry_bytes.specs.ReadEvent.{HasRightEndpoint, event_read};

use crate::endpoint_bytes::EndpointBytes;
use crate::read_events::ReadEvent;
use field_bytes::Fields;

#[tactic(auto, unfolding(crate::specs::EventBytes::event_in))]
/// The event whose kind is the next byte. Its endpoint, if it has one, takes all bytes that are
/// left; after another event some may be left.
pub(crate) fn read_event<'a>(fields: &mut Fields<'a>) -> Option<ReadEvent<'a>>
    requires { IfSome (Spec.event_in fields.old) HasRightEndpoint }
    ensures { option_map event_read result ≡ Spec.event_in fields.old }
{
    let code = fields.byte()?;
    read_of_code(fields, code)
}

#[tactic(auto, unfolding(crate::specs::EventBytes::event_at))]
/// The same by the code of its kind.
fn read_of_code<'a>(fields: &mut Fields<'a>, code: u8) -> Option<ReadEvent<'a>>
    requires { IfSome (Spec.event_at code fields.old) HasRightEndpoint }
    ensures { option_map event_read result ≡ Spec.event_at code fields.old }
{
    match code {
        0 => read_registration(fields),
        1 => read_unregistration(fields),
        2 => read_admission(fields),
        3 => read_answer(fields),
        4 => read_change(fields),
        5 => read_release(fields),
        _ => None,
    }
}

#[tactic(auto, using(crate::proofs::ReadLemmas::whole_endpoint))]
/// A registration.
fn read_registration<'a>(fields: &mut Fields<'a>) -> Option<ReadEvent<'a>>
    requires { IfSome (Spec.registering_in fields.old) HasRightEndpoint }
    ensures { option_map event_read result ≡ Spec.registering_in fields.old }
{
    let endpoint = EndpointBytes::read(fields.rest())?;
    Some(ReadEvent::Register(endpoint))
}

/// An unregistration.
fn read_unregistration<'a>(fields: &mut Fields<'a>) -> Option<ReadEvent<'a>>
    ensures { option_map event_read result ≡ Spec.unregistering_in fields.old }
{
    let id = fields.name()?;
    Some(ReadEvent::Unregister { id })
}

/// An admission.
fn read_admission<'a>(fields: &mut Fields<'a>) -> Option<ReadEvent<'a>>
    ensures { option_map event_read result ≡ Spec.admitting_in fields.old }
{
    let call = fields.number()?;
    let units = fields.units()?;
    let id = fields.name()?;
    let digits = fields.dialled()?;
    Some(ReadEvent::Admit {
        id,
        call,
        digits,
        units,
    })
}

/// An answer to a call.
fn read_answer<'a>(fields: &mut Fields<'a>) -> Option<ReadEvent<'a>>
    ensures { option_map event_read result ≡ Spec.answering_event_in fields.old }
{
    let call = fields.number()?;
    let units = fields.units()?;
    let id = fields.name()?;
    Some(ReadEvent::Incoming { id, call, units })
}

/// A bandwidth change.
fn read_change<'a>(fields: &mut Fields<'a>) -> Option<ReadEvent<'a>>
    ensures { option_map event_read result ≡ Spec.changing_in fields.old }
{
    let call = fields.number()?;
    let units = fields.units()?;
    let id = fields.name()?;
    Some(ReadEvent::Change { id, call, units })
}

/// A release.
fn read_release<'a>(fields: &mut Fields<'a>) -> Option<ReadEvent<'a>>
    ensures { option_map event_read result ≡ Spec.releasing_in fields.old }
{
    let call = fields.number()?;
    let id = fields.name()?;
    Some(ReadEvent::Release { id, call })
}
