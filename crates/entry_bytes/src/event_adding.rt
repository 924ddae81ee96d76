//! How an event is added to a vector of bytes, in room that it has. It takes no memory.

ghost use Rattle.std.specs.Prelude.{◌≡◌, ◌≤◌, None, length};
ghost use Rattle.rulings.specs.Events.{event_meant, put_in_force, Admitting, Answering, Changing, Releasing};
ghost use Rattle.rulings.specs.Lacks.{no_memory_reply_of};
ghost use Rattle.field_bytes.specs.Adding.{Adds, HasRoom};
ghost use Rattle.entry_bytes.specs.EventBytes.{IsEvent, event_bytes};
ghost use Rattle.entry_bytes.specs.ReadEvent.{HasRightEndpoint};

use crate::endpoint_adding::{add_endpoint, size_of_endpoint};
use field_bytes::{
    NUMBER_BYTES, add_byte, add_dialled, add_name, add_number, add_units, size_of_dialled,
    size_of_name,
};
use gk_terms::{Dialled, Name, Units};
use rulings::LentEvent;

/// How many bytes the event takes, for an event that is not a reload.
pub fn size_of_event(event: &LentEvent<'_>) -> usize
    requires other { put_in_force (event_meant event.now) ≡ None }
    ensures value { result ≡ length (event_bytes (event_meant event.now)) }
    ensures most { result ≤ 1000 }
    ensures release { no_memory_reply_of (event_meant event.now) ≡ None → result ≤ 134 }
{
    match event {
        LentEvent::Register(endpoint) => 1 + size_of_endpoint(endpoint),
        LentEvent::Unregister { id } => 1 + size_of_name(id),
        LentEvent::Admit { id, digits, .. } => {
            1 + 2 * NUMBER_BYTES + size_of_name(id) + size_of_dialled(digits)
        }
        LentEvent::Incoming { id, .. } | LentEvent::Change { id, .. } => {
            1 + 2 * NUMBER_BYTES + size_of_name(id)
        }
        LentEvent::Release { id, .. } => 1 + NUMBER_BYTES + size_of_name(id),
        LentEvent::Reload(_) => unreachable!(),
    }
}

/// Adds an event that is not a reload.
pub fn add_event(bytes: &mut Vec<u8>, event: &LentEvent<'_>)
    requires other { put_in_force (event_meant event.now) ≡ None }
    requires room { HasRoom bytes.old (event_bytes (event_meant event.now)) }
    ensures added { Adds bytes.old (event_bytes (event_meant event.now)) bytes.new }
    ensures event { IsEvent (event_meant event.now) }
    ensures right { HasRightEndpoint (event_meant event.now) }
{
    match event {
        LentEvent::Register(endpoint) => {
            add_byte(bytes, 0);
            add_endpoint(bytes, endpoint);
        }
        LentEvent::Unregister { id } => {
            add_byte(bytes, 1);
            add_name(bytes, id);
        }
        LentEvent::Admit {
            id,
            call,
            digits,
            units,
        } => add_admission(bytes, id, *call, digits, *units),
        LentEvent::Incoming { id, call, units } => add_answer(bytes, id, *call, *units),
        LentEvent::Change { id, call, units } => add_change(bytes, id, *call, *units),
        LentEvent::Release { id, call } => add_release(bytes, id, *call),
        LentEvent::Reload(_) => unreachable!(),
    }
}

/// Adds an admission.
fn add_admission(bytes: &mut Vec<u8>, id: &Name, call: u32, digits: &Dialled, units: Units)
    requires { HasRoom bytes.old (event_bytes (Admitting id.now call digits.now units)) }
    ensures added { Adds bytes.old
        (event_bytes (Admitting id.now call digits.now units)) bytes.new }
    ensures event { IsEvent (Admitting id.now call digits.now units) }
{
    add_byte(bytes, 2);
    add_number(bytes, call);
    add_units(bytes, units);
    add_name(bytes, id);
    add_dialled(bytes, digits);
}

/// Adds an answer to a call.
fn add_answer(bytes: &mut Vec<u8>, id: &Name, call: u32, units: Units)
    requires { HasRoom bytes.old (event_bytes (Answering id.now call units)) }
    ensures added { Adds bytes.old (event_bytes (Answering id.now call units)) bytes.new }
    ensures event { IsEvent (Answering id.now call units) }
{
    add_byte(bytes, 3);
    add_number(bytes, call);
    add_units(bytes, units);
    add_name(bytes, id);
}

/// Adds a bandwidth change.
fn add_change(bytes: &mut Vec<u8>, id: &Name, call: u32, units: Units)
    requires { HasRoom bytes.old (event_bytes (Changing id.now call units)) }
    ensures added { Adds bytes.old (event_bytes (Changing id.now call units)) bytes.new }
    ensures event { IsEvent (Changing id.now call units) }
{
    add_byte(bytes, 4);
    add_number(bytes, call);
    add_units(bytes, units);
    add_name(bytes, id);
}

/// Adds a release.
fn add_release(bytes: &mut Vec<u8>, id: &Name, call: u32)
    requires { HasRoom bytes.old (event_bytes (Releasing id.now call)) }
    ensures added { Adds bytes.old (event_bytes (Releasing id.now call)) bytes.new }
    ensures event { IsEvent (Releasing id.now call) }
{
    add_byte(bytes, 5);
    add_number(bytes, call);
    add_name(bytes, id);
}
