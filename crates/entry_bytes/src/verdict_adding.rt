//! How what an entry tells beside its event is added to a vector of bytes, in room that it has. It
//! takes no memory.

ghost use Rattle.std.specs.Prelude.{◌<◌, ◌^◌, [], ◌∷◌, ◌++◌};
ghost use Rattle.gk_terms.specs.Name.{IsName};
ghost use Rattle.rulings.specs.declared.lent_routes.DestinationKind.{DestinationKind};
ghost use Rattle.field_bytes.specs.Adding.{Adds, HasRoom};
ghost use Rattle.field_bytes.specs.Fields.{IsAddress, number_bytes, text_bytes, address_bytes};
ghost use Rattle.entry_bytes.specs.Codes.{destination_kind_code};
ghost use Rattle.entry_bytes.specs.Entry.{verdict_meant};
ghost use Rattle.entry_bytes.specs.Refusals.{IsChangeRefusal, IsOver, change_refusal_bytes, over_bytes};
ghost use Rattle.entry_bytes.specs.VerdictBytes.{IsVerdict, led_bytes, place_bytes, verdict_bytes, verdict_kind_code};

use crate::codes::{
    destination_kind_code, register_refusal_code, release_refusal_code, route_refusal_code,
    unregister_refusal_code,
};
use crate::refusals::{add_change_refusal, add_over};
use crate::verdict_kinds::{VerdictKind, verdict_kind_code};
use bandwidth::Over;
use field_bytes::{add_address, add_byte, add_name, add_number, add_units};
use gk_terms::{Address, Name};
use rulings::{DestinationKind, LentRuling};

/// Adds what the ruling tells beside the event on which it was ruled.
pub fn add_verdict(bytes: &mut Vec<u8>, ruling: &LentRuling<'_>)
    requires { HasRoom bytes.old (verdict_bytes (verdict_meant ruling.now)) }
    ensures added { Adds bytes.old (verdict_bytes (verdict_meant ruling.now)) bytes.new }
    ensures verdict { IsVerdict (verdict_meant ruling.now) }
{
    match ruling {
        LentRuling::Registered { zone, .. } => add_named(bytes, VerdictKind::Registered, zone),
        LentRuling::RegisterRefused { reason, .. } => add_coded(
            bytes,
            VerdictKind::RegisterRefused,
            register_refusal_code(*reason),
        ),
        LentRuling::Unregistered { .. } => add_kind(bytes, VerdictKind::Unregistered),
        LentRuling::UnregisterRefused { reason, .. } => add_coded(
            bytes,
            VerdictKind::UnregisterRefused,
            unregister_refusal_code(*reason),
        ),
        LentRuling::Admitted {
            source,
            kind,
            name,
            address,
            ..
        } => {
            add_kind(bytes, VerdictKind::Admitted);
            add_led(bytes, source, *kind, name, *address);
        }
        LentRuling::Answering {
            zone,
            kind,
            address,
            ..
        } => {
            add_named(bytes, VerdictKind::Answering, zone);
            add_byte(bytes, destination_kind_code(*kind));
            add_address(bytes, *address);
        }
        LentRuling::Repeated {
            zone,
            units,
            kind,
            name,
            address,
            ..
        } => {
            add_kind(bytes, VerdictKind::Repeated);
            add_units(bytes, *units);
            add_led(bytes, zone, *kind, name, *address);
        }
        LentRuling::CallerNotRegistered { .. } => {
            add_kind(bytes, VerdictKind::CallerNotRegistered);
        }
        LentRuling::CallOpen { source, .. } => add_named(bytes, VerdictKind::CallOpen, source),
        LentRuling::NoRoute {
            source,
            refusal,
            ..
        } => {
            add_coded(bytes, VerdictKind::NoRoute, route_refusal_code(*refusal));
            add_name(bytes, source);
        }
        LentRuling::OverLimit {
            source,
            kind,
            name,
            address,
            over,
            ..
        } => {
            add_kind(bytes, VerdictKind::OverLimit);
            add_led(bytes, source, *kind, name, *address);
            add_over(bytes, over);
        }
        LentRuling::Changed { .. } => add_kind(bytes, VerdictKind::Changed),
        LentRuling::ChangeRefused { reason, .. } => {
            add_kind(bytes, VerdictKind::ChangeRefused);
            add_change_refusal(bytes, reason);
        }
        LentRuling::Released { .. } => add_kind(bytes, VerdictKind::Released),
        LentRuling::ReleaseRefused { reason, .. } => add_coded(
            bytes,
            VerdictKind::ReleaseRefused,
            release_refusal_code(*reason),
        ),
        LentRuling::Reloaded { version } => {
            add_kind(bytes, VerdictKind::Reloaded);
            add_number(bytes, version.value());
        }
    }
}

/// Adds a kind.
fn add_kind(bytes: &mut Vec<u8>, kind: VerdictKind)
    requires { HasRoom bytes.old (verdict_kind_code kind ∷ []) }
    ensures { Adds bytes.old (verdict_kind_code kind ∷ []) bytes.new }
{
    add_byte(bytes, verdict_kind_code(kind));
}

/// Adds a kind and a code.
fn add_coded(bytes: &mut Vec<u8>, kind: VerdictKind, code: u8)
    requires { HasRoom bytes.old (verdict_kind_code kind ∷ code ∷ []) }
    ensures { Adds bytes.old (verdict_kind_code kind ∷ code ∷ []) bytes.new }
{
    add_kind(bytes, kind);
    add_byte(bytes, code);
}

/// Adds a kind and a name.
fn add_named(bytes: &mut Vec<u8>, kind: VerdictKind, name: &Name)
    requires { HasRoom bytes.old (verdict_kind_code kind ∷ text_bytes name.now) }
    ensures added { Adds bytes.old (verdict_kind_code kind ∷ text_bytes name.now) bytes.new }
    ensures name { IsName name.now }
{
    add_kind(bytes, kind);
    add_name(bytes, name);
}

/// Adds where a call leads, after the zone that it comes from.
fn add_led(bytes: &mut Vec<u8>, zone: &Name, kind: DestinationKind, name: &Name, address: Address)
    requires { HasRoom bytes.old (led_bytes zone.now kind name.now address) }
    ensures added { Adds bytes.old (led_bytes zone.now kind name.now address) bytes.new }
    ensures zone { IsName zone.now }
    ensures name { IsName name.now }
    ensures address { IsAddress address }
{
    add_name(bytes, zone);
    add_place(bytes, kind, name, address);
}

/// Adds where a call leads.
fn add_place(bytes: &mut Vec<u8>, kind: DestinationKind, name: &Name, address: Address)
    requires { HasRoom bytes.old (place_bytes kind name.now address) }
    ensures added { Adds bytes.old (place_bytes kind name.now address) bytes.new }
    ensures name { IsName name.now }
    ensures address { IsAddress address }
{
    add_byte(bytes, destination_kind_code(kind));
    add_name(bytes, name);
    add_address(bytes, address);
}
