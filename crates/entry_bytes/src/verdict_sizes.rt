//! How many bytes what an entry tells beside its event takes.

ghost use Rattle.std.specs.Prelude.{◌≡◌, ◌≤◌, length};
ghost use Rattle.rulings.specs.Lent.{ruling_meant};
ghost use Rattle.rulings.specs.Step.{places_needed};
ghost use Rattle.entry_bytes.specs.Entry.{verdict_meant};
ghost use Rattle.entry_bytes.specs.VerdictBytes.{led_bytes, verdict_bytes};

use crate::sizes::{size_of_change_refusal, size_of_over};
use field_bytes::{NUMBER_BYTES, size_of_address, size_of_name};
use gk_terms::{Address, Name};
use rulings::LentRuling;

/// Those of what the ruling tells beside the event on which it was ruled.
pub fn size_of_verdict(ruling: &LentRuling<'_>) -> usize
    ensures value { result ≡ length (verdict_bytes (verdict_meant ruling.now)) }
    ensures most { result ≤ 396 }
    ensures released { places_needed (ruling_meant ruling.now).effect ≡ 0 → result ≡ 1 }
{
    match ruling {
        LentRuling::Unregistered { .. }
        | LentRuling::CallerNotRegistered { .. }
        | LentRuling::Changed { .. }
        | LentRuling::Released { .. } => 1,
        LentRuling::RegisterRefused { .. }
        | LentRuling::UnregisterRefused { .. }
        | LentRuling::ReleaseRefused { .. } => 2,
        LentRuling::Registered { zone, .. } => 1 + size_of_name(zone),
        LentRuling::CallOpen { source, .. } => 1 + size_of_name(source),
        LentRuling::NoRoute { source, .. } => 2 + size_of_name(source),
        LentRuling::ChangeRefused { reason, .. } => 1 + size_of_change_refusal(reason),
        LentRuling::Reloaded { .. } => 1 + NUMBER_BYTES,
        LentRuling::Answering { zone, address, .. } => {
            2 + size_of_name(zone) + size_of_address(*address)
        }
        LentRuling::Admitted {
            source,
            name,
            address,
            ..
        } => 1 + size_of_led(source, name, *address),
        LentRuling::Repeated {
            zone,
            name,
            address,
            ..
        } => 1 + NUMBER_BYTES + size_of_led(zone, name, *address),
        LentRuling::OverLimit {
            source,
            name,
            address,
            over,
            ..
        } => 1 + size_of_led(source, name, *address) + size_of_over(over),
    }
}

/// Those of where a call leads, after the zone that it comes from.
fn size_of_led(zone: &Name, name: &Name, address: Address) -> usize
    ensures value { (kind : _) → result ≡ length (led_bytes zone.now kind name.now address) }
    ensures most { result ≤ 265 }
{
    1 + size_of_name(zone) + size_of_name(name) + size_of_address(address)
}
