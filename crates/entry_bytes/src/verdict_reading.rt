//! How what an entry tells beside its event is read.

ghost use Rattle.field_bytes.specs.Fields.{Gives};
ghost use Rattle.entry_bytes.specs.VerdictBytes as Spec;

use crate::codes::{
    destination_kind_of, register_refusal_of, release_refusal_of, route_refusal_of,
    unregister_refusal_of,
};
use crate::refusal_reading::{read_change_refusal, read_over};
use crate::verdict_kinds::{VerdictKind, verdict_kind_of};
use crate::verdicts::Verdict;
use field_bytes::Fields;
use gk_terms::Version;

#[tactic(auto, unfolding(crate::specs::VerdictBytes::verdict_in))]
/// What an entry tells beside its event.
pub(crate) fn read_verdict<'a>(fields: &mut Fields<'a>) -> Option<Verdict<'a>>
    ensures { Gives (Spec.verdict_in fields.old) result fields.new }
{
    let code = fields.byte()?;
    let kind = verdict_kind_of(code)?;
    read_of_kind(fields, kind)
}

#[tactic(auto, unfolding(crate::specs::VerdictBytes::verdict_at))]
/// The same of this kind.
fn read_of_kind<'a>(fields: &mut Fields<'a>, kind: VerdictKind) -> Option<Verdict<'a>>
    ensures { Gives (Spec.verdict_at kind fields.old) result fields.new }
{
    match kind {
        VerdictKind::Registered => read_registered(fields),
        VerdictKind::RegisterRefused => read_register_refused(fields),
        VerdictKind::Unregistered => Some(Verdict::Unregistered),
        VerdictKind::UnregisterRefused => read_unregister_refused(fields),
        VerdictKind::Admitted => read_admitted(fields),
        VerdictKind::Answering => read_answering(fields),
        VerdictKind::Repeated => read_repeated(fields),
        VerdictKind::CallerNotRegistered => Some(Verdict::CallerNotRegistered),
        VerdictKind::CallOpen => read_call_open(fields),
        VerdictKind::NoRoute => read_no_route(fields),
        VerdictKind::OverLimit => read_over_limit(fields),
        VerdictKind::Changed => Some(Verdict::Changed),
        VerdictKind::ChangeRefused => read_change_refused(fields),
        VerdictKind::Released => Some(Verdict::Released),
        VerdictKind::ReleaseRefused => read_release_refused(fields),
        VerdictKind::Reloaded => read_reloaded(fields),
    }
}

/// That an endpoint registers.
fn read_registered<'a>(fields: &mut Fields<'a>) -> Option<Verdict<'a>>
    ensures { Gives (Spec.registered_in fields.old) result fields.new }
{
    let zone = fields.name()?;
    Some(Verdict::Registered { zone })
}

/// Why it may not.
fn read_register_refused<'a>(fields: &mut Fields<'a>) -> Option<Verdict<'a>>
    ensures { Gives (Spec.register_refused_in fields.old) result fields.new }
{
    let code = fields.byte()?;
    let reason = register_refusal_of(code)?;
    Some(Verdict::RegisterRefused { reason })
}

/// Why an endpoint may not leave.
fn read_unregister_refused<'a>(fields: &mut Fields<'a>) -> Option<Verdict<'a>>
    ensures { Gives (Spec.unregister_refused_in fields.old) result fields.new }
{
    let code = fields.byte()?;
    let reason = unregister_refusal_of(code)?;
    Some(Verdict::UnregisterRefused { reason })
}

/// Where an admitted call leads.
fn read_admitted<'a>(fields: &mut Fields<'a>) -> Option<Verdict<'a>>
    ensures { Gives (Spec.admitted_in fields.old) result fields.new }
{
    let zone = fields.name()?;
    let code = fields.byte()?;
    let kind = destination_kind_of(code)?;
    let name = fields.name()?;
    let address = fields.address()?;
    Some(Verdict::Admitted {
        zone,
        kind,
        name,
        address,
    })
}

/// Where an endpoint answers a call.
fn read_answering<'a>(fields: &mut Fields<'a>) -> Option<Verdict<'a>>
    ensures { Gives (Spec.answering_in fields.old) result fields.new }
{
    let zone = fields.name()?;
    let code = fields.byte()?;
    let kind = destination_kind_of(code)?;
    let address = fields.address()?;
    Some(Verdict::Answering {
        zone,
        kind,
        address,
    })
}

/// Where the open call of the number leads.
fn read_repeated<'a>(fields: &mut Fields<'a>) -> Option<Verdict<'a>>
    ensures { Gives (Spec.repeated_in fields.old) result fields.new }
{
    let units = fields.units()?;
    let zone = fields.name()?;
    let code = fields.byte()?;
    let kind = destination_kind_of(code)?;
    let name = fields.name()?;
    let address = fields.address()?;
    Some(Verdict::Repeated {
        zone,
        units,
        kind,
        name,
        address,
    })
}

/// That a call of the number is open.
fn read_call_open<'a>(fields: &mut Fields<'a>) -> Option<Verdict<'a>>
    ensures { Gives (Spec.call_open_in fields.old) result fields.new }
{
    let zone = fields.name()?;
    Some(Verdict::CallOpen { zone })
}

/// Why digits lead nowhere.
fn read_no_route<'a>(fields: &mut Fields<'a>) -> Option<Verdict<'a>>
    ensures { Gives (Spec.no_route_from fields.old) result fields.new }
{
    let code = fields.byte()?;
    let refusal = route_refusal_of(code)?;
    let zone = fields.name()?;
    Some(Verdict::NoRoute { zone, refusal })
}

/// Where a call would lead, and the sum that would be above its limit.
fn read_over_limit<'a>(fields: &mut Fields<'a>) -> Option<Verdict<'a>>
    ensures { Gives (Spec.over_limit_in fields.old) result fields.new }
{
    let zone = fields.name()?;
    let code = fields.byte()?;
    let kind = destination_kind_of(code)?;
    let name = fields.name()?;
    let address = fields.address()?;
    let over = read_over(fields)?;
    Some(Verdict::OverLimit {
        zone,
        kind,
        name,
        address,
        over,
    })
}

/// Why a bandwidth is not changed.
fn read_change_refused<'a>(fields: &mut Fields<'a>) -> Option<Verdict<'a>>
    ensures { Gives (Spec.change_refused_in fields.old) result fields.new }
{
    let reason = read_change_refusal(fields)?;
    Some(Verdict::ChangeRefused { reason })
}

/// Why a call is not released.
fn read_release_refused<'a>(fields: &mut Fields<'a>) -> Option<Verdict<'a>>
    ensures { Gives (Spec.release_refused_in fields.old) result fields.new }
{
    let code = fields.byte()?;
    let reason = release_refusal_of(code)?;
    Some(Verdict::ReleaseRefused { reason })
}

/// The version that is in force.
fn read_reloaded<'a>(fields: &mut Fields<'a>) -> Option<Verdict<'a>>
    ensures { Gives (Spec.reloaded_in fields.old) result fields.new }
{
    let version = Version::new(fields.number()?);
    Some(Verdict::Reloaded { version })
}
