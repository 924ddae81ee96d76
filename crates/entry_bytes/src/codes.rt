//! Values that are one byte each: their codes, and what each code means.

ghost use Rattle.std.specs.Prelude.{◌≡◌};
ghost use Rattle.entry_bytes.specs.Codes as Spec;

use gk_commands::LimitKind;
use registry::{Duplicate, EndpointKind};
use rulings::{DestinationKind, RegisterRefusal, ReleaseRefusal, RouteRefusal, UnregisterRefusal};

/// The code of a kind of endpoint.
pub fn endpoint_kind_code(kind: EndpointKind) -> u8
    ensures { result ≡ Spec.endpoint_kind_code kind }
{
    match kind {
        EndpointKind::Gateway => 0,
        EndpointKind::Terminal => 1,
    }
}

/// The kind of endpoint of this code, if it is one.
pub fn endpoint_kind_of(code: u8) -> Option<EndpointKind>
    ensures { result ≡ Spec.endpoint_kind_of code }
{
    match code {
        0 => Some(EndpointKind::Gateway),
        1 => Some(EndpointKind::Terminal),
        _ => None,
    }
}

/// The code of a kind of destination.
pub fn destination_kind_code(kind: DestinationKind) -> u8
    ensures { result ≡ Spec.destination_kind_code kind }
{
    match kind {
        DestinationKind::Gateway => 0,
        DestinationKind::Terminal => 1,
        DestinationKind::Zone => 2,
    }
}

/// The kind of destination of this code, if it is one.
pub fn destination_kind_of(code: u8) -> Option<DestinationKind>
    ensures { result ≡ Spec.destination_kind_of code }
{
    match code {
        0 => Some(DestinationKind::Gateway),
        1 => Some(DestinationKind::Terminal),
        2 => Some(DestinationKind::Zone),
        _ => None,
    }
}

/// The code of a kind of limit: at least 1.
pub fn limit_kind_code(kind: LimitKind) -> u8
    ensures { result ≡ Spec.limit_kind_code kind }
{
    match kind {
        LimitKind::Session => 1,
        LimitKind::Total => 2,
        LimitKind::Interzone => 3,
    }
}

/// The kind of limit of this code, if it is one.
pub fn limit_kind_of(code: u8) -> Option<LimitKind>
    ensures { result ≡ Spec.limit_kind_of code }
{
    match code {
        1 => Some(LimitKind::Session),
        2 => Some(LimitKind::Total),
        3 => Some(LimitKind::Interzone),
        _ => None,
    }
}

/// The code of a reason why dialled digits lead nowhere.
pub fn route_refusal_code(refusal: RouteRefusal) -> u8
    ensures { result ≡ Spec.route_refusal_code refusal }
{
    match refusal {
        RouteRefusal::UnknownPrefix => 0,
        RouteRefusal::NoGateway => 1,
        RouteRefusal::NoDefault => 2,
    }
}

/// The reason of this code, if it is one.
pub fn route_refusal_of(code: u8) -> Option<RouteRefusal>
    ensures { result ≡ Spec.route_refusal_of code }
{
    match code {
        0 => Some(RouteRefusal::UnknownPrefix),
        1 => Some(RouteRefusal::NoGateway),
        2 => Some(RouteRefusal::NoDefault),
        _ => None,
    }
}

/// The code of the refusal of a registration.
pub fn register_refusal_code(refusal: RegisterRefusal) -> u8
    ensures { result ≡ Spec.register_refusal_code refusal }
{
    match refusal {
        RegisterRefusal::UnknownZone => 0,
        RegisterRefusal::DuplicateAlias(Duplicate::Id) => 1,
        RegisterRefusal::DuplicateAlias(Duplicate::E164) => 2,
        RegisterRefusal::EndpointsFull => 3,
        RegisterRefusal::RecordFull => 4,
        RegisterRefusal::NoMemory => 5,
    }
}

/// The refusal of a registration of this code, if it is one.
pub fn register_refusal_of(code: u8) -> Option<RegisterRefusal>
    ensures { result ≡ Spec.register_refusal_of code }
{
    match code {
        0 => Some(RegisterRefusal::UnknownZone),
        1 => Some(RegisterRefusal::DuplicateAlias(Duplicate::Id)),
        2 => Some(RegisterRefusal::DuplicateAlias(Duplicate::E164)),
        3 => Some(RegisterRefusal::EndpointsFull),
        4 => Some(RegisterRefusal::RecordFull),
        5 => Some(RegisterRefusal::NoMemory),
        _ => None,
    }
}

/// The code of the refusal of an unregistration.
pub fn unregister_refusal_code(refusal: UnregisterRefusal) -> u8
    ensures { result ≡ Spec.unregister_refusal_code refusal }
{
    match refusal {
        UnregisterRefusal::NotRegistered => 0,
        UnregisterRefusal::CallInProgress => 1,
        UnregisterRefusal::RecordFull => 2,
        UnregisterRefusal::NoMemory => 3,
    }
}

/// The refusal of an unregistration of this code, if it is one.
pub fn unregister_refusal_of(code: u8) -> Option<UnregisterRefusal>
    ensures { result ≡ Spec.unregister_refusal_of code }
{
    match code {
        0 => Some(UnregisterRefusal::NotRegistered),
        1 => Some(UnregisterRefusal::CallInProgress),
        2 => Some(UnregisterRefusal::RecordFull),
        3 => Some(UnregisterRefusal::NoMemory),
        _ => None,
    }
}

/// The code of the refusal of a release.
pub fn release_refusal_code(refusal: ReleaseRefusal) -> u8
    ensures { result ≡ Spec.release_refusal_code refusal }
{
    match refusal {
        ReleaseRefusal::NotRegistered => 0,
        ReleaseRefusal::NotYours => 1,
        ReleaseRefusal::NoCall => 2,
    }
}

/// The refusal of a release of this code, if it is one.
pub fn release_refusal_of(code: u8) -> Option<ReleaseRefusal>
    ensures { result ≡ Spec.release_refusal_of code }
{
    match code {
        0 => Some(ReleaseRefusal::NotRegistered),
        1 => Some(ReleaseRefusal::NotYours),
        2 => Some(ReleaseRefusal::NoCall),
        _ => None,
    }
}
