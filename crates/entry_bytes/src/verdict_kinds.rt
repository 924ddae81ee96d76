//! The kinds of what an entry tells beside its event, and their codes.

ghost use Rattle.std.specs.Prelude.{◌≡◌};
ghost use Rattle.entry_bytes.specs.VerdictBytes.{verdict_kind_code, verdict_kind_of};

/// The kinds of a `Verdict`.
#[derive(Clone, Copy, Debug, PartialEq, Eq)]
pub enum VerdictKind {
    Registered,
    RegisterRefused,
    Unregistered,
    UnregisterRefused,
    Admitted,
    Answering,
    Repeated,
    CallerNotRegistered,
    CallOpen,
    NoRoute,
    OverLimit,
    Changed,
    ChangeRefused,
    Released,
    ReleaseRefused,
    Reloaded,
}

/// The code of a kind.
pub fn verdict_kind_code(kind: VerdictKind) -> u8
    ensures { result ≡ verdict_kind_code kind }
{
    match kind {
        VerdictKind::Registered => 0,
        VerdictKind::RegisterRefused => 1,
        VerdictKind::Unregistered => 2,
        VerdictKind::UnregisterRefused => 3,
        VerdictKind::Admitted => 4,
        VerdictKind::Answering => 5,
        VerdictKind::Repeated => 6,
        VerdictKind::CallerNotRegistered => 7,
        VerdictKind::CallOpen => 8,
        VerdictKind::NoRoute => 9,
        VerdictKind::OverLimit => 10,
        VerdictKind::Changed => 11,
        VerdictKind::ChangeRefused => 12,
        VerdictKind::Released => 13,
        VerdictKind::ReleaseRefused => 14,
        VerdictKind::Reloaded => 15,
    }
}

/// The kind of this code, if it is one.
pub fn verdict_kind_of(code: u8) -> Option<VerdictKind>
    ensures { result ≡ verdict_kind_of code }
{
    match code {
        0 => Some(VerdictKind::Registered),
        1 => Some(VerdictKind::RegisterRefused),
        2 => Some(VerdictKind::Unregistered),
        3 => Some(VerdictKind::UnregisterRefused),
        4 => Some(VerdictKind::Admitted),
        5 => Some(VerdictKind::Answering),
        6 => Some(VerdictKind::Repeated),
        7 => Some(VerdictKind::CallerNotRegistered),
        8 => Some(VerdictKind::CallOpen),
        9 => Some(VerdictKind::NoRoute),
        10 => Some(VerdictKind::OverLimit),
        11 => Some(VerdictKind::Changed),
        12 => Some(VerdictKind::ChangeRefused),
        13 => Some(VerdictKind::Released),
        14 => Some(VerdictKind::ReleaseRefused),
        15 => Some(VerdictKind::Reloaded),
        _ => None,
    }
}
