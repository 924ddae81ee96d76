//! Why a request is refused: the reason and the words after it, at the end of a line.

ghost use Rattle.std.specs.Prelude.{◌≡◌, ◌≤◌, ◌<◌, ◌∷◌, [], length, codes, decimal};
ghost use Rattle.gk_terms.specs.Reason.{word_of};
ghost use Rattle.gk_lines.specs.LineBuffer.{with_words, room_of};
ghost use Rattle.gk_commands.specs.Printing as Limits;
ghost use Rattle.rulings.specs.Routes as RouteSpec;
ghost use Rattle.gk_protocol.specs.Answers as Spec;

use crate::answers::TrialRefusal;
use admission::{
    AdmitRefusal, ChangeRefusal, Duplicate, RegisterRefusal, ReleaseRefusal, ReloadRefusal,
    RouteRefusal, UnregisterRefusal,
};
use bandwidth::Over;
use compiler::LimitKind;
use gk_commands::{FaultKind, LineFault};
use gk_lines::LineBuffer;
use gk_terms::Reason;

/// Adds why a registration is refused.
pub(crate) fn register_refusal(line: &mut LineBuffer, refusal: RegisterRefusal)
    ensures { line.new ≡ with_words line.old (Spec.register_refusal_words refusal) }
{
    match refusal {
        RegisterRefusal::UnknownZone => reason(line, Reason::UndefinedReason, b"unknown-zone"),
        RegisterRefusal::DuplicateAlias(duplicate) => {
            reason(line, Reason::DuplicateAlias, duplicate_word(duplicate));
        }
        RegisterRefusal::EndpointsFull => {
            reason(line, Reason::UndefinedReason, b"endpoints-full");
        }
        RegisterRefusal::RecordFull => reason(line, Reason::UndefinedReason, b"record-full"),
        RegisterRefusal::NoMemory => reason(line, Reason::UndefinedReason, b"no-memory"),
    }
}

/// Adds why an unregistration is refused.
pub(crate) fn unregister_refusal(line: &mut LineBuffer, refusal: UnregisterRefusal)
    ensures { line.new ≡ with_words line.old (Spec.unregister_refusal_words refusal) }
{
    match refusal {
        UnregisterRefusal::NotRegistered => {
            line.word(Reason::NotCurrentlyRegistered.word().as_bytes());
        }
        UnregisterRefusal::CallInProgress => line.word(Reason::CallInProgress.word().as_bytes()),
        UnregisterRefusal::RecordFull => reason(line, Reason::UndefinedReason, b"record-full"),
        UnregisterRefusal::NoMemory => reason(line, Reason::UndefinedReason, b"no-memory"),
    }
}

/// Adds why an admission is refused.
pub(crate) fn admit_refusal(line: &mut LineBuffer, refusal: AdmitRefusal)
    ensures words { line.new ≡ with_words line.old (Spec.admit_refusal_words refusal) }
    ensures room { room_of (Spec.admit_refusal_words refusal) < 256 }
{
    match refusal {
        AdmitRefusal::CallerNotRegistered => {
            line.word(Reason::CallerNotRegistered.word().as_bytes());
        }
        AdmitRefusal::CallOpen => reason(line, Reason::UndefinedReason, b"call-open"),
        AdmitRefusal::NoRoute(refusal) => {
            reason(
                line,
                Reason::CalledPartyNotRegistered,
                route_refusal_word(refusal),
            );
        }
        AdmitRefusal::OverLimit(over) => {
            line.word(Reason::RequestDenied.word().as_bytes());
            over_limit(line, &over);
        }
        AdmitRefusal::CallsFull => reason(line, Reason::ResourceUnavailable, b"calls-full"),
        AdmitRefusal::RecordFull => reason(line, Reason::ResourceUnavailable, b"record-full"),
        AdmitRefusal::NoMemory => reason(line, Reason::ResourceUnavailable, b"no-memory"),
    }
}

/// Adds why another bandwidth is refused.
pub(crate) fn change_refusal(line: &mut LineBuffer, refusal: ChangeRefusal)
    ensures words { line.new ≡ with_words line.old (Spec.change_refusal_words refusal) }
    ensures room { room_of (Spec.change_refusal_words refusal) < 256 }
{
    match refusal {
        ChangeRefusal::NoCall => reason(line, Reason::UndefinedReason, b"no-call"),
        ChangeRefusal::NotYours => reason(line, Reason::InvalidPermission, b"not-yours"),
        ChangeRefusal::OverLimit(over) => {
            line.word(Reason::InsufficientResources.word().as_bytes());
            over_limit(line, &over);
        }
        ChangeRefusal::RecordFull => reason(line, Reason::UndefinedReason, b"record-full"),
        ChangeRefusal::NoMemory => reason(line, Reason::UndefinedReason, b"no-memory"),
    }
}

/// Adds why a release is refused.
pub(crate) fn release_refusal(line: &mut LineBuffer, refusal: ReleaseRefusal)
    ensures { line.new ≡ with_words line.old (Spec.release_refusal_words refusal) }
{
    match refusal {
        ReleaseRefusal::NotRegistered => line.word(Reason::NotRegistered.word().as_bytes()),
        ReleaseRefusal::NotYours => reason(line, Reason::RequestToDropOther, b"not-yours"),
        ReleaseRefusal::NoCall => reason(line, Reason::RequestToDropOther, b"no-call"),
    }
}

/// The word of why a configuration is not replaced.
pub(crate) fn reload_refusal_word(refusal: ReloadRefusal) -> &'static [u8]
    ensures word { result.now ≡ Spec.reload_refusal_word refusal }
    ensures short { length (Spec.reload_refusal_word refusal) ≤ 13 }
{
    match refusal {
        ReloadRefusal::ReloadsSpent => b"reloads-spent",
        ReloadRefusal::RecordFull => b"record-full",
        ReloadRefusal::NoMemory => b"no-memory",
    }
}

/// Adds why there is no trial: the line that is at fault, or 0, and the word.
pub(crate) fn trial_refusal(line: &mut LineBuffer, refusal: &TrialRefusal)
    ensures words { line.new ≡ with_words line.old (Spec.trial_refusal_words refusal.now) }
    ensures room { room_of (Spec.trial_refusal_words refusal.now) < 64 }
{
    match refusal {
        TrialRefusal::BadWorkers => without_line(line, b"bad-workers"),
        TrialRefusal::Misconfigured(fault) => faulty_line(line, fault),
        TrialRefusal::NoThread => without_line(line, b"no-thread"),
        TrialRefusal::NoMemory => without_line(line, b"no-memory"),
    }
}

/// Adds the number of a line that is at fault, and the name of its fault's kind.
fn faulty_line(line: &mut LineBuffer, fault: &LineFault)
    ensures words { line.new ≡ with_words line.old
        (decimal fault.now.line ∷ Spec.kind_word fault.now.kind ∷ []) }
    ensures room { room_of (decimal fault.now.line ∷ Spec.kind_word fault.now.kind ∷ []) < 64 }
{
    line.number(fault.line);
    line.word(kind_word(fault.kind));
}

/// Adds 0 in the place of a line's number, and a word.
fn without_line(line: &mut LineBuffer, why: &[u8])
    ensures { line.new ≡ with_words line.old (codes "0" ∷ why.now ∷ []) }
{
    line.word(b"0");
    line.word(why);
}

/// The name of the kind of a configuration's fault.
pub(crate) fn kind_word(kind: FaultKind) -> &'static [u8]
    ensures word { result.now ≡ Spec.kind_word kind }
    ensures short { length (Spec.kind_word kind) ≤ 14 }
{
    match kind {
        FaultKind::TooLong => b"TooLong",
        FaultKind::UnknownCommand => b"UnknownCommand",
        FaultKind::Unsupported => b"Unsupported",
        FaultKind::Missing => b"Missing",
        FaultKind::Extra => b"Extra",
        FaultKind::BadName => b"BadName",
        FaultKind::BadPattern => b"BadPattern",
        FaultKind::BadNumber => b"BadNumber",
        FaultKind::BadAddress => b"BadAddress",
        FaultKind::UnknownZone => b"UnknownZone",
        FaultKind::DuplicateZone => b"DuplicateZone",
        FaultKind::NoLocalZone => b"NoLocalZone",
        FaultKind::TooMany => b"TooMany",
        FaultKind::NoMemory => b"NoMemory",
    }
}

/// Adds which limit refuses: its kind and its zone, or `remote`.
fn over_limit(line: &mut LineBuffer, over: &Over)
    ensures words { line.new ≡ with_words line.old (Spec.over_words over.now) }
    ensures room { room_of (Spec.over_words over.now) < 192 }
{
    match over {
        Over::Zone { kind, zone } => {
            line.word(limit_word(*kind));
            line.name(zone);
        }
        Over::Remote => line.word(b"remote"),
    }
}

/// Adds a reason of H.225.0, and the word that this project puts after it.
fn reason(line: &mut LineBuffer, reason: Reason, word: &[u8])
    ensures { line.new ≡ with_words line.old (word_of reason ∷ word.now ∷ []) }
{
    line.word(reason.word().as_bytes());
    line.word(word);
}

/// The word of what another endpoint has already.
fn duplicate_word(duplicate: Duplicate) -> &'static [u8]
    ensures { result.now ≡ Spec.duplicate_word duplicate }
{
    match duplicate {
        Duplicate::Id => b"id",
        Duplicate::E164 => b"e164",
    }
}

/// The word of why no route was found.
fn route_refusal_word(refusal: RouteRefusal) -> &'static [u8]
    ensures { result.now ≡ RouteSpec.route_refusal_word refusal }
{
    match refusal {
        RouteRefusal::UnknownPrefix => b"unknown-prefix",
        RouteRefusal::NoGateway => b"no-gateway",
        RouteRefusal::NoDefault => b"no-default",
    }
}

/// The word of a limit's kind, that of its configuration line.
fn limit_word(kind: LimitKind) -> &'static [u8]
    ensures word { result.now ≡ Limits.limit_word kind }
    ensures short { length (Limits.limit_word kind) ≤ 9 }
{
    match kind {
        LimitKind::Session => b"session",
        LimitKind::Total => b"total",
        LimitKind::Interzone => b"interzone",
    }
}
