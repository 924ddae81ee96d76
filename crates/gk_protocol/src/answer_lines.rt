//! Answers, made as lines.

ghost use Rattle.std.specs.Prelude.{◌≡◌, ◌<◌, ◌∷◌, ◌++◌, [], codes, decimal};
ghost use Rattle.gk_terms.specs.Address.{address_text};
ghost use Rattle.gk_lines.specs.LineBuffer.{ROOM_BYTES, with_words, line_of_words, room_of};
ghost use Rattle.rulings.specs.Lent.{destination_meant};
ghost use Rattle.rulings.specs.Routes as RouteSpec;
ghost use Rattle.gk_protocol.specs.Answers as Spec;

use crate::answers::{Answer, TrialRefusal};
use crate::refusal_words::{
    admit_refusal, change_refusal, kind_word, register_refusal, release_refusal,
    reload_refusal_word, trial_refusal, unregister_refusal,
};
use crate::request_faults::RequestFault;
use admission::{
    AdmitRefusal, ChangeRefusal, Destination, DestinationKind, RegisterRefusal, ReleaseRefusal,
    ReloadRefusal, Reply, UnregisterRefusal,
};
use gk_commands::LineFault;
use gk_lines::LineBuffer;
use gk_terms::{Address, Name, Units, Version};

#[tactic(auto, using(gk_lines::proofs::LineBufferLemmas::line_in_room))]
/// Makes it the first line of an answer, with its line feed. Each answer has room.
pub fn show(line: &mut LineBuffer, answer: &Answer)
    ensures { line.new ≡ Spec.answer_line_of answer.now }
{
    show_words(line, answer);
    line.push_byte(b'\n');
}

/// Makes it the words of an answer's first line.
fn show_words(line: &mut LineBuffer, answer: &Answer)
    ensures words { line.new ≡ line_of_words (Spec.answer_words_of answer.now) }
    ensures room { room_of (Spec.answer_words_of answer.now) < ROOM_BYTES }
{
    match answer {
        Answer::Reply { sequence, reply } => show_reply(line, *sequence, reply),
        Answer::Misconfigured { sequence, fault } => misconfigured(line, *sequence, fault),
        Answer::Tried { sequence, report } => tried(line, *sequence, report.line_count()),
        Answer::TryRefused { sequence, reason } => try_refused(line, *sequence, reason),
        Answer::Malformed(fault) => malformed(line, *fault),
    }
}

/// Makes it the words of a core's reply.
pub(crate) fn show_reply(line: &mut LineBuffer, sequence: u32, reply: &Reply)
    ensures words { line.new ≡ line_of_words (Spec.reply_words sequence reply.now) }
    ensures room { room_of (Spec.reply_words sequence reply.now) < ROOM_BYTES }
{
    match reply {
        Reply::Registered { id, zone } => registered(line, sequence, id, zone),
        Reply::RegisterRefused { id, reason } => register_refused(line, sequence, id, *reason),
        Reply::Unregistered { id } => unregistered(line, sequence, id),
        Reply::UnregisterRefused { id, reason } => {
            unregister_refused(line, sequence, id, *reason);
        }
        Reply::Admitted {
            call,
            destination,
            units,
        } => admitted_to(line, sequence, *call, destination, *units),
        Reply::AdmitRefused { call, reason } => admit_refused(line, sequence, *call, reason),
        Reply::Changed { call, units } => changed(line, sequence, *call, *units),
        Reply::ChangeRefused { call, reason } => change_refused(line, sequence, *call, reason),
        Reply::Released { call } => released(line, sequence, *call),
        Reply::ReleaseRefused { call, reason } => release_refused(line, sequence, *call, *reason),
        Reply::Reloaded { version } => reloaded(line, sequence, *version),
        Reply::ReloadRefused { reason } => reload_refused(line, sequence, *reason),
    }
}

/// `RCF seq id zone`
pub(crate) fn registered(line: &mut LineBuffer, sequence: u32, id: &Name, zone: &Name)
    ensures words { line.new
        ≡ line_of_words (codes "RCF" ∷ decimal sequence ∷ id.now ∷ zone.now ∷ []) }
    ensures room { room_of (codes "RCF" ∷ decimal sequence ∷ id.now ∷ zone.now ∷ []) < ROOM_BYTES }
{
    line.begin(b"RCF");
    line.number(sequence);
    line.name(id);
    line.name(zone);
}

/// `RRJ seq id` and why
pub(crate) fn register_refused(
    line: &mut LineBuffer,
    sequence: u32,
    id: &Name,
    reason: RegisterRefusal,
)
    ensures words { line.new ≡ line_of_words
        (codes "RRJ" ∷ decimal sequence ∷ id.now ∷ Spec.register_refusal_words reason) }
    ensures room { room_of
        (codes "RRJ" ∷ decimal sequence ∷ id.now
        ∷ Spec.register_refusal_words reason) < ROOM_BYTES }
{
    line.begin(b"RRJ");
    line.number(sequence);
    line.name(id);
    register_refusal(line, reason);
}

/// `UCF seq id`
pub(crate) fn unregistered(line: &mut LineBuffer, sequence: u32, id: &Name)
    ensures words { line.new ≡ line_of_words (codes "UCF" ∷ decimal sequence ∷ id.now ∷ []) }
    ensures room { room_of (codes "UCF" ∷ decimal sequence ∷ id.now ∷ []) < ROOM_BYTES }
{
    line.begin(b"UCF");
    line.number(sequence);
    line.name(id);
}

/// `URJ seq id` and why
pub(crate) fn unregister_refused(
    line: &mut LineBuffer,
    sequence: u32,
    id: &Name,
    reason: UnregisterRefusal,
)
    ensures words { line.new ≡ line_of_words
        (codes "URJ" ∷ decimal sequence ∷ id.now ∷ Spec.unregister_refusal_words reason) }
    ensures room { room_of
        (codes "URJ" ∷ decimal sequence ∷ id.now ∷ Spec.unregister_refusal_words reason)
        < ROOM_BYTES }
{
    line.begin(b"URJ");
    line.number(sequence);
    line.name(id);
    unregister_refusal(line, reason);
}

/// `ACF seq call DEST units`, to a destination that is a value.
fn admitted_to(
    line: &mut LineBuffer,
    sequence: u32,
    call: u32,
    destination: &Destination,
    units: Units,
)
    ensures words { line.new ≡ line_of_words (codes "ACF" ∷ decimal sequence ∷ decimal call
        ∷ RouteSpec.destination_words destination.now ++ decimal units ∷ []) }
    ensures room { room_of (codes "ACF" ∷ decimal sequence ∷ decimal call
        ∷ RouteSpec.destination_words destination.now ++ decimal units ∷ []) < ROOM_BYTES }
{
    let (kind, name, address) = match destination {
        Destination::Gateway { id, address } => (DestinationKind::Gateway, id, address),
        Destination::Terminal { id, address } => (DestinationKind::Terminal, id, address),
        Destination::Zone { name, address } => (DestinationKind::Zone, name, address),
    };
    admitted(line, sequence, call, kind, name, address, units);
}

/// `ACF seq call DEST units`
pub(crate) fn admitted(
    line: &mut LineBuffer,
    sequence: u32,
    call: u32,
    kind: DestinationKind,
    name: &Name,
    address: &Address,
    units: Units,
)
    ensures words { line.new ≡ line_of_words (codes "ACF" ∷ decimal sequence ∷ decimal call
        ∷ RouteSpec.destination_words (destination_meant kind name.now address.now)
        ++ decimal units ∷ []) }
    ensures room { room_of (codes "ACF" ∷ decimal sequence ∷ decimal call
        ∷ RouteSpec.destination_words (destination_meant kind name.now address.now)
        ++ decimal units ∷ []) < ROOM_BYTES }
{
    line.begin(b"ACF");
    line.number(sequence);
    line.number(call);
    show_destination(line, kind, name, address);
    line.number(units.value());
}

/// `ARJ seq call` and why
pub(crate) fn admit_refused(line: &mut LineBuffer, sequence: u32, call: u32, reason: &AdmitRefusal)
    ensures words { line.new ≡ line_of_words
        (codes "ARJ" ∷ decimal sequence ∷ decimal call ∷ Spec.admit_refusal_words reason.now) }
    ensures room { room_of
        (codes "ARJ" ∷ decimal sequence ∷ decimal call ∷ Spec.admit_refusal_words reason.now)
        < ROOM_BYTES }
{
    line.begin(b"ARJ");
    line.number(sequence);
    line.number(call);
    admit_refusal(line, *reason);
}

/// `BCF seq call units`
pub(crate) fn changed(line: &mut LineBuffer, sequence: u32, call: u32, granted: Units)
    ensures words { line.new ≡ line_of_words
        (codes "BCF" ∷ decimal sequence ∷ decimal call ∷ decimal granted ∷ []) }
    ensures room { room_of (codes "BCF" ∷ decimal sequence ∷ decimal call ∷ decimal granted ∷ [])
        < ROOM_BYTES }
{
    line.begin(b"BCF");
    line.number(sequence);
    line.number(call);
    line.number(granted.value());
}

/// `BRJ seq call` and why
pub(crate) fn change_refused(
    line: &mut LineBuffer,
    sequence: u32,
    call: u32,
    reason: &ChangeRefusal,
)
    ensures words { line.new ≡ line_of_words
        (codes "BRJ" ∷ decimal sequence ∷ decimal call ∷ Spec.change_refusal_words reason.now) }
    ensures room { room_of
        (codes "BRJ" ∷ decimal sequence ∷ decimal call ∷ Spec.change_refusal_words reason.now)
        < ROOM_BYTES }
{
    line.begin(b"BRJ");
    line.number(sequence);
    line.number(call);
    change_refusal(line, *reason);
}

/// `DCF seq call`
pub(crate) fn released(line: &mut LineBuffer, sequence: u32, call: u32)
    ensures words { line.new
        ≡ line_of_words (codes "DCF" ∷ decimal sequence ∷ decimal call ∷ []) }
    ensures room { room_of (codes "DCF" ∷ decimal sequence ∷ decimal call ∷ []) < ROOM_BYTES }
{
    line.begin(b"DCF");
    line.number(sequence);
    line.number(call);
}

/// `DRJ seq call` and why
pub(crate) fn release_refused(
    line: &mut LineBuffer,
    sequence: u32,
    call: u32,
    reason: ReleaseRefusal,
)
    ensures words { line.new ≡ line_of_words
        (codes "DRJ" ∷ decimal sequence ∷ decimal call ∷ Spec.release_refusal_words reason) }
    ensures room { room_of
        (codes "DRJ" ∷ decimal sequence ∷ decimal call ∷ Spec.release_refusal_words reason)
        < ROOM_BYTES }
{
    line.begin(b"DRJ");
    line.number(sequence);
    line.number(call);
    release_refusal(line, reason);
}

/// `CCF seq version`
pub(crate) fn reloaded(line: &mut LineBuffer, sequence: u32, version: Version)
    ensures words { line.new
        ≡ line_of_words (codes "CCF" ∷ decimal sequence ∷ decimal version ∷ []) }
    ensures room { room_of (codes "CCF" ∷ decimal sequence ∷ decimal version ∷ []) < ROOM_BYTES }
{
    line.begin(b"CCF");
    line.number(sequence);
    line.number(version.value());
}

/// `CRJ seq 0` and why
fn reload_refused(line: &mut LineBuffer, sequence: u32, reason: ReloadRefusal)
    ensures words { line.new ≡ line_of_words
        (codes "CRJ" ∷ decimal sequence ∷ codes "0" ∷ Spec.reload_refusal_word reason ∷ []) }
    ensures room { room_of
        (codes "CRJ" ∷ decimal sequence ∷ codes "0" ∷ Spec.reload_refusal_word reason ∷ [])
        < ROOM_BYTES }
{
    line.begin(b"CRJ");
    line.number(sequence);
    line.word(b"0");
    line.word(reload_refusal_word(reason));
}

/// `CRJ seq LINE KIND`
fn misconfigured(line: &mut LineBuffer, sequence: u32, fault: &LineFault)
    ensures words { line.new ≡ line_of_words
        (codes "CRJ" ∷ decimal sequence ∷ decimal fault.now.line
        ∷ Spec.kind_word fault.now.kind ∷ []) }
    ensures room { room_of
        (codes "CRJ" ∷ decimal sequence ∷ decimal fault.now.line
        ∷ Spec.kind_word fault.now.kind ∷ []) < ROOM_BYTES }
{
    line.begin(b"CRJ");
    line.number(sequence);
    line.number(fault.line);
    line.word(kind_word(fault.kind));
}

/// `TCF seq m`
fn tried(line: &mut LineBuffer, sequence: u32, count: u32)
    ensures words { line.new
        ≡ line_of_words (codes "TCF" ∷ decimal sequence ∷ decimal count ∷ []) }
    ensures room { room_of (codes "TCF" ∷ decimal sequence ∷ decimal count ∷ []) < ROOM_BYTES }
{
    line.begin(b"TCF");
    line.number(sequence);
    line.number(count);
}

/// `TRJ seq` and why
fn try_refused(line: &mut LineBuffer, sequence: u32, reason: &TrialRefusal)
    ensures words { line.new ≡ line_of_words
        (codes "TRJ" ∷ decimal sequence ∷ Spec.trial_refusal_words reason.now) }
    ensures room { room_of (codes "TRJ" ∷ decimal sequence ∷ Spec.trial_refusal_words reason.now)
        < ROOM_BYTES }
{
    line.begin(b"TRJ");
    line.number(sequence);
    trial_refusal(line, reason);
}

/// `ERR` and the word of the fault
fn malformed(line: &mut LineBuffer, fault: RequestFault)
    ensures words { line.new ≡ line_of_words (codes "ERR" ∷ Spec.fault_word fault ∷ []) }
    ensures room { room_of (codes "ERR" ∷ Spec.fault_word fault ∷ []) < ROOM_BYTES }
{
    line.begin(b"ERR");
    line.word(fault.word().as_bytes());
}

/// Adds a destination: its kind, its name and its address.
fn show_destination(line: &mut LineBuffer, kind: DestinationKind, name: &Name, address: &Address)
    ensures words { line.new ≡ with_words line.old
        (RouteSpec.destination_words (destination_meant kind name.now address.now)) }
    ensures room { room_of
        (RouteSpec.destination_words (destination_meant kind name.now address.now)) < 256 }
{
    match kind {
        DestinationKind::Gateway => place(line, b"GW", name, address),
        DestinationKind::Terminal => place(line, b"TERM", name, address),
        DestinationKind::Zone => place(line, b"ZONE", name, address),
    }
}

/// Adds a word, a name and an address.
fn place(line: &mut LineBuffer, kind: &[u8], name: &Name, address: &Address)
    ensures words { line.new
        ≡ with_words line.old (kind.now ∷ name.now ∷ address_text address.now ∷ []) }
    ensures room { room_of (name.now ∷ address_text address.now ∷ []) < 192 }
{
    line.word(kind);
    line.name(name);
    line.address(address);
}
