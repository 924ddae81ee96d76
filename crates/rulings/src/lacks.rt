//! What an event may lack for what was ruled of it to be recorded, and the reply then.

ghost use Rattle.std.specs.Prelude.{◌≡◌};
ghost use Rattle.rulings.specs.Events.{event_meant};
ghost use Rattle.rulings.specs.Lacks as Spec;

use crate::events::LentEvent;
use crate::replies::{
    AdmitRefusal, ChangeRefusal, RegisterRefusal, ReloadRefusal, Reply, UnregisterRefusal,
};

/// What an event lacks. They are tried in this order.
#[derive(Clone, Copy, Debug, PartialEq, Eq)]
pub enum Lack {
    /// One more endpoint, open call or reload: there were as many as the limit allows.
    Limit,
    /// Free places of the record.
    Record,
    /// Memory.
    Memory,
}

impl Lack {
    /// As the reason why a registration is refused.
    fn of_registration(self) -> RegisterRefusal
        ensures { result ≡ Spec.register_reason self }
    {
        match self {
            Lack::Limit => RegisterRefusal::EndpointsFull,
            Lack::Record => RegisterRefusal::RecordFull,
            Lack::Memory => RegisterRefusal::NoMemory,
        }
    }

    /// As the reason why an unregistration is refused, for which there is no limit.
    fn of_unregistration(self) -> Option<UnregisterRefusal>
        ensures { result ≡ Spec.unregister_reason self }
    {
        match self {
            Lack::Limit => None,
            Lack::Record => Some(UnregisterRefusal::RecordFull),
            Lack::Memory => Some(UnregisterRefusal::NoMemory),
        }
    }

    /// As the reason why an admission, or an answer to a call, is refused.
    fn of_admission(self) -> AdmitRefusal
        ensures { result ≡ Spec.admit_reason self }
    {
        match self {
            Lack::Limit => AdmitRefusal::CallsFull,
            Lack::Record => AdmitRefusal::RecordFull,
            Lack::Memory => AdmitRefusal::NoMemory,
        }
    }

    /// As the reason why a bandwidth change is refused, for which there is no limit of this kind.
    fn of_change(self) -> Option<ChangeRefusal>
        ensures { result ≡ Spec.change_reason self }
    {
        match self {
            Lack::Limit => None,
            Lack::Record => Some(ChangeRefusal::RecordFull),
            Lack::Memory => Some(ChangeRefusal::NoMemory),
        }
    }

    /// As the reason why a reload is refused.
    pub fn of_reload(self) -> ReloadRefusal
        ensures { result ≡ Spec.reload_reason self }
    {
        match self {
            Lack::Limit => ReloadRefusal::ReloadsSpent,
            Lack::Record => ReloadRefusal::RecordFull,
            Lack::Memory => ReloadRefusal::NoMemory,
        }
    }
}

impl LentEvent<'_> {
    /// The reply if the event lacks this; none to a release, which lacks nothing, and none if there
    /// is no limit that the event could meet.
    pub fn reply_without(&self, lack: Lack) -> Option<Reply>
        ensures { result ≡ Spec.reply_without (event_meant self.now) lack }
    {
        match self {
            LentEvent::Register(endpoint) => Some(Reply::RegisterRefused {
                id: *endpoint.id(),
                reason: lack.of_registration(),
            }),
            LentEvent::Unregister { id } => match lack.of_unregistration() {
                Some(reason) => Some(Reply::UnregisterRefused { id: **id, reason }),
                None => None,
            },
            LentEvent::Admit { call, .. } | LentEvent::Incoming { call, .. } => Some(
                Reply::AdmitRefused {
                    call: *call,
                    reason: lack.of_admission(),
                },
            ),
            LentEvent::Change { call, .. } => match lack.of_change() {
                Some(reason) => Some(Reply::ChangeRefused {
                    call: *call,
                    reason,
                }),
                None => None,
            },
            LentEvent::Release { .. } => None,
            LentEvent::Reload(_) => Some(Reply::ReloadRefused {
                reason: lack.of_reload(),
            }),
        }
    }
}
