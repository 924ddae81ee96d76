//! The reasons of H.225.0's refusals.

ghost use Rattle.std.specs.Prelude.{◌≡◌, Some};

use std::fmt;

/// A reason of a refused registration, unregistration, admission, bandwidth change or disengage,
/// by its name in H.225.0. Which case gives which reason is this project's profile.
#[derive(Clone, Copy, Debug, PartialEq, Eq)]
pub enum Reason {
    /// AdmissionRejectReason: the caller is not a registered endpoint.
    CallerNotRegistered,
    /// AdmissionRejectReason: the dialled digits lead to no destination.
    CalledPartyNotRegistered,
    /// AdmissionRejectReason: a bandwidth limit would be passed.
    RequestDenied,
    /// AdmissionRejectReason: a table is full, or memory ran out.
    ResourceUnavailable,
    /// The reason of a refusal for which the message has no better one.
    UndefinedReason,
    /// RegistrationRejectReason: an ID or an alias is another endpoint's.
    DuplicateAlias,
    /// UnregRejectReason: the endpoint is not registered.
    NotCurrentlyRegistered,
    /// UnregRejectReason: the endpoint owns an open call.
    CallInProgress,
    /// BandRejectReason: the call is another endpoint's.
    InvalidPermission,
    /// BandRejectReason: a bandwidth limit would be passed.
    InsufficientResources,
    /// DisengageRejectReason: the endpoint is not registered.
    NotRegistered,
    /// DisengageRejectReason: the call is another endpoint's, or is not open.
    RequestToDropOther,
}

impl Reason {
    ghost use Rattle.gk_terms.specs.Reason.{word_of};

    /// The reason's name in H.225.0.
    pub fn word(self) -> &'static str
        ensures { result.now ≡ word_of self }
    {
        match self {
            Reason::CallerNotRegistered => "callerNotRegistered",
            Reason::CalledPartyNotRegistered => "calledPartyNotRegistered",
            Reason::RequestDenied => "requestDenied",
            Reason::ResourceUnavailable => "resourceUnavailable",
            Reason::UndefinedReason => "undefinedReason",
            Reason::DuplicateAlias => "duplicateAlias",
            Reason::NotCurrentlyRegistered => "notCurrentlyRegistered",
            Reason::CallInProgress => "callInProgress",
            Reason::InvalidPermission => "invalidPermission",
            Reason::InsufficientResources => "insufficientResources",
            Reason::NotRegistered => "notRegistered",
            Reason::RequestToDropOther => "requestToDropOther",
        }
    }
}

impl fmt::Display for Reason {
    ghost use Rattle.std.specs.Prelude.{Some};
    ghost use Rattle.gk_terms.specs.Reason.{word_of};

    ghost output = { λ reason. Some (word_of reason) };

    fn fmt<W: fmt::Write>(&self, f: &mut fmt::Formatter<W>) -> fmt::Result {
        f.write_str(self.word())
    }
}
