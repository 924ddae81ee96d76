//! Admissions as a list holds them.

ghost use Rattle.std.specs.Prelude.{◌≡◌};

use crate::kept_admission::KeptAdmission;
use crate::rows::NumberedAdmission;
use std::marker::Model;

/// An admission in few bytes as a list holds it, with a view of its own, so that the list need not
/// know what is inside. A contract sees the admission in few bytes.
#[derive(Clone, Copy)]
pub struct HeldAdmission {
    kept: KeptAdmission,
}

impl Model for HeldAdmission {
    ghost use Rattle.call_rows.specs.declared.kept_admission.KeptAdmission.{KeptAdmission};

    ghost Value = { KeptAdmission };

    ghost view = { λ h. h.kept };

    ghost inverse = { λ item. record { kept = item } };
}

impl HeldAdmission {
    /// This admission.
    pub fn of(kept: &KeptAdmission) -> HeldAdmission
        ensures { result ≡ kept.now }
    {
        HeldAdmission { kept: *kept }
    }

    /// The admission.
    pub fn kept(&self) -> &KeptAdmission
        ensures { result.now ≡ self.now }
    {
        &self.kept
    }
}

/// The same of an admission that stands whole.
#[derive(Clone, Copy)]
pub struct WholeAdmission {
    admission: NumberedAdmission,
}

impl Model for WholeAdmission {
    ghost use Rattle.call_rows.specs.declared.rows.NumberedAdmission.{NumberedAdmission};

    ghost Value = { NumberedAdmission };

    ghost view = { λ h. h.admission };

    ghost inverse = { λ item. record { admission = item } };
}

impl WholeAdmission {
    /// This admission.
    pub fn of(admission: &NumberedAdmission) -> WholeAdmission
        ensures { result ≡ admission.now }
    {
        WholeAdmission {
            admission: *admission,
        }
    }

    /// The admission.
    pub fn admission(&self) -> &NumberedAdmission
        ensures { result.now ≡ self.now }
    {
        &self.admission
    }
}
