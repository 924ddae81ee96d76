//! What a snapshot holds of each row, beside its admissions.

ghost use Rattle.std.specs.Prelude.{◌≡◌};
ghost use Rattle.call_rows.specs.Moves.{move_in};
ghost use Rattle.call_rows.specs.declared.steps.StepKind.TheVariants as kinds;

use std::mem::size_of;

// Each row takes so many bytes, and an admission those of its own besides.
const _: () = prove!(size_of::<Step>() == 20);

/// What a row says of the call of its admission.
#[derive(Clone, Copy)]
pub enum StepKind {
    /// It was admitted, or refused.
    Admitted,
    /// Its bandwidth was changed.
    Changed,
    /// It was released.
    Released,
}

/// One row: which admission it is about, and by how much it changes what the call uses.
#[derive(Clone, Copy)]
pub struct Step {
    number: u32,
    admission: u32,
    gained: u32,
    lost: u32,
    kind: StepKind,
}

impl Step {
    /// The row of an admission, which opens a call of so many units. A refused one has none.
    pub fn admitted(number: u32, admission: u32, units: u32) -> Step
        ensures { result ≡ record {
          number = number;
          admission = admission;
          gained = units;
          lost = 0;
          kind = kinds.Admitted;
        } }
    {
        Step {
            number,
            admission,
            gained: units,
            lost: 0,
            kind: StepKind::Admitted,
        }
    }

    /// The row of a change from so many units to others.
    pub fn changed(number: u32, admission: u32, from: u32, units: u32) -> Step
        ensures { result ≡ record {
          number = number;
          admission = admission;
          gained = units;
          lost = from;
          kind = kinds.Changed;
        } }
    {
        Step {
            number,
            admission,
            gained: units,
            lost: from,
            kind: StepKind::Changed,
        }
    }

    /// The row of the release of a call that has so many units.
    pub fn released(number: u32, admission: u32, units: u32) -> Step
        ensures { result ≡ record {
          number = number;
          admission = admission;
          gained = 0;
          lost = units;
          kind = kinds.Released;
        } }
    {
        Step {
            number,
            admission,
            gained: 0,
            lost: units,
            kind: StepKind::Released,
        }
    }

    /// The number of the row's entry.
    pub fn number(&self) -> u32
        ensures { result ≡ self.now.number }
    {
        self.number
    }

    /// What the row says.
    pub fn kind(&self) -> StepKind
        ensures { result ≡ self.now.kind }
    {
        self.kind
    }

    /// Which admission the row is about, from 0.
    pub fn admission(&self) -> u32
        ensures { result ≡ (move_in self.now).admission }
    {
        self.admission
    }

    /// How many units of 100 bit/s it adds to the call of the admission.
    pub fn gained(&self) -> u32
        ensures { result ≡ (move_in self.now).gained }
    {
        self.gained
    }

    /// How many it takes from it.
    pub fn lost(&self) -> u32
        ensures { result ≡ (move_in self.now).lost }
    {
        self.lost
    }
}
