//! Adding a row to a snapshot.

ghost use Rattle.std.specs.Prelude.{◌≡◌, ◌<◌, true, false, length, nat_le};
ghost use Rattle.call_rows.specs.declared.rows.CallEvent.TheVariants as events;
ghost use Rattle.call_rows.specs.OpenCalls.{opens_of};
ghost use Rattle.call_rows.specs.Pushing.{Pushes, PushesBy, event_fault, last_number};
ghost use Rattle.call_rows.specs.Rows.{is_row, said_by};

use crate::open_at::OpenAt;
use crate::rows::{AskedCall, CallEvent, CallRow, NumberedAdmission};
use crate::snapshots::{PushFault, Snapshot};
use crate::steps::Step;
use gk_terms::Units;

/// How many rows there may be.
const MOST_ROWS: usize = 1_000_000;

/// How many calls may be open after a row.
const MOST_OPEN: usize = 50_000;

impl Snapshot {
    /// Adds a row after the others. It is refused as `TooMany`, if there are 1,000,000 rows; as
    /// `OutOfOrder`, if its number is not greater than that of the last one; as `CallOpen` and then
    /// as `TooMany`, if it is a granted admission, or a granted answer, and a call of its number is
    /// open, or 50,000 calls are; and as `NoCall`, if it is a change or a release and no call of
    /// its number is open. `NoMemory` comes only if none of these does. After an error nothing has
    /// changed.
    pub fn push(&mut self, row: &CallRow) -> Result<(), PushFault>
        ensures { Pushes self.old row.now result self.new }
    {
        if self.steps.len() >= MOST_ROWS {
            return Err(PushFault::TooMany);
        }
        let number = row.number();
        if number <= self.last_number() {
            return Err(PushFault::OutOfOrder);
        }
        self.push_event(number, row.event())
    }

    /// Adds the row of this number, which says this.
    fn push_event(&mut self, number: u32, event: &CallEvent) -> Result<(), PushFault>
        requires room { length self.old.rows < 1000000 }
        requires later { last_number self.old.rows < number }
        requires sound { is_row (record { number = number; event = event.now }) ≡ true }
        ensures { PushesBy (event_fault (opens_of self.old.rows) event.now) self.old
            (record { number = number; event = event.now }) result self.new }
    {
        match event {
            CallEvent::Admitted(call) => self.push_admission(number, &call.asked()),
            CallEvent::Answered(call) => self.push_admission(number, &call.asked()),
            CallEvent::Changed { call, units } => self.push_change(number, *call, *units),
            CallEvent::Released { call } => self.push_release(number, *call),
        }
    }

    /// Whether as many calls are open as there may be.
    fn is_full(&self) -> bool
        ensures { result ≡ nat_le 50000 (length (opens_of self.now.rows)) }
    {
        self.calls.len() >= MOST_OPEN
    }

    /// Adds the row of an admission.
    fn push_admission(&mut self, number: u32, asked: &AskedCall) -> Result<(), PushFault>
        requires room { length self.old.rows < 1000000 }
        requires later { last_number self.old.rows < number }
        requires sound { is_row (record { number = number; event = said_by asked.now }) ≡ true }
        ensures { PushesBy (event_fault (opens_of self.old.rows) (said_by asked.now))
            self.old (record { number = number; event = said_by asked.now }) result self.new }
    {
        if asked.granted {
            self.push_granted(number, asked)
        } else {
            self.push_refused(number, asked)
        }
    }

    /// Adds the row of an admission that was granted.
    fn push_granted(&mut self, number: u32, asked: &AskedCall) -> Result<(), PushFault>
        requires room { length self.old.rows < 1000000 }
        requires later { last_number self.old.rows < number }
        requires sound { is_row (record { number = number; event = said_by asked.now }) ≡ true }
        requires granted { asked.now.granted ≡ true }
        ensures { PushesBy (event_fault (opens_of self.old.rows) (said_by asked.now))
            self.old (record { number = number; event = said_by asked.now }) result self.new }
    {
        if self.calls.contains_key(&asked.call) {
            return Err(PushFault::CallOpen);
        }
        if self.is_full() {
            return Err(PushFault::TooMany);
        }
        if self.steps.reserve(1).is_err() {
            return Err(PushFault::NoMemory);
        }
        if self.admissions.reserve().is_err() {
            return Err(PushFault::NoMemory);
        }
        let admission = self.admissions.len() as u32;
        let units = asked.units.value();
        if self
            .calls
            .insert(asked.call, OpenAt { admission, units })
            .is_err()
        {
            return Err(PushFault::NoMemory);
        }
        self.admissions.push(&NumberedAdmission {
            number,
            asked: *asked,
        });
        self.steps
            .push_reserved(Step::admitted(number, admission, units));
        Ok(())
    }

    /// Adds the row of an admission that was refused.
    fn push_refused(&mut self, number: u32, asked: &AskedCall) -> Result<(), PushFault>
        requires room { length self.old.rows < 1000000 }
        requires later { last_number self.old.rows < number }
        requires sound { is_row (record { number = number; event = said_by asked.now }) ≡ true }
        requires refused { asked.now.granted ≡ false }
        ensures { PushesBy (event_fault (opens_of self.old.rows) (said_by asked.now))
            self.old (record { number = number; event = said_by asked.now }) result self.new }
    {
        if self.steps.reserve(1).is_err() {
            return Err(PushFault::NoMemory);
        }
        if self.admissions.reserve().is_err() {
            return Err(PushFault::NoMemory);
        }
        let admission = self.admissions.len() as u32;
        self.admissions.push(&NumberedAdmission {
            number,
            asked: *asked,
        });
        self.steps
            .push_reserved(Step::admitted(number, admission, 0));
        Ok(())
    }

    /// Adds the row of a change to this many units.
    fn push_change(&mut self, number: u32, call: u32, units: Units) -> Result<(), PushFault>
        requires room { length self.old.rows < 1000000 }
        requires later { last_number self.old.rows < number }
        requires sound { is_row (record { number = number; event = events.Changed call units })
            ≡ true }
        ensures { PushesBy (event_fault (opens_of self.old.rows) (events.Changed call units))
            self.old (record { number = number; event = events.Changed call units }) result
            self.new }
    {
        let Some(at) = self.call(call) else {
            return Err(PushFault::NoCall);
        };
        if self.steps.reserve(1).is_err() {
            return Err(PushFault::NoMemory);
        }
        let admission = at.admission;
        let units = units.value();
        let put: Result<_, _> = self.calls.insert(call, OpenAt { admission, units });
        let _ = put.unwrap();
        self.steps
            .push_reserved(Step::changed(number, admission, at.units, units));
        Ok(())
    }

    /// Adds the row of a release.
    fn push_release(&mut self, number: u32, call: u32) -> Result<(), PushFault>
        requires room { length self.old.rows < 1000000 }
        requires later { last_number self.old.rows < number }
        requires sound { is_row (record { number = number; event = events.Released call })
            ≡ true }
        ensures { PushesBy (event_fault (opens_of self.old.rows) (events.Released call))
            self.old (record { number = number; event = events.Released call }) result
            self.new }
    {
        let Some(at) = self.call(call) else {
            return Err(PushFault::NoCall);
        };
        if self.steps.reserve(1).is_err() {
            return Err(PushFault::NoMemory);
        }
        self.calls.remove(&call);
        self.steps
            .push_reserved(Step::released(number, at.admission, at.units));
        Ok(())
    }
}
