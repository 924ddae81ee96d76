//! A snapshot of a record: its rows, and the endpoints that were registered after it.

ghost use Rattle.std.specs.Prelude.{◌≡◌, ◌↔◌, ◌≤◌, [], true, length, map, slice_get, option_map, option_and_then, Some};
ghost use Rattle.std.specs.Option.{option_copied};
ghost use Rattle.rulings.specs.Lent.{route_meant};
ghost use Rattle.call_rows.specs.Moves.{move_in, moves_of};
ghost use Rattle.call_rows.specs.OpenCalls.{open_of, opens_of};
ghost use Rattle.call_rows.specs.Pushing.{MayFollow, last_number};
ghost use Rattle.call_rows.specs.Rows.{admissions_of};
ghost use Rattle.call_rows.specs.SnapshotIndex.{open_at};

use crate::admission_list::AdmissionList;
use crate::open_at::OpenAt;
use crate::rows::{CallRow, NumberedAdmission};
use crate::steps::Step;
use crate::telling::row_of;
use gk_terms::{Dialled, Name};
use registry::Registry;
use rulings::LentRoute;
use std::alloc::Global;
use std::collections::HashMap;
use std::marker::Model;
use thiserror::Error;

/// Why a row was not added. They are tried in this order, but `TooMany` for the number of the rows
/// comes first of all.
#[derive(Clone, Copy, Debug, PartialEq, Eq, Error)]
pub enum PushFault {
    /// Its number is not greater than that of the row before.
    #[error("out of order")]
    OutOfOrder,
    /// A call of the number is open.
    #[error("call open")]
    CallOpen,
    /// No call of the number is open.
    #[error("no call")]
    NoCall,
    /// There would be more than 1,000,000 rows, or more than 50,000 open calls.
    #[error("too many")]
    TooMany,
    /// Memory ran out.
    #[error("no memory")]
    NoMemory,
}

/// The rows of a record, and the endpoints that were registered after it. A contract sees both.
#[derive(Drop)]
pub struct Snapshot {
    pub(crate) admissions: AdmissionList,
    pub(crate) steps: Vec<Step>,
    pub(crate) calls: HashMap<u32, OpenAt>,
    endpoints: Registry,
}

/// What threads may share and pass on, as the threads of a trial share a snapshot.
trait Shared: Send + Sync {}

impl Shared for Snapshot {}

impl Model for Snapshot {
    ghost use Rattle.call_rows.specs.Rows.{SnapshotParts};
    ghost use Rattle.call_rows.specs.SnapshotIndex.{IsKept, rows_told};

    ghost Value = { SnapshotParts };

    ghost view = { λ s. record {
      rows = rows_told s.admissions.items s.steps.items;
      endpoints = s.endpoints.endpoints;
    } };

    ghost invariant = { λ s. IsKept s.admissions.items s.steps.items s.calls.entries
        (rows_told s.admissions.items s.steps.items) };
}

impl Snapshot {
    /// No rows, and these endpoints. Takes no memory.
    pub fn new(alloc: Global, endpoints: Registry) -> Snapshot
        ensures { result ≡ record { rows = []; endpoints = endpoints.endpoints } }
    {
        Snapshot {
            admissions: AdmissionList::new(alloc),
            steps: Vec::new(alloc),
            calls: HashMap::new(alloc),
            endpoints,
        }
    }

    /// How many rows there are: at most 1,000,000. Each could be added after those before it.
    pub fn len(&self) -> usize
        ensures value { result ≡ length self.now.rows }
        ensures few { result ≤ 1000000 }
        ensures in_order { MayFollow [] self.now.rows }
    {
        self.steps.len()
    }

    /// The row at this place, from 0.
    pub fn row(&self, place: usize) -> Option<CallRow>
        ensures { result ≡ slice_get self.now.rows place }
    {
        match step_at(&self.steps, place) {
            Some(step) => row_of(&self.admissions, step),
            None => None,
        }
    }

    /// The endpoints.
    pub fn endpoints(&self) -> &Registry
        ensures { result.now.endpoints ≡ self.now.endpoints }
    {
        &self.endpoints
    }

    /// The same rows with other endpoints.
    pub fn with_endpoints(self, endpoints: Registry) -> Snapshot
        ensures { result ≡ record self { endpoints = endpoints.endpoints } }
    {
        Snapshot {
            admissions: self.admissions,
            steps: self.steps,
            calls: self.calls,
            endpoints,
        }
    }

    /// How many admissions there are among the rows, of calls that were dialled and of answers: at
    /// most 1,000,000.
    pub fn admission_count(&self) -> usize
        ensures value { result ≡ length (admissions_of self.now.rows) }
        ensures few { result ≤ 1000000 }
    {
        self.admissions.len()
    }

    /// The admission at this place among the admissions, from 0.
    pub fn admission(&self, place: usize) -> Option<NumberedAdmission>
        ensures { result ≡ slice_get (admissions_of self.now.rows) place }
    {
        self.admissions.get(place)
    }

    /// The zone of the endpoint that asked for the admission at this place among the admissions,
    /// from 0.
    pub fn zone(&self, place: usize) -> Option<Name>
        ensures { result
            ≡ option_map (λ a. a.asked.zone) (slice_get (admissions_of self.now.rows) place) }
    {
        self.admissions.zone(place)
    }

    /// What was dialled for the admission at this place among the admissions, from 0; none of an
    /// answer.
    pub fn digits(&self, place: usize) -> Option<Dialled>
        ensures { result ≡ option_and_then (λ a. a.asked.digits)
            (slice_get (admissions_of self.now.rows) place) }
    {
        self.admissions.digits(place)
    }

    /// Whether the digits of the admission at this place among the admissions, from 0, led to this
    /// route.
    pub fn has_route(&self, place: usize, route: &LentRoute<'_>) -> bool
        ensures { (result ≡ true)
            ↔ (option_map (λ a. a.asked.route) (slice_get (admissions_of self.now.rows) place)
            ≡ Some (route_meant route.now)) }
    {
        self.admissions.has_route(place, route)
    }

    /// What each row changes of the bandwidth in use, and of which admission: one for each row.
    pub fn steps(&self) -> &[Step]
        ensures moves { map move_in result.now ≡ moves_of self.now.rows }
        ensures one_each { length result.now ≡ length self.now.rows }
        ensures few { length result.now ≤ 1000000 }
    {
        &self.steps
    }

    /// The number of the last row; 0 if there is none.
    pub(crate) fn last_number(&self) -> u32
        ensures { result ≡ last_number self.now.rows }
    {
        match self.steps.last() {
            Some(step) => step.number(),
            None => 0,
        }
    }

    /// The open call of this number.
    pub(crate) fn call(&self, call: u32) -> Option<OpenAt>
        ensures { result ≡ option_map open_at (open_of call (opens_of self.now.rows)) }
    {
        self.calls.get(&call).copied()
    }
}

/// The step at this place, from 0.
fn step_at(steps: &[Step], place: usize) -> Option<&Step>
    ensures { option_copied result ≡ slice_get steps.now place }
{
    steps.get(place)
}
