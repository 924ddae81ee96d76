//! Snapshots of a core: what its record says of calls, and its registered endpoints.

ghost use Rattle.std.specs.Prelude.{◌≡◌, [], length, IfOk, IfErr, OnOk};
ghost use Rattle.std.specs.Option.{option_and_then};
ghost use Rattle.decision_record.specs.History.{IsLegal, entry_of_number, state_of};
ghost use Rattle.decision_record.specs.Rows.{entry_row, rows_of};
ghost use Rattle.admission.specs.PastCore.{IsBounded};

use crate::cores::Core;
use call_rows::{CallRow, PushFault, Snapshot};
use decision_record::PastRecord;
use registry::EndpointList;
use std::alloc::{AllocError, Global};
use std::marker::Model;
use std::snapshot;

/// A core as it was at one moment, of which a snapshot is made while the core itself goes on. It
/// shares the core's record, and has copies of its endpoints. A contract sees the core as it was
/// then.
#[derive(Drop)]
pub struct PastCore {
    record: PastRecord,
    endpoints: EndpointList,
    was: snapshot::Snapshot<Core>,
}

impl Model for PastCore {
    ghost use Rattle.decision_record.specs.History.{CoreParts};
    ghost use Rattle.admission.specs.PastCore.{IsTakenOf};

    ghost Value = { CoreParts };

    ghost view = { λ p. p.was.value };

    ghost invariant = { λ p. IsTakenOf p.was.value p.record.entries p.endpoints.endpoints };
}

impl Core {
    /// The core as it is now, for a snapshot that is made later. Its time grows with the number of
    /// the endpoints, which are copied, and hardly with that of the entries, which are shared.
    /// `AllocError` comes only if memory runs out.
    pub fn past(&self) -> Result<PastCore, AllocError>
        ensures { IfOk result (λ past. past ≡ self.now) }
    {
        // So it is known how many entries and open calls there may be.
        let _limits = self.machine().limits();
        Ok(PastCore {
            record: self.record().past()?,
            endpoints: self.registry().list()?,
            was: snapshot::Snapshot::of(self),
        })
    }

    /// The rows of the record and the registered endpoints, on which another configuration can be
    /// tried: a row for each admission that was routed, for each answer that opened a call or was
    /// refused for a limit, for each bandwidth change that was granted and for each release, in the
    /// order of the record. A call of number 0, which no request can have, has none. `AllocError`
    /// comes only if memory runs out: no row of a record is refused.
    pub fn snapshot(&self, alloc: Global) -> Result<Snapshot, AllocError>
        ensures { IfOk result (λ snapshot. snapshot ≡ record {
          rows = rows_of self.now.opening self.now.entries;
          endpoints = (state_of self.now).endpoints;
        }) }
    {
        self.past()?.snapshot(alloc)
    }
}

impl PastCore {
    /// The snapshot of the core as it was: see `Core::snapshot`.
    pub fn snapshot(&self, alloc: Global) -> Result<Snapshot, AllocError>
        ensures { IfOk result (λ snapshot. snapshot ≡ record {
          rows = rows_of self.now.opening self.now.entries;
          endpoints = (state_of self.now).endpoints;
        }) }
    {
        let mut snapshot = Snapshot::new(alloc, self.endpoints.registry(alloc)?);
        match self.push_rows(&mut snapshot) {
            Ok(()) => Ok(snapshot),
            Err(_) => Err(AllocError),
        }
    }

    /// How many entries there were; they are a legal history, and no more than a snapshot takes.
    fn count(&self) -> u32
        ensures count { result ≡ length self.now.entries }
        ensures legal { IsLegal self.now.opening self.now.entries }
        ensures bounded { IsBounded self.now.opening self.now.entries }
    {
        self.record.len() as u32
    }

    /// The row of the entry of this number, if it has one.
    fn row(&self, number: u32) -> Option<CallRow>
        ensures { result ≡ option_and_then (entry_row number)
            (entry_of_number self.now.entries number) }
    {
        self.record.row(number)
    }

    /// Puts the rows of the record into a snapshot that has none. The only fault is that memory ran
    /// out; some rows may have been put in then.
    fn push_rows(&self, snapshot: &mut Snapshot) -> Result<(), PushFault>
        requires { snapshot.old.rows ≡ [] }
        ensures ok { OnOk result (snapshot.new ≡ record snapshot.old {
          rows = rows_of self.now.opening self.now.entries;
        }) }
        ensures err { IfErr result (λ fault. fault ≡ PushFault.NoMemory) }
    {
        for place in 0..self.count() {
            if let Some(row) = self.row(place + 1) {
                snapshot.push(&row)?;
            }
        }
        Ok(())
    }
}
