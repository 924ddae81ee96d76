//! A trial: what the calls of a record would be under another configuration.

ghost use Rattle.std.specs.Prelude.{◌≡◌, ◌<◌, ◌≤◌, ◌⊎◌, ◌↔◌, IfOk, Err};
ghost use Rattle.gk_commands.specs.Accepted.{IsAccepted};
ghost use Rattle.registry.specs.Registration.{kept_zones};
ghost use Rattle.trial_run.specs.Report.{IsReport, report_among};
ghost use Rattle.trial_run.specs.declared.trials.TrialFault.TheVariants.{BadWorkers};

use crate::report::Report;
use crate::report_rows::Counts;
use crate::routing::tried_by;
use crate::sharing::NotShared;
use crate::summing::peaks;
use crate::zone_names::zone_names;
use call_rows::Snapshot;
use compiler::Tables;
use gk_terms::Gate;
use registry::Registry;
use std::alloc::{AllocError, Global};
use std::sync::Wait;
use std::thread::Threads;
use thiserror::Error;

/// Why there is no report.
#[derive(Clone, Copy, Debug, PartialEq, Eq, Error)]
pub enum TrialFault {
    /// The number of workers is not from 1 to 64.
    #[error("bad workers")]
    BadWorkers,
    /// The system did not start one of the threads. Those that it started have ended.
    #[error("no thread")]
    NoThread,
    /// Memory ran out.
    #[error("no memory")]
    NoMemory,
}

/// What the rows of the snapshot would be under the candidate's tables, over those of its endpoints
/// whose zone is local there: found by as many threads as there are workers, 1 to 64. The report
/// does not depend on their number. Each worker, from 1 on, tells the gate that it begins, also one
/// that has no rows. `NoThread` comes only if the system started no further thread.
pub fn trial<R: Threads + Wait, G: Gate>(
    rt: &R,
    alloc: Global,
    snapshot: &Snapshot,
    tables: &Tables,
    workers: u32,
    gate: &G,
) -> Result<Report, TrialFault>
    ensures report { IfOk result (λ report.
        IsReport tables.now.commands snapshot.now.rows snapshot.now.endpoints report) }
    ensures workers { (result ≡ Err BadWorkers) ↔ ((workers ≡ 0) ⊎ (64 < workers)) }
{
    if workers == 0 {
        return Err(TrialFault::BadWorkers);
    }
    if workers > 64 {
        return Err(TrialFault::BadWorkers);
    }
    match trial_by(rt, alloc, snapshot, tables, workers, gate) {
        Ok(report) => Ok(report),
        Err(NotShared::NoThread) => Err(TrialFault::NoThread),
        Err(NotShared::NoMemory) => Err(TrialFault::NoMemory),
    }
}

/// The report, if threads are started and there is memory.
fn trial_by<R: Threads + Wait, G: Gate>(
    rt: &R,
    alloc: Global,
    snapshot: &Snapshot,
    tables: &Tables,
    workers: u32,
    gate: &G,
) -> Result<Report, NotShared>
    requires some { 0 < workers }
    requires most { workers ≤ 64 }
    ensures { IfOk result (λ report.
        IsReport tables.now.commands snapshot.now.rows snapshot.now.endpoints report) }
{
    let Ok(registry) = kept_endpoints(snapshot, tables) else {
        return Err(NotShared::NoMemory);
    };
    report_by(rt, alloc, snapshot, tables, &registry, workers, gate)
}

/// Those of the snapshot's endpoints whose zone is local in the candidate.
fn kept_endpoints(snapshot: &Snapshot, tables: &Tables) -> Result<Registry, AllocError>
    ensures { IfOk result (λ registry. registry.endpoints
        ≡ kept_zones tables.now.commands snapshot.now.endpoints) }
{
    let mut registry = snapshot.endpoints().copy()?;
    registry.keep_zones(tables);
    Ok(registry)
}

/// The report over endpoints whose zone is local in the candidate.
fn report_by<R: Threads + Wait, G: Gate>(
    rt: &R,
    alloc: Global,
    snapshot: &Snapshot,
    tables: &Tables,
    registry: &Registry,
    workers: u32,
    gate: &G,
) -> Result<Report, NotShared>
    requires some { 0 < workers }
    requires most { workers ≤ 64 }
    ensures { IfOk result (λ report. report
        ≡ report_among tables.now.commands registry.now.endpoints snapshot.now.rows) }
{
    let lines = tables.commands().as_slice();
    let Ok(zones) = zone_names(alloc, lines) else {
        return Err(NotShared::NoMemory);
    };
    let tried = tried_by(rt, alloc, snapshot, tables, registry, workers, gate)?;
    let tops = peaks(
        rt,
        alloc,
        snapshot.steps(),
        tried.touched.as_slice(),
        zones.len(),
        workers,
    )?;
    let rows = snapshot.admission_count();
    Ok(Report {
        rows: tried.rows,
        zones,
        tops,
        counts: Counts {
            rows,
            same: tried.same,
            changed: rows - tried.same,
        },
    })
}
