//! The closings of rows that a log left open, committed frame by frame.
ghost use Rattle.std.specs.Prelude.{◌≡◌, ◌≢◌, ◌≤◌, ◌+◌, ◌++◌, [], ◌∷◌, drop, length, Ok as Is, IfOk, IfErr, OnOk, Err, IsErrOf, ◌<◌, ◌^◌};
ghost use Rattle.std.specs.List.{list_any};
ghost use Rattle.plant_io.specs.Causes.{Rose};
ghost use Rattle.plant_io.specs.Stops.{StopsLeave};
ghost use Rattle.plant_io.specs.Story.{content, IsSettled};
ghost use Rattle.aftr_base.specs.Row.{is_in_use};
ghost use Rattle.lease_log.specs.Answers.{AreFew, IsAtTail};
ghost use Rattle.lease_log.specs.Batch.{batch_body, empty_batch, AppendLeaves, CanAppend, HasAppended, IsWithinLimits};
ghost use Rattle.lease_log.specs.Log.{log_of};
ghost use Rattle.lease_log.specs.Sound.{IsSound};
ghost use Rattle.recovery.specs.Answers.{IsLack, RecoversTo};
ghost use Rattle.recovery.specs.Closings.{lease_closing, lease_closings, plan_closings};
ghost use Rattle.recovery.specs.Frames.{CloseLeaves, HasClosed, HasGathered, IsRefusal, log_at_tail};

use crate::RecoverBad;
use aftr_base::{LeaseRow, LogEvent, Moment, NoMemory, PlanRow, Told};
use disk_journal::{Commit, Journal};
use lease_log::{LogBatch, append};
use plant_io::Plant;

/// How many closings a frame has, but for the last.
const FRAME: usize = 1024;

/// Commits the closing of the plan in use and of each open lease behind what the log tells, and answers how many data records it
/// has then. The batch has no events yet, and is of a message at the horizon behind those records.
pub fn commit_closings<P: Plant>(
    told: &Told,
    batch: &mut LogBatch,
    journal: &mut Journal,
    plant: &mut P,
    limit: u64,
) -> Result<u64, RecoverBad>
    requires batch { batch.old ≡ empty_batch told.now.horizon.0 told.now.count }
    requires sound { IsSound told.now }
    requires few { AreFew told.now journal.old.at }
    requires journal { IsAtTail journal.old }
    requires tells { P.tells → log_of (content (P.story plant.old)) ≡ Is (log_at_tail told.now journal.old) }
    requires settled { P.tells → IsSettled (P.story plant.old) }

    ensures few { IfOk result (λ count. count < 2 ^ 62) }
    ensures full { IfErr result (IsLack limit) }
    ensures closed { P.tells → IfOk result
        (HasClosed limit (log_at_tail told.now journal.old) (content (P.story plant.new)) (journal.new.at + 1)) }
    ensures refused { P.tells → IfErr result
        (λ bad. RecoversTo limit (content (P.story plant.old)) (content (P.story plant.new)) (Err bad)) }
    ensures journal { OnOk result (IsAtTail journal.new) }
    ensures settled { P.tells → result ≢ Err RecoverBad.Failed → IsSettled (P.story plant.new) }
    ensures stops { P.tells → StopsLeave (P.story plant.old) (P.story plant.new) (CloseLeaves (P.story plant.old)) }
    ensures failed { IsErrOf result RecoverBad.Failed → Rose (P.disk_faults plant.old) (P.disk_faults plant.new) }
    ensures disk_count { P.disk_faults plant.old ≤ P.disk_faults plant.new }
    ensures outlet { P.out_faults plant.new ≡ P.out_faults plant.old }
{
    // How far the log was read bounds how many records it told.
    let _read = journal.tail();
    add_plan_closing(told, batch)?;
    let mut count = told.count;
    let mut rest = told.leases.as_slice();
    loop {
        let passed = add_lease_closings(rest, told.horizon, batch)?;
        let closings = batch.len();
        if closings == 0 {
            return Ok(count);
        }
        match commit(batch, journal, plant, limit) {
            Ok(()) => {}
            Err(bad) => return Err(bad),
        }
        count += closings as u64;
        batch.restart(told.horizon, count);
        rest = behind(rest, passed);
    }
}

// Commits a batch of closings.
fn commit<P: Plant>(
    batch: &mut LogBatch,
    journal: &mut Journal,
    plant: &mut P,
    limit: u64,
) -> Result<(), RecoverBad>
    requires journal { IsAtTail journal.old }
    requires follows { P.tells → CanAppend (content (P.story plant.old)) (journal.old.at + 1) batch.old }
    requires settled { P.tells → IsSettled (P.story plant.old) }

    ensures done { P.tells → OnOk result (HasAppended (P.story plant.old) (P.story plant.new) batch.old) }
    ensures stops { P.tells → StopsLeave (P.story plant.old) (P.story plant.new)
        (AppendLeaves (P.story plant.old) batch.old) }
    ensures refused { IfErr result (IsRefusal (journal.old.at + 1) (length (batch_body batch.old)) limit) }
    ensures unwritten { P.tells → IfErr result (λ bad. bad ≢ RecoverBad.Failed → P.story plant.new ≡ P.story plant.old) }
    ensures journal { OnOk result (IsAtTail journal.new) }
    ensures moved { OnOk result (journal.new.at ≡ journal.old.at + length (batch_body batch.old)) }
    ensures room { OnOk result (journal.new.at + 1 ≤ limit) }
    ensures batch { batch.new ≡ batch.old }
    ensures failed { IsErrOf result RecoverBad.Failed → Rose (P.disk_faults plant.old) (P.disk_faults plant.new) }
    ensures disk_count { P.disk_faults plant.old ≤ P.disk_faults plant.new }
    ensures outlet { P.out_faults plant.new ≡ P.out_faults plant.old }
{
    match append(journal, plant, limit, batch) {
        Commit::Done => Ok(()),
        Commit::Full { tail, need, limit } => Err(RecoverBad::Full { tail, need, limit }),
        Commit::Failed => Err(RecoverBad::Failed),
    }
}

// The leases behind so many.
fn behind(leases: &[LeaseRow], passed: usize) -> &[LeaseRow]
    requires { passed ≤ length leases.now }
    ensures { result.now ≡ drop passed leases.now }
{
    leases.split_at(passed).1
}

// ---- what a batch closes

// Adds the closing of the plan in use, if there is one, to a batch without events.
fn add_plan_closing(told: &Told, batch: &mut LogBatch) -> Result<(), NoMemory>
    requires { batch.old.events ≡ [] }
    ensures { OnOk result (batch.new ≡ record batch.old { events = plan_closings told.now }) }
{
    if has_plan(told.plans.as_slice()) {
        batch.add(&LogEvent::Plan {
            at: told.horizon,
            spec: None,
        })?;
    }
    Ok(())
}

// Whether a plan is in use.
fn has_plan(plans: &[PlanRow]) -> bool
    ensures { result ≡ list_any is_in_use plans.now }
{
    plans.iter().any(|p| p.until.is_none())
}

// Adds the closings of open leases, in order, up to a whole frame, and answers how many leases were passed.
fn add_lease_closings(
    leases: &[LeaseRow],
    horizon: Moment,
    batch: &mut LogBatch,
) -> Result<usize, NoMemory>
    requires few { length batch.old.events ≤ 1024 }
    requires limits { IsWithinLimits batch.old.events }
    ensures { IfOk result (HasGathered horizon leases.now batch.old batch.new) }
{
    for at in 0..leases.len() {
        if batch.len() == FRAME {
            return Ok(at);
        }
        add_lease_closing(&leases[at], horizon, batch)?;
    }
    Ok(leases.len())
}

// Adds the closing of a lease, if it is open.
fn add_lease_closing(
    lease: &LeaseRow,
    horizon: Moment,
    batch: &mut LogBatch,
) -> Result<(), NoMemory>
    requires few { length batch.old.events + 1 ≤ 1024 }
    requires limits { IsWithinLimits batch.old.events }
    ensures { OnOk result (batch.new
        ≡ record batch.old { events = batch.old.events ++ lease_closings horizon (lease.now ∷ []) }) }
{
    if lease.until.is_none() {
        batch.add(&lease_closing(lease, horizon))?;
    }
    Ok(())
}

// The end of a lease at this moment (RFC 8158 section 4.3).
fn lease_closing(lease: &LeaseRow, at: Moment) -> LogEvent
    ensures { result ≡ lease_closing at lease.now }
{
    LogEvent::Block {
        opens: false,
        owner: lease.owner,
        addr: lease.addr,
        first: lease.first,
        last: lease.last,
        at,
    }
}
