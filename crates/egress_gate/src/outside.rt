//! What is done outside: a batch's events go to the log, and its packets to the outlet.
ghost use Rattle.std.specs.Prelude.{◌≡◌, ◌≤◌, ◌+◌, ◌++◌, List as Items, ℕ, max, IfErr, OnOk, OnErr};
ghost use Rattle.plant_io.specs.Causes.{Rose};
ghost use Rattle.plant_io.specs.Sink.{GainsPart};
ghost use Rattle.plant_io.specs.Story.{Story, content, sent, IsSettled};
ghost use Rattle.plant_io.specs.Stops.{StopsLeave};
ghost use Rattle.plant_io.specs.Uses.{plant_use};
ghost use Rattle.aftr_base.specs.declared.told.Told.{Told};
ghost use Rattle.lease_log.specs.Answers.{IsAtTail};
ghost use Rattle.lease_log.specs.Batch.{batch_body, CanAppend};
ghost use Rattle.egress_gate.specs.Logged.{EndsAt, IsFollowing, LogsFirst, Tells};
ghost use Rattle.egress_gate.specs.Refusals.{FailsFor, IsDiskOnly, IsUntouched};

use crate::refusal::{Lack, PassFailed};
use disk_journal::{Commit, Journal};
use lease_log::{LogBatch, append};
use plant_io::{Failed, Plant};

/// Commits a batch's events, if there are any.
pub(crate) fn commit<P: Plant>(
    journal: &mut Journal,
    plant: &mut P,
    limit: u64,
    batch: &mut LogBatch,
) -> Result<(), PassFailed>
    requires journal { IsAtTail journal.old }
    requires follows { P.tells → CanAppend (content (P.story plant.old))
        (journal.old.at + 1) batch.old }
    requires settled { P.tells → IsSettled (P.story plant.old) }

    ensures tells { P.tells → (was next : Told) →
        IsFollowing (content (P.story plant.old)) batch.old was next →
        OnOk result (EndsAt (content (P.story plant.new)) next (journal.new.at + 1)) }
    ensures journal { OnOk result (IsAtTail journal.new) }
    ensures room { OnOk result (journal.new.at + 1 ≤ max (journal.old.at + 1) limit) }
    ensures settled { P.tells → OnOk result (IsSettled (P.story plant.new)) }
    ensures unsent { P.tells → sent (P.story plant.new) ≡ sent (P.story plant.old) }
    ensures stops { P.tells → (was next : Told) (packets : Items ℕ) →
        IsFollowing (content (P.story plant.old)) batch.old was next →
        StopsLeave (P.story plant.old) (P.story plant.new)
        (LogsFirst was next (sent (P.story plant.old)) packets) }
    ensures batch { batch.new ≡ batch.old }

    ensures failed { IfErr result (FailsFor (batch_body batch.old) (journal.old.at + 1) limit
        (plant_use ⟦<P as Plant>⟧ plant.old plant.new)) }
    ensures disk_only { IfErr result IsDiskOnly }
    ensures untouched { P.tells → IfErr result
        (λ cause. IsUntouched cause → P.story plant.new ≡ P.story plant.old) }
    ensures disk_later { P.disk_faults plant.old ≤ P.disk_faults plant.new }
    ensures outlet { P.out_faults plant.new ≡ P.out_faults plant.old }
{
    if batch.len() == 0 {
        return Ok(());
    }
    match append(journal, plant, limit, batch) {
        Commit::Done => Ok(()),
        Commit::Full { tail, need, limit } => Err(PassFailed::Full(Lack { tail, need, limit })),
        Commit::Failed => Err(PassFailed::Log),
    }
}

/// Sends packets, if there are any.
pub(crate) fn send<P: Plant>(plant: &mut P, packets: &[u8]) -> Result<(), PassFailed>
    ensures sent { P.tells → OnOk result
        (sent (P.story plant.new) ≡ sent (P.story plant.old) ++ packets.now) }
    ensures part { P.tells → GainsPart packets.now (sent (P.story plant.old))
        (sent (P.story plant.new)) }
    ensures log { P.tells → content (P.story plant.new) ≡ content (P.story plant.old) }
    ensures settled { P.tells → IsSettled (P.story plant.old) → IsSettled (P.story plant.new) }
    ensures stops { P.tells → (first : Story) (was next : Told) →
        StopsLeave first (P.story plant.old) (LogsFirst was next (sent first) packets.now) →
        IsSettled (P.story plant.old) → Tells (content (P.story plant.old)) next →
        sent (P.story plant.old) ≡ sent first →
        StopsLeave first (P.story plant.new) (LogsFirst was next (sent first) packets.now) }
    ensures cause { IfErr result (λ cause. cause ≡ PassFailed.Outlet) }
    ensures outlet { OnErr result (Rose (P.out_faults plant.old) (P.out_faults plant.new)) }
    ensures outlet_later { P.out_faults plant.old ≤ P.out_faults plant.new }
    ensures disk { P.disk_faults plant.new ≡ P.disk_faults plant.old }
{
    if packets.is_empty() {
        return Ok(());
    }
    match plant.emit(packets) {
        Ok(()) => Ok(()),
        Err(Failed) => Err(PassFailed::Outlet),
    }
}
