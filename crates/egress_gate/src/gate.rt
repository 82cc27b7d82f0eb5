//! One batch after another through the gate.
ghost use Rattle.std.specs.Prelude.{◌≡◌, ◌≢◌, ◌≤◌, ◌<◌, ◌+◌, ◌^◌, ◌++◌, ◌==◌, length, max, IfOk, IfErr, OnOk, OnErr, IsErrOf};
ghost use Rattle.plant_io.specs.Sink.{GainsPart};
ghost use Rattle.plant_io.specs.Story.{content, sent, IsImage, IsSettled};
ghost use Rattle.plant_io.specs.Stops.{StopsLeave};
ghost use Rattle.plant_io.specs.Uses.{plant_use};
ghost use Rattle.aftr_base.specs.Limits.{moment_limit};
ghost use Rattle.aftr_base.specs.declared.event.Event.{Event};
ghost use Rattle.aftr_base.specs.declared.told.Told.{Told};
ghost use Rattle.lease_log.specs.Answers.{IsAtTail};
ghost use Rattle.lease_log.specs.Batch.{batch_body, CanAppend};
ghost use Rattle.trace_query.specs.Logs.{AreBelieved};
ghost use Rattle.xlate_core.specs.Run.{told_of};
ghost use Rattle.xlate_core.specs.State.{State};
ghost use Rattle.xlate_core.specs.Step.{step};
ghost use Rattle.egress_gate.specs.declared.gate.Room.{Room};
ghost use Rattle.egress_gate.specs.declared.refusal.PassFailed.{PassFailed};
ghost use Rattle.egress_gate.specs.Answered.{AnswersForBatch, IsComeTo};
ghost use Rattle.egress_gate.specs.Counting.{AreFew, HasCounted, IsZero};
ghost use Rattle.egress_gate.specs.Held.{held_of};
ghost use Rattle.egress_gate.specs.Logged.{EndsAt, IsFollowing, LogsFirst};
ghost use Rattle.egress_gate.specs.Refusals.{FailsFor, IsUntouched};

use crate::batch::Batch;
use crate::outside::{commit, send};
use crate::refusal::PassFailed;
use crate::tally::Tally;
use aftr_base::{Event, NoMemory};
use disk_journal::Journal;
use plant_io::Plant;
use std::alloc::Global;
use std::marker::Model;
use xlate_core::Core;

/// Whether a batch can hold more.
#[derive(Clone, Copy, Debug, PartialEq, Eq)]
pub enum Room {
    /// A further record may join it.
    More,
    /// It is complete, and has to be flushed before the next record.
    Flush,
}

/// What lets packets out: what passed so far, counted, and the batch that it holds. A batch is one record.
#[derive(Drop)]
pub struct Gate {
    tally: Tally,
    count: u64,
    batch: Batch,
}

impl Model for Gate {
    ghost use Rattle.egress_gate.specs.Held.{Gated, held_in};

    ghost Value = { Gated };

    ghost view = { λ g. record { tally = g.tally; count = g.count; held = held_in g.batch } };
}

impl Gate {
    /// A gate that nothing has passed and that holds nothing, to a log of so many data records.
    pub fn new(alloc: Global, count: u64) -> Result<Self, NoMemory>
        ensures tally { IfOk result (λ gate. IsZero gate.tally) }
        ensures count { IfOk result (λ gate. gate.count ≡ count) }
        ensures idle { IfOk result (λ gate. gate.held.records ≡ 0) }
    {
        let batch = Batch::new(alloc)?;
        Ok(Gate {
            tally: Tally::new(),
            count,
            batch,
        })
    }

    /// What passed, counted.
    pub fn tally(&self) -> Tally
        ensures { result ≡ self.now.tally }
    {
        self.tally
    }

    /// Whether a record may join what is held: where nothing is.
    pub fn joins(&self) -> bool
        ensures { result ≡ (self.now.held.records == 0) }
    {
        self.batch.records == 0
    }

    /// Takes one record through the translator and holds what it gave: its packets and what it logs. `Flush` says that the
    /// batch is complete, which each is by one record. All the memory is taken here that the record needs up to its packets'
    /// sending; after `NoMemory` translator and gate are only dropped, but what passed is counted as before.
    pub fn hold(&mut self, alloc: Global, core: &mut Core, event: &Event) -> Result<Room, NoMemory>
        requires joins { self.old.held.records ≡ 0 }
        requires moment { event.now.at.0 ≤ moment_limit }

        ensures state { OnOk result (core.new ≡ (step core.old event.now).state) }
        ensures held { OnOk result
            (self.new.held ≡ held_of self.old.count (step core.old event.now)) }
        ensures room { IfOk result (λ room. room ≡ Room.Flush) }
        ensures tally { self.new.tally ≡ self.old.tally }
        ensures count { self.new.count ≡ self.old.count }
    {
        self.batch.fill(alloc, core, event, self.count)?;
        Ok(Room::Flush)
    }

    /// Logs the events of what is held in one message, and then sends its packets. `Full` comes exactly where the log has no
    /// room for the message up to `limit` bytes, `Log` and `Outlet` where the file or the outlet failed; after an `Err`
    /// nothing more may pass. It takes no memory, and makes no call where nothing is logged and nothing is sent.
    ///
    /// The log must be such that it can take the events behind what it tells.
    pub fn flush<P: Plant>(
        &mut self,
        journal: &mut Journal,
        plant: &mut P,
        limit: u64,
    ) -> Result<(), PassFailed>
        requires held { self.old.held.records ≡ 1 }
        requires few { AreFew self.old.tally }
        requires few_packets { self.old.held.items < 2 ^ 60 }
        requires few_logged { self.old.count + length self.old.held.log.events < 2 ^ 64 }
        requires journal { IsAtTail journal.old }
        requires follows { P.tells → CanAppend (content (P.story plant.old))
            (journal.old.at + 1) self.old.held.log }
        requires settled { P.tells → IsSettled (P.story plant.old) }

        // All of it was logged, sent and counted.
        ensures tells { P.tells → (was next : Told) →
            IsFollowing (content (P.story plant.old)) self.old.held.log was next →
            OnOk result (EndsAt (content (P.story plant.new)) next (journal.new.at + 1)) }
        ensures sent { P.tells → OnOk result
            (sent (P.story plant.new) ≡ sent (P.story plant.old) ++ self.old.held.packets) }
        ensures counts { OnOk result (HasCounted self.old.held self.old.tally self.new.tally) }
        ensures logged { OnOk result
            (self.new.count ≡ self.old.count + length self.old.held.log.events) }
        ensures idle { OnOk result (self.new.held.records ≡ 0) }
        ensures journal { OnOk result (IsAtTail journal.new) }
        ensures settled { P.tells → OnOk result (IsSettled (P.story plant.new)) }
        ensures room { OnOk result (journal.new.at + 1 ≤ max (journal.old.at + 1) limit) }

        // Or it went no further, for a cause.
        ensures failed { IfErr result (FailsFor (batch_body self.old.held.log)
            (journal.old.at + 1) limit (plant_use ⟦<P as Plant>⟧ plant.old plant.new)) }
        ensures memory { IfErr result (λ cause. cause ≢ PassFailed.NoMemory) }
        ensures untouched { P.tells → IfErr result
            (λ cause. IsUntouched cause → P.story plant.new ≡ P.story plant.old) }
        ensures uncounted { OnErr result (self.new ≡ self.old) }
        ensures unsent { P.tells → IsErrOf result PassFailed.Log →
            sent (P.story plant.new) ≡ sent (P.story plant.old) }
        ensures told { P.tells → (was next : Told) →
            IsFollowing (content (P.story plant.old)) self.old.held.log was next →
            IsErrOf result PassFailed.Outlet →
            EndsAt (content (P.story plant.new)) next (journal.new.at + 1) }
        ensures room_told { IsErrOf result PassFailed.Outlet →
            journal.new.at + 1 ≤ max (journal.old.at + 1) limit }
        ensures secured { P.tells → IfErr result
            (λ cause. cause ≢ PassFailed.Log → IsSettled (P.story plant.new)) }
        ensures part { P.tells → GainsPart self.old.held.packets
            (sent (P.story plant.old)) (sent (P.story plant.new)) }
        ensures disk_later { P.disk_faults plant.old ≤ P.disk_faults plant.new }
        ensures outlet_later { P.out_faults plant.old ≤ P.out_faults plant.new }

        // A stop at any moment leaves the log before the packets.
        ensures stops { P.tells → (was next : Told) →
            IsFollowing (content (P.story plant.old)) self.old.held.log was next →
            StopsLeave (P.story plant.old) (P.story plant.new)
            (LogsFirst was next (sent (P.story plant.old)) self.old.held.packets) }

        // So where the batch is of a state that a run comes to, and each file that a stop at the start might have left is a log
        // that can be believed, each that is left now is one: it names for each packet that left whole the one subscriber
        // whose it was, and whom it named before.
        ensures answers { P.tells → (from : State) (event : Event) → IsComeTo from →
            event.at.0 ≤ moment_limit → self.old.held ≡ held_of self.old.count (step from event) →
            EndsAt (content (P.story plant.old)) (told_of from self.old.count)
            (journal.old.at + 1) →
            AreBelieved (IsImage (P.story plant.old)) →
            AnswersForBatch (P.story plant.old) (P.story plant.new) (step from event) }
    {
        commit(journal, plant, limit, &mut self.batch.log)?;
        send(plant, self.batch.packets.as_slice())?;
        self.count += self.batch.log.len() as u64;
        self.tally
            .count(self.batch.out.items.len(), self.batch.cause);
        self.batch.records = 0;
        Ok(())
    }
}
