//! One run: the records of an input through the gate, to the input's end or to what stops the run.
ghost use Rattle.std.specs.Prelude.{◌≡◌, ◌≢◌, ◌+◌, ◌≤◌, ◌<◌, ◌^◌, ◌++◌, true, length, max, IfOk, IfErr, OnOk, OnErr, IsErrOf};
ghost use Rattle.std.specs.declared.result.Result.TheVariants.{Ok as Follows};
ghost use Rattle.plant_io.specs.Sink.{GainsPart};
ghost use Rattle.plant_io.specs.Stops.{StopsLeave};
ghost use Rattle.plant_io.specs.Story.{content, sent, IsSettled};
ghost use Rattle.cfg_text.specs.Accepted.{is_accepted};
ghost use Rattle.aftr_base.specs.Limits.{log_moment_limit, moment_limit};
ghost use Rattle.aftr_base.specs.Telling.{in_message_order, told_after};
ghost use Rattle.xlate_core.specs.Valid.{IsStart, is_closed, is_told_by};
ghost use Rattle.aftr_base.specs.declared.outcome.Status.{Status};
ghost use Rattle.aftr_engine.specs.session.EndToEnd.{output_of};
ghost use Rattle.plant_io.specs.Uses.{source_use, plant_use};
ghost use Rattle.aftr_engine.specs.session.Fronts.{HasCome};
ghost use Rattle.aftr_engine.specs.session.Stops.{AccountsFor};
ghost use Rattle.egress_gate.specs.declared.refusal.PassFailed.{PassFailed};
ghost use Rattle.egress_gate.specs.Counting.{AreFew, HasCounted};
ghost use Rattle.egress_gate.specs.Held.{body_for};
ghost use Rattle.egress_gate.specs.Logged.{EndsAt, LogsFirst};
ghost use Rattle.egress_gate.specs.Output.{output};
ghost use Rattle.egress_gate.specs.Refusals.{FailsFor, IsUntouched};
ghost use Rattle.xlate_core.specs.Step.{log_of};
ghost use Rattle.lease_log.specs.Answers.{IsAtTail};

use aftr_base::{Event, NoMemory, Status, Told};
use cfg_text::Config;
use disk_journal::Journal;
use egress_gate::{Gate, Lack, PassFailed, Tally};
use link_records::{FrameReader, Next};
use plant_io::{Plant, Source};
use std::alloc::Global;
use xlate_core::Core;

/// The parts of a run: what reads records, what translates them, and what logs and sends.
#[derive(Drop)]
pub struct Session {
    reader: FrameReader,
    core: Core,
    journal: Journal,
    gate: Gate,
}

impl Session {
    ghost use Rattle.aftr_engine.specs.session.Begun.{HasBegun, StopsFor, IsAtRecordsEnd, TalliesAs};
    ghost use Rattle.aftr_engine.specs.session.Begun.{config_of, held_next, step_of, tally_of, told_at, told_then};

    /// A run with this configuration, from what its log tells, whose rows are all closed. The journal is at the log's tail.
    pub fn new(
        alloc: Global,
        config: Config,
        told: &Told,
        journal: Journal,
    ) -> Result<Self, NoMemory>
        requires accepted { is_accepted config ≡ true }
        requires closed { is_closed told.now ≡ true }
        requires moments { is_told_by log_moment_limit told.now ≡ true }
        ensures begun { IfOk result (λ session. HasBegun config told.now session) }
        ensures journal { IfOk result (λ session. session.journal ≡ journal) }
    {
        let reader = FrameReader::new(alloc)?;
        let core = Core::start(alloc, config, told)?;
        let gate = Gate::new(alloc, told.count)?;
        Ok(Session {
            reader,
            core,
            journal,
            gate,
        })
    }

    /// What passed, counted.
    pub fn tally(&self) -> Tally
        ensures { result ≡ tally_of self.now }
    {
        self.gate.tally()
    }

    /// Treats each record of the input in order. `Ok` comes at the input's end and `BadInput` where no record
    /// stands; a fault of the input, the log or the outlet, a log without room, and want of memory end the run before.
    pub fn run<I: Source, P: Plant>(
        &mut self,
        alloc: Global,
        input: &mut I,
        plant: &mut P,
    ) -> Status
        requires start { IsStart (config_of self.old) (told_at self.old) }
        requires begun { HasBegun (config_of self.old) (told_at self.old) self.old }
        requires few { self.old.gate.count < 2 ^ 62 }
        requires journal { IsAtTail self.old.journal }
        requires tells { P.tells → EndsAt (content (P.story plant.old)) (told_at self.old)
            (self.old.journal.at + 1) }
        requires settled { P.tells → IsSettled (P.story plant.old) }

        ensures ends { StopsFor (config_of self.old) (source_use ⟦<I as Source>⟧ input.old input.new)
            (plant_use ⟦<P as Plant>⟧ plant.old plant.new) result }
        ensures came { HasCome (config_of self.old) (told_at self.old)
            (source_use ⟦<I as Source>⟧ input.old input.new)
            (plant_use ⟦<P as Plant>⟧ plant.old plant.new) (tally_of self.new).drops.0 result }
        ensures room { (now : _) (tail : _) → P.tells → result ≢ Status.LogFault →
            EndsAt (content (P.story plant.new)) now tail →
            tail ≤ max (self.old.journal.at + 1) (config_of self.old).log_limit }
        ensures counts { I.tells → IsAtRecordsEnd result →
            TalliesAs (config_of self.old) (told_at self.old) (I.rest input.old) (tally_of self.new) }
        ensures part { I.tells → P.tells →
            GainsPart (output_of (config_of self.old) (told_at self.old) (I.rest input.old))
            (sent (P.story plant.old)) (sent (P.story plant.new)) }
        ensures stops { I.tells → P.tells → StopsLeave (P.story plant.old) (P.story plant.new)
            (AccountsFor (config_of self.old) (told_at self.old) (I.rest input.old)
            (sent (P.story plant.old))) }
        ensures settled { P.tells → result ≢ Status.LogFault → IsSettled (P.story plant.new) }
    {
        loop {
            let event = match self.reader.next(alloc, input) {
                Next::Got(event) => event,
                Next::End => return Status::Ok,
                Next::Bad(offset) => return Status::BadInput { input: 0, offset },
                Next::Failed => return Status::ReadFault,
                Next::NoMemory => return Status::NoMemory,
            };
            match self.pass(alloc, plant, &event) {
                Ok(()) => {}
                Err(PassFailed::NoMemory) => return Status::NoMemory,
                Err(PassFailed::Full(lack)) => return full(lack),
                Err(PassFailed::Log) => return Status::LogFault,
                Err(PassFailed::Outlet) => return Status::OutFault,
            }
        }
    }

    // Takes one record through the gate.
    fn pass<P: Plant>(
        &mut self,
        alloc: Global,
        plant: &mut P,
        event: &Event,
    ) -> Result<(), PassFailed>
        requires moment { event.now.at.0 ≤ moment_limit }
        requires idle { self.old.gate.held.records ≡ 0 }
        requires few { AreFew self.old.gate.tally }
        requires few_logged { self.old.gate.count < 2 ^ 63 }
        requires journal { IsAtTail self.old.journal }
        requires tells { P.tells → EndsAt (content (P.story plant.old)) (told_at self.old)
            (self.old.journal.at + 1) }
        requires follows { told_after (in_message_order (log_of (step_of self.old event.now)))
            (told_at self.old) ≡ Follows (told_then self.old event.now) }
        requires settled { P.tells → IsSettled (P.story plant.old) }

        ensures reader { self.new.reader ≡ self.old.reader }
        ensures idle { OnOk result (self.new.gate.held.records ≡ 0) }
        ensures state { OnOk result (self.new.core ≡ (step_of self.old event.now).state) }
        ensures counts { OnOk result
            (HasCounted (held_next self.old event.now) self.old.gate.tally self.new.gate.tally) }
        ensures logged { OnOk result (self.new.gate.count
            ≡ self.old.gate.count + length (log_of (step_of self.old event.now))) }
        ensures sent { P.tells → OnOk result (sent (P.story plant.new)
            ≡ sent (P.story plant.old) ++ output (step_of self.old event.now).items) }
        ensures part { P.tells → GainsPart (output (step_of self.old event.now).items)
            (sent (P.story plant.old)) (sent (P.story plant.new)) }
        ensures tells { P.tells → OnOk result (EndsAt (content (P.story plant.new))
            (told_then self.old event.now) (self.new.journal.at + 1)) }
        ensures journal { OnOk result (IsAtTail self.new.journal) }
        ensures room { OnOk result (self.new.journal.at + 1
            ≤ max (self.old.journal.at + 1) self.old.core.config.log_limit) }
        ensures settled { P.tells → OnOk result (IsSettled (P.story plant.new)) }
        ensures stops { P.tells → StopsLeave (P.story plant.old) (P.story plant.new)
            (LogsFirst (told_at self.old) (told_then self.old event.now)
            (sent (P.story plant.old)) (output (step_of self.old event.now).items)) }

        ensures failed { IfErr result (FailsFor
            (body_for self.old.gate.count (step_of self.old event.now))
            (self.old.journal.at + 1) self.old.core.config.log_limit
            (plant_use ⟦<P as Plant>⟧ plant.old plant.new)) }
        ensures untouched { P.tells → IfErr result
            (λ cause. IsUntouched cause → P.story plant.new ≡ P.story plant.old) }
        ensures uncounted { OnErr result (self.new.gate.tally ≡ self.old.gate.tally) }
        ensures unsent { P.tells → IsErrOf result PassFailed.Log →
            sent (P.story plant.new) ≡ sent (P.story plant.old) }
        ensures told { P.tells → IsErrOf result PassFailed.Outlet →
            EndsAt (content (P.story plant.new)) (told_then self.old event.now)
            (self.new.journal.at + 1) }
        ensures room_told { IsErrOf result PassFailed.Outlet → self.new.journal.at + 1
            ≤ max (self.old.journal.at + 1) self.old.core.config.log_limit }
        ensures secured { P.tells → IfErr result
            (λ cause. cause ≢ PassFailed.Log → IsSettled (P.story plant.new)) }
        ensures disk_later { P.disk_faults plant.old ≤ P.disk_faults plant.new }
        ensures outlet_later { P.out_faults plant.old ≤ P.out_faults plant.new }
    {
        self.gate.hold(alloc, &mut self.core, event)?;
        self.gate
            .flush(&mut self.journal, plant, self.core.log_limit())
    }
}

// The end of a run whose log has no room.
fn full(lack: Lack) -> Status
    ensures { result ≡ Status.LogFull lack.tail lack.need lack.limit }
{
    Status::LogFull {
        tail: lack.tail,
        need: lack.need,
        limit: lack.limit,
    }
}
