//! What records give, spelled for the log and for the output.
ghost use Rattle.std.specs.Prelude.{◌≡◌, ◌≤◌, ◌++◌, [], All, IfOk, OnOk};
ghost use Rattle.aftr_base.specs.Limits.{moment_limit};
ghost use Rattle.lease_log.specs.Batch.{IsWithinLimits};
ghost use Rattle.lease_log.specs.Sound.{HasSoundPlan};
ghost use Rattle.xlate_core.specs.Step.{step};
ghost use Rattle.xlate_core.specs.Stepped.{AreShort};
ghost use Rattle.egress_gate.specs.Output.{output};

use aftr_base::{DropCause, Event, List, LogEvent, Moment, NoMemory};
use lease_log::LogBatch;
use link_records::write_record;
use std::alloc::Global;
use xlate_core::{Core, Item, StepOut};

/// What one record gave, or none, and the same as it stands in the log and in the output. The room is used again.
#[derive(Drop)]
pub(crate) struct Batch {
    pub(crate) records: u64,
    pub(crate) out: StepOut,
    pub(crate) cause: Option<DropCause>,
    pub(crate) log: LogBatch,
    pub(crate) packets: List<u8>,
}

impl Batch {
    ghost use Rattle.egress_gate.specs.Spelled.{HasSpelled};

    /// A batch of no record.
    pub(crate) fn new(alloc: Global) -> Result<Self, NoMemory>
        ensures { IfOk result (λ batch. batch.records ≡ 0) }
    {
        let log = LogBatch::new(alloc, Moment(0), 0)?;
        Ok(Batch {
            records: 0,
            out: StepOut::new(alloc),
            cause: None,
            log,
            packets: List::new(alloc),
        })
    }

    /// Takes one record through the translator, behind so many data records: all the memory that the record needs is taken
    /// here.
    pub(crate) fn fill(
        &mut self,
        alloc: Global,
        core: &mut Core,
        event: &Event,
        number: u64,
    ) -> Result<(), NoMemory>
        requires { event.now.at.0 ≤ moment_limit }
        ensures { OnOk result (HasSpelled (step core.old event.now) number core.new self.new) }
    {
        self.out.clear();
        self.packets.clear();
        self.cause = core.step(alloc, event, &mut self.out)?;
        self.log.restart(core.clock(), number);
        collect(self.out.log.as_slice(), &mut self.log)?;
        encode(self.out.items.as_slice(), &mut self.packets)?;
        self.records = 1;
        Ok(())
    }
}

// Adds events to a batch, in their order.
fn collect(events: &[LogEvent], batch: &mut LogBatch) -> Result<(), NoMemory>
    requires empty { batch.old.events ≡ [] }
    requires short { IsWithinLimits events.now }
    requires no_plan { All HasSoundPlan events.now }
    ensures { OnOk result (batch.new ≡ record batch.old { events = events.now }) }
{
    for event in events {
        batch.add(event)?;
    }
    Ok(())
}

// Writes the items as they stand in the output, behind what is there.
fn encode(items: &[Item], out: &mut List<u8>) -> Result<(), NoMemory>
    requires { AreShort items.now }
    ensures { OnOk result (out.new ≡ out.old ++ output items.now) }
{
    for item in items {
        write_record(item.side, item.at, item.bytes.as_slice(), out)?;
    }
    Ok(())
}
