//! The translator: events to packets, one record after another.
ghost use Rattle.std.specs.Prelude.{◌≡◌, ◌≤◌, nat_lt, not, IfOk};
ghost use Rattle.aftr_base.specs.Limits.{moment_limit};
ghost use Rattle.xlate_core.specs.State.{item};
ghost use Rattle.xlate_core.specs.Step.{dropped, refused_as_kind, step, treatment, with_horizon};
ghost use Rattle.xlate_core.specs.Stepped.{HasStepped};

use crate::step_out::{Item, StepOut};
use aftr_base::{DropCause, Event, EventKind, List, Moment, NoMemory, PlanRow, Side, Subscriber};
use cfg_text::Config;
use frag_reasm::Pieces;
use fragment_ids::FragmentIds;
use nat_mapping::{Table, TakenPorts};
use port_blocks::Blocks;
use std::alloc::Global;
use std::marker::Model;

/// The translator's state: the clock, the mappings, the leases and the plans. The floor is the moment up to which packets
/// settle, and the horizon that up to which the log promises names.
#[derive(Drop)]
pub struct Core {
    pub(crate) config: Config,
    pub(crate) clock: Moment,
    pub(crate) floor: Moment,
    pub(crate) horizon: Moment,
    pub(crate) table: Table,
    // what the search for a packet's row marks on its way
    pub(crate) taken: TakenPorts,
    pub(crate) blocks: Blocks,
    // carried along: no run opens one yet
    pub(crate) plans: List<PlanRow>,
    // of datagrams that aren't whole
    pub(crate) kept: Pieces,
    // how many packets to each subscriber were cut
    pub(crate) cuts: FragmentIds,
    // whether a row is known to have its place in each open lease, so that none is idle
    pub(crate) all_used: bool,
}

impl Model for Core {
    ghost use Rattle.std.specs.Prelude.{◌≡◌, ◌≤◌, ◌&&◌, true, false};
    ghost use Rattle.aftr_base.specs.Limits.{moment_limit};
    ghost use Rattle.cfg_text.specs.Accepted.{is_accepted};
    ghost use Rattle.ingress.specs.Gathering.{AreKept};
    ghost use Rattle.xlate_core.specs.State.{State};
    ghost use Rattle.xlate_core.specs.Expiry.{has_idle};
    ghost use Rattle.xlate_core.specs.Valid.{AreGranted};

    ghost Value = { State };

    ghost view = { λ c. record {
      config = c.config;
      clock = c.clock.0;
      floor = c.floor.0;
      horizon = c.horizon.0;
      rows = c.table.rows;
      leases = c.blocks.rows;
      plans = c.plans;
      kept = c.kept;
      cuts = c.cuts.counts;
    } };

    ghost invariant = { λ c. (is_accepted c.config ≡ true) × (c.clock.0 ≤ moment_limit)
        × ((c.all_used && has_idle c.table.rows c.blocks.rows) ≡ false)
        × AreGranted c.table.rows c.blocks.rows × AreKept c.kept };
}

impl Core {
    /// The greatest moment so far.
    pub fn clock(&self) -> Moment
        ensures moment { result.0 ≡ self.now.clock }
        ensures within { result.0 ≤ moment_limit }
    {
        self.clock
    }

    /// The moment up to which packets settle.
    pub fn floor(&self) -> Moment
        ensures { result.0 ≡ self.now.floor }
    {
        self.floor
    }

    /// The greatest moment up to which the log promises names, once it has what was logged so far.
    pub fn horizon(&self) -> Moment
        ensures { result.0 ≡ self.now.horizon }
    {
        self.horizon
    }

    /// How many bytes the log may have, by the configuration in force.
    pub fn log_limit(&self) -> u64
        ensures { result ≡ self.now.config.log_limit }
    {
        self.config.log_limit
    }

    /// Takes one record through the translator: its packets and log events are added to `out`, and the answer is why it
    /// was dropped, if it was. After `NoMemory` nothing is said of the state, which is only dropped.
    pub fn step(
        &mut self,
        alloc: Global,
        event: &Event,
        out: &mut StepOut,
    ) -> Result<Option<DropCause>, NoMemory>
        requires { event.now.at.0 ≤ moment_limit }
        ensures { IfOk result
            (λ cause. HasStepped (step self.old event.now) out.old self.new out.new cause) }
    {
        self.move_to(event.at, &mut out.log)?;
        self.treat(alloc, event, out)
    }

    // the record's own treatment, at the clock, and the horizon that it needs
    fn treat(
        &mut self,
        alloc: Global,
        event: &Event,
        out: &mut StepOut,
    ) -> Result<Option<DropCause>, NoMemory>
        ensures { IfOk result (λ cause. HasStepped
            (with_horizon (treatment self.old event.now.kind event.now.bytes))
            out.old self.new out.new cause) }
    {
        match event.kind {
            EventKind::Softwire => self.step_outbound(alloc, event.bytes.as_slice(), out),
            EventKind::Public => self.step_inbound(alloc, event.bytes.as_slice(), out),
            EventKind::Tick => Ok(None),
            EventKind::Change => Ok(Some(DropCause::BadChange)),
            EventKind::Snapped => Ok(Some(self.refusal_as(DropCause::Snapped))),
            EventKind::Foreign => Ok(Some(self.refusal_as(DropCause::NoProtocol))),
            EventKind::Stray => Ok(Some(self.refusal_as(DropCause::BadPacket))),
        }
    }

    /// Whether packets settle at the clock.
    pub(crate) fn settles(&self) -> bool
        ensures { result ≡ not (nat_lt self.now.floor self.now.clock) }
    {
        self.clock.0 <= self.floor.0
    }

    // why a record is refused whatever its bytes are
    fn refusal_as(&self, cause: DropCause) -> DropCause
        ensures { dropped self.now result ≡ refused_as_kind self.now cause }
    {
        if self.settles() {
            DropCause::Settling
        } else {
            cause
        }
    }

    // a packet that leaves, at the clock's moment
    pub(crate) fn item(&self, side: Side, owner: Option<Subscriber>, bytes: Vec<u8>) -> Item
        ensures { result ≡ item self.now side owner bytes.items }
    {
        Item {
            side,
            at: self.clock,
            owner,
            bytes: List::from_vec(bytes),
        }
    }
}
