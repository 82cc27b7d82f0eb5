//! What a run starts from.
ghost use Rattle.std.specs.Prelude.{◌≡◌, true, IfOk};
ghost use Rattle.aftr_base.specs.Limits.{log_moment_limit};
ghost use Rattle.cfg_text.specs.Accepted.{is_accepted};
ghost use Rattle.xlate_core.specs.Run.{start as start_of};
ghost use Rattle.xlate_core.specs.Valid.{is_closed, is_told_by};

use crate::translator::Core;
use aftr_base::{List, Moment, NoMemory, PlanRow, Told};
use cfg_text::Config;
use frag_reasm::Pieces;
use fragment_ids::FragmentIds;
use nat_mapping::{Table, TakenPorts};
use port_blocks::Blocks;
use std::alloc::Global;

impl Core {
    /// The state at the start, under an accepted configuration and over what a log tells, whose rows have ended and whose
    /// moments keep to the log's limit: no mapping, no piece, nothing cut, and the rows and the horizon as told. Up to the end of what is told
    /// packets settle, since until then the log may name others for the same ports.
    pub fn start(alloc: Global, config: Config, told: &Told) -> Result<Self, NoMemory>
        requires accepted { is_accepted config ≡ true }
        requires closed { is_closed told.now ≡ true }
        requires moments { is_told_by log_moment_limit told.now ≡ true }
        ensures { IfOk result (λ core. core ≡ start_of config told.now) }
    {
        let blocks = Blocks::from_rows(alloc, told.leases.as_slice())?;
        let plans = copied_plans(alloc, told.plans.as_slice())?;
        let taken = TakenPorts::new(alloc)?;
        Ok(Core {
            config,
            clock: Moment(0),
            floor: told.end(),
            horizon: told.horizon,
            table: Table::new(alloc),
            taken,
            blocks,
            plans,
            kept: Pieces::new(alloc),
            cuts: FragmentIds::new(alloc),
            all_used: false,
        })
    }
}

fn copied_plans(alloc: Global, plans: &[PlanRow]) -> Result<List<PlanRow>, NoMemory>
    ensures { IfOk result (λ rows. rows ≡ plans.now) }
{
    let mut rows = List::new(alloc);
    for plan in plans {
        let row = PlanRow {
            spec: plan.spec.copied(alloc)?,
            since: plan.since,
            until: plan.until,
        };
        rows.push(row)?;
    }
    Ok(rows)
}
