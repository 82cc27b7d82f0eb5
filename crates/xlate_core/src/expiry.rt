//! What goes when the clock is raised: peers and mappings (RFC 4787 4.3), blocks that nothing uses, and old pieces.
ghost use Rattle.std.specs.Prelude.{◌≡◌, ◌≤◌, ◌++◌, ◌&&◌, false, IfOk, OnOk};
ghost use Rattle.std.specs.List.{AllZip};
ghost use Rattle.aftr_base.specs.Limits.{moment_limit};
ghost use Rattle.xlate_core.specs.Expiry.{MayEnd, at_moment, closing_limit, closings_of, has_idle, is_idle, with_idle_ended};
ghost use Rattle.xlate_core.specs.Stepped.{HasMoved};

use crate::step_out::block_event;
use crate::translator::Core;
use aftr_base::{LeaseRow, List, LogEvent, Moment, NoMemory};
use nat_mapping::Table;
use port_blocks::Blocks;

/// How many leases end at one moment, at the most.
const CLOSING_LIMIT: u16 = 512;

impl Core {
    /// Raises the clock, where the moment is past it: pieces, peers and mappings go whose time has come, and blocks close in
    /// which no mapping has its place, in order of opening and 512 of them at the most. The log is told of those. After
    /// `NoMemory`, which comes where the log gets no room, nothing is said of the state. Leases are looked through only
    /// where a row went, or where one may have been idle before.
    pub(crate) fn move_to(&mut self, at: Moment, log: &mut List<LogEvent>) -> Result<(), NoMemory>
        requires { at.0 ≤ moment_limit }
        ensures { OnOk result (HasMoved (at_moment at.0 self.old) self.new log.old log.new) }
    {
        if at.0 <= self.clock.0 {
            return Ok(());
        }
        self.clock = at;
        self.kept.expire(at);
        let went = self.table.expire(at);
        if self.all_used && !went {
            return Ok(());
        }
        self.all_used = false;
        self.all_used = close_idle(&mut self.blocks, &self.table, at, log)?;
        Ok(())
    }
}

// Ends at the moment `now` the first idle leases, as many as may end at one moment, and logs them. The answer is whether
// it is known that none is left.
fn close_idle(
    blocks: &mut Blocks,
    table: &Table,
    now: Moment,
    log: &mut List<LogEvent>,
) -> Result<bool, NoMemory>
    ensures leases { OnOk result
        (blocks.new.rows ≡ with_idle_ended closing_limit now.0 table.now.rows blocks.old.rows) }
    ensures log { OnOk result
        (log.new ≡ log.old ++ closings_of closing_limit now.0 table.now.rows blocks.old.rows) }
    ensures none { IfOk result
        (λ none. (none && has_idle table.now.rows blocks.new.rows) ≡ false) }
    ensures ended { AllZip (MayEnd now.0 table.now.rows) blocks.old.rows blocks.new.rows }
{
    let mut left = CLOSING_LIMIT;
    for at in 0..blocks.rows().len() {
        let lease = blocks.rows()[at];
        if left > 0 && is_idle(table, &lease) {
            log.push(block_event(false, now, &lease))?;
            blocks.give(at, now);
            left -= 1;
        }
    }
    Ok(left > 0)
}

// whether a lease is open and no row has its place in its range
fn is_idle(table: &Table, lease: &LeaseRow) -> bool
    ensures { result ≡ is_idle table.now.rows lease.now }
{
    lease.until.is_none() && !table.in_use(lease.addr, lease.first, lease.last)
}
