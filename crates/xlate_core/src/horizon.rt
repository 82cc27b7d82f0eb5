//! How far ahead the log promises names. A promise is logged before the packets that it covers, and reaches past them, so
//! that not each packet needs one of its own.
ghost use Rattle.std.specs.Prelude.{◌≡◌, ◌++◌, OnOk};
ghost use Rattle.xlate_core.specs.State.{is_past_horizon};
ghost use Rattle.xlate_core.specs.Step.{horizon_by, promise_by};

use crate::translator::Core;
use aftr_base::{List, LogEvent, Moment, NoMemory};

impl Core {
    /// Lets the log promise names up to the clock. Where the horizon lies before the clock, it becomes `horizon_ms`
    /// milliseconds past the clock, and the log is told of that. After `NoMemory`, which comes where the log gets no room,
    /// nothing is said of the state.
    pub(crate) fn raise_horizon(&mut self, log: &mut List<LogEvent>) -> Result<(), NoMemory>
        ensures state { OnOk result (self.new ≡ horizon_by (is_past_horizon self.old) self.old) }
        ensures log { OnOk result
            (log.new ≡ log.old ++ promise_by (is_past_horizon self.old) self.old) }
    {
        if self.clock.0 <= self.horizon.0 {
            return Ok(());
        }
        let reach = Moment(self.clock.0 + self.config.horizon_ms);
        log.push(LogEvent::Horizon {
            at: self.clock,
            reach,
        })?;
        self.horizon = reach;
        Ok(())
    }
}
