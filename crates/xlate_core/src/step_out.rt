//! What a record gives.
ghost use Rattle.std.specs.Prelude.{◌≡◌, []};
ghost use Rattle.aftr_base.specs.Row.{block_event};

use aftr_base::{LeaseRow, List, LogEvent, Moment, Side, Subscriber};
use std::alloc::Global;

/// A packet that goes out.
#[derive(Debug, Drop)]
pub struct Item {
    pub side: Side,
    /// The clock when its record was treated, in milliseconds.
    pub at: Moment,
    /// The subscriber whose place its source is, where it goes to the Internet.
    pub owner: Option<Subscriber>,
    pub bytes: List<u8>,
}

/// What records gave: the packets that go out, and what the log is told, each in order.
#[derive(Debug, Drop)]
pub struct StepOut {
    pub items: List<Item>,
    pub log: List<LogEvent>,
}

impl StepOut {
    /// Nothing, which takes no memory.
    pub fn new(alloc: Global) -> Self
        ensures items { result.items ≡ [] }
        ensures log { result.log ≡ [] }
    {
        StepOut {
            items: List::new(alloc),
            log: List::new(alloc),
        }
    }

    /// Lets all go and keeps the room.
    pub fn clear(&mut self)
        ensures items { self.new.items ≡ [] }
        ensures log { self.new.log ≡ [] }
    {
        self.items.clear();
        self.log.clear();
    }
}

// what the log is told of a block that opens or closes at a moment
pub(crate) fn block_event(opens: bool, at: Moment, lease: &LeaseRow) -> LogEvent
    ensures { result ≡ block_event opens at.0 lease.now }
{
    LogEvent::Block {
        opens,
        owner: lease.owner,
        addr: lease.addr,
        first: lease.first,
        last: lease.last,
        at,
    }
}
