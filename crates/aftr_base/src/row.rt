//! Rows of the lease table and of the plan table.
ghost use Rattle.std.specs.Prelude.{◌≡◌, IfOk};
ghost use Rattle.aftr_base.specs.Row.{overlaps};

use crate::list::List;
use crate::memory::NoMemory;
use crate::value::{Ip4, Moment, Prefix4, Prefix6, Subscriber};
use std::alloc::Global;

/// A block of ports at a public address, and since and until when it is its owner's.
#[derive(Clone, Copy, Debug, PartialEq, Eq)]
pub struct LeaseRow {
    pub owner: Subscriber,
    pub addr: Ip4,
    /// The first port of the block, included.
    pub first: u16,
    /// The last port of the block, included.
    pub last: u16,
    /// When the block opened: the first millisecond at which it is its owner's.
    pub since: Moment,
    /// When the block closed: the last millisecond at which it is its owner's. `None` while it is open.
    pub until: Option<Moment>,
}

impl LeaseRow {
    /// Whether the block is at the address and shares a port with those from first to last, both included. It doesn't
    /// matter whether the lease is open.
    pub fn overlaps(&self, addr: Ip4, first: u16, last: u16) -> bool
        ensures { result ≡ overlaps self.now addr first last }
    {
        self.addr.0 == addr.0 && self.first <= last && first <= self.last
    }
}

/// The values that a deterministic plan is computed from (RFC 7422 section 2).
#[derive(Debug, Drop)]
pub struct PlanSpec {
    /// The length of each subscriber's prefix in bits, at most 128.
    pub subscriber_len: u8,
    /// How many ports a block has.
    pub block_size: u16,
    /// How many subscribers share an address.
    pub ratio: u16,
    /// The prefixes under which the subscribers' lie.
    pub aggregates: List<Prefix6>,
    /// The public addresses.
    pub pool: List<Prefix4>,
}

impl PlanSpec {
    /// The same values again.
    pub fn copied(&self, alloc: Global) -> Result<PlanSpec, NoMemory>
        ensures { IfOk result (λ spec. spec ≡ self.now) }
    {
        let mut aggregates = List::new(alloc);
        aggregates.extend_from_slice(self.aggregates.as_slice())?;
        let mut pool = List::new(alloc);
        pool.extend_from_slice(self.pool.as_slice())?;
        Ok(PlanSpec {
            subscriber_len: self.subscriber_len,
            block_size: self.block_size,
            ratio: self.ratio,
            aggregates,
            pool,
        })
    }
}

/// A plan, and since and until when it is in use.
#[derive(Debug, Drop)]
pub struct PlanRow {
    pub spec: PlanSpec,
    /// The first millisecond of its use.
    pub since: Moment,
    /// The last millisecond of its use. `None` while it is in use.
    pub until: Option<Moment>,
}
