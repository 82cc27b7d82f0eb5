//! One block of ports and its lease.
ghost use Rattle.std.specs.Prelude.{◌≡◌, ◌+◌, ◌≤◌, ◌<◌};
ghost use Rattle.port_blocks.specs.Free.{block_from, has_ended_for, is_open_of, last_port, opened};

use aftr_base::{Ip4, LeaseRow, Moment, Subscriber};
use cfg_text::Config;

/// A block of ports at a public address.
#[derive(Clone, Copy, Debug, PartialEq, Eq)]
pub struct Block {
    pub addr: Ip4,
    /// The first port, included.
    pub first: u16,
    /// The last port, included.
    pub last: u16,
}

/// Which block a subscriber may have next.
#[derive(Clone, Copy, Debug, PartialEq, Eq)]
pub enum Choice {
    /// This one, which is free for the subscriber.
    New(Block),
    /// None: the subscriber has an address already, and no block there is free for it.
    AddressFull,
    /// None: the subscriber has no address yet, and no block of the pool is free for it.
    PoolEmpty,
}

/// A subscriber's lease of a block, open from `now` on.
pub fn opened(owner: Subscriber, block: &Block, now: Moment) -> LeaseRow
    ensures { result ≡ opened owner block.now now.0 }
{
    LeaseRow {
        owner,
        addr: block.addr,
        first: block.first,
        last: block.last,
        since: now,
        until: None,
    }
}

/// Whether a lease is open and the subscriber's.
pub fn is_open_of(owner: Subscriber, lease: &LeaseRow) -> bool
    ensures { result ≡ is_open_of owner lease.now }
{
    lease.until.is_none() && owner.is(lease.owner)
}

// whether a lease that ended stands in the subscriber's way no more
pub(crate) fn has_ended_for(
    config: &Config,
    owner: Subscriber,
    now: Moment,
    lease: &LeaseRow,
) -> bool
    ensures { result ≡ has_ended_for config.now owner now.0 lease.now }
{
    match lease.until {
        None => false,
        // An end may be any moment, so nothing is added to it.
        Some(until) => until.0 <= now.0
            && (now.0 - until.0 >= config.hold_ms || owner.is(lease.owner) && until.0 < now.0),
    }
}

pub(crate) fn last_port(config: &Config, first: u16) -> u16
    requires size { 0 < config.now.block_size }
    requires fits { first + config.now.block_size ≤ 65536 }
    ensures { result ≡ last_port config.now first }
{
    first + (config.block_size - 1)
}

// the block that begins at `first`
pub(crate) fn block_from(config: &Config, addr: Ip4, first: u16) -> Block
    requires size { 0 < config.now.block_size }
    requires fits { first + config.now.block_size ≤ 65536 }
    ensures { result ≡ block_from config.now addr first }
{
    Block {
        addr,
        first,
        last: last_port(config, first),
    }
}
