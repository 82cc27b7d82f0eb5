//! The leases of all blocks.
ghost use Rattle.std.specs.Prelude.{◌≡◌, ◌+◌, ◌<◌, ◌≤◌, ◌++◌, [], ◌∷◌, true, Some, OnOk, OnErr, IfOk, IfSome, length, set, slice_get};
ghost use Rattle.std.specs.List.{list_all};
ghost use Rattle.aftr_base.specs.Attempt.{first_some};
ghost use Rattle.aftr_base.specs.Plan.{is_pool_prefix, size4};
ghost use Rattle.aftr_base.specs.Row.{ended};
ghost use Rattle.aftr_base.specs.declared.row.LeaseRow.{LeaseRow};
ghost use Rattle.cfg_text.specs.Accepted.{is_accepted};
ghost use Rattle.port_blocks.specs.Free.{addresses_in, all_open, block_anywhere, block_at, block_on, choice_anywhere, choice_of, choice_on, is_free, open_of, own_address};

use crate::choice::{Choice, block_from, has_ended_for, is_open_of, last_port};
use aftr_base::{Ip4, LeaseRow, Moment, NoMemory, Prefix4, Subscriber};
use cfg_text::Config;
use std::alloc::Global;
use std::marker::Model;

/// The first port that is leased.
const FIRST_PORT: u16 = 1024;

/// How many ports there are from the first on that is leased.
const LEASED_PORTS: u16 = 64512;

/// The leases in order of opening. Each search is a plain scan of them.
#[derive(Drop)]
pub struct Blocks {
    leases: Vec<LeaseRow>,
}

impl Model for Blocks {
    ghost use Rattle.std.specs.Prelude.{◌-◌};
    ghost use Rattle.std.specs.Vec.{vec_capacity, vec_len};
    ghost use Rattle.port_blocks.specs.Free.{Leases};

    ghost Value = { Leases };

    ghost view = { λ b. record {
      rows = b.leases.items;
      spare = vec_capacity b.leases - vec_len b.leases;
    } };
}

impl Blocks {
    /// Copies of these leases. `NoMemory` comes where they get no room.
    pub fn from_rows(alloc: Global, leases: &[LeaseRow]) -> Result<Self, NoMemory>
        ensures { IfOk result (λ blocks. blocks.rows ≡ leases.now) }
    {
        let leases = Vec::from_slice(alloc, leases)?;
        Ok(Blocks { leases })
    }

    /// The leases in order of opening.
    pub fn rows(&self) -> &[LeaseRow]
        ensures { result.now ≡ self.now.rows }
    {
        self.leases.as_slice()
    }

    /// For how many more leases there is room.
    pub fn spare(&self) -> usize
        ensures { result ≡ self.now.spare }
    {
        self.leases.capacity() - self.leases.len()
    }

    /// Makes room for so many more leases. `NoMemory` changes nothing.
    pub fn reserve(&mut self, more: usize) -> Result<(), NoMemory>
        ensures rows { self.new.rows ≡ self.old.rows }
        ensures ok { OnOk result (more ≤ self.new.spare) }
        ensures err { OnErr result (self.new ≡ self.old) }
    {
        self.leases.reserve(more)?;
        Ok(())
    }

    /// The open lease of a subscriber that so many others of its own opened before.
    pub fn lease_of(&self, owner: Subscriber, before: usize) -> Option<LeaseRow>
        ensures { result ≡ slice_get (open_of owner self.now.rows) before }
    {
        let mut left = before;
        for lease in self.leases.as_slice() {
            if is_open_of(owner, lease) {
                if left == 0 {
                    return Some(*lease);
                }
                left -= 1;
            }
        }
        None
    }

    /// The open lease that so many other open ones were opened before, whosever they are.
    pub fn open_at(&self, before: usize) -> Option<LeaseRow>
        ensures { result ≡ slice_get (all_open self.now.rows) before }
    {
        let mut left = before;
        for lease in self.leases.as_slice() {
            if lease.until.is_none() {
                if left == 0 {
                    return Some(*lease);
                }
                left -= 1;
            }
        }
        None
    }

    /// How many open leases a subscriber has.
    pub fn count_of(&self, owner: Subscriber) -> usize
        ensures { result ≡ length (open_of owner self.now.rows) }
    {
        self.leases.iter().filter(|l| is_open_of(owner, l)).count()
    }

    /// Which block a subscriber may have next. Where it has an address, by a plan (`home`) or by an open lease, that is the
    /// least block there that is free for it, and `AddressFull` where there is none. Else it is the first of the pool in order
    /// that is free for it, and `PoolEmpty` where there is none. A block is free where no open lease shares a port with it,
    /// and each ended one that does was over for `hold_ms` milliseconds, or was the subscriber's own (RFC 6888 section 3,
    /// REQ-8).
    pub fn choose(
        &self,
        config: &Config,
        owner: Subscriber,
        home: Option<Ip4>,
        now: Moment,
    ) -> Choice
        requires { is_accepted config.now ≡ true }
        ensures { result ≡ choice_of config.now self.now.rows owner home now.0 }
    {
        match self.own_address(owner, home) {
            Some(addr) => self.choose_on(config, owner, now, addr),
            None => self.choose_anywhere(config, owner, now),
        }
    }

    // the plan's address, or that of the subscriber's first open lease
    fn own_address(&self, owner: Subscriber, home: Option<Ip4>) -> Option<Ip4>
        ensures { result ≡ own_address home owner self.now.rows }
    {
        if home.is_some() {
            return home;
        }
        self.lease_of(owner, 0).map(|l| l.addr)
    }

    fn choose_on(&self, config: &Config, owner: Subscriber, now: Moment, addr: Ip4) -> Choice
        requires { is_accepted config.now ≡ true }
        ensures { result ≡ choice_on config.now self.now.rows owner now.0 addr }
    {
        match self.block_on(config, owner, now, addr) {
            None => Choice::AddressFull,
            Some(first) => Choice::New(block_from(config, addr, first)),
        }
    }

    fn choose_anywhere(&self, config: &Config, owner: Subscriber, now: Moment) -> Choice
        requires { is_accepted config.now ≡ true }
        ensures { result ≡ choice_anywhere config.now self.now.rows owner now.0 }
    {
        match self.block_anywhere(config, owner, now) {
            None => Choice::PoolEmpty,
            Some((addr, first)) => Choice::New(block_from(config, addr, first)),
        }
    }

    // The address and the first port of the first block of the pool that is free for a subscriber. The whole block lies
    // within the ports, whose last is 65535.
    fn block_anywhere(&self, config: &Config, owner: Subscriber, now: Moment) -> Option<(Ip4, u16)>
        requires pool { list_all is_pool_prefix config.now.pool ≡ true }
        requires size { 0 < config.now.block_size }
        ensures block { result ≡ block_anywhere config.now self.now.rows owner now.0 }
        ensures fits { IfSome result (λ b. b.1 + config.now.block_size ≤ 65536) }
    {
        for prefix in config.pool.as_slice() {
            if let Some(block) = self.block_in(config, owner, now, *prefix) {
                return Some(block);
            }
        }
        None
    }

    // the address and the first port of the first free block of a prefix
    fn block_in(
        &self,
        config: &Config,
        owner: Subscriber,
        now: Moment,
        prefix: Prefix4,
    ) -> Option<(Ip4, u16)>
        requires prefix { is_pool_prefix prefix ≡ true }
        requires size { 0 < config.now.block_size }
        ensures block { result
            ≡ first_some (block_at config.now self.now.rows owner now.0) (addresses_in prefix) }
        ensures fits { IfSome result (λ b. b.1 + config.now.block_size ≤ 65536) }
    {
        let last = last_address(prefix);
        for at in prefix.bits.0..=last {
            let addr = Ip4(at);
            if let Some(first) = self.block_on(config, owner, now, addr) {
                return Some((addr, first));
            }
        }
        None
    }

    // the first port of the first free block of an address
    fn block_on(&self, config: &Config, owner: Subscriber, now: Moment, addr: Ip4) -> Option<u16>
        requires { 0 < config.now.block_size }
        ensures block { result ≡ block_on config.now self.now.rows owner now.0 addr }
        ensures fits { IfSome result (λ first. first + config.now.block_size ≤ 65536) }
    {
        for block in config.ratio..LEASED_PORTS / config.block_size {
            let first = FIRST_PORT + config.block_size * block;
            if self.is_free(config, owner, now, addr, first) {
                return Some(first);
            }
        }
        None
    }

    // whether no lease stands in the way of the block that begins at `first`
    fn is_free(
        &self,
        config: &Config,
        owner: Subscriber,
        now: Moment,
        addr: Ip4,
        first: u16,
    ) -> bool
        requires size { 0 < config.now.block_size }
        requires fits { first + config.now.block_size ≤ 65536 }
        ensures { result ≡ is_free config.now self.now.rows owner now.0 addr first }
    {
        let last = last_port(config, first);
        self.leases.iter().all(|l| !l.overlaps(addr, first, last)
            || has_ended_for(config, owner, now, l))
    }

    /// Adds a lease behind the others, such as `opened` makes of a block that `choose` gave. It takes no memory: there is
    /// room for it.
    pub fn take(&mut self, lease: LeaseRow)
        requires { 0 < self.old.spare }
        ensures rows { self.new.rows ≡ self.old.rows ++ lease ∷ [] }
        ensures spare { self.old.spare ≤ self.new.spare + 1 }
    {
        match self.leases.push(lease) {
            Ok(()) => {}
            Err(_) => unreachable!(),
        }
    }

    /// Ends the open lease that stands behind so many others: the moment `now` is the last at which it is its owner's. It
    /// visits no other one, and takes no memory.
    pub fn give(&mut self, at: usize, now: Moment)
        requires { at < length self.old.rows }
        ensures rows { (l : LeaseRow) → slice_get self.old.rows at ≡ Some l
            → self.new.rows ≡ set self.old.rows at (ended now.0 l) }
        ensures spare { self.new.spare ≡ self.old.spare }
    {
        self.leases[at].until = Some(now);
    }
}

fn last_address(prefix: Prefix4) -> u32
    requires { is_pool_prefix prefix ≡ true }
    ensures { result + 1 ≡ prefix.bits.0 + size4 prefix }
{
    let size = 1u32 << (32 - prefix.len);
    prefix.bits.0 + (size - 1)
}
