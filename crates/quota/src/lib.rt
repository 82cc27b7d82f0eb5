//! What each subscriber has, and how much of it a subscriber may have (RFC 6888 section 3, REQ-4).
#![tactic(auto)]

ghost use Rattle.std.specs.Prelude.{◌≡◌, ◌+◌, ◌≤◌, ◌||◌, false, nat_lt, IsTrue, OnOk};
ghost use Rattle.aftr_base.specs.Value.{subscriber_eq};
ghost use Rattle.aftr_base.specs.declared.value.Subscriber.{Subscriber};
ghost use Rattle.quota.specs.Limits.{may_block, may_map, may_peer};
ghost use Rattle.quota.specs.Usages.{is_known, is_nothing, nothing, owner_of, usage_of};

use aftr_base::{NoMemory, Subscriber};
use cfg_text::Config;
use std::alloc::Global;
use std::collections::HashMap;
use std::marker::Model;

#[cfg(test)]
mod tests;

/// What one subscriber has.
#[derive(Clone, Copy, Debug, PartialEq, Eq)]
pub struct Usage {
    /// How many mappings.
    pub mappings: u32,
    /// How many remote endpoints, over all its mappings.
    pub peers: u32,
    /// How many blocks of ports.
    pub blocks: u32,
}

const NOTHING: Usage = Usage {
    mappings: 0,
    peers: 0,
    blocks: 0,
};

impl Usage {
    // whether all three are zero
    fn is_nothing(self) -> bool
        ensures { result ≡ is_nothing self }
    {
        self.mappings == 0 && self.peers == 0 && self.blocks == 0
    }
}

// a subscriber as a key that can be hashed
#[derive(Clone, Copy, PartialEq, Eq, Hash)]
struct Owner {
    bits: u128,
    len: u8,
}

/// What each subscriber has. Its memory grows with the subscribers that have something.
#[derive(Drop)]
pub struct Counts {
    usages: HashMap<Owner, Usage>,
}

impl Model for Counts {
    ghost use Rattle.std.specs.HashMap.{spare};
    ghost use Rattle.quota.specs.Usages.{Counted};

    ghost Value = { Counted };

    ghost view = { λ c. record { entries = c.usages.entries; spare = spare c.usages } };
}

impl Counts {
    /// Counts by which no subscriber has anything. They take no memory.
    pub fn new(alloc: Global) -> Self
        ensures { (s : Subscriber) → usage_of s result ≡ nothing }
    {
        Counts {
            usages: HashMap::new(alloc),
        }
    }

    /// What a subscriber has: zeros where nothing was set.
    pub fn of(&self, owner: Subscriber) -> Usage
        ensures { result ≡ usage_of owner self.now }
    {
        self.usages.get(&key_of(owner)).copied().unwrap_or(NOTHING)
    }

    /// For how many more subscribers there is room.
    pub fn spare(&self) -> usize
        ensures { result ≡ self.now.spare }
    {
        self.usages.capacity() - self.usages.len()
    }

    /// Makes room for one more subscriber. What subscribers have stays, also after `NoMemory`.
    pub fn reserve(&mut self) -> Result<(), NoMemory>
        ensures ok { OnOk result (1 ≤ self.new.spare) }
        ensures kept { (s : Subscriber) → usage_of s self.new ≡ usage_of s self.old }
        ensures spare { self.old.spare ≤ self.new.spare }
    {
        self.usages.reserve(1)?;
        Ok(())
    }

    /// Sets what a subscriber has. It takes no memory: the subscriber has something already, or
    /// there is room for one more. One that has nothing any more is forgotten.
    pub fn set(&mut self, owner: Subscriber, to: Usage)
        requires { IsTrue (is_known owner self.old || nat_lt 0 self.old.spare) }
        ensures set { usage_of owner self.new ≡ to }
        ensures others { (s : Subscriber) → subscriber_eq owner s ≡ false → usage_of s self.new ≡ usage_of s self.old }
        ensures spare { self.old.spare ≤ self.new.spare + 1 }
    {
        let key = key_of(owner);
        if to.is_nothing() {
            let _ = self.usages.remove(&key);
            return;
        }
        match self.usages.insert(key, to) {
            Ok(_) => {}
            Err(_) => unreachable!(),
        }
    }
}

fn key_of(owner: Subscriber) -> Owner
    ensures { result ≡ owner_of owner }
{
    Owner {
        bits: owner.0.bits.0,
        len: owner.0.len,
    }
}

/// Whether one mapping more is within the limit.
pub fn may_map(u: &Usage, config: &Config) -> bool
    ensures { result ≡ may_map u.now config.now }
{
    u.mappings < config.max_mappings
}

/// Whether one remote endpoint more is within the limit.
pub fn may_peer(u: &Usage, config: &Config) -> bool
    ensures { result ≡ may_peer u.now config.now }
{
    u.peers < config.max_peers
}

/// Whether one block more is within the limit.
pub fn may_block(u: &Usage, config: &Config) -> bool
    ensures { result ≡ may_block u.now config.now }
{
    u.blocks < config.max_blocks
}
