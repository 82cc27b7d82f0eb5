//! The identifications of packets that are cut for a softwire (RFC 8200 section 4.5).
#![tactic(auto)]

ghost use Rattle.std.specs.Prelude.{◌≡◌, ◌+◌, ◌%◌, ◌^◌, ◌≤◌, [], IsTrue, OnOk, OnErr, if◌then◌else◌};
ghost use Rattle.std.specs.List.{position};
ghost use Rattle.aftr_base.specs.Value.{subscriber_eq};
ghost use Rattle.aftr_base.specs.declared.value.Subscriber.{Subscriber};
ghost use Rattle.fragment_ids.specs.Ids.{CountsEach, counted, has_room, is_for, next_id};

use aftr_base::{NoMemory, Subscriber};
use std::alloc::Global;
use std::marker::Model;

#[cfg(test)]
mod tests;

/// How many packets to a subscriber were cut.
#[derive(Clone, Copy, Debug, PartialEq, Eq)]
pub struct Count {
    pub to: Subscriber,
    /// Modulo 2^32.
    pub cuts: u32,
}

/// The identifications of the next packets that are cut: for each subscriber that packets go to, how many were cut
/// before, modulo 2^32. So of 2^32 packets in a row that are cut for a subscriber no two have the same one (RFC 8200
/// section 4.5). Each search is a plain scan.
#[derive(Drop)]
pub struct FragmentIds {
    counts: Vec<Count>,
}

impl Model for FragmentIds {
    ghost use Rattle.std.specs.Prelude.{◌-◌};
    ghost use Rattle.std.specs.Vec.{vec_capacity, vec_len};
    ghost use Rattle.fragment_ids.specs.Ids.{Counts};

    ghost Value = { Counts };

    ghost view = { λ ids. record {
      counts = ids.counts.items;
      spare = vec_capacity ids.counts - vec_len ids.counts;
    } };
}

impl FragmentIds {
    /// Counts by which no packet was cut. They take no memory.
    pub fn new(alloc: Global) -> Self
        ensures none { result.counts ≡ [] }
        ensures each { CountsEach result.counts }
    {
        FragmentIds {
            counts: Vec::new(alloc),
        }
    }

    /// The identification of the next packet to a subscriber that is cut.
    pub fn next(&self, to: Subscriber) -> u32
        ensures { result ≡ next_id to self.now.counts }
    {
        match place_of(&self.counts, to) {
            Some(at) => self.counts[at].cuts,
            None => 0,
        }
    }

    /// Makes room to count one more packet to a subscriber. `NoMemory` changes nothing.
    pub fn reserve(&mut self, to: Subscriber) -> Result<(), NoMemory>
        ensures counts { self.new.counts ≡ self.old.counts }
        ensures ok { OnOk result (IsTrue (has_room to self.new)) }
        ensures err { OnErr result (self.new ≡ self.old) }
    {
        if place_of(&self.counts, to).is_none() {
            self.counts.reserve(1)?;
        }
        Ok(())
    }

    /// Counts one more packet to a subscriber that was cut. It takes no memory: there is room for it.
    pub fn count(&mut self, to: Subscriber)
        requires { IsTrue (has_room to self.old) }
        ensures counted { self.new.counts ≡ counted to self.old.counts }
        ensures each { (s : Subscriber) → let before = next_id s self.old.counts in
            next_id s self.new.counts ≡ (if subscriber_eq s to then (before + 1) % 2 ^ 32 else before) }
        ensures spare { self.old.spare ≤ self.new.spare + 1 }
    {
        match place_of(&self.counts, to) {
            Some(at) => {
                let count = &mut self.counts[at];
                count.cuts = count.cuts.wrapping_add(1);
            }
            None => self.counts.push_reserved(Count { to, cuts: 1 }),
        }
    }
}

// where a subscriber's count stands
fn place_of(counts: &[Count], to: Subscriber) -> Option<usize>
    ensures { result ≡ position (is_for to) counts.now }
{
    counts.iter().position(|c| to.is(c.to))
}
