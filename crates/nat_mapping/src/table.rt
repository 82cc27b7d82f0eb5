//! The rows of all mappings.
ghost use Rattle.std.specs.Prelude.{◌≡◌, ◌≢◌, ◌<◌, ◌≤◌, ◌+◌, ◌-◌, ◌^◌, ◌||◌, ◌++◌, [], ◌∷◌, ℕ, Some, false, true, nat_lt, length, min, position, take, slice_get, IfNone, IfOk, IfSome, IsTrue, OnOk, OnErr};
ghost use Rattle.std.specs.List.{list_any};
ghost use Rattle.nat_mapping.specs.declared.row.Row.{Row};
ghost use Rattle.nat_mapping.specs.Rows.{KeepsSpares, MarksPorts, are_apart, expired, has_key, has_peer_at, has_place, holding_of, in_use, is_at, is_of, least_free, lies_in, mapping_of, peer_count, row_at, row_count, row_id, row_of, searched, spare_at, touched_at};

use crate::ports;
use crate::row::{Peer, Row, earliest_of, put_peer};
use crate::search::{self, Holding, Search};
use crate::taken_ports::TakenPorts;
use aftr_base::{Ext, InnerKey, Ip4, Moment, NoMemory, Proto, Subscriber};
use std::alloc::Global;
use std::marker::Model;

/// Where a row stands in its table: how many rows stand before it. It is of use until `expire` or
/// `clear` changes the table.
#[derive(Clone, Copy, Debug, PartialEq, Eq)]
pub struct RowId(pub usize);

/// The rows in order of making: no two of one inner key, and no two of one protocol and place. Each
/// search is a plain scan of them.
#[derive(Drop)]
pub struct Table {
    rows: Vec<Row>,
    // no peer goes before this moment
    earliest: Moment,
    alloc: Global,
}

impl Model for Table {
    ghost use Rattle.std.specs.Prelude.{◌≡◌, All, map, true};
    ghost use Rattle.nat_mapping.specs.Rows.{LastsUntil, Mappings, are_apart, mapping_of, mappings, room_of};

    ghost Value = { Mappings };

    ghost view = { λ t. mappings (map mapping_of t.rows.items) (map room_of t.rows.items) };

    ghost invariant = { λ t. (are_apart (map mapping_of t.rows.items) ≡ true)
        × All (LastsUntil t.earliest.0) (map mapping_of t.rows.items) };
}

impl Table {
    /// A table of no rows, which takes no memory.
    pub fn new(alloc: Global) -> Self
        ensures { result.rows ≡ [] }
    {
        Table {
            rows: Vec::new(alloc),
            earliest: Moment(u64::MAX),
            alloc,
        }
    }

    /// Where the row of an inner key stands. None says that the key is unused.
    pub fn find_out(&self, key: &InnerKey) -> Option<RowId>
        ensures found { result ≡ row_of key.now self.now.rows }
        ensures live { IfSome result (λ id. id.0 < length self.now.rows) }
        ensures unused { IfNone result (has_key key.now self.now.rows ≡ false) }
        ensures apart { are_apart self.now.rows ≡ true }
    {
        out_at(&self.rows, key).map(RowId)
    }

    /// Looks for the row of an inner key, and counts on the way what an owner has. Where the key has none, `taken` comes to mark
    /// the ports that rows of the key's protocol have at the address, if there is one. No row behind the key's is visited.
    pub fn search(
        &self,
        key: &InnerKey,
        owner: Subscriber,
        addr: Option<Ip4>,
        taken: &mut TakenPorts,
    ) -> Search
        ensures found { result.row ≡ row_of key.now self.now.rows }
        ensures before { result.before ≡ holding_of owner (searched result.row self.now.rows) }
        ensures live { IfSome result.row (λ id. id.0 < length self.now.rows) }
        ensures unused { IfNone result.row (has_key key.now self.now.rows ≡ false) }
        ensures marks { IfNone result.row
            (IfSome addr (λ a. MarksPorts taken.new key.now.proto a self.now.rows)) }
    {
        // with no address, the marks may be of any
        let addr = addr.unwrap_or(Ip4(0));
        search::search_in(&self.rows, key, owner, addr, taken)
    }

    /// What an owner has in all rows, where it has this much in those before that one. Only rows from that one on are
    /// visited.
    pub fn holding_from(&self, owner: Subscriber, from: RowId, before: Holding) -> Holding
        requires within { from.0 ≤ length self.now.rows }
        requires before { before ≡ holding_of owner (take from.0 self.now.rows) }
        ensures { result ≡ holding_of owner self.now.rows }
    {
        search::holding_from(&self.rows, owner, from, before)
    }

    /// Where the row of an external place stands. None says that the place is unused.
    pub fn find_in(&self, proto: Proto, ext: Ext) -> Option<RowId>
        ensures found { result ≡ row_at proto ext self.now.rows }
        ensures live { IfSome result (λ id. id.0 < length self.now.rows) }
        ensures unused { IfNone result (has_place proto ext self.now.rows ≡ false) }
        ensures apart { are_apart self.now.rows ≡ true }
    {
        in_at(&self.rows, proto, ext).map(RowId)
    }

    /// The row that stands there.
    pub fn row(&self, id: RowId) -> &Row
        requires { id.0 < length self.now.rows }
        ensures { slice_get self.now.rows id.0 ≡ Some (mapping_of result.now) }
    {
        &self.rows[id.0]
    }

    /// For how many more peers the row has room.
    pub fn spare(&self, id: RowId) -> usize
        requires { id.0 < length self.now.rows }
        ensures { result ≡ spare_at id.0 self.now }
    {
        let row = &self.rows[id.0];
        row.peers.capacity() - row.peers.len()
    }

    /// Makes room for one more peer of the row. `NoMemory` changes nothing.
    pub fn reserve(&mut self, id: RowId) -> Result<(), NoMemory>
        requires { id.0 < length self.old.rows }
        ensures rows { self.new.rows ≡ self.old.rows }
        ensures ok { OnOk result (1 ≤ spare_at id.0 self.new) }
        ensures others { (k : ℕ) → k ≢ id.0 → spare_at k self.new ≡ spare_at k self.old }
        ensures err { OnErr result (self.new ≡ self.old) }
    {
        let row = &mut self.rows[id.0];
        row.peers.reserve(1)?;
        Ok(())
    }

    /// Adds a row with one peer behind the others. The key is unused, and so is the place for the
    /// key's protocol. `NoMemory` changes nothing.
    pub fn insert(
        &mut self,
        key: InnerKey,
        owner: Subscriber,
        ext: Ext,
        peer: Peer,
    ) -> Result<RowId, NoMemory>
        requires key_unused { has_key key self.old.rows ≡ false }
        requires place_unused { has_place key.proto ext self.old.rows ≡ false }
        ensures row { OnOk result (self.new.rows ≡ self.old.rows ++ record { key = key; owner = owner; ext = ext; peers = peer ∷ [] } ∷ []) }
        ensures id { IfOk result (λ id. id ≡ row_id (length self.old.rows)) }
        ensures live { IfOk result (λ id. id.0 < length self.new.rows) }
        ensures others { OnOk result (KeepsSpares self.old self.new) }
        ensures err { OnErr result (self.new ≡ self.old) }
    {
        let mut peers = Vec::new(self.alloc);
        peers.push(peer)?;
        self.earliest = Moment(self.earliest.0.min(peer.deadline.0));
        let id = RowId(self.rows.len());
        self.rows.push(Row {
            key,
            owner,
            ext,
            peers,
        })?;
        Ok(id)
    }

    /// Puts a peer into the row that stands there: in the place of the one at its address and port,
    /// or behind all. It takes no memory: that peer is there already, or the row has room.
    pub fn touch(&mut self, id: RowId, peer: Peer)
        requires live { id.0 < length self.old.rows }
        requires room { IsTrue (has_peer_at id.0 peer self.old.rows || nat_lt 0 (spare_at id.0 self.old)) }
        ensures rows { self.new.rows ≡ touched_at id.0 peer self.old.rows }
        ensures spare { spare_at id.0 self.old ≤ spare_at id.0 self.new + 1 }
        ensures others { (k : ℕ) → k ≢ id.0 → spare_at k self.new ≡ spare_at k self.old }
    {
        self.earliest = Moment(self.earliest.0.min(peer.deadline.0));
        let row = &mut self.rows[id.0];
        put_peer(&mut row.peers, peer);
    }

    /// Lets the peers go whose deadline is not past `now`, and then the rows that have none left
    /// (RFC 4787 section 4.3). The answer is whether a row went. It takes no memory, and visits no row where no deadline has
    /// come.
    pub fn expire(&mut self, now: Moment) -> bool
        ensures rows { self.new.rows ≡ expired now.0 self.old.rows }
        ensures gone { result ≡ nat_lt (length self.new.rows) (length self.old.rows) }
    {
        if now.0 < self.earliest.0 {
            return false;
        }
        let before = self.rows.len();
        self.rows.retain_mut(|row| row.expire(now));
        self.earliest = earliest_of(&self.rows);
        self.rows.len() < before
    }

    /// Lets all rows go. It takes no memory.
    pub fn clear(&mut self)
        ensures { self.new.rows ≡ [] }
    {
        self.rows.clear();
        self.earliest = Moment(u64::MAX);
    }

    /// The least port from `first` to `last`, both included, that no row of the protocol has at the
    /// address. Where `first` is greater there is none. It takes no memory.
    pub fn least_free(&self, proto: Proto, addr: Ip4, first: u16, last: u16) -> Option<u16>
        ensures { result ≡ least_free proto addr first last self.now.rows }
    {
        ports::least_free(&self.rows, proto, addr, first, last)
    }

    /// Whether a row has its place at the address from `first` to `last`, both included.
    pub fn in_use(&self, addr: Ip4, first: u16, last: u16) -> bool
        ensures { result ≡ in_use addr first last self.now.rows }
    {
        lies_within(&self.rows, addr, first, last)
    }

    /// How many rows an owner has, and how many peers they have together. The second stands still at
    /// the greatest number of its type.
    pub fn usage(&self, owner: Subscriber) -> (usize, usize)
        ensures rows { result.0 ≡ row_count owner self.now.rows }
        ensures peers { result.1 ≡ min (peer_count owner self.now.rows) (2 ^ 64 - 1) }
    {
        let mut rows = 0usize;
        let mut peers = 0usize;
        for row in &self.rows {
            if owner.is(row.owner) {
                rows += 1;
                peers = peers.saturating_add(row.peers.len());
            }
        }
        (rows, peers)
    }
}

fn out_at(rows: &[Row], key: &InnerKey) -> Option<usize>
    ensures { result ≡ position (λ (r : Row). is_of key.now (mapping_of r)) rows.now }
{
    rows.iter().position(|r| r.is_of(key))
}

fn in_at(rows: &[Row], proto: Proto, ext: Ext) -> Option<usize>
    ensures { result ≡ position (λ (r : Row). is_at proto ext (mapping_of r)) rows.now }
{
    rows.iter().position(|r| r.is_at(proto, ext))
}

fn lies_within(rows: &[Row], addr: Ip4, first: u16, last: u16) -> bool
    ensures { result ≡ list_any (λ (r : Row). lies_in addr first last (mapping_of r)) rows.now }
{
    rows.iter().any(|r| addr.0 == r.ext.addr.0 && first <= r.ext.port && r.ext.port <= last)
}
