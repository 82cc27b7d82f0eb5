//! Which place a mapping gets, and what is kept of it (RFC 4787 4, RFC 6888 3).
ghost use Rattle.std.specs.Prelude.{◌≡◌, ◌<◌, ◌-◌, ◌^◌, ◌++◌, None, Some, Ok, OnOk, IfErr, IfNone, IfOk, IfSome, length, map, min, option_to_list, slice_get, take};
ghost use Rattle.aftr_base.specs.Row.{block_event};
ghost use Rattle.nat_mapping.specs.Rows.{Mapping, MarksPorts, holding_of, is_of, least_free, mapping_of, row_of, searched};
ghost use Rattle.port_blocks.specs.Free.{own_address};
ghost use Rattle.quota.specs.Limits.{may_block, may_map, may_peer};
ghost use Rattle.xlate_core.specs.Endpoints.{outbound_peer};
ghost use Rattle.xlate_core.specs.Grant.{after_grant, at_once, granted, kept_place, new_block, opening_events, peer_of, place_for, place_in, place_in_lease, usage_of, with_choice};
ghost use Rattle.xlate_core.specs.Rows.{touched};

use crate::endpoints::{self, has_peer, state_among};
use crate::packet::require;
use crate::step_out::block_event;
use crate::translator::Core;
use aftr_base::{
    DropCause, Ext, InnerKey, Ip4, Ip6, LeaseRow, List, LogEvent, NoMemory, Proto, Subscriber,
};
use ingress::Sender;
use nat_mapping::{Holding, Peer, RowId, Search, TakenPorts};
use port_blocks::{Blocks, Choice, is_open_of, opened};
use quota::{Usage, may_block, may_map, may_peer};
use tcp_track::TcpState;

/// A place, and the lease that has to open for it.
#[derive(Clone, Copy, Debug, PartialEq, Eq)]
pub struct Grant {
    pub place: Ext,
    pub lease: Option<LeaseRow>,
}

/// What a place is asked for: a sender's inner key, the remote endpoint that it sends to, the control bits that it sends,
/// which only TCP has, and whether it answers an echo request.
#[derive(Clone, Copy, Debug)]
pub(crate) struct Flow {
    pub(crate) who: Sender,
    pub(crate) key: InnerKey,
    pub(crate) remote: Ext,
    pub(crate) flags: u8,
    pub(crate) answers: bool,
}

impl Core {
    /// Where the row of a flow's key stands, if it has one, and the place that its mapping has, or gets now. The cause is
    /// `NoMapping` where an answer to an echo request has no mapping, and `QuotaMappings` or `QuotaPeers` where its subscriber
    /// has as many mappings or peers as it may and would have one more. No port being left in its open leases, it is `QuotaBlocks` where it has as many of those as it may, `AddressFull` where it
    /// has some and no block on their address is free, and `PoolEmpty` where it has none and no block of the pool is free.
    pub(crate) fn granted(&mut self, flow: &Flow) -> Result<(Option<RowId>, Grant), DropCause>
        ensures same { self.new ≡ self.old }
        ensures row { IfOk result (λ g. g.0 ≡ row_of flow.now.key self.old.rows) }
        ensures grant { IfOk result (λ g. granted self.old flow.now ≡ Ok g.1) }
        ensures refusal { IfErr result (λ cause. granted self.old flow.now ≡ Err cause) }
    {
        let addr = address_of(&self.blocks, flow.who.owner);
        let found = self
            .table
            .search(&flow.key, flow.who.owner, addr, &mut self.taken);
        let grant = self.place_by(flow, &found, addr, &self.taken)?;
        Ok((found.row, grant))
    }

    // The place of a mapping, by a search for its row that marked the ports taken at this address.
    fn place_by(
        &self,
        flow: &Flow,
        found: &Search,
        addr: Option<Ip4>,
        taken: &TakenPorts,
    ) -> Result<Grant, DropCause>
        requires row { found.now.row ≡ row_of flow.now.key self.now.rows }
        requires before { found.now.before
            ≡ holding_of flow.now.who.owner (searched found.now.row self.now.rows) }
        requires marks { IfNone found.now.row
            (IfSome addr (λ a. MarksPorts taken.now flow.now.key.proto a self.now.rows)) }
        ensures { result ≡ granted self.now flow.now }
    {
        match found.row {
            Some(id) => self.kept_place(flow, id, found.before),
            None => self.new_place(flow, found.before, addr, taken),
        }
    }

    // the place of a row, unless the remote endpoint would be a peer more than its subscriber may have
    fn kept_place(&self, flow: &Flow, id: RowId, before: Holding) -> Result<Grant, DropCause>
        requires there { id.0 < length self.now.rows }
        requires before { before ≡ holding_of flow.now.who.owner (take id.0 self.now.rows) }
        ensures { (r : Mapping) → slice_get self.now.rows id.0 ≡ Some r
            → result ≡ kept_place self.now flow.now r }
    {
        let row = self.table.row(id);
        if has_peer(flow.key.proto, flow.remote, &row.peers)
            || self.may_peer_from(flow.who.owner, id, before)
        {
            Ok(at_once(row.ext))
        } else {
            Err(DropCause::QuotaPeers)
        }
    }

    // the same, where it has this much before a row
    fn may_peer_from(&self, owner: Subscriber, id: RowId, before: Holding) -> bool
        requires there { id.0 < length self.now.rows }
        requires before { before ≡ holding_of owner (take id.0 self.now.rows) }
        ensures { result ≡ may_peer (usage_of self.now owner) self.now.config }
    {
        let holding = self.table.holding_from(owner, id, before);
        self.may_peer(owner, holding)
    }

    // whether a subscriber may have one more peer, where it has this much in all rows
    fn may_peer(&self, owner: Subscriber, holding: Holding) -> bool
        requires { holding ≡ holding_of owner self.now.rows }
        ensures { result ≡ may_peer (usage_of self.now owner) self.now.config }
    {
        may_peer(&usage_in(holding), &self.config)
    }

    // whether it may have one more mapping
    fn may_map(&self, owner: Subscriber, holding: Holding) -> bool
        requires { holding ≡ holding_of owner self.now.rows }
        ensures { result ≡ may_map (usage_of self.now owner) self.now.config }
    {
        may_map(&usage_in(holding), &self.config)
    }

    // whether it may have one more open lease
    fn may_block(&self, owner: Subscriber) -> bool
        ensures { result ≡ may_block (usage_of self.now owner) self.now.config }
    {
        may_block(&blocks_used(self.blocks.count_of(owner)), &self.config)
    }

    // the place of a key that has no row, where its subscriber has this much in all rows
    fn new_place(
        &self,
        flow: &Flow,
        holding: Holding,
        addr: Option<Ip4>,
        taken: &TakenPorts,
    ) -> Result<Grant, DropCause>
        requires holding { holding ≡ holding_of flow.now.who.owner self.now.rows }
        requires marks { IfSome addr (λ a. MarksPorts taken.now flow.now.key.proto a self.now.rows) }
        ensures { result ≡ place_for self.now flow.now }
    {
        let owner = flow.who.owner;
        require(!flow.answers, DropCause::NoMapping)?;
        require(self.may_map(owner, holding), DropCause::QuotaMappings)?;
        require(self.may_peer(owner, holding), DropCause::QuotaPeers)?;
        match self.place_in_lease(flow, addr, taken) {
            Some(place) => Ok(at_once(place)),
            None => self.new_block(flow),
        }
    }

    // the least free port of the first of the sender's open leases that has one, in order of opening
    fn place_in_lease(&self, flow: &Flow, addr: Option<Ip4>, taken: &TakenPorts) -> Option<Ext>
        requires { IfSome addr (λ a. MarksPorts taken.now flow.now.key.proto a self.now.rows) }
        ensures { result ≡ place_in_lease self.now flow.now }
    {
        for lease in self.blocks.rows() {
            if is_open_of(flow.who.owner, lease) {
                let place = self.place_in(flow.key.proto, lease, addr, taken);
                if place.is_some() {
                    return place;
                }
            }
        }
        None
    }

    // the least free port of a lease, and its address
    fn place_in(
        &self,
        proto: Proto,
        lease: &LeaseRow,
        addr: Option<Ip4>,
        taken: &TakenPorts,
    ) -> Option<Ext>
        requires { IfSome addr (λ a. MarksPorts taken.now proto a self.now.rows) }
        ensures { result ≡ place_in self.now.rows proto lease.now }
    {
        let port = self.port_in(proto, lease, addr, taken)?;
        Some(Ext {
            addr: lease.addr,
            port,
        })
    }

    // All open leases of a subscriber are on the address of the first, whose ports the search marked. One elsewhere would take
    // a pass over the rows of its own.
    fn port_in(
        &self,
        proto: Proto,
        lease: &LeaseRow,
        addr: Option<Ip4>,
        taken: &TakenPorts,
    ) -> Option<u16>
        requires { IfSome addr (λ a. MarksPorts taken.now proto a self.now.rows) }
        ensures { let l = lease.now in
            result ≡ least_free proto l.addr l.first l.last self.now.rows }
    {
        match addr {
            Some(addr) if addr.0 == lease.addr.0 => taken.least_free(lease.first, lease.last),
            _ => self
                .table
                .least_free(proto, lease.addr, lease.first, lease.last),
        }
    }

    // the first place of a further block, which is leased from now on
    fn new_block(&self, flow: &Flow) -> Result<Grant, DropCause>
        ensures { result ≡ new_block self.now flow.now }
    {
        let owner = flow.who.owner;
        require(self.may_block(owner), DropCause::QuotaBlocks)?;
        let choice = self.blocks.choose(&self.config, owner, None, self.clock);
        self.with_choice(owner, choice)
    }

    fn with_choice(&self, owner: Subscriber, choice: Choice) -> Result<Grant, DropCause>
        ensures { result ≡ with_choice self.now owner choice }
    {
        match choice {
            Choice::New(block) => Ok(Grant {
                place: Ext {
                    addr: block.addr,
                    port: block.first,
                },
                lease: Some(opened(owner, &block, self.clock)),
            }),
            Choice::AddressFull => Err(DropCause::AddressFull),
            Choice::PoolEmpty => Err(DropCause::PoolEmpty),
        }
    }

    /// Keeps what was granted to a flow: a row with its first peer where the key has none, else the peer in the key's
    /// row, and a lease where one has to open. After `NoMemory` nothing is said of the rows and leases, which are only
    /// dropped.
    pub(crate) fn keep(
        &mut self,
        flow: &Flow,
        row: Option<RowId>,
        grant: &Grant,
    ) -> Result<(), NoMemory>
        requires row { row ≡ row_of flow.now.key self.old.rows }
        requires grant { granted self.old flow.now ≡ Ok grant.now }
        ensures { OnOk result (self.new ≡ after_grant flow.now grant.now self.old) }
    {
        match row {
            Some(id) => self.refresh(flow, id),
            None => self.add_row(flow, grant),
        }
    }

    // makes or refreshes the flow's peer in the row of its key
    pub(crate) fn refresh(&mut self, flow: &Flow, id: RowId) -> Result<(), NoMemory>
        requires { Some id ≡ row_of flow.now.key self.old.rows }
        ensures { let s = self.old in OnOk result
            (self.new ≡ record s { rows = touched (is_of flow.now.key) (peer_of s flow.now) s.rows }) }
    {
        let known = state_among(flow.key.proto, flow.remote, &self.table.row(id).peers);
        let peer = self.peer_of(flow, known);
        self.table.reserve(id)?;
        self.table.touch(id, peer);
        Ok(())
    }

    // adds a row with its first peer, and the lease that opens for it
    pub(crate) fn add_row(&mut self, flow: &Flow, grant: &Grant) -> Result<(), NoMemory>
        requires row { None ≡ row_of flow.now.key self.old.rows }
        requires grant { granted self.old flow.now ≡ Ok grant.now }
        ensures { OnOk result (self.new ≡ after_grant flow.now grant.now self.old) }
    {
        let peer = self.peer_of(flow, None);
        reserve_for(&mut self.blocks, grant.lease)?;
        let _id = self
            .table
            .insert(flow.key, flow.who.owner, grant.place, peer)?;
        take_lease(&mut self.blocks, grant.lease);
        Ok(())
    }

    // the peer that a flow's packet makes or refreshes, where it had this state before
    fn peer_of(&self, flow: &Flow, known: Option<TcpState>) -> Peer
        ensures { let f = flow.now in let s = self.now in
            result ≡ outbound_peer s.config s.clock f.key.proto f.remote f.flags known }
    {
        endpoints::outbound_peer(&self.config, self.clock, flow, known)
    }

    /// Tells the log of the lease that opens for a grant, where there is one. `NoMemory` changes nothing.
    pub(crate) fn log_opening(
        &self,
        grant: &Grant,
        log: &mut List<LogEvent>,
    ) -> Result<(), NoMemory>
        ensures { OnOk result (log.new ≡ log.old ++ opening_events self.now grant.now) }
    {
        match grant.lease {
            None => Ok(()),
            Some(lease) => log.push(block_event(true, self.clock, &lease)),
        }
    }
}

fn at_once(place: Ext) -> Grant
    ensures { result ≡ at_once place }
{
    Grant { place, lease: None }
}

// a count as a quota takes it, which stands still at the greatest number of 32 bits
fn limited(count: usize) -> u32
    ensures { result ≡ min count (2 ^ 32 - 1) }
{
    u32::try_from(count).unwrap_or(u32::MAX)
}

// mappings and peers, for the limits on these
fn usage_in(holding: Holding) -> Usage
    ensures mappings { result.mappings ≡ min holding.rows (2 ^ 32 - 1) }
    ensures peers { result.peers ≡ min holding.peers (2 ^ 32 - 1) }
{
    Usage {
        mappings: limited(holding.rows),
        peers: limited(holding.peers),
        blocks: 0,
    }
}

// open leases, for the limit on these
fn blocks_used(count: usize) -> Usage
    ensures { result.blocks ≡ min count (2 ^ 32 - 1) }
{
    Usage {
        mappings: 0,
        peers: 0,
        blocks: limited(count),
    }
}

// the address of a subscriber's first open lease
fn address_of(blocks: &Blocks, owner: Subscriber) -> Option<Ip4>
    ensures { result ≡ own_address None owner blocks.now.rows }
{
    blocks.lease_of(owner, 0).map(|l| l.addr)
}

// makes room for a lease, where one has to open
fn reserve_for(blocks: &mut Blocks, lease: Option<LeaseRow>) -> Result<(), NoMemory>
    ensures rows { blocks.new.rows ≡ blocks.old.rows }
    ensures ok { OnOk result (IfSome lease (λ l. 0 < blocks.new.spare)) }
{
    match lease {
        None => Ok(()),
        Some(_) => blocks.reserve(1),
    }
}

fn take_lease(blocks: &mut Blocks, lease: Option<LeaseRow>)
    requires { IfSome lease (λ l. 0 < blocks.old.spare) }
    ensures { blocks.new.rows ≡ blocks.old.rows ++ option_to_list lease }
{
    if let Some(lease) = lease {
        blocks.take(lease);
    }
}
