//! What is told while a log is read, with an index of its open leases.
ghost use Rattle.std.specs.Prelude.{◌≡◌, ◌<◌, ◌≤◌, ◌+◌, ◌^◌, ◌&&◌, true, false, not, nat_le, [], ◌∷◌, ◌++◌, map};
ghost use Rattle.std.specs.Prelude.{None, IfSome, IfNone, OnOk};
ghost use Rattle.std.specs.List.{list_all, list_any};
ghost use Rattle.std.specs.BTreeMap.{get};
ghost use Rattle.aftr_base.specs.Plan.{is_prefix6};
ghost use Rattle.aftr_base.specs.Row.{is_open, overlaps};
ghost use Rattle.aftr_base.specs.Telling.{after_block, is_lease_of, lease_ended, may_open, told_after};
ghost use Rattle.aftr_base.specs.Told.{nothing_told};
ghost use Rattle.lease_log.specs.Applying.{Follows};
ghost use Rattle.lease_log.specs.Index.{place_cmp, place_of, IsIndexed, IsLeaseAt};

use crate::applying::{ApplyBad, apply_horizon, apply_plan, moment_of};
use crate::place::{Place, last_up_to};
use aftr_base::{LOG_MOMENT_LIMIT, LeaseRow, List, LogEvent, NoMemory, Prefix6, Told};
use std::alloc::Global;
use std::collections::BTreeMap;
use std::marker::Model;

/// What is told so far. It keeps the position of each open lease among the leases by the place where it begins, so that
/// a block that opens or closes takes one search.
#[derive(Drop)]
pub struct Telling {
    told: Told,
    places: BTreeMap<Place, usize>,
}

impl Model for Telling {
    ghost use Rattle.aftr_base.specs.declared.told.Told.{Told};
    ghost use Rattle.std.specs.BTreeMap.{get};
    ghost use Rattle.lease_log.specs.Index.{place_cmp, IsIndexed};

    ghost Value = { Told };

    ghost view = { λ it. it.told };

    ghost invariant = { λ it. IsIndexed it.told.leases (get place_cmp it.places) };
}

impl Telling {
    /// What an empty log tells, which takes no memory.
    pub fn nothing(alloc: Global) -> Self
        ensures { result ≡ nothing_told }
    {
        Telling {
            told: Told::nothing(alloc),
            places: BTreeMap::new(alloc),
        }
    }

    /// How many records were told.
    pub fn count(&self) -> u64
        ensures { result ≡ self.now.count }
    {
        self.told.count
    }

    /// What was told, without the index.
    pub fn into_told(self) -> Told
        ensures { result ≡ self }
    {
        let Telling { told, .. } = self;
        told
    }

    /// Tells one event more.
    ///
    /// `Refused` comes where the event's moment is past a 32-bit clock's seconds; where it opens a block that is none,
    /// has ports of an open lease, or opens past the horizon; where it closes a block that isn't open since an earlier
    /// moment or the same; where its horizon is below the one before or past the clock; where it opens a plan while one
    /// is in use, or past the horizon; and where it closes a plan that isn't in use since an earlier moment or the same.
    /// After another answer than Ok the telling is only dropped.
    pub fn tell(&mut self, alloc: Global, event: LogEvent) -> Result<(), ApplyBad>
        requires { self.old.count + 1 < 2 ^ 64 }
        ensures { Follows (told_after (event ∷ []) self.old) self.new result }
    {
        if moment_of(&event).0 > LOG_MOMENT_LIMIT {
            return Err(ApplyBad::Refused);
        }
        match event {
            LogEvent::Block {
                opens,
                owner,
                addr,
                first,
                last,
                at,
            } => {
                let block = LeaseRow {
                    owner,
                    addr,
                    first,
                    last,
                    since: at,
                    until: None,
                };
                apply_block(&mut self.told, &mut self.places, opens, block)?;
            }
            LogEvent::Horizon { at: _, reach } => apply_horizon(&mut self.told, reach)?,
            LogEvent::Plan { at, spec } => apply_plan(alloc, &mut self.told, at, spec)?,
        }
        self.told.count += 1;
        Ok(())
    }
}

// ---- blocks

// A block opens or closes. It is written as a lease since the event's moment.
fn apply_block(
    told: &mut Told,
    places: &mut BTreeMap<Place, usize>,
    opens: bool,
    block: LeaseRow,
) -> Result<(), ApplyBad>
    requires block { block.until ≡ None }
    requires indexed { IsIndexed told.old.leases (get place_cmp places.old) }
    ensures told { Follows
        (after_block told.old opens block.owner block.addr block.first block.last block.since)
        told.new result }
    ensures indexed { IsIndexed told.new.leases (get place_cmp places.new) }
{
    if opens {
        if !may_open(told, places, block) {
            return Err(ApplyBad::Refused);
        }
        open_block(&mut told.leases, places, block)?;
        Ok(())
    } else {
        let Some(at) = lease_at(told.leases.as_slice(), places, block) else {
            return Err(ApplyBad::Refused);
        };
        close_block(&mut told.leases, places, block, at);
        Ok(())
    }
}

// Whether a block may open: a subscriber's prefix with ports that no open lease has, at a moment that the horizon reaches.
fn may_open(told: &Told, places: &BTreeMap<Place, usize>, block: LeaseRow) -> bool
    requires { IsIndexed told.now.leases (get place_cmp places.now) }
    ensures { result
        ≡ may_open told.now block.owner block.addr block.first block.last block.since.0 }
{
    is_prefix(block.owner.0)
        && block.first <= block.last
        && block.since.0 <= told.horizon.0
        && is_free(told.leases.as_slice(), places, block)
}

// Whether no open lease has ports of a block. Since open leases share no port, only the last of those at the block's
// address that begin no later than it ends can have some.
fn is_free(leases: &[LeaseRow], places: &BTreeMap<Place, usize>, block: LeaseRow) -> bool
    requires { IsIndexed leases.now (get place_cmp places.now) }
    ensures { result ≡ list_all
        (λ l. not (is_open l && overlaps l block.addr block.first block.last)) leases.now }
{
    let end = Place {
        addr: block.addr.0,
        port: block.last,
    };
    match last_up_to(places, end) {
        Some(at) => !leases[at].overlaps(block.addr, block.first, block.last),
        None => true,
    }
}

// Whether the length is one, and the bits past it are zero.
fn is_prefix(prefix: Prefix6) -> bool
    ensures { result ≡ is_prefix6 prefix }
{
    match prefix.len {
        0 => prefix.bits.0 == 0,
        len @ 1..=128 => prefix.bits.0 % (1u128 << (128 - len)) == 0,
        _ => false,
    }
}

// Where a lease begins.
fn place_of(lease: LeaseRow) -> Place
    ensures { result ≡ place_of lease }
{
    Place {
        addr: lease.addr.0,
        port: lease.first,
    }
}

// Adds the lease of a block that is free. `NoMemory` changes nothing.
fn open_block(
    leases: &mut List<LeaseRow>,
    places: &mut BTreeMap<Place, usize>,
    block: LeaseRow,
) -> Result<(), NoMemory>
    requires block { block.until ≡ None }
    requires ports { block.first ≤ block.last }
    requires free { list_all
        (λ l. not (is_open l && overlaps l block.addr block.first block.last)) leases.old ≡ true }
    requires indexed { IsIndexed leases.old (get place_cmp places.old) }
    ensures ok { OnOk result (leases.new ≡ leases.old ++ block ∷ []) }
    ensures indexed { IsIndexed leases.new (get place_cmp places.new) }
{
    let place = place_of(block);
    places.insert(place, leases.len())?;
    match leases.push(block) {
        Ok(()) => Ok(()),
        Err(refused) => {
            places.remove(&place);
            Err(refused)
        }
    }
}

// The position that stands at a place.
fn position(places: &BTreeMap<Place, usize>, place: Place) -> Option<usize>
    ensures { result ≡ get place_cmp places.now place }
{
    places.get(&place).copied()
}

// The position of a block's lease that is open, since no later moment.
fn lease_at(leases: &[LeaseRow], places: &BTreeMap<Place, usize>, block: LeaseRow) -> Option<usize>
    requires { IsIndexed leases.now (get place_cmp places.now) }
    ensures some { IfSome result (IsLeaseAt leases.now block) }
    ensures none { IfNone result
        (list_any (λ l. is_lease_of block.owner block.addr block.first block.last l && nat_le l.since.0 block.since.0)
        leases.now ≡ false) }
{
    match position(places, place_of(block)) {
        Some(at) => {
            if may_end(block, &leases[at]) {
                Some(at)
            } else {
                None
            }
        }
        None => None,
    }
}

// Whether a lease is a block's that is open, since no later moment.
fn may_end(block: LeaseRow, lease: &LeaseRow) -> bool
    ensures { result
        ≡ (is_lease_of block.owner block.addr block.first block.last lease.now && nat_le lease.now.since.0 block.since.0) }
{
    is_lease_of(block, lease) && lease.since.0 <= block.since.0
}

// Whether a lease is open and of the same subscriber, address and ports.
fn is_lease_of(block: LeaseRow, lease: &LeaseRow) -> bool
    ensures { result ≡ is_lease_of block.owner block.addr block.first block.last lease.now }
{
    lease.until.is_none()
        && block.owner.is(lease.owner)
        && block.addr.0 == lease.addr.0
        && block.first == lease.first
        && block.last == lease.last
}

// Ends the lease of a block, which stands at this position, at the block's moment.
fn close_block(
    leases: &mut List<LeaseRow>,
    places: &mut BTreeMap<Place, usize>,
    block: LeaseRow,
    at: usize,
)
    requires indexed { IsIndexed leases.old (get place_cmp places.old) }
    requires at { IsLeaseAt leases.old block at }
    ensures leases { leases.new ≡ map
        (lease_ended block.owner block.addr block.first block.last block.since) leases.old }
    ensures indexed { IsIndexed leases.new (get place_cmp places.new) }
{
    let lease = leases.as_slice()[at];
    leases.set(
        at,
        LeaseRow {
            until: Some(block.since),
            ..lease
        },
    );
    places.remove(&place_of(block));
}
