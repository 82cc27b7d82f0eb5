//! One pass over the rows, for the row of an inner key, for what an owner has, and for the ports that are taken.
ghost use Rattle.std.specs.Prelude.{◌≡◌, ◌≤◌, ◌+◌, ◌-◌, ◌^◌, ◌||◌, ℕ, IfNone, length, map, min, take, if◌then◌else◌};
ghost use Rattle.aftr_base.specs.Value.{place, subscriber_eq};
ghost use Rattle.nat_mapping.specs.Rows.{MarksPorts, holding_of, is_at, is_marked, mapping_of, row_of, searched};

use crate::row::{Row, is_same_proto};
use crate::table::RowId;
use crate::taken_ports::TakenPorts;
use aftr_base::{InnerKey, Ip4, Proto, Subscriber};

/// How many rows an owner has, and how many peers they have together (RFC 6888 section 3). A count stands still at the
/// greatest number of its type.
#[derive(Clone, Copy, Debug, PartialEq, Eq)]
pub struct Holding {
    pub rows: usize,
    pub peers: usize,
}

/// What a search for the row of an inner key came to.
#[derive(Clone, Copy, Debug, PartialEq, Eq)]
pub struct Search {
    /// Where the row stands, if the key has one.
    pub row: Option<RowId>,
    /// What the owner has in the rows before that one, or in all rows where the key has none.
    pub before: Holding,
}

// The row of an inner key, and what an owner has before it. Where the key has none, the ports are marked that rows of its
// protocol have at this address. No row behind the key's is visited.
pub(crate) fn search_in(
    rows: &[Row],
    key: &InnerKey,
    owner: Subscriber,
    addr: Ip4,
    taken: &mut TakenPorts,
) -> Search
    ensures row { result.row ≡ row_of key.now (map mapping_of rows.now) }
    ensures before { result.before ≡ holding_of owner (searched result.row (map mapping_of rows.now)) }
    ensures marks { IfNone result.row (MarksPorts taken.new key.now.proto addr (map mapping_of rows.now)) }
{
    taken.begin();
    let mut before = Holding { rows: 0, peers: 0 };
    for (at, row) in rows.iter().enumerate() {
        if row.is_of(key) {
            return Search {
                row: Some(RowId(at)),
                before,
            };
        }
        before = holding_with(before, owner, row);
        mark_port(taken, row, key.proto, addr);
    }
    Search { row: None, before }
}

// marks the port of a row that has the protocol and the address
fn mark_port(taken: &mut TakenPorts, row: &Row, proto: Proto, addr: Ip4)
    ensures { (port : ℕ)
        → is_marked taken.new port ≡ (is_marked taken.old port || is_at proto (place addr port) (mapping_of row.now)) }
{
    if addr.0 == row.ext.addr.0 && is_same_proto(proto, row.key.proto) {
        taken.mark(row.ext.port);
    }
}

// What an owner has in all rows, where it has this much before that one. Only rows from that one on are visited.
pub(crate) fn holding_from(rows: &[Row], owner: Subscriber, from: RowId, before: Holding) -> Holding
    requires within { from.0 ≤ length rows.now }
    requires before { before ≡ holding_of owner (take from.0 (map mapping_of rows.now)) }
    ensures { result ≡ holding_of owner (map mapping_of rows.now) }
{
    let mut holding = before;
    for row in &rows[from.0..] {
        holding = holding_with(holding, owner, row);
    }
    holding
}

// what an owner has with one row more
fn holding_with(before: Holding, owner: Subscriber, row: &Row) -> Holding
    ensures rows { result.rows
        ≡ min (before.rows + (if subscriber_eq owner row.now.owner then 1 else 0)) (2 ^ 64 - 1) }
    ensures peers { result.peers
        ≡ min (before.peers + (if subscriber_eq owner row.now.owner then length row.now.peers.items else 0)) (2 ^ 64 - 1) }
{
    if owner.is(row.owner) {
        Holding {
            rows: before.rows.saturating_add(1),
            peers: before.peers.saturating_add(row.peers.len()),
        }
    } else {
        before
    }
}
