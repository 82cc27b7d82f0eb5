//! The least port that no row has.
ghost use Rattle.std.specs.Prelude.{◌≡◌, ◌+◌, ◌<◌, ◌≤◌, ◌||◌, ℕ, false, find, length, map, slice_index_or};
ghost use Rattle.aftr_base.proofs.Searches.{numbers};
ghost use Rattle.aftr_base.specs.Value.{place};
ghost use Rattle.nat_mapping.specs.Rows.{has_place, is_at, is_free, is_offset, least_free, mapping_of};

use crate::row::{Row, is_same_proto};
use aftr_base::{Ip4, Proto};

// how many ports one pass over the rows covers: as many as a block has at most
const SPAN: u32 = 16_384;

// The least port from `first` to `last`, both included, that no row of the protocol has at the
// address. A range that is no longer than a block takes one pass over the rows.
pub(crate) fn least_free(
    rows: &[Row],
    proto: Proto,
    addr: Ip4,
    first: u16,
    last: u16,
) -> Option<u16>
    ensures { result ≡ least_free proto addr first last (map mapping_of rows.now) }
{
    let end = u32::from(last) + 1;
    let mut from = u32::from(first);
    while from < end {
        let until = end.min(from + SPAN);
        let found = least_free_in(rows, proto, addr, from, until);
        if found.is_some() {
            return found;
        }
        from = until;
    }
    None
}

// the same for the ports before `until`
fn least_free_in(rows: &[Row], proto: Proto, addr: Ip4, from: u32, until: u32) -> Option<u16>
    requires few { until ≤ from + 16384 }
    requires ports { until ≤ 65536 }
    ensures { result ≡ find (is_free proto addr (map mapping_of rows.now)) (numbers from until) }
{
    let mut taken = [false; SPAN as usize];
    mark_all(&mut taken, rows, proto, addr, from);
    for port in from..until {
        if !taken[(port - from) as usize] {
            return Some(port as u16);
        }
    }
    None
}

// Marks the ports that rows of the protocol have at the address. The first mark is for the port
// `from`.
fn mark_all(taken: &mut [bool], rows: &[Row], proto: Proto, addr: Ip4, from: u32)
    requires { (i : ℕ) → i < length taken.old → slice_index_or taken.old i false ≡ false }
    ensures { (i : ℕ) → i < length taken.old
        → slice_index_or taken.new i false ≡ has_place proto (place addr (from + i)) (map mapping_of rows.now) }
{
    for row in rows {
        mark(taken, offset_of(row, proto, addr, from));
    }
}

// marks the port at this offset, if it is one of those that have marks
fn mark(taken: &mut [bool], offset: Option<usize>)
    ensures { (i : ℕ) → i < length taken.old
        → slice_index_or taken.new i false ≡ (slice_index_or taken.old i false || is_offset offset i) }
{
    if let Some(at) = offset {
        if at < taken.len() {
            taken[at] = true;
        }
    }
}

// how far the row's port is behind `from`, if it has the protocol and the address
fn offset_of(row: &Row, proto: Proto, addr: Ip4, from: u32) -> Option<usize>
    ensures { (i : ℕ) → is_at proto (place addr (from + i)) (mapping_of row.now) ≡ is_offset result i }
{
    let port = u32::from(row.ext.port);
    if is_same_proto(proto, row.key.proto) && addr.0 == row.ext.addr.0 && from <= port {
        Some((port - from) as usize)
    } else {
        None
    }
}
