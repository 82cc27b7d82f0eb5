//! What comes in by a mapping, from the public side or from another subscriber (RFC 4787 sections 5 and 6).
ghost use Rattle.std.specs.Prelude.{◌≡◌, ◌<◌, length, slice_get, true, Ok, Err, None, Some, IfNone, IfSome, IfOk, IfErr};
ghost use Rattle.nat_mapping.specs.Rows.{Mapping, has_peer, mapping_of, row_at};
ghost use Rattle.xlate_core.specs.Arrivals.{moved_peer, receiver_of, rows_inbound};
ghost use Rattle.xlate_core.specs.Rows.{find_in, find_out};
ghost use Rattle.nat_filter.specs.Admits.{admits};
ghost use Rattle.cfg_text.specs.Accepted.{by_address};

use crate::endpoints::{inbound_peer, state_inbound};
use crate::packet::require;
use crate::translator::Core;
use aftr_base::{DropCause, Ext, InnerKey, Ip4, Proto};
use cfg_text::{Config, Filter};
use nat_filter::admits;
use nat_mapping::{Peer, Row, RowId};

/// What a datagram that comes to a mapping says of itself: where it is from, the place that it is for, and its control bits,
/// which only TCP has.
#[derive(Clone, Copy, Debug)]
pub(crate) struct Arrival {
    pub(crate) proto: Proto,
    pub(crate) from: Ext,
    pub(crate) to: Ext,
    pub(crate) flags: u8,
}

// whether a mapping admits a remote address, by the configured filter (RFC 4787 section 5)
fn admits_from(config: &Config, row: &Row, remote: Ip4) -> bool
    ensures { result ≡ admits (mapping_of row.now) remote (by_address config.now) }
{
    admits(row, remote, by_address(config))
}

fn by_address(config: &Config) -> bool
    ensures { result ≡ by_address config.now }
{
    match config.filter {
        Filter::Independent => false,
        Filter::Address => true,
    }
}

impl Core {
    /// Where the row stands that a datagram comes in by, or the first rule that refuses it: `NoMapping` where the place has
    /// none, `Filtered` where it doesn't admit the remote address.
    pub(crate) fn receiver_of(&self, arrival: &Arrival) -> Result<RowId, DropCause>
        ensures receiver { IfOk result (λ id. (row : Mapping) × (slice_get self.now.rows id.0 ≡ Some row)
            × (receiver_of self.now arrival.now ≡ Ok row)) }
        ensures place { IfOk result
            (λ id. Some id ≡ row_at arrival.now.proto arrival.now.to self.now.rows) }
        ensures live { IfOk result (λ id. id.0 < length self.now.rows) }
        ensures refusal { IfErr result (λ cause. receiver_of self.now arrival.now ≡ Err cause) }
    {
        let Some(id) = self.find_in(arrival.proto, arrival.to) else {
            return Err(DropCause::NoMapping);
        };
        require(
            admits_from(&self.config, self.table.row(id), arrival.from.addr),
            DropCause::Filtered,
        )?;
        Ok(id)
    }

    /// Where the row of this place stands.
    pub(crate) fn find_in(&self, proto: Proto, ext: Ext) -> Option<RowId>
        ensures place { IfSome result (λ id. Some id ≡ row_at proto ext self.now.rows) }
        ensures row { IfSome result (λ id. (row : Mapping) × (slice_get self.now.rows id.0 ≡ Some row)
            × (find_in proto ext self.now.rows ≡ Some row)) }
        ensures live { IfSome result (λ id. id.0 < length self.now.rows) }
        ensures none { IfNone result (find_in proto ext self.now.rows ≡ None) }
    {
        self.table.find_in(proto, ext)
    }

    /// Where the row of this key stands.
    pub(crate) fn find_out(&self, key: &InnerKey) -> Option<RowId>
        ensures row { IfSome result (λ id. (row : Mapping) × (slice_get self.now.rows id.0 ≡ Some row)
            × (find_out key.now self.now.rows ≡ Some row)) }
        ensures live { IfSome result (λ id. id.0 < length self.now.rows) }
        ensures none { IfNone result (find_out key.now self.now.rows ≡ None) }
    {
        self.table.find_out(key)
    }

    /// Moves the state of the TCP connection that a segment is of, in the row that stands at its destination.
    pub(crate) fn follow(&mut self, id: RowId, arrival: &Arrival)
        requires { Some id ≡ row_at arrival.now.proto arrival.now.to self.old.rows }
        ensures { let s = self.old in self.new ≡ record s { rows = rows_inbound s arrival.now } }
    {
        if let Some(peer) = self.moved_peer(arrival, &self.table.row(id).peers) {
            self.table.touch(id, peer);
        }
    }

    // the peer whose state a segment changes
    fn moved_peer(&self, arrival: &Arrival, peers: &[Peer]) -> Option<Peer>
        ensures moved { result ≡ moved_peer self.now.config self.now.clock arrival.now peers.now }
        ensures known { IfSome result (λ p. has_peer p peers.now ≡ true) }
    {
        let state = state_inbound(arrival.proto, arrival.from, peers)?;
        inbound_peer(&self.config, self.clock, arrival.from, arrival.flags, state)
    }
}
