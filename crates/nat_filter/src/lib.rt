//! Which remote endpoints may send to a mapping (RFC 4787 section 5).
#![tactic(auto)]

ghost use Rattle.std.specs.Prelude.{◌≡◌};
ghost use Rattle.nat_filter.specs.Admits.{admits, has_address};
ghost use Rattle.nat_mapping.specs.Rows.{mapping_of};

use aftr_base::Ip4;
use nat_mapping::{Peer, Row};

#[cfg(test)]
mod tests;

/// Whether a packet from a remote address may go in to the row's inner place: each by
/// endpoint-independent filtering, or with `by_address` those from an address that one of the row's
/// peers has, whatever its port (address-dependent filtering).
pub fn admits(row: &Row, remote: Ip4, by_address: bool) -> bool
    ensures { result ≡ admits (mapping_of row.now) remote by_address }
{
    !by_address || has_address(&row.peers, remote)
}

fn has_address(peers: &[Peer], remote: Ip4) -> bool
    ensures { result ≡ has_address remote peers.now }
{
    peers.iter().any(|p| remote.0 == p.addr.0)
}
