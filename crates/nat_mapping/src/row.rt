//! One mapping and its remote endpoints.
ghost use Rattle.std.specs.Prelude.{All, ◌≡◌, ◌-◌, ◌||◌, ◌≤◌, ◌+◌, if◌then◌else◌, length, map, nat_lt, IsTrue};
ghost use Rattle.nat_mapping.specs.declared.row.Row.{Row};
ghost use Rattle.std.specs.Vec.{vec_capacity, vec_len};
ghost use Rattle.nat_mapping.specs.declared.row.Peer.{Peer};
ghost use Rattle.nat_mapping.specs.Rows.{has_peer, is_at, is_used, is_of, live_peers, mapping_of, same_peer, with_peer};
ghost use Rattle.aftr_base.specs.Value.{proto_eq};

use aftr_base::{Ext, InnerKey, Ip4, Moment, Proto, Subscriber};
use tcp_track::TcpState;

/// A remote endpoint that a mapping was used for.
#[derive(Clone, Copy, Debug, PartialEq, Eq)]
pub struct Peer {
    pub addr: Ip4,
    /// The remote port of TCP. For UDP and ICMP queries, whose peers are addresses alone, it is 0.
    pub port: u16,
    /// How far the connection is. A peer that isn't TCP's is `Open`.
    pub state: TcpState,
    /// The moment at which the peer is forgotten.
    pub deadline: Moment,
}

/// A mapping from an inner key to an external place.
#[derive(Debug, Drop)]
pub struct Row {
    pub key: InnerKey,
    pub owner: Subscriber,
    pub ext: Ext,
    /// The remote endpoints in order of their first use. The vector's room tells how many more need
    /// no memory.
    pub peers: Vec<Peer>,
}

impl Row {
    // whether it is the row of this inner key
    pub(crate) fn is_of(&self, key: &InnerKey) -> bool
        ensures { result ≡ is_of key.now (mapping_of self.now) }
    {
        // the port first, which tells most rows apart
        key.port == self.key.port
            && key.softwire.0 == self.key.softwire.0
            && is_same_proto(key.proto, self.key.proto)
            && key.addr.0 == self.key.addr.0
    }

    // whether it has this place for this protocol
    pub(crate) fn is_at(&self, proto: Proto, ext: Ext) -> bool
        ensures { result ≡ is_at proto ext (mapping_of self.now) }
    {
        is_same_proto(proto, self.key.proto)
            && ext.addr.0 == self.ext.addr.0
            && ext.port == self.ext.port
    }

    // Lets the peers go whose deadline is not past `now`. The answer is whether one is left.
    pub(crate) fn expire(&mut self, now: Moment) -> bool
        ensures row { mapping_of self.new ≡ live_peers now.0 (mapping_of self.old) }
        ensures left { result ≡ is_used (mapping_of self.new) }
    {
        self.peers.retain(|p| now.0 < p.deadline.0);
        self.peers.len() > 0
    }
}

// Puts a peer in the place of the one at its endpoint, or behind all.
pub(crate) fn put_peer(peers: &mut Vec<Peer>, peer: Peer)
    requires { IsTrue (has_peer peer peers.old.items || nat_lt 0 (vec_capacity peers.old - vec_len peers.old)) }
    ensures items { peers.new.items ≡ with_peer peer peers.old.items }
    ensures room { vec_capacity peers.old ≤ vec_capacity peers.new }
    ensures len { vec_len peers.new ≤ vec_len peers.old + 1 }
{
    if replace_peer(peers, peer) {
        return;
    }
    match peers.push(peer) {
        Ok(()) => {}
        Err(_) => unreachable!(),
    }
}

// Puts a peer in the place of the one at its endpoint. The answer is whether there is one.
fn replace_peer(peers: &mut Vec<Peer>, peer: Peer) -> bool
    ensures found { result ≡ has_peer peer peers.old.items }
    ensures put { peers.new.items
        ≡ map (λ (q : Peer). if same_peer peer q then peer else q) peers.old.items }
    ensures room { vec_capacity peers.new ≡ vec_capacity peers.old }
    ensures len { vec_len peers.new ≡ vec_len peers.old }
{
    let mut found = false;
    for at in 0..peers.len() {
        if is_same_peer(&peer, &peers[at]) {
            peers[at] = peer;
            found = true;
        }
    }
    found
}

fn is_same_peer(p: &Peer, q: &Peer) -> bool
    ensures { result ≡ same_peer p.now q.now }
{
    p.addr.0 == q.addr.0 && p.port == q.port
}

pub(crate) fn is_same_proto(p: Proto, q: Proto) -> bool
    ensures { result ≡ proto_eq p q }
{
    p == q
}

// a moment before which none of the peers of these rows goes
pub(crate) fn earliest_of(rows: &[Row]) -> Moment
    ensures { All (λ (r : Row). All (λ (p : Peer). result.0 ≤ p.deadline.0) r.peers.items) rows.now }
{
    let mut earliest = Moment(u64::MAX);
    for row in rows {
        earliest = earliest_deadline(&row.peers, earliest);
    }
    earliest
}

// the least of this moment and of the deadlines
fn earliest_deadline(peers: &[Peer], or: Moment) -> Moment
    ensures before { result.0 ≤ or.0 }
    ensures each { All (λ (p : Peer). result.0 ≤ p.deadline.0) peers.now }
{
    let mut earliest = or;
    for peer in peers {
        earliest = Moment(earliest.0.min(peer.deadline.0));
    }
    earliest
}
