//! The remote endpoints that mappings are used for, and how long they last (RFC 4787 section 4.3, RFC 5382 section 5,
//! RFC 5508 section 3.2).
ghost use Rattle.std.specs.Prelude.{◌≡◌, ◌+◌, ◌≤◌, true};
ghost use Rattle.aftr_base.specs.Limits.{moment_limit};
ghost use Rattle.cfg_text.specs.Accepted.{is_accepted};
ghost use Rattle.nat_mapping.specs.Rows.{has_peer, same_peer};
ghost use Rattle.xlate_core.specs.Endpoints.{endpoint, idle_ms, inbound_peer, outbound_peer, outbound_state, peer_at, peer_port, state_among, state_inbound, state_number};

use crate::grant::Flow;
use aftr_base::{Ext, Moment, Proto};
use cfg_text::Config;
use nat_mapping::Peer;
use tcp_track::{TcpState, first, next, short_idle};

/// Whether one of the peers is this remote endpoint, whose port counts for TCP alone.
pub(crate) fn has_peer(proto: Proto, remote: Ext, peers: &[Peer]) -> bool
    ensures { result ≡ has_peer (endpoint proto remote) peers.now }
{
    peers.iter().any(|p| is_peer_at(proto, remote, p))
}

/// The state of the peer that is this remote endpoint.
pub(crate) fn state_among(proto: Proto, remote: Ext, peers: &[Peer]) -> Option<TcpState>
    ensures { result ≡ state_among proto remote peers.now }
{
    for peer in peers {
        if is_peer_at(proto, remote, peer) {
            return Some(peer.state);
        }
    }
    None
}

/// The peer after a packet of a flow went out to it, where it had this state before.
pub(crate) fn outbound_peer(
    config: &Config,
    now: Moment,
    flow: &Flow,
    known: Option<TcpState>,
) -> Peer
    requires accepted { is_accepted config.now ≡ true }
    requires clock { now.0 ≤ moment_limit }
    ensures { result ≡ outbound_peer config.now now.0 flow.now.key.proto flow.now.remote flow.now.flags known }
{
    let proto = flow.key.proto;
    let state = outbound_state(proto, flow.flags, known);
    peer_at(config, now, proto, flow.remote, state)
}

/// The state of the peer that an inbound packet comes from, where it is TCP's.
pub(crate) fn state_inbound(proto: Proto, remote: Ext, peers: &[Peer]) -> Option<TcpState>
    ensures { result ≡ state_inbound proto remote peers.now }
{
    match proto {
        Proto::Tcp => state_among(proto, remote, peers),
        Proto::Udp | Proto::Icmp => None,
    }
}

/// The peer after an inbound segment with these control bits, where that changes its state.
pub(crate) fn inbound_peer(
    config: &Config,
    now: Moment,
    remote: Ext,
    flags: u8,
    state: TcpState,
) -> Option<Peer>
    requires accepted { is_accepted config.now ≡ true }
    requires clock { now.0 ≤ moment_limit }
    ensures { result ≡ inbound_peer config.now now.0 remote flags state }
{
    let after = next(state, flags, false);
    if number(after) == number(state) {
        None
    } else {
        Some(peer_at(config, now, Proto::Tcp, remote, after))
    }
}

fn number(state: TcpState) -> u8
    ensures { result ≡ state_number state }
{
    match state {
        TcpState::Opening => 0,
        TcpState::Open => 1,
        TcpState::HalfOut => 2,
        TcpState::HalfIn => 3,
        TcpState::Ending => 4,
    }
}

// a peer whose time begins now
fn peer_at(config: &Config, now: Moment, proto: Proto, remote: Ext, state: TcpState) -> Peer
    requires accepted { is_accepted config.now ≡ true }
    requires clock { now.0 ≤ moment_limit }
    ensures { result ≡ peer_at proto remote state (now.0 + idle_ms config.now proto state) }
{
    Peer {
        addr: remote.addr,
        port: peer_port(proto, remote.port),
        state,
        deadline: Moment(now.0 + idle_ms(config, proto, state)),
    }
}

fn outbound_state(proto: Proto, flags: u8, known: Option<TcpState>) -> TcpState
    ensures { result ≡ outbound_state proto flags known }
{
    match (proto, known) {
        (Proto::Tcp, None) => first(flags),
        (Proto::Tcp, Some(state)) => next(state, flags, true),
        (Proto::Udp | Proto::Icmp, _) => TcpState::Open,
    }
}

// how long a peer lasts unused, in milliseconds: a day at the most
fn idle_ms(config: &Config, proto: Proto, state: TcpState) -> u64
    requires { is_accepted config.now ≡ true }
    ensures time { result ≡ idle_ms config.now proto state }
    ensures most { result ≤ 86400000 }
{
    match proto {
        Proto::Udp => config.udp_ms,
        Proto::Icmp => config.icmp_ms,
        Proto::Tcp => {
            if short_idle(state) {
                config.tcp_short_ms
            } else {
                config.tcp_ms
            }
        }
    }
}

// the port by which remote endpoints are told apart
fn peer_port(proto: Proto, port: u16) -> u16
    ensures { result ≡ peer_port proto port }
{
    match proto {
        Proto::Tcp => port,
        Proto::Udp | Proto::Icmp => 0,
    }
}

fn is_peer_at(proto: Proto, remote: Ext, peer: &Peer) -> bool
    ensures { result ≡ same_peer (endpoint proto remote) peer.now }
{
    remote.addr.0 == peer.addr.0 && peer_port(proto, remote.port) == peer.port
}
