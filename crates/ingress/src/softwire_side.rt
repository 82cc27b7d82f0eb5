//! From the softwire side (RFC 2473 section 3.3, RFC 6333 section 5).
ghost use Rattle.std.specs.Prelude.{◌≡◌, Ok, Err, true, false, IfOk, IfErr, IfSome};
ghost use Rattle.aftr_base.specs.Bytes.{u8_at};
ghost use Rattle.frag_reasm.specs.Keys.{is_six};
ghost use Rattle.wire_ip6.specs.Chain.{chain_in};
ghost use Rattle.ingress.specs.Arrival.{Tells, then_receive, tried};
ghost use Rattle.ingress.specs.Gathering.{AreKept, taken};
ghost use Rattle.ingress.specs.Laws.{IsReceived};
ghost use Rattle.ingress.specs.Packet.{IsWhole};
ghost use Rattle.ingress.specs.SoftwireSide.{carried_to, drop_for, fragment, fragment_key, inner_arrival, inner_in, inner_key};
ghost use Rattle.ingress.specs.SoftwireSide.{softwire_arrival, tunnelled, unwrapped};

use crate::gather::{Gathered, take};
use crate::packet::Packet;
use crate::plain::Plain;
use crate::received::{Received, Sender};
use crate::refusal::Refusal;
use aftr_base::{DropCause, Moment};
use cfg_text::Config;
use frag_reasm::{Piece, PieceKey, Pieces};
use softwire::{DecapBad, Tunnel, decap};
use std::alloc::Global;
use wire_ip4::Ip4Fields;
use wire_ip6::{Chain, FragHead, walk};

/// The packet that a record from the softwire side brings at the moment `now`, with its sender, and none where it is a piece
/// that is held. The first refusal that applies comes: `BadPacket` where the bytes are no IPv6 packet, `NotUs` where it goes
/// elsewhere, `BadPacket` or `NotTunnel` where its chain of headers leads to no IPv4 packet or fragment, `UnknownSubscriber`;
/// of a fragment `BadPacket`, `PieceTooMany`, `PieceTooLong` or `PieceOverlap`, and of what it makes whole `BadPacket` or
/// `NotTunnel`; then `BadPacket` and `Options` of the IPv4 packet, and of that the same as of a fragment. After `NoMemory`
/// the pieces that the record made whole may be lost, and all others are held as before.
#[tactic(auto, unfolding(crate::specs::SoftwireSide::softwire_arrival))]
pub fn from_softwire<'a>(
    alloc: Global,
    config: &Config,
    pieces: &mut Pieces,
    now: Moment,
    bytes: &'a [u8],
) -> Result<Option<Received<'a>>, Refusal>
    requires { AreKept pieces.old }
    ensures tells { Tells result pieces.new
        (softwire_arrival config.now now.0 pieces.old bytes.now) }
    ensures kept { AreKept pieces.new }
    ensures received { IfOk result (λ brought. IfSome brought (IsReceived config.now IsWhole)) }
{
    let sent = tunnelled(config, bytes)?;
    let who = sent.who;
    match sent_packet(alloc, config, pieces, now, sent)? {
        Some(packet) => Ok(Some(Received { who, packet })),
        None => Ok(None),
    }
}

// a sender, and what its packet carries
#[derive(Clone, Copy, Debug)]
struct Sent<'a> {
    who: Sender,
    chain: Chain<'a>,
}

// why no softwire packet for this end of it is dropped
fn drop_for(bad: DecapBad) -> DropCause
    ensures { result ≡ drop_for bad }
{
    match bad {
        DecapBad::Packet => DropCause::BadPacket,
        DecapBad::NotUs => DropCause::NotUs,
        DecapBad::NotTunnel => DropCause::NotTunnel,
    }
}

// what the packet in these bytes carries to this end of a softwire
fn carried_to<'a>(config: &Config, bytes: &'a [u8]) -> Result<Tunnel<'a>, DropCause>
    ensures carried { IfOk result (λ t. carried_to config.now bytes.now
        ≡ Ok record { softwire = t.softwire; behind = chain_in t.chain }) }
    ensures refusal { IfErr result (λ cause. carried_to config.now bytes.now ≡ Err cause) }
{
    match decap(bytes, config.aftr) {
        Ok(tunnel) => Ok(tunnel),
        Err(bad) => Err(drop_for(bad)),
    }
}

// who sent the packet, and what it carries
fn tunnelled<'a>(config: &Config, bytes: &'a [u8]) -> Result<Sent<'a>, DropCause>
    ensures sent { IfOk result
        (λ s. tunnelled config.now bytes.now ≡ Ok (s.who, chain_in s.chain)) }
    ensures refusal { IfErr result (λ cause. tunnelled config.now bytes.now ≡ Err cause) }
{
    let tunnel = carried_to(config, bytes)?;
    let Some(owner) = subscriber_table::of(config, tunnel.softwire) else {
        return Err(DropCause::UnknownSubscriber);
    };
    let who = Sender {
        softwire: tunnel.softwire,
        owner,
    };
    Ok(Sent {
        who,
        chain: tunnel.chain,
    })
}

// the IPv4 packet in it, once it is whole
fn sent_packet<'a>(
    alloc: Global,
    config: &Config,
    pieces: &mut Pieces,
    now: Moment,
    sent: Sent<'a>,
) -> Result<Option<Packet<'a>>, Refusal>
    requires { AreKept pieces.old }
    ensures tells { Tells result pieces.new (then_receive
        (unwrapped config.now now.0 sent.entry.who pieces.old (chain_in sent.entry.chain))
        (inner_arrival sent.entry.who now.0)) }
    ensures kept { AreKept pieces.new }
{
    match sent.chain {
        Chain::Inner(inner) => inner_packet(alloc, pieces, now, sent.who, inner),
        Chain::Piece(head, part) => {
            let key = fragment_key(config, sent.who, &head);
            match gathered(pieces, now, key, &head, part)? {
                Some(whole) => packet_in(alloc, pieces, now, sent.who, &whole),
                None => Ok(None),
            }
        }
        Chain::NotTunnel => Err(Refusal::Dropped(DropCause::NotTunnel)),
        Chain::Broken => Err(Refusal::Dropped(DropCause::BadPacket)),
    }
}

// what the fragments of one packet have in common
fn fragment_key(config: &Config, who: Sender, head: &FragHead) -> PieceKey
    ensures value { result ≡ fragment_key config.now who head.now }
    ensures six { is_six result ≡ true }
{
    PieceKey::Six {
        owner: who.owner,
        src: who.softwire,
        dst: config.aftr,
        id: head.id,
    }
}

// what a fragment makes whole
fn gathered(
    pieces: &mut Pieces,
    now: Moment,
    key: PieceKey,
    head: &FragHead,
    part: &[u8],
) -> Result<Option<Gathered>, Refusal>
    requires six { is_six key ≡ true }
    requires kept { AreKept pieces.old }
    ensures tells { Tells result pieces.new
        (taken key (fragment head.now part.now) now.0 pieces.old) }
    ensures kept { AreKept pieces.new }
{
    let next = [head.next];
    let piece = Piece {
        head: &next,
        offset: 8 * u32::from(head.offset),
        last: !head.more,
        bytes: part,
    };
    take(pieces, key, piece, now)
}

// the IPv4 packet of a packet that its fragments made whole, once it is whole itself
fn packet_in<'a>(
    alloc: Global,
    pieces: &mut Pieces,
    now: Moment,
    who: Sender,
    whole: &Gathered,
) -> Result<Option<Packet<'a>>, Refusal>
    requires { AreKept pieces.old }
    ensures tells { Tells result pieces.new (then_receive
        (tried pieces.old (inner_in whole.now)) (inner_arrival who now.0)) }
    ensures kept { AreKept pieces.new }
{
    let inner = inner_in(whole)?;
    match inner_packet(alloc, pieces, now, who, inner)? {
        Some(packet) => Ok(Some(packet.into_owned(alloc)?)),
        None => Ok(None),
    }
}

// the packet behind the extension headers
fn inner_in(whole: &Gathered) -> Result<&[u8], DropCause>
    ensures inner { IfOk result (λ inner. inner_in whole.now ≡ Ok inner.now) }
    ensures refusal { IfErr result (λ cause. inner_in whole.now ≡ Err cause) }
{
    match walk(
        first_of(whole.head.as_slice()),
        whole.bytes.as_slice(),
        true,
    ) {
        Chain::Inner(inner) => Ok(inner),
        Chain::Piece(_, _) | Chain::NotTunnel => Err(DropCause::NotTunnel),
        Chain::Broken => Err(DropCause::BadPacket),
    }
}

// the first byte, and 0 where there is none
fn first_of(head: &[u8]) -> u8
    ensures { result ≡ u8_at 0 head.now }
{
    head.first().copied().unwrap_or(0)
}

// an IPv4 packet of a subscriber, once it is whole
fn inner_packet<'a>(
    alloc: Global,
    pieces: &mut Pieces,
    now: Moment,
    who: Sender,
    bytes: &'a [u8],
) -> Result<Option<Packet<'a>>, Refusal>
    requires { AreKept pieces.old }
    ensures tells { Tells result pieces.new (inner_arrival who now.0 pieces.old bytes.now) }
    ensures kept { AreKept pieces.new }
{
    let packet = Plain::read(bytes)?;
    let key = inner_key(who, &packet.fields());
    packet.whole(alloc, pieces, key, now)
}

// what the pieces of a subscriber's IPv4 packet have in common
fn inner_key(who: Sender, fields: &Ip4Fields) -> PieceKey
    ensures value { result ≡ inner_key who fields.now }
    ensures four { is_six result ≡ false }
{
    PieceKey::Inner {
        owner: who.owner,
        softwire: who.softwire,
        src: fields.src,
        dst: fields.dst,
        id: fields.id,
        proto: fields.proto,
    }
}
