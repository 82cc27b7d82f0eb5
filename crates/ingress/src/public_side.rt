//! From the public side (RFC 6333 section 6.2).
ghost use Rattle.std.specs.Prelude.{◌≡◌, false, IfOk, IfSome};
ghost use Rattle.std.specs.List.{list_any};
ghost use Rattle.aftr_base.specs.Value.{is_under4};
ghost use Rattle.frag_reasm.specs.Keys.{is_six};
ghost use Rattle.ingress.specs.Arrival.{Tells};
ghost use Rattle.ingress.specs.Gathering.{AreKept};
ghost use Rattle.ingress.specs.Packet.{IsWhole};
ghost use Rattle.ingress.specs.PublicSide.{addressed_to_us, is_ours, public_arrival, public_key};

use crate::packet::Packet;
use crate::plain::Plain;
use crate::refusal::Refusal;
use aftr_base::{DropCause, Ip4, Moment, Prefix4};
use cfg_text::Config;
use frag_reasm::{PieceKey, Pieces};
use std::alloc::Global;
use wire_ip4::Ip4Fields;

/// The packet that a record from the public side brings at the moment `now`, and none where it is a piece that is held. The
/// first refusal that applies comes: `BadPacket` where the bytes are no IPv4 packet, `Options`, `NotUs` where it goes to no
/// address of the pool; of a piece `BadPacket`, `PieceTooMany`, `PieceTooLong` or `PieceOverlap`. After `NoMemory` the
/// pieces that the record made whole may be lost, and all others are held as before.
#[tactic(auto, unfolding(crate::specs::PublicSide::public_arrival))]
pub fn from_public<'a>(
    alloc: Global,
    config: &Config,
    pieces: &mut Pieces,
    now: Moment,
    bytes: &'a [u8],
) -> Result<Option<Packet<'a>>, Refusal>
    requires { AreKept pieces.old }
    ensures tells { Tells result pieces.new
        (public_arrival config.now now.0 pieces.old bytes.now) }
    ensures kept { AreKept pieces.new }
    ensures whole { IfOk result (λ brought. IfSome brought IsWhole) }
{
    let packet = addressed_to_us(config, bytes)?;
    let key = public_key(&packet.fields());
    packet.whole(alloc, pieces, key, now)
}

// a packet without options to an address of the pool
fn addressed_to_us<'a>(config: &Config, bytes: &'a [u8]) -> Result<Plain<'a>, DropCause>
    ensures { result ≡ addressed_to_us config.now bytes.now }
{
    let packet = Plain::read(bytes)?;
    if is_ours(config, packet.fields().dst) {
        Ok(packet)
    } else {
        Err(DropCause::NotUs)
    }
}

/// Whether an address is one of the pool. It takes time linear in the number of the pool's prefixes.
pub fn is_ours(config: &Config, a: Ip4) -> bool
    ensures { result ≡ is_ours config.now a }
{
    is_under_any(config.pool.as_slice(), a)
}

fn is_under_any(pool: &[Prefix4], a: Ip4) -> bool
    ensures { result ≡ list_any (λ p. is_under4 p a) pool.now }
{
    pool.iter().any(|p| p.covers(a))
}

// what the pieces of a packet from the public side have in common
fn public_key(fields: &Ip4Fields) -> PieceKey
    ensures value { result ≡ public_key fields.now }
    ensures four { is_six result ≡ false }
{
    PieceKey::Public {
        src: fields.src,
        dst: fields.dst,
        id: fields.id,
        proto: fields.proto,
    }
}
