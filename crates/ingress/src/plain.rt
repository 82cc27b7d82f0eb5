//! IPv4 packets without options, whole or pieces (RFC 791 section 3).
ghost use Rattle.std.specs.Prelude.{◌≡◌, false};
ghost use Rattle.frag_reasm.specs.Keys.{is_six};
ghost use Rattle.frag_reasm.specs.Whole.{held as held_piece};
ghost use Rattle.frag_reasm.specs.declared.key.PieceKey.{PieceKey as Key};
ghost use Rattle.wire_ip4.specs.Grammar.{is_piece};
ghost use Rattle.ingress.specs.Arrival.{Tells};
ghost use Rattle.ingress.specs.Gathering.{AreKept, IsPiece};
ghost use Rattle.ingress.specs.Ip4.{joined, piece_in, plain_ip4, whole_of};

use crate::gather::take;
use crate::packet::Packet;
use crate::refusal::Refusal;
use aftr_base::{DropCause, Moment};
use frag_reasm::{Piece, PieceKey, Pieces};
use std::alloc::Global;
use std::marker::Model;
use wire_ip4::{Ip4Fields, Ip4View};

/// An IPv4 packet without options at the front of a record's bytes. Contracts see its header and its payload.
#[derive(Debug, Drop)]
pub(crate) struct Plain<'a> {
    head: &'a [u8],
    bytes: &'a [u8],
    packet: Ip4View<'a>,
}

impl<'a> Model for Plain<'a> {
    ghost use Rattle.std.specs.Prelude.{ℕ, List};
    ghost use Rattle.wire_ip4.specs.Grammar.{Header};

    ghost Value = { Header × List ℕ };

    ghost use Rattle.ingress.specs.Packet.{HoldsPlain};

    ghost view = { λ p. p.packet };

    ghost invariant = { λ p. HoldsPlain p.head.now p.bytes.now p.packet };
}

impl<'a> Plain<'a> {
    /// The packet at the front of these bytes. The cause is `BadPacket` where there is none, and `Options` where it has some.
    pub(crate) fn read(bytes: &'a [u8]) -> Result<Plain<'a>, DropCause>
        ensures { result ≡ plain_ip4 bytes.now }
    {
        let Ok(packet) = Ip4View::read(bytes) else {
            return Err(DropCause::BadPacket);
        };
        if packet.has_options() {
            return Err(DropCause::Options);
        }
        Ok(Plain {
            head: &bytes[..20],
            bytes,
            packet,
        })
    }

    /// The fields of its header.
    pub(crate) fn fields(&self) -> Ip4Fields
        ensures { result ≡ self.now.0.fields }
    {
        self.packet.fields()
    }

    /// The packet, once it is whole: itself, or what it makes whole as a piece of the datagram with this key.
    pub(crate) fn whole(
        self,
        alloc: Global,
        pieces: &mut Pieces,
        key: PieceKey,
        now: Moment,
    ) -> Result<Option<Packet<'a>>, Refusal>
        requires four { is_six key ≡ false }
        requires kept { AreKept pieces.old }
        ensures tells { Tells result pieces.new (whole_of key now.0 pieces.old self.entry) }
        ensures kept { AreKept pieces.new }
    {
        if self.packet.fields().is_piece() {
            return joined(alloc, pieces, key, self.as_piece(), now);
        }
        Ok(Some(Packet::lent(self.bytes)))
    }

    // the packet as a piece
    fn as_piece(&self) -> Piece<'a>
        ensures value { held_piece result ≡ piece_in self.now }
        ensures piece { (key : Key) → IsPiece key (held_piece result) }
    {
        let fields = self.packet.fields();
        Piece {
            head: self.head,
            offset: 8 * u32::from(fields.offset),
            last: !fields.more,
            bytes: self.packet.payload(),
        }
    }
}

// what a piece makes whole
fn joined<'a>(
    alloc: Global,
    pieces: &mut Pieces,
    key: PieceKey,
    piece: Piece<'_>,
    now: Moment,
) -> Result<Option<Packet<'a>>, Refusal>
    requires four { is_six key ≡ false }
    requires kept { AreKept pieces.old }
    requires piece { IsPiece key (held_piece piece) }
    ensures tells { Tells result pieces.new (joined key now.0 pieces.old (held_piece piece.entry)) }
    ensures kept { AreKept pieces.new }
{
    match take(pieces, key, piece, now)? {
        Some(whole) => Ok(Some(Packet::joined(alloc, &whole)?)),
        None => Ok(None),
    }
}
