//! Whole IPv4 packets.
ghost use Rattle.std.specs.Prelude.{◌≡◌, ◌≤◌, ◌+◌, [], false, length, IfOk, Ok};
ghost use Rattle.wire_ip4.specs.Grammar.{is_piece, packet_of};
ghost use Rattle.ingress.specs.Gathering.{IsPlainHead};
ghost use Rattle.ingress.specs.Ip4.{whole_fields, whole_packet};
ghost use Rattle.ingress.specs.Packet.{HoldsWhole, IsWhole, bytes_in, packet_in};

use crate::gather::Gathered;
use aftr_base::{List, NoMemory};
use arrayvec::ArrayVec;
use std::alloc::Global;
use std::marker::Model;
use wire_ip4::{Ip4Fields, Ip4View, write_header};

// where a packet's bytes stand
#[derive(Debug, Drop)]
pub(crate) enum Bytes<'a> {
    Lent(&'a [u8]),
    Made(List<u8>),
}

impl Bytes<'_> {
    // the same bytes, which stand nowhere else
    fn into_owned<'b>(self, alloc: Global) -> Result<Bytes<'b>, NoMemory>
        ensures { IfOk result (λ own. bytes_in own ≡ bytes_in self.entry) }
    {
        match self {
            Bytes::Lent(bytes) => {
                let mut own = List::new(alloc);
                own.extend_from_slice(bytes)?;
                Ok(Bytes::Made(own))
            }
            Bytes::Made(own) => Ok(Bytes::Made(own)),
        }
    }
}

/// An IPv4 packet without options that is whole: lent from a record, or put together from its pieces. Contracts see its
/// header and its payload.
#[derive(Debug, Drop)]
pub struct Packet<'a> {
    bytes: Bytes<'a>,
}

impl<'a> Model for Packet<'a> {
    ghost use Rattle.std.specs.Prelude.{ℕ, List};
    ghost use Rattle.wire_ip4.specs.Grammar.{Header};

    ghost Value = { Header × List ℕ };

    ghost use Rattle.ingress.specs.Packet.{HoldsWhole, bytes_in, packet_in};

    ghost view = { λ p. packet_in (bytes_in p.bytes) };

    ghost invariant = { λ p. HoldsWhole (bytes_in p.bytes) };
}

impl<'a> Packet<'a> {
    /// The packet in these bytes, which is whole.
    pub(crate) fn lent(bytes: &'a [u8]) -> Packet<'a>
        requires { HoldsWhole bytes.now }
        ensures { result ≡ packet_in bytes.now }
    {
        Packet {
            bytes: Bytes::Lent(bytes),
        }
    }

    /// The packet that its pieces made whole: with the header of the one at offset 0, made that of the whole.
    pub(crate) fn joined(alloc: Global, whole: &Gathered) -> Result<Packet<'a>, NoMemory>
        requires head { IsPlainHead whole.now.head }
        requires short { 20 + length whole.now.bytes ≤ 65535 }
        ensures { IfOk result (λ packet. packet ≡ whole_packet whole.now) }
    {
        let mut header = ArrayVec::new();
        write_header(&whole_fields(whole), &mut header);
        let body = whole.bytes.as_slice();
        let mut bytes = Vec::with_capacity(alloc, header.len() + body.len())?;
        bytes.extend_from_slice(header.as_slice())?;
        bytes.extend_from_slice(body)?;
        Ok(Packet {
            bytes: Bytes::Made(List::from_vec(bytes)),
        })
    }

    /// The packet in bytes of its own.
    pub(crate) fn into_owned<'b>(self, alloc: Global) -> Result<Packet<'b>, NoMemory>
        ensures { IfOk result (λ packet. packet ≡ self.entry) }
    {
        let Packet { bytes } = self;
        Ok(Packet {
            bytes: bytes.into_owned(alloc)?,
        })
    }

    /// The packet's bytes. Others may follow its total length, as they may have in its record.
    pub fn bytes(&self) -> &[u8]
        ensures value { packet_of result.now ≡ Ok self.now }
        ensures whole { IsWhole self.now }
    {
        match &self.bytes {
            Bytes::Lent(bytes) => bytes,
            Bytes::Made(bytes) => bytes.as_slice(),
        }
    }

    /// The packet, read in place.
    pub fn view(&self) -> Ip4View<'_>
        ensures value { result ≡ self.now }
        ensures plain { result.0.options ≡ [] }
        ensures whole { is_piece result.0 ≡ false }
        ensures total { result.0.fields.total ≡ 20 + length result.1 }
        ensures short { result.0.fields.total ≤ 65535 }
    {
        match Ip4View::read(self.bytes()) {
            Ok(view) => view,
            Err(_) => unreachable!(),
        }
    }
}

// the header of the piece at offset 0, made that of the whole
fn whole_fields(whole: &Gathered) -> Ip4Fields
    requires head { IsPlainHead whole.now.head }
    requires short { 20 + length whole.now.bytes ≤ 65535 }
    ensures { result ≡ whole_fields whole.now }
{
    let Ok(first) = Ip4View::front(whole.head.as_slice()) else {
        unreachable!()
    };
    Ip4Fields {
        total: 20 + whole.bytes.len() as u16,
        more: false,
        offset: 0,
        ..first.fields()
    }
}
