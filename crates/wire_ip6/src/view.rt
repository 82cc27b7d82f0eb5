//! IPv6 packets, read in place (RFC 8200 3).
ghost use Rattle.std.specs.Prelude.{◌≡◌, IfOk};
ghost use Rattle.wire_ip6.specs.Grammar.{packet_of, AcceptsPackets, SpellsPacket};

use crate::fields::{Ip6Bad, Ip6Fields};
use aftr_base::{Ip6, u16_in, u32_in, u128_in};
use std::marker::Model;

/// A packet, read in place. Contracts see its fields and its payload.
#[derive(Debug, Drop)]
pub struct Ip6View<'a> {
    bytes: &'a [u8],
    payload: &'a [u8],
}

impl<'a> Model for Ip6View<'a> {
    ghost use Rattle.std.specs.Prelude.{ℕ, ◌≤◌, List, length};
    ghost use Rattle.wire_ip6.specs.declared.fields.Ip6Fields.{Ip6Fields};

    ghost Value = { Ip6Fields × List ℕ };

    ghost use Rattle.wire_ip6.specs.Grammar.{fields_of};

    ghost view = { λ v. (fields_of v.bytes.now, v.payload.now) };

    ghost invariant = { λ v. 40 ≤ length v.bytes.now };
}

impl<'a> Ip6View<'a> {
    /// The packet at the front of these bytes, with its payload of as many bytes as the payload length
    /// says. Bytes may follow it, and its flow label may be any.
    pub fn read(bytes: &'a [u8]) -> Result<Ip6View<'a>, Ip6Bad>
        ensures value { result ≡ packet_of bytes.now }
        ensures spelled { IfOk result (λ v. SpellsPacket bytes.now v.0 v.1) }
        ensures accepts { AcceptsPackets bytes.now result }
    {
        if bytes.len() < 40 {
            return Err(Ip6Bad::Short);
        }
        if u32_in(bytes, 0) / 0x1000_0000 != 6 {
            return Err(Ip6Bad::Version);
        }
        let len = usize::from(u16_in(bytes, 4));
        if bytes.len() < 40 + len {
            return Err(Ip6Bad::PayloadLen);
        }
        let after = &bytes[40..];
        Ok(Ip6View {
            bytes,
            payload: &after[..len],
        })
    }

    /// The fields, but for the flow label.
    pub fn fields(&self) -> Ip6Fields
        ensures { result ≡ self.now.0 }
    {
        let bytes = self.bytes;
        Ip6Fields {
            class: (u32_in(bytes, 0) / 0x10_0000 % 256) as u8,
            payload: u16_in(bytes, 4),
            next: bytes[6],
            hops: bytes[7],
            src: Ip6(u128_in(bytes, 8)),
            dst: Ip6(u128_in(bytes, 24)),
        }
    }

    /// What follows the header, the extension headers among it.
    pub fn payload(&self) -> &'a [u8]
        ensures { result.now ≡ self.now.1 }
    {
        self.payload
    }
}
