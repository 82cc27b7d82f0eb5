//! IPv4 packets, read in place.
ghost use Rattle.std.specs.Prelude.{◌≡◌, ◌+◌, ◌<◌, ◌≤◌, ◌==◌, List, ℕ, Ok, Err, IfOk, IfErr, drop, length, not};
ghost use Rattle.wire_ip4.specs.Grammar.{Header, SpellsFront, SpellsPacket, front_of, header_of, len_of, packet_of};

use crate::fields::{Ip4Bad, Ip4Fields};
use aftr_base::{Ip4, sum16, u16_in, u32_in};
use std::marker::Model;

/// A packet, read in place. Contracts see its header and its payload.
#[derive(Debug, Drop)]
pub struct Ip4View<'a> {
    bytes: &'a [u8],
    payload: &'a [u8],
}

impl<'a> Model for Ip4View<'a> {
    ghost use Rattle.std.specs.Prelude.{ℕ, ◌≤◌, List, length};
    ghost use Rattle.wire_ip4.specs.Grammar.{Header, header_of, len_of};

    ghost Value = { Header × List ℕ };

    ghost view = { λ v. (header_of v.bytes.now, v.payload.now) };

    ghost invariant = { λ v.
        (20 ≤ len_of v.bytes.now) × (len_of v.bytes.now ≤ length v.bytes.now) };
}

// the length that the first byte says, in bytes
fn header_len(bytes: &[u8]) -> usize
    requires { 1 ≤ length bytes.now }
    ensures { result ≡ len_of bytes.now }
{
    4 * usize::from(bytes[0] % 16)
}

// the header's length in bytes, where the front of the bytes is a header
fn checked_len(bytes: &[u8]) -> Result<usize, Ip4Bad>
    ensures bad { IfErr result (λ bad. front_of bytes.now ≡ Err bad) }
    ensures good { IfOk result (λ len.
        front_of bytes.now ≡ Ok (header_of bytes.now, drop len bytes.now)) }
    ensures fits { IfOk result (λ len.
        (len ≡ len_of bytes.now) × (20 ≤ len) × (len ≤ length bytes.now)) }
{
    if bytes.len() < 20 {
        return Err(Ip4Bad::Short);
    }
    if bytes[0] / 16 != 4 {
        return Err(Ip4Bad::Version);
    }
    let len = header_len(bytes);
    if len < 20 || bytes.len() < len {
        return Err(Ip4Bad::HeaderLen);
    }
    Ok(len)
}

impl<'a> Ip4View<'a> {
    /// The packet at the front of these bytes. Its payload ends where the total length says, and bytes
    /// may follow it. It takes time linear in the header's length.
    pub fn read(bytes: &'a [u8]) -> Result<Ip4View<'a>, Ip4Bad>
        ensures value { result ≡ packet_of bytes.now }
        ensures spelled { IfOk result (λ v. SpellsPacket bytes.now v.0 v.1) }
        ensures accepts { (h : Header) (payload : List ℕ)
            → SpellsPacket bytes.now h payload → packet_of bytes.now ≡ Ok (h, payload) }
    {
        let len = checked_len(bytes)?;
        let total = usize::from(u16_in(bytes, 2));
        if total < len || bytes.len() < total {
            return Err(Ip4Bad::TotalLen);
        }
        if sum16(&bytes[..len]) != 65535 {
            return Err(Ip4Bad::Sum);
        }
        Ok(Ip4View {
            bytes,
            payload: &bytes[len..total],
        })
    }

    /// The header at the front of these bytes, with all the bytes after it for a payload. Neither the
    /// total length nor the checksum is looked at, since the packet that an ICMP error quotes
    /// (RFC 792) may be cut off: it answers `Short`, `Version` or `HeaderLen` alone.
    pub fn front(bytes: &'a [u8]) -> Result<Ip4View<'a>, Ip4Bad>
        ensures value { result ≡ front_of bytes.now }
        ensures spelled { IfOk result (λ v. SpellsFront bytes.now v.0 v.1) }
        ensures accepts { (h : Header) (rest : List ℕ)
            → SpellsFront bytes.now h rest → front_of bytes.now ≡ Ok (h, rest) }
    {
        let len = checked_len(bytes)?;
        Ok(Ip4View {
            bytes,
            payload: &bytes[len..],
        })
    }

    /// The fields, but for the reserved flag bit and the checksum.
    pub fn fields(&self) -> Ip4Fields
        ensures value { result ≡ self.now.0.fields }
        ensures offset { result.offset < 8192 }
    {
        let bytes = self.bytes;
        Ip4Fields {
            tos: bytes[1],
            total: u16_in(bytes, 2),
            id: u16_in(bytes, 4),
            dont_cut: bytes[6] / 64 % 2 == 1,
            more: bytes[6] / 32 % 2 == 1,
            offset: u16_in(bytes, 6) % 8192,
            ttl: bytes[8],
            proto: bytes[9],
            src: Ip4(u32_in(bytes, 12)),
            dst: Ip4(u32_in(bytes, 16)),
        }
    }

    // the flag bit that is to be zero
    pub(crate) fn reserved(&self) -> bool
        ensures { result ≡ self.now.0.reserved }
    {
        self.bytes[6] / 128 == 1
    }

    // the header's checksum
    pub(crate) fn sum(&self) -> u16
        ensures { result ≡ self.now.0.sum }
    {
        u16_in(self.bytes, 10)
    }

    /// Whether options follow the 20 bytes that every header has.
    pub fn has_options(&self) -> bool
        ensures { result ≡ not (length self.now.0.options == 0) }
    {
        let header = &self.bytes[..header_len(self.bytes)];
        let options = &header[20..];
        options.len() != 0
    }

    /// What the header is put before: up to the total length, or, of a packet's front, all that follows.
    pub fn payload(&self) -> &'a [u8]
        ensures { result.now ≡ self.now.1 }
    {
        self.payload
    }
}
