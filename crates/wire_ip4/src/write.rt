//! IPv4 headers without options, written.
ghost use Rattle.std.specs.Prelude.{◌≡◌, ◌+◌, ◌<◌, ◌≤◌, ◌++◌, [], List, ℕ, Ok, length};
ghost use Rattle.aftr_base.specs.Checksum.{sum16 as sum_of};
ghost use Rattle.wire_ip4.specs.Grammar.{AreFields, bare, bit_of, header_bytes, header_with, packet_of};
ghost use Rattle.wire_ip4.specs.Forwarded.{changing_words, forwarded, hairpinned, one_hop_on, with_address};

use crate::fields::Ip4Fields;
use crate::view::Ip4View;
use aftr_base::{Ip4, adjust, sum16};
use arrayvec::ArrayVec;
use byteorder::{BigEndian, ByteOrder};

/// Writes the header with these fields and no options, its reserved flag bit 0 and its checksum
/// computed. The offset is below 8192, and `out` is empty.
pub fn write_header(f: &Ip4Fields, out: &mut ArrayVec<u8, 20>)
    requires empty { out.old.items ≡ [] }
    requires offset { f.now.offset < 8192 }
    ensures bytes { out.new.items ≡ header_bytes (header_with f.now) }
    ensures reads_back { (payload beyond : List ℕ) → f.now.total ≡ 20 + length payload
        → packet_of (out.new.items ++ payload ++ beyond) ≡ Ok (header_with f.now, payload) }
{
    let sum = 65535 - sum16(&header_octets(*f, false, 0));
    *out = ArrayVec::from(header_octets(*f, false, sum));
}

impl<'a> Ip4View<'a> {
    /// Writes the header of this packet as it goes on: from the address `addr`, or to it where `source`
    /// is false, its TTL one lower, its checksum updated (RFC 1624) and not computed anew, all else as
    /// it was. It is for a header without options whose TTL is at least 1, and `out` is empty.
    pub fn write_forwarded(&self, source: bool, addr: Ip4, out: &mut ArrayVec<u8, 20>)
        requires plain { self.now.0.options ≡ [] }
        requires alive { 1 ≤ self.now.0.fields.ttl }
        requires empty { out.old.items ≡ [] }
        ensures bytes { out.new.items ≡ header_bytes (forwarded source addr self.now.0) }
        ensures sound { sum_of (header_bytes self.now.0) ≡ 65535 → sum_of out.new.items ≡ 65535 }
    {
        let old = self.fields();
        let new = moved(&old, source, addr);
        let sum = adjust(self.sum(), &changing(&old, source), &changing(&new, source));
        self.write_with(new, sum, out);
    }

    /// Writes the header of this packet as it turns back to the side that it came from (hairpinning, RFC 4787 section 6): from
    /// the address `src` to the address `dst`, its TTL one lower, its checksum updated for the one address and then for the
    /// other, all else as it was. It is for a header without options whose TTL is at least 1, and `out` is empty.
    pub fn write_hairpinned(&self, src: Ip4, dst: Ip4, out: &mut ArrayVec<u8, 20>)
        requires plain { self.now.0.options ≡ [] }
        requires alive { 1 ≤ self.now.0.fields.ttl }
        requires empty { out.old.items ≡ [] }
        ensures bytes { out.new.items ≡ header_bytes (hairpinned src dst self.now.0) }
        ensures sound { sum_of (header_bytes self.now.0) ≡ 65535 → sum_of out.new.items ≡ 65535 }
    {
        let old = self.fields();
        let outward = moved(&old, true, src);
        let sum = adjust(self.sum(), &changing(&old, true), &changing(&outward, true));
        let sum = adjust(sum, &old.dst.words(), &dst.words());
        self.write_with(Ip4Fields { dst, ..outward }, sum, out);
    }

    // writes a header with these fields and this checksum, and the reserved flag bit of this packet
    fn write_with(&self, fields: Ip4Fields, sum: u16, out: &mut ArrayVec<u8, 20>)
        requires empty { out.old.items ≡ [] }
        requires offset { fields.offset < 8192 }
        ensures { out.new.items
            ≡ header_bytes (record (bare fields) { reserved = self.now.0.reserved; sum = sum }) }
    {
        *out = ArrayVec::from(header_octets(fields, self.reserved(), sum));
    }
}

// the fields one hop on, with an address replaced
fn moved(old: &Ip4Fields, source: bool, addr: Ip4) -> Ip4Fields
    requires { 1 ≤ old.now.ttl }
    ensures { result ≡ (one_hop_on (with_address source addr (bare old.now))).fields }
{
    Ip4Fields {
        ttl: old.ttl - 1,
        src: if source { addr } else { old.src },
        dst: if source { old.dst } else { addr },
        ..*old
    }
}

// the words that change under way
fn changing(fields: &Ip4Fields, source: bool) -> [u16; 3]
    ensures { result ≡ changing_words source (bare fields.now) }
{
    let addr = if source { fields.src } else { fields.dst };
    let [high, low] = addr.words();
    let ttl = 256 * u16::from(fields.ttl) + u16::from(fields.proto);
    [ttl, high, low]
}

// the 16 bits of the flags and the offset
fn cut_word(fields: &Ip4Fields, reserved: bool) -> u16
    requires { fields.now.offset < 8192 }
    ensures { result ≡ bit_of reserved 32768 + bit_of fields.now.dont_cut 16384
        + bit_of fields.now.more 8192 + fields.now.offset }
{
    let reserved = if reserved { 32768 } else { 0 };
    let dont_cut = if fields.dont_cut { 16384 } else { 0 };
    let more = if fields.more { 8192 } else { 0 };
    reserved + dont_cut + more + fields.offset
}

// the header without options that has this reserved flag bit and this checksum
#[tactic(auto, unfolding(aftr_base::specs::Bytes::be16, aftr_base::specs::Bytes::be32))]
fn header_octets(fields: Ip4Fields, reserved: bool, sum: u16) -> [u8; 20]
    requires offset { fields.offset < 8192 }
    ensures bytes { result ≡ header_bytes (record (bare fields) { reserved = reserved; sum = sum }) }
    ensures fit { AreFields fields }
{
    let mut bytes = [0u8; 20];
    bytes[0] = 0x45;
    bytes[1] = fields.tos;
    BigEndian::write_u16(&mut bytes[2..], fields.total);
    BigEndian::write_u16(&mut bytes[4..], fields.id);
    BigEndian::write_u16(&mut bytes[6..], cut_word(&fields, reserved));
    bytes[8] = fields.ttl;
    bytes[9] = fields.proto;
    BigEndian::write_u16(&mut bytes[10..], sum);
    BigEndian::write_u32(&mut bytes[12..], fields.src.0);
    BigEndian::write_u32(&mut bytes[16..], fields.dst.0);
    bytes
}
