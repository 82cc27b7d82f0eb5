//! Writing an IPv6 header and a Fragment header (RFC 8200 3, 4.5).
ghost use Rattle.std.specs.Prelude.{◌≡◌, ◌<◌, ◌≤◌, ◌+◌, ◌++◌, length};
ghost use Rattle.arrayvec.specs.ArrayVec.{array_vec_len};
ghost use Rattle.wire_ip6.specs.Grammar.{frag_bytes, header_bytes, FitsHeader, FitsPiece, ReadsBack, ReadsPieceBack};

use crate::fields::{FragHead, Ip6Fields};
use arrayvec::ArrayVec;
use byteorder::{BigEndian, ByteOrder};

/// Appends the 40 bytes of a header that has these fields and the flow label 0.
#[tactic(auto, using(crate::proofs::PacketLaws::header_reads_back))]
pub fn write_header(f: &Ip6Fields, out: &mut ArrayVec<u8, 48>)
    requires room { array_vec_len out.old + 40 ≤ 48 }
    ensures value { out.new.items ≡ out.old.items ++ header_bytes f.now }
    ensures reads_back { ReadsBack f.now (header_bytes f.now) }
{
    append(&header_octets(f), out);
}

/// Appends the 8 bytes of a Fragment header; its reserved bits are 0. The offset counts units of 8
/// bytes.
#[tactic(auto, using(crate::proofs::PieceLaws::piece_reads_back))]
pub fn write_frag_header(h: &FragHead, out: &mut ArrayVec<u8, 48>)
    requires room { array_vec_len out.old + 8 ≤ 48 }
    requires offset { h.now.offset < 8192 }
    ensures value { out.new.items ≡ out.old.items ++ frag_bytes h.now }
    ensures reads_back { ReadsPieceBack h.now (frag_bytes h.now) }
{
    append(&frag_octets(h), out);
}

// The bytes of a header.
#[tactic(auto, unfolding(aftr_base::specs::Bytes::be16, aftr_base::specs::Bytes::be32, aftr_base::specs::Bytes::be128))]
fn header_octets(f: &Ip6Fields) -> [u8; 40]
    ensures value { result ≡ header_bytes f.now }
    ensures fits { FitsHeader f.now }
{
    let mut bytes = [0u8; 40];
    BigEndian::write_u32(&mut bytes, 0x6000_0000 + 0x10_0000 * u32::from(f.class));
    BigEndian::write_u16(&mut bytes[4..], f.payload);
    bytes[6] = f.next;
    bytes[7] = f.hops;
    BigEndian::write_u128(&mut bytes[8..], f.src.0);
    BigEndian::write_u128(&mut bytes[24..], f.dst.0);
    bytes
}

// The bytes of a Fragment header.
#[tactic(auto, unfolding(aftr_base::specs::Bytes::be16, aftr_base::specs::Bytes::be32))]
fn frag_octets(h: &FragHead) -> [u8; 8]
    requires { h.now.offset < 8192 }
    ensures value { result ≡ frag_bytes h.now }
    ensures fits { FitsPiece h.now }
{
    let mut bytes = [0u8; 8];
    bytes[0] = h.next;
    BigEndian::write_u16(&mut bytes[2..], 8 * h.offset + u16::from(h.more));
    BigEndian::write_u32(&mut bytes[4..], h.id);
    bytes
}

// Appends these bytes, for which there is room.
fn append(bytes: &[u8], out: &mut ArrayVec<u8, 48>)
    requires { array_vec_len out.old + length bytes.now ≤ 48 }
    ensures { out.new.items ≡ out.old.items ++ bytes.now }
{
    match out.try_extend_from_slice(bytes) {
        Ok(()) => {}
        Err(_) => unreachable!(),
    }
}
