//! Packets that are longer than a link takes, cut.
ghost use Rattle.std.specs.Prelude.{◌≡◌, ◌≤◌, ◌<◌, ◌+◌, ◌++◌, List, ℕ, IfOk, length};
ghost use Rattle.wire_ip4.specs.Grammar.{header_bytes, header_with};

use crate::{cut_with, cut4, encap_cut};
use aftr_base::{Ip4, Ip6, NoMemory, Packets};
use arrayvec::ArrayVec;
use std::alloc::Global;
use std::test::Fail;
use wire_ip4::{Ip4Bad, Ip4Fields, Ip4View, write_header};

// the fields of a UDP packet of so many bytes behind its header
fn fields(len: u16) -> Ip4Fields
    requires { len ≤ 2000 }
    ensures offset { result.offset ≡ 0 }
    ensures total { result.total ≡ 20 + len }
{
    Ip4Fields {
        tos: 0x28,
        total: 20 + len,
        id: 9,
        dont_cut: false,
        more: false,
        offset: 0,
        ttl: 64,
        proto: 17,
        src: Ip4(0xcb00_7105),
        dst: Ip4(0xc000_0208),
    }
}

// the packet with these fields, whose bytes behind the header are zero
fn packet(alloc: Global, fields: &Ip4Fields) -> Result<Vec<u8>, NoMemory>
    requires offset { fields.now.offset < 8192 }
    requires total { 20 ≤ fields.now.total }
    ensures written { IfOk result (λ v. (payload : List ℕ)
        × (v.items ≡ header_bytes (header_with fields.now) ++ payload)) }
    ensures short { IfOk result (λ v. length v.items ≤ 65535) }
{
    let mut header = ArrayVec::new();
    write_header(fields, &mut header);
    let payload = vec![in alloc; 0; usize::from(fields.total - 20)]?;
    let mut bytes = Vec::from_slice(alloc, header.as_slice())?;
    bytes.extend_from_slice(&payload)?;
    Ok(bytes)
}

// cuts the packet at the front of these bytes, and tells whether it is a whole one without options
fn cut(bytes: &[u8], mtu: u16, out: &mut Packets) -> Result<bool, NoMemory>
    requires { 576 ≤ mtu }
{
    let Ok(view) = Ip4View::read(bytes) else {
        return Ok(false);
    };
    if view.has_options() || view.fields().is_piece() {
        return Ok(false);
    }
    cut4(bytes, mtu, out)?;
    Ok(true)
}

// cuts the packet that these bytes are, whatever its checksum, and tells whether its header has no options
fn cut_unread(bytes: &[u8], mtu: u16, out: &mut Packets) -> Result<bool, NoMemory>
    requires { 576 ≤ mtu }
{
    let Ok(view) = Ip4View::front(bytes) else {
        return Ok(false);
    };
    if view.has_options() || bytes.len() > 65535 {
        return Ok(false);
    }
    cut_with(&view.fields(), bytes, mtu, out)?;
    Ok(true)
}

// whether a packet is cut alike as it was written and as it is read, into so many pieces for a link of 576 bytes
fn is_cut_alike(alloc: Global, len: u16, count: usize) -> Result<bool, NoMemory> {
    if 2000 < len {
        return Ok(false);
    }
    let fields = fields(len);
    let bytes = packet(alloc, &fields)?;
    let mut written = Packets::new(alloc);
    cut_with(&fields, &bytes, 576, &mut written)?;
    let mut read = Packets::new(alloc);
    let is_read = cut(&bytes, 576, &mut read)?;
    let pieces = written.into_vec();
    Ok(is_read && pieces.len() == count && pieces == read.into_vec())
}

// puts a packet into a softwire of this MTU, and tells whether it was cut
fn put(inner: &[u8], mtu: u16, out: &mut Packets) -> Result<bool, NoMemory>
    requires { 1280 ≤ mtu }
{
    if inner.len() > 65535 {
        return Ok(false);
    }
    let aftr = Ip6(0x2001_0db8_0000_0000_0000_0000_0000_0001);
    let softwire = Ip6(0x2001_0db8_0100_0000_0000_0000_0000_0002);
    encap_cut(inner, 0x28, aftr, softwire, mtu, 0, out)
}

// how long a piece is, its offset in units of 8 bytes, and whether others follow
fn shape(piece: &[u8]) -> (usize, u16, bool) {
    match Ip4View::read(piece) {
        Ok(view) => (piece.len(), view.fields().offset, view.fields().more),
        Err(_) => (0, 0, false),
    }
}

// whether these bytes stand at an offset
fn has_at(bytes: &[u8], at: usize, part: &[u8]) -> bool {
    at <= bytes.len() && bytes[at..].starts_with(part)
}

#[test]
fn a_packet_for_the_public_side(rt: HostRuntime) -> Result<(), Fail> {
    let mut out = Packets::new(rt.alloc());
    let long = packet(rt.alloc(), &fields(1500))?;
    assert!(rt; cut(&long, 1500, &mut out)?);
    let short = packet(rt.alloc(), &fields(1480))?;
    assert!(rt; cut(&short, 1500, &mut out)?);
    let pieces = out.into_vec();
    match pieces.as_slice() {
        [first, second, whole] => {
            assert_eq!(rt; shape(first), (1500, 0, true));
            assert_eq!(rt; shape(second), (40, 0xb9, false));
            assert!(rt; whole.as_slice() == short.as_slice());
        }
        _ => assert!(rt; false),
    }
    Ok(())
}

#[test]
fn a_packet_just_written(rt: HostRuntime) -> Result<(), Fail> {
    for (len, count) in [(0, 1), (556, 1), (557, 2), (1104, 2), (1105, 3), (2000, 4)] {
        assert!(rt; is_cut_alike(rt.alloc(), len, count)?, "{len} bytes");
    }
    Ok(())
}

#[test]
fn a_reserved_bit_and_an_unsound_sum(rt: HostRuntime) -> Result<(), Fail> {
    let ends = [203, 0, 113, 5, 192, 0, 2, 8];
    let mut bytes = Vec::from_slice(
        rt.alloc(),
        &[0x45, 0x28, 2, 0x41, 0, 9, 0x80, 0, 64, 17, 1, 2],
    )?;
    bytes.extend_from_slice(&ends)?;
    bytes.extend_from_slice(&[7; 557])?;
    assert!(rt; matches!(Ip4View::read(&bytes), Err(Ip4Bad::Sum)));
    let mut out = Packets::new(rt.alloc());
    assert!(rt; cut_unread(&bytes, 577, &mut out)?);
    assert!(rt; cut_unread(&bytes, 576, &mut out)?);
    let packets = out.into_vec();
    match packets.as_slice() {
        [whole, first, second] => {
            assert!(rt; whole.as_slice() == bytes.as_slice());
            assert_eq!(rt; shape(first), (572, 0, true));
            assert!(rt; has_at(first, 4, &[0, 9, 0x20, 0, 64, 17]));
            assert_eq!(rt; shape(second), (25, 69, false));
            assert!(rt; has_at(second, 4, &[0, 9, 0, 69, 64, 17]));
        }
        _ => assert!(rt; false),
    }
    Ok(())
}

#[test]
fn a_packet_for_a_softwire(rt: HostRuntime) -> Result<(), Fail> {
    let mut out = Packets::new(rt.alloc());
    let inner = packet(rt.alloc(), &fields(1280))?;
    assert!(rt; put(&inner, 1280, &mut out)?);
    assert!(rt; !put(&inner, 1340, &mut out)?);
    let pieces = out.into_vec();
    match pieces.as_slice() {
        [first, second, whole] => {
            assert_eq!(rt; first.len(), 1280);
            assert!(rt; has_at(first, 0, &[0x62, 0x80, 0, 0, 0x04, 0xd8, 44, 64]));
            assert!(rt; has_at(first, 40, &[4, 0, 0, 1, 0, 0, 0, 0, 0x45, 0x28]));
            assert_eq!(rt; second.len(), 116);
            assert!(rt; has_at(second, 40, &[4, 0, 0x04, 0xd0, 0, 0, 0, 0]));
            assert_eq!(rt; whole.len(), 1340);
        }
        _ => assert!(rt; false),
    }
    Ok(())
}
