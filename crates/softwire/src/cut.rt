//! Cutting IPv4 packets that are longer than a link takes (RFC 791 section 3.2).
ghost use Rattle.std.specs.Prelude.{◌≡◌, ◌≤◌, ◌<◌, ◌+◌, ◌*◌, ◌/◌, ◌++◌, ◌∷◌, [], List, ℕ, false, Ok, IfOk, OnErr, OnOk, length, take, drop};
ghost use Rattle.wire_ip4.specs.Grammar.{Header, IsHeader, header_bytes, header_with, is_piece, packet_of};
ghost use Rattle.softwire.specs.Cut.{JoinsAgain, cut_packet, ip4_pieces, piece_fields, piece_of, room_of};
ghost use Rattle.softwire.specs.Reading.{CutTells};

use aftr_base::{NoMemory, Packets};
use arrayvec::ArrayVec;
use std::alloc::Global;
use std::mem;
use wire_ip4::{Ip4Fields, Ip4View, write_header};

/// Adds an IPv4 packet without options to `out`, cut where it is longer than `mtu` bytes. Each piece but
/// the last carries as many bytes as fit in units of 8, and each has a header and a checksum of its own,
/// with its reserved flag bit 0; a packet that fits goes as it stands. The packet is no piece itself.
/// Whether it may be cut isn't asked. `NoMemory` changes nothing.
pub fn cut4(datagram: &[u8], mtu: u16, out: &mut Packets) -> Result<(), NoMemory>
    requires packet { (h : Header) × (payload : List ℕ)
        × (packet_of datagram.now ≡ Ok (h, payload)) × (h.options ≡ []) × (is_piece h ≡ false) }
    requires mtu { 576 ≤ mtu }
    ensures ok { OnOk result ((h : Header) (payload : List ℕ)
        → packet_of datagram.now ≡ Ok (h, payload) → h.options ≡ []
        → out.new ≡ out.old ++ cut_packet mtu h payload) }
    ensures joins { (payload : List ℕ) → JoinsAgain (room_of mtu 20) payload }
    ensures tells { (h : Header) (payload : List ℕ)
        → packet_of datagram.now ≡ Ok (h, payload) → h.options ≡ [] → CutTells mtu h payload }
    ensures err { OnErr result (out.new ≡ out.old) }
{
    let Ok(packet) = Ip4View::read(datagram) else {
        unreachable!()
    };
    let whole = front_of(datagram, 20 + packet.payload().len());
    cut_with(&packet.fields(), whole, mtu, out)
}

/// Adds an IPv4 packet with these fields in its header and no options, cut where it is longer than `mtu`
/// bytes: nothing of it is read back, so that its reserved flag bit and its checksum may be any. Each piece
/// but the last carries as many bytes as fit in units of 8, and each has a header and a checksum of its
/// own, with its reserved flag bit 0; a packet that fits goes as it stands. Whether it may be cut isn't
/// asked. `NoMemory` changes nothing.
pub fn cut_with(
    fields: &Ip4Fields,
    packet: &[u8],
    mtu: u16,
    out: &mut Packets,
) -> Result<(), NoMemory>
    requires packet { (h : Header) × (payload : List ℕ) × (h.fields ≡ fields.now)
        × (h.options ≡ []) × (packet.now ≡ header_bytes h ++ payload) }
    requires short { length packet.now ≤ 65535 }
    requires mtu { 576 ≤ mtu }
    ensures ok { OnOk result ((h : Header) (payload : List ℕ)
        → h.fields ≡ fields.now → h.options ≡ [] → packet.now ≡ header_bytes h ++ payload
        → out.new ≡ out.old ++ cut_packet mtu h payload) }
    ensures tells { (h : Header) (payload : List ℕ)
        → IsHeader h → h.options ≡ [] → packet.now ≡ header_bytes h ++ payload → CutTells mtu h payload }
    ensures err { OnErr result (out.new ≡ out.old) }
{
    let alloc = out.allocator();
    if packet.len() <= usize::from(mtu) {
        let whole = Vec::from_slice(alloc, packet)?;
        return out.push(whole);
    }
    let pieces = pieces_of(alloc, fields, &packet[20..], room_of(mtu, 20))?;
    append(pieces, out)
}

/// The greatest multiple of 8 bytes that fits behind so many bytes of headers.
pub(crate) fn room_of(mtu: u16, headers: u16) -> usize
    requires { headers ≤ mtu }
    ensures { result ≡ room_of mtu headers }
{
    usize::from((mtu - headers) / 8 * 8)
}

/// The first bytes, or all where there are fewer.
pub(crate) fn front_of(bytes: &[u8], len: usize) -> &[u8]
    ensures { result.now ≡ take len bytes.now }
{
    if bytes.len() < len {
        bytes
    } else {
        &bytes[..len]
    }
}

/// Adds packets behind others. `NoMemory` changes nothing.
pub(crate) fn append(more: Packets, out: &mut Packets) -> Result<(), NoMemory>
    ensures ok { OnOk result (out.new ≡ out.old ++ more) }
    ensures err { OnErr result (out.new ≡ out.old) }
{
    let alloc = out.allocator();
    let mut all = mem::replace(out, Packets::new(alloc)).into_vec();
    let mut more = more.into_vec();
    let added = all.append(&mut more);
    *out = Packets::from_vec(all);
    added?;
    Ok(())
}

// the pieces of a packet with these fields that carry so many bytes each
fn pieces_of(
    alloc: Global,
    fields: &Ip4Fields,
    payload: &[u8],
    room: usize,
) -> Result<Packets, NoMemory>
    requires some { 8 ≤ room }
    requires short { length payload.now ≤ 65515 }
    ensures { IfOk result (λ pieces. pieces ≡ ip4_pieces fields.now room payload.now) }
{
    let count = payload.len().div_ceil(room);
    let mut pieces = Packets::new(alloc);
    for i in 0..count {
        let part = front_of(&payload[room * i..], room);
        let piece = piece(alloc, fields, part, (room * i / 8) as u16, i + 1 < count)?;
        pieces.push(piece)?;
    }
    Ok(pieces)
}

// the piece that carries this part, which stands at this offset in units of 8 bytes
fn piece(
    alloc: Global,
    fields: &Ip4Fields,
    part: &[u8],
    offset: u16,
    more: bool,
) -> Result<Vec<u8>, NoMemory>
    requires short { length part.now ≤ 65515 }
    requires offset { offset < 8192 }
    ensures { IfOk result (λ v. v.items
        ≡ header_bytes (header_with (piece_fields fields.now (length part.now) offset more))
        ++ part.now) }
{
    let mut header = ArrayVec::new();
    let fields = Ip4Fields {
        total: 20 + part.len() as u16,
        more,
        offset,
        ..*fields
    };
    write_header(&fields, &mut header);
    let mut bytes = Vec::from_slice(alloc, header.as_slice())?;
    bytes.extend_from_slice(part)?;
    Ok(bytes)
}
