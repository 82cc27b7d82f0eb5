//! Putting IPv4 packets into softwires that take packets of a limited length: fragmentation stands
//! behind encapsulation (RFC 2473 section 7.2, RFC 6333 section 5.3, RFC 8200 section 4.5).
ghost use Rattle.std.specs.Prelude.{◌≡◌, ◌≤◌, ◌<◌, ◌+◌, ◌++◌, length, IfOk, OnErr, OnOk};
ghost use Rattle.wire_ip6.specs.Grammar.{frag_bytes};
ghost use Rattle.softwire.specs.Cut.{JoinsAgain, encapsulated, fragments, is_cut, room_of};
ghost use Rattle.softwire.specs.Reading.{EncapTells, FitEnds};
ghost use Rattle.softwire.specs.Tunnel.{tunnel_packet};

use crate::cut::{append, front_of, room_of};
use crate::into_tunnel::encap;
use aftr_base::{Ip6, NoMemory, Packets};
use arrayvec::ArrayVec;
use std::alloc::Global;
use wire_ip6::{FragHead, Ip6Fields, write_frag_header, write_header};

/// The number of an IPv4 packet behind an IPv6 header.
const IPV4: u8 = 4;
/// The number of a Fragment header.
const FRAGMENT: u8 = 44;
/// The hop limit of the packets that are sent (RFC 2473 6.3).
const HOPS: u8 = 64;

/// Adds the IPv6 packet that carries an IPv4 packet from `aftr` to the other end of the softwire, with
/// this traffic class, or its fragments where that packet is longer than `mtu` bytes; it answers whether
/// it was cut. Each fragment but the last carries as many bytes as fit in units of 8. All of them bear
/// the identification `id`, which a packet that isn't cut doesn't need. `NoMemory` changes nothing.
pub fn encap_cut(
    inner: &[u8],
    class: u8,
    aftr: Ip6,
    softwire: Ip6,
    mtu: u16,
    id: u32,
    out: &mut Packets,
) -> Result<bool, NoMemory>
    requires short { length inner.now ≤ 65535 }
    requires mtu { 1280 ≤ mtu }
    ensures cut { IfOk result (λ cut. cut ≡ is_cut mtu inner.now) }
    ensures ok { OnOk result
        (out.new ≡ out.old ++ encapsulated aftr softwire class mtu id inner.now) }
    ensures joins { JoinsAgain (room_of mtu 48) inner.now }
    ensures tells { EncapTells aftr softwire class mtu id inner.now }
    ensures err { OnErr result (out.new ≡ out.old) }
{
    let carrier = Carrier {
        class,
        aftr,
        softwire,
        id,
    };
    carrier.fits();
    if 40 + inner.len() <= usize::from(mtu) {
        return encap(inner, class, aftr, softwire, mtu, id, out);
    }
    let pieces = fragments_of(out.allocator(), carrier, inner, room_of(mtu, 48))?;
    append(pieces, out)?;
    Ok(true)
}

// what all fragments of a packet have in common
#[derive(Clone, Copy)]
struct Carrier {
    class: u8,
    aftr: Ip6,
    softwire: Ip6,
    id: u32,
}

impl Carrier {
    // Its values have the width that the headers give them, by their types: a proof knows it once they are read.
    fn fits(&self)
        ensures { FitEnds self.now.aftr self.now.softwire self.now.class }
    {
        let _near = self.aftr.0;
        let _far = self.softwire.0;
        let _class = self.class;
    }
}

// the fragments that carry so many bytes each
fn fragments_of(
    alloc: Global,
    carrier: Carrier,
    inner: &[u8],
    room: usize,
) -> Result<Packets, NoMemory>
    requires some { 8 ≤ room }
    requires most { 8 + room ≤ 65535 }
    requires short { length inner.now ≤ 65535 }
    ensures { IfOk result (λ pieces. pieces
        ≡ fragments carrier.aftr carrier.softwire carrier.class carrier.id room inner.now) }
{
    let count = inner.len().div_ceil(room);
    let mut pieces = Packets::new(alloc);
    for i in 0..count {
        let part = front_of(&inner[room * i..], room);
        let piece = fragment(alloc, carrier, part, (room * i / 8) as u16, i + 1 < count)?;
        pieces.push(piece)?;
    }
    Ok(pieces)
}

// the fragment that carries this part, which stands at this offset in units of 8 bytes
fn fragment(
    alloc: Global,
    carrier: Carrier,
    part: &[u8],
    offset: u16,
    more: bool,
) -> Result<Vec<u8>, NoMemory>
    requires short { 8 + length part.now ≤ 65535 }
    requires offset { offset < 8192 }
    ensures { IfOk result (λ v. v.items
        ≡ tunnel_packet carrier.aftr carrier.softwire carrier.class 44
        (frag_bytes record { next = 4; offset = offset; more = more; id = carrier.id }
        ++ part.now)) }
{
    let header = Ip6Fields {
        class: carrier.class,
        payload: 8 + part.len() as u16,
        next: FRAGMENT,
        hops: HOPS,
        src: carrier.aftr,
        dst: carrier.softwire,
    };
    let piece = FragHead {
        next: IPV4,
        offset,
        more,
        id: carrier.id,
    };
    let mut front = ArrayVec::new();
    write_header(&header, &mut front);
    write_frag_header(&piece, &mut front);
    let mut bytes = Vec::from_slice(alloc, front.as_slice())?;
    bytes.extend_from_slice(part)?;
    Ok(bytes)
}
