//! Packets that are cut for a link, and put together again from their pieces in whatever order these come.

use aftr_base::{Ip4, Ip6, Moment, NoMemory, Packets, Prefix6, Subscriber};
use arrayvec::ArrayVec;
use frag_reasm::{Offer, Piece, PieceKey, Pieces};
use softwire::{cut4, decap, encap_cut};
use std::process::Abort;
use wire_ip4::{Ip4Fields, Ip4View, write_header};
use wire_ip6::Chain;

const MTU: u16 = 1500;

const AFTR: Ip6 = Ip6(0x2001_0db8_0000_0000_0000_0000_0000_0001);

const SOFTWIRE: Ip6 = Ip6(0x2001_0db8_0100_0000_0000_0000_0000_0002);

// The lengths of IPv4 packets from the first to the one before the second, and into how many pieces they are cut.
type Row = (u16, u16, usize);

// A piece for the public side carries 1,480 bytes behind its header of 20.
const FOR_PUBLIC: [Row; 6] = [
    (1498, 1501, 1),
    (1501, 1503, 2),
    (2978, 2981, 2),
    (2981, 2983, 3),
    (4458, 4461, 3),
    (4461, 4463, 4),
];

// A fragment for a softwire carries 1,448 bytes behind its headers of 40 and 8. The longest packet that isn't cut has
// 1,460, since it needs no Fragment header.
const FOR_SOFTWIRE: [Row; 7] = [
    (1446, 1451, 1),
    (1458, 1461, 1),
    (1461, 1463, 2),
    (2894, 2897, 2),
    (2897, 2899, 3),
    (4342, 4345, 3),
    (4345, 4347, 4),
];

/// The orders of four pieces, and of as many as there are where the other numbers are passed over.
pub const ORDERS: [[usize; 4]; 24] = [
    [0, 1, 2, 3],
    [0, 1, 3, 2],
    [0, 2, 1, 3],
    [0, 2, 3, 1],
    [0, 3, 1, 2],
    [0, 3, 2, 1],
    [1, 0, 2, 3],
    [1, 0, 3, 2],
    [1, 2, 0, 3],
    [1, 2, 3, 0],
    [1, 3, 0, 2],
    [1, 3, 2, 0],
    [2, 0, 1, 3],
    [2, 0, 3, 1],
    [2, 1, 0, 3],
    [2, 1, 3, 0],
    [2, 3, 0, 1],
    [2, 3, 1, 0],
    [3, 0, 1, 2],
    [3, 0, 2, 1],
    [3, 1, 0, 2],
    [3, 1, 2, 0],
    [3, 2, 0, 1],
    [3, 2, 1, 0],
];

// A UDP packet of so many bytes. No two pieces of it are alike.
fn packet<R: Abort + AllocGlobal>(rt: &R, total: u16) -> Vec<u8> {
    let fields = Ip4Fields {
        tos: 0x28,
        total,
        id: 9,
        dont_cut: false,
        more: false,
        offset: 0,
        ttl: 64,
        proto: 17,
        src: Ip4(0xcb00_7105),
        dst: Ip4(0xc000_0208),
    };
    let mut header = ArrayVec::new();
    write_header(&fields, &mut header);
    let mut bytes = Vec::from_slice(rt.alloc(), header.as_slice()).expect(
        rt,
        "memory for a header",
    );
    for at in 20..total {
        bytes
            .push((at % 251) as u8)
            .expect(rt, "memory for a packet");
    }
    bytes
}

// What the pieces of the packet have in common, and the piece.
type Offered<'a> = (PieceKey, Piece<'a>);

// A packet of the public side as a piece.
fn public_piece<'a>(packet: &Ip4View<'a>) -> Offered<'a> {
    let fields = packet.fields();
    let key = PieceKey::Public {
        src: fields.src,
        dst: fields.dst,
        id: fields.id,
        proto: fields.proto,
    };
    let piece = Piece {
        head: &[17],
        offset: 8 * u32::from(fields.offset),
        last: !fields.more,
        bytes: packet.payload(),
    };
    (key, piece)
}

// What the subscriber's end of the softwire gets as a piece, where it is one or a whole packet.
fn softwire_piece(packet: &[u8]) -> Option<Offered<'_>> {
    let Ok(tunnel) = decap(packet, SOFTWIRE) else {
        return None;
    };
    let (id, offset, last, bytes) = match tunnel.chain {
        Chain::Inner(bytes) => (0, 0, true, bytes),
        Chain::Piece(head, bytes) => (head.id, 8 * u32::from(head.offset), !head.more, bytes),
        Chain::NotTunnel | Chain::Broken => return None,
    };
    let owner = Subscriber(Prefix6 {
        bits: tunnel.softwire,
        len: 128,
    });
    let key = PieceKey::Six {
        owner,
        src: tunnel.softwire,
        dst: SOFTWIRE,
        id,
    };
    let piece = Piece {
        head: &[4],
        offset,
        last,
        bytes,
    };
    Some((key, piece))
}

// A packet of either side as a piece.
fn piece_in(packet: &[u8]) -> Option<Offered<'_>> {
    match Ip4View::read(packet) {
        Ok(view) => Some(public_piece(&view)),
        Err(_) => softwire_piece(packet),
    }
}

// Whether the pieces in this order are whole with the last of them, and not before, and have this body then.
fn is_whole<R: AllocGlobal>(
    rt: &R,
    pieces: &[Offered<'_>],
    order: [usize; 4],
    body: &[u8],
) -> bool {
    let mut held = Pieces::new(rt.alloc());
    let mut whole = false;
    for number in order.iter() {
        if let Some((key, piece)) = pieces.get(*number) {
            if whole {
                return false;
            }
            whole = match held.offer(*key, *piece, Moment(0)) {
                Offer::Whole { head, bytes } => {
                    head.as_slice() == piece.head && bytes.as_slice() == body
                }
                Offer::Held => false,
                _ => return false,
            };
        }
    }
    whole
}

// Checks that the pieces are so many, and that they have this body in each order.
fn check_orders<R: Abort + AllocGlobal>(rt: &R, cut: Packets, count: usize, body: &[u8]) {
    let cut = cut.into_vec();
    assert_eq!(rt; cut.len(), count, "pieces of {} bytes", body.len());
    let mut pieces = Vec::new(rt.alloc());
    for packet in cut.iter() {
        let piece = piece_in(packet).expect(rt, "a piece");
        pieces.push(piece).expect(rt, "memory for a piece");
    }
    for order in ORDERS {
        assert!(rt;
            is_whole(rt, &pieces, order, body),
            "{order:?} of {} bytes",
            body.len()
        );
    }
}

// Cuts the packet at the front of these bytes for the public side, and tells whether it is a whole one without options.
fn cut(bytes: &[u8], out: &mut Packets) -> Result<bool, NoMemory> {
    let Ok(view) = Ip4View::read(bytes) else {
        return Ok(false);
    };
    if view.has_options() || view.fields().is_piece() {
        return Ok(false);
    }
    cut4(bytes, MTU, out)?;
    Ok(true)
}

// The packet cut for the public side, and its pieces in each order.
fn check_public<R: Abort + AllocGlobal>(rt: &R, total: u16, count: usize) {
    let bytes = packet(rt, total);
    let mut out = Packets::new(rt.alloc());
    assert!(rt; cut(&bytes, &mut out).expect(rt, "memory for the pieces"));
    match Ip4View::read(&bytes) {
        Ok(view) => check_orders(rt, out, count, view.payload()),
        Err(bad) => assert!(rt; false, "{bad:?} of {total} bytes"),
    }
}

// The packet put into a softwire, and its fragments in each order.
fn check_softwire<R: Abort + AllocGlobal>(rt: &R, total: u16, count: usize) {
    let inner = packet(rt, total);
    let mut out = Packets::new(rt.alloc());
    if inner.len() <= 65_535 {
        let cut = encap_cut(&inner, 0x28, AFTR, SOFTWIRE, MTU, 7, &mut out);
        assert_eq!(rt; cut.expect(rt, "memory for the fragments"), 1 < count);
    }
    check_orders(rt, out, count, &inner);
}

#[test]
fn packets_cut_for_the_public_side_come_back(rt: HostRuntime) {
    for (from, end, count) in FOR_PUBLIC {
        for total in from..end {
            check_public(&rt, total, count);
        }
    }
}

#[test]
fn packets_cut_for_a_softwire_come_back(rt: HostRuntime) {
    for (from, end, count) in FOR_SOFTWIRE {
        for total in from..end {
            check_softwire(&rt, total, count);
        }
    }
}
