use crate::{Offer, Piece, PieceKey, Pieces};
use aftr_base::{Ip4, Ip6, Moment, Prefix6, Subscriber};
use std::test::Fail;

const HEAD: &[u8] = &[4];

const OTHER_HEAD: &[u8] = &[9, 9];

const BODY: &[u8] = b"the first, the second, the third, and the last";

/// What is expected of an offer.
#[derive(Clone, Copy, Debug)]
enum Wanted<'a> {
    Whole(&'a [u8]),
    Held,
    Overlap,
    TooMany,
    TooLong,
    Bad,
}

// The offset of a piece, whether it is the last one, its bytes, and what is expected of it.
type Step<'a> = (u32, bool, &'a [u8], Wanted<'a>);

const MORE: bool = false;

const LAST: bool = true;

fn subscriber(number: u128) -> Subscriber {
    Subscriber(Prefix6 {
        bits: Ip6(number),
        len: 56,
    })
}

fn six(owner: u128, id: u32) -> PieceKey {
    PieceKey::Six {
        owner: subscriber(owner),
        src: Ip6(2),
        dst: Ip6(1),
        id,
    }
}

fn inner(owner: u128, id: u16) -> PieceKey {
    PieceKey::Inner {
        owner: subscriber(owner),
        softwire: Ip6(2),
        src: Ip4(3),
        dst: Ip4(4),
        id,
        proto: 17,
    }
}

fn public(id: u16) -> PieceKey {
    PieceKey::Public {
        src: Ip4(4),
        dst: Ip4(3),
        id,
        proto: 17,
    }
}

// a datagram of each kind
fn keys() -> [PieceKey; 3] {
    [six(0, 7), inner(0, 7), public(7)]
}

fn is_wanted(offer: &Offer, wanted: Wanted<'_>) -> bool {
    match wanted {
        Wanted::Whole(body) => match offer {
            Offer::Whole { head, bytes } => head.as_slice() == HEAD && bytes.as_slice() == body,
            _ => false,
        },
        Wanted::Held => matches!(offer, Offer::Held),
        Wanted::Overlap => matches!(offer, Offer::Overlap),
        Wanted::TooMany => matches!(offer, Offer::TooMany),
        Wanted::TooLong => matches!(offer, Offer::TooLong),
        Wanted::Bad => matches!(offer, Offer::Bad),
    }
}

// offers the piece, and answers whether it got what is expected
fn passes(pieces: &mut Pieces, key: PieceKey, step: Step<'_>, now: u64) -> bool {
    let (offset, last, bytes, wanted) = step;
    // the header of a piece at another offset isn't the datagram's
    let head = if offset == 0 { HEAD } else { OTHER_HEAD };
    let piece = Piece {
        head,
        offset,
        last,
        bytes,
    };
    is_wanted(&pieces.offer(key, piece, Moment(now)), wanted)
}

// offers the pieces of one datagram in turn, and answers whether each got what is expected
fn all_pass(pieces: &mut Pieces, key: PieceKey, steps: &[Step<'_>]) -> bool {
    for step in steps {
        if !passes(pieces, key, *step, 1_000_000) {
            return false;
        }
    }
    true
}

const ORDERS: [[usize; 4]; 24] = [
    [0, 1, 2, 3],
    [0, 1, 3, 2],
    [0, 2, 1, 3],
    [0, 2, 3, 1],
    [0, 3, 1, 2],
    [0, 3, 2, 1],
    [1, 0, 2, 3],
    [1, 0, 3, 2],
    [1, 2, 0, 3],
    [1, 2, 3, 0],
    [1, 3, 0, 2],
    [1, 3, 2, 0],
    [2, 0, 1, 3],
    [2, 0, 3, 1],
    [2, 1, 0, 3],
    [2, 1, 3, 0],
    [2, 3, 0, 1],
    [2, 3, 1, 0],
    [3, 0, 1, 2],
    [3, 0, 2, 1],
    [3, 1, 0, 2],
    [3, 1, 2, 0],
    [3, 2, 0, 1],
    [3, 2, 1, 0],
];

// the pieces of the body, of 8, 16, 16 and 6 bytes
fn part(number: usize) -> (u32, bool, &'static [u8]) {
    match number {
        0 => (0, false, b"the firs"),
        1 => (8, false, b"t, the second, t"),
        2 => (24, false, b"he third, and th"),
        _ => (40, true, b"e last"),
    }
}

#[test]
fn every_order_makes_the_datagram(rt: HostRuntime) -> Result<(), Fail> {
    for key in keys() {
        for order in ORDERS {
            let mut pieces = Pieces::new(rt.alloc());
            for (at, number) in order.iter().enumerate() {
                let (offset, last, bytes) = part(*number);
                let wanted = if at == 3 {
                    Wanted::Whole(BODY)
                } else {
                    Wanted::Held
                };
                let step = (offset, last, bytes, wanted);
                assert!(rt;
                    passes(&mut pieces, key, step, 1_000_000),
                    "{order:?} at {at}"
                );
            }
        }
    }
    Ok(())
}

const A: &[u8] = b"abcdefgh";

const B: &[u8] = b"ijklmnop";

const AB: &[u8] = b"abcdefghijklmnop";

const ABC: &[u8] = b"abcdefghijklmnopqrstuvwx";

// Two pieces that can't be of one datagram.
type Pair = [(u32, bool, &'static [u8]); 2];

const PAIRS: [Pair; 12] = [
    // one has the other's front
    [(8, LAST, B), (0, MORE, AB)],
    // its back
    [(8, MORE, AB), (16, MORE, AB)],
    // its inside
    [(0, MORE, ABC), (8, MORE, B)],
    // all of it, and bytes behind it
    [(8, MORE, A), (8, MORE, AB)],
    // its first byte
    [(8, LAST, b"i"), (1, MORE, A)],
    // its last byte
    [(8, MORE, A), (15, LAST, b"h")],
    // other bytes at the same place
    [(8, MORE, A), (8, MORE, B)],
    [(8, MORE, A), (8, MORE, b"abcdefgH")],
    // the same bytes as the last
    [(8, MORE, B), (8, LAST, B)],
    // two last ones that end together
    [(8, LAST, b"abcdefghi"), (16, LAST, b"i")],
    // two that end apart
    [(8, LAST, A), (24, LAST, b"i")],
    // one that ends behind the last
    [(8, LAST, A), (16, MORE, B)],
];

// whether a piece that comes behind one that it can't be with ends the datagram, so that nothing of it is held
fn ends_both_ways(pieces: &mut Pieces, key: PieceKey, pair: Pair) -> bool {
    let [(at, last, bytes), (at2, last2, bytes2)] = pair;
    let steps: [Step<'_>; 5] = [
        (at, last, bytes, Wanted::Held),
        (at2, last2, bytes2, Wanted::Overlap),
        (at2, last2, bytes2, Wanted::Held),
        (at, last, bytes, Wanted::Overlap),
        (at, last, bytes, Wanted::Held),
    ];
    all_pass(pieces, key, &steps)
}

#[test]
fn pieces_that_overlap_give_the_datagram_up(rt: HostRuntime) {
    for key in keys() {
        for (number, pair) in PAIRS.iter().enumerate() {
            let mut pieces = Pieces::new(rt.alloc());
            assert!(rt; ends_both_ways(&mut pieces, key, *pair), "pair {number}");
        }
    }
}

// What comes of pieces of one datagram, in turn.
const CASES: [&[Step<'static>]; 5] = [
    // one comes again, and again after its datagram was whole
    &[
        (8, LAST, B, Wanted::Held),
        (8, LAST, B, Wanted::Held),
        (0, MORE, A, Wanted::Whole(AB)),
        (0, MORE, A, Wanted::Held),
        (0, MORE, A, Wanted::Held),
        (8, LAST, B, Wanted::Whole(AB)),
    ],
    // they share no byte
    &[
        (8, LAST, b"i", Wanted::Held),
        (0, MORE, A, Wanted::Whole(b"abcdefghi")),
    ],
    // what can't be with a held one is given up, and so is that
    &[
        (8, LAST, B, Wanted::Held),
        (0, MORE, AB, Wanted::Overlap),
        (0, MORE, A, Wanted::Held),
        (8, LAST, A, Wanted::Whole(b"abcdefghabcdefgh")),
    ],
    // no bytes
    &[
        (8, LAST, B, Wanted::Held),
        (0, MORE, b"", Wanted::Bad),
        (8, LAST, b"", Wanted::Bad),
        (16, LAST, b"", Wanted::Bad),
        (0, MORE, A, Wanted::Whole(AB)),
    ],
    // a length that isn't a multiple of 8
    &[
        (8, LAST, B, Wanted::Held),
        (0, MORE, b"a", Wanted::Bad),
        (0, MORE, b"abcdefg", Wanted::Bad),
        (0, MORE, b"abcdefghi", Wanted::Bad),
        (0, MORE, A, Wanted::Whole(AB)),
    ],
];

#[test]
fn pieces_that_come_again_or_are_bad_change_nothing(rt: HostRuntime) {
    for key in keys() {
        for (number, case) in CASES.iter().enumerate() {
            let mut pieces = Pieces::new(rt.alloc());
            assert!(rt; all_pass(&mut pieces, key, case), "case {number}");
        }
    }
}

#[test]
fn a_piece_that_is_all_of_an_ipv6_packet_touches_no_datagram(rt: HostRuntime) {
    let mut pieces = Pieces::new(rt.alloc());
    let steps: [Step<'_>; 4] = [
        (8, MORE, A, Wanted::Held),
        (0, LAST, AB, Wanted::Whole(AB)),
        (0, MORE, B, Wanted::Held),
        (16, LAST, A, Wanted::Whole(b"ijklmnopabcdefghabcdefgh")),
    ];
    assert!(rt; all_pass(&mut pieces, six(0, 7), &steps));
    let steps: [Step<'_>; 2] = [(8, MORE, A, Wanted::Held), (0, LAST, AB, Wanted::Overlap)];
    assert!(rt; all_pass(&mut pieces, inner(0, 7), &steps));
}

#[test]
fn a_datagram_has_128_pieces_at_most(rt: HostRuntime) {
    let mut pieces = Pieces::new(rt.alloc());
    for number in 0..128u32 {
        let step = (16 * number, MORE, A, Wanted::Held);
        assert!(rt; passes(&mut pieces, public(7), step, 1_000_000));
    }
    let steps: [Step<'_>; 3] = [
        (16, MORE, A, Wanted::Held),
        (8, MORE, B, Wanted::TooMany),
        (16, MORE, B, Wanted::TooMany),
    ];
    assert!(rt; all_pass(&mut pieces, public(7), &steps));
}

const SAME: &[u8] = b"aaaaaaaa";

#[test]
fn a_datagram_of_128_pieces_is_whole(rt: HostRuntime) -> Result<(), Fail> {
    let whole = vec![in rt.alloc(); b'a'; 1024]?;
    let mut pieces = Pieces::new(rt.alloc());
    for number in 1..128u32 {
        let step = (8 * number, number == 127, SAME, Wanted::Held);
        assert!(rt; passes(&mut pieces, public(7), step, 1_000_000));
    }
    let step = (0, MORE, SAME, Wanted::Whole(&whole));
    assert!(rt; passes(&mut pieces, public(7), step, 1_000_000));
    Ok(())
}

#[test]
fn a_datagram_of_129_pieces_is_none(rt: HostRuntime) {
    let mut pieces = Pieces::new(rt.alloc());
    for number in 1..129u32 {
        let step = (8 * number, number == 128, A, Wanted::Held);
        assert!(rt; passes(&mut pieces, public(7), step, 1_000_000));
    }
    let step = (0, MORE, A, Wanted::TooMany);
    assert!(rt; passes(&mut pieces, public(7), step, 1_000_000));
}

#[test]
fn a_subscriber_has_8_datagrams_in_both_families(rt: HostRuntime) {
    let mut pieces = Pieces::new(rt.alloc());
    for id in 0..4u16 {
        assert!(rt;
            passes(
                &mut pieces,
                six(0, u32::from(id)),
                (8, MORE, A, Wanted::Held),
                1_000_000
            )
        );
        assert!(rt;
            passes(
                &mut pieces,
                inner(0, id),
                (8, MORE, A, Wanted::Held),
                1_000_000
            )
        );
    }
    assert!(rt;
        passes(
            &mut pieces,
            six(0, 4),
            (8, MORE, A, Wanted::TooMany),
            1_000_000
        )
    );
    assert!(rt;
        passes(
            &mut pieces,
            inner(0, 4),
            (8, MORE, A, Wanted::TooMany),
            1_059_999
        )
    );
    assert!(rt;
        passes(
            &mut pieces,
            six(0, 3),
            (16, MORE, A, Wanted::Held),
            1_059_999
        )
    );
    assert!(rt;
        passes(
            &mut pieces,
            six(256, 4),
            (8, MORE, A, Wanted::Held),
            1_000_000
        )
    );
    assert!(rt;
        passes(
            &mut pieces,
            public(4),
            (8, MORE, A, Wanted::Held),
            1_000_000
        )
    );
    pieces.expire(Moment(1_059_999));
    assert!(rt;
        passes(
            &mut pieces,
            six(0, 4),
            (8, MORE, A, Wanted::TooMany),
            1_059_999
        )
    );
    pieces.expire(Moment(1_060_000));
    assert!(rt;
        passes(
            &mut pieces,
            six(0, 4),
            (8, MORE, A, Wanted::Held),
            1_060_000
        )
    );
}

#[test]
fn the_public_side_has_1024_datagrams(rt: HostRuntime) {
    let mut pieces = Pieces::new(rt.alloc());
    for id in 0..1024u16 {
        assert!(rt;
            passes(
                &mut pieces,
                public(id),
                (8, MORE, A, Wanted::Held),
                1_000_000
            )
        );
    }
    assert!(rt;
        passes(
            &mut pieces,
            public(1024),
            (8, MORE, A, Wanted::TooMany),
            1_000_000
        )
    );
    assert!(rt;
        passes(
            &mut pieces,
            six(0, 1024),
            (8, MORE, A, Wanted::Held),
            1_000_000
        )
    );
    pieces.clear();
    assert!(rt;
        passes(
            &mut pieces,
            public(1024),
            (8, MORE, A, Wanted::Held),
            1_000_000
        )
    );
}

// offers pieces of datagrams in turn, and answers whether each got what is expected
fn all_get(pieces: &mut Pieces, steps: &[(PieceKey, Step<'_>)]) -> bool {
    for (key, step) in steps {
        if !passes(pieces, *key, *step, 1_000_000) {
            return false;
        }
    }
    true
}

#[test]
fn a_datagram_that_is_whole_or_given_up_makes_room(rt: HostRuntime) {
    let mut pieces = Pieces::new(rt.alloc());
    for id in 0..8u16 {
        let step = (8, LAST, B, Wanted::Held);
        assert!(rt; passes(&mut pieces, inner(0, id), step, 1_000_000));
    }
    let steps: [(PieceKey, Step<'_>); 7] = [
        (six(0, 0), (8, MORE, A, Wanted::TooMany)),
        (inner(0, 0), (0, MORE, A, Wanted::Whole(AB))),
        (six(0, 0), (8, MORE, A, Wanted::Held)),
        (six(0, 1), (8, MORE, A, Wanted::TooMany)),
        (inner(0, 1), (8, MORE, A, Wanted::Overlap)),
        (six(0, 1), (8, MORE, A, Wanted::Held)),
        (six(0, 2), (8, MORE, A, Wanted::TooMany)),
    ];
    assert!(rt; all_get(&mut pieces, &steps));
}

#[test]
fn a_datagram_ends_at_65535_bytes(rt: HostRuntime) {
    let mut pieces = Pieces::new(rt.alloc());
    let steps: [Step<'_>; 4] = [
        (65_528, MORE, A, Wanted::TooLong),
        (65_528, LAST, A, Wanted::TooLong),
        (65_520, MORE, A, Wanted::Held),
        (65_528, LAST, b"abcdefg", Wanted::Held),
    ];
    assert!(rt; all_pass(&mut pieces, six(0, 7), &steps));
    let steps: [Step<'_>; 4] = [
        (65_512, MORE, A, Wanted::TooLong),
        (65_512, LAST, b"abcd", Wanted::TooLong),
        (65_504, MORE, A, Wanted::Held),
        (65_512, LAST, b"abc", Wanted::Held),
    ];
    assert!(rt; all_pass(&mut pieces, inner(0, 7), &steps));
    assert!(rt; all_pass(&mut pieces, public(7), &steps));
}

// whether a body is whole where it comes in two pieces, its end first
fn is_whole_in_two(pieces: &mut Pieces, key: PieceKey, body: &[u8]) -> bool {
    match body.split_at_checked(32_768) {
        Some((front, back)) => {
            passes(pieces, key, (32_768, LAST, back, Wanted::Held), 1_000_000)
                && passes(
                    pieces,
                    key,
                    (0, MORE, front, Wanted::Whole(body)),
                    1_000_000,
                )
        }
        None => false,
    }
}

#[test]
fn the_longest_datagrams_are_whole(rt: HostRuntime) -> Result<(), Fail> {
    let mut pieces = Pieces::new(rt.alloc());
    let six_body = vec![in rt.alloc(); 6u8; 65_535]?;
    assert!(rt; is_whole_in_two(&mut pieces, six(0, 7), &six_body));
    let body = vec![in rt.alloc(); 4u8; 65_515]?;
    assert!(rt; is_whole_in_two(&mut pieces, inner(0, 7), &body));
    assert!(rt; is_whole_in_two(&mut pieces, public(7), &body));
    Ok(())
}

// When datagrams are given up, and what the missing piece makes then: the first one came at 1,000,000.
const MOMENTS: [(u64, Wanted<'static>); 4] = [
    (0, Wanted::Whole(b"abcdefghijklmnopq")),
    (1_000_000, Wanted::Whole(b"abcdefghijklmnopq")),
    (1_059_999, Wanted::Whole(b"abcdefghijklmnopq")),
    (1_060_000, Wanted::Held),
];

#[test]
fn a_datagram_is_given_up_60_seconds_behind_its_first_piece(rt: HostRuntime) {
    for key in keys() {
        for (now, wanted) in MOMENTS {
            let mut pieces = Pieces::new(rt.alloc());
            // neither the same piece again nor another puts it off
            for (at, step) in [
                (1_000_000, (8, MORE, B, Wanted::Held)),
                (1_030_000, (8, MORE, B, Wanted::Held)),
                (1_059_999, (16, LAST, b"q", Wanted::Held)),
            ] {
                assert!(rt; passes(&mut pieces, key, step, at));
            }
            pieces.expire(Moment(now));
            assert!(rt;
                passes(&mut pieces, key, (0, MORE, A, wanted), now),
                "at {now}"
            );
        }
    }
}
