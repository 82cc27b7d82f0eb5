//! Records in turn, and what each brings.
ghost use Rattle.ingress.specs.Gathering.{AreKept};

use crate::packet::Packet;
use crate::public_side::from_public;
use crate::received::Sender;
use crate::refusal::Refusal;
use crate::softwire_side::from_softwire;
use aftr_base::{DropCause, Ip6, Moment, Subscriber, u128_in};
use cfg_text::Config;
use frag_reasm::Pieces;
use std::process::Abort;
use std::test::Fail;

// What a record brings. Bytes are hexadecimal digits, in parts that stand one behind another.
#[derive(Clone, Copy)]
enum Wanted {
    Packet(&'static [&'static str]),
    Held,
    Dropped(DropCause),
}

use Wanted::{Dropped, Held, Packet as Whole};

// A record from the softwire side, or from the public side, and what it brings.
#[derive(Clone, Copy)]
enum Record {
    Sent(&'static [&'static str], Wanted),
    Came(&'static [&'static str], Wanted),
}

use Record::{Came, Sent};

// the ends of the softwires of two subscribers, and others
const A: &str = "20010db8010000000000000000000002 20010db8000000000000000000000001";

const B: &str = "20010db8010001000000000000000002 20010db8000000000000000000000001";

const NOT_TO_US: &str = "20010db8010000000000000000000002 20010db8000000000000000000000002";

const UNKNOWN: &str = "20010db8ff0000000000000000000002 20010db8000000000000000000000001";

// an IPv6 header before 32 bytes of IPv4
const TUNNEL: &str = "60000000 0020 04 40";
// before a Fragment header and 16 bytes more, and the same of the first, the last and an overlapping one
const CUT: &str = "60000000 0018 2c 40";

const FIRST: &str = "0400 0001 00000007";

const LAST: &str = "0400 0010 00000007";

const OVERLAPPING: &str = "0400 0009 00000007";

// a UDP packet, as 16 bytes and 16 more
const P1: &str = "45000020000100004011 7ec4 c0000002";

const P2: &str = "cb007105 13880035000c2b4a61626364";

const WHOLE_RECORDS: [Record; 5] = [
    Sent(&[TUNNEL, A, P1, P2], Whole(&[P1, P2])),
    // behind Destination Options
    Sent(
        &["60000000 0028 3c 40", A, "0400040104010100", P1, P2],
        Whole(&[P1, P2]),
    ),
    // with bytes past the packet, which are left out
    Sent(&[TUNNEL, A, P1, P2, "ffff"], Whole(&[P1, P2])),
    // as a fragment that isn't one
    Sent(
        &["60000000 0028 2c 40", A, "0400 0000 00000007", P1, P2],
        Whole(&[P1, P2]),
    ),
    Came(&[REPLY], Whole(&[REPLY])),
];

const REPLY: &str = "45000020 00070000 4011 7cb8 cb007105 c0000208 003504000 00c38cc 61626364";

const REFUSED: [Record; 13] = [
    Sent(&["60000000 0020 04"], Dropped(DropCause::BadPacket)),
    Sent(&[TUNNEL, NOT_TO_US, P1, P2], Dropped(DropCause::NotUs)),
    Sent(
        &["60000000 0020 06 40", A, P1, P2],
        Dropped(DropCause::NotTunnel),
    ),
    Sent(
        &["60000000 0020 3c 40", A, "04ff", P1, P2],
        Dropped(DropCause::BadPacket),
    ),
    Sent(
        &[TUNNEL, UNKNOWN, P1, P2],
        Dropped(DropCause::UnknownSubscriber),
    ),
    Sent(
        &["60000000 0010 04 40", A, P1],
        Dropped(DropCause::BadPacket),
    ),
    Sent(
        &[
            "60000000 0024 04 40",
            A,
            "46000024 00010000 4011 7bbe c0000002 cb007105 01010101",
            "13880035000c2b4a61626364",
        ],
        Dropped(DropCause::Options),
    ),
    // a Fragment header in a packet that is whole already
    Sent(
        &[
            "60000000 0030 2c 40",
            A,
            "2c00 0000 00000007",
            "0400 0000 00000008",
            P1,
            P2,
        ],
        Dropped(DropCause::NotTunnel),
    ),
    // a fragment of no bytes, and one of 12 that others follow
    Sent(
        &["60000000 0008 2c 40", A, LAST],
        Dropped(DropCause::BadPacket),
    ),
    Sent(
        &["60000000 0014 2c 40", A, FIRST, "450000200001000040117ec4"],
        Dropped(DropCause::BadPacket),
    ),
    Came(&["450000200007"], Dropped(DropCause::BadPacket)),
    Came(
        &["46000024 00010000 4011 79b8 cb007105 c0000208 01010101 0035040000 0c38cc61626364"],
        Dropped(DropCause::Options),
    ),
    Came(
        &["4500001c 00070002 4011 7cb6 cb007105 c000020c 1112131415161718"],
        Dropped(DropCause::NotUs),
    ),
];

const FRAGMENTS: [Record; 8] = [
    Sent(&[CUT, A, LAST, P2], Held),
    // not of the same subscriber
    Sent(&[CUT, B, FIRST, P1], Held),
    Sent(&[CUT, A, LAST, P2], Held),
    Sent(&[CUT, A, FIRST, P1], Whole(&[P1, P2])),
    Sent(&[CUT, A, LAST, P2], Held),
    Sent(&[CUT, A, OVERLAPPING, P2], Dropped(DropCause::PieceOverlap)),
    Sent(&[CUT, A, FIRST, P1], Held),
    Sent(&[CUT, A, LAST, P2], Whole(&[P1, P2])),
];

// two pieces of an IPv4 packet that may not be cut further, and what they make
const INNER_FIRST: &str =
    "45280024 0009e000 4011 9e8f c0000002 cb007105 0102030405060708090a0b0c0d0e0f10";

const INNER_LAST: &str = "4510001c 00094002 3f11 3fae c0000002 cb007105";

const INNER_LAST_BYTES: &str = "1112131415161718";

const OTHER_PROTOCOL: &str = "4510001c 00094002 3f06 3fb9 c0000002 cb007105 1112131415161718";

const INNER: [&str; 3] = [
    "4528002c 00094000 4011 3e88 c0000002 cb007105",
    "0102030405060708090a0b0c0d0e0f10",
    INNER_LAST_BYTES,
];

const INNER_PIECES: [Record; 8] = [
    Sent(
        &["60000000 001c 04 40", A, INNER_LAST, INNER_LAST_BYTES],
        Held,
    ),
    Sent(&["60000000 0024 04 40", B, INNER_FIRST], Held),
    Sent(&["60000000 0024 04 40", A, INNER_FIRST], Whole(&INNER)),
    Sent(&["60000000 001c 04 40", A, OTHER_PROTOCOL], Held),
    Sent(&["60000000 0024 04 40", A, INNER_FIRST], Held),
    // the last piece in two fragments
    Sent(
        &[
            "60000000 0014 2c 40",
            A,
            "0400 0010 00000008",
            "cb007105",
            INNER_LAST_BYTES,
        ],
        Held,
    ),
    Sent(
        &[
            "60000000 0018 2c 40",
            A,
            "0400 0001 00000008",
            "4510001c 00094002 3f11 3fae c0000002",
        ],
        Whole(&INNER),
    ),
    Sent(
        &["60000000 001c 04 40", A, INNER_LAST, INNER_LAST_BYTES],
        Held,
    ),
];

const PUBLIC_FIRST: &str =
    "45000024 00072000 4011 5cb4 cb007105 c0000208 0102030405060708090a0b0c0d0e0f10";

const PUBLIC_LAST: &str = "4500001c 00070002 4011 7cba cb007105 c0000208 1112131415161718";

const PUBLIC: &str =
    "4500002c 00070000 4011 7cac cb007105 c0000208 0102030405060708090a0b0c0d0e0f10 1112131415161718";

const PUBLIC_PIECES: [Record; 7] = [
    Came(&[PUBLIC_LAST], Held),
    Came(&[PUBLIC_FIRST], Whole(&[PUBLIC])),
    Came(&[PUBLIC_FIRST], Held),
    // 16 bytes behind the first 8
    Came(
        &["45000024 00072001 4011 5cb3 cb007105 c0000208 090a0b0c0d0e0f101112131415161718"],
        Dropped(DropCause::PieceOverlap),
    ),
    Came(&[PUBLIC_LAST], Held),
    // 7 bytes that others follow, and 8 past the longest packet
    Came(
        &["4500001b 00072000 4011 5cbd cb007105 c0000208 01020304050607"],
        Dropped(DropCause::BadPacket),
    ),
    Came(
        &["4500001c 00071fff 4011 5cbd cb007105 c0000208 0102030405060708"],
        Dropped(DropCause::PieceTooLong),
    ),
];

const CASES: [&[Record]; 5] = [
    &WHOLE_RECORDS,
    &REFUSED,
    &FRAGMENTS,
    &INNER_PIECES,
    &PUBLIC_PIECES,
];

#[test]
fn records_bring_packets(rt: HostRuntime) -> Result<(), Fail> {
    let config = Config::defaults(rt.alloc())?;
    for (number, case) in CASES.iter().enumerate() {
        let failed = first_failure(&rt, &config, case);
        assert_eq!(rt; failed, None, "in case {number}");
    }
    Ok(())
}

// which record of a case brings something else
fn first_failure<R: Abort + AllocGlobal>(
    rt: &R,
    config: &Config,
    case: &[Record],
) -> Option<usize> {
    let mut pieces = Pieces::new(rt.alloc());
    for (number, record) in case.iter().enumerate() {
        let passes = match *record {
            Sent(parts, wanted) => sent(rt, config, &mut pieces, parts, wanted),
            Came(parts, wanted) => came(rt, config, &mut pieces, parts, wanted),
        };
        if !passes {
            return Some(number);
        }
    }
    None
}

fn sent<R: Abort + AllocGlobal>(
    rt: &R,
    config: &Config,
    pieces: &mut Pieces,
    parts: &[&str],
    wanted: Wanted,
) -> bool
    requires { AreKept pieces.old }
    ensures { AreKept pieces.new }
{
    let bytes = octets(rt, parts);
    match from_softwire(rt.alloc(), config, pieces, Moment(1_000_000), &bytes) {
        Ok(Some(received)) => {
            is_of(&received.who, &bytes) && brings(rt, Ok(Some(received.packet)), wanted)
        }
        Ok(None) => brings(rt, Ok(None), wanted),
        Err(refusal) => brings(rt, Err(refusal), wanted),
    }
}

fn came<R: Abort + AllocGlobal>(
    rt: &R,
    config: &Config,
    pieces: &mut Pieces,
    parts: &[&str],
    wanted: Wanted,
) -> bool
    requires { AreKept pieces.old }
    ensures { AreKept pieces.new }
{
    let bytes = octets(rt, parts);
    let answer = from_public(rt.alloc(), config, pieces, Moment(1_000_000), &bytes);
    brings(rt, answer, wanted)
}

fn brings<R: Abort + AllocGlobal>(
    rt: &R,
    answer: Result<Option<Packet<'_>>, Refusal>,
    wanted: Wanted,
) -> bool {
    match (answer, wanted) {
        (Ok(Some(packet)), Whole(parts)) => is_packet(rt, &packet, parts),
        (Ok(None), Held) => true,
        (Err(Refusal::Dropped(cause)), Dropped(why)) => cause == why,
        _ => false,
    }
}

// whether the packet has these bytes, and is read as they say
fn is_packet<R: Abort + AllocGlobal>(rt: &R, packet: &Packet<'_>, parts: &[&str]) -> bool {
    let bytes = octets(rt, parts);
    let view = packet.view();
    packet.bytes().starts_with(&bytes) && usize::from(view.fields().total) == bytes.len()
}

// whether the sender is that of a packet's source, which is A or B
fn is_of(who: &Sender, bytes: &[u8]) -> bool {
    if bytes.len() < 40 {
        return false;
    }
    let softwire = Ip6(u128_in(bytes, 8));
    who.softwire == softwire && who.owner == Subscriber(softwire.prefix(56))
}

// The bytes that the hexadecimal digits of these parts say. Spaces only part the digits.
fn octets<R: Abort + AllocGlobal>(rt: &R, parts: &[&str]) -> Vec<u8> {
    let mut digits = Vec::new(rt.alloc());
    for part in parts {
        for digit in part.as_bytes() {
            if *digit != b' ' {
                digits.push(*digit).expect(rt, "memory for a digit");
            }
        }
    }
    hex::decode(rt.alloc(), digits).expect(rt, "whole octets")
}
