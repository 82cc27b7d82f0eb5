//! Four pieces of a packet in each order: it leaves with the last of them, and not before.

use crate::case::{Case, RUN};
use crate::cuts::ORDERS;
use crate::driver::check_input;
use crate::logs::{Frame, LogFile};
use crate::octets::octets;
use crate::packets::{FIRST, FIRST_FRAME, FIRST_SENT};
use std::process::Abort;

// A record but for its moment: its length and kind, and what stands behind the moment.
#[derive(Clone, Copy)]
struct Record<'a> {
    head: &'a str,
    body: &'a str,
}

// The first packet, cut behind each eighth byte.
const FRAGMENTS: [Record<'static>; 4] = [
    Record {
        head: "00000041 01",
        body: "60000000 0010 2c 40 20010db8010000000000000000000002 20010db8000000000000000000000001
            04 00 0001 00000007 4500 0020 0001 0000",
    },
    Record {
        head: "00000041 01",
        body: "60000000 0010 2c 40 20010db8010000000000000000000002 20010db8000000000000000000000001
            04 00 0009 00000007 40 11 7ec4 c0000002",
    },
    Record {
        head: "00000041 01",
        body: "60000000 0010 2c 40 20010db8010000000000000000000002 20010db8000000000000000000000001
            04 00 0011 00000007 cb007105 1388 0035",
    },
    Record {
        head: "00000041 01",
        body: "60000000 0010 2c 40 20010db8010000000000000000000002 20010db8000000000000000000000001
            04 00 0018 00000007 000c 2b4a 61626364",
    },
];

// A datagram of 32 bytes, cut behind each eighth of them.
const PIECES: [Record<'static>; 4] = [
    Record {
        head: "0000004d 01",
        body: "60000000 001c 04 40 20010db8010000000000000000000002 20010db8000000000000000000000001
            4500 001c 0001 2000 40 11 5ec8 c0000002 cb007105 1388 0035 0020 dac7",
    },
    Record {
        head: "0000004d 01",
        body: "60000000 001c 04 40 20010db8010000000000000000000002 20010db8000000000000000000000001
            4500 001c 0001 2001 40 11 5ec7 c0000002 cb007105 6162636465666768",
    },
    Record {
        head: "0000004d 01",
        body: "60000000 001c 04 40 20010db8010000000000000000000002 20010db8000000000000000000000001
            4500 001c 0001 2002 40 11 5ec6 c0000002 cb007105 696a6b6c6d6e6f70",
    },
    Record {
        head: "0000004d 01",
        body: "60000000 001c 04 40 20010db8010000000000000000000002 20010db8000000000000000000000001
            4500 001c 0001 0003 40 11 7ec5 c0000002 cb007105 7172737475767778",
    },
];

// A reply of 32 bytes, cut behind each eighth of them.
const REPLIES: [Record<'static>; 4] = [
    Record {
        head: "00000025 02",
        body: "4500 001c 0007 2000 40 11 5cbc cb007105 c0000208 0035 0400 0020 e849",
    },
    Record {
        head: "00000025 02",
        body: "4500 001c 0007 2001 40 11 5cbb cb007105 c0000208 6162636465666768",
    },
    Record {
        head: "00000025 02",
        body: "4500 001c 0007 2002 40 11 5cba cb007105 c0000208 696a6b6c6d6e6f70",
    },
    Record {
        head: "00000025 02",
        body: "4500 001c 0007 0003 40 11 7cb9 cb007105 c0000208 7172737475767778",
    },
];

// What comes of them, where the last of four comes at 1,000,003.
const FOURTH_FRAME: Frame<'static> = Frame {
    horizon: Some("00000000000f4243 00000000000f4a13"),
    blocks: &["00000000000f4243 10 20010db8010000000000000000000000 38 c0000208 0400 05ff"],
};

const FRAGMENTS_MAKE: Case<'static> = Case {
    name: "four fragments",
    report: "records 4\nsent 1\nmarks 0\n",
    sent: &[
        "00000029 02 00000000000f4243",
        "4500 0020 0001 0000 3f 11 7dbe c0000208 cb007105 0400 0035 000c 38cc 61626364",
    ],
    log_after: LogFile::Frames(&[FOURTH_FRAME]),
    ..RUN
};

const PIECES_MAKE: Case<'static> = Case {
    name: "four pieces of a subscriber",
    report: "records 4\nsent 1\nmarks 0\n",
    sent: &[
        "0000003d 02 00000000000f4243
        4500 0034 0001 0000 3f 11 7daa c0000208 cb007105
        0400 0035 0020 e849 6162636465666768696a6b6c6d6e6f707172737475767778",
    ],
    log_after: LogFile::Frames(&[FOURTH_FRAME]),
    ..RUN
};

const REPLIES_MAKE: Case<'static> = Case {
    name: "four pieces of the public side",
    report: "records 5\nsent 2\nmarks 0\n",
    sent: &[
        FIRST_SENT,
        "00000065 01 00000000000f4243
        60000000 0034 04 40 20010db8000000000000000000000001 20010db8010000000000000000000002
        4500 0034 0007 0000 3f 11 7faa cb007105 c0000002
        0035 1388 0020 dac7 6162636465666768696a6b6c6d6e6f707172737475767778",
    ],
    log_after: LogFile::Frames(&[FIRST_FRAME]),
    ..RUN
};

// Checks a run over these records behind others, the first one at 1,000,000 and each a millisecond behind the one before, in
// each order.
fn check_orders<R: Abort + AllocGlobal>(
    rt: &R,
    case: &Case<'_>,
    before: &[&str],
    records: &[Record<'_>; 4],
) {
    for order in ORDERS {
        let mut input = octets(rt, before);
        for (place, number) in order.iter().enumerate() {
            let record = records.get(*number).expect(rt, "a record");
            add(rt, &mut input, record, 1_000_000 + place as u64);
        }
        check_input(rt, case, &input);
    }
}

// Adds a record of a moment.
fn add<R: Abort + AllocGlobal>(rt: &R, input: &mut Vec<u8>, record: &Record<'_>, at: u64) {
    let moment = format!(in rt.alloc(); "{at:016x}").expect(rt, "memory for a moment");
    let bytes = octets(rt, &[record.head, moment.as_str(), record.body]);
    input
        .extend_from_slice(&bytes)
        .expect(rt, "memory for an input");
}

#[test]
fn fragments_of_a_subscriber_in_each_order(rt: HostRuntime) {
    check_orders(&rt, &FRAGMENTS_MAKE, &[], &FRAGMENTS);
}

#[test]
fn pieces_of_a_subscriber_in_each_order(rt: HostRuntime) {
    check_orders(&rt, &PIECES_MAKE, &[], &PIECES);
}

#[test]
fn pieces_of_the_public_side_in_each_order(rt: HostRuntime) {
    check_orders(&rt, &REPLIES_MAKE, &FIRST, &REPLIES);
}
