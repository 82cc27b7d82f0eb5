//! Inputs that come in pieces, and inputs that are cut short.

use crate::case::{Case, ONE_PACKET, RUN};
use crate::driver::{Cut, check_all, check_cuts};
use crate::logs::LogFile;
use crate::packets::{ELSEWHERE, FIRST_FRAME, FIRST_SENT, HEAD, PACKET};

// A packet, a tick, and a packet that is older than the tick: records of 85, 13 and 85 bytes.
const THREE_RECORDS: [&str; 5] = [
    HEAD,
    PACKET,
    "00000009 03 00000000000f4500",
    "00000051 01 00000000000f4434",
    ELSEWHERE,
];

// The older packet goes out at the tick's moment.
const OLDER_SENT: &str = "00000029 02 00000000000f4500
    4500 0020 0001 0000 3f 11 7dbd c0000208 cb007106 0400 0035 000c 38cb 61626364";

const PIECES: Case<'static> = Case {
    name: "pieces",
    input: &THREE_RECORDS,
    report: "records 3\nsent 2\nmarks 0\n",
    sent: &[FIRST_SENT, OLDER_SENT],
    log_after: LogFile::Frames(&[FIRST_FRAME]),
    ..RUN
};

static SIZES: [Case<'static>; 7] = [
    Case { piece: 1, ..PIECES },
    Case { piece: 2, ..PIECES },
    Case { piece: 3, ..PIECES },
    Case { piece: 7, ..PIECES },
    Case {
        piece: 13,
        ..PIECES
    },
    Case {
        piece: 64,
        ..PIECES
    },
    Case {
        piece: 1000,
        ..PIECES
    },
];

// The beginnings of the three records stand in the place of the inputs of these cases.
static CUTS: [Cut<'static>; 7] = [
    Cut {
        end: 1,
        ending: RUN,
    },
    Cut {
        end: 85,
        ending: Case {
            name: "cut in the first record",
            status: "BadInput { input: 0, offset: 0 }",
            report: "fault BadInput 0 0\n",
            ..RUN
        },
    },
    Cut {
        end: 86,
        ending: ONE_PACKET,
    },
    Cut {
        end: 98,
        ending: Case {
            name: "cut in the tick",
            status: "BadInput { input: 0, offset: 85 }",
            report: "fault BadInput 0 85\n",
            ..ONE_PACKET
        },
    },
    Cut {
        end: 99,
        ending: Case {
            name: "the tick is whole",
            report: "records 2\nsent 1\nmarks 0\n",
            ..ONE_PACKET
        },
    },
    Cut {
        end: 183,
        ending: Case {
            name: "cut in the older packet",
            status: "BadInput { input: 0, offset: 98 }",
            report: "fault BadInput 0 98\n",
            ..ONE_PACKET
        },
    },
    Cut {
        end: 184,
        ending: PIECES,
    },
];

// A run whose second record is cut in the packet that it holds.
const SECOND_IS_CUT: Case<'static> = Case {
    name: "a second record that is cut",
    status: "BadInput { input: 0, offset: 85 }",
    report: "fault BadInput 0 85\n",
    ..ONE_PACKET
};

static CUT_PACKETS: [Case<'static>; 2] = [
    Case {
        input: &[HEAD, PACKET, HEAD, "60000000 0020 04"],
        ..SECOND_IS_CUT
    },
    Case {
        input: &[
            HEAD,
            PACKET,
            "00000029 02 00000000000f43d0",
            "4500 0020 0007 0000",
        ],
        ..SECOND_IS_CUT
    },
];

#[test]
fn pieces_of_any_size(rt: HostRuntime) {
    check_all(&rt, &SIZES);
}

#[test]
fn an_input_cut_at_every_byte(rt: HostRuntime) {
    check_cuts(&rt, &THREE_RECORDS, &CUTS);
}

#[test]
fn packets_of_both_sides_that_are_cut(rt: HostRuntime) {
    check_all(&rt, &CUT_PACKETS);
}
