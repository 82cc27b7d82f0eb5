//! Blocks that close, and whose they are then: another subscriber's once the hold of 120 s is over, and their own
//! subscriber's at every moment after the one at which they closed.

use crate::case::{Case, RUN};
use crate::driver::{check, check_all};
use crate::logs::{Frame, LogFile};
use crate::packets::{
    CLOSED_FRAME, DATAGRAM, FIRST_CLOSED, FIRST_FRAME, FIRST_SENT, HEAD, INNER, NEXT_HEAD, OTHER,
    OTHER_FRAME, OTHER_SENT, PACKET,
};

// A tick at the first packet's deadline, 1,300,000, closes its block.
const TICK: &str = "00000009 03 000000000013d620";

// A record of 81 bytes in the last millisecond of the hold, 1,419,999, and at its end.
const HELD: &str = "00000051 01 000000000015aadf";

const FREE: &str = "00000051 01 000000000015aae0";

static HOLDS: [Case<'static>; 2] = [
    Case {
        name: "another subscriber in the hold's last millisecond gets the next block",
        input: &[HEAD, PACKET, TICK, HELD, OTHER],
        report: "records 3\nsent 2\nmarks 0\n",
        sent: &[
            FIRST_SENT,
            "00000029 02 000000000015aadf
            4500 0020 0001 0000 3f 11 7dbe c0000208 cb007105 0600 0035 000c 36cc 61626364",
        ],
        log_after: LogFile::Frames(&[
            FIRST_FRAME,
            CLOSED_FRAME,
            Frame {
                horizon: Some("000000000015aadf 000000000015b2af"),
                blocks: &[
                    "000000000015aadf 10 20010db8010001000000000000000000 38 c0000208 0600 07ff",
                ],
            },
        ]),
        ..RUN
    },
    Case {
        name: "another subscriber at the hold's end gets the block",
        input: &[HEAD, PACKET, TICK, FREE, OTHER],
        report: "records 3\nsent 2\nmarks 0\n",
        sent: &[
            FIRST_SENT,
            "00000029 02 000000000015aae0
            4500 0020 0001 0000 3f 11 7dbe c0000208 cb007105 0400 0035 000c 38cc 61626364",
        ],
        log_after: LogFile::Frames(&[
            FIRST_FRAME,
            CLOSED_FRAME,
            Frame {
                horizon: Some("000000000015aae0 000000000015b2b0"),
                blocks: &[
                    "000000000015aae0 10 20010db8010001000000000000000000 38 c0000208 0400 05ff",
                ],
            },
        ]),
        ..RUN
    },
];

// Two blocks close at the second one's deadline, 1,300,001.
static LEAST_FIRST: Case<'static> = Case {
    name: "two holds end at once: the least block goes first",
    input: &[
        HEAD,
        PACKET,
        NEXT_HEAD,
        OTHER,
        "00000009 03 000000000013d621",
        // A third subscriber in the last millisecond of both holds, and then two more at their end.
        FREE,
        "60000000 0020 04 40 20010db8010002000000000000000002 20010db8000000000000000000000001",
        INNER,
        DATAGRAM,
        "00000051 01 000000000015aae1",
        "60000000 0020 04 40 20010db8010003000000000000000002 20010db8000000000000000000000001",
        INNER,
        DATAGRAM,
        "00000051 01 000000000015aae1",
        "60000000 0020 04 40 20010db8010004000000000000000002 20010db8000000000000000000000001",
        INNER,
        DATAGRAM,
    ],
    report: "records 6\nsent 5\nmarks 0\n",
    sent: &[
        FIRST_SENT,
        OTHER_SENT,
        "00000029 02 000000000015aae0
        4500 0020 0001 0000 3f 11 7dbe c0000208 cb007105 0800 0035 000c 34cc 61626364",
        "00000029 02 000000000015aae1
        4500 0020 0001 0000 3f 11 7dbe c0000208 cb007105 0400 0035 000c 38cc 61626364",
        "00000029 02 000000000015aae1
        4500 0020 0001 0000 3f 11 7dbe c0000208 cb007105 0600 0035 000c 36cc 61626364",
    ],
    log_after: LogFile::Frames(&[
        FIRST_FRAME,
        OTHER_FRAME,
        Frame {
            horizon: None,
            blocks: &[
                "000000000013d621 11 20010db8010000000000000000000000 38 c0000208 0400 05ff",
                "000000000013d621 11 20010db8010001000000000000000000 38 c0000208 0600 07ff",
            ],
        },
        Frame {
            horizon: Some("000000000015aae0 000000000015b2b0"),
            blocks: &["000000000015aae0 10 20010db8010002000000000000000000 38 c0000208 0800 09ff"],
        },
        Frame {
            horizon: None,
            blocks: &["000000000015aae1 10 20010db8010003000000000000000000 38 c0000208 0400 05ff"],
        },
        Frame {
            horizon: None,
            blocks: &["000000000015aae1 10 20010db8010004000000000000000000 38 c0000208 0600 07ff"],
        },
    ]),
    ..RUN
};

static OWN_BLOCKS: [Case<'static>; 2] = [
    Case {
        name: "the same subscriber at the moment at which its block closed gets the next one",
        input: &[HEAD, PACKET, "00000051 01 000000000013d620", PACKET],
        report: "records 2\nsent 2\nmarks 0\n",
        sent: &[
            FIRST_SENT,
            "00000029 02 000000000013d620
            4500 0020 0001 0000 3f 11 7dbe c0000208 cb007105 0600 0035 000c 36cc 61626364",
        ],
        log_after: LogFile::Frames(&[
            FIRST_FRAME,
            Frame {
                horizon: Some("000000000013d620 000000000013ddf0"),
                blocks: &[
                    FIRST_CLOSED,
                    "000000000013d620 10 20010db8010000000000000000000000 38 c0000208 0600 07ff",
                ],
            },
        ]),
        ..RUN
    },
    Case {
        name: "the same subscriber a millisecond later gets its block again",
        input: &[HEAD, PACKET, TICK, "00000051 01 000000000013d621", PACKET],
        report: "records 3\nsent 2\nmarks 0\n",
        sent: &[
            FIRST_SENT,
            "00000029 02 000000000013d621
            4500 0020 0001 0000 3f 11 7dbe c0000208 cb007105 0400 0035 000c 38cc 61626364",
        ],
        log_after: LogFile::Frames(&[
            FIRST_FRAME,
            CLOSED_FRAME,
            Frame {
                horizon: Some("000000000013d621 000000000013ddf1"),
                blocks: &[
                    "000000000013d621 10 20010db8010000000000000000000000 38 c0000208 0400 05ff",
                ],
            },
        ]),
        ..RUN
    },
];

#[test]
fn a_closed_block_is_held(rt: HostRuntime) {
    check_all(&rt, &HOLDS);
}

#[test]
fn the_least_free_block_goes_first(rt: HostRuntime) {
    check(&rt, &LEAST_FIRST);
}

#[test]
fn a_subscriber_gets_its_own_block_again(rt: HostRuntime) {
    check_all(&rt, &OWN_BLOCKS);
}
