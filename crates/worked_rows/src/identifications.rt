//! The identifications of packets that are cut for a softwire: they are counted for each subscriber by itself, from 0 in each
//! run (RFC 8200 section 4.5).

use crate::case::{Case, RUN};
use crate::driver::check_all;
use crate::logs::{Frame, LogFile};
use crate::packets::{
    CLOSED_FRAME, FIRST_FRAME, FIRST_SENT, HEAD, NEXT_HEAD, OTHER, OTHER_FRAME, OTHER_SENT, PACKET,
    REPLY, REPLY_SENT,
};
use crate::restarts::RECOVERED;
use aftr_base::DropCause;

// Datagrams of 1,461 bytes from 203.0.113.5 to ports of 192.0.2.8: to the first packet's place, to the next one in its block, and to
// the other subscriber's.
const TO_FIRST: &str = "000005be 02 00000000000f4241
    4500 05b5 0007 0000 40 11 7723 cb007105 c0000208
    0035 0400 05a1 0000 61x1373 62x60";

const TO_SECOND: &str = "000005be 02 00000000000f4241
    4500 05b5 0007 0000 40 11 7723 cb007105 c0000208
    0035 0401 05a1 0000 61x1373 62x60";

const TO_OTHER: &str = "000005be 02 00000000000f4241
    4500 05b5 0007 0000 40 11 7723 cb007105 c0000208
    0035 0600 05a1 0000 61x1373 62x60";

// The fragments of one as it goes to the first packet's sender, up to their identifications.
const FRONT: &str = "000005e1 01 00000000000f4241
    60000000 05b0 2c 40
    20010db8000000000000000000000001 20010db8010000000000000000000002
    04 00 0001";

const BACK: &str = "00000046 01 00000000000f4241
    60000000 0015 2c 40
    20010db8000000000000000000000001 20010db8010000000000000000000002
    04 00 05a8";

// To a further softwire of the same subscriber.
const NEXT_FRONT: &str = "000005e1 01 00000000000f4241
    60000000 05b0 2c 40
    20010db8000000000000000000000001 20010db8010000000000000000000003
    04 00 0001";

const NEXT_BACK: &str = "00000046 01 00000000000f4241
    60000000 0015 2c 40
    20010db8000000000000000000000001 20010db8010000000000000000000003
    04 00 05a8";

// To the other subscriber.
const OTHER_FRONT: &str = "000005e1 01 00000000000f4241
    60000000 05b0 2c 40
    20010db8000000000000000000000001 20010db8010001000000000000000002
    04 00 0001";

const OTHER_BACK: &str = "00000046 01 00000000000f4241
    60000000 0015 2c 40
    20010db8000000000000000000000001 20010db8010001000000000000000002
    04 00 05a8";

// What the fragments carry. Their last 13 bytes are the same in all packets here.
const DATAGRAM: &str = "4500 05b5 0007 0000 3f 11 7a29 cb007105 c0000002
    0035 1388 05a1 0000 61x1373 62x47";

const END: &str = "62x13";

// The first packet by the further softwire, and what goes out: from the port 1025.
const NEXT_SOFTWIRE: &str = "00000051 01 00000000000f4240
    60000000 0020 04 40
    20010db8010000000000000000000003 20010db8000000000000000000000001
    4500 0020 0001 0000 40 11 7ec4 c0000002 cb007105
    1388 0035 000c 2b4a 61626364";

const NEXT_SOFTWIRE_SENT: &str = "00000029 02 00000000000f4240
    4500 0020 0001 0000 3f 11 7dbe c0000208 cb007105
    0401 0035 000c 38cb 61626364";

// From the other subscriber to the first, and what the first fragment carries.
const FROM_OTHER: &str = "000005e6 01 00000000000f4241
    60000000 05b5 04 40
    20010db8010001000000000000000002 20010db8000000000000000000000001
    4500 05b5 0001 0000 40 11 f32c c0000002 c0000208
    1388 0400 05a1 7f9e 61x1373 62x60";

const FROM_OTHER_CARRIED: &str = "4500 05b5 0001 0000 3f 11 f42c c0000208 c0000002
    0600 1388 05a1 7d9e 61x1373 62x47";

// Port Unreachable about a packet of the first subscriber, from 203.0.113.5.
const ERROR_IN: &str = "000005be 02 00000000000f4241
    4500 05b5 0002 0000 39 01 7e38 cb007105 c0000208
    03 03 6b1b 00000000
    4500 0599 0001 0000 39 11 7e45 c0000208 cb007105
    0400 0035 0585 0000 61x1345 62x60";

const ERROR_IN_CARRIED: &str = "4500 05b5 0002 0000 38 01 813e cb007105 c0000002
    03 03 5b93 00000000
    4500 0599 0001 0000 39 11 804b c0000002 cb007105
    1388 0035 0585 0000 61x1345 62x47";

// And from the other subscriber.
const ERROR_BETWEEN: &str = "000005e6 01 00000000000f4241
    60000000 05b5 04 40
    20010db8010001000000000000000002 20010db8000000000000000000000001
    4500 05b5 0004 0000 40 01 f339 c0000002 c0000208
    03 03 57c8 00000000
    4500 0599 0001 0000 3f 11 f448 c0000208 c0000002
    0400 1388 0585 0000 61x1345 62x60";

const ERROR_BETWEEN_CARRIED: &str = "4500 05b5 0004 0000 3f 01 f439 c0000208 c0000002
    03 03 55c8 00000000
    4500 0599 0001 0000 3f 11 f448 c0000002 c0000208
    1388 0600 0585 0000 61x1345 62x47";

// To a port that nobody has, and to the first packet's place with a TTL of 1.
const TO_NOBODY: &str = "000005be 02 00000000000f4241
    4500 05b5 0007 0000 40 11 7723 cb007105 c0000208
    0035 0402 05a1 0000 61x1373 62x60";

const SPENT: &str = "000005be 02 00000000000f4241
    4500 05b5 0007 0000 01 11 b623 cb007105 c0000208
    0035 0400 05a1 0000 61x1373 62x60";

// A packet of 1,501 bytes of the first subscriber, and the pieces in which it goes out.
const LONG_OUT: &str = "0000060e 01 00000000000f4241
    60000000 05dd 04 40
    20010db8010000000000000000000002 20010db8000000000000000000000001
    4500 05dd 0001 0000 40 11 7907 c0000002 cb007105
    1388 0035 05c9 0000 61x1413 62x60";

const LONG_OUT_FIRST: &str = "000005e5 02 00000000000f4241
    4500 05dc 0001 2000 3f 11 5802 c0000208 cb007105
    0400 0035 05c9 0000 61x1413 62x59";

const LONG_OUT_LAST: &str = "0000001e 02 00000000000f4241
    4500 0015 0001 00b9 3f 11 7d10 c0000208 cb007105
    62";

// The first packet a millisecond behind its mapping's deadline, what goes out, and a datagram then with its fragments' heads.
const ANEW: &str = "00000051 01 000000000013d621";

const ANEW_SENT: &str = "00000029 02 000000000013d621
    4500 0020 0001 0000 3f 11 7dbe c0000208 cb007105
    0400 0035 000c 38cc 61626364";

const ANEW_TO_FIRST: &str = "000005be 02 000000000013d621
    4500 05b5 0007 0000 40 11 7723 cb007105 c0000208
    0035 0400 05a1 0000 61x1373 62x60";

const ANEW_FRONT: &str = "000005e1 01 000000000013d621
    60000000 05b0 2c 40
    20010db8000000000000000000000001 20010db8010000000000000000000002
    04 00 0001";

const ANEW_BACK: &str = "00000046 01 000000000013d621
    60000000 0015 2c 40
    20010db8000000000000000000000001 20010db8010000000000000000000002
    04 00 05a8";

// The same a millisecond behind the horizon of the log that the first packet leaves, 1,002,000.
const RESTARTED: &str = "00000051 01 00000000000f4a11";

const RESTARTED_SENT: &str = "00000029 02 00000000000f4a11
    4500 0020 0001 0000 3f 11 7dbe c0000208 cb007105
    0400 0035 000c 38cc 61626364";

const RESTARTED_TO_FIRST: &str = "000005be 02 00000000000f4a11
    4500 05b5 0007 0000 40 11 7723 cb007105 c0000208
    0035 0400 05a1 0000 61x1373 62x60";

const RESTARTED_FRONT: &str = "000005e1 01 00000000000f4a11
    60000000 05b0 2c 40
    20010db8000000000000000000000001 20010db8010000000000000000000002
    04 00 0001";

const RESTARTED_BACK: &str = "00000046 01 00000000000f4a11
    60000000 0015 2c 40
    20010db8000000000000000000000001 20010db8010000000000000000000002
    04 00 05a8";

const FIRST_ID: &str = "00000000";

const SECOND_ID: &str = "00000001";

const THIRD_ID: &str = "00000002";

const FOURTH_ID: &str = "00000003";

// Runs of one sender, and of two.
const ONE: Case<'static> = Case {
    log_after: LogFile::Frames(&[FIRST_FRAME]),
    ..RUN
};

const TWO: Case<'static> = Case {
    log_after: LogFile::Frames(&[FIRST_FRAME, OTHER_FRAME]),
    ..RUN
};

static SUBSCRIBERS: [Case<'static>; 3] = [
    Case {
        name: "two softwires of one subscriber",
        input: &[HEAD, PACKET, NEXT_SOFTWIRE, TO_FIRST, TO_SECOND],
        report: "records 4\nsent 6\nmarks 0\n",
        sent: &[
            FIRST_SENT,
            NEXT_SOFTWIRE_SENT,
            FRONT,
            FIRST_ID,
            DATAGRAM,
            BACK,
            FIRST_ID,
            END,
            NEXT_FRONT,
            SECOND_ID,
            DATAGRAM,
            NEXT_BACK,
            SECOND_ID,
            END,
        ],
        ..ONE
    },
    Case {
        name: "two subscribers",
        input: &[
            HEAD, PACKET, NEXT_HEAD, OTHER, TO_FIRST, TO_OTHER, TO_OTHER, TO_FIRST,
        ],
        report: "records 6\nsent 10\nmarks 0\n",
        sent: &[
            FIRST_SENT,
            OTHER_SENT,
            FRONT,
            FIRST_ID,
            DATAGRAM,
            BACK,
            FIRST_ID,
            END,
            OTHER_FRONT,
            FIRST_ID,
            DATAGRAM,
            OTHER_BACK,
            FIRST_ID,
            END,
            OTHER_FRONT,
            SECOND_ID,
            DATAGRAM,
            OTHER_BACK,
            SECOND_ID,
            END,
            FRONT,
            SECOND_ID,
            DATAGRAM,
            BACK,
            SECOND_ID,
            END,
        ],
        ..TWO
    },
    Case {
        name: "one that fits between",
        input: &[
            HEAD,
            PACKET,
            TO_FIRST,
            "00000029 02 00000000000f4241",
            REPLY,
            TO_FIRST,
        ],
        report: "records 4\nsent 6\nmarks 0\n",
        sent: &[
            FIRST_SENT,
            FRONT,
            FIRST_ID,
            DATAGRAM,
            BACK,
            FIRST_ID,
            END,
            "00000051 01 00000000000f4241",
            REPLY_SENT,
            FRONT,
            SECOND_ID,
            DATAGRAM,
            BACK,
            SECOND_ID,
            END,
        ],
        ..ONE
    },
];

static COUNTED: [Case<'static>; 2] = [
    Case {
        name: "from outside, from the other subscriber, errors from both, and one to the other subscriber",
        input: &[
            HEAD,
            PACKET,
            NEXT_HEAD,
            OTHER,
            TO_FIRST,
            FROM_OTHER,
            ERROR_IN,
            ERROR_BETWEEN,
            TO_OTHER,
        ],
        report: "records 7\nsent 12\nmarks 0\n",
        sent: &[
            FIRST_SENT,
            OTHER_SENT,
            FRONT,
            FIRST_ID,
            DATAGRAM,
            BACK,
            FIRST_ID,
            END,
            FRONT,
            SECOND_ID,
            FROM_OTHER_CARRIED,
            BACK,
            SECOND_ID,
            END,
            FRONT,
            THIRD_ID,
            ERROR_IN_CARRIED,
            BACK,
            THIRD_ID,
            END,
            FRONT,
            FOURTH_ID,
            ERROR_BETWEEN_CARRIED,
            BACK,
            FOURTH_ID,
            END,
            OTHER_FRONT,
            FIRST_ID,
            DATAGRAM,
            OTHER_BACK,
            FIRST_ID,
            END,
        ],
        ..TWO
    },
    Case {
        name: "but not what is dropped, nor what is cut for the public side",
        input: &[HEAD, PACKET, TO_NOBODY, SPENT, LONG_OUT, TO_FIRST],
        report: "records 5\nsent 5\nmarks 0\ndrop TtlSpent 1\ndrop NoMapping 1\n",
        sent: &[
            FIRST_SENT,
            LONG_OUT_FIRST,
            LONG_OUT_LAST,
            FRONT,
            FIRST_ID,
            DATAGRAM,
            BACK,
            FIRST_ID,
            END,
        ],
        drops: &[(DropCause::TtlSpent, 1), (DropCause::NoMapping, 1)],
        ..ONE
    },
];

static KEPT: [Case<'static>; 2] = [
    Case {
        name: "behind a tick and a change",
        input: &[
            HEAD,
            PACKET,
            TO_FIRST,
            "00000009 03 00000000000f4241",
            "0000000a 04 00000000000f4241 20",
            TO_FIRST,
        ],
        report: "records 5\nsent 5\nmarks 0\ndrop BadChange 1\n",
        sent: &[
            FIRST_SENT, FRONT, FIRST_ID, DATAGRAM, BACK, FIRST_ID, END, FRONT, SECOND_ID, DATAGRAM,
            BACK, SECOND_ID, END,
        ],
        drops: &[(DropCause::BadChange, 1)],
        ..ONE
    },
    Case {
        name: "behind the end of all its mappings and blocks",
        input: &[
            HEAD,
            PACKET,
            TO_FIRST,
            "00000009 03 000000000013d620",
            ANEW,
            PACKET,
            ANEW_TO_FIRST,
        ],
        report: "records 5\nsent 6\nmarks 0\n",
        sent: &[
            FIRST_SENT, FRONT, FIRST_ID, DATAGRAM, BACK, FIRST_ID, END, ANEW_SENT, ANEW_FRONT,
            SECOND_ID, DATAGRAM, ANEW_BACK, SECOND_ID, END,
        ],
        log_after: LogFile::Frames(&[
            FIRST_FRAME,
            CLOSED_FRAME,
            Frame {
                horizon: Some("000000000013d621 000000000013ddf1"),
                blocks: &[
                    "000000000013d621 10 20010db8010000000000000000000000 38 c0000208 0400 05ff",
                ],
            },
        ]),
        ..RUN
    },
];

// The second run goes on with the log that the first one leaves.
static RUNS: [Case<'static>; 2] = [
    Case {
        name: "a run",
        input: &[HEAD, PACKET, TO_FIRST, TO_FIRST],
        report: "records 3\nsent 5\nmarks 0\n",
        sent: &[
            FIRST_SENT, FRONT, FIRST_ID, DATAGRAM, BACK, FIRST_ID, END, FRONT, SECOND_ID, DATAGRAM,
            BACK, SECOND_ID, END,
        ],
        ..ONE
    },
    Case {
        name: "and the next",
        input: &[RESTARTED, PACKET, RESTARTED_TO_FIRST],
        log: LogFile::Frames(&[FIRST_FRAME]),
        report: "records 2\nsent 3\nmarks 0\n",
        sent: &[
            RESTARTED_SENT,
            RESTARTED_FRONT,
            FIRST_ID,
            DATAGRAM,
            RESTARTED_BACK,
            FIRST_ID,
            END,
        ],
        log_after: LogFile::Frames(&[
            FIRST_FRAME,
            RECOVERED,
            Frame {
                horizon: Some("00000000000f4a11 00000000000f51e1"),
                blocks: &[
                    "00000000000f4a11 10 20010db8010000000000000000000000 38 c0000208 0400 05ff",
                ],
            },
        ]),
        ..RUN
    },
];

#[test]
fn each_subscriber_has_its_own(rt: HostRuntime) {
    check_all(&rt, &SUBSCRIBERS);
}

#[test]
fn all_that_is_cut_for_a_subscriber_counts(rt: HostRuntime) {
    check_all(&rt, &COUNTED);
}

#[test]
fn nothing_in_a_run_sets_them_back(rt: HostRuntime) {
    check_all(&rt, &KEPT);
}

#[test]
fn each_run_begins_at_0(rt: HostRuntime) {
    check_all(&rt, &RUNS);
}
