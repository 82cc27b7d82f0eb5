//! Subscribers that reach each other, and themselves, by places of the pool.

use crate::case::{Case, RUN};
use crate::configs::{defaults, run_with};
use crate::driver::check_all;
use crate::logs::{Frame, LogFile};
use crate::packets::{
    CLOSED_FRAME, FIRST_FRAME, FIRST_SENT, HEAD, NEXT_HEAD, OTHER, OTHER_FRAME, OTHER_SENT, PACKET,
    REPLY, REPLY_SENT,
};
use aftr_base::DropCause;
use cfg_text::Filter;
use std::process::Abort;

// A record of 81 bytes 2 ms behind the first packet, and one 100 s before that one's mapping ends. So is what is sent.
const SOON: &str = "00000051 01 00000000000f4242";

const LATER: &str = "00000051 01 0000000000124f80";

// A reply in the mapping's last millisecond, 1,299,999, and at its deadline.
const LAST: &str = "00000029 02 000000000013d61f";

const LAST_SENT: &str = "00000051 01 000000000013d61f";

const LATE: &str = "00000029 02 000000000013d620";

const LATE_SENT: &str = "00000051 01 000000000013d620";

// From port 5000 of the first packet's sender, 192.0.2.8 port 1024, to the other subscriber's, 192.0.2.8 port 1536.
const TO_OTHER: &str = "60000000 0020 04 40
    20010db8010000000000000000000002 20010db8000000000000000000000001
    4500 0020 0001 0000 40 11 f8c1 c0000002 c0000208 1388 0600 000c 9f7c 61626364";

const TO_OTHER_SENT: &str = "60000000 0020 04 40
    20010db8000000000000000000000001 20010db8010001000000000000000002
    4500 0020 0001 0000 3f 11 f9c1 c0000208 c0000002 0400 1388 000c a17c 61626364";

// To its own place.
const TO_ITSELF: &str = "60000000 0020 04 40
    20010db8010000000000000000000002 20010db8000000000000000000000001
    4500 0020 0001 0000 40 11 f8c1 c0000002 c0000208 1388 0400 000c a17c 61626364";

const TO_ITSELF_SENT: &str = "60000000 0020 04 40
    20010db8000000000000000000000001 20010db8010000000000000000000002
    4500 0020 0001 0000 3f 11 f9c1 c0000208 c0000002 0400 1388 000c a17c 61626364";

// To a port that nobody has.
const TO_NOBODY: &str = "60000000 0020 04 40
    20010db8010000000000000000000002 20010db8000000000000000000000001
    4500 0020 0001 0000 40 11 f8c1 c0000002 c0000208 1388 0800 000c 9d7c 61626364";

static HAIRPINS: [Case<'static>; 4] = [
    Case {
        name: "to another subscriber",
        input: &[HEAD, PACKET, NEXT_HEAD, OTHER, SOON, TO_OTHER],
        report: "records 3\nsent 3\nmarks 0\n",
        sent: &[FIRST_SENT, OTHER_SENT, SOON, TO_OTHER_SENT],
        log_after: LogFile::Frames(&[FIRST_FRAME, OTHER_FRAME]),
        ..RUN
    },
    Case {
        name: "to a port that nobody has",
        input: &[HEAD, PACKET, NEXT_HEAD, OTHER, SOON, TO_NOBODY],
        report: "records 3\nsent 2\nmarks 0\ndrop NoMapping 1\n",
        sent: &[FIRST_SENT, OTHER_SENT],
        log_after: LogFile::Frames(&[FIRST_FRAME, OTHER_FRAME]),
        drops: &[(DropCause::NoMapping, 1)],
        ..RUN
    },
    Case {
        name: "to itself",
        input: &[HEAD, PACKET, SOON, TO_ITSELF],
        report: "records 2\nsent 2\nmarks 0\n",
        sent: &[FIRST_SENT, SOON, TO_ITSELF_SENT],
        log_after: LogFile::Frames(&[FIRST_FRAME]),
        ..RUN
    },
    Case {
        name: "a TTL of 2, which is lowered once, and no UDP checksum, which stays none",
        input: &[
            HEAD,
            PACKET,
            SOON,
            "60000000 0020 04 40
            20010db8010000000000000000000002 20010db8000000000000000000000001
            4500 0020 0001 0000 02 11 36c2 c0000002 c0000208 1388 0400 000c 0000 61626364",
        ],
        report: "records 2\nsent 2\nmarks 0\n",
        sent: &[
            FIRST_SENT,
            SOON,
            "60000000 0020 04 40
            20010db8000000000000000000000001 20010db8010000000000000000000002
            4500 0020 0001 0000 01 11 37c2 c0000208 c0000002 0400 1388 000c 0000 61626364",
        ],
        log_after: LogFile::Frames(&[FIRST_FRAME]),
        ..RUN
    },
];

// What a packet does to its sender's mapping where it comes through, and where it is refused.
static MAPPINGS: [Case<'static>; 3] = [
    Case {
        name: "one that comes through moves the deadline, and the horizon",
        input: &[HEAD, PACKET, LATER, TO_ITSELF, LATE, REPLY],
        report: "records 3\nsent 3\nmarks 0\n",
        sent: &[FIRST_SENT, LATER, TO_ITSELF_SENT, LATE_SENT, REPLY_SENT],
        log_after: LogFile::Frames(&[
            FIRST_FRAME,
            Frame {
                horizon: Some("0000000000124f80 0000000000125750"),
                blocks: &[],
            },
        ]),
        ..RUN
    },
    Case {
        name: "a refused one moves neither",
        input: &[HEAD, PACKET, LATER, TO_NOBODY, LAST, REPLY, LATE, REPLY],
        report: "records 4\nsent 2\nmarks 0\ndrop NoMapping 2\n",
        sent: &[FIRST_SENT, LAST_SENT, REPLY_SENT],
        log_after: LogFile::Frames(&[FIRST_FRAME, CLOSED_FRAME]),
        drops: &[(DropCause::NoMapping, 2)],
        ..RUN
    },
    // Its mapping and block stay for as long as another packet's.
    Case {
        name: "a refused one that is the first",
        input: &[HEAD, TO_NOBODY, LAST, REPLY, LATE, REPLY],
        report: "records 3\nsent 1\nmarks 0\ndrop NoMapping 2\n",
        sent: &[LAST_SENT, REPLY_SENT],
        log_after: LogFile::Frames(&[FIRST_FRAME, CLOSED_FRAME]),
        drops: &[(DropCause::NoMapping, 2)],
        ..RUN
    },
];

/// 100 bytes of payload.
pub const ZEROS: &str =
    "00000000000000000000000000000000000000000000000000000000000000000000000000000000
    00000000000000000000000000000000000000000000000000000000000000000000000000000000
    0000000000000000000000000000000000000000";

// The last 32 bytes of a payload of 1,432.
const REST: &str = "0000000000000000000000000000000000000000000000000000000000000000";

// A packet of 1,460 bytes to its own place, which fills the softwire's 1,500, and one of 1,461.
static LENGTHS: [Case<'static>; 2] = [
    Case {
        name: "as long as the softwire takes",
        input: &[
            HEAD,
            PACKET,
            "000005e5 01 00000000000f4242
            60000000 05b4 04 40 20010db8010000000000000000000002 20010db8000000000000000000000001
            4500 05b4 0001 0000 40 11 f32d c0000002 c0000208 1388 0400 05a0 0000",
            ZEROS,
            ZEROS,
            ZEROS,
            ZEROS,
            ZEROS,
            ZEROS,
            ZEROS,
            ZEROS,
            ZEROS,
            ZEROS,
            ZEROS,
            ZEROS,
            ZEROS,
            ZEROS,
            REST,
        ],
        report: "records 2\nsent 2\nmarks 0\n",
        sent: &[
            FIRST_SENT,
            "000005e5 01 00000000000f4242
            60000000 05b4 04 40 20010db8000000000000000000000001 20010db8010000000000000000000002
            4500 05b4 0001 0000 3f 11 f42d c0000208 c0000002 0400 1388 05a0 0000",
            ZEROS,
            ZEROS,
            ZEROS,
            ZEROS,
            ZEROS,
            ZEROS,
            ZEROS,
            ZEROS,
            ZEROS,
            ZEROS,
            ZEROS,
            ZEROS,
            ZEROS,
            ZEROS,
            REST,
        ],
        log_after: LogFile::Frames(&[FIRST_FRAME]),
        ..RUN
    },
    // It moves the deadline and the horizon as one that isn't cut.
    Case {
        name: "longer than that, and cut, though it may not be as IPv4",
        input: &[
            HEAD,
            PACKET,
            "000005e6 01 0000000000124f80
            60000000 05b5 04 40 20010db8010000000000000000000002 20010db8000000000000000000000001
            4500 05b5 0001 4000 40 11 b32c c0000002 c0000208 1388 0400 05a1 0000 00x1433",
            LATE,
            REPLY,
        ],
        report: "records 3\nsent 4\nmarks 0\n",
        sent: &[
            FIRST_SENT,
            "000005e1 01 0000000000124f80
            60000000 05b0 2c 40 20010db8000000000000000000000001 20010db8010000000000000000000002
            04 00 0001 00000000
            4500 05b5 0001 4000 3f 11 b42c c0000208 c0000002 0400 1388 05a1 0000 00x1420",
            "00000046 01 0000000000124f80
            60000000 0015 2c 40 20010db8000000000000000000000001 20010db8010000000000000000000002
            04 00 05a8 00000000 00x13",
            LATE_SENT,
            REPLY_SENT,
        ],
        log_after: LogFile::Frames(&[
            FIRST_FRAME,
            Frame {
                horizon: Some("0000000000124f80 0000000000125750"),
                blocks: &[],
            },
        ]),
        ..RUN
    },
];

// A name, an input, and what the run over it prints.
type Row = (&'static str, &'static [&'static str], &'static str);

// From a further port of the first packet's sender, 192.0.2.8 port 1025, to the other subscriber, and that one's answer.
const FROM_NEW_PORT: &str = "60000000 0020 04 40
    20010db8010000000000000000000002 20010db8000000000000000000000001
    4500 0020 0001 0000 40 11 f8c1 c0000002 c0000208 1389 0600 000c 0000 61626364";

const TO_NEW_PORT: &str = "60000000 0020 04 40
    20010db8010001000000000000000002 20010db8000000000000000000000001
    4500 0020 0001 0000 40 11 f8c1 c0000002 c0000208 1388 0401 000c 0000 61626364";

// By address a mapping has to have a peer at the sender's external address.
static BY_ADDRESS: [Row; 4] = [
    (
        "to itself, where it has sent to another remote",
        &[HEAD, PACKET, SOON, TO_ITSELF, SOON, TO_ITSELF],
        "records 3\nsent 1\nmarks 0\ndrop Filtered 2\n",
    ),
    (
        "to itself first of all, and then a reply",
        &[
            HEAD,
            TO_ITSELF,
            "00000029 02 00000000000f4242",
            REPLY,
            SOON,
            TO_ITSELF,
        ],
        "records 3\nsent 2\nmarks 0\ndrop Filtered 1\n",
    ),
    (
        "to another subscriber's mapping, and its answer to one that is as old",
        &[HEAD, PACKET, NEXT_HEAD, OTHER, SOON, TO_OTHER, SOON, BACK],
        "records 4\nsent 2\nmarks 0\ndrop Filtered 2\n",
    ),
    (
        "from a new mapping, which keeps its peer, and then both ways",
        &[
            HEAD,
            PACKET,
            NEXT_HEAD,
            OTHER,
            SOON,
            FROM_NEW_PORT,
            SOON,
            TO_NEW_PORT,
            SOON,
            FROM_NEW_PORT,
        ],
        "records 5\nsent 4\nmarks 0\ndrop Filtered 1\n",
    ),
];

// From the other subscriber to the first packet's sender.
const BACK: &str = "60000000 0020 04 40
    20010db8010001000000000000000002 20010db8000000000000000000000001
    4500 0020 0001 0000 40 11 f8c1 c0000002 c0000208 1388 0400 000c a17c 61626364";

// A subscriber's SYN to 203.0.113.5 port 80, by 192.0.2.8 port 1024; then another one's to that place, 10 ms behind, with its
// answer and the answer to that.
const SYN_OUT: &str = "00000059 01 00000000000f4240 60000000 0028 04 40
    20010db8010000000000000000000002 20010db8000000000000000000000001
    4500 0028 0001 0000 40 06 7ec7 c0000002 cb007105
    1388 0050 00000001 00000001 5002 2000 0000 0000";

const SYN: &str = "00000059 01 00000000000f424a 60000000 0028 04 40
    20010db8010001000000000000000002 20010db8000000000000000000000001
    4500 0028 0001 0000 40 06 f8c4 c0000002 c0000208
    1388 0400 00000001 00000001 5002 2000 0000 0000";

const SYN_ACK: &str = "00000059 01 00000000000f4254 60000000 0028 04 40
    20010db8010000000000000000000002 20010db8000000000000000000000001
    4500 0028 0001 0000 40 06 f8c4 c0000002 c0000208
    1388 0600 00000001 00000001 5012 2000 0000 0000";

const ACK: &str = "00000059 01 00000000000f425e 60000000 0028 04 40
    20010db8010001000000000000000002 20010db8000000000000000000000001
    4500 0028 0001 0000 40 06 f8c4 c0000002 c0000208
    1388 0400 00000001 00000001 5010 2000 0000 0000";

// The first one's RST another 10 ms later.
const RST: &str = "00000059 01 00000000000f4268 60000000 0028 04 40
    20010db8010000000000000000000002 20010db8000000000000000000000001
    4500 0028 0001 0000 40 06 f8c4 c0000002 c0000208
    1388 0600 00000001 00000001 5014 2000 0000 0000";

// The first one's SYN to its own place, and 10 ms behind its first one to nobody's.
const SYN_TO_ITSELF: &str = "00000059 01 00000000000f4240 60000000 0028 04 40
    20010db8010000000000000000000002 20010db8000000000000000000000001
    4500 0028 0001 0000 40 06 f8c4 c0000002 c0000208
    1388 0400 00000001 00000001 5002 2000 0000 0000";

const SYN_TO_NOBODY: &str = "00000059 01 00000000000f424a 60000000 0028 04 40
    20010db8010000000000000000000002 20010db8000000000000000000000001
    4500 0028 0001 0000 40 06 f8c4 c0000002 c0000208
    1388 0800 00000001 00000001 5002 2000 0000 0000";

// From another remote to the first one's mapping and to the other's. It moves no state.
const TO_FIRST: &str = "4500 0028 0001 0000 40 06 7cbd cb007109 c0000208
    0050 0400 00000001 00000001 5010 2000 0000 0000";

const TO_SECOND: &str = "4500 0028 0001 0000 40 06 7cbd cb007109 c0000208
    0050 0600 00000001 00000001 5010 2000 0000 0000";

// The last millisecond of the mappings, and their end.
static CONNECTIONS: [Row; 4] = [
    (
        "7,440 s behind the last segment between two subscribers",
        &[
            SYN_OUT,
            SYN,
            SYN_ACK,
            ACK,
            "00000031 02 000000000080c8dd",
            TO_FIRST,
            "00000031 02 000000000080c8dd",
            TO_SECOND,
            "00000031 02 000000000080c8de",
            TO_FIRST,
            "00000031 02 000000000080c8de",
            TO_SECOND,
        ],
        "records 8\nsent 6\nmarks 0\ndrop NoMapping 2\n",
    ),
    (
        "240 s behind an RST from one to the other",
        &[
            SYN_OUT,
            SYN,
            SYN_ACK,
            ACK,
            RST,
            "00000031 02 000000000012ebe7",
            TO_FIRST,
            "00000031 02 000000000012ebe7",
            TO_SECOND,
            "00000031 02 000000000012ebe8",
            TO_FIRST,
            "00000031 02 000000000012ebe8",
            TO_SECOND,
        ],
        "records 9\nsent 7\nmarks 0\ndrop NoMapping 2\n",
    ),
    (
        "7,440 s behind a SYN to itself, which is its own answer",
        &[
            SYN_TO_ITSELF,
            "00000031 02 000000000080c8bf",
            TO_FIRST,
            "00000031 02 000000000080c8c0",
            TO_FIRST,
        ],
        "records 3\nsent 2\nmarks 0\ndrop NoMapping 1\n",
    ),
    (
        "240 s behind a SYN, whatever is refused",
        &[
            SYN_OUT,
            SYN_TO_NOBODY,
            "00000031 02 000000000012ebbf",
            TO_FIRST,
            "00000031 02 000000000012ebc0",
            TO_FIRST,
        ],
        "records 4\nsent 2\nmarks 0\ndrop NoMapping 2\n",
    ),
];

// Checks what runs with this filter print.
fn check_reports<R: Abort + AllocGlobal>(rt: &R, filter: Filter, rows: &[Row]) {
    for (name, input, report) in rows {
        let mut config = defaults(rt);
        config.filter = filter;
        let left = run_with(rt, config, input);
        assert_eq!(rt;
            str::from_utf8(left.report.written()),
            Ok(*report),
            "{name}"
        );
    }
}

#[test]
fn subscribers_reach_each_other(rt: HostRuntime) {
    check_all(&rt, &HAIRPINS);
}

#[test]
fn what_stays_of_it(rt: HostRuntime) {
    check_all(&rt, &MAPPINGS);
}

#[test]
fn long_packets_between_subscribers(rt: HostRuntime) {
    check_all(&rt, &LENGTHS);
}

#[test]
fn a_filter_by_address_is_asked(rt: HostRuntime) {
    check_reports(&rt, Filter::Address, &BY_ADDRESS);
}

#[test]
fn connections_between_subscribers(rt: HostRuntime) {
    check_reports(&rt, Filter::Independent, &CONNECTIONS);
}
