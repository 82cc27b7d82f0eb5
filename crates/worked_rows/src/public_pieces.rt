//! IPv4 packets of the public side that come in pieces, put together before they are translated (RFC 6333 section 5.3).

use crate::case::{Case, RUN};
use crate::configs::{Ending, check_run, defaults};
use crate::driver::check_all;
use crate::logs::LogFile;
use crate::packets::{FIRST_FRAME, FIRST_SENT, HEAD, PACKET, REPLY_SENT, TUNNEL};
use aftr_base::DropCause;
use cfg_text::Filter;

// A reply to the first packet in two pieces, of 8 bytes and of 4.
const REPLY_FIRST: &str = "00000025 02 00000000000f4240
    4500 001c 0007 2000 40 11 5cbc cb007105 c0000208 0035 0400 000c 38cc";

const REPLY_LAST: &str = "00000021 02 00000000000f4240
    4500 0018 0007 0001 40 11 7cbf cb007105 c0000208 61626364";

// The head of the reply's record as it goes into the softwire.
const REPLY_HEAD: &str = "00000051 01 00000000000f4240";

// Two records behind the first packet make the reply.
const TWO_PIECES: Case<'static> = Case {
    report: "records 3\nsent 2\nmarks 0\n",
    sent: &[FIRST_SENT, REPLY_HEAD, REPLY_SENT],
    log_after: LogFile::Frames(&[FIRST_FRAME]),
    ..RUN
};

// So do they with one between them that is dropped.
const BETWEEN: Case<'static> = Case {
    report: "records 4\nsent 2\nmarks 0\ndrop BadPacket 1\n",
    drops: &[(DropCause::BadPacket, 1)],
    ..TWO_PIECES
};

// The last record is dropped.
const DROPPED: Case<'static> = Case {
    report: "records 3\nsent 1\nmarks 0\ndrop NoMapping 1\n",
    sent: &[FIRST_SENT],
    log_after: LogFile::Frames(&[FIRST_FRAME]),
    drops: &[(DropCause::NoMapping, 1)],
    ..RUN
};

static WHOLE: [Case<'static>; 7] = [
    Case {
        name: "in order",
        input: &[HEAD, PACKET, REPLY_FIRST, REPLY_LAST],
        ..TWO_PIECES
    },
    Case {
        name: "the last piece first, and twice",
        input: &[HEAD, PACKET, REPLY_LAST, REPLY_LAST, REPLY_FIRST],
        report: "records 4\nsent 2\nmarks 0\n",
        ..TWO_PIECES
    },
    Case {
        name: "the header is the first piece's, but for a reserved flag",
        input: &[
            HEAD,
            PACKET,
            "00000021 02 00000000000f4240
            4500 0018 0007 0001 01 11 bbbf cb007105 c0000208 61626364",
            "00000025 02 00000000000f4240
            4528 001c 0007 e000 40 11 9c93 cb007105 c0000208 0035 0400 000c 38cc",
        ],
        sent: &[
            FIRST_SENT,
            "00000051 01 00000000000f4240
            62800000 0020 04 40 20010db8000000000000000000000001 20010db8010000000000000000000002
            4528 0020 0007 4000 3f 11 3f96 cb007105 c0000002
            0035 1388 000c 2b4a 61626364",
        ],
        ..TWO_PIECES
    },
    Case {
        name: "an echo reply",
        input: &[
            HEAD,
            TUNNEL,
            "4500 0020 0001 0000 40 01 7ed4 c0000002 cb007105 0800 1927 0007 0001 70696e67",
            "00000025 02 00000000000f4240
            4500 001c 0007 2000 40 01 5ccc cb007105 c0000208 0000 1d2e 0400 0001",
            "00000021 02 00000000000f4240
            4500 0018 0007 0001 40 01 7ccf cb007105 c0000208 70696e67",
        ],
        sent: &[
            "00000029 02 00000000000f4240
            4500 0020 0001 0000 3f 01 7dce c0000208 cb007105
            08 00 152e 0400 0001 70696e67",
            "00000051 01 00000000000f4240
            60000000 0020 04 40 20010db8000000000000000000000001 20010db8010000000000000000000002
            4500 0020 0007 0000 3f 01 7fce cb007105 c0000002
            00 00 2127 0007 0001 70696e67",
        ],
        ..TWO_PIECES
    },
    Case {
        name: "an ICMP error",
        input: &[
            HEAD,
            PACKET,
            "00000025 02 00000000000f4240
            4500 001c 0009 2000 40 01 5cca cb007105 c0000208 03 03 fb28 00000000",
            "0000003d 02 00000000000f4240
            4500 0034 0009 0001 40 01 7cb1 cb007105 c0000208 4500 0020 0001 0000 39 11 83be c0000208 cb007105 0400 0035 000c 38cc 61626364",
        ],
        sent: &[
            FIRST_SENT,
            "0000006d 01 00000000000f4240
            60000000 003c 04 40 20010db8000000000000000000000001 20010db8010000000000000000000002
            4500 003c 0009 0000 3f 01 7fb0 cb007105 c0000002
            03 03 f922 00000000
            4500 0020 0001 0000 39 11 85c4 c0000002 cb007105
            1388 0035 000c 2b4a 61626364",
        ],
        ..TWO_PIECES
    },
    Case {
        name: "others in between, each but for one field like the last piece",
        input: &[
            HEAD,
            PACKET,
            REPLY_FIRST,
            "00000021 02 00000000000f4240
            4500 0018 0008 0001 40 11 7cbe cb007105 c0000208 61626364",
            "00000021 02 00000000000f4240
            4500 0018 0007 0001 40 06 7cca cb007105 c0000208 61626364",
            "00000021 02 00000000000f4240
            4500 0018 0007 0001 40 11 7cbe cb007106 c0000208 61626364",
            "00000021 02 00000000000f4240
            4500 0018 0007 0001 40 11 7cbe cb007105 c0000209 61626364",
            REPLY_LAST,
        ],
        report: "records 7\nsent 2\nmarks 0\n",
        ..TWO_PIECES
    },
    Case {
        name: "another subscriber's piece with the same header",
        input: &[
            HEAD,
            PACKET,
            REPLY_FIRST,
            "00000049 01 00000000000f4240
            60000000 0018 04 40 20010db8010001000000000000000002 20010db8000000000000000000000001
            4500 0018 0007 0001 40 11 7cbf cb007105 c0000208 61626364",
            REPLY_LAST,
        ],
        report: "records 4\nsent 2\nmarks 0\n",
        ..TWO_PIECES
    },
];

// Pieces that are dropped.
static DROPS: [Case<'static>; 6] = [
    Case {
        name: "8 bytes of two, and then the whole packet",
        input: &[
            HEAD,
            PACKET,
            REPLY_LAST,
            "0000002d 02 00000000000f4240
            4500 0024 0007 2000 40 11 5cb4 cb007105 c0000208 0035 0400 000c 38cc 00x8",
            REPLY_FIRST,
            REPLY_LAST,
        ],
        report: "records 5\nsent 2\nmarks 0\ndrop PieceOverlap 1\n",
        drops: &[(DropCause::PieceOverlap, 1)],
        ..BETWEEN
    },
    Case {
        name: "one behind the last, and then the whole packet",
        input: &[
            HEAD,
            PACKET,
            REPLY_LAST,
            "00000025 02 00000000000f4240
            4500 001c 0007 2002 40 11 5cba cb007105 c0000208 00x8",
            REPLY_FIRST,
            REPLY_LAST,
        ],
        report: "records 5\nsent 2\nmarks 0\ndrop PieceOverlap 1\n",
        drops: &[(DropCause::PieceOverlap, 1)],
        ..BETWEEN
    },
    Case {
        name: "no bytes",
        input: &[
            HEAD,
            PACKET,
            REPLY_FIRST,
            "0000001d 02 00000000000f4240
            4500 0014 0007 0001 40 11 7cc3 cb007105 c0000208",
            REPLY_LAST,
        ],
        ..BETWEEN
    },
    Case {
        name: "9 bytes, but not the last",
        input: &[
            HEAD,
            PACKET,
            REPLY_FIRST,
            "00000026 02 00000000000f4240
            4500 001d 0007 2001 40 11 5cba cb007105 c0000208 61 62 63 64 00x5",
            REPLY_LAST,
        ],
        ..BETWEEN
    },
    Case {
        name: "up to the byte 65,536 with the header",
        input: &[
            HEAD,
            PACKET,
            REPLY_FIRST,
            "00000021 02 00000000000f4240
            4500 0018 0007 1ffd 40 11 5cc3 cb007105 c0000208 00x4",
            REPLY_LAST,
        ],
        report: "records 4\nsent 2\nmarks 0\ndrop PieceTooLong 1\n",
        drops: &[(DropCause::PieceTooLong, 1)],
        ..BETWEEN
    },
    Case {
        name: "a wrong checksum of its header",
        input: &[
            HEAD,
            PACKET,
            REPLY_FIRST,
            "00000021 02 00000000000f4240
            4500 0018 0007 0001 40 11 7cc0 cb007105 c0000208 61626364",
            REPLY_LAST,
        ],
        ..BETWEEN
    },
];

// What the pieces make is refused as a packet that came whole.
static REFUSED: [Case<'static>; 7] = [
    Case {
        name: "to an address that isn't the pool's: no piece is held",
        input: &[
            HEAD,
            PACKET,
            "00000025 02 00000000000f4240
            4500 001c 0007 2000 40 11 5bbd cb007105 c0000307 0035 0400 000c 38cc",
            "00000021 02 00000000000f4240
            4500 0018 0007 0001 40 11 7bc0 cb007105 c0000307 61626364",
        ],
        report: "records 3\nsent 1\nmarks 0\ndrop NotUs 2\n",
        drops: &[(DropCause::NotUs, 2)],
        ..DROPPED
    },
    Case {
        name: "from the pool",
        input: &[
            HEAD,
            PACKET,
            "00000025 02 00000000000f4240
            4500 001c 0007 2000 40 11 d6b8 c0000209 c0000208 0035 0400 000c 38cc",
            "00000021 02 00000000000f4240
            4500 0018 0007 0001 40 11 f6bb c0000209 c0000208 61626364",
        ],
        report: "records 3\nsent 1\nmarks 0\ndrop NoRoute 1\n",
        drops: &[(DropCause::NoRoute, 1)],
        ..DROPPED
    },
    Case {
        name: "from a group",
        input: &[
            HEAD,
            PACKET,
            "00000025 02 00000000000f4240
            4500 001c 0007 2000 40 11 b8c0 e0000001 c0000208 0035 0400 000c 38cc",
            "00000021 02 00000000000f4240
            4500 0018 0007 0001 40 11 d8c3 e0000001 c0000208 61626364",
        ],
        report: "records 3\nsent 1\nmarks 0\ndrop NoRoute 1\n",
        drops: &[(DropCause::NoRoute, 1)],
        ..DROPPED
    },
    Case {
        name: "GRE",
        input: &[
            HEAD,
            PACKET,
            "00000025 02 00000000000f4240
            4500 001c 0007 2000 40 2f 5c9e cb007105 c0000208 0035 0400 000c 38cc",
            "00000021 02 00000000000f4240
            4500 0018 0007 0001 40 2f 7ca1 cb007105 c0000208 61626364",
        ],
        report: "records 3\nsent 1\nmarks 0\ndrop NoProtocol 1\n",
        drops: &[(DropCause::NoProtocol, 1)],
        ..DROPPED
    },
    Case {
        name: "a TTL of 1 in the first piece",
        input: &[
            HEAD,
            PACKET,
            "00000025 02 00000000000f4240
            4500 001c 0007 2000 01 11 9bbc cb007105 c0000208 0035 0400 000c 38cc",
            "00000021 02 00000000000f4240
            4500 0018 0007 0001 01 11 bbbf cb007105 c0000208 61626364",
        ],
        report: "records 3\nsent 1\nmarks 0\ndrop TtlSpent 1\n",
        drops: &[(DropCause::TtlSpent, 1)],
        ..DROPPED
    },
    Case {
        name: "a UDP length past its end",
        input: &[
            HEAD,
            PACKET,
            "00000025 02 00000000000f4240
            4500 001c 0007 2000 40 11 5cbc cb007105 c0000208 0035 0400 000d 38cb",
            "00000021 02 00000000000f4240
            4500 0018 0007 0001 40 11 7cbf cb007105 c0000208 61626364",
        ],
        report: "records 3\nsent 1\nmarks 0\ndrop BadPacket 1\n",
        drops: &[(DropCause::BadPacket, 1)],
        ..DROPPED
    },
    Case {
        name: "to a port that nobody has",
        input: &[
            HEAD,
            PACKET,
            "00000025 02 00000000000f4240
            4500 001c 0007 2000 40 11 5cbc cb007105 c0000208 0035 0401 000c 38cb",
            "00000021 02 00000000000f4240
            4500 0018 0007 0001 40 11 7cbf cb007105 c0000208 61626364",
        ],
        ..DROPPED
    },
];

#[test]
fn pieces_make_packets(rt: HostRuntime) {
    check_all(&rt, &WHOLE);
}

#[test]
fn pieces_that_are_dropped(rt: HostRuntime) {
    check_all(&rt, &DROPS);
}

#[test]
fn packets_that_are_refused_once_they_are_whole(rt: HostRuntime) {
    check_all(&rt, &REFUSED);
}

// The first packet's remote is admitted, and another one isn't.
#[test]
fn a_filter_by_address_is_asked_of_what_is_whole(rt: HostRuntime) {
    let mut config = defaults(&rt);
    config.filter = Filter::Address;
    let input = [
        HEAD,
        PACKET,
        "00000025 02 00000000000f4240
            4500 001c 0007 2000 40 11 5cb8 cb007109 c0000208 0035 0400 000c 38cc",
        "00000021 02 00000000000f4240
            4500 0018 0007 0001 40 11 7cbb cb007109 c0000208 61626364",
        REPLY_FIRST,
        REPLY_LAST,
    ];
    let ending = Ending {
        report: "records 5\nsent 2\nmarks 0\ndrop Filtered 1\n",
        sent: &[FIRST_SENT, REPLY_HEAD, REPLY_SENT],
        log: LogFile::Frames(&[FIRST_FRAME]),
    };
    check_run(&rt, config, &input, &ending);
}
