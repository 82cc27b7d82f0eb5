//! ICMP errors that go on with the packets that they quote, and those that are refused (RFC 792, RFC 5508 section 4).

use crate::case::{Case, RUN};
use crate::configs::{Ending, check_run, defaults};
use crate::driver::check_all;
use crate::logs::{Frame, LogFile};
use crate::packets::{
    CLOSED_FRAME, FIRST_FRAME, FIRST_SENT, HEAD, NEXT_HEAD, OTHER, OTHER_FRAME, OTHER_SENT, PACKET,
    REPLY, REPLY_SENT,
};
use aftr_base::DropCause;
use cfg_text::Filter;

/// From 203.0.113.5: Port Unreachable about the first packet, which it quotes whole. Its TOS becomes the traffic class.
pub const UDP_IN: &str = "00000045 02 00000000000f42a4
    45c0 003c 0002 0000 39 01 82f1 cb007105 c0000208
    03 03 fb28 00000000
    4500 0020 0001 0000 39 11 83be c0000208 cb007105
    0400 0035 000c 38cc 61626364";

const UDP_IN_SENT: &str = "0000006d 01 00000000000f42a4
    6c000000 003c 04 40
    20010db8000000000000000000000001 20010db8010000000000000000000002
    45c0 003c 0002 0000 38 01 85f7 cb007105 c0000002
    03 03 f922 00000000
    4500 0020 0001 0000 39 11 85c4 c0000002 cb007105
    1388 0035 000c 2b4a 61626364";

// From 198.51.100.1, a router: Parameter Problem about a packet whose header's checksum is wrong, and whose UDP checksum is 0. Both
// stay so.
const UNSUMMED_IN: &str = "00000041 02 00000000000f42a4
    4500 0038 0002 0000 39 01 9586 c6336401 c0000208
    0c 00 5749 0a000000
    4500 0020 0001 0000 39 11 1234 c0000208 cb007105
    0400 0035 000c 0000";

const UNSUMMED_IN_SENT: &str = "00000069 01 00000000000f42a4
    60000000 0038 04 40
    20010db8000000000000000000000001 20010db8010000000000000000000002
    4500 0038 0002 0000 38 01 988c c6336401 c0000002
    0c 00 47c1 0a000000
    4500 0020 0001 0000 39 11 143a c0000002 cb007105
    1388 0035 000c 0000";

// A SYN from port 5000 to port 80 of 203.0.113.5, by 192.0.2.8 port 1024.
const SYN: &str = "00000059 01 00000000000f4240
    60000000 0028 04 40
    20010db8010000000000000000000002 20010db8000000000000000000000001
    4500 0028 0002 0000 40 06 7ec6 c0000002 cb007105
    1388 0050 00000001 00000000 5002 ffff a001 0000";

const SYN_SENT: &str = "00000031 02 00000000000f4240
    4500 0028 0002 0000 3f 06 7dc0 c0000208 cb007105
    0400 0050 00000001 00000000 5002 ffff ad83 0000";

// From the router: Time Exceeded about 8 bytes of it, and about all, with the checksum.
const TCP_IN: &str = "00000041 02 00000000000f42a4
    4500 0038 0003 0000 3a 01 9485 c6336401 c0000208
    0b 00 f0ae 00000000
    4500 0028 0002 0000 01 06 bbc0 c0000208 cb007105
    0400 0050 00000001";

const TCP_IN_SENT: &str = "00000069 01 00000000000f42a4
    60000000 0038 04 40
    20010db8000000000000000000000001 20010db8010000000000000000000002
    4500 0038 0003 0000 39 01 978b c6336401 c0000002
    0b 00 e126 00000000
    4500 0028 0002 0000 01 06 bdc6 c0000002 cb007105
    1388 0050 00000001";

const SUMMED_IN: &str = "0000004d 02 00000000000f42a4
    4500 0044 0003 0000 3a 01 9479 c6336401 c0000208
    0b 00 f328 00000000
    4500 0028 0002 0000 01 06 bbc0 c0000208 cb007105
    0400 0050 00000001 00000000 5002 ffff ad83 0000";

const SUMMED_IN_SENT: &str = "00000075 01 00000000000f42a4
    60000000 0044 04 40
    20010db8000000000000000000000001 20010db8010000000000000000000002
    4500 0044 0003 0000 39 01 977f c6336401 c0000002
    0b 00 f122 00000000
    4500 0028 0002 0000 01 06 bdc6 c0000002 cb007105
    1388 0050 00000001 00000000 5002 ffff a001 0000";

/// An echo request with identifier 7, which becomes 1024.
pub const REQUEST: &str = "00000051 01 00000000000f4240
    60000000 0020 04 40
    20010db8010000000000000000000002 20010db8000000000000000000000001
    4500 0020 0001 0000 40 01 7ed4 c0000002 cb007105
    08 00 1927 0007 0001 70696e67";

const REQUEST_SENT: &str = "00000029 02 00000000000f4240
    4500 0020 0001 0000 3f 01 7dce c0000208 cb007105
    08 00 152e 0400 0001 70696e67";

// From the router: Time Exceeded about it.
const ECHO_IN: &str = "00000045 02 00000000000f42a4
    4500 003c 0003 0000 3a 01 9481 c6336401 c0000208
    0b 00 f4ff 00000000
    4500 0020 0001 0000 01 01 bbce c0000208 cb007105
    08 00 152e 0400 0001 70696e67";

const ECHO_IN_SENT: &str = "0000006d 01 00000000000f42a4
    60000000 003c 04 40
    20010db8000000000000000000000001 20010db8010000000000000000000002
    4500 003c 0003 0000 39 01 9787 c6336401 c0000002
    0b 00 f4ff 00000000
    4500 0020 0001 0000 01 01 bdd4 c0000002 cb007105
    08 00 1927 0007 0001 70696e67";

/// From 192.0.0.2: Port Unreachable about a reply to the first packet.
pub const UDP_OUT: &str = "0000006d 01 00000000000f42a4
    60000000 003c 04 40
    20010db8010000000000000000000002 20010db8000000000000000000000001
    45c0 003c 0004 0000 40 01 7df5 c0000002 cb007105
    03 03 f922 00000000
    4500 0020 0007 0000 3f 11 7fbe cb007105 c0000002
    0035 1388 000c 2b4a 61626364";

const UDP_OUT_SENT: &str = "00000045 02 00000000000f42a4
    45c0 003c 0004 0000 3f 01 7cef c0000208 cb007105
    03 03 fb28 00000000
    4500 0020 0007 0000 3f 11 7db8 cb007105 c0000208
    0035 0400 000c 38cc 61626364";

// From 192.168.1.1 in the same softwire: Time Exceeded about the answer to the SYN.
const TCP_OUT: &str = "00000069 01 00000000000f42a4
    60000000 0038 04 40
    20010db8010000000000000000000002 20010db8000000000000000000000001
    4500 0038 0004 0000 40 01 7d12 c0a80101 cb007105
    0b 00 e11e 00000000
    4500 0028 0007 0000 01 06 bdc1 cb007105 c0000002
    0050 1388 00000009";

const TCP_OUT_SENT: &str = "00000041 02 00000000000f42a4
    4500 0038 0004 0000 3f 01 7db3 c0000208 cb007105
    0b 00 f0a6 00000000
    4500 0028 0007 0000 01 06 bbbb cb007105 c0000208
    0050 0400 00000009";

/// From there: Host Unreachable about an echo reply.
pub const ECHO_OUT: &str = "0000006d 01 00000000000f42a4
    60000000 003c 04 40
    20010db8010000000000000000000002 20010db8000000000000000000000001
    4500 003c 0004 0000 40 01 7d0e c0a80101 cb007105
    03 01 fcfe 00000000
    4500 0020 0001 0000 3f 01 7fd4 cb007105 c0000002
    00 00 2127 0007 0001 70696e67";

const ECHO_OUT_SENT: &str = "00000045 02 00000000000f42a4
    4500 003c 0004 0000 3f 01 7daf c0000208 cb007105
    03 01 fcfe 00000000
    4500 0020 0001 0000 3f 01 7dce cb007105 c0000208
    00 00 1d2e 0400 0001 70696e67";

// A run of one packet and one error behind it.
const ONE_ERROR: Case<'static> = Case {
    report: "records 2\nsent 2\nmarks 0\n",
    log_after: LogFile::Frames(&[FIRST_FRAME]),
    ..RUN
};

static INBOUND: [Case<'static>; 5] = [
    Case {
        name: "about UDP, from the receiver",
        input: &[HEAD, PACKET, UDP_IN],
        sent: &[FIRST_SENT, UDP_IN_SENT],
        ..ONE_ERROR
    },
    Case {
        name: "about UDP, from a router, with two checksums that stay as they are",
        input: &[HEAD, PACKET, UNSUMMED_IN],
        sent: &[FIRST_SENT, UNSUMMED_IN_SENT],
        ..ONE_ERROR
    },
    Case {
        name: "about 8 bytes of TCP",
        input: &[SYN, TCP_IN],
        sent: &[SYN_SENT, TCP_IN_SENT],
        ..ONE_ERROR
    },
    Case {
        name: "about TCP with its checksum",
        input: &[SYN, SUMMED_IN],
        sent: &[SYN_SENT, SUMMED_IN_SENT],
        ..ONE_ERROR
    },
    Case {
        name: "about an echo request",
        input: &[REQUEST, ECHO_IN],
        sent: &[REQUEST_SENT, ECHO_IN_SENT],
        ..ONE_ERROR
    },
];

static OUTBOUND: [Case<'static>; 3] = [
    Case {
        name: "about UDP, from the receiver",
        input: &[HEAD, PACKET, UDP_OUT],
        sent: &[FIRST_SENT, UDP_OUT_SENT],
        ..ONE_ERROR
    },
    Case {
        name: "about 8 bytes of TCP, from a router in the subscriber's network",
        input: &[SYN, TCP_OUT],
        sent: &[SYN_SENT, TCP_OUT_SENT],
        ..ONE_ERROR
    },
    Case {
        name: "about an echo reply, from that router",
        input: &[REQUEST, ECHO_OUT],
        sent: &[REQUEST_SENT, ECHO_OUT_SENT],
        ..ONE_ERROR
    },
];

/// From 192.0.0.2 of the other subscriber to 192.0.2.8: Port Unreachable about a datagram from 192.0.2.8 port 1024.
pub const BETWEEN: &str = "0000006d 01 00000000000f4308
    60000000 003c 04 40
    20010db8010001000000000000000002 20010db8000000000000000000000001
    45c0 003c 0004 0000 40 01 f7f2 c0000002 c0000208
    03 03 7f25 00000000
    4500 0020 0001 0000 3f 11 f9c1 c0000208 c0000002
    0400 1388 000c a17c 61626364";

const BETWEEN_SENT: &str = "0000006d 01 00000000000f4308
    6c000000 003c 04 40
    20010db8000000000000000000000001 20010db8010000000000000000000002
    45c0 003c 0004 0000 3f 01 f8f2 c0000208 c0000002
    03 03 7f25 00000000
    4500 0020 0001 0000 3f 11 f9c1 c0000002 c0000208
    1388 0600 000c 9f7c 61626364";

// An echo request to its own address.
const REQUEST_BACK: &str = "00000051 01 00000000000f4240
    60000000 0020 04 40
    20010db8010000000000000000000002 20010db8000000000000000000000001
    4500 0020 0001 0000 40 01 f8d1 c0000002 c0000208
    08 00 1927 0007 0001 70696e67";

const REQUEST_BACK_SENT: &str = "00000051 01 00000000000f4240
    60000000 0020 04 40
    20010db8000000000000000000000001 20010db8010000000000000000000002
    4500 0020 0001 0000 3f 01 f9d1 c0000208 c0000002
    08 00 1927 0007 0001 70696e67";

/// From 192.168.1.1 in the same softwire: Host Unreachable about it.
pub const ECHO_BACK: &str = "0000006d 01 00000000000f4308
    60000000 003c 04 40
    20010db8010000000000000000000002 20010db8000000000000000000000001
    4500 003c 0004 0000 40 01 f70b c0a80101 c0000208
    03 01 fcfe 00000000
    4500 0020 0001 0000 3f 01 f9d1 c0000208 c0000002
    08 00 1927 0007 0001 70696e67";

const ECHO_BACK_SENT: &str = "0000006d 01 00000000000f4308
    60000000 003c 04 40
    20010db8000000000000000000000001 20010db8010000000000000000000002
    4500 003c 0004 0000 3f 01 f9b2 c0000208 c0000002
    03 01 fcfe 00000000
    4500 0020 0001 0000 3f 01 f9d1 c0000002 c0000208
    08 00 1927 0007 0001 70696e67";

static HAIRPINS: [Case<'static>; 2] = [
    Case {
        name: "from the other subscriber",
        input: &[HEAD, PACKET, NEXT_HEAD, OTHER, BETWEEN],
        report: "records 3\nsent 3\nmarks 0\n",
        sent: &[FIRST_SENT, OTHER_SENT, BETWEEN_SENT],
        log_after: LogFile::Frames(&[FIRST_FRAME, OTHER_FRAME]),
        ..RUN
    },
    Case {
        name: "to itself, about an echo request",
        input: &[REQUEST_BACK, ECHO_BACK],
        sent: &[REQUEST_BACK_SENT, ECHO_BACK_SENT],
        ..ONE_ERROR
    },
];

// Errors in the last millisecond of the first packet's mapping, 1,299,999, and a reply at its deadline.
const LAST_IN: &str = "00000045 02 000000000013d61f
    45c0 003c 0002 0000 39 01 82f1 cb007105 c0000208
    03 03 fb28 00000000
    4500 0020 0001 0000 39 11 83be c0000208 cb007105
    0400 0035 000c 38cc 61626364";

const LAST_IN_SENT: &str = "0000006d 01 000000000013d61f
    6c000000 003c 04 40
    20010db8000000000000000000000001 20010db8010000000000000000000002
    45c0 003c 0002 0000 38 01 85f7 cb007105 c0000002
    03 03 f922 00000000
    4500 0020 0001 0000 39 11 85c4 c0000002 cb007105
    1388 0035 000c 2b4a 61626364";

const LAST_OUT: &str = "0000006d 01 000000000013d61f
    60000000 003c 04 40
    20010db8010000000000000000000002 20010db8000000000000000000000001
    45c0 003c 0004 0000 40 01 7df5 c0000002 cb007105
    03 03 f922 00000000
    4500 0020 0007 0000 3f 11 7fbe cb007105 c0000002
    0035 1388 000c 2b4a 61626364";

const LAST_OUT_SENT: &str = "00000045 02 000000000013d61f
    45c0 003c 0004 0000 3f 01 7cef c0000208 cb007105
    03 03 fb28 00000000
    4500 0020 0007 0000 3f 11 7db8 cb007105 c0000208
    0035 0400 000c 38cc 61626364";

const LATE: &str = "00000029 02 000000000013d620";

static DEADLINES: [Case<'static>; 2] = [
    Case {
        name: "one from outside moves neither the deadline nor the horizon",
        input: &[HEAD, PACKET, LAST_IN, LATE, REPLY],
        report: "records 3\nsent 2\nmarks 0\ndrop NoMapping 1\n",
        sent: &[FIRST_SENT, LAST_IN_SENT],
        log_after: LogFile::Frames(&[FIRST_FRAME, CLOSED_FRAME]),
        drops: &[(DropCause::NoMapping, 1)],
        ..RUN
    },
    // Its source is the subscriber's, so the log has to name it.
    Case {
        name: "a subscriber's moves the horizon alone",
        input: &[HEAD, PACKET, LAST_OUT, LATE, REPLY],
        report: "records 3\nsent 2\nmarks 0\ndrop NoMapping 1\n",
        sent: &[FIRST_SENT, LAST_OUT_SENT],
        log_after: LogFile::Frames(&[
            FIRST_FRAME,
            Frame {
                horizon: Some("000000000013d61f 000000000013ddef"),
                blocks: &[],
            },
            CLOSED_FRAME,
        ]),
        drops: &[(DropCause::NoMapping, 1)],
        ..RUN
    },
];

// Behind the first packet comes an error that is dropped.
const BAD: Case<'static> = Case {
    report: "records 2\nsent 1\nmarks 0\ndrop BadPacket 1\n",
    sent: &[FIRST_SENT],
    drops: &[(DropCause::BadPacket, 1)],
    ..ONE_ERROR
};

const UNMAPPED: Case<'static> = Case {
    report: "records 2\nsent 1\nmarks 0\ndrop NoMapping 1\n",
    drops: &[(DropCause::NoMapping, 1)],
    ..BAD
};

const UNKNOWN: Case<'static> = Case {
    report: "records 2\nsent 1\nmarks 0\ndrop NoProtocol 1\n",
    drops: &[(DropCause::NoProtocol, 1)],
    ..BAD
};

const SPENT: Case<'static> = Case {
    report: "records 2\nsent 1\nmarks 0\ndrop TtlSpent 1\n",
    drops: &[(DropCause::TtlSpent, 1)],
    ..BAD
};

static REFUSED: [Case<'static>; 15] = [
    Case {
        name: "in, about a packet with options",
        input: &[
            HEAD,
            PACKET,
            "00000049 02 00000000000f42a4
            4500 0040 0002 0000 39 01 957e c6336401 c0000208
            03 03 fb28 00000000
            4600 0024 0001 0000 40 11 79b8 c0000208 cb007105 01010101
            0400 0035 000c 38cc 61626364",
        ],
        ..BAD
    },
    Case {
        name: "in, about a later fragment",
        input: &[
            HEAD,
            PACKET,
            "00000045 02 00000000000f42a4
            4500 003c 0002 0000 39 01 9582 c6336401 c0000208
            03 03 fb28 00000000
            4500 0020 0001 0001 40 11 7cbd c0000208 cb007105
            0400 0035 000c 38cc 61626364",
        ],
        ..BAD
    },
    Case {
        name: "in, about GRE",
        input: &[
            HEAD,
            PACKET,
            "00000045 02 00000000000f42a4
            4500 003c 0002 0000 39 01 9582 c6336401 c0000208
            03 03 fb28 00000000
            4500 0020 0001 0000 40 2f 7ca0 c0000208 cb007105
            04000035000c38cc61626364",
        ],
        ..BAD
    },
    Case {
        name: "in, about an error",
        input: &[
            HEAD,
            PACKET,
            "00000041 02 00000000000f42a4
            4500 0038 0002 0000 39 01 9586 c6336401 c0000208
            03 03 fcfc 00000000
            4500 001c 0001 0000 40 01 7cd2 c0000208 cb007105
            03 03 fcfc 00000000",
        ],
        ..BAD
    },
    Case {
        name: "in, about 7 bytes of UDP",
        input: &[
            HEAD,
            PACKET,
            "00000040 02 00000000000f42a4
            4500 0037 0002 0000 39 01 9587 c6336401 c0000208
            03 03 c0bb 00000000
            4500 0020 0001 0000 40 11 7cbe c0000208 cb007105
            04000035000c38",
        ],
        ..BAD
    },
    Case {
        name: "in, about 19 bytes of a header",
        input: &[
            HEAD,
            PACKET,
            "00000038 02 00000000000f42a4
            4500 002f 0002 0000 39 01 958f c6336401 c0000208
            03 03 fd01 00000000
            450000200001000040117cbec0000208cb0071",
        ],
        ..BAD
    },
    Case {
        name: "in, about nothing",
        input: &[
            HEAD,
            PACKET,
            "00000025 02 00000000000f42a4
            4500 001c 0002 0000 39 01 95a2 c6336401 c0000208
            03 03 fcfc 00000000",
        ],
        ..BAD
    },
    Case {
        name: "in, with a wrong checksum",
        input: &[
            HEAD,
            PACKET,
            "00000041 02 00000000000f42a4
            4500 0038 0002 0000 39 01 9586 c6336401 c0000208
            03 03 1111 00000000
            4500 0020 0001 0000 39 11 83be c0000208 cb007105
            0400 0035 000c 38cc",
        ],
        ..BAD
    },
    Case {
        name: "in, about a port that nobody has",
        input: &[
            HEAD,
            PACKET,
            "00000045 02 00000000000f42a4
            4500 003c 0002 0000 39 01 9582 c6336401 c0000208
            03 03 fb28 00000000
            4500 0020 0001 0000 40 11 7cbe c0000208 cb007105
            0401 0035 000c 38cb 61626364",
        ],
        ..UNMAPPED
    },
    Case {
        name: "in, about TCP from a port that UDP has",
        input: &[
            HEAD,
            PACKET,
            "0000004d 02 00000000000f42a4
            4500 0044 0002 0000 39 01 957a c6336401 c0000208
            03 03 fb25 00000000
            4500 0028 0001 0000 40 06 7cc1 c0000208 cb007105
            0400 0035 00000001 00000000 5002 ffff ad9e 0000",
        ],
        ..UNMAPPED
    },
    Case {
        name: "in, with a TTL of 1",
        input: &[
            HEAD,
            PACKET,
            "00000045 02 00000000000f42a4
            4500 003c 0002 0000 01 01 cd82 c6336401 c0000208
            03 03 fb28 00000000
            4500 0020 0001 0000 39 11 83be c0000208 cb007105
            0400 0035 000c 38cc 61626364",
        ],
        ..SPENT
    },
    Case {
        name: "in, a redirect",
        input: &[
            HEAD,
            PACKET,
            "00000041 02 00000000000f42a4
            4500 0038 0002 0000 39 01 9586 c6336401 c0000208
            05 01 bdf1 00000000
            4500 0020 0001 0000 39 11 83be c0000208 cb007105
            0400 0035 000c 38cc",
        ],
        ..UNKNOWN
    },
    Case {
        name: "out, about 7 bytes of UDP",
        input: &[
            HEAD,
            PACKET,
            "00000068 01 00000000000f42a4
            60000000 0037 04 40
            20010db8010000000000000000000002 20010db8000000000000000000000001
            4500 0037 0001 0000 40 01 7ebd c0000002 cb007105
            03 03 be33 00000000
            4500 0020 0007 0000 3f 11 7fbe cb007105 c0000002
            00351388000c2b",
        ],
        ..BAD
    },
    Case {
        name: "out, about a packet to a port without a mapping",
        input: &[
            HEAD,
            PACKET,
            "0000006d 01 00000000000f42a4
            60000000 003c 04 40
            20010db8010000000000000000000002 20010db8000000000000000000000001
            4500 003c 0001 0000 40 01 7eb8 c0000002 cb007105
            03 03 f922 00000000
            4500 0020 0007 0000 3f 11 7fbe cb007105 c0000002
            0035 1389 000c 2b49 61626364",
        ],
        ..UNMAPPED
    },
    Case {
        name: "to the pool, about a packet from a port that nobody has",
        input: &[
            HEAD,
            PACKET,
            "0000006d 01 00000000000f42a4
            60000000 003c 04 40
            20010db8010000000000000000000002 20010db8000000000000000000000001
            4500 003c 0001 0000 40 01 f8b5 c0000002 c0000208
            03 03 7f25 00000000
            4500 0020 0001 0000 40 11 f8c1 c0000208 c0000002
            0800 1388 000c 9d7c 61626364",
        ],
        ..UNMAPPED
    },
];

#[test]
fn errors_come_in(rt: HostRuntime) {
    check_all(&rt, &INBOUND);
}

#[test]
fn errors_go_out(rt: HostRuntime) {
    check_all(&rt, &OUTBOUND);
}

#[test]
fn errors_between_subscribers(rt: HostRuntime) {
    check_all(&rt, &HAIRPINS);
}

#[test]
fn errors_use_no_mapping(rt: HostRuntime) {
    check_all(&rt, &DEADLINES);
}

#[test]
fn errors_that_are_refused(rt: HostRuntime) {
    check_all(&rt, &REFUSED);
}

// The router is no peer, and a datagram from there is refused; an error about one of the mapping's packets isn't.
#[test]
fn no_filter_is_asked_for_errors(rt: HostRuntime) {
    let mut config = defaults(&rt);
    config.filter = Filter::Address;
    let input = [
        HEAD,
        PACKET,
        "00000029 02 00000000000f4240
        4500 0020 0007 0000 40 11 8e89 c6336401 c0000208 0035 0400 000c 0000 61626364",
        UNSUMMED_IN,
        "00000029 02 00000000000f42a4",
        REPLY,
    ];
    let ending = Ending {
        report: "records 4\nsent 3\nmarks 0\ndrop Filtered 1\n",
        sent: &[
            FIRST_SENT,
            UNSUMMED_IN_SENT,
            "00000051 01 00000000000f42a4",
            REPLY_SENT,
        ],
        log: LogFile::Frames(&[FIRST_FRAME]),
    };
    check_run(&rt, config, &input, &ending);
}
