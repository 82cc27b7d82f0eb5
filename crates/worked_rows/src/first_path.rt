//! From a subscriber's packet to the public side.

use crate::case::{Case, ONE_PACKET, RUN};
use crate::driver::{check_all, check_all_without_faults};
use crate::logs::LogFile;
use crate::packets::{
    DATAGRAM, ELSEWHERE, FIRST_FRAME, FIRST_SENT, HEAD, INNER, NEXT_HEAD, OTHER, OTHER_FRAME,
    OTHER_SENT, PACKET, TUNNEL, UNSUMMED,
};

static PACKETS: [Case<'static>; 4] = [
    Case {
        name: "no packet",
        ..RUN
    },
    ONE_PACKET,
    Case {
        name: "endpoint independence: the same place to another destination",
        input: &[HEAD, PACKET, "00000051 01 00000000000f4434", ELSEWHERE],
        report: "records 2\nsent 2\nmarks 0\n",
        sent: &[
            FIRST_SENT,
            "00000029 02 00000000000f4434
            4500 0020 0001 0000 3f 11 7dbd c0000208 cb007106 0400 0035 000c 38cb 61626364",
        ],
        ..ONE_PACKET
    },
    Case {
        name: "overlapping inner addresses",
        input: &[HEAD, PACKET, NEXT_HEAD, OTHER],
        report: "records 2\nsent 2\nmarks 0\n",
        sent: &[FIRST_SENT, OTHER_SENT],
        log_after: LogFile::Frames(&[FIRST_FRAME, OTHER_FRAME]),
        ..RUN
    },
];

static CHECKSUMS: [Case<'static>; 2] = [
    Case {
        name: "a UDP checksum of 0 stays",
        input: &[HEAD, TUNNEL, INNER, UNSUMMED],
        sent: &[
            "00000029 02 00000000000f4240
            4500 0020 0001 0000 3f 11 7dbe c0000208 cb007105 0400 0035 000c 0000 61626364",
        ],
        ..ONE_PACKET
    },
    Case {
        name: "a UDP checksum that becomes 0 is sent as all ones",
        input: &[HEAD, TUNNEL, INNER, "1388 0035 000c f27d 61629c30"],
        sent: &[
            "00000029 02 00000000000f4240
            4500 0020 0001 0000 3f 11 7dbe c0000208 cb007105 0400 0035 000c ffff 61629c30",
        ],
        ..ONE_PACKET
    },
];

// The first packet behind a Destination Options header with a Tunnel Encapsulation Limit (RFC 2473 4.1.1), and behind a
// Hop-by-Hop Options header of 16 bytes and that one.
static EXTENSIONS: [Case<'static>; 2] = [
    Case {
        name: "a Tunnel Encapsulation Limit",
        input: &[
            "00000059 01 00000000000f4240",
            "60000000 0028 3c 40
            20010db8010000000000000000000002 20010db8000000000000000000000001",
            "04 00 04 01 04 01 01 00",
            INNER,
            DATAGRAM,
        ],
        ..ONE_PACKET
    },
    Case {
        name: "two extension headers",
        input: &[
            "00000069 01 00000000000f4240",
            "60000000 0038 00 40
            20010db8010000000000000000000002 20010db8000000000000000000000001",
            "3c 01 01 0c 00000000 0000000000000000",
            "04 00 04 01 04 01 01 00",
            INNER,
            DATAGRAM,
        ],
        ..ONE_PACKET
    },
];

#[test]
fn extension_headers_are_skipped(rt: HostRuntime) {
    check_all(&rt, &EXTENSIONS);
}

#[test]
fn packets_go_out(rt: HostRuntime) {
    check_all(&rt, &PACKETS);
    check_all_without_faults(&rt, &PACKETS);
}

#[test]
fn udp_checksums(rt: HostRuntime) {
    check_all(&rt, &CHECKSUMS);
    check_all_without_faults(&rt, &CHECKSUMS);
}
