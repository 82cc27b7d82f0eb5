//! Fragments of the IPv6 packets that come from the softwire side, put together (RFC 8200 section 4.5, RFC 6333 section 5.3).

use crate::case::{Case, RUN};
use crate::driver::check_all;
use crate::logs::{Frame, LogFile};
use crate::packets::{DATAGRAM, FIRST_FRAME, FIRST_SENT, INNER};
use crate::restarts::RECOVERED;
use aftr_base::DropCause;

/// A record of 73 bytes: from the first packet's sender a fragment with 16 bytes, which stand behind it with their
/// Fragment header.
pub const FRAGMENT: &str = "00000049 01 00000000000f4240
    60000000 0018 2c 40 20010db8010000000000000000000002 20010db8000000000000000000000001";

/// The halves of the first packet, with the identification 7.
pub const FIRST_HALF: &str = "04 00 0001 00000007 4500 0020 0001 0000 40 11 7ec4 c0000002";

pub const SECOND_HALF: &str = "04 00 0010 00000007 cb007105 1388 0035 000c 2b4a 61626364";

// The same from another subscriber, and from a further softwire of the first packet's sender.
const OTHERS_FRAGMENT: &str = "00000049 01 00000000000f4240
    60000000 0018 2c 40 20010db8010001000000000000000002 20010db8000000000000000000000001";

const NEXT_SOFTWIRE: &str = "00000049 01 00000000000f4240
    60000000 0018 2c 40 20010db8010000000000000000000003 20010db8000000000000000000000001";

// A record of 65 bytes: a fragment with 8 bytes.
const SHORT: &str = "00000041 01 00000000000f4240
    60000000 0010 2c 40 20010db8010000000000000000000002 20010db8000000000000000000000001";

// Two records make the first packet.
const TWO_HALVES: Case<'static> = Case {
    report: "records 2\nsent 1\nmarks 0\n",
    sent: &[FIRST_SENT],
    log_after: LogFile::Frames(&[FIRST_FRAME]),
    ..RUN
};

// So do they with a bad one between them.
const BETWEEN: Case<'static> = Case {
    report: "records 3\nsent 1\nmarks 0\ndrop BadPacket 1\n",
    drops: &[(DropCause::BadPacket, 1)],
    ..TWO_HALVES
};

// The second of three records ends what is held, and the third is held alone.
const OVERLAP: Case<'static> = Case {
    report: "records 3\nsent 0\nmarks 0\ndrop PieceOverlap 1\n",
    drops: &[(DropCause::PieceOverlap, 1)],
    ..RUN
};

static WHOLE: [Case<'static>; 8] = [
    Case {
        name: "the second half twice, and then the first",
        input: &[
            FRAGMENT,
            SECOND_HALF,
            FRAGMENT,
            SECOND_HALF,
            FRAGMENT,
            FIRST_HALF,
        ],
        report: "records 3\nsent 1\nmarks 0\n",
        ..TWO_HALVES
    },
    Case {
        name: "each half behind a Tunnel Encapsulation Limit",
        input: &[
            "00000051 01 00000000000f4240
            60000000 0020 3c 40 20010db8010000000000000000000002 20010db8000000000000000000000001
            2c 00 04 01 04 01 01 00",
            FIRST_HALF,
            "00000051 01 00000000000f4240
            60000000 0020 3c 40 20010db8010000000000000000000002 20010db8000000000000000000000001
            2c 00 04 01 04 01 01 00",
            SECOND_HALF,
        ],
        ..TWO_HALVES
    },
    // What the second fragment has for a next header counts for nothing.
    Case {
        name: "a limit in the packet that is cut",
        input: &[
            "00000051 01 00000000000f4240
            60000000 0020 2c 40 20010db8010000000000000000000002 20010db8000000000000000000000001
            3c 00 0001 00000007 04 00 04 01 04 01 01 00 4500 0020 0001 0000 40 11 7ec4 c0000002",
            FRAGMENT,
            "3b 00 0018 00000007 cb007105 1388 0035 000c 2b4a 61626364",
        ],
        ..TWO_HALVES
    },
    Case {
        name: "a traffic class, a flow label and reserved bits",
        input: &[
            "00000049 01 00000000000f4240
            6a512345 0018 2c 3f 20010db8010000000000000000000002 20010db8000000000000000000000001",
            "04 a5 0007 00000007 4500 0020 0001 0000 40 11 7ec4 c0000002",
            FRAGMENT,
            "04 5a 0016 00000007 cb007105 1388 0035 000c 2b4a 61626364",
        ],
        ..TWO_HALVES
    },
    Case {
        name: "three fragments, the middle one last",
        input: &[
            SHORT,
            "04 00 0001 00000007 4500 0020 0001 0000",
            FRAGMENT,
            SECOND_HALF,
            SHORT,
            "04 00 0009 00000007 40 11 7ec4 c0000002",
        ],
        report: "records 3\nsent 1\nmarks 0\n",
        ..TWO_HALVES
    },
    Case {
        name: "one that is whole by itself, between the halves of another",
        input: &[
            FRAGMENT,
            SECOND_HALF,
            "00000059 01 00000000000f4240
            60000000 0028 2c 40 20010db8010000000000000000000002 20010db8000000000000000000000001
            04 00 0000 00000007",
            INNER,
            DATAGRAM,
            FRAGMENT,
            FIRST_HALF,
        ],
        report: "records 3\nsent 2\nmarks 0\n",
        sent: &[FIRST_SENT, FIRST_SENT],
        ..TWO_HALVES
    },
    Case {
        name: "halves of two identifications and of two softwires",
        input: &[
            FRAGMENT,
            SECOND_HALF,
            NEXT_SOFTWIRE,
            SECOND_HALF,
            FRAGMENT,
            "04 00 0010 00000008 cb007105 1388 0035 000c 2b4a 61626364",
            FRAGMENT,
            FIRST_HALF,
            NEXT_SOFTWIRE,
            FIRST_HALF,
        ],
        report: "records 5\nsent 2\nmarks 0\n",
        sent: &[
            FIRST_SENT,
            "00000029 02 00000000000f4240
            4500 0020 0001 0000 3f 11 7dbe c0000208 cb007105
            0401 0035 000c 38cb 61626364",
        ],
        ..TWO_HALVES
    },
    Case {
        name: "halves of two subscribers",
        input: &[
            FRAGMENT,
            SECOND_HALF,
            OTHERS_FRAGMENT,
            FIRST_HALF,
            OTHERS_FRAGMENT,
            SECOND_HALF,
            FRAGMENT,
            FIRST_HALF,
        ],
        report: "records 4\nsent 2\nmarks 0\n",
        sent: &[
            FIRST_SENT,
            "00000029 02 00000000000f4240
            4500 0020 0001 0000 3f 11 7dbe c0000208 cb007105
            0600 0035 000c 36cc 61626364",
        ],
        log_after: LogFile::Frames(&[
            Frame {
                horizon: Some("00000000000f4240 00000000000f4a10"),
                blocks: &[
                    "00000000000f4240 10 20010db8010001000000000000000000 38 c0000208 0400 05ff",
                ],
            },
            Frame {
                horizon: None,
                blocks: &[
                    "00000000000f4240 10 20010db8010000000000000000000000 38 c0000208 0600 07ff",
                ],
            },
        ]),
        ..TWO_HALVES
    },
];

// A fragment that can't be one of the same packet ends what is held of it (RFC 5722 section 4).
static OVERLAPS: [Case<'static>; 8] = [
    Case {
        name: "a byte of two",
        input: &[
            FRAGMENT,
            SECOND_HALF,
            FRAGMENT,
            "04 00 0009 00000007 4500 0020 0001 0000 40 11 7ec4 c0000002",
            FRAGMENT,
            FIRST_HALF,
        ],
        ..OVERLAP
    },
    Case {
        name: "other bytes in the same place",
        input: &[
            FRAGMENT,
            SECOND_HALF,
            FRAGMENT,
            "04 00 0010 00000007 cb007105 1388 0035 000c 2b4a 61626365",
            FRAGMENT,
            FIRST_HALF,
        ],
        ..OVERLAP
    },
    Case {
        name: "the same bytes, but not the last",
        input: &[
            FRAGMENT,
            SECOND_HALF,
            FRAGMENT,
            "04 00 0011 00000007 cb007105 1388 0035 000c 2b4a 61626364",
            FRAGMENT,
            FIRST_HALF,
        ],
        ..OVERLAP
    },
    Case {
        name: "a second last one behind the last",
        input: &[
            FRAGMENT,
            SECOND_HALF,
            SHORT,
            "04 00 0020 00000007 00x8",
            FRAGMENT,
            FIRST_HALF,
        ],
        ..OVERLAP
    },
    Case {
        name: "a second last one before the last",
        input: &[
            FRAGMENT,
            SECOND_HALF,
            SHORT,
            "04 00 0008 00000007 00x8",
            FRAGMENT,
            FIRST_HALF,
        ],
        ..OVERLAP
    },
    Case {
        name: "one behind the last",
        input: &[
            FRAGMENT,
            SECOND_HALF,
            SHORT,
            "04 00 0021 00000007 00x8",
            FRAGMENT,
            FIRST_HALF,
        ],
        ..OVERLAP
    },
    Case {
        name: "a last one before another",
        input: &[
            FRAGMENT,
            "04 00 0011 00000007 cb007105 1388 0035 000c 2b4a 61626364",
            SHORT,
            "04 00 0008 00000007 00x8",
            FRAGMENT,
            FIRST_HALF,
        ],
        ..OVERLAP
    },
    Case {
        name: "and then the whole packet",
        input: &[
            FRAGMENT,
            SECOND_HALF,
            FRAGMENT,
            "04 00 0009 00000007 4500 0020 0001 0000 40 11 7ec4 c0000002",
            FRAGMENT,
            FIRST_HALF,
            FRAGMENT,
            SECOND_HALF,
        ],
        report: "records 4\nsent 1\nmarks 0\ndrop PieceOverlap 1\n",
        sent: &[FIRST_SENT],
        log_after: LogFile::Frames(&[FIRST_FRAME]),
        ..OVERLAP
    },
];

// A fragment that is bad or too long leaves what is held.
static BAD: [Case<'static>; 6] = [
    Case {
        name: "no bytes",
        input: &[
            FRAGMENT,
            FIRST_HALF,
            "00000039 01 00000000000f4240
            60000000 0008 2c 40 20010db8010000000000000000000002 20010db8000000000000000000000001",
            "04 00 0010 00000007",
            FRAGMENT,
            SECOND_HALF,
        ],
        ..BETWEEN
    },
    Case {
        name: "no bytes, whole by itself",
        input: &[
            FRAGMENT,
            FIRST_HALF,
            "00000039 01 00000000000f4240
            60000000 0008 2c 40 20010db8010000000000000000000002 20010db8000000000000000000000001",
            "04 00 0000 00000007",
            FRAGMENT,
            SECOND_HALF,
        ],
        ..BETWEEN
    },
    Case {
        name: "15 bytes, but not the last",
        input: &[
            FRAGMENT,
            FIRST_HALF,
            "00000048 01 00000000000f4240
            60000000 0017 2c 40 20010db8010000000000000000000002 20010db8000000000000000000000001",
            "04 00 0011 00000007 cb007105 1388 0035 000c 2b4a 616263",
            FRAGMENT,
            SECOND_HALF,
        ],
        ..BETWEEN
    },
    Case {
        name: "a Fragment header of 7 bytes",
        input: &[
            FRAGMENT,
            FIRST_HALF,
            "00000038 01 00000000000f4240
            60000000 0007 2c 40 20010db8010000000000000000000002 20010db8000000000000000000000001",
            "04 00 0010 000000",
            FRAGMENT,
            SECOND_HALF,
        ],
        ..BETWEEN
    },
    Case {
        name: "up to the byte 65,536",
        input: &[
            FRAGMENT,
            FIRST_HALF,
            SHORT,
            "04 00 fff8 00000007 00x8",
            FRAGMENT,
            SECOND_HALF,
        ],
        report: "records 3\nsent 1\nmarks 0\ndrop PieceTooLong 1\n",
        drops: &[(DropCause::PieceTooLong, 1)],
        ..BETWEEN
    },
    Case {
        name: "up to the byte 65,535, which the second half is none of",
        input: &[
            FRAGMENT,
            FIRST_HALF,
            "00000040 01 00000000000f4240
            60000000 000f 2c 40 20010db8010000000000000000000002 20010db8000000000000000000000001",
            "04 00 fff8 00000007 00x7",
            FRAGMENT,
            SECOND_HALF,
        ],
        report: "records 3\nsent 0\nmarks 0\ndrop PieceOverlap 1\n",
        drops: &[(DropCause::PieceOverlap, 1)],
        ..RUN
    },
];

// What the fragments make is refused as a packet that came whole.
static INSIDE: [Case<'static>; 6] = [
    Case {
        name: "another Fragment header",
        input: &[
            "00000051 01 00000000000f4240
            60000000 0020 2c 40 20010db8010000000000000000000002 20010db8000000000000000000000001
            2c 00 0001 00000007 04 00 0000 00000008 4500 0020 0001 0000 40 11 7ec4 c0000002",
            FRAGMENT,
            "2c 00 0018 00000007 cb007105 1388 0035 000c 2b4a 61626364",
        ],
        report: "records 2\nsent 0\nmarks 0\ndrop NotTunnel 1\n",
        drops: &[(DropCause::NotTunnel, 1)],
        ..RUN
    },
    Case {
        name: "another Fragment header, in one that is whole by itself",
        input: &[
            "00000061 01 00000000000f4240
            60000000 0030 2c 40 20010db8010000000000000000000002 20010db8000000000000000000000001
            2c 00 0000 00000007 04 00 0000 00000008",
            INNER,
            DATAGRAM,
        ],
        report: "records 1\nsent 0\nmarks 0\ndrop NotTunnel 1\n",
        drops: &[(DropCause::NotTunnel, 1)],
        ..RUN
    },
    Case {
        name: "no next header",
        input: &[
            FRAGMENT,
            SECOND_HALF,
            FRAGMENT,
            "3b 00 0001 00000007 4500 0020 0001 0000 40 11 7ec4 c0000002",
        ],
        report: "records 2\nsent 0\nmarks 0\ndrop NotTunnel 1\n",
        drops: &[(DropCause::NotTunnel, 1)],
        ..RUN
    },
    Case {
        name: "options past the end",
        input: &[
            FRAGMENT,
            SECOND_HALF,
            FRAGMENT,
            "3c 00 0001 00000007 0404 0401 04010100 40 11 7ec4 c0000002",
        ],
        report: "records 2\nsent 0\nmarks 0\ndrop BadPacket 1\n",
        drops: &[(DropCause::BadPacket, 1)],
        ..RUN
    },
    Case {
        name: "a wrong checksum of the IPv4 header",
        input: &[
            FRAGMENT,
            SECOND_HALF,
            FRAGMENT,
            "04 00 0001 00000007 4500 0020 0001 0000 40 11 7ec5 c0000002",
        ],
        report: "records 2\nsent 0\nmarks 0\ndrop BadPacket 1\n",
        drops: &[(DropCause::BadPacket, 1)],
        ..RUN
    },
    Case {
        name: "IPv4 options",
        input: &[
            "00000051 01 00000000000f4240
            60000000 0020 2c 40 20010db8010000000000000000000002 20010db8000000000000000000000001
            04 00 0001 00000007 4600 0024 0001 0000 40 11 7bbe c0000002 cb007105 01010101",
            "00000045 01 00000000000f4240
            60000000 0014 2c 40 20010db8010000000000000000000002 20010db8000000000000000000000001
            04 00 0018 00000007 1388 0035 000c 2b4a 61626364",
        ],
        report: "records 2\nsent 0\nmarks 0\ndrop Options 1\n",
        drops: &[(DropCause::Options, 1)],
        ..RUN
    },
];

// What is looked at before any fragment is held.
static BEFORE: [Case<'static>; 4] = [
    Case {
        name: "to another host",
        input: &[
            "00000049 01 00000000000f4240
            60000000 0018 2c 40 20010db8010000000000000000000002 20010db8000000000000000000000002",
            FIRST_HALF,
            FRAGMENT,
            SECOND_HALF,
        ],
        report: "records 2\nsent 0\nmarks 0\ndrop NotUs 1\n",
        drops: &[(DropCause::NotUs, 1)],
        ..RUN
    },
    Case {
        name: "from no subscriber",
        input: &[
            "00000049 01 00000000000f4240
            60000000 0018 2c 40 20010db9000000000000000000000002 20010db8000000000000000000000001",
            FIRST_HALF,
            "00000049 01 00000000000f4240
            60000000 0018 2c 40 20010db9000000000000000000000002 20010db8000000000000000000000001",
            SECOND_HALF,
        ],
        report: "records 2\nsent 0\nmarks 0\ndrop UnknownSubscriber 2\n",
        drops: &[(DropCause::UnknownSubscriber, 2)],
        ..RUN
    },
    Case {
        name: "a change of the configuration between the halves, which is refused",
        input: &[
            FRAGMENT,
            FIRST_HALF,
            "0000000a 04 00000000000f4240 20",
            FRAGMENT,
            SECOND_HALF,
        ],
        report: "records 3\nsent 1\nmarks 0\ndrop BadChange 1\n",
        drops: &[(DropCause::BadChange, 1)],
        ..TWO_HALVES
    },
    Case {
        name: "at the horizon of what was told, and behind it",
        input: &[
            "00000049 01 00000000000f4a10
            60000000 0018 2c 40 20010db8010000000000000000000002 20010db8000000000000000000000001",
            FIRST_HALF,
            "00000049 01 00000000000f4a11
            60000000 0018 2c 40 20010db8010000000000000000000002 20010db8000000000000000000000001",
            SECOND_HALF,
            "00000049 01 00000000000f4a11
            60000000 0018 2c 40 20010db8010000000000000000000002 20010db8000000000000000000000001",
            FIRST_HALF,
        ],
        log: LogFile::Frames(&[FIRST_FRAME]),
        report: "records 3\nsent 1\nmarks 0\ndrop Settling 1\n",
        sent: &[
            "00000029 02 00000000000f4a11
            4500 0020 0001 0000 3f 11 7dbe c0000208 cb007105
            0400 0035 000c 38cc 61626364",
        ],
        log_after: LogFile::Frames(&[
            FIRST_FRAME,
            RECOVERED,
            Frame {
                horizon: Some("00000000000f4a11 00000000000f51e1"),
                blocks: &[
                    "00000000000f4a11 10 20010db8010000000000000000000000 38 c0000208 0400 05ff",
                ],
            },
        ]),
        drops: &[(DropCause::Settling, 1)],
        ..RUN
    },
];

#[test]
fn fragments_make_packets(rt: HostRuntime) {
    check_all(&rt, &WHOLE);
}

#[test]
fn fragments_that_overlap(rt: HostRuntime) {
    check_all(&rt, &OVERLAPS);
}

#[test]
fn fragments_that_are_bad(rt: HostRuntime) {
    check_all(&rt, &BAD);
}

#[test]
fn packets_that_are_refused_once_they_are_whole(rt: HostRuntime) {
    check_all(&rt, &INSIDE);
}

#[test]
fn records_that_are_refused_before(rt: HostRuntime) {
    check_all(&rt, &BEFORE);
}
