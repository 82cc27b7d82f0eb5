//! IPv4 packets of subscribers that come in pieces, put together before they are translated (RFC 791 section 3.2).

use crate::case::{Case, RUN};
use crate::driver::check_all;
use crate::logs::LogFile;
use crate::packets::{FIRST_FRAME, FIRST_SENT, HEAD, PACKET};
use aftr_base::DropCause;

/// The first packet in two pieces, of 8 bytes and of 4.
pub const FIRST_PIECE: &str = "0000004d 01 00000000000f4240
    60000000 001c 04 40 20010db8010000000000000000000002 20010db8000000000000000000000001
    4500 001c 0001 2000 40 11 5ec8 c0000002 cb007105 1388 0035 000c 2b4a";

pub const LAST_PIECE: &str = "00000049 01 00000000000f4240
    60000000 0018 04 40 20010db8010000000000000000000002 20010db8000000000000000000000001
    4500 0018 0001 0001 40 11 7ecb c0000002 cb007105 61626364";

// Two records make the first packet.
const TWO_PIECES: Case<'static> = Case {
    report: "records 2\nsent 1\nmarks 0\n",
    sent: &[FIRST_SENT],
    log_after: LogFile::Frames(&[FIRST_FRAME]),
    ..RUN
};

// So do they with a bad one between them.
const BETWEEN: Case<'static> = Case {
    report: "records 3\nsent 1\nmarks 0\ndrop BadPacket 1\n",
    drops: &[(DropCause::BadPacket, 1)],
    ..TWO_PIECES
};

// The second of three records ends what is held, and the third is held alone.
const OVERLAP: Case<'static> = Case {
    report: "records 3\nsent 0\nmarks 0\ndrop PieceOverlap 1\n",
    drops: &[(DropCause::PieceOverlap, 1)],
    ..RUN
};

static WHOLE: [Case<'static>; 9] = [
    Case {
        name: "in order",
        input: &[FIRST_PIECE, LAST_PIECE],
        ..TWO_PIECES
    },
    Case {
        name: "the last piece first, and twice",
        input: &[LAST_PIECE, LAST_PIECE, FIRST_PIECE],
        report: "records 3\nsent 1\nmarks 0\n",
        ..TWO_PIECES
    },
    Case {
        name: "the header is the first piece's, but for a reserved flag",
        input: &[
            "00000049 01 00000000000f4240
            60000000 0018 04 40 20010db8010000000000000000000002 20010db8000000000000000000000001
            4500 0018 0001 0001 09 11 b5cb c0000002 cb007105 61626364",
            "0000004d 01 00000000000f4240
            60000000 001c 04 40 20010db8010000000000000000000002 20010db8000000000000000000000001
            4528 001c 0001 e000 40 11 9e9f c0000002 cb007105 1388 0035 000c 2b4a",
        ],
        sent: &[
            "00000029 02 00000000000f4240
            4528 0020 0001 4000 3f 11 3d96 c0000208 cb007105
            0400 0035 000c 38cc 61626364",
        ],
        ..TWO_PIECES
    },
    Case {
        name: "a piece in two fragments, and a piece as it is",
        input: &[
            "00000045 01 00000000000f4240
            60000000 0014 2c 40 20010db8010000000000000000000002 20010db8000000000000000000000001
            04 00 0010 00000007 cb007105 1388 0035 000c 2b4a",
            LAST_PIECE,
            "00000049 01 00000000000f4240
            60000000 0018 2c 40 20010db8010000000000000000000002 20010db8000000000000000000000001
            04 00 0001 00000007 4500 001c 0001 2000 40 11 5ec8 c0000002",
        ],
        report: "records 3\nsent 1\nmarks 0\n",
        ..TWO_PIECES
    },
    Case {
        name: "a segment of TCP in three pieces",
        input: &[
            "0000004d 01 00000000000f4240
            60000000 001c 04 40 20010db8010000000000000000000002 20010db8000000000000000000000001
            4500 001c 0001 2001 40 06 5ed2 c0000002 cb007105 000000005002ffff",
            "00000049 01 00000000000f4240
            60000000 0018 04 40 20010db8010000000000000000000002 20010db8000000000000000000000001
            4500 0018 0001 0002 40 06 7ed5 c0000002 cb007105 a0010000",
            "0000004d 01 00000000000f4240
            60000000 001c 04 40 20010db8010000000000000000000002 20010db8000000000000000000000001
            4500 001c 0001 2000 40 06 5ed3 c0000002 cb007105 1388005000000001",
        ],
        report: "records 3\nsent 1\nmarks 0\n",
        sent: &[
            "00000031 02 00000000000f4240
            4500 0028 0001 0000 3f 06 7dc1 c0000208 cb007105
            0400 0050 00000001 00000000 5002 ffff ad83 0000",
        ],
        ..TWO_PIECES
    },
    Case {
        name: "an echo request",
        input: &[
            "00000049 01 00000000000f4240
            60000000 0018 04 40 20010db8010000000000000000000002 20010db8000000000000000000000001
            4500 0018 0001 0001 40 01 7edb c0000002 cb007105 70696e67",
            "0000004d 01 00000000000f4240
            60000000 001c 04 40 20010db8010000000000000000000002 20010db8000000000000000000000001
            4500 001c 0001 2000 40 01 5ed8 c0000002 cb007105 0800 1927 0007 0001",
        ],
        sent: &[
            "00000029 02 00000000000f4240
            4500 0020 0001 0000 3f 01 7dce c0000208 cb007105
            08 00 152e 0400 0001 70696e67",
        ],
        ..TWO_PIECES
    },
    Case {
        name: "an ICMP error",
        input: &[
            HEAD,
            PACKET,
            "00000055 01 00000000000f4240
            60000000 0024 04 40 20010db8010000000000000000000002 20010db8000000000000000000000001
            4500 0024 0004 2000 40 01 5ecd c0000002 cb007105 03 03 f922 00000000 4500 0020 0007 0000",
            "0000005d 01 00000000000f4240
            60000000 002c 04 40 20010db8010000000000000000000002 20010db8000000000000000000000001
            4500 002c 0004 0002 40 01 7ec3 c0000002 cb007105 3f 11 7fbe cb007105 c0000002 0035 1388 000c 2b4a 61626364",
        ],
        report: "records 3\nsent 2\nmarks 0\n",
        sent: &[
            FIRST_SENT,
            "00000045 02 00000000000f4240
            4500 003c 0004 0000 3f 01 7daf c0000208 cb007105
            03 03 fb28 00000000
            4500 0020 0007 0000 3f 11 7db8 cb007105 c0000208
            0035 0400 000c 38cc 61626364",
        ],
        ..TWO_PIECES
    },
    Case {
        name: "to its own place",
        input: &[
            HEAD,
            PACKET,
            "0000004d 01 00000000000f4240
            60000000 001c 04 40 20010db8010000000000000000000002 20010db8000000000000000000000001
            4500 001c 0001 2000 40 11 d8c5 c0000002 c0000208 1388 0400 000c a17c",
            "00000049 01 00000000000f4240
            60000000 0018 04 40 20010db8010000000000000000000002 20010db8000000000000000000000001
            4500 0018 0001 0001 40 11 f8c8 c0000002 c0000208 61626364",
        ],
        report: "records 3\nsent 2\nmarks 0\n",
        sent: &[
            FIRST_SENT,
            "00000051 01 00000000000f4240
            60000000 0020 04 40 20010db8000000000000000000000001 20010db8010000000000000000000002
            4500 0020 0001 0000 3f 11 f9c1 c0000208 c0000002
            0400 1388 000c a17c 61626364",
        ],
        ..TWO_PIECES
    },
    Case {
        name: "others in between, each but for one field like the last piece",
        input: &[
            FIRST_PIECE,
            "00000049 01 00000000000f4240
            60000000 0018 04 40 20010db8010000000000000000000002 20010db8000000000000000000000001
            4500 0018 0002 0001 40 11 7eca c0000002 cb007105 61626364",
            "00000049 01 00000000000f4240
            60000000 0018 04 40 20010db8010000000000000000000002 20010db8000000000000000000000001
            4500 0018 0001 0001 40 06 7ed6 c0000002 cb007105 61626364",
            "00000049 01 00000000000f4240
            60000000 0018 04 40 20010db8010000000000000000000002 20010db8000000000000000000000001
            4500 0018 0001 0001 40 11 7eca c0000003 cb007105 61626364",
            "00000049 01 00000000000f4240
            60000000 0018 04 40 20010db8010000000000000000000002 20010db8000000000000000000000001
            4500 0018 0001 0001 40 11 7eca c0000002 cb007106 61626364",
            "00000049 01 00000000000f4240
            60000000 0018 04 40 20010db8010000000000000000000003 20010db8000000000000000000000001
            4500 0018 0001 0001 40 11 7ecb c0000002 cb007105 61626364",
            "00000049 01 00000000000f4240
            60000000 0018 04 40 20010db8010001000000000000000002 20010db8000000000000000000000001
            4500 0018 0001 0001 40 11 7ecb c0000002 cb007105 61626364",
            LAST_PIECE,
        ],
        report: "records 8\nsent 1\nmarks 0\n",
        ..TWO_PIECES
    },
];

// A piece that can't be one of the same packet ends what is held of it.
static OVERLAPS: [Case<'static>; 4] = [
    Case {
        name: "8 bytes of two",
        input: &[
            LAST_PIECE,
            "00000055 01 00000000000f4240
            60000000 0024 04 40 20010db8010000000000000000000002 20010db8000000000000000000000001
            4500 0024 0001 2000 40 11 5ec0 c0000002 cb007105 1388 0035 000c 2b4a 00x8",
            FIRST_PIECE,
        ],
        ..OVERLAP
    },
    Case {
        name: "other bytes in the same place",
        input: &[
            LAST_PIECE,
            "00000049 01 00000000000f4240
            60000000 0018 04 40 20010db8010000000000000000000002 20010db8000000000000000000000001
            4500 0018 0001 0001 40 11 7ecb c0000002 cb007105 61626365",
            FIRST_PIECE,
        ],
        ..OVERLAP
    },
    Case {
        name: "one behind the last",
        input: &[
            LAST_PIECE,
            "0000004d 01 00000000000f4240
            60000000 001c 04 40 20010db8010000000000000000000002 20010db8000000000000000000000001
            4500 001c 0001 2002 40 11 5ec6 c0000002 cb007105 00x8",
            FIRST_PIECE,
        ],
        ..OVERLAP
    },
    Case {
        name: "a last one before another",
        input: &[
            "0000004d 01 00000000000f4240
            60000000 001c 04 40 20010db8010000000000000000000002 20010db8000000000000000000000001
            4500 001c 0001 2002 40 11 5ec6 c0000002 cb007105 00x8",
            "00000049 01 00000000000f4240
            60000000 0018 04 40 20010db8010000000000000000000002 20010db8000000000000000000000001
            4500 0018 0001 0001 40 11 7ecb c0000002 cb007105 61626364",
            FIRST_PIECE,
        ],
        ..OVERLAP
    },
];

// A piece that is bad, has options or is too long leaves what is held.
static BAD: [Case<'static>; 6] = [
    Case {
        name: "no bytes",
        input: &[
            FIRST_PIECE,
            "00000045 01 00000000000f4240
            60000000 0014 04 40 20010db8010000000000000000000002 20010db8000000000000000000000001
            4500 0014 0001 0001 40 11 7ecf c0000002 cb007105",
            LAST_PIECE,
        ],
        ..BETWEEN
    },
    Case {
        name: "9 bytes, but not the last",
        input: &[
            FIRST_PIECE,
            "0000004e 01 00000000000f4240
            60000000 001d 04 40 20010db8010000000000000000000002 20010db8000000000000000000000001
            4500 001d 0001 2001 40 11 5ec6 c0000002 cb007105 616263640000000000",
            LAST_PIECE,
        ],
        ..BETWEEN
    },
    Case {
        name: "a wrong checksum of its header",
        input: &[
            FIRST_PIECE,
            "00000049 01 00000000000f4240
            60000000 0018 04 40 20010db8010000000000000000000002 20010db8000000000000000000000001
            4500 0018 0001 0001 40 11 7ecc c0000002 cb007105 61626364",
            LAST_PIECE,
        ],
        ..BETWEEN
    },
    Case {
        name: "options",
        input: &[
            FIRST_PIECE,
            "0000004d 01 00000000000f4240
            60000000 001c 04 40 20010db8010000000000000000000002 20010db8000000000000000000000001
            4600 001c 0001 0001 40 11 7bc5 c0000002 cb007105 01010101 61626364",
            LAST_PIECE,
        ],
        report: "records 3\nsent 1\nmarks 0\ndrop Options 1\n",
        drops: &[(DropCause::Options, 1)],
        ..BETWEEN
    },
    Case {
        name: "up to the byte 65,536 with the header",
        input: &[
            FIRST_PIECE,
            "00000049 01 00000000000f4240
            60000000 0018 04 40 20010db8010000000000000000000002 20010db8000000000000000000000001
            4500 0018 0001 1ffd 40 11 5ecf c0000002 cb007105 00x4",
            LAST_PIECE,
        ],
        report: "records 3\nsent 1\nmarks 0\ndrop PieceTooLong 1\n",
        drops: &[(DropCause::PieceTooLong, 1)],
        ..BETWEEN
    },
    Case {
        name: "up to the byte 65,535, which the last piece is none of",
        input: &[
            FIRST_PIECE,
            "00000048 01 00000000000f4240
            60000000 0017 04 40 20010db8010000000000000000000002 20010db8000000000000000000000001
            4500 0017 0001 1ffd 40 11 5ed0 c0000002 cb007105 00x3",
            LAST_PIECE,
        ],
        report: "records 3\nsent 0\nmarks 0\ndrop PieceOverlap 1\n",
        drops: &[(DropCause::PieceOverlap, 1)],
        ..RUN
    },
];

// The second record makes a packet whole, which is dropped.
const REFUSED: Case<'static> = Case {
    report: "records 2\nsent 0\nmarks 0\ndrop BadPacket 1\n",
    drops: &[(DropCause::BadPacket, 1)],
    ..RUN
};

// What the pieces make is refused as a packet that came whole.
static INSIDE: [Case<'static>; 6] = [
    Case {
        name: "a UDP length past its end",
        input: &[
            "0000004d 01 00000000000f4240
            60000000 001c 04 40 20010db8010000000000000000000002 20010db8000000000000000000000001
            4500 001c 0001 2000 40 11 5ec8 c0000002 cb007105 1388 0035 000d 2b49",
            LAST_PIECE,
        ],
        ..REFUSED
    },
    Case {
        name: "an echo request with a wrong checksum",
        input: &[
            "0000004d 01 00000000000f4240
            60000000 001c 04 40 20010db8010000000000000000000002 20010db8000000000000000000000001
            4500 001c 0001 2000 40 01 5ed8 c0000002 cb007105 0800 1928 0007 0001",
            "00000049 01 00000000000f4240
            60000000 0018 04 40 20010db8010000000000000000000002 20010db8000000000000000000000001
            4500 0018 0001 0001 40 01 7edb c0000002 cb007105 70696e67",
        ],
        ..REFUSED
    },
    Case {
        name: "to a softwire's end",
        input: &[
            "0000004d 01 00000000000f4240
            60000000 001c 04 40 20010db8010000000000000000000002 20010db8000000000000000000000001
            4500 001c 0001 2000 40 11 dacc c0000002 c0000001 1388 0035 000c 2b4a",
            "00000049 01 00000000000f4240
            60000000 0018 04 40 20010db8010000000000000000000002 20010db8000000000000000000000001
            4500 0018 0001 0001 40 11 facf c0000002 c0000001 61626364",
        ],
        report: "records 2\nsent 0\nmarks 0\ndrop NoRoute 1\n",
        drops: &[(DropCause::NoRoute, 1)],
        ..REFUSED
    },
    Case {
        name: "GRE",
        input: &[
            "0000004d 01 00000000000f4240
            60000000 001c 04 40 20010db8010000000000000000000002 20010db8000000000000000000000001
            4500 001c 0001 2000 40 2f 5eaa c0000002 cb007105 00x8",
            "00000049 01 00000000000f4240
            60000000 0018 04 40 20010db8010000000000000000000002 20010db8000000000000000000000001
            4500 0018 0001 0001 40 2f 7ead c0000002 cb007105 61626364",
        ],
        report: "records 2\nsent 0\nmarks 0\ndrop NoProtocol 1\n",
        drops: &[(DropCause::NoProtocol, 1)],
        ..REFUSED
    },
    Case {
        name: "an echo reply without a mapping",
        input: &[
            "0000004d 01 00000000000f4240
            60000000 001c 04 40 20010db8010000000000000000000002 20010db8000000000000000000000001
            4500 001c 0001 2000 40 01 5ed8 c0000002 cb007105 0000 2127 0007 0001",
            "00000049 01 00000000000f4240
            60000000 0018 04 40 20010db8010000000000000000000002 20010db8000000000000000000000001
            4500 0018 0001 0001 40 01 7edb c0000002 cb007105 70696e67",
        ],
        report: "records 2\nsent 0\nmarks 0\ndrop NoMapping 1\n",
        drops: &[(DropCause::NoMapping, 1)],
        ..REFUSED
    },
    Case {
        name: "to a place of the pool that nobody has",
        input: &[
            HEAD,
            PACKET,
            "0000004d 01 00000000000f4240
            60000000 001c 04 40 20010db8010000000000000000000002 20010db8000000000000000000000001
            4500 001c 0001 2000 40 11 d8c5 c0000002 c0000208 1388 0800 000c 9d7c",
            "00000049 01 00000000000f4240
            60000000 0018 04 40 20010db8010000000000000000000002 20010db8000000000000000000000001
            4500 0018 0001 0001 40 11 f8c8 c0000002 c0000208 61626364",
        ],
        report: "records 3\nsent 1\nmarks 0\ndrop NoMapping 1\n",
        sent: &[FIRST_SENT],
        log_after: LogFile::Frames(&[FIRST_FRAME]),
        drops: &[(DropCause::NoMapping, 1)],
        ..REFUSED
    },
];

// The second record makes a packet whole, which is dropped, and its sender is told.
const TOLD: Case<'static> = Case {
    report: "records 2\nsent 1\nmarks 0\ndrop TtlSpent 1\n",
    drops: &[(DropCause::TtlSpent, 1)],
    ..RUN
};

// What is told quotes the header of the whole packet, without the flags of pieces and the reserved one.
static ERRORS: [Case<'static>; 3] = [
    Case {
        name: "a TTL of 1, in the first piece",
        input: &[
            "0000004d 01 00000000000f4240
            60000000 001c 04 40 20010db8010000000000000000000002 20010db8000000000000000000000001
            4528 001c 0001 e000 01 11 dd9f c0000002 cb007105 1388 0035 000c 2b4a",
            LAST_PIECE,
        ],
        sent: &[
            "00000069 01 00000000000f4240
            60000000 0038 04 40 20010db8000000000000000000000001 20010db8010000000000000000000002
            4500 0038 0000 4000 40 01 bac1 c0000001 c0000002
            0b 00 b5ec 00000000
            4528 0020 0001 4000 01 11 7d9c c0000002 cb007105
            1388 0035 000c 2b4a",
        ],
        ..TOLD
    },
    Case {
        name: "a TTL of 1, in the last piece",
        input: &[
            FIRST_PIECE,
            "00000049 01 00000000000f4240
            60000000 0018 04 40 20010db8010000000000000000000002 20010db8000000000000000000000001
            4500 0018 0001 0001 01 11 bdcb c0000002 cb007105 61626364",
        ],
        ..TWO_PIECES
    },
    Case {
        name: "about an error none is made",
        input: &[
            "00000055 01 00000000000f4240
            60000000 0024 04 40 20010db8010000000000000000000002 20010db8000000000000000000000001
            4500 0024 0004 2000 01 01 9dcd c0000002 cb007105 03 03 f922 00000000 4500 0020 0007 0000",
            "0000005d 01 00000000000f4240
            60000000 002c 04 40 20010db8010000000000000000000002 20010db8000000000000000000000001
            4500 002c 0004 0002 40 01 7ec3 c0000002 cb007105 3f 11 7fbe cb007105 c0000002 0035 1388 000c 2b4a 61626364",
        ],
        report: "records 2\nsent 0\nmarks 0\ndrop TtlSpent 1\n",
        ..TOLD
    },
];

#[test]
fn pieces_make_packets(rt: HostRuntime) {
    check_all(&rt, &WHOLE);
}

#[test]
fn pieces_that_overlap(rt: HostRuntime) {
    check_all(&rt, &OVERLAPS);
}

#[test]
fn pieces_that_are_bad(rt: HostRuntime) {
    check_all(&rt, &BAD);
}

#[test]
fn packets_that_are_refused_once_they_are_whole(rt: HostRuntime) {
    check_all(&rt, &INSIDE);
}

#[test]
fn errors_about_packets_that_came_in_pieces(rt: HostRuntime) {
    check_all(&rt, &ERRORS);
}
