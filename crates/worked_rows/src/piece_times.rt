//! How long pieces are held: 60 s from the first of a packet on (RFC 8200 section 4.5).

use crate::case::{Case, RUN};
use crate::driver::check_all;
use crate::fragments::{FIRST_HALF, FRAGMENT, SECOND_HALF};
use crate::logs::{Frame, LogFile};
use crate::packets::{FIRST_FRAME, FIRST_SENT, HEAD, PACKET};
use aftr_base::DropCause;

// A fragment in the last millisecond that a packet's first one from 1,000,000 is held, and at its end.
const LAST_FRAGMENT: &str = "00000049 01 0000000000102c9f
    60000000 0018 2c 40 20010db8010000000000000000000002 20010db8000000000000000000000001";

const LATE_FRAGMENT: &str = "00000049 01 0000000000102ca0
    60000000 0018 2c 40 20010db8010000000000000000000002 20010db8000000000000000000000001";

// The first packet as it leaves then, and what is logged before.
const LAST_SENT: &str = "00000029 02 0000000000102c9f
    4500 0020 0001 0000 3f 11 7dbe c0000208 cb007105 0400 0035 000c 38cc 61626364";

const LATE_SENT: &str = "00000029 02 0000000000102ca0
    4500 0020 0001 0000 3f 11 7dbe c0000208 cb007105 0400 0035 000c 38cc 61626364";

const LAST_FRAME: Frame<'static> = Frame {
    horizon: Some("0000000000102c9f 000000000010346f"),
    blocks: &["0000000000102c9f 10 20010db8010000000000000000000000 38 c0000208 0400 05ff"],
};

const LATE_FRAME: Frame<'static> = Frame {
    horizon: Some("0000000000102ca0 0000000000103470"),
    blocks: &["0000000000102ca0 10 20010db8010000000000000000000000 38 c0000208 0400 05ff"],
};

// The packet leaves in that millisecond.
const LAST: Case<'static> = Case {
    report: "records 2\nsent 1\nmarks 0\n",
    sent: &[LAST_SENT],
    log_after: LogFile::Frames(&[LAST_FRAME]),
    ..RUN
};

// It leaves at the end, once all its pieces came again.
const LATE: Case<'static> = Case {
    report: "records 3\nsent 1\nmarks 0\n",
    sent: &[LATE_SENT],
    log_after: LogFile::Frames(&[LATE_FRAME]),
    ..RUN
};

// It never leaves.
const NEVER: Case<'static> = Case {
    report: "records 3\nsent 0\nmarks 0\n",
    ..RUN
};

static FRAGMENTS: [Case<'static>; 8] = [
    Case {
        name: "in the last millisecond",
        input: &[FRAGMENT, FIRST_HALF, LAST_FRAGMENT, SECOND_HALF],
        ..LAST
    },
    Case {
        name: "at the end, and then once more",
        input: &[
            FRAGMENT,
            FIRST_HALF,
            LATE_FRAGMENT,
            SECOND_HALF,
            LATE_FRAGMENT,
            FIRST_HALF,
        ],
        ..LATE
    },
    Case {
        name: "a tick at the end, and then both once more",
        input: &[
            FRAGMENT,
            FIRST_HALF,
            "00000009 03 0000000000102ca0",
            FRAGMENT,
            SECOND_HALF,
            FRAGMENT,
            FIRST_HALF,
        ],
        report: "records 4\nsent 1\nmarks 0\n",
        ..LATE
    },
    Case {
        name: "from the first one on, and not from the one before the last",
        input: &[
            "00000041 01 00000000000f4240
            60000000 0010 2c 40 20010db8010000000000000000000002 20010db8000000000000000000000001",
            "04 00 0001 00000007 4500 0020 0001 0000",
            "00000041 01 0000000000100590
            60000000 0010 2c 40 20010db8010000000000000000000002 20010db8000000000000000000000001",
            "04 00 0009 00000007 40 11 7ec4 c0000002",
            LATE_FRAGMENT,
            SECOND_HALF,
            LATE_FRAGMENT,
            FIRST_HALF,
        ],
        report: "records 4\nsent 1\nmarks 0\n",
        ..LATE
    },
    Case {
        name: "the same one again moves nothing",
        input: &[
            FRAGMENT,
            FIRST_HALF,
            LAST_FRAGMENT,
            FIRST_HALF,
            LATE_FRAGMENT,
            SECOND_HALF,
        ],
        ..NEVER
    },
    Case {
        name: "from where the clock stood, and not from the record's own moment",
        input: &[
            "00000009 03 00000000000f4240",
            "00000049 01 00000000000dbba0
            60000000 0018 2c 40 20010db8010000000000000000000002 20010db8000000000000000000000001",
            FIRST_HALF,
            LAST_FRAGMENT,
            SECOND_HALF,
        ],
        report: "records 3\nsent 1\nmarks 0\n",
        ..LAST
    },
    Case {
        name: "what ended begins anew",
        input: &[
            FRAGMENT,
            FIRST_HALF,
            "00000049 01 00000000000f9060
            60000000 0018 2c 40 20010db8010000000000000000000002 20010db8000000000000000000000001",
            "04 00 0009 00000007 40 11 7ec4 c0000002 cb007105 1388 0035",
            "00000049 01 00000000000f9060
            60000000 0018 2c 40 20010db8010000000000000000000002 20010db8000000000000000000000001",
            SECOND_HALF,
            "00000049 01 0000000000107abf
            60000000 0018 2c 40 20010db8010000000000000000000002 20010db8000000000000000000000001",
            FIRST_HALF,
        ],
        report: "records 4\nsent 1\nmarks 0\ndrop PieceOverlap 1\n",
        sent: &[
            "00000029 02 0000000000107abf
            4500 0020 0001 0000 3f 11 7dbe c0000208 cb007105
            0400 0035 000c 38cc 61626364",
        ],
        log_after: LogFile::Frames(&[Frame {
            horizon: Some("0000000000107abf 000000000010828f"),
            blocks: &["0000000000107abf 10 20010db8010000000000000000000000 38 c0000208 0400 05ff"],
        }]),
        drops: &[(DropCause::PieceOverlap, 1)],
        ..LATE
    },
    Case {
        name: "and lasts as long",
        input: &[
            FRAGMENT,
            FIRST_HALF,
            "00000049 01 00000000000f9060
            60000000 0018 2c 40 20010db8010000000000000000000002 20010db8000000000000000000000001",
            "04 00 0009 00000007 40 11 7ec4 c0000002 cb007105 1388 0035",
            "00000049 01 00000000000f9060
            60000000 0018 2c 40 20010db8010000000000000000000002 20010db8000000000000000000000001",
            SECOND_HALF,
            "00000049 01 0000000000107ac0
            60000000 0018 2c 40 20010db8010000000000000000000002 20010db8000000000000000000000001",
            FIRST_HALF,
        ],
        report: "records 4\nsent 0\nmarks 0\ndrop PieceOverlap 1\n",
        drops: &[(DropCause::PieceOverlap, 1)],
        ..NEVER
    },
];

static PIECES: [Case<'static>; 5] = [
    Case {
        name: "of a subscriber, in the last millisecond",
        input: &[
            "0000004d 01 00000000000f4240
            60000000 001c 04 40 20010db8010000000000000000000002 20010db8000000000000000000000001
            4500 001c 0001 2000 40 11 5ec8 c0000002 cb007105 1388 0035 000c 2b4a",
            "00000049 01 0000000000102c9f
            60000000 0018 04 40 20010db8010000000000000000000002 20010db8000000000000000000000001
            4500 0018 0001 0001 40 11 7ecb c0000002 cb007105 61626364",
        ],
        ..LAST
    },
    Case {
        name: "of a subscriber, at the end",
        input: &[
            "0000004d 01 00000000000f4240
            60000000 001c 04 40 20010db8010000000000000000000002 20010db8000000000000000000000001
            4500 001c 0001 2000 40 11 5ec8 c0000002 cb007105 1388 0035 000c 2b4a",
            "00000049 01 0000000000102ca0
            60000000 0018 04 40 20010db8010000000000000000000002 20010db8000000000000000000000001
            4500 0018 0001 0001 40 11 7ecb c0000002 cb007105 61626364",
        ],
        report: "records 2\nsent 0\nmarks 0\n",
        ..NEVER
    },
    Case {
        name: "of the public side, in the last millisecond",
        input: &[
            HEAD,
            PACKET,
            "00000025 02 00000000000f4240
            4500 001c 0007 2000 40 11 5cbc cb007105 c0000208 0035 0400 000c 38cc",
            "00000021 02 0000000000102c9f
            4500 0018 0007 0001 40 11 7cbf cb007105 c0000208 61626364",
        ],
        report: "records 3\nsent 2\nmarks 0\n",
        sent: &[
            FIRST_SENT,
            "00000051 01 0000000000102c9f
            60000000 0020 04 40 20010db8000000000000000000000001 20010db8010000000000000000000002
            4500 0020 0007 0000 3f 11 7fbe cb007105 c0000002
            0035 1388 000c 2b4a 61626364",
        ],
        log_after: LogFile::Frames(&[FIRST_FRAME]),
        ..LAST
    },
    Case {
        name: "of the public side, at the end",
        input: &[
            HEAD,
            PACKET,
            "00000025 02 00000000000f4240
            4500 001c 0007 2000 40 11 5cbc cb007105 c0000208 0035 0400 000c 38cc",
            "00000021 02 0000000000102ca0
            4500 0018 0007 0001 40 11 7cbf cb007105 c0000208 61626364",
        ],
        report: "records 3\nsent 1\nmarks 0\n",
        sent: &[FIRST_SENT],
        log_after: LogFile::Frames(&[FIRST_FRAME]),
        ..NEVER
    },
    Case {
        name: "a piece in two fragments, from the moment on that it is whole",
        input: &[
            "00000049 01 00000000000f4240
            60000000 0018 2c 40 20010db8010000000000000000000002 20010db8000000000000000000000001",
            "04 00 0001 00000007 4500 001c 0001 2000 40 11 5ec8 c0000002",
            "00000045 01 00000000000f6950
            60000000 0014 2c 40 20010db8010000000000000000000002 20010db8000000000000000000000001",
            "04 00 0010 00000007 cb007105 1388 0035 000c 2b4a",
            "00000049 01 00000000001053af
            60000000 0018 04 40 20010db8010000000000000000000002 20010db8000000000000000000000001
            4500 0018 0001 0001 40 11 7ecb c0000002 cb007105 61626364",
        ],
        sent: &[
            "00000029 02 00000000001053af
            4500 0020 0001 0000 3f 11 7dbe c0000208 cb007105
            0400 0035 000c 38cc 61626364",
        ],
        log_after: LogFile::Frames(&[Frame {
            horizon: Some("00000000001053af 0000000000105b7f"),
            blocks: &["00000000001053af 10 20010db8010000000000000000000000 38 c0000208 0400 05ff"],
        }]),
        ..LATE
    },
];

#[test]
fn fragments_are_held_for_a_minute(rt: HostRuntime) {
    check_all(&rt, &FRAGMENTS);
}

#[test]
fn ipv4_pieces_are_held_for_a_minute(rt: HostRuntime) {
    check_all(&rt, &PIECES);
}
