//! Packets that are longer than their link takes, and leave cut: into a softwire as fragments of the IPv6 packet (RFC 8200
//! section 4.5, RFC 6333 section 5.3), to the public side as IPv4 pieces (RFC 791 section 3.2).

use crate::case::{Case, RUN};
use crate::configs::{Ending, check_run, defaults};
use crate::driver::check_all;
use crate::logs::{Frame, LogFile};
use crate::packets::{
    FIRST_FRAME, FIRST_SENT, HEAD, NEXT_HEAD, OTHER, OTHER_FRAME, OTHER_SENT, PACKET,
};
use aftr_base::DropCause;

// Behind the first packet comes one that goes into its softwire, in two fragments.
const TO_SOFTWIRE: Case<'static> = Case {
    report: "records 2\nsent 3\nmarks 0\n",
    log_after: LogFile::Frames(&[FIRST_FRAME]),
    ..RUN
};

// One packet goes to the public side, in two pieces.
const TO_PUBLIC: Case<'static> = Case {
    report: "records 1\nsent 2\nmarks 0\n",
    log_after: LogFile::Frames(&[FIRST_FRAME]),
    ..RUN
};
// A reply fills the 1,500 bytes of the softwire, is a byte longer than that, and so is one that may not be cut as IPv4.
static FOR_SOFTWIRE: [Case<'static>; 3] = [
    Case {
        name: "as long as the softwire takes",
        input: &[
            HEAD,
            PACKET,
            "000005bd 02 00000000000f4240
    4500 05b4 0007 0000 40 11 7724 cb007105 c0000208
    0035 0400 05a0 77f0 61x1372 62x60",
        ],
        report: "records 2\nsent 2\nmarks 0\n",
        sent: &[
            FIRST_SENT,
            "000005e5 01 00000000000f4240
    60000000 05b4 04 40
    20010db8000000000000000000000001 20010db8010000000000000000000002
    4500 05b4 0007 0000 3f 11 7a2a cb007105 c0000002
    0035 1388 05a0 6a6e 61x1372 62x60",
        ],
        ..TO_SOFTWIRE
    },
    Case {
        name: "a byte longer, with a TOS",
        input: &[
            HEAD,
            PACKET,
            "000005be 02 00000000000f4240
    4528 05b5 0007 0000 40 11 76fb cb007105 c0000208
    0035 0400 05a1 16ee 61x1373 62x60",
        ],
        sent: &[
            FIRST_SENT,
            "000005e1 01 00000000000f4240
    62800000 05b0 2c 40
    20010db8000000000000000000000001 20010db8010000000000000000000002
    04 00 0001 00000000
    4528 05b5 0007 0000 3f 11 7a01 cb007105 c0000002
    0035 1388 05a1 096c 61x1373 62x47",
            "00000046 01 00000000000f4240
    62800000 0015 2c 40
    20010db8000000000000000000000001 20010db8010000000000000000000002
    04 00 05a8 00000000 62x13",
        ],
        ..TO_SOFTWIRE
    },
    Case {
        name: "a byte longer than two fragments, with DF",
        input: &[
            HEAD,
            PACKET,
            "00000b5a 02 00000000000f4240
    4500 0b51 0007 4000 40 11 3187 cb007105 c0000208
    0035 0400 0b3d 0000 61x2809 62x60",
        ],
        report: "records 2\nsent 4\nmarks 0\n",
        sent: &[
            FIRST_SENT,
            "000005e1 01 00000000000f4240
    60000000 05b0 2c 40
    20010db8000000000000000000000001 20010db8010000000000000000000002
    04 00 0001 00000000
    4500 0b51 0007 4000 3f 11 348d cb007105 c0000002
    0035 1388 0b3d 0000 61x1420",
            "000005e1 01 00000000000f4240
    60000000 05b0 2c 40
    20010db8000000000000000000000001 20010db8010000000000000000000002
    04 00 05a9 00000000 61x1389 62x59",
            "0000003a 01 00000000000f4240
    60000000 0009 2c 40
    20010db8000000000000000000000001 20010db8010000000000000000000002
    04 00 0b50 00000000 62",
        ],
        ..TO_SOFTWIRE
    },
];

// A packet fills the 1,500 bytes of the public side, is a byte longer than that, and than two pieces.
static FOR_PUBLIC: [Case<'static>; 3] = [
    Case {
        name: "as long as the public side takes",
        input: &[
            "0000060d 01 00000000000f4240
    60000000 05dc 04 40
    20010db8010000000000000000000002 20010db8000000000000000000000001
    4500 05dc 0001 0000 40 11 7908 c0000002 cb007105
    1388 0035 05c8 ce82 61x1412 62x60",
        ],
        report: "records 1\nsent 1\nmarks 0\n",
        sent: &[
            "000005e5 02 00000000000f4240
    4500 05dc 0001 0000 3f 11 7802 c0000208 cb007105
    0400 0035 05c8 dc04 61x1412 62x60",
        ],
        ..TO_PUBLIC
    },
    Case {
        name: "a byte longer, with a TOS, an identification and the reserved flag",
        input: &[
            "0000060e 01 00000000000f4240
    60000000 05dd 04 40
    20010db8010000000000000000000002 20010db8000000000000000000000001
    4528 05dd 1234 8000 40 11 e6ab c0000002 cb007105
    1388 0035 05c9 6d80 61x1413 62x60",
        ],
        sent: &[
            "000005e5 02 00000000000f4240
    4528 05dc 1234 2000 3f 11 45a7 c0000208 cb007105
    0400 0035 05c9 7b02 61x1413 62x59",
            "0000001e 02 00000000000f4240
    4528 0015 1234 00b9 3f 11 6ab5 c0000208 cb007105
    62",
        ],
        ..TO_PUBLIC
    },
    Case {
        name: "a byte longer than two pieces",
        input: &[
            "00000bd6 01 00000000000f4240
    60000000 0ba5 04 40
    20010db8010000000000000000000002 20010db8000000000000000000000001
    4500 0ba5 0001 0000 40 11 733f c0000002 cb007105
    1388 0035 0b91 0000 61x2893 62x60",
        ],
        report: "records 1\nsent 3\nmarks 0\n",
        sent: &[
            "000005e5 02 00000000000f4240
    4500 05dc 0001 2000 3f 11 5802 c0000208 cb007105
    0400 0035 0b91 0000 61x1472",
            "000005e5 02 00000000000f4240
    4500 05dc 0001 20b9 3f 11 5749 c0000208 cb007105
    61x1421 62x59",
            "0000001e 02 00000000000f4240
    4500 0015 0001 0172 3f 11 7c57 c0000208 cb007105
    62",
        ],
        ..TO_PUBLIC
    },
];

// A packet that may not be cut, and what its sender is told where it is too long.
static MAY_NOT_BE_CUT: [Case<'static>; 3] = [
    Case {
        name: "as long as the public side takes",
        input: &[
            "0000060d 01 00000000000f4240
    60000000 05dc 04 40
    20010db8010000000000000000000002 20010db8000000000000000000000001
    4500 05dc 0001 4000 40 11 3908 c0000002 cb007105
    1388 0035 05c8 0000 61x1412 62x60",
        ],
        report: "records 1\nsent 1\nmarks 0\n",
        sent: &[
            "000005e5 02 00000000000f4240
    4500 05dc 0001 4000 3f 11 3802 c0000208 cb007105
    0400 0035 05c8 0000 61x1412 62x60",
        ],
        ..TO_PUBLIC
    },
    Case {
        name: "a byte longer",
        input: &[
            "0000060e 01 00000000000f4240
    60000000 05dd 04 40
    20010db8010000000000000000000002 20010db8000000000000000000000001
    4500 05dd 0001 4000 40 11 3907 c0000002 cb007105
    1388 0035 05c9 0000 61x1413 62x60",
        ],
        report: "records 1\nsent 1\nmarks 0\ndrop TooBig 1\n",
        sent: &[
            "00000069 01 00000000000f4240
    60000000 0038 04 40
    20010db8000000000000000000000001 20010db8010000000000000000000002
    4500 0038 0000 4000 40 01 bac1 c0000001 c0000002
    03 04 dd99 000005dc
    4500 05dd 0001 4000 40 11 3907 c0000002 cb007105
    1388 0035 05c9 0000",
        ],
        log_after: LogFile::Frames(&[]),
        drops: &[(DropCause::TooBig, 1)],
        ..TO_PUBLIC
    },
    Case {
        name: "longer than that, and cut for the softwire on its way",
        input: &[
            "00000359 01 00000000000f4240
    60000000 0328 2c 40
    20010db8010000000000000000000002 20010db8000000000000000000000001
    04 00 0001 00000007
    4500 05f0 0001 4000 40 11 38f4 c0000002 cb007105
    1388 0035 05dc e470 00x772",
            "00000309 01 00000000000f4240
    60000000 02d8 2c 40
    20010db8010000000000000000000002 20010db8000000000000000000000001
    04 00 0320 00000007 00x720",
        ],
        report: "records 2\nsent 1\nmarks 0\ndrop TooBig 1\n",
        sent: &[
            "00000069 01 00000000000f4240
    60000000 0038 04 40
    20010db8000000000000000000000001 20010db8010000000000000000000002
    4500 0038 0000 4000 40 01 bac1 c0000001 c0000002
    03 04 f915 000005dc
    4500 05f0 0001 4000 40 11 38f4 c0000002 cb007105
    1388 0035 05dc e470",
        ],
        log_after: LogFile::Frames(&[]),
        drops: &[(DropCause::TooBig, 1)],
        ..TO_PUBLIC
    },
];

// Packets that come in pieces, are put together, and are cut again.
static CUT_AGAIN: [Case<'static>; 3] = [
    Case {
        name: "two fragments from a softwire, and two pieces out",
        input: &[
            "00000359 01 00000000000f4240
    60000000 0328 2c 40
    20010db8010000000000000000000002 20010db8000000000000000000000001
    04 00 0001 00000007
    4500 05f0 0001 0000 40 11 78f4 c0000002 cb007105
    1388 0035 05dc e470 00x772",
            "00000309 01 00000000000f4240
    60000000 02d8 2c 40
    20010db8010000000000000000000002 20010db8000000000000000000000001
    04 00 0320 00000007 00x720",
        ],
        report: "records 2\nsent 2\nmarks 0\n",
        sent: &[
            "000005e5 02 00000000000f4240
    4500 05dc 0001 2000 3f 11 5802 c0000208 cb007105
    0400 0035 05dc f1f2 00x1472",
            "00000031 02 00000000000f4240
    4500 0028 0001 00b9 3f 11 7cfd c0000208 cb007105
    00x20",
        ],
        ..TO_PUBLIC
    },
    Case {
        name: "three IPv4 pieces from a softwire, and two out",
        input: &[
            "000001c1 01 00000000000f4240
    60000000 0190 04 40
    20010db8010000000000000000000002 20010db8000000000000000000000001
    4500 0190 0009 0096 40 11 7cb6 c0000002 cb007105
    61x320 62x60",
            "00000365 01 00000000000f4240
    60000000 0334 04 40
    20010db8010000000000000000000002 20010db8000000000000000000000001
    4500 0334 0009 2000 40 11 5ba8 c0000002 cb007105
    1388 0035 062c c8b5 61x792",
            "000001d5 01 00000000000f4240
    60000000 01a4 04 40
    20010db8010000000000000000000002 20010db8000000000000000000000001
    4500 01a4 0009 2064 40 11 5cd4 c0000002 cb007105
    61x400",
        ],
        report: "records 3\nsent 2\nmarks 0\n",
        sent: &[
            "000005e5 02 00000000000f4240
    4500 05dc 0009 2000 3f 11 57fa c0000208 cb007105
    0400 0035 062c d637 61x1472",
            "00000081 02 00000000000f4240
    4500 0078 0009 00b9 3f 11 7ca5 c0000208 cb007105
    61x40 62x60",
        ],
        ..TO_PUBLIC
    },
    Case {
        name: "two pieces from the public side, and two fragments out",
        input: &[
            HEAD,
            PACKET,
            "00000081 02 00000000000f4240
    4500 0078 0007 00b9 40 11 7ba7 cb007105 c0000208
    61x40 62x60",
            "000005e5 02 00000000000f4240
    4500 05dc 0007 2000 40 11 56fc cb007105 c0000208
    0035 0400 062c d637 61x1472",
        ],
        report: "records 3\nsent 3\nmarks 0\n",
        sent: &[
            FIRST_SENT,
            "000005e1 01 00000000000f4240
    60000000 05b0 2c 40
    20010db8000000000000000000000001 20010db8010000000000000000000002
    04 00 0001 00000000
    4500 0640 0007 0000 3f 11 799e cb007105 c0000002
    0035 1388 062c c8b5 61x1420",
            "000000d1 01 00000000000f4240
    60000000 00a0 2c 40
    20010db8000000000000000000000001 20010db8010000000000000000000002
    04 00 05a8 00000000 61x92 62x60",
        ],
        ..TO_SOFTWIRE
    },
];

// From the first packet's sender to the other subscriber: as long as the softwire takes, and longer than both links take,
// which may not be cut as IPv4.
static BETWEEN_SUBSCRIBERS: [Case<'static>; 2] = [
    Case {
        name: "as long as the softwire takes",
        input: &[
            HEAD,
            PACKET,
            NEXT_HEAD,
            OTHER,
            "000005e5 01 00000000000f4242
    60000000 05b4 04 40
    20010db8010000000000000000000002 20010db8000000000000000000000001
    4500 05b4 0001 0000 40 11 f32d c0000002 c0000208
    1388 0600 05a0 dea0 61x1372 62x60",
        ],
        report: "records 3\nsent 3\nmarks 0\n",
        sent: &[
            FIRST_SENT,
            OTHER_SENT,
            "000005e5 01 00000000000f4242
    60000000 05b4 04 40
    20010db8000000000000000000000001 20010db8010001000000000000000002
    4500 05b4 0001 0000 3f 11 f42d c0000208 c0000002
    0400 1388 05a0 e0a0 61x1372 62x60",
        ],
        log_after: LogFile::Frames(&[FIRST_FRAME, OTHER_FRAME]),
        ..TO_SOFTWIRE
    },
    Case {
        name: "longer than both links take, with DF",
        input: &[
            HEAD,
            PACKET,
            NEXT_HEAD,
            OTHER,
            "0000060e 01 00000000000f4242
    60000000 05dd 04 40
    20010db8010000000000000000000002 20010db8000000000000000000000001
    4528 05dd 0001 4000 40 11 b2dc c0000002 c0000208
    1388 0600 05c9 e1b2 61x1413 62x60",
        ],
        report: "records 3\nsent 4\nmarks 0\n",
        sent: &[
            FIRST_SENT,
            OTHER_SENT,
            "000005e1 01 00000000000f4242
    62800000 05b0 2c 40
    20010db8000000000000000000000001 20010db8010001000000000000000002
    04 00 0001 00000000
    4528 05dd 0001 4000 3f 11 b3dc c0000208 c0000002
    0400 1388 05c9 e3b2 61x1413 62x7",
            "0000006e 01 00000000000f4242
    62800000 003d 2c 40
    20010db8000000000000000000000001 20010db8010001000000000000000002
    04 00 05a8 00000000 62x53",
        ],
        log_after: LogFile::Frames(&[FIRST_FRAME, OTHER_FRAME]),
        ..TO_SOFTWIRE
    },
];

// From port 5000 to port 80 of 203.0.113.5, by 192.0.2.8 port 1024.
const OPENS: &str = "00000059 01 00000000000f4240
    60000000 0028 04 40
    20010db8010000000000000000000002 20010db8000000000000000000000001
    4500 0028 0001 0000 40 06 7ec7 c0000002 cb007105
    1388 0050 000003e8 000007d0 5002 2000 744a 0000";

const OPENS_SENT: &str = "00000031 02 00000000000f4240
    4500 0028 0001 0000 3f 06 7dc1 c0000208 cb007105
    0400 0050 000003e8 000007d0 5002 2000 81cc 0000";

// The answer 10 ms later, of 1,461 bytes, and an RST.
const ANSWER: &str = "000005be 02 00000000000f424a
    4500 05b5 0001 0000 40 06 7734 cb007105 c0000208
    0050 0400 000003e8 000007d0 5012 2000 e8fc 0000 61x1361 62x60";

const ANSWER_FRONT: &str = "000005e1 01 00000000000f424a
    60000000 05b0 2c 40
    20010db8000000000000000000000001 20010db8010000000000000000000002
    04 00 0001 00000000
    4500 05b5 0001 0000 3f 06 7a3a cb007105 c0000002
    0050 1388 000003e8 000007d0 5012 2000 db7a 0000 61x1361 62x47";

const ANSWER_BACK: &str = "00000046 01 00000000000f424a
    60000000 0015 2c 40
    20010db8000000000000000000000001 20010db8010000000000000000000002
    04 00 05a8 00000000 62x13";

const RESET: &str = "000005be 02 00000000000f424a
    4500 05b5 0001 0000 40 06 7734 cb007105 c0000208
    0050 0400 000003e8 000007d0 5014 2000 e8fa 0000 61x1361 62x60";

const RESET_FRONT: &str = "000005e1 01 00000000000f424a
    60000000 05b0 2c 40
    20010db8000000000000000000000001 20010db8010000000000000000000002
    04 00 0001 00000000
    4500 05b5 0001 0000 3f 06 7a3a cb007105 c0000002
    0050 1388 000003e8 000007d0 5014 2000 db78 0000 61x1361 62x47";

// Behind its record's head a further segment, and what goes out of it.
const MORE: &str = "4500 0028 0001 0000 40 06 7cc1 cb007105 c0000208
    0050 0400 000003e8 000007d0 5010 2000 81be 0000";

const MORE_SENT: &str = "60000000 0028 04 40
    20010db8000000000000000000000001 20010db8010000000000000000000002
    4500 0028 0001 0000 3f 06 7fc7 cb007105 c0000002
    0050 1388 000003e8 000007d0 5010 2000 743c 0000";

// A segment that is cut moves its connection's state, whose mapping has a last millisecond by that.
static SEGMENTS: [Case<'static>; 2] = [
    Case {
        name: "7,440 s behind the answer that opened a connection",
        input: &[
            OPENS,
            ANSWER,
            "00000031 02 000000000080c8c9",
            MORE,
            "00000031 02 000000000080c8ca",
            MORE,
        ],
        report: "records 4\nsent 4\nmarks 0\ndrop NoMapping 1\n",
        sent: &[
            OPENS_SENT,
            ANSWER_FRONT,
            ANSWER_BACK,
            "00000059 01 000000000080c8c9",
            MORE_SENT,
        ],
        log_after: LogFile::Frames(&[
            FIRST_FRAME,
            Frame {
                horizon: None,
                blocks: &[
                    "000000000080c8ca 11 20010db8010000000000000000000000 38 c0000208 0400 05ff",
                ],
            },
        ]),
        drops: &[(DropCause::NoMapping, 1)],
        ..TO_SOFTWIRE
    },
    Case {
        name: "240 s behind an RST, whatever comes in behind it",
        input: &[
            OPENS,
            RESET,
            "00000031 02 00000000000f4254",
            MORE,
            "00000031 02 000000000012ebc9",
            MORE,
            "00000031 02 000000000012ebca",
            MORE,
        ],
        report: "records 5\nsent 5\nmarks 0\ndrop NoMapping 1\n",
        sent: &[
            OPENS_SENT,
            RESET_FRONT,
            ANSWER_BACK,
            "00000059 01 00000000000f4254",
            MORE_SENT,
            "00000059 01 000000000012ebc9",
            MORE_SENT,
        ],
        log_after: LogFile::Frames(&[
            FIRST_FRAME,
            Frame {
                horizon: None,
                blocks: &[
                    "000000000012ebca 11 20010db8010000000000000000000000 38 c0000208 0400 05ff",
                ],
            },
        ]),
        drops: &[(DropCause::NoMapping, 1)],
        ..TO_SOFTWIRE
    },
];

// ICMP errors that quote long packets: one that goes out, of 1,501 bytes, one that comes in, of 1,461, and one of 1,461 from the
// other subscriber to the first.
static ERRORS: [Case<'static>; 3] = [
    Case {
        name: "out",
        input: &[
            HEAD,
            PACKET,
            "0000060e 01 00000000000f42a4
    60000000 05dd 04 40
    20010db8010000000000000000000002 20010db8000000000000000000000001
    4500 05dd 0004 0000 40 01 7914 c0000002 cb007105
    03 03 bfcf 00000000
    4500 05c1 0007 0000 3f 11 7a1d cb007105 c0000002
    0035 1388 05ad 0000 61x1385 62x60",
        ],
        sent: &[
            FIRST_SENT,
            "000005e5 02 00000000000f42a4
    4500 05dc 0004 2000 3f 01 580f c0000208 cb007105
    03 03 cf57 00000000
    4500 05c1 0007 0000 3f 11 7817 cb007105 c0000208
    0035 0400 05ad 0000 61x1385 62x59",
            "0000001e 02 00000000000f42a4
    4500 0015 0004 00b9 3f 01 7d1d c0000208 cb007105
    62",
        ],
        ..TO_SOFTWIRE
    },
    Case {
        name: "in, with a TOS",
        input: &[
            HEAD,
            PACKET,
            "000005be 02 00000000000f42a4
    45c0 05b5 0002 0000 39 01 7d78 cb007105 c0000208
    03 03 6b1b 00000000
    4500 0599 0001 0000 39 11 7e45 c0000208 cb007105
    0400 0035 0585 0000 61x1345 62x60",
        ],
        sent: &[
            FIRST_SENT,
            "000005e1 01 00000000000f42a4
    6c000000 05b0 2c 40
    20010db8000000000000000000000001 20010db8010000000000000000000002
    04 00 0001 00000000
    45c0 05b5 0002 0000 38 01 807e cb007105 c0000002
    03 03 5b93 00000000
    4500 0599 0001 0000 39 11 804b c0000002 cb007105
    1388 0035 0585 0000 61x1345 62x47",
            "00000046 01 00000000000f42a4
    6c000000 0015 2c 40
    20010db8000000000000000000000001 20010db8010000000000000000000002
    04 00 05a8 00000000 62x13",
        ],
        ..TO_SOFTWIRE
    },
    Case {
        name: "between subscribers",
        input: &[
            HEAD,
            PACKET,
            NEXT_HEAD,
            OTHER,
            "000005e6 01 00000000000f4308
    60000000 05b5 04 40
    20010db8010001000000000000000002 20010db8000000000000000000000001
    4500 05b5 0004 0000 40 01 f339 c0000002 c0000208
    03 03 57c8 00000000
    4500 0599 0001 0000 3f 11 f448 c0000208 c0000002
    0400 1388 0585 0000 61x1345 62x60",
        ],
        report: "records 3\nsent 4\nmarks 0\n",
        sent: &[
            FIRST_SENT,
            OTHER_SENT,
            "000005e1 01 00000000000f4308
    60000000 05b0 2c 40
    20010db8000000000000000000000001 20010db8010000000000000000000002
    04 00 0001 00000000
    4500 05b5 0004 0000 3f 01 f439 c0000208 c0000002
    03 03 55c8 00000000
    4500 0599 0001 0000 3f 11 f448 c0000002 c0000208
    1388 0600 0585 0000 61x1345 62x47",
            "00000046 01 00000000000f4308
    60000000 0015 2c 40
    20010db8000000000000000000000001 20010db8010000000000000000000002
    04 00 05a8 00000000 62x13",
        ],
        log_after: LogFile::Frames(&[FIRST_FRAME, OTHER_FRAME]),
        ..TO_SOFTWIRE
    },
];

#[test]
fn packets_for_a_softwire(rt: HostRuntime) {
    check_all(&rt, &FOR_SOFTWIRE);
}

#[test]
fn packets_for_the_public_side(rt: HostRuntime) {
    check_all(&rt, &FOR_PUBLIC);
}

#[test]
fn packets_that_may_not_be_cut(rt: HostRuntime) {
    check_all(&rt, &MAY_NOT_BE_CUT);
}

#[test]
fn packets_that_come_in_pieces_and_leave_in_others(rt: HostRuntime) {
    check_all(&rt, &CUT_AGAIN);
}

#[test]
fn packets_between_subscribers(rt: HostRuntime) {
    check_all(&rt, &BETWEEN_SUBSCRIBERS);
}

#[test]
fn segments_that_are_cut_move_their_connection(rt: HostRuntime) {
    check_all(&rt, &SEGMENTS);
}

#[test]
fn errors_that_go_on_cut(rt: HostRuntime) {
    check_all(&rt, &ERRORS);
}

#[test]
fn a_reply_of_1_300_bytes_for_a_softwire_of_1_280(rt: HostRuntime) {
    let mut config = defaults(&rt);
    config.softwire_mtu = 1280;
    let input = [
        HEAD,
        PACKET,
        "0000051d 02 00000000000f4241
    4500 0514 0009 0000 40 11 77c2 cb007105 c0000208
    0035 0400 0500 f3aa 00x1272",
    ];
    let ending = Ending {
        report: "records 2\nsent 3\nmarks 0\n",
        sent: &[
            FIRST_SENT,
            "00000509 01 00000000000f4241
    60000000 04d8 2c 40
    20010db8000000000000000000000001 20010db8010000000000000000000002
    04 00 0001 00000000
    4500 0514 0009 0000 3f 11 7ac8 cb007105 c0000002
    0035 1388 0500 e628 00x1204",
            "0000007d 01 00000000000f4241
    60000000 004c 2c 40
    20010db8000000000000000000000001 20010db8010000000000000000000002
    04 00 04d0 00000000 00x68",
        ],
        log: LogFile::Frames(&[FIRST_FRAME]),
    };
    check_run(&rt, config, &input, &ending);
}

// Of the 1,239 bytes that a fragment has room for, 1,232 are used.
#[test]
fn fragments_carry_whole_eights_of_bytes(rt: HostRuntime) {
    let mut config = defaults(&rt);
    config.softwire_mtu = 1287;
    let input = [
        HEAD,
        PACKET,
        "000004e8 02 00000000000f4240
    4500 04df 0007 0000 40 11 77f9 cb007105 c0000208
    0035 0400 04cb 0000 61x1159 62x60",
        "000004e9 02 00000000000f4240
    4500 04e0 0007 0000 40 11 77f8 cb007105 c0000208
    0035 0400 04cc 0000 61x1160 62x60",
    ];
    let ending = Ending {
        report: "records 3\nsent 4\nmarks 0\n",
        sent: &[
            FIRST_SENT,
            "00000510 01 00000000000f4240
    60000000 04df 04 40
    20010db8000000000000000000000001 20010db8010000000000000000000002
    4500 04df 0007 0000 3f 11 7aff cb007105 c0000002
    0035 1388 04cb 0000 61x1159 62x60",
            "00000509 01 00000000000f4240
    60000000 04d8 2c 40
    20010db8000000000000000000000001 20010db8010000000000000000000002
    04 00 0001 00000000
    4500 04e0 0007 0000 3f 11 7afe cb007105 c0000002
    0035 1388 04cc 0000 61x1160 62x44",
            "00000049 01 00000000000f4240
    60000000 0018 2c 40
    20010db8000000000000000000000001 20010db8010000000000000000000002
    04 00 04d0 00000000 62x16",
        ],
        log: LogFile::Frames(&[FIRST_FRAME]),
    };
    check_run(&rt, config, &input, &ending);
}

// Of the 556 bytes that a piece has room for, 552 are used.
#[test]
fn pieces_carry_whole_eights_of_bytes(rt: HostRuntime) {
    let mut config = defaults(&rt);
    config.public_mtu = 576;
    let input = [
        "00000271 01 00000000000f4240
    60000000 0240 04 40
    20010db8010000000000000000000002 20010db8000000000000000000000001
    4500 0240 0001 0000 40 11 7ca4 c0000002 cb007105
    1388 0035 022c 0000 61x488 62x60",
        "00000272 01 00000000000f4240
    60000000 0241 04 40
    20010db8010000000000000000000002 20010db8000000000000000000000001
    4500 0241 0001 0000 40 11 7ca3 c0000002 cb007105
    1388 0035 022d 0000 61x489 62x60",
    ];
    let ending = Ending {
        report: "records 2\nsent 3\nmarks 0\n",
        sent: &[
            "00000249 02 00000000000f4240
    4500 0240 0001 0000 3f 11 7b9e c0000208 cb007105
    0400 0035 022c 0000 61x488 62x60",
            "00000245 02 00000000000f4240
    4500 023c 0001 2000 3f 11 5ba2 c0000208 cb007105
    0400 0035 022d 0000 61x489 62x55",
            "00000022 02 00000000000f4240
    4500 0019 0001 0045 3f 11 7d80 c0000208 cb007105
    62x5",
        ],
        log: LogFile::Frames(&[FIRST_FRAME]),
    };
    check_run(&rt, config, &input, &ending);
}
