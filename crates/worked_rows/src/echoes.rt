//! Echo messages and the identifiers that they have for ports (RFC 792, RFC 5508 section 3).

use crate::case::{Case, RUN};
use crate::driver::check_all;
use crate::logs::{Frame, LogFile};
use crate::packets::{FIRST_FRAME, FIRST_SENT, HEAD, PACKET, TUNNEL};
use aftr_base::DropCause;

// From 192.0.0.2 to 203.0.113.5.
const INNER: &str = "4500 0020 0001 0000 40 01 7ed4 c0000002 cb007105";

// A request with identifier 7, and a reply.
const REQUEST: &str = "08 00 1927 0007 0001 70696e67";

const ANSWER: &str = "00 00 2127 0007 0001 70696e67";

// The request as it goes out: from 192.0.2.8 with identifier 1024. So does the reply.
const REQUEST_SENT: &str = "00000029 02 00000000000f4240
    4500 0020 0001 0000 3f 01 7dce c0000208 cb007105 08 00 152e 0400 0001 70696e67";

const ANSWER_SENT: &str = "00000029 02 00000000000f4240
    4500 0020 0001 0000 3f 01 7dce c0000208 cb007105 00 00 1d2e 0400 0001 70696e67";

// In the last millisecond of the 60 s that the mapping lasts, 1,059,999, and what goes out.
const LAST: &str = "00000029 02 0000000000102c9f";

const LAST_SENT: &str = "00000051 01 0000000000102c9f";

// At the mapping's deadline, 1,060,000.
const LATE: &str = "00000029 02 0000000000102ca0";

// From 203.0.113.5 to 192.0.2.8, and the reply to the request.
const BACK: &str = "4500 0020 0001 0000 40 01 7cce cb007105 c0000208";

const REPLY: &str = "00 00 1d2e 0400 0001 70696e67";

const REPLY_SENT: &str = "60000000 0020 04 40
    20010db8000000000000000000000001 20010db8010000000000000000000002
    4500 0020 0001 0000 3f 01 7fd4 cb007105 c0000002 00 00 2127 0007 0001 70696e67";

const CLOSED: Frame<'static> = Frame {
    horizon: None,
    blocks: &[
        "0000000000102ca0 11
        20010db8010000000000000000000000 38 c0000208 0400 05ff",
    ],
};

static PASSING: [Case<'static>; 4] = [
    Case {
        name: "a reply up to the mapping's deadline",
        input: &[
            HEAD, TUNNEL, INNER, REQUEST, LAST, BACK, REPLY, LATE, BACK, REPLY,
        ],
        report: "records 3\nsent 2\nmarks 0\ndrop NoMapping 1\n",
        sent: &[REQUEST_SENT, LAST_SENT, REPLY_SENT],
        log_after: LogFile::Frames(&[FIRST_FRAME, CLOSED]),
        drops: &[(DropCause::NoMapping, 1)],
        ..RUN
    },
    Case {
        name: "a datagram and a request have the same port",
        input: &[HEAD, PACKET, HEAD, TUNNEL, INNER, REQUEST],
        report: "records 2\nsent 2\nmarks 0\n",
        sent: &[FIRST_SENT, REQUEST_SENT],
        log_after: LogFile::Frames(&[FIRST_FRAME]),
        ..RUN
    },
    Case {
        name: "a reply goes out by the mapping that a request made",
        input: &[HEAD, TUNNEL, INNER, REQUEST, HEAD, TUNNEL, INNER, ANSWER],
        report: "records 2\nsent 2\nmarks 0\n",
        sent: &[REQUEST_SENT, ANSWER_SENT],
        log_after: LogFile::Frames(&[FIRST_FRAME]),
        ..RUN
    },
    // Out with identifier 1024, and in with 7 again.
    Case {
        name: "a request to its own address",
        input: &[
            HEAD,
            TUNNEL,
            "4500 0020 0001 0000 40 01 f8d1 c0000002 c0000208",
            REQUEST,
        ],
        report: "records 1\nsent 1\nmarks 0\n",
        sent: &[
            "00000051 01 00000000000f4240",
            "60000000 0020 04 40
            20010db8000000000000000000000001 20010db8010000000000000000000002
            4500 0020 0001 0000 3f 01 f9d1 c0000208 c0000002",
            REQUEST,
        ],
        log_after: LogFile::Frames(&[FIRST_FRAME]),
        ..RUN
    },
];

static REFUSED: [Case<'static>; 5] = [
    Case {
        name: "a reply without a mapping",
        input: &[HEAD, TUNNEL, INNER, ANSWER],
        report: "records 1\nsent 0\nmarks 0\ndrop NoMapping 1\n",
        drops: &[(DropCause::NoMapping, 1)],
        ..RUN
    },
    Case {
        name: "a wrong checksum",
        input: &[HEAD, TUNNEL, INNER, "08 00 1928 0007 0001 70696e67"],
        ..BAD_PACKET
    },
    Case {
        name: "no checksum",
        input: &[HEAD, TUNNEL, INNER, "08 00 0000 0007 0001 70696e67"],
        ..BAD_PACKET
    },
    Case {
        name: "a timestamp, of type 13",
        input: &[HEAD, TUNNEL, INNER, "0d 00 1427 0007 0001 70696e67"],
        ..NO_PROTOCOL
    },
    Case {
        name: "a redirect, of type 5",
        input: &[HEAD, TUNNEL, INNER, "05 00 1c27 0007 0001 70696e67"],
        ..NO_PROTOCOL
    },
];

const BAD_PACKET: Case<'static> = Case {
    report: "records 1\nsent 0\nmarks 0\ndrop BadPacket 1\n",
    drops: &[(DropCause::BadPacket, 1)],
    ..RUN
};

const NO_PROTOCOL: Case<'static> = Case {
    report: "records 1\nsent 0\nmarks 0\ndrop NoProtocol 1\n",
    drops: &[(DropCause::NoProtocol, 1)],
    ..RUN
};

#[test]
fn echo_messages_that_get_through(rt: HostRuntime) {
    check_all(&rt, &PASSING);
}

#[test]
fn messages_that_are_refused(rt: HostRuntime) {
    check_all(&rt, &REFUSED);
}
