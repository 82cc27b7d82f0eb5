//! Replies on their way back to a subscriber.

use crate::case::{Case, RUN};
use crate::driver::check_all;
use crate::logs::LogFile;
use crate::packets::{
    CLOSED_FRAME, FIRST_FRAME, FIRST_SENT, HEAD, NEXT_HEAD, PACKET, REPLY, REPLY_SENT,
};
use aftr_base::DropCause;

// A reply 400 ms behind the packet that it answers, and what goes out.
const SOON: &str = "00000029 02 00000000000f43d0";

const SOON_SENT: &str = "00000051 01 00000000000f43d0";

// In the last millisecond of the 300 s that the mapping lasts, 1,299,999, and what goes out.
const LAST: &str = "00000029 02 000000000013d61f";

const LAST_SENT: &str = "00000051 01 000000000013d61f";

// At the mapping's deadline, 1,300,000, and what goes out where it was moved.
const LATE: &str = "00000029 02 000000000013d620";

const LATE_SENT: &str = "00000051 01 000000000013d620";

static REPLIES: [Case<'static>; 2] = [
    Case {
        name: "a reply",
        input: &[HEAD, PACKET, SOON, REPLY],
        report: "records 2\nsent 2\nmarks 0\n",
        sent: &[FIRST_SENT, SOON_SENT, REPLY_SENT],
        log_after: LogFile::Frames(&[FIRST_FRAME]),
        ..RUN
    },
    Case {
        name: "a reply to no mapping",
        input: &[SOON, REPLY],
        report: "records 1\nsent 0\nmarks 0\ndrop NoMapping 1\n",
        drops: &[(DropCause::NoMapping, 1)],
        ..RUN
    },
];

/// The mapping has gone, and a second frame closes the block.
pub const REPLY_AT_DEADLINE: Case<'static> = Case {
    name: "a reply at the deadline",
    input: &[HEAD, PACKET, LATE, REPLY],
    report: "records 2\nsent 1\nmarks 0\ndrop NoMapping 1\n",
    sent: &[FIRST_SENT],
    log_after: LogFile::Frames(&[FIRST_FRAME, CLOSED_FRAME]),
    drops: &[(DropCause::NoMapping, 1)],
    ..RUN
};

static DEADLINES: [Case<'static>; 4] = [
    Case {
        name: "a reply a millisecond before the deadline",
        input: &[HEAD, PACKET, LAST, REPLY],
        report: "records 2\nsent 2\nmarks 0\n",
        sent: &[FIRST_SENT, LAST_SENT, REPLY_SENT],
        log_after: LogFile::Frames(&[FIRST_FRAME]),
        ..RUN
    },
    REPLY_AT_DEADLINE,
    // No reply moves the deadline.
    Case {
        name: "replies up to the deadline",
        input: &[HEAD, PACKET, SOON, REPLY, LAST, REPLY, LATE, REPLY],
        report: "records 4\nsent 3\nmarks 0\ndrop NoMapping 1\n",
        sent: &[FIRST_SENT, SOON_SENT, REPLY_SENT, LAST_SENT, REPLY_SENT],
        log_after: LogFile::Frames(&[FIRST_FRAME, CLOSED_FRAME]),
        drops: &[(DropCause::NoMapping, 1)],
        ..RUN
    },
    Case {
        name: "a reply behind another packet, which moved the deadline",
        input: &[HEAD, PACKET, NEXT_HEAD, PACKET, LATE, REPLY],
        report: "records 3\nsent 3\nmarks 0\n",
        sent: &[
            FIRST_SENT,
            "00000029 02 00000000000f4241
            4500 0020 0001 0000 3f 11 7dbe c0000208 cb007105 0400 0035 000c 38cc 61626364",
            LATE_SENT,
            REPLY_SENT,
        ],
        log_after: LogFile::Frames(&[FIRST_FRAME]),
        ..RUN
    },
];

#[test]
fn replies_come_back(rt: HostRuntime) {
    check_all(&rt, &REPLIES);
}

#[test]
fn replies_at_the_deadline(rt: HostRuntime) {
    check_all(&rt, &DEADLINES);
}
